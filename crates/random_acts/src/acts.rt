// Random acts on units of 40 blocks, and on one of 1100, all of 512 bytes.
ghost use Rattle.std.specs.Prelude.{◌≡◌, ◌<◌, length, IfOk};
ghost use Rattle.random_acts.specs.Asked.{IsOfNexus};

use crate::numbers::Numbers;
use cm_base::{Config, OutOfMemory, Payload, ReservationAction};
use cm_history::{Act, CopyEnd, CopyState, RodBlocks, TokenText};
use lba_ranges::{BlockList, Fill, Piece, Range, RangeList};
use std::alloc::Global;

/// Two rows of one block each, which may be the same.
fn ranges(alloc: Global, numbers: &mut Numbers) -> Result<RangeList, OutOfMemory> {
    let mut ranges = RangeList::empty(alloc);
    ranges.push(Range {
        lba: u64::from(numbers.below(41)),
        count: 1,
    })?;
    ranges.push(Range {
        lba: u64::from(numbers.below(40)),
        count: 1,
    })?;
    Ok(ranges)
}

/// Two mapped blocks.
fn mapped_blocks(alloc: Global, numbers: &mut Numbers) -> Result<BlockList, OutOfMemory>
    ensures { IfOk result (λ list. length list.items ≡ 2) }
{
    let byte = numbers.below(200) as u8 + 1;
    let bytes = vec![in alloc; byte; 1024]?;
    Ok(BlockList::from_payload(alloc, 512, 2, Payload::from_vec(bytes)?)?)
}

/// Two blocks, both mapped or both unmapped.
fn blocks(alloc: Global, numbers: &mut Numbers) -> Result<BlockList, OutOfMemory> {
    if numbers.below(3) > 0 {
        return mapped_blocks(alloc, numbers);
    }
    let mut list = BlockList::empty(alloc, 512);
    list.push(Piece {
        count: 2,
        fill: Fill::Hole,
    })?;
    Ok(list)
}

/// An act on blocks.
fn act_on_blocks(alloc: Global, numbers: &mut Numbers) -> Result<Act, OutOfMemory>
    ensures { IfOk result IsOfNexus }
{
    let lba = u64::from(numbers.below(42));
    match numbers.below(7) {
        0 => Ok(Act::Read { lba, count: 3 }),
        1 => Ok(Act::Capture { lba, count: 3 }),
        2 => Ok(Act::MapStatus { lba }),
        3 => Ok(Act::Unmap {
            ranges: ranges(alloc, numbers)?,
        }),
        4 => Ok(Act::Put {
            lba,
            list: blocks(alloc, numbers)?,
        }),
        _ => Ok(Act::Write {
            lba,
            list: mapped_blocks(alloc, numbers)?,
        }),
    }
}

/// The text of a token of two blocks, which may be altered.
fn text(config: &Config, unit: u16, numbers: &mut Numbers) -> [u8; 512]
    requires { unit < length config.now.units }
{
    let mut text = rod_token::text(config, unit, u64::from(numbers.below(8)), 2);
    if numbers.below(8) == 0 {
        text[100] ^= 1;
    }
    text
}

/// An act on tokens.
fn act_on_tokens(
    alloc: Global,
    config: &Config,
    unit: u16,
    numbers: &mut Numbers,
) -> Result<Act, OutOfMemory>
    requires { unit < length config.now.units }
    ensures { IfOk result IsOfNexus }
{
    match numbers.below(8) {
        0 => Ok(Act::Delete {
            serial: u64::from(numbers.below(8)),
        }),
        1 | 2 | 3 => Ok(Act::Populate {
            id: numbers.below(3),
            timeout: numbers.below(30) + 1,
            ranges: ranges(alloc, numbers)?,
        }),
        _ => Ok(Act::Redeem {
            text: TokenText::new(alloc, &text(config, unit, numbers))?,
            target: numbers.below(2) as u16,
        }),
    }
}

/// An act on operations.
fn act_on_operations(alloc: Global, numbers: &mut Numbers) -> Result<Act, OutOfMemory>
    ensures { IfOk result IsOfNexus }
{
    let id = numbers.below(3);
    match numbers.below(7) {
        0 | 1 => Ok(Act::Start {
            id,
            background: numbers.below(2) == 0,
            ranges: ranges(alloc, numbers)?,
            rod: RodBlocks::new(alloc, blocks(alloc, numbers)?)?,
        }),
        2 => Ok(Act::Advance { id }),
        3 => Ok(Act::End { id }),
        4 => Ok(Act::Abort { id }),
        _ => Ok(Act::Report { id }),
    }
}

/// A token write of 1024 to 1027 blocks, whose last piece may be a few blocks or none: two mapped blocks, and unmapped ones.
fn long_start(alloc: Global, numbers: &mut Numbers) -> Result<Act, OutOfMemory>
    ensures { IfOk result IsOfNexus }
{
    let count = 1022 + numbers.below(4);
    let mut ranges = RangeList::empty(alloc);
    ranges.push(Range {
        lba: u64::from(numbers.below(4)) * 1030,
        count: 2,
    })?;
    ranges.push(Range { lba: 2, count })?;
    let mut rod = mapped_blocks(alloc, numbers)?;
    rod.push(Piece {
        count,
        fill: Fill::Hole,
    })?;
    Ok(Act::Start {
        id: numbers.below(2),
        background: numbers.below(2) == 0,
        ranges,
        rod: RodBlocks::new(alloc, rod)?,
    })
}

/// An act on operations of several pieces, or a look at what they wrote.
fn act_on_long_operations(alloc: Global, numbers: &mut Numbers) -> Result<Act, OutOfMemory>
    ensures { IfOk result IsOfNexus }
{
    let id = numbers.below(2);
    match numbers.below(7) {
        0 | 1 => long_start(alloc, numbers),
        2 | 3 => Ok(Act::Advance { id }),
        4 => Ok(Act::End { id }),
        5 => Ok(Act::Report { id }),
        _ => Ok(Act::Read {
            lba: u64::from(numbers.below(2)) * 1022,
            count: 8,
        }),
    }
}

/// One of four blocks, or a few of them in a row.
fn few_blocks(alloc: Global, numbers: &mut Numbers) -> Result<RangeList, OutOfMemory> {
    let mut ranges = RangeList::empty(alloc);
    ranges.push(Range {
        lba: u64::from(numbers.below(2)),
        count: numbers.below(3) + 1,
    })?;
    Ok(ranges)
}

/// An act that writes four blocks or shows them.
fn act_on_shown_blocks(
    alloc: Global,
    config: &Config,
    unit: u16,
    numbers: &mut Numbers,
) -> Result<Act, OutOfMemory>
    requires { unit < length config.now.units }
    ensures { IfOk result IsOfNexus }
{
    match numbers.below(8) {
        0 | 1 | 2 => Ok(Act::Write {
            lba: u64::from(numbers.below(3)),
            list: mapped_blocks(alloc, numbers)?,
        }),
        3 => Ok(Act::Unmap {
            ranges: few_blocks(alloc, numbers)?,
        }),
        4 | 5 => Ok(Act::Populate {
            id: numbers.below(3),
            timeout: numbers.below(60) + 1,
            ranges: few_blocks(alloc, numbers)?,
        }),
        6 => act_on_tokens(alloc, config, unit, numbers),
        _ => act_on_operations(alloc, numbers),
    }
}

/// An act on the record of a copy.
fn act_on_copies(numbers: &mut Numbers) -> Act
    ensures { IsOfNexus result }
{
    let id = numbers.below(2) as u8;
    match numbers.below(3) {
        0 => Act::Open { id },
        1 => Act::Recall { id },
        _ => Act::Close {
            id,
            result: CopyEnd {
                state: CopyState::Failed,
                segments: 1,
                bytes: 512,
            },
        },
    }
}

/// A service action of PERSISTENT RESERVE OUT, often a RESERVE.
fn action(numbers: &mut Numbers) -> ReservationAction {
    match numbers.below(8) {
        0 => ReservationAction::Register,
        1 | 2 => ReservationAction::RegisterAndIgnoreExistingKey,
        3 => ReservationAction::Release,
        4 => ReservationAction::Clear,
        5 => ReservationAction::Preempt,
        _ => ReservationAction::Reserve,
    }
}

/// An act on reservations, by few keys, so that they often fit.
fn act_on_reservations(numbers: &mut Numbers) -> Act
    ensures { IsOfNexus result }
{
    match numbers.below(6) {
        0 => Act::PrKeys,
        1 => Act::PrHolder,
        _ => Act::PrOut {
            action: action(numbers).code(),
            scope: u8::from(numbers.below(12) == 0),
            kind: numbers.below(8) as u8,
            key: u64::from(numbers.below(3)),
            action_key: u64::from(numbers.below(3)),
        },
    }
}

/// An act of any kind.
fn mixed_act(
    alloc: Global,
    config: &Config,
    unit: u16,
    numbers: &mut Numbers,
) -> Result<Act, OutOfMemory>
    requires { unit < length config.now.units }
    ensures { IfOk result IsOfNexus }
{
    match numbers.below(4) {
        0 => act_on_blocks(alloc, numbers),
        1 => act_on_tokens(alloc, config, unit, numbers),
        2 => act_on_operations(alloc, numbers),
        _ => Ok(act_on_copies(numbers)),
    }
}

/// What a random history is made of.
#[derive(Drop, Clone, Copy)]
pub enum Style {
    /// Acts of all kinds, on a few blocks.
    Mixed,
    /// Token writes of several pieces.
    Long,
    /// Writes and tokens of the same four blocks.
    Shown,
    /// Acts on reservations, and of all other kinds.
    Reserved,
}

/// An act of a nexus.
pub fn random_act(
    alloc: Global,
    config: &Config,
    unit: u16,
    style: Style,
    numbers: &mut Numbers,
) -> Result<Act, OutOfMemory>
    requires { unit < length config.now.units }
    ensures { IfOk result IsOfNexus }
{
    match style {
        Style::Mixed => mixed_act(alloc, config, unit, numbers),
        Style::Long => act_on_long_operations(alloc, numbers),
        Style::Shown => act_on_shown_blocks(alloc, config, unit, numbers),
        Style::Reserved => {
            if numbers.below(2) == 0 {
                Ok(act_on_reservations(numbers))
            } else {
                mixed_act(alloc, config, unit, numbers)
            }
        }
    }
}
