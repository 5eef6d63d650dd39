// An act of each kind, and its text as it was worked out by hand from docs/formats.md.
ghost use Rattle.std.specs.Prelude.{◌≡◌, ◌≤◌, length, IfOk};
ghost use Rattle.lba_ranges.specs.HeldBlocks.{IsFull};
ghost use Rattle.recorder.specs.Text.{HasShortLists};

use cm_base::{Bytes, Payload};
use cm_history::{Act, CopyEnd, CopyState, RodBlocks, TokenText};
use lba_ranges::{BlockList, Fill, Piece, Range, RangeList};
use std::alloc::Global;
use std::test::Fail;

/// The LBA of the acts.
const LBA: u64 = 0x1112_1314_1516_1718;

/// How many codes of acts there are.
pub(crate) const CODES: u8 = 21;

/// Code and fields of each act but the sixth, which has only what stands before its token's text.
const TEXTS: [&[u8]; 21] = [
    &[
        0x01, 0x11, 0x12, 0x13, 0x14, 0x15, 0x16, 0x17, 0x18, 0x21, 0x22, 0x23, 0x24,
    ],
    &[
        0x02, 0x11, 0x12, 0x13, 0x14, 0x15, 0x16, 0x17, 0x18, 0, 0, 0, 2, 0, 0, 0, 3, 0, 0, 0, 2,
        1, 0x41, 0x42, 0x43, 0x44, 0, 0, 0, 3, 0, 0, 0, 0, 1, 1, 0x45, 0x46,
    ],
    &[
        0x03, 2, 0x11, 0x12, 0x13, 0x14, 0x15, 0x16, 0x17, 0x18, 0x31, 0x32, 0x33, 0x34, 0, 0, 0,
        0, 0, 0, 0, 9, 0, 0, 0, 0,
    ],
    &[0x04, 0x11, 0x12, 0x13, 0x14, 0x15, 0x16, 0x17, 0x18],
    &[
        0x05, 0x51, 0x52, 0x53, 0x54, 0, 0, 0, 60, 2, 0x11, 0x12, 0x13, 0x14, 0x15, 0x16, 0x17,
        0x18, 0x31, 0x32, 0x33, 0x34, 0, 0, 0, 0, 0, 0, 0, 9, 0, 0, 0, 0,
    ],
    &[0x06],
    &[0x07, 0, 0, 0x61, 0x62, 0x63, 0x64, 0x65, 0x66],
    &[
        0x08, 0x51, 0x52, 0x53, 0x54, 1, 2, 0x11, 0x12, 0x13, 0x14, 0x15, 0x16, 0x17, 0x18, 0x31,
        0x32, 0x33, 0x34, 0, 0, 0, 0, 0, 0, 0, 9, 0, 0, 0, 0, 0, 0, 0, 2, 0, 0, 0, 3, 0, 0, 0, 2,
        1, 0x41, 0x42, 0x43, 0x44, 0, 0, 0, 3, 0, 0, 0, 0, 1, 1, 0x45, 0x46,
    ],
    &[0x09, 0x51, 0x52, 0x53, 0x54],
    &[0x0a],
    &[0x0b, 0x51, 0x52, 0x53, 0x54],
    &[0x0c, 0x51, 0x52, 0x53, 0x54],
    &[0x0d, 0x51, 0x52, 0x53, 0x54],
    &[
        0x0e, 0x11, 0x12, 0x13, 0x14, 0x15, 0x16, 0x17, 0x18, 0x21, 0x22, 0x23, 0x24,
    ],
    &[
        0x0f, 0x11, 0x12, 0x13, 0x14, 0x15, 0x16, 0x17, 0x18, 0, 0, 0, 2, 0, 0, 0, 3, 0, 0, 0, 2,
        1, 0x41, 0x42, 0x43, 0x44, 0, 0, 0, 3, 0, 0, 0, 0, 1, 1, 0x45, 0x46,
    ],
    &[0x10, 0x71],
    &[0x11, 0x71, 2, 0x81, 0x82, 0x91, 0x92, 0x93, 0x94],
    &[0x12, 0x71],
    &[
        0x13, 0x04, 0x0e, 0x05, 0x11, 0x12, 0x13, 0x14, 0x15, 0x16, 0x17, 0x18, 0, 0, 0x61, 0x62,
        0x63, 0x64, 0x65, 0x66,
    ],
    &[0x14],
    &[0x15],
];

/// Adds code and fields of the act of a code.
pub(crate) fn add_text(into: &mut Bytes, code: u8) -> Result<(), Fail> {
    let Some(text) = TEXTS.get(usize::from(code.wrapping_sub(1))) else {
        return Err(Fail::new("no such act"));
    };
    into.extend(text)?;
    if code == 6 {
        into.extend(&[0x5a; 512])?;
        into.extend(&[0xa1, 0xa2])?;
    }
    Ok(())
}

/// Two ranges, the second of no blocks.
fn ranges(alloc: Global) -> Result<RangeList, Fail> {
    let mut ranges = RangeList::empty(alloc);
    ranges.push(Range {
        lba: LBA,
        count: 0x3132_3334,
    })?;
    ranges.push(Range { lba: 9, count: 0 })?;
    Ok(ranges)
}

/// Adds a run to a short list.
fn add_run(list: &mut BlockList, count: u32, fill: Fill) -> Result<(), Fail>
    requires { IsFull list.old.block_length count fill }
    ensures { list.new.block_length ≡ list.old.block_length }
{
    if list.blocks() > 1000 {
        return Err(Fail::new("too many blocks"));
    }
    list.push(Piece { count, fill })?;
    Ok(())
}

/// A mapped block of two bytes.
fn mapped(alloc: Global, bytes: &[u8; 2]) -> Result<Fill, Fail>
    ensures { IfOk result (λ fill. IsFull 2 1 fill) }
{
    Ok(Fill::Bytes(Payload::copy_from_slice(alloc, bytes)?))
}

/// Blocks of two bytes: two in two runs that touch, three holes, and one more.
fn blocks(alloc: Global) -> Result<BlockList, Fail>
    ensures { IfOk result (λ list. length list.items ≤ 1_048_576) }
{
    let mut list = BlockList::empty(alloc, 2);
    add_run(&mut list, 1, mapped(alloc, &[0x41, 0x42])?)?;
    add_run(&mut list, 1, mapped(alloc, &[0x43, 0x44])?)?;
    add_run(&mut list, 3, Fill::Hole)?;
    add_run(&mut list, 1, mapped(alloc, &[0x45, 0x46])?)?;
    if list.blocks() > 1_048_576 {
        return Err(Fail::new("too many blocks"));
    }
    Ok(list)
}

/// Two holes, and ten blocks of 512 bytes in two runs. The first of these makes a text long.
pub(crate) fn long_blocks(alloc: Global) -> Result<BlockList, Fail>
    ensures { IfOk result (λ list. length list.items ≤ 1_048_576) }
{
    let mut list = BlockList::empty(alloc, 512);
    add_run(&mut list, 2, Fill::Hole)?;
    let bytes = vec![in alloc; 0x5a; 4608]?;
    add_run(&mut list, 9, Fill::Bytes(Payload::from_vec(bytes)?))?;
    let bytes = vec![in alloc; 0x6b; 512]?;
    add_run(&mut list, 1, Fill::Bytes(Payload::from_vec(bytes)?))?;
    if list.blocks() > 1_048_576 {
        return Err(Fail::new("too many blocks"));
    }
    Ok(list)
}

/// Code and fields of the Put of these blocks at LBA 7.
pub(crate) fn add_long_put(into: &mut Bytes) -> Result<(), Fail> {
    into.extend(&[0x0f, 0, 0, 0, 0, 0, 0, 0, 7, 0, 0, 2, 0, 0, 0, 0, 2])?;
    into.extend(&[0, 0, 0, 2, 0, 0, 0, 0, 10, 1])?;
    into.extend(&[0x5a; 4608])?;
    into.extend(&[0x6b; 512])?;
    Ok(())
}

fn low_act(alloc: Global, code: u8) -> Result<Act, Fail>
    ensures { IfOk result HasShortLists }
{
    let id = 0x5152_5354;
    match code {
        1 => Ok(Act::Read {
            lba: LBA,
            count: 0x2122_2324,
        }),
        2 => Ok(Act::Write {
            lba: LBA,
            list: blocks(alloc)?,
        }),
        3 => Ok(Act::Unmap {
            ranges: ranges(alloc)?,
        }),
        4 => Ok(Act::MapStatus { lba: LBA }),
        5 => Ok(Act::Populate {
            id,
            timeout: 60,
            ranges: ranges(alloc)?,
        }),
        6 => Ok(Act::Redeem {
            text: TokenText::new(alloc, &[0x5a; 512])?,
            target: 0xa1a2,
        }),
        7 => Ok(Act::Delete {
            serial: 0x6162_6364_6566,
        }),
        8 => Ok(Act::Start {
            id,
            background: true,
            ranges: ranges(alloc)?,
            rod: RodBlocks::new(alloc, blocks(alloc)?)?,
        }),
        _ => Ok(Act::Advance { id }),
    }
}

fn high_act(alloc: Global, code: u8) -> Result<Act, Fail>
    ensures { IfOk result HasShortLists }
{
    let id = 0x5152_5354;
    match code {
        10 => Ok(Act::Pump),
        11 => Ok(Act::End { id }),
        12 => Ok(Act::Abort { id }),
        13 => Ok(Act::Report { id }),
        14 => Ok(Act::Capture {
            lba: LBA,
            count: 0x2122_2324,
        }),
        15 => Ok(Act::Put {
            lba: LBA,
            list: blocks(alloc)?,
        }),
        16 => Ok(Act::Open { id: 0x71 }),
        17 => Ok(Act::Close {
            id: 0x71,
            result: CopyEnd {
                state: CopyState::Failed,
                segments: 0x8182,
                bytes: 0x9192_9394,
            },
        }),
        _ => Ok(Act::Recall { id: 0x71 }),
    }
}

fn reserving_act(code: u8) -> Act
    ensures { HasShortLists result }
{
    match code {
        19 => Act::PrOut {
            action: 0x04,
            scope: 0x0e,
            kind: 0x05,
            key: LBA,
            action_key: 0x6162_6364_6566,
        },
        20 => Act::PrKeys,
        _ => Act::PrHolder,
    }
}

/// The act of a code.
pub(crate) fn act(alloc: Global, code: u8) -> Result<Act, Fail>
    ensures { IfOk result HasShortLists }
{
    match code {
        ..=9 => low_act(alloc, code),
        10..=18 => high_act(alloc, code),
        _ => Ok(reserving_act(code)),
    }
}
