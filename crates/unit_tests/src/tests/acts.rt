// What a nexus asks of a unit in the tests.
ghost use Rattle.std.specs.Prelude.{◌≡◌, ℕ, length, IfOk, true};
ghost use Rattle.cm_history.specs.declared.act.Act.{Act};
ghost use Rattle.cm_history.specs.declared.act.Actor.{Actor};
ghost use Rattle.cm_history.specs.Legal.{may_ask};

use cm_base::{Config, Payload, ReservationAction};
use cm_history::{Act, RodBlocks, TokenText};
use lba_ranges::{BlockList, Range, RangeList};
use std::alloc::Global;
use std::test::Fail;

/// An act of a nexus, on blocks of 512 bytes.
#[derive(Clone, Copy)]
pub(crate) enum Asked {
    /// Two blocks from this one on.
    Read(u64),
    /// Two blocks from this one on.
    Capture(u64),
    MapStatus(u64),
    /// Blocks of this byte from a block on, so many.
    Write(u8, u64, u32),
    /// A block of this byte.
    Put(u8, u64),
    /// One block.
    Unmap(u64),
    /// A token of so many blocks from one on.
    Populate {
        id: u32,
        timeout: u32,
        lba: u32,
        count: u32,
    },
    /// The token of a serial, which has one block.
    Redeem(u32),
    Delete(u64),
    /// Begins to write blocks of a byte by the identifier 2, from a block on, so many.
    Start {
        background: bool,
        byte: u8,
        lba: u64,
        count: u32,
    },
    /// Writes the next piece of the operation 2.
    Advance,
    Report(u32),
    /// Begins the copy 3.
    Open,
    ReadKeys,
    ReadHolder,
    /// A service action of a nexus that has this key.
    Reserve {
        action: ReservationAction,
        kind: u8,
        key: u64,
        action_key: u64,
    },
}

/// Blocks of one byte.
fn blocks(alloc: Global, byte: u8, count: u32) -> Result<BlockList, Fail> {
    let bytes = vec![in alloc; byte; count as usize * 512]?;
    Ok(BlockList::from_payload(alloc, 512, count, Payload::from_vec(bytes)?)?)
}

/// A row of blocks.
pub(crate) fn row(alloc: Global, lba: u64, count: u32) -> Result<RangeList, Fail> {
    let mut ranges = RangeList::empty(alloc);
    ranges.push(Range { lba, count })?;
    Ok(ranges)
}

/// What begins to write a list of blocks to a row of blocks, by the identifier 2.
pub(crate) fn start(
    alloc: Global,
    background: bool,
    list: BlockList,
    ranges: RangeList,
) -> Result<Act, Fail>
    ensures { IfOk result (λ act. (nexus : ℕ) → may_ask 0 (Actor.Nexus nexus) act ≡ true) }
{
    let rod = RodBlocks::new(alloc, list)?;
    Ok(Act::Start {
        id: 2,
        background,
        ranges,
        rod,
    })
}

/// What redeems the token of a serial, which has so many blocks.
pub(crate) fn redeem(alloc: Global, config: &Config, serial: u32, count: u32) -> Result<Act, Fail>
    requires { length config.now.units ≡ 1 }
    ensures { IfOk result (λ act. (nexus : ℕ) → may_ask 0 (Actor.Nexus nexus) act ≡ true) }
{
    let bytes = rod_token::text(config, 0, u64::from(serial), count);
    let text = TokenText::new(alloc, &bytes)?;
    Ok(Act::Redeem { text, target: 0 })
}

/// An act that has a list of blocks.
fn with_list(alloc: Global, asked: Asked) -> Result<Act, Fail>
    ensures { IfOk result (λ act. (nexus : ℕ) → may_ask 0 (Actor.Nexus nexus) act ≡ true) }
{
    match asked {
        Asked::Write(byte, lba, count) => Ok(Act::Write {
            lba,
            list: blocks(alloc, byte, count)?,
        }),
        Asked::Put(byte, lba) => Ok(Act::Put {
            lba,
            list: blocks(alloc, byte, 1)?,
        }),
        Asked::Unmap(lba) => Ok(Act::Unmap {
            ranges: row(alloc, lba, 1)?,
        }),
        Asked::Populate {
            id,
            timeout,
            lba,
            count,
        } => Ok(Act::Populate {
            id,
            timeout,
            ranges: row(alloc, u64::from(lba), count)?,
        }),
        Asked::Start {
            background,
            byte,
            lba,
            count,
        } => start(
            alloc,
            background,
            blocks(alloc, byte, count)?,
            row(alloc, lba, count)?,
        ),
        _ => Err("an act without blocks".into()),
    }
}

/// The act that is asked for.
pub(crate) fn act_of(alloc: Global, config: &Config, asked: Asked) -> Result<Act, Fail>
    requires { length config.now.units ≡ 1 }
    ensures { IfOk result (λ act. (nexus : ℕ) → may_ask 0 (Actor.Nexus nexus) act ≡ true) }
{
    match asked {
        Asked::Read(lba) => Ok(Act::Read { lba, count: 2 }),
        Asked::Capture(lba) => Ok(Act::Capture { lba, count: 2 }),
        Asked::MapStatus(lba) => Ok(Act::MapStatus { lba }),
        Asked::Redeem(serial) => redeem(alloc, config, serial, 1),
        Asked::Delete(serial) => Ok(Act::Delete { serial }),
        Asked::Advance => Ok(Act::Advance { id: 2 }),
        Asked::Report(id) => Ok(Act::Report { id }),
        Asked::Open => Ok(Act::Open { id: 3 }),
        Asked::ReadKeys => Ok(Act::PrKeys),
        Asked::ReadHolder => Ok(Act::PrHolder),
        Asked::Reserve {
            action,
            kind,
            key,
            action_key,
        } => Ok(Act::PrOut {
            action: action.code(),
            scope: 0,
            kind,
            key,
            action_key,
        }),
        _ => with_list(alloc, asked),
    }
}
