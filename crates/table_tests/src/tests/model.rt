// What the model says of entries, acts and answers.
ghost use Rattle.std.specs.Prelude.{◌≡◌, length, IfOk};

use cm_base::{Config, Payload, UnitConfig, UnitList};
use cm_history::{Act, Answer, RodBlocks};
use lba_ranges::{BlockList, Fill, Piece, Range, RangeList};
use std::alloc::Global;
use std::test::Fail;

mod copies;
mod histories;
mod limits;

/// One unit of four blocks of 512 bytes, of which two may be mapped.
fn one_unit(alloc: Global) -> Result<Config, Fail>
    ensures { IfOk result (λ config. length config.units ≡ 1) }
{
    let only = UnitConfig {
        blocks: 4,
        block_length: 512,
        entries: 16,
        quota: 2,
        payload: 65_536,
        group: 0,
    };
    Ok(Config::new([7; 32], UnitList::copy(alloc, &[only])?))
}

/// One block, all of whose bytes are 11h.
fn mapped_block(alloc: Global) -> Result<BlockList, Fail> {
    let bytes = Payload::from_vec(vec![in alloc; 0x11; 512]?)?;
    Ok(BlockList::from_payload(alloc, 512, 1, bytes)?)
}

/// A list of unmapped blocks.
fn holes(alloc: Global, block_length: u32, count: u32) -> Result<BlockList, Fail> {
    let mut list = BlockList::empty(alloc, block_length);
    list.push(Piece {
        count,
        fill: Fill::Hole,
    })?;
    Ok(list)
}

/// Two ranges of two blocks each.
fn ranges(alloc: Global, first: u64, second: u64) -> Result<RangeList, Fail> {
    let mut list = RangeList::empty(alloc);
    list.push(Range {
        lba: first,
        count: 2,
    })?;
    list.push(Range {
        lba: second,
        count: 2,
    })?;
    Ok(list)
}

/// A Start in the background.
fn start(alloc: Global, ranges: RangeList, rod: BlockList) -> Result<Act, Fail> {
    Ok(Act::Start {
        id: 1,
        background: true,
        ranges,
        rod: RodBlocks::new(alloc, rod)?,
    })
}
