// What the acts on blocks are answered after a past.
ghost use Rattle.std.specs.Prelude.{◌≡◌, ◌+◌, ◌-◌, ◌<◌, ◌≤◌, ◌++◌, ◌^◌, ◌∷◌, ℕ, List, [], Some, length, IfOk, OnOk};
ghost use Rattle.std.specs.Option.{option_copied};
ghost use Rattle.lba_ranges.specs.Denoted.{row, blocks_of};
ghost use Rattle.lba_ranges.specs.Writings.{unmapped};
ghost use Rattle.lba_ranges.specs.Status.{map_runs};
ghost use Rattle.lba_ranges.specs.inner.Status.{IsRun};
ghost use Rattle.cm_history.specs.Blocks.{held, cut};
ghost use Rattle.cm_history.specs.Answers.{put_at, answer_read, answer_write, answer_unmap, answer_status};
ghost use Rattle.plain_model.specs.inner.Holds.{AreSized};
ghost use Rattle.plain_model.specs.inner.Outcomes.{IsOutcome};

use crate::deeds::PlainPast;
use crate::outcome::PlainOutcome;
use crate::refusals;
use crate::writings::PlainWritings;
use cm_base::{OutOfMemory, Payload, UnitConfig};
use cm_history::Answer;
use lba_ranges::{BlockList, Fill, MapRun, Piece, RangeList, StatusList};
use std::alloc::Global;

/// Runs that are told.
const TOLD_RUNS: usize = 64;

/// Blocks of the longest run.
const RUN_BLOCKS: u64 = 4_294_967_295;

/// Adds one block to the end.
fn push_block(list: &mut BlockList, held: Option<&Payload>) -> Result<(), OutOfMemory>
    requires sized { (bytes : List ℕ) → option_copied held ≡ Some bytes → length bytes ≡ list.old.block_length }
    requires room { length list.old.items + 1 < 2 ^ 64 }
    ensures { OnOk result (list.new ≡ record list.old { items = list.old.items ++ option_copied held.entry ∷ [] }) }
{
    let fill = match held {
        Some(bytes) => Fill::Bytes(bytes.clone()?),
        None => Fill::Hole,
    };
    list.push(Piece { count: 1, fill })
}

/// These blocks as they stand.
pub(crate) fn cut(
    alloc: Global,
    unit: UnitConfig,
    past: &PlainPast,
    blocks: &[u64],
) -> Result<BlockList, OutOfMemory>
    requires few { length blocks.now < 2 ^ 63 }
    requires sized { AreSized unit.block_length (held past.now) }
    ensures { IfOk result (λ list. list ≡ cut unit (held past.now) blocks.now) }
{
    let mut list = BlockList::empty(alloc, unit.block_length);
    for block in blocks {
        push_block(&mut list, past.held(*block))?;
    }
    Ok(list)
}

/// So many blocks in a row.
fn row(alloc: Global, lba: u64, count: u32) -> Result<Vec<u64>, OutOfMemory>
    requires { lba + count < 2 ^ 64 }
    ensures { IfOk result (λ blocks. blocks.items ≡ row lba count) }
{
    let mut blocks = Vec::new(alloc);
    for index in 0..count {
        blocks.push(lba + u64::from(index))?;
    }
    Ok(blocks)
}

/// What a Read or a Capture is answered.
pub(crate) fn read(
    alloc: Global,
    unit: UnitConfig,
    past: &PlainPast,
    lba: u64,
    count: u32,
) -> Result<Answer, OutOfMemory>
    requires { AreSized unit.block_length (held past.now) }
    ensures { IfOk result (λ a. a ≡ answer_read unit (held past.now) lba count) }
{
    if lba > unit.blocks || u64::from(count) > unit.blocks - lba {
        return Ok(refusals::out_of_range());
    }
    let blocks = row(alloc, lba, count)?;
    Ok(Answer::Blocks(cut(alloc, unit, past, &blocks)?))
}

/// What a Write or a Put is answered, and what it writes.
pub(crate) fn write(
    alloc: Global,
    unit: UnitConfig,
    past: &PlainPast,
    lba: u64,
    list: &BlockList,
) -> Result<PlainOutcome, OutOfMemory>
    requires { unit.blocks < 2 ^ 63 }
    ensures { IfOk result (λ o. IsOutcome o (answer_write unit (held past.now) lba list.now.items) (put_at lba list.now.items)) }
{
    let count = list.blocks();
    if lba > unit.blocks || count > unit.blocks - lba {
        return Ok(PlainOutcome {
            answer: refusals::out_of_range(),
            wrote: PlainWritings::new(alloc),
        });
    }
    let wrote = PlainWritings::put_at(alloc, lba, list)?;
    if past.maps_beyond(unit.quota, unit.blocks, &wrote) {
        return Ok(PlainOutcome {
            answer: refusals::over_quota(),
            wrote: PlainWritings::new(alloc),
        });
    }
    Ok(PlainOutcome {
        answer: Answer::Done,
        wrote,
    })
}

/// What an Unmap is answered, and what it writes.
pub(crate) fn unmap(
    alloc: Global,
    unit: UnitConfig,
    ranges: &RangeList,
) -> Result<PlainOutcome, OutOfMemory>
    requires { unit.blocks < 2 ^ 63 }
    ensures { IfOk result (λ o. IsOutcome o (answer_unmap unit ranges.now) (unmapped (blocks_of ranges.now))) }
{
    if !ranges.within(unit.blocks) {
        return Ok(PlainOutcome {
            answer: refusals::out_of_range(),
            wrote: PlainWritings::new(alloc),
        });
    }
    Ok(PlainOutcome {
        answer: Answer::Done,
        wrote: PlainWritings::unmapped(alloc, ranges)?,
    })
}

/// The run at a block: all its blocks are mapped, or all are unmapped.
fn run_at(past: &PlainPast, block: u64, left: u64) -> MapRun
    requires some { 0 < left }
    requires within { block + left < 2 ^ 63 }
    ensures { IsRun (held past.now) block left result }
{
    let mapped = past.held(block).is_some();
    let most = left.min(RUN_BLOCKS);
    for count in 1..most {
        if past.held(block + count).is_some() != mapped {
            return MapRun {
                lba: block,
                count: count as u32,
                mapped,
            };
        }
    }
    MapRun {
        lba: block,
        count: most as u32,
        mapped,
    }
}

/// What a MapStatus is answered: the first 64 runs of mapped and unmapped blocks (SBC-3, GET LBA STATUS).
pub(crate) fn status(
    alloc: Global,
    unit: UnitConfig,
    past: &PlainPast,
    lba: u64,
) -> Result<Answer, OutOfMemory>
    requires { unit.blocks < 2 ^ 63 }
    ensures { IfOk result (λ a. a ≡ answer_status unit (held past.now) lba) }
{
    if lba >= unit.blocks {
        return Ok(refusals::out_of_range());
    }
    let mut runs = StatusList::empty(alloc);
    let mut block = lba;
    while block < unit.blocks && runs.len() < TOLD_RUNS {
        let run = run_at(past, block, unit.blocks - block);
        runs.push(run)?;
        block += u64::from(run.count);
    }
    Ok(Answer::Status(runs))
}
