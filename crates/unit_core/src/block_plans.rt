// What the acts on blocks are answered, and what they are to write.
ghost use Rattle.std.specs.Prelude.{◌≡◌, ◌<◌, ◌^◌, ◌∷◌, [], length, IfOk};
ghost use Rattle.lba_ranges.specs.Denoted.{blocks_of};
ghost use Rattle.lba_ranges.specs.Writings.{unmapped};
ghost use Rattle.cm_history.specs.Answers.{answer_read, answer_write, answer_unmap, answer_status, put_at, wrote_of};
ghost use Rattle.unit_core.specs.inner.BlockChanges.{writings_of, MayChange};

use crate::block_change::BlockChange;
use crate::refusals;
use cm_base::{OutOfMemory, UnitConfig};
use cm_history::Answer;
use lba_ranges::{BlockList, Blocks, Range, RangeList, exceeds_quota, map_runs};
use std::alloc::Global;

/// What an act is answered, and what it is to write.
#[derive(Drop)]
pub(crate) struct BlockPlan<'a> {
    pub answer: Answer,
    pub change: BlockChange<'a>,
}

/// An act that writes nothing.
pub(crate) fn answered<'a>(answer: Answer) -> BlockPlan<'a>
    ensures answer { result.answer ≡ answer }
    ensures change { result.change ≡ BlockChange.Nothing }
{
    BlockPlan {
        answer,
        change: BlockChange::Nothing,
    }
}

/// The ranges of a row of blocks.
fn row_of(alloc: Global, lba: u64, count: u32) -> Result<RangeList, OutOfMemory>
    ensures { IfOk result (λ ranges. ranges ≡ record { lba = lba; count = count } ∷ []) }
{
    let mut ranges = RangeList::empty(alloc);
    ranges.push(Range { lba, count })?;
    Ok(ranges)
}

/// Reads blocks as they stand.
pub(crate) fn read<'a, B: Blocks>(
    alloc: Global,
    blocks: &B,
    unit: UnitConfig,
    lba: u64,
    count: u32,
) -> Result<BlockPlan<'a>, OutOfMemory>
    requires count { B.blocks blocks.now ≡ unit.blocks }
    requires size { B.block_length blocks.now ≡ unit.block_length }
    ensures answer { IfOk result (λ p. p.answer ≡ answer_read unit (B.holds blocks.now) lba count) }
    ensures change { IfOk result (λ p. p.change ≡ BlockChange.Nothing) }
{
    if lba > unit.blocks || u64::from(count) > unit.blocks - lba {
        return Ok(answered(refusals::lba_out_of_range()));
    }
    let ranges = row_of(alloc, lba, count)?;
    let list = blocks.cut(alloc, &ranges)?;
    Ok(answered(Answer::Blocks(list)))
}

/// Writes the list to the blocks from `lba` on, if the quota allows it.
pub(crate) fn write<'a, B: Blocks>(
    alloc: Global,
    blocks: &B,
    unit: UnitConfig,
    lba: u64,
    list: &'a BlockList,
) -> Result<BlockPlan<'a>, OutOfMemory>
    requires count { B.blocks blocks.now ≡ unit.blocks }
    requires size { list.now.block_length ≡ unit.block_length }
    requires few { length list.now.items < 2 ^ 32 }
    ensures answer { IfOk result (λ p. p.answer ≡ answer_write unit (B.holds blocks.now) lba list.now.items) }
    ensures change { IfOk result (λ p. writings_of p.change ≡ wrote_of p.answer (put_at lba list.now.items)) }
    ensures may { IfOk result (λ p. MayChange unit.blocks unit.block_length p.change) }
{
    let count = list.blocks();
    if lba > unit.blocks || count > unit.blocks - lba {
        return Ok(answered(refusals::lba_out_of_range()));
    }
    let ranges = row_of(alloc, lba, count as u32)?;
    if exceeds_quota(blocks, &ranges, list, unit.quota) {
        return Ok(answered(refusals::space_allocation_failed()));
    }
    Ok(BlockPlan {
        answer: Answer::Done,
        change: BlockChange::Put { ranges, list },
    })
}

/// Unmaps the blocks of the ranges. It takes no memory.
pub(crate) fn unmap(unit: UnitConfig, ranges: &RangeList) -> BlockPlan<'_>
    ensures answer { result.answer ≡ answer_unmap unit ranges.now }
    ensures change { writings_of result.change ≡ wrote_of result.answer (unmapped (blocks_of ranges.now)) }
    ensures may { MayChange unit.blocks unit.block_length result.change }
{
    if !ranges.within(unit.blocks) {
        return answered(refusals::lba_out_of_range());
    }
    BlockPlan {
        answer: Answer::Done,
        change: BlockChange::Clear { ranges },
    }
}

/// Which blocks are mapped from `lba` on.
pub(crate) fn status<'a, B: Blocks>(
    alloc: Global,
    blocks: &B,
    unit: UnitConfig,
    lba: u64,
) -> Result<BlockPlan<'a>, OutOfMemory>
    requires { B.blocks blocks.now ≡ unit.blocks }
    ensures answer { IfOk result (λ p. p.answer ≡ answer_status unit (B.holds blocks.now) lba) }
    ensures change { IfOk result (λ p. p.change ≡ BlockChange.Nothing) }
{
    if lba >= unit.blocks {
        return Ok(answered(refusals::lba_out_of_range()));
    }
    let list = map_runs(alloc, blocks, unit.blocks, lba)?;
    Ok(answered(Answer::Status(list)))
}
