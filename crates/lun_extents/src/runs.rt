// The runs that a list of blocks is put as.
ghost use Rattle.std.specs.Prelude.{◌≡◌, ℕ, ◌+◌, ◌<◌, ◌≤◌, ◌^◌, ◌++◌, length, slice_range, IfOk, OnOk, IsTrue};
ghost use Rattle.lba_ranges.specs.Denoted.{row, blocks_of, total, is_within};
ghost use Rattle.lun_extents.specs.inner.Runs.{ranges_of, items_of_runs, AreRuns};

use cm_base::OutOfMemory;
use lba_ranges::{BlockList, Fill, Range, RangeList};
use std::alloc::Global;

/// Some blocks in a row, and what they are to hold.
#[derive(Drop)]
pub(crate) struct Filling {
    pub range: Range,
    pub fill: Fill,
}

/// Adds the runs by which a range gets the list's blocks from a place on.
fn push_runs(
    runs: &mut Vec<Filling>,
    list: &BlockList,
    from: u64,
    range: Range,
) -> Result<(), OutOfMemory>
    requires numbers { range.lba + range.count < 2 ^ 64 }
    requires list { from + range.count ≤ length list.now.items }
    ensures blocks { OnOk result (blocks_of (ranges_of runs.new.items) ≡ blocks_of (ranges_of runs.old.items) ++ row range.lba range.count) }
    ensures items { OnOk result (items_of_runs list.now.block_length runs.new.items
        ≡ items_of_runs list.now.block_length runs.old.items ++ slice_range list.now.items from (from + range.count)) }
    ensures runs { OnOk result ((blocks : ℕ) → range.lba + range.count ≤ blocks
        → AreRuns blocks list.now.block_length runs.old.items → AreRuns blocks list.now.block_length runs.new.items) }
{
    let _all = list.blocks();
    let mut done = 0;
    while done < range.count {
        let lba = range.lba + u64::from(done);
        let piece = list.run(from + u64::from(done), range.count - done)?;
        done += piece.count;
        let count = piece.count;
        runs.push(Filling {
            range: Range { lba, count },
            fill: piece.fill,
        })?;
    }
    Ok(())
}

/// The runs by which ranges get the blocks of a list. They share its bytes.
pub(crate) fn runs_of(
    alloc: Global,
    blocks: u64,
    ranges: &RangeList,
    list: &BlockList,
) -> Result<Vec<Filling>, OutOfMemory>
    requires within { IsTrue (is_within blocks ranges.now) }
    requires total { total ranges.now ≡ length list.now.items }
    ensures blocks { IfOk result (λ runs. blocks_of (ranges_of runs.items) ≡ blocks_of ranges.now) }
    ensures items { IfOk result (λ runs. items_of_runs list.now.block_length runs.items ≡ list.now.items) }
    ensures runs { IfOk result (λ runs. AreRuns blocks list.now.block_length runs.items) }
{
    let _all = list.blocks();
    let mut runs = Vec::new(alloc);
    let mut from = 0;
    for index in 0..ranges.len() {
        let range = ranges.at(index);
        push_runs(&mut runs, list, from, range)?;
        from += u64::from(range.count);
    }
    Ok(runs)
}

/// A run is to hold nothing.
pub(crate) fn has_hole(runs: &[Filling]) -> bool {
    runs.iter().any(|run| matches!(run.fill, Fill::Hole))
}
