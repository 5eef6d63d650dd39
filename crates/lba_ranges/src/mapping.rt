ghost use Rattle.std.specs.Prelude.{◌≡◌, ◌-◌, ◌<◌, IfOk};
ghost use Rattle.lba_ranges.specs.Status.{told_runs, map_runs};
ghost use Rattle.lba_ranges.specs.inner.Status.{IsRun};

use crate::{Blocks, MapRun, StatusList};
use cm_base::OutOfMemory;
use std::alloc::Global;

/// Runs that are told.
const TOLD_RUNS: usize = 64;

/// Blocks of the longest run.
const RUN_BLOCKS: u64 = 4_294_967_295;

/// The run at a block: all its blocks are mapped, or all are unmapped.
fn run_at<B: Blocks>(unit: &B, block: u64) -> MapRun
    requires { block < B.blocks unit.now }
    ensures { IsRun (B.holds unit.now) block (B.blocks unit.now - block) result }
{
    let count = (unit.mapped_until(block) - block).min(RUN_BLOCKS);
    MapRun {
        lba: block,
        count: count as u32,
        mapped: unit.held(block).is_some(),
    }
}

/// The first 64 runs of mapped and unmapped blocks from `lba` on, of a unit of so many blocks. A run is cut at
/// 4,294,967,295 blocks, and its rest is the next run (SBC-3, GET LBA STATUS).
pub fn map_runs<B: Blocks>(
    alloc: Global,
    unit: &B,
    blocks: u64,
    lba: u64,
) -> Result<StatusList, OutOfMemory>
    requires count { B.blocks unit.now ≡ blocks }
    requires within { lba < blocks }
    ensures { IfOk result (λ list. list ≡ map_runs (B.holds unit.now) told_runs lba (blocks - lba)) }
{
    let mut list = StatusList::empty(alloc);
    let mut block = lba;
    while block < blocks && list.len() < TOLD_RUNS {
        let run = run_at(unit, block);
        list.push(run)?;
        block += u64::from(run.count);
    }
    Ok(list)
}
