ghost use Rattle.std.specs.Prelude.{◌≡◌, ◌*◌, ◌<◌, ◌≤◌, ◌++◌, length, All, IfOk, IfSome};
ghost use Rattle.std.specs.List.{position};
ghost use Rattle.std.specs.List.Sorted.{IsNonDecreasingBy};
ghost use Rattle.lba_ranges.specs.declared.ranges.Range.{Range};
ghost use Rattle.lba_ranges.specs.Denoted.{total, is_overlapping};
ghost use Rattle.copy_plan.specs.Jobs.{IsExtent, is_bad};

use cm_base::OutOfMemory;
use lba_ranges::Range;
use std::alloc::Global;

/// The extent has no block, or one whose number does not fit 64 bits.
fn is_bad(extent: &Range) -> bool
    ensures { result ≡ is_bad extent.now }
{
    extent.count == 0 || extent.lba > u64::MAX - u64::from(extent.count - 1)
}

/// The first bad extent.
fn first_bad(extents: &[Range]) -> Option<usize>
    ensures { result ≡ position is_bad extents.now }
{
    extents.iter().position(is_bad)
}

/// The first bad extent of two lists, counted through both.
pub(crate) fn first_bad_of(first: &[Range], second: &[Range]) -> Option<usize>
    requires first { length first.now ≤ 65_536 }
    requires second { length second.now ≤ 65_536 }
    ensures first { result ≡ position is_bad (first.now ++ second.now) }
    ensures within { IfSome result (λ index. index < 131_072) }
{
    if let Some(index) = first_bad(first) {
        return Some(index);
    }
    let index = first_bad(second)?;
    Some(first.len() + index)
}

/// How many blocks the extents have.
pub(crate) fn total(extents: &[Range]) -> u64
    requires { length extents.now ≤ 65_536 }
    ensures total { result ≡ total extents.now }
    ensures few { result ≤ 65_536 * 4_294_967_295 }
{
    let mut blocks = 0;
    for extent in extents {
        blocks += u64::from(extent.count);
    }
    blocks
}

/// Two extents share a block.
pub(crate) fn overlap(alloc: Global, extents: &[Range]) -> Result<bool, OutOfMemory>
    requires { All IsExtent extents.now }
    ensures { IfOk result (λ shared. shared ≡ is_overlapping extents.now) }
{
    let mut sorted = Vec::with_capacity(alloc, extents.len())?;
    sorted.extend_from_slice(extents)?;
    sorted.sort_unstable_by_key(|extent| extent.lba);
    Ok(neighbours_meet(&sorted))
}

/// An extent reaches into the one behind it; they are sorted by their first block.
fn neighbours_meet(sorted: &[Range]) -> bool
    requires extents { All IsExtent sorted.now }
    requires sorted { IsNonDecreasingBy (λ (extent : Range). extent.lba) sorted.now }
    ensures { result ≡ is_overlapping sorted.now }
{
    for index in 1..sorted.len() {
        let before = sorted[index - 1];
        let after = sorted[index];
        if after.lba - before.lba < u64::from(before.count) {
            return true;
        }
    }
    false
}
