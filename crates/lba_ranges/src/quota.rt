ghost use Rattle.std.specs.Prelude.{◌≡◌, length, IsTrue, false, nat_lt};
ghost use Rattle.lba_ranges.specs.Denoted.{blocks_of, total, is_within, is_overlapping};
ghost use Rattle.lba_ranges.specs.Writings.{paired, mapped_below, held_with};

use crate::{BlockList, Blocks, RangeList};

/// How many blocks would be mapped if the list were put to the blocks of the ranges. It takes no memory.
pub(crate) fn mapped_after<B: Blocks>(unit: &B, ranges: &RangeList, list: &BlockList) -> u64
    requires within { IsTrue (is_within (B.blocks unit.now) ranges.now) }
    requires apart { is_overlapping ranges.now ≡ false }
    requires total { total ranges.now ≡ length list.now.items }
    ensures { result ≡ mapped_below (B.blocks unit.now) (held_with (B.holds unit.now) (paired (blocks_of ranges.now) list.now.items)) }
{
    let mut kept = unit.mapped();
    for index in 0..ranges.len() {
        kept -= unit.mapped_in(ranges.at(index));
    }
    kept + list.mapped()
}

/// More blocks than the quota would be mapped if the list were put to the blocks of the ranges. It takes no memory.
pub fn exceeds_quota<B: Blocks>(unit: &B, ranges: &RangeList, list: &BlockList, quota: u64) -> bool
    requires within { IsTrue (is_within (B.blocks unit.now) ranges.now) }
    requires apart { is_overlapping ranges.now ≡ false }
    requires total { total ranges.now ≡ length list.now.items }
    ensures { result ≡ nat_lt quota (mapped_below (B.blocks unit.now) (held_with (B.holds unit.now) (paired (blocks_of ranges.now) list.now.items))) }
{
    // where there is room beside all that is mapped, it does not matter what is overwritten
    let mapped = unit.mapped();
    if mapped <= quota && list.mapped() <= quota - mapped {
        return false;
    }
    mapped_after(unit, ranges, list) > quota
}
