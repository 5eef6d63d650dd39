// The blocks of a unit, in extents and in a plain map.
ghost use Rattle.std.specs.Prelude.{◌≡◌, ◌<◌, length, IfOk};

use super::lists::{add_hole, append, list_of};
use lba_ranges::{BlockList, Blocks, Range, RangeList};
use lun_extents::ExtentUnit;
use lun_plain::PlainUnit;
use std::alloc::Global;
use std::test::Fail;

fn row(alloc: Global, lba: u64, count: u32) -> Result<RangeList, Fail>
    ensures { IfOk result (λ ranges. length ranges < 64) }
{
    let mut ranges = RangeList::empty(alloc);
    ranges.push(Range { lba, count })?;
    Ok(ranges)
}

/// The blocks 6 to 8, and 1 and 2.
fn two_rows(alloc: Global) -> Result<RangeList, Fail> {
    let mut ranges = row(alloc, 6, 3)?;
    ranges.push(Range { lba: 1, count: 2 })?;
    Ok(ranges)
}

/// Two blocks, two holes, and one more block.
fn list_with_a_hole(alloc: Global) -> Result<BlockList, Fail>
    ensures { IfOk result (λ list. list.block_length ≡ 1) }
{
    let mut list = list_of(alloc, 2, 1, &[1, 2])?;
    add_hole(&mut list, 2)?;
    append(&mut list, list_of(alloc, 1, 1, &[3])?)?;
    Ok(list)
}

/// Puts a list to the ranges of a unit of nine blocks.
fn put<B: Blocks>(unit: &mut B, ranges: &RangeList, list: &BlockList) -> Result<(), Fail>
    requires blocks { B.blocks unit.old ≡ 9 }
    requires sizes { list.now.block_length ≡ B.block_length unit.old }
    ensures { B.blocks unit.new ≡ 9 }
{
    if !ranges.within(9) || ranges.overlap() || ranges.total() != list.blocks() {
        return Err(Fail::new("no place for the blocks"));
    }
    unit.put(ranges, list)?;
    Ok(())
}

/// A unit of nine blocks of one byte, where a list with a hole is put to two ranges.
fn put_across<B: Blocks + Drop>(alloc: Global) -> Result<B, Fail>
    ensures { IfOk result (λ unit. B.blocks unit ≡ 9) }
{
    let list = list_with_a_hole(alloc)?;
    let ranges = two_rows(alloc)?;
    let mut unit = B::new(alloc, 9, 1)?;
    put(&mut unit, &ranges, &list)?;
    Ok(unit)
}

/// How many blocks are mapped.
fn mapped<B: Blocks>(unit: &B) -> u64 {
    unit.mapped()
}

/// Where the blocks end that are mapped as this one is, or are not mapped as it is not.
fn end<B: Blocks>(unit: &B, block: u64) -> u64
    requires { block < B.blocks unit.now }
{
    unit.mapped_until(block)
}

/// The list has these bytes at a place.
fn has(list: &BlockList, place: u64, bytes: &[u8]) -> bool {
    matches!(list.held(place), Some(held) if held == bytes)
}

/// All nine blocks.
fn cut<B: Blocks>(alloc: Global, unit: &B) -> Result<BlockList, Fail>
    requires { B.blocks unit.now ≡ 9 }
{
    let ranges = row(alloc, 0, 9)?;
    if !ranges.within(9) {
        return Err(Fail::new("no row of the unit"));
    }
    Ok(unit.cut(alloc, &ranges)?)
}

/// What is put to two ranges is cut again.
fn cuts_across<B: Blocks + Drop>(alloc: Global) -> Result<bool, Fail> {
    let unit: B = put_across(alloc)?;
    let cut = cut(alloc, &unit)?;
    Ok(
        mapped(&unit) == 3
            && end(&unit, 2) == 3
            && end(&unit, 3) == 6
            && cut.blocks() == 9
            && cut.held(1).is_none()
            && has(&cut, 2, &[3])
            && has(&cut, 7, &[2]),
    )
}

/// Clears the blocks 2 to 6.
fn clear<B: Blocks>(alloc: Global, unit: &mut B) -> Result<(), Fail>
    requires { B.blocks unit.old ≡ 9 }
{
    let ranges = row(alloc, 2, 5)?;
    if !ranges.within(9) {
        return Err(Fail::new("no row of the unit"));
    }
    unit.clear(&ranges)?;
    Ok(())
}

/// Of two ranges that were put the end of one and the front of the other are cleared.
fn clears_across<B: Blocks + Drop>(alloc: Global) -> Result<bool, Fail> {
    let mut unit: B = put_across(alloc)?;
    clear(alloc, &mut unit)?;
    Ok(mapped(&unit) == 1)
}

/// Blocks are put to two ranges, cut and cleared.
#[test]
fn blocks_across_ranges(rt: HostRuntime) -> Result<(), Fail> {
    let alloc = rt.alloc();
    assert!(rt; cuts_across::<ExtentUnit>(alloc)? && clears_across::<ExtentUnit>(alloc)?);
    assert!(rt; cuts_across::<PlainUnit>(alloc)? && clears_across::<PlainUnit>(alloc)?);
    Ok(())
}
