// Ranges of blocks, and lists of blocks over shared payload.
ghost use Rattle.std.specs.Prelude.{◌≡◌, ◌^◌, IsTrue, IfOk};
ghost use Rattle.lba_ranges.specs.Denoted.{total, is_within};

use super::lists::{add_hole, append, list_of, part, reads};
use lba_ranges::{BlockList, Range, RangeList};
use std::alloc::Global;
use std::test::Fail;

/// Blocks 10, 11, 12, 20 and 21.
fn two_ranges(alloc: Global) -> Result<RangeList, Fail>
    ensures total { IfOk result (λ list. total list ≡ 5) }
    ensures numbers { IfOk result (λ list. IsTrue (is_within (2 ^ 64) list)) }
{
    let mut list = RangeList::empty(alloc);
    list.push(Range { lba: 10, count: 3 })?;
    list.push(Range { lba: 20, count: 2 })?;
    Ok(list.copy(alloc)?)
}

/// The list denotes these blocks, in order.
fn denotes(alloc: Global, list: RangeList, blocks: &[u64]) -> Result<bool, Fail>
    requires { IsTrue (is_within (2 ^ 64) list) }
{
    let numbers = list.blocks(alloc)?;
    Ok(numbers.as_slice() == blocks)
}

/// The list has five blocks, each once, of which 21 is the last.
fn are_five(list: RangeList) -> bool
    requires { IsTrue (is_within (2 ^ 64) list) }
{
    list.total() == 5 && !list.overlap() && list.within(22) && !list.within(21)
}

/// Two ranges, and the part of them from 12 to 20.
#[test]
fn ranges(rt: HostRuntime) -> Result<(), Fail> {
    let alloc = rt.alloc();
    assert!(rt; are_five(two_ranges(alloc)?));
    assert!(rt; denotes(alloc, two_ranges(alloc)?, &[10, 11, 12, 20, 21])?);
    assert!(rt; denotes(alloc, two_ranges(alloc)?.slice(alloc, 2, 2)?, &[12, 20])?);
    Ok(())
}

/// Two blocks of four bytes, two holes, and one more block.
fn five_blocks(alloc: Global) -> Result<BlockList, Fail> {
    let mut list = list_of(alloc, 2, 4, &[1, 2, 3, 4, 5, 6, 7, 8])?;
    add_hole(&mut list, 1)?;
    add_hole(&mut list, 1)?;
    append(&mut list, list_of(alloc, 1, 4, &[9, 9, 9, 9])?)?;
    Ok(list)
}

/// The bytes of the five blocks.
static FIVE: [u8; 20] = [1, 2, 3, 4, 5, 6, 7, 8, 0, 0, 0, 0, 0, 0, 0, 0, 9, 9, 9, 9];

#[test]
fn blocks(rt: HostRuntime) -> Result<(), Fail> {
    let list = five_blocks(rt.alloc())?;
    let copy = list.copy(rt.alloc())?;
    assert!(rt; copy.blocks() == 5 && copy.mapped() == 3 && reads(rt.alloc(), &copy, &FIVE)?);
    Ok(())
}

/// The list has two blocks, of which the first holds these bytes, and the second is unmapped.
fn are_one_and_a_hole(alloc: Global, list: &BlockList, bytes: &[u8]) -> Result<bool, Fail> {
    let items = list.items(alloc)?;
    let is_held = matches!(items.first(), Some(Some(held)) if held.as_slice() == bytes);
    Ok(items.len() == 2 && is_held && matches!(items.get(1), Some(None)))
}

/// The second block and the first hole of the five.
#[test]
fn items_of_blocks(rt: HostRuntime) -> Result<(), Fail> {
    let list = five_blocks(rt.alloc())?;
    let part = part(rt.alloc(), &list, 1, 2)?;
    assert!(rt; are_one_and_a_hole(rt.alloc(), &part, &[5, 6, 7, 8])?);
    Ok(())
}

/// The bytes of the list are these, in one payload.
fn has_payload(alloc: Global, list: &BlockList, bytes: &[u8]) -> Result<bool, Fail> {
    let payload = list.payload(alloc)?;
    Ok(payload.as_slice() == bytes)
}

/// Two blocks of two bytes.
fn two_blocks(alloc: Global) -> Result<BlockList, Fail> {
    list_of(alloc, 2, 2, &[1, 2, 3, 4])
}

/// Two blocks of two bytes, and a hole.
fn two_blocks_and_a_hole(alloc: Global) -> Result<BlockList, Fail> {
    let mut list = two_blocks(alloc)?;
    add_hole(&mut list, 1)?;
    Ok(list)
}

/// The bytes of one piece, and those of two.
#[test]
fn payload(rt: HostRuntime) -> Result<(), Fail> {
    let alloc = rt.alloc();
    assert!(rt; has_payload(alloc, &two_blocks(alloc)?, &[1, 2, 3, 4])?);
    assert!(rt; has_payload(alloc, &two_blocks_and_a_hole(alloc)?, &[1, 2, 3, 4, 0, 0])?);
    Ok(())
}
