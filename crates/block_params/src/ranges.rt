ghost use Rattle.std.specs.Prelude.{◌≡◌, ◌+◌, ◌*◌, ◌/◌, ◌≤◌, length, drop, IfOk, IfErr, Ok, Some, None};
ghost use Rattle.scsi_sense.specs.Faults.{Refuses};
ghost use Rattle.block_params.specs.RangesRead.{ranges_in, ranges_length, length_fault};
ghost use Rattle.block_params.specs.inner.RangesRead.{checked};

use cm_base::{OutOfMemory, get_u16, get_u32, get_u64};
use lba_ranges::{Range, RangeList};
use scsi_sense::{ParamFault, Sense};
use std::alloc::Global;

/// Bytes of a range descriptor: eight of LBA, four of count, four that are not used.
pub const DESCRIPTOR: usize = 16;

/// Ranges of one list.
pub const MAX_RANGES: usize = 64;

/// Blocks of one token.
const MAX_BLOCKS: u64 = 1_048_576;

/// The first range descriptors of some bytes.
#[tactic(auto, using(crate::proofs::RangeDescriptors::range_steps))]
pub fn read_ranges(alloc: Global, count: usize, bytes: &[u8]) -> Result<RangeList, OutOfMemory>
    requires few { count ≤ 64 }
    requires whole { 16 * count ≤ length bytes.now }
    ensures { IfOk result (λ ranges. ranges ≡ ranges_in count bytes.now) }
{
    let mut ranges = RangeList::empty(alloc);
    for index in 0..count {
        let at = DESCRIPTOR * index;
        ranges.push(Range {
            lba: get_u64(bytes, at),
            count: get_u32(bytes, at + 8),
        })?;
    }
    Ok(ranges)
}

/// The range descriptors of a token's list from `start` on: no block twice, and not too many.
pub fn read_token_ranges(
    alloc: Global,
    list: &[u8],
    start: usize,
    count: usize,
) -> Result<RangeList, ParamFault>
    requires few { count ≤ 64 }
    requires whole { start + 16 * count ≤ length list.now }
    ensures read { IfOk result (λ ranges. checked (ranges_in count (drop start list.now)) ≡ Ok ranges) }
    ensures refused { IfErr result (Refuses (checked (ranges_in count (drop start list.now)))) }
{
    let ranges = read_ranges(alloc, count, &list[start..])?;
    if ranges.overlap() || ranges.total() > MAX_BLOCKS {
        return Err(ParamFault::Refused(Sense::invalid_field_in_parameter_list()));
    }
    Ok(ranges)
}

/// How many range descriptors a token's list has from `start` on, or what is wrong with its lengths.
pub fn count_ranges(list: &[u8], start: usize) -> Result<usize, Sense>
    requires low { 2 ≤ start }
    requires high { start ≤ 536 }
    ensures sound { IfOk result (λ _. length_fault start list.now ≡ None) }
    ensures count { IfOk result (λ count. count ≡ ranges_length start list.now / 16) }
    ensures few { IfOk result (λ count. count ≤ 64) }
    ensures whole { IfOk result (λ count. start + 16 * count ≤ length list.now) }
    ensures fault { IfErr result (λ sense. length_fault start list.now ≡ Some sense) }
{
    if list.len() < start || list.len() < usize::from(get_u16(list, 0)) + 2 {
        return Err(Sense::parameter_list_length_error());
    }
    let length = usize::from(get_u16(list, start - 2));
    if length % DESCRIPTOR != 0 {
        return Err(Sense::invalid_field_in_parameter_list());
    }
    if list.len() < start + length {
        return Err(Sense::parameter_list_length_error());
    }
    if length > DESCRIPTOR * MAX_RANGES {
        return Err(Sense::invalid_field_in_parameter_list());
    }
    Ok(length / DESCRIPTOR)
}
