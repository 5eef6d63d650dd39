ghost use Rattle.std.specs.Prelude.{◌≡◌, ◌≤◌, ◌/◌, ◌%◌, ◌^◌, ◌==◌, length, IfOk, IfErr, Ok, Some, None};
ghost use Rattle.cm_base.specs.Fields.{field};
ghost use Rattle.scsi_sense.specs.Faults.{Refuses};
ghost use Rattle.block_params.specs.Lists.{IsPopulate, IsWrite};
ghost use Rattle.block_params.specs.ListsRead.{unmap_read, populate_read, write_token_read, populate_fault, timeout_of};

use crate::lists::{PopulateList, WriteList};
use crate::ranges::{DESCRIPTOR, MAX_RANGES, count_ranges, read_ranges, read_token_ranges};
use cm_base::{get_u16, get_u32, get_u64};
use lba_ranges::RangeList;
use scsi_sense::{ParamFault, Sense};
use std::alloc::Global;

/// Place of the first range descriptor of each list.
const UNMAP_START: usize = 8;

const POPULATE_START: usize = 16;

const WRITE_START: usize = 536;

/// Seconds: the longest inactivity timeout, and the one of a list that asks for none.
const MAX_TIMEOUT: u32 = 3600;

const DEFAULT_TIMEOUT: u32 = 300;

/// ROD types (SPC-4, ROD types): a point in time copy that the copy manager chooses, and any.
pub(crate) const POINT_IN_TIME: u32 = 0x0080_0000;

const ANY_POINT_IN_TIME: u32 = 0x0080_ffff;

/// The ranges that an UNMAP asks for (SBC-3, UNMAP parameter list); a list of no bytes has none.
///
/// The descriptors are those that are there whole, and what is left over is ignored. The list is
/// refused with PARAMETER LIST LENGTH ERROR exactly where it has 1 to 7 bytes, and with INVALID
/// FIELD IN PARAMETER LIST exactly where it has more than 64 descriptors.
pub fn read_unmap(alloc: Global, list: &[u8]) -> Result<RangeList, ParamFault>
    ensures read { IfOk result (λ ranges. unmap_read list.now ≡ Ok ranges) }
    ensures refused { IfErr result (Refuses (unmap_read list.now)) }
{
    if list.is_empty() {
        return Ok(RangeList::empty(alloc));
    }
    if list.len() < UNMAP_START {
        return Err(ParamFault::Refused(Sense::parameter_list_length_error()));
    }
    let described = usize::from(get_u16(list, 2)).min(list.len() - UNMAP_START);
    let count = described / DESCRIPTOR;
    if count > MAX_RANGES {
        return Err(ParamFault::Refused(Sense::invalid_field_in_parameter_list()));
    }
    Ok(read_ranges(alloc, count, &list[UNMAP_START..])?)
}

/// The bit of a byte.
fn has_bit(byte: u8, place: u32) -> bool
    requires { place ≤ 7 }
    ensures { result ≡ (byte / 2 ^ place % 2 == 1) }
{
    byte >> place & 1 == 1
}

/// The timeout of a POPULATE TOKEN, or what is wrong with its timeout or its ROD type.
fn read_timeout(list: &[u8]) -> Result<u32, Sense>
    requires { 16 ≤ length list.now }
    ensures sound { IfOk result (λ _. populate_fault list.now ≡ None) }
    ensures timeout { IfOk result (λ timeout. timeout ≡ timeout_of (field list.now 4 7)) }
    ensures fault { IfErr result (λ sense. populate_fault list.now ≡ Some sense) }
{
    let timeout = get_u32(list, 4);
    if timeout > MAX_TIMEOUT {
        return Err(Sense::invalid_field_in_parameter_list());
    }
    let rod_type = get_u32(list, 8);
    if has_bit(list[2], 1) && rod_type != POINT_IN_TIME && rod_type != ANY_POINT_IN_TIME {
        return Err(Sense::invalid_field_in_parameter_list());
    }
    Ok(if timeout == 0 {
        DEFAULT_TIMEOUT
    } else {
        timeout
    })
}

/// What a POPULATE TOKEN asks for (SBC-3, POPULATE TOKEN parameter list). IMMED has no effect.
///
/// The first of these refuses the list: PARAMETER LIST LENGTH ERROR where it has fewer than 16
/// bytes or fewer than its data length says; INVALID FIELD IN PARAMETER LIST where the range
/// descriptor length is no multiple of 16; PARAMETER LIST LENGTH ERROR where not all descriptors
/// are there; INVALID FIELD IN PARAMETER LIST where there are more than 64, the timeout is above
/// 3600 seconds, RTV asks for a ROD type that is not made, two ranges share a block, or there are
/// more than 1,048,576 blocks.
pub fn read_populate(alloc: Global, list: &[u8]) -> Result<PopulateList, ParamFault>
    ensures read { IfOk result (λ populate. populate_read list.now ≡ Ok populate) }
    ensures refused { IfErr result (Refuses (populate_read list.now)) }
    ensures legal { IfOk result IsPopulate }
{
    let count = count_ranges(list, POPULATE_START)?;
    let timeout = read_timeout(list)?;
    let ranges = read_token_ranges(alloc, list, POPULATE_START, count)?;
    Ok(PopulateList { timeout, ranges })
}

/// What a WRITE USING TOKEN asks for (SBC-3, WRITE USING TOKEN parameter list).
///
/// The first of these refuses the list: PARAMETER LIST LENGTH ERROR where it has fewer than 536
/// bytes or fewer than its data length says; INVALID FIELD IN PARAMETER LIST where the range
/// descriptor length is no multiple of 16; PARAMETER LIST LENGTH ERROR where not all descriptors
/// are there; INVALID FIELD IN PARAMETER LIST where there are more than 64, two ranges share a
/// block, or there are more than 1,048,576 blocks.
pub fn read_write_token(alloc: Global, list: &[u8]) -> Result<WriteList, ParamFault>
    ensures read { IfOk result (λ write. write_token_read list.now ≡ Ok write) }
    ensures refused { IfErr result (Refuses (write_token_read list.now)) }
    ensures legal { IfOk result IsWrite }
{
    let count = count_ranges(list, WRITE_START)?;
    let ranges = read_token_ranges(alloc, list, WRITE_START, count)?;
    let mut token = [0; 512];
    token.copy_from_slice(&list[16..528]);
    Ok(WriteList {
        immed: has_bit(list[2], 0),
        delete: has_bit(list[2], 1),
        offset: get_u64(list, 8),
        token,
        ranges,
    })
}
