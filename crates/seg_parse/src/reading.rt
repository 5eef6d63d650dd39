ghost use Rattle.std.specs.Prelude.{◌≡◌, ◌+◌, ◌*◌, ◌/◌, ◌≤◌, length, All, IfOk, IfErr, Ok, Some, None};
ghost use Rattle.scsi_sense.specs.Faults.{Refuses};
ghost use Rattle.seg_parse.specs.CopyLists.{IsCscd, IsSegment, IsCopyList};
ghost use Rattle.seg_parse.specs.Descriptors.{cscds_read, segments_read};
ghost use Rattle.seg_parse.specs.ListRead.{usage, cscd_length, segment_length, head_fault, lid1_read};

use crate::descriptors::{CSCD, SEGMENT, read_cscd, read_segment};
use crate::list::{CopyList, CscdList, SegmentList};
use cm_base::{Sequence, get_u16, get_u32};
use scsi_sense::{ParamFault, Sense};
use std::alloc::Global;

/// Bytes before the descriptors.
const HEAD: usize = 16;

/// Descriptors of one list.
const MAX_CSCDS: usize = 16;

const MAX_SEGMENTS: usize = 64;

/// LIST ID USAGE of a list that is discarded after it was used, which is not supported.
const DISCARD: u8 = 1;

/// The first CSCD descriptors of some bytes.
fn read_cscds(alloc: Global, count: usize, bytes: &[u8]) -> Result<CscdList, ParamFault>
    requires { 32 * count ≤ length bytes.now }
    ensures read { IfOk result (λ units. cscds_read count bytes.now ≡ Ok units) }
    ensures count { IfOk result (λ units. length units ≡ count) }
    ensures fit { IfOk result (All IsCscd) }
    ensures refused { IfErr result (Refuses (cscds_read count bytes.now)) }
{
    let mut units = Sequence::empty(alloc);
    let mut rest = bytes;
    for _ in 0..count {
        units.push(read_cscd(rest)?)?;
        (_, rest) = rest.split_at(CSCD);
    }
    Ok(units)
}

/// The segment descriptors that the bytes are, between two of so many CSCDs.
fn read_segments(alloc: Global, cscds: usize, bytes: &[u8]) -> Result<SegmentList, ParamFault>
    requires { length bytes.now ≤ 1792 }
    ensures read { IfOk result (λ segments. segments_read cscds 64 bytes.now ≡ Ok segments) }
    ensures few { IfOk result (λ segments. length segments ≤ 64) }
    ensures within { IfOk result (All (IsSegment cscds)) }
    ensures refused { IfErr result (Refuses (segments_read cscds 64 bytes.now)) }
{
    let mut segments = Sequence::empty(alloc);
    let mut rest = bytes;
    while !rest.is_empty() {
        segments.push(read_segment(cscds, rest)?)?;
        (_, rest) = rest.split_at(SEGMENT);
    }
    Ok(segments)
}

/// LIST ID USAGE.
fn usage_of(list: &[u8]) -> u8
    requires { 2 ≤ length list.now }
    ensures { result ≡ usage list.now }
{
    list[1] >> 3 & 0x03
}

/// Bytes of the CSCD descriptors and of the segment descriptors, or what is wrong with the head.
fn measure(list: &[u8]) -> Result<(usize, usize), Sense>
    ensures sound { IfOk result (λ _. head_fault list.now ≡ None) }
    ensures lengths { IfOk result (λ bytes. (bytes.0 ≡ cscd_length list.now) × (bytes.1 ≡ segment_length list.now)) }
    ensures few { IfOk result (λ bytes. (bytes.0 ≤ 512) × (bytes.1 ≤ 1792)) }
    ensures whole { IfOk result (λ bytes. 16 + bytes.0 + bytes.1 ≤ length list.now) }
    ensures fault { IfErr result (λ sense. head_fault list.now ≡ Some sense) }
{
    if list.len() < HEAD {
        return Err(Sense::parameter_list_length_error());
    }
    let cscds = usize::from(get_u16(list, 2));
    let segments = get_u32(list, 8) as usize;
    if usage_of(list) == DISCARD {
        return Err(Sense::invalid_field_in_parameter_list());
    }
    if get_u32(list, 12) != 0 {
        return Err(Sense::inline_data_length_exceeded());
    }
    if cscds % CSCD != 0 {
        return Err(Sense::invalid_field_in_parameter_list());
    }
    if cscds > CSCD * MAX_CSCDS {
        return Err(Sense::too_many_target_descriptors());
    }
    if segments > SEGMENT * MAX_SEGMENTS {
        return Err(Sense::too_many_segment_descriptors());
    }
    if list.len() < HEAD + cscds + segments {
        return Err(Sense::parameter_list_length_error());
    }
    Ok((cscds, segments))
}

/// What an EXTENDED COPY (LID1) asks for (SPC-4, EXTENDED COPY (LID1) parameter list).
///
/// The first of these refuses the list: PARAMETER LIST LENGTH ERROR where it has fewer than 16
/// bytes; INVALID FIELD IN PARAMETER LIST where LIST ID USAGE is 1; INLINE DATA LENGTH EXCEEDED
/// where there is inline data; INVALID FIELD IN PARAMETER LIST where the CSCD descriptors' length is
/// no multiple of 32; TOO MANY TARGET DESCRIPTORS and TOO MANY SEGMENT DESCRIPTORS where there are
/// more than 16 or 64; PARAMETER LIST LENGTH ERROR where not all of them are there. Then, for each
/// CSCD descriptor in order, UNSUPPORTED TARGET DESCRIPTOR TYPE CODE where it is not E4h; and for
/// each segment descriptor in order, UNSUPPORTED SEGMENT DESCRIPTOR TYPE CODE where it is not 02h,
/// PARAMETER LIST LENGTH ERROR where fewer than 28 bytes are left, and INVALID FIELD IN PARAMETER
/// LIST where its length is not 0018h or it names a CSCD that is not there.
pub fn read_lid1(alloc: Global, list: &[u8]) -> Result<CopyList, ParamFault>
    ensures read { IfOk result (λ copy. lid1_read list.now ≡ Ok copy) }
    ensures refused { IfErr result (Refuses (lid1_read list.now)) }
    ensures legal { IfOk result IsCopyList }
{
    let (cscds, segments) = measure(list)?;
    let (_, descriptors) = list.split_at(HEAD);
    let start = HEAD + cscds;
    let units = read_cscds(alloc, cscds / CSCD, descriptors)?;
    let segments = read_segments(alloc, cscds / CSCD, &list[start..start + segments])?;
    Ok(CopyList {
        id: list[0],
        usage: usage_of(list),
        units,
        segments,
    })
}
