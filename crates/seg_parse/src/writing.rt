ghost use Rattle.std.specs.Prelude.{◌≡◌, ◌+◌, ◌*◌, ◌<◌, ◌≤◌, ◌^◌, ◌++◌, length, All, IfSome, IfOk, OnOk, Ok};
ghost use Rattle.seg_parse.specs.CopyLists.{IsCscd, IsCopyList, AreNamed};
ghost use Rattle.seg_parse.specs.ListRead.{lid1_read};
ghost use Rattle.seg_parse.specs.ListWritten.{name_bytes, cscd_bytes, segment_bytes, all_cscds, all_segments, lid1_written};
ghost use Rattle.seg_parse.specs.inner.Sizes.{IsSized, IsWide};

use crate::descriptors::{BLOCK_TO_BLOCK, CSCD, IDENTIFICATION, SEGMENT, SEGMENT_LENGTH};
use crate::list::{CopyList, Cscd, CscdList, Segment, SegmentList};
use cm_base::{Bytes, OutOfMemory, set_u16, set_u32, set_u64};
use std::alloc::Global;

/// A name, or zeros.
fn name_bytes(name: Option<[u8; 8]>) -> [u8; 8]
    ensures written { result ≡ name_bytes name }
    ensures sized { IfSome name (λ bytes. length bytes ≡ 8) }
{
    match name {
        Some(bytes) => bytes,
        None => [0; 8],
    }
}

/// The CSCD descriptor of a disk: a binary NAA designator of eight bytes, the unit's name.
fn cscd_bytes(unit: &Cscd) -> [u8; CSCD]
    requires { IsCscd unit.now }
    ensures written { result ≡ cscd_bytes unit.now }
    ensures sized { IsSized unit.now }
{
    let mut bytes = [0; CSCD];
    bytes[0] = IDENTIFICATION;
    bytes[1] = unit.device;
    bytes[4] = 1;
    bytes[5] = 3;
    bytes[7] = 8;
    // The block length has three bytes, and the one before them is zero.
    set_u32(&mut bytes, 28, unit.block_length);
    bytes[8..16].copy_from_slice(&name_bytes(unit.name));
    bytes
}

fn segment_bytes(segment: Segment) -> [u8; SEGMENT]
    ensures written { result ≡ segment_bytes segment }
    ensures wide { IsWide segment }
{
    let mut bytes = [0; SEGMENT];
    bytes[0] = BLOCK_TO_BLOCK;
    set_u16(&mut bytes, 2, SEGMENT_LENGTH);
    set_u16(&mut bytes, 4, segment.source);
    set_u16(&mut bytes, 6, segment.destination);
    set_u16(&mut bytes, 10, segment.count);
    set_u64(&mut bytes, 12, segment.from);
    set_u64(&mut bytes, 20, segment.to);
    bytes
}

/// Adds the CSCD descriptors.
fn push_cscds(bytes: &mut Bytes, units: &CscdList) -> Result<(), OutOfMemory>
    requires { All IsCscd units.now }
    ensures written { OnOk result (bytes.new ≡ bytes.old ++ all_cscds units.now) }
    ensures sized { OnOk result (All IsSized units.now) }
{
    for index in 0..units.len() {
        bytes.extend(&cscd_bytes(units.at(index)))?;
    }
    Ok(())
}

/// Adds the segment descriptors.
fn push_segments(bytes: &mut Bytes, segments: &SegmentList) -> Result<(), OutOfMemory>
    ensures written { OnOk result (bytes.new ≡ bytes.old ++ all_segments segments.now) }
    ensures wide { OnOk result (All IsWide segments.now) }
{
    for index in 0..segments.len() {
        bytes.extend(&segment_bytes(*segments.at(index)))?;
    }
    Ok(())
}

/// The list of an EXTENDED COPY (LID1) whose CSCDs have names (SPC-4, EXTENDED COPY (LID1) parameter
/// list): STR, priority, PAD, DC and CAT are zero, and there is no inline data.
pub fn write_lid1(alloc: Global, list: &CopyList) -> Result<Bytes, OutOfMemory>
    requires legal { IsCopyList list.now }
    requires named { AreNamed list.now }
    ensures written { IfOk result (λ bytes. bytes ≡ lid1_written list.now) }
    ensures read_back { IfOk result (λ bytes. lid1_read bytes ≡ Ok list.now) }
{
    let mut head = [0; 16];
    head[0] = list.id;
    head[1] = 8 * list.usage;
    set_u16(&mut head, 2, (CSCD * list.units.len()) as u16);
    set_u32(&mut head, 8, (SEGMENT * list.segments.len()) as u32);
    let mut bytes = Bytes::copy(alloc, &head)?;
    push_cscds(&mut bytes, &list.units)?;
    push_segments(&mut bytes, &list.segments)?;
    Ok(bytes)
}
