ghost use Rattle.std.specs.Prelude.{◌≡◌, ◌≢◌, ◌<◌, ◌≤◌, length, IfOk, IfErr, Some, None};
ghost use Rattle.cm_base.specs.Fields.{byte};
ghost use Rattle.scsi_sense.specs.Codes.{unsupported_target_descriptor_type};
ghost use Rattle.seg_parse.specs.CopyLists.{IsCscd, IsSegment};
ghost use Rattle.seg_parse.specs.Descriptors.{is_named, cscd, segment, segment_fault};

use crate::list::{Cscd, Segment};
use byteorder::{BigEndian, ByteOrder};
use cm_base::{get_u16, get_u64};
use scsi_sense::Sense;

/// Bytes of a CSCD descriptor and of a segment descriptor.
pub const CSCD: usize = 32;

pub const SEGMENT: usize = 28;

/// Identification descriptor CSCD descriptor (SPC-4).
pub const IDENTIFICATION: u8 = 0xe4;

/// Block device to block device segment descriptor (SPC-4), and the bytes after its length field.
pub const BLOCK_TO_BLOCK: u8 = 0x02;

pub const SEGMENT_LENGTH: u16 = 0x0018;

/// The designator is a binary NAA designator of the logical unit, of eight bytes.
fn is_named(bytes: &[u8]) -> bool
    requires { 32 ≤ length bytes.now }
    ensures { result ≡ is_named bytes.now }
{
    bytes[4] & 0x0f == 1 && bytes[5] >> 4 & 0x03 == 0 && bytes[5] & 0x0f == 3 && bytes[7] == 8
}

/// The name of a CSCD, where its designator is one.
fn read_name(bytes: &[u8]) -> Option<[u8; 8]>
    requires { 32 ≤ length bytes.now }
    ensures { result ≡ (cscd bytes.now).name }
{
    if !is_named(bytes) {
        return None;
    }
    let mut name = [0; 8];
    name.copy_from_slice(&bytes[8..16]);
    Some(name)
}

/// The CSCD descriptor at the front of the bytes.
pub fn read_cscd(bytes: &[u8]) -> Result<Cscd, Sense>
    requires { 32 ≤ length bytes.now }
    ensures known { IfOk result (λ _. byte bytes.now 0 ≡ 0xe4) }
    ensures read { IfOk result (λ unit. unit ≡ cscd bytes.now) }
    ensures fits { IfOk result IsCscd }
    ensures unknown { IfErr result (λ sense. sense ≡ unsupported_target_descriptor_type) }
    ensures other { IfErr result (λ _. byte bytes.now 0 ≢ 0xe4) }
{
    if bytes[0] != IDENTIFICATION {
        return Err(Sense::unsupported_target_descriptor_type());
    }
    Ok(Cscd {
        device: bytes[1] & 0x1f,
        name: read_name(bytes),
        block_length: BigEndian::read_u24(&bytes[29..]),
    })
}

/// The segment descriptor at the front of the bytes, between two of so many CSCDs.
pub fn read_segment(cscds: usize, bytes: &[u8]) -> Result<Segment, Sense>
    requires { 0 < length bytes.now }
    ensures sound { IfOk result (λ _. segment_fault cscds bytes.now ≡ None) }
    ensures read { IfOk result (λ read. read ≡ segment bytes.now) }
    ensures whole { IfOk result (λ _. 28 ≤ length bytes.now) }
    ensures within { IfOk result (IsSegment cscds) }
    ensures fault { IfErr result (λ sense. segment_fault cscds bytes.now ≡ Some sense) }
{
    if bytes[0] != BLOCK_TO_BLOCK {
        return Err(Sense::unsupported_segment_descriptor_type());
    }
    if bytes.len() < SEGMENT {
        return Err(Sense::parameter_list_length_error());
    }
    let source = get_u16(bytes, 4);
    let destination = get_u16(bytes, 6);
    if get_u16(bytes, 2) != SEGMENT_LENGTH
        || usize::from(source) >= cscds
        || usize::from(destination) >= cscds
    {
        return Err(Sense::invalid_field_in_parameter_list());
    }
    Ok(Segment {
        source,
        destination,
        count: get_u16(bytes, 10),
        from: get_u64(bytes, 12),
        to: get_u64(bytes, 20),
    })
}
