ghost use Rattle.std.specs.Prelude.{◌≡◌, ◌+◌, ◌*◌, ◌<◌, ◌≤◌, ◌^◌, ◌++◌, length, IfOk, OnOk, OnErr, Ok};
ghost use Rattle.block_params.specs.ListsRead.{unmap_read, populate_read, write_token_read};
ghost use Rattle.block_params.specs.ListsWritten.{descriptor, descriptors, unmap_written, populate_written, write_token_written};
ghost use Rattle.block_params.specs.inner.Lists.{IsRange, AreRanges};
ghost use Rattle.block_params.specs.Lists.{IsPopulate, IsWrite};

use crate::lists::{PopulateList, WriteList};
use crate::ranges::DESCRIPTOR;
use crate::reading::POINT_IN_TIME;
use cm_base::{Bytes, OutOfMemory, set_u16, set_u32, set_u64};
use lba_ranges::{Range, RangeList};
use std::alloc::Global;

/// RTV of a POPULATE TOKEN: a ROD type is asked for.
const RTV: u8 = 0x02;

/// A range descriptor: LBA, number of blocks, four bytes that are not used.
fn descriptor(range: Range) -> [u8; DESCRIPTOR]
    ensures written { result ≡ descriptor range }
    ensures fits { IsRange range }
{
    let mut bytes = [0; DESCRIPTOR];
    set_u64(&mut bytes, 0, range.lba);
    set_u32(&mut bytes, 8, range.count);
    bytes
}

/// Adds the range descriptors.
fn push_ranges(bytes: &mut Bytes, ranges: &RangeList) -> Result<(), OutOfMemory>
    ensures written { OnOk result (bytes.new ≡ bytes.old ++ descriptors ranges.now) }
    ensures fits { OnOk result (AreRanges ranges.now) }
{
    for index in 0..ranges.len() {
        bytes.extend(&descriptor(ranges.at(index)))?;
    }
    Ok(())
}

/// Bytes of the range descriptors.
fn length_of(ranges: &RangeList) -> u16
    ensures length { result ≡ 16 * length ranges.now }
    ensures few { length ranges.now ≤ 64 }
{
    (DESCRIPTOR * ranges.len()) as u16
}

/// The list of an UNMAP (SBC-3, UNMAP parameter list).
pub fn write_unmap(alloc: Global, ranges: &RangeList) -> Result<Bytes, OutOfMemory>
    ensures written { IfOk result (λ bytes. bytes ≡ unmap_written ranges.now) }
    ensures read_back { IfOk result (λ bytes. unmap_read bytes ≡ Ok ranges.now) }
{
    let length = length_of(ranges);
    let mut head = [0; 8];
    set_u16(&mut head, 0, 6 + length);
    set_u16(&mut head, 2, length);
    let mut bytes = Bytes::copy(alloc, &head)?;
    push_ranges(&mut bytes, ranges)?;
    Ok(bytes)
}

/// The list of a POPULATE TOKEN (SBC-3, POPULATE TOKEN parameter list): IMMED 0, and RTV for a
/// point in time copy.
pub fn write_populate(alloc: Global, list: &PopulateList) -> Result<Bytes, OutOfMemory>
    requires { IsPopulate list.now }
    ensures written { IfOk result (λ bytes. bytes ≡ populate_written list.now) }
    ensures read_back { IfOk result (λ bytes. populate_read bytes ≡ Ok list.now) }
{
    let length = length_of(&list.ranges);
    let mut head = [0; 16];
    set_u16(&mut head, 0, 14 + length);
    head[2] = RTV;
    set_u32(&mut head, 4, list.timeout);
    set_u32(&mut head, 8, POINT_IN_TIME);
    set_u16(&mut head, 14, length);
    let mut bytes = Bytes::copy(alloc, &head)?;
    push_ranges(&mut bytes, &list.ranges)?;
    Ok(bytes)
}

/// The list of a WRITE USING TOKEN (SBC-3, WRITE USING TOKEN parameter list).
pub fn write_write_token(alloc: Global, list: &WriteList) -> Result<Bytes, OutOfMemory>
    requires { IsWrite list.now }
    ensures written { IfOk result (λ bytes. bytes ≡ write_token_written list.now) }
    ensures read_back { IfOk result (λ bytes. write_token_read bytes ≡ Ok list.now) }
{
    let length = length_of(&list.ranges);
    let offset = list.offset;
    let mut head = [0; 16];
    set_u16(&mut head, 0, 534 + length);
    head[2] = u8::from(list.immed) + 2 * u8::from(list.delete);
    set_u64(&mut head, 8, offset);
    let mut measure = [0; 8];
    set_u16(&mut measure, 6, length);
    let mut bytes = Bytes::copy(alloc, &head)?;
    bytes.extend(&list.token)?;
    bytes.extend(&measure)?;
    push_ranges(&mut bytes, &list.ranges)?;
    Ok(bytes)
}
