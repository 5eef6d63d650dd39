// Headers, items of a trace, requests and replies, read and written.
ghost use Rattle.std.specs.Prelude.{◌≤◌, length};
ghost use Rattle.cm_frame.specs.Grammar.{data_limit, data_in, data_out};

use cm_base::{Bytes, Config, Payload};
use cm_frame::{
    Parsed, Reply, TraceItem, read_header, read_item, read_reply, read_request, write_header,
    write_item, write_reply, write_request,
};
use scsi_sense::Sense;
use std::test::Fail;

/// How a reading ended, and at which place or after how many bytes.
#[derive(Debug, Clone, Copy, PartialEq, Eq)]
enum Ending {
    Whole(usize),
    Short,
    Bad(u64),
}

fn ending_of<T: Drop>(parsed: Parsed<T>) -> Ending {
    match parsed {
        Parsed::Whole { used, .. } => Ending::Whole(used),
        Parsed::Short => Ending::Short,
        Parsed::Bad { place } => Ending::Bad(place),
    }
}

/// One unit of 100 blocks of 512 bytes, with 4096 entries and no cap on what they hold.
const HEADER: [u8; 74] = [
    0x43, 0x4d, 0x54, 0x52, 0x41, 0x43, 0x45, 0x31, 0, 1, 2, 3, 4, 5, 6, 7, 8, 9, 10, 11, 12, 13,
    14, 15, 16, 17, 18, 19, 20, 21, 22, 23, 24, 25, 26, 27, 28, 29, 30, 31, 0, 1, 0, 0, 0, 0, 0, 0,
    0, 100, 0, 0, 2, 0, 0, 0, 0x10, 0, 0, 0, 0, 0, 0, 0, 0, 100, 0x10, 0, 0, 0, 0, 0, 0, 0,
];

/// How the reading of a header ends.
fn header_ending(rt: &HostRuntime, header: &[u8]) -> Result<Ending, Fail> {
    Ok(ending_of(read_header(rt.alloc(), header)?))
}

/// How the reading of a header ends in which one byte is changed.
fn fault(rt: &HostRuntime, header: &[u8], at: usize, byte: u8) -> Result<Ending, Fail> {
    let mut changed = header.to_vec(rt.alloc())?;
    if let Some(old) = changed.get_mut(at) {
        *old = byte;
    }
    header_ending(rt, changed.as_slice())
}

/// Whether a configuration has one unit and the secret of `HEADER`, and is written as this header.
fn is_written(rt: &HostRuntime, config: &Config, header: &[u8]) -> Result<bool, Fail> {
    let written = write_header(rt.alloc(), config)?;
    Ok(written.as_slice() == header && config.units() == 1 && config.secret()[31] == 31)
}

/// Whether a header is read, and written as it was.
fn is_read_and_written(rt: &HostRuntime, header: &[u8]) -> Result<bool, Fail> {
    match &read_header(rt.alloc(), header)? {
        Parsed::Whole { value, used } => Ok(
            *used == header.len() && is_written(rt, value, header)?,
        ),
        _ => Ok(false),
    }
}

#[test]
fn a_header_is_read_and_written(rt: HostRuntime) -> Result<(), Fail> {
    assert!(rt; is_read_and_written(&rt, &HEADER)?);
    assert!(rt; header_ending(&rt, &HEADER[..41])? == Ending::Short);
    assert!(rt; header_ending(&rt, &HEADER[..73])? == Ending::Short);
    // A byte, what stands there, and the place of the field that it breaks.
    let faults = [
        (7, 0x32, 0),
        (41, 0, 40),
        (41, 17, 40),
        (49, 0, 42),
        (53, 1, 50),
        (54, 1, 54),
        (65, 101, 58),
        (66, 0, 66),
        (70, 16, 70),
        (73, 1, 71),
    ];
    for (at, byte, place) in faults {
        assert!(rt;
            fault(&rt, &HEADER, at, byte)? == Ending::Bad(place),
            "at {at}"
        );
    }
    Ok(())
}

/// Adds a byte so many times.
fn repeat(bytes: &mut Bytes, byte: u8, times: usize) -> Result<(), Fail> {
    for _ in 0..times {
        bytes.push(byte)?;
    }
    Ok(())
}

/// Initiator 1 asks unit 0 at moment 0 to write two blocks of 512 bytes from block 0 on.
const WRITE: [u8; 35] = [
    1, 0, 0, 0, 1, 0, 0, 0, 0, 0, 0, 0, 0, 0, 0, 4, 0, 0, 0, 0x8a, 0, 0, 0, 0, 0, 0, 0, 0, 0, 0, 0,
    0, 2, 0, 0,
];

/// Whether an item begins a command with this operation code and data-out, whose request is written as these bytes.
fn begins(
    rt: &HostRuntime,
    item: &TraceItem,
    code: u8,
    out: &[u8],
    bytes: &[u8],
) -> Result<bool, Fail>
    requires { length (data_out item.now) ≤ data_limit }
{
    let TraceItem::Begin { request, .. } = item else {
        return Ok(false);
    };
    let written = write_request(rt.alloc(), request)?;
    Ok(request.cdb[0] == code && request.out.as_slice() == out && written.as_slice() == bytes)
}

/// Whether an item is written as these bytes.
fn is_spelled_item(rt: &HostRuntime, item: &TraceItem, bytes: &[u8]) -> Result<bool, Fail>
    requires { length (data_out item.now) ≤ data_limit }
{
    let written = write_item(rt.alloc(), item)?;
    Ok(written.as_slice() == bytes)
}

/// Whether an item begins a WRITE, and is written as these bytes.
fn writes(rt: &HostRuntime, item: &TraceItem, bytes: &[u8]) -> Result<bool, Fail>
    requires limit { length (data_out item.now) ≤ data_limit }
    requires front { 35 ≤ length bytes.now }
{
    let same = is_spelled_item(rt, item, bytes)?;
    Ok(same && begins(rt, item, 0x8a, &bytes[35..], &bytes[13..])?)
}

/// Whether these bytes are read as one item that begins a WRITE, and written as they were.
fn is_a_write(rt: &HostRuntime, bytes: &[u8]) -> Result<bool, Fail>
    requires { 35 ≤ length bytes.now }
{
    match &read_item(rt.alloc(), bytes)? {
        Parsed::Whole { value, used } => Ok(*used == bytes.len() && writes(rt, value, bytes)?),
        _ => Ok(false),
    }
}

/// A WRITE of one block of 11h and one of 22h.
fn two_blocks(rt: &HostRuntime) -> Result<Bytes, Fail> {
    let mut bytes = Bytes::copy(rt.alloc(), &WRITE)?;
    repeat(&mut bytes, 0x11, 512)?;
    repeat(&mut bytes, 0x22, 512)?;
    Ok(bytes)
}

/// How the reading of a request ends.
fn request_ending(rt: &HostRuntime, bytes: &[u8]) -> Result<Ending, Fail> {
    Ok(ending_of(read_request(rt.alloc(), bytes)?))
}

/// How many bytes such a WRITE has, and how the reading of the request in it ends, if it is read and
/// written as it was.
fn found_of_write(rt: &HostRuntime) -> Result<Option<(usize, Ending)>, Fail> {
    let bytes = two_blocks(rt)?;
    let bytes = bytes.as_slice();
    if bytes.len() < 35 || !is_a_write(rt, bytes)? {
        return Ok(None);
    }
    Ok(Some((bytes.len(), request_ending(rt, &bytes[13..])?)))
}

#[test]
fn items_are_read_and_written(rt: HostRuntime) -> Result<(), Fail> {
    assert_eq!(rt; found_of_write(&rt)?, Some((1059, Ending::Whole(1046))));
    Ok(())
}

/// Initiator 1 runs at moment 5.
const RUN: [u8; 13] = [2, 0, 0, 0, 1, 0, 0, 0, 0, 0, 0, 0, 5];

/// Unit 7 is pumped at moment 5.
const PUMP: [u8; 11] = [3, 0, 7, 0, 0, 0, 0, 0, 0, 0, 5];

/// How the reading of an item ends.
fn item_ending(rt: &HostRuntime, bytes: &[u8]) -> Result<Ending, Fail> {
    Ok(ending_of(read_item(rt.alloc(), bytes)?))
}

#[test]
fn items_are_judged(rt: HostRuntime) -> Result<(), Fail> {
    let mut long = WRITE;
    long[13] = 0xff;
    let items: [(&[u8], Ending); 9] = [
        (&[], Ending::Short),
        (&[4], Ending::Bad(0)),
        (&WRITE[..16], Ending::Short),
        (&WRITE, Ending::Short),
        (&long[..17], Ending::Bad(13)),
        (&RUN, Ending::Whole(13)),
        (&RUN[..12], Ending::Short),
        (&PUMP, Ending::Whole(11)),
        (&PUMP[..10], Ending::Short),
    ];
    for (bytes, wanted) in items {
        assert!(rt; item_ending(&rt, bytes)? == wanted, "{bytes:?}");
    }
    // Data of 8,388,609 bytes, and of FFFFFFFFh.
    for length in [[0, 0x80, 0, 1], [0xff, 0xff, 0xff, 0xff]] {
        assert!(rt; request_ending(&rt, &length)? == Ending::Bad(0));
    }
    Ok(())
}

/// How the reading of a reply ends.
fn reply_ending(rt: &HostRuntime, bytes: &[u8]) -> Result<Ending, Fail> {
    Ok(ending_of(read_reply(rt.alloc(), bytes)?))
}

/// Whether a reply is written as these bytes, and these bytes are read as one reply.
fn is_spelled(rt: &HostRuntime, reply: Reply, bytes: &[u8]) -> Result<bool, Fail>
    requires { length (data_in reply) ≤ data_limit }
{
    let written = write_reply(rt.alloc(), &reply)?;
    let same = written.as_slice() == bytes;
    Ok(same && reply_ending(rt, bytes)? == Ending::Whole(bytes.len()))
}

/// CHECK CONDITION, with a sense of fixed format.
const CHECK: [u8; 24] = [
    2, 0x12, 0, 0, 0, 0, 0x70, 0, 5, 0, 0, 0, 0, 0x0a, 0, 0, 0, 0, 0x24, 0, 0, 0, 0, 0,
];

#[test]
fn replies_are_read_and_written(rt: HostRuntime) -> Result<(), Fail> {
    let data = Payload::copy_from_slice(rt.alloc(), &[0x11, 0x22, 0x33])?;
    let sense = Sense::new(0x05, 0x24, 0x00);
    let good = [0, 0, 0, 0, 0, 3, 0x11, 0x22, 0x33];
    assert!(rt; is_spelled(&rt, Reply::Good(data), &good)?);
    assert!(rt; is_spelled(&rt, Reply::Check(sense), &CHECK)?);
    assert!(rt; is_spelled(&rt, Reply::Busy, &[8, 0, 0, 0, 0, 0])?);
    assert!(rt; is_spelled(&rt, Reply::Conflict, &[0x18, 0, 0, 0, 0, 0])?);
    assert!(rt; is_spelled(&rt, Reply::Full, &[0x28, 0, 0, 0, 0, 0])?);
    Ok(())
}

#[test]
fn replies_are_judged(rt: HostRuntime) -> Result<(), Fail> {
    let mut descriptor = CHECK;
    descriptor[6] = 0x72;
    let replies: [(&[u8], Ending); 11] = [
        (&CHECK[..23], Ending::Short),
        (&descriptor, Ending::Bad(6)),
        (&[1, 0, 0, 0, 0], Ending::Short),
        (&[1, 0, 0, 0, 0, 0], Ending::Bad(0)),
        (&[0, 0x12, 0, 0, 0, 0], Ending::Bad(1)),
        (&[2, 0, 0, 0, 0, 0], Ending::Bad(1)),
        (&[8, 0, 0, 0, 0, 1], Ending::Bad(2)),
        (&[0x18, 0, 0, 0, 0, 1], Ending::Bad(2)),
        (&[0, 0, 0, 0x80, 0, 1], Ending::Bad(2)),
        (&[0, 0, 0, 0x80, 0, 0], Ending::Short),
        (&[0, 0, 0, 0, 0, 2, 1], Ending::Short),
    ];
    for (bytes, wanted) in replies {
        assert!(rt; reply_ending(&rt, bytes)? == wanted, "{bytes:?}");
    }
    Ok(())
}
