use crate::Refusing;
use cm_base::{Bytes, CallList, Config, MemoryLink, MemorySink, MemorySource, SetClock};
use cm_frame::{Parsed, read_header};
use session::{UnitRuns, session};
use std::alloc::Global;
use std::test::Fail;

/// Three units of 1,048,576 blocks of 512 bytes, with quotas of as many; the secret is the bytes 00h to 1Fh.
const UNITS: [&str; 4] = [
    "434d545241434531000102030405060708090a0b0c0d0e0f101112131415161718191a1b1c1d1e1f0003",
    "0000000000100000000002000010000000000000001000001000000000000000",
    "0000000000100000000002000010000000000000001000001000000000000000",
    "0000000000100000000002000010000000000000001000001000000001000000",
];

/// WRITE (16) of 2048 blocks of unit 0; POPULATE TOKEN of them; WRITE USING TOKEN to as many of unit 1;
/// RECEIVE ROD TOKEN INFORMATION of that; READ (16) of 1024 blocks there, and GET LBA STATUS.
const TOKEN_WRITE: [&str; 13] = [
    "0010000000008a000000000000000000000008000000",
    "33*1048576",
    "00000020000083100000000000000001000000200000",
    "001e02000000012c008000000000001000000000000000000000080000000000",
    "00000228000183110000000000000001000002280000",
    "0226000000000000000000000000000000800000000001f80000000000000000e400000001030008300000",
    "000000000000000000000000000000000000000200000000000000000000000000001000007d2bfd396a19",
    "c5d97703bd8d494adcb86fd8358acc6adebc4c7dccb29224ead8",
    "00*423",
    "1000000000000000000000080000000000",
    "00000000000184070000000100000000000004000000",
    "00000000000188000000000000000000000004000000",
    "0000000000019e120000000000000000000004000000",
];

/// The write is BUSY and was ended behind its first piece, which stands.
const TOKEN_WRITE_REPLIES: [&str; 9] = [
    "000000000000",
    "000000000000",
    "080000000000",
    "000000000024",
    "000000201160000000000000000000f10000000000000400000000000000000000000000",
    "000000080000",
    "33*524288",
    "000000000028",
    "0000002400000000000000000000000000000400000000000000000000000400000ffc0001000000",
];

/// WRITE (16) of 2048 blocks of unit 0; EXTENDED COPY(LID1) of them to unit 1; RECEIVE COPY STATUS(LID1) of
/// that; READ (16) of 1024 blocks there, and GET LBA STATUS.
const EXTENDED_COPY: [&str; 9] = [
    "0010000000008a000000000000000000000008000000",
    "33*1048576",
    "0000006c0000830000000000000000000000006c0000",
    "09000040000000000000001c00000000e40000000103000830000000000000000000000000000000000000",
    "0000000200e400000001030008300000000000000100000000000000000000000000000200020000180000",
    "00010000080000000000000000000000000000000000",
    "00000000000084000900000000000000000004000000",
    "00000000000188000000000000000000000004000000",
    "0000000000019e120000000000000000000004000000",
];

/// The copy is BUSY and was closed behind its first piece, which stands.
const EXTENDED_COPY_REPLIES: [&str; 8] = [
    "000000000000",
    "080000000000",
    "00000000000c",
    "000000080200000000080000",
    "000000080000",
    "33*524288",
    "000000000028",
    "0000002400000000000000000000000000000400000000000000000000000400000ffc0001000000",
];

/// Adds the bytes of hex text so many times.
fn add(alloc: Global, bytes: &mut Bytes, text: &str, count: u32) -> Result<(), Fail> {
    let decoded = hex::decode(alloc, text)?;
    for _ in 0..count {
        bytes.extend(&decoded)?;
    }
    Ok(())
}

/// The bytes of pieces of hex text; `33*512` is the byte 33h 512 times.
fn bytes_of(alloc: Global, pieces: &[&str]) -> Result<Bytes, Fail> {
    let mut bytes = Bytes::empty(alloc);
    for piece in pieces {
        match piece.split_once('*') {
            Some((byte, count)) => add(alloc, &mut bytes, byte, count.parse()?)?,
            None => add(alloc, &mut bytes, piece, 1)?,
        }
    }
    Ok(bytes)
}

/// The configuration of the units.
fn configured(alloc: Global) -> Result<Config, Fail> {
    let bytes = bytes_of(alloc, &UNITS)?;
    match read_header(alloc, bytes.as_slice())? {
        Parsed::Whole { value, .. } => Ok(value),
        Parsed::Short | Parsed::Bad { .. } => Err(Fail::from("no header")),
    }
}

/// A connection that gives these requests.
fn link_of(alloc: Global, requests: &[&str]) -> Result<MemoryLink, Fail> {
    let input = bytes_of(alloc, requests)?;
    let source = MemorySource::new(input, 4_194_304, CallList::empty(alloc));
    let sink = MemorySink::new(alloc, 4_194_304, CallList::empty(alloc));
    Ok(MemoryLink::new(source, sink))
}

/// A session over new units has these replies, where the calls of these numbers are refused memory.
fn is_replied(
    alloc: Global,
    requests: &[&str],
    refused: &[u64],
    replies: &[&str],
) -> Result<bool, Fail> {
    let config = configured(alloc)?;
    let units = UnitRuns::new(alloc, config.copy(alloc)?, 0)?;
    let mut nexus = Refusing::new(units, CallList::copy(alloc, refused)?);
    let mut link = link_of(alloc, requests)?;
    let end = session(alloc, &config, &mut link, &mut nexus, &SetClock::new(0));
    let wanted = bytes_of(alloc, replies)?;
    Ok(end.fault.is_none() && link.taken() == wanted.as_slice())
}

/// The calls are those of WRITE and POPULATE TOKEN; Redeem, Start, Advance, the refused Advance, and End; and
/// then one for each command.
#[test]
fn memory_refused_in_a_token_write(rt: HostRuntime) -> Result<(), Fail> {
    let replies = &TOKEN_WRITE_REPLIES;
    assert!(rt; is_replied(rt.alloc(), &TOKEN_WRITE, &[6], replies)?);
    Ok(())
}

/// The calls are that of WRITE; Open, Capture, Put, the refused Put, and Close; and then one for each command.
#[test]
fn memory_refused_in_an_extended_copy(rt: HostRuntime) -> Result<(), Fail> {
    let replies = &EXTENDED_COPY_REPLIES;
    assert!(rt; is_replied(rt.alloc(), &EXTENDED_COPY, &[5], replies)?);
    Ok(())
}

/// An End and a Close are passed on though they are listed: the replies are the same.
#[test]
fn an_end_that_is_listed_is_passed_on(rt: HostRuntime) -> Result<(), Fail> {
    let written = &TOKEN_WRITE_REPLIES;
    assert!(rt; is_replied(rt.alloc(), &TOKEN_WRITE, &[6, 7], written)?);
    let copied = &EXTENDED_COPY_REPLIES;
    assert!(rt; is_replied(rt.alloc(), &EXTENDED_COPY, &[5, 6], copied)?);
    Ok(())
}
