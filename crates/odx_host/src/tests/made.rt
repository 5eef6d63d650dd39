// What the tests are made of.
use cm_base::{Bytes, CallList, MemorySource, Parsed};
use copy_plan::{Job, read_job};
use std::alloc::Global;
use std::test::Fail;

/// GOOD without data.
pub(crate) const GOOD: &str = "000000000000";

/// Copies two extents of 8 blocks of unit 0, at 0 and 100, to 16 blocks from 50 on of unit 1; a write is polled 3 times.
pub(crate) const JOB: &str = "00000001000000030000000200000001\
000000000000000000000008000000000000006400000008000000000000003200000010";

/// Adds the bytes of hex text so many times.
fn add(alloc: Global, bytes: &mut Bytes, text: &str, count: u32) -> Result<(), Fail> {
    let decoded = hex::decode(alloc, text)?;
    for _ in 0..count {
        bytes.extend(&decoded)?;
    }
    Ok(())
}

/// The bytes of pieces of hex text; `33*512` is the byte 33h 512 times.
pub(crate) fn bytes_of(alloc: Global, pieces: &[&str]) -> Result<Bytes, Fail> {
    let mut bytes = Bytes::empty(alloc);
    for piece in pieces {
        match piece.split_once('*') {
            Some((byte, count)) => add(alloc, &mut bytes, byte, count.parse()?)?,
            None => add(alloc, &mut bytes, piece, 1)?,
        }
    }
    Ok(bytes)
}

/// The low byte of the milliseconds to wait, of an operation that runs or not.
fn delay(status: &str) -> &str {
    match status {
        "11" | "12" => "64",
        _ => "00",
    }
}

/// What is told of a POPULATE TOKEN; its status and its count of blocks are hex text.
pub(crate) fn token(alloc: Global, status: &str, count: &str) -> Result<Bytes, Fail> {
    let front = bytes_of(
        alloc,
        &[
            "0000000002260000022210",
            status,
            "00*5",
            delay(status),
            "00*3",
            "f1",
            "00*7",
        ],
    )?;
    let behind = bytes_of(alloc, &[count, "00*8", "000002020000", "77*512"])?;
    joined(alloc, &[front, behind])
}

/// What is told of a write without a sense.
pub(crate) fn written(alloc: Global, status: &str, count: &str) -> Result<Bytes, Fail> {
    bytes_of(
        alloc,
        &[
            "0000000000240000002011",
            status,
            "00*5",
            delay(status),
            "00*3",
            "f1",
            "00*7",
            count,
            "00*12",
        ],
    )
}

pub(crate) fn joined(alloc: Global, parts: &[Bytes]) -> Result<Bytes, Fail> {
    let mut all = Bytes::empty(alloc);
    for part in parts {
        all.extend(part.as_slice())?;
    }
    Ok(all)
}

/// The replies up to that to the write.
pub(crate) fn begun(alloc: Global) -> Result<Bytes, Fail> {
    let good = bytes_of(alloc, &[GOOD])?;
    let told = token(alloc, "01", "10")?;
    let again = bytes_of(alloc, &[GOOD])?;
    joined(alloc, &[good, told, again])
}

/// A source of these bytes, by pulls of five, of which those listed fail.
pub(crate) fn source_of(
    alloc: Global,
    bytes: Bytes,
    failing: &[u64],
) -> Result<MemorySource, Fail> {
    Ok(MemorySource::new(bytes, 5, CallList::copy(alloc, failing)?))
}

/// The job of the tests.
pub(crate) fn job(alloc: Global) -> Result<Job, Fail> {
    let bytes = bytes_of(alloc, &[JOB])?;
    match read_job(alloc, bytes.as_slice())? {
        Parsed::Whole { value, .. } => Ok(value),
        Parsed::Short | Parsed::Bad { .. } => Err(Fail::from("no job")),
    }
}
