mod links;
mod listening;
mod managing;
mod meeting;
mod memory;
mod recorded;
mod refused;
mod stored;

use cm_base::{Bytes, CallList, MemoryLink, MemorySink, MemorySource, SetClock, Word};
use cm_server::{
    DiskList, Meet, RecorderList, Served, Status, Stored, serve, serve_at, serve_stored, serve_with,
};
use listening::TestListener;
use nexus::{Hold, Pass};
use recorder::Recorder;
use session::SessionEnd;
use std::alloc::Global;
use std::sync::Wait;
use std::test::Fail;
use std::thread::Threads;

/// One unit of 100 blocks of 512 bytes.
const SMALL: &str =
    "434d545241434531000102030405060708090a0b0c0d0e0f101112131415161718191a1b1c1d1e1f0001\
0000000000000064000002000010000000000000000000641000000000000000";

/// WRITE (16) of two blocks.
const WRITE: [&str; 3] = [
    "0000040000008a000000000000000000000000020000",
    "11*512",
    "22*512",
];

/// READ (16) of three blocks.
const READ: [&str; 1] = ["00000000000088000000000000000000000000030000"];

/// What both are told.
const REPLIES: [&str; 5] = ["000000000000", "000000000600", "11*512", "22*512", "00*512"];

/// The bytes of pieces of hex text, some of them repeated.
fn bytes_of(alloc: Global, pieces: &[&str]) -> Result<Bytes, Fail> {
    let mut bytes = Bytes::empty(alloc);
    for piece in pieces {
        match piece.split_once('*') {
            Some((byte, count)) => {
                let byte = hex::decode(alloc, byte)?;
                for _ in 0..count.parse::<u32>()? {
                    bytes.extend(&byte)?;
                }
            }
            None => bytes.extend(&hex::decode(alloc, *piece)?)?,
        }
    }
    Ok(bytes)
}

/// The WRITE and the READ.
fn both(alloc: Global) -> Result<Bytes, Fail> {
    let mut bytes = bytes_of(alloc, &WRITE)?;
    bytes.extend(bytes_of(alloc, &READ)?.as_slice())?;
    Ok(bytes)
}

/// The words of a line.
fn words_of(alloc: Global, line: &str) -> Result<Vec<Word>, Fail> {
    let mut words = Vec::new(alloc);
    for word in line.split(' ') {
        words.push(Word::from_text(alloc, word)?)?;
    }
    Ok(words)
}

/// No call fails.
fn none(alloc: Global) -> CallList {
    CallList::empty(alloc)
}

/// A listener with one link, which gives these bytes.
fn one_link(alloc: Global, bytes: Bytes) -> Result<TestListener, Fail> {
    let mut listener = TestListener::new(alloc);
    listener.add(bytes, none(alloc))?;
    Ok(listener)
}

/// An output that takes all.
fn output(alloc: Global) -> MemorySink {
    MemorySink::new(alloc, 4096, none(alloc))
}

/// Serves what comes to a listener over the small unit, at moment 0, as the words of a line say.
fn served<W: Threads + Wait + Sync>(
    rt: &W,
    alloc: Global,
    line: &str,
    listener: &mut TestListener,
    output: &mut MemorySink,
) -> Result<Status, Fail> {
    let words = words_of(alloc, line)?;
    let config = bytes_of(alloc, &[SMALL])?;
    let clock = SetClock::new(0);
    Ok(serve(
        rt,
        alloc,
        &words,
        config.as_slice(),
        listener,
        clock,
        output,
    ))
}
