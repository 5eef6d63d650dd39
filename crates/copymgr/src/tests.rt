ghost use Rattle.std.specs.Prelude.{◌<◌};

use crate::rows::{Row, first_path, generated, hex_text, long_data, named, words};
use crate::status::Status;
use crate::top::top;
use cm_base::{Bytes, CallList, MemorySink, MemorySource, Word};
use generator::generate;
use std::alloc::Global;
use std::test::Fail;
use trace_replay::{Summary, replay};

/// Adds the bytes of hex text.
fn add(alloc: Global, bytes: &mut Bytes, text: &str) -> Result<(), Fail> {
    let decoded = hex::decode(alloc, text)?;
    bytes.extend(&decoded)?;
    Ok(())
}

/// Adds the bytes of hex text so many times.
fn add_times(alloc: Global, bytes: &mut Bytes, text: &str, count: u32) -> Result<(), Fail> {
    let decoded = hex::decode(alloc, text)?;
    for _ in 0..count {
        bytes.extend(&decoded)?;
    }
    Ok(())
}

/// Adds the bytes of a word.
fn add_word(alloc: Global, bytes: &mut Bytes, word: &str) -> Result<(), Fail> {
    match word.split_once('*') {
        Some((byte, count)) => add_times(alloc, bytes, byte, count.parse()?),
        None => add(alloc, bytes, hex_text(word)),
    }
}

/// Adds the bytes of a text, as rows have it.
pub(crate) fn add_text(alloc: Global, bytes: &mut Bytes, text: &str) -> Result<(), Fail> {
    for word in text.split_whitespace() {
        add_word(alloc, bytes, word)?;
    }
    Ok(())
}

/// The bytes of a text, as rows have it.
pub(crate) fn bytes_of(alloc: Global, text: &str) -> Result<Bytes, Fail> {
    let mut bytes = Bytes::empty(alloc);
    add_text(alloc, &mut bytes, text)?;
    Ok(bytes)
}

/// The words of a command line.
pub(crate) fn words_of(alloc: Global, line: &[&str]) -> Result<Vec<Word>, Fail> {
    let mut words = Vec::new(alloc);
    for word in line {
        let word = Word::from_text(alloc, word)?;
        words.push(word)?;
    }
    Ok(words)
}

/// The calls that fail, counted from 1.
#[derive(Clone, Copy)]
pub(crate) struct Failing {
    pub pull: Option<u64>,
    pub push: Option<u64>,
}

impl Failing {
    /// No call fails.
    pub fn nothing() -> Failing {
        Failing {
            pull: None,
            push: None,
        }
    }

    /// This pull fails, and no push.
    pub fn pull(call: u64) -> Failing {
        Failing {
            pull: Some(call),
            push: None,
        }
    }

    /// This push fails, and no pull.
    pub fn push(call: u64) -> Failing {
        Failing {
            pull: None,
            push: Some(call),
        }
    }
}

/// The list of one call, or of none.
fn calls_of(alloc: Global, call: Option<u64>) -> Result<CallList, Fail> {
    let mut calls = CallList::empty(alloc);
    if let Some(call) = call {
        calls.push(call)?;
    }
    Ok(calls)
}

/// A source of these bytes by pulls of so many, of which one may fail.
pub(crate) fn source_of(
    alloc: Global,
    bytes: Bytes,
    step: usize,
    failing: Failing,
) -> Result<MemorySource, Fail>
    requires { 0 < step }
{
    let failing = calls_of(alloc, failing.pull)?;
    Ok(MemorySource::new(bytes, step, failing))
}

/// A sink by pushes of so many bytes, of which one may fail.
pub(crate) fn sink_of(alloc: Global, step: usize, failing: Failing) -> Result<MemorySink, Fail>
    requires { 0 < step }
{
    let failing = calls_of(alloc, failing.push)?;
    Ok(MemorySink::new(alloc, step, failing))
}

/// How the program ends by its words over an input, and what it writes, by pulls and pushes of so many bytes.
pub(crate) fn ran(
    alloc: Global,
    line: &[&str],
    input: Bytes,
    step: usize,
    failing: Failing,
) -> Result<(Status, MemorySink), Fail>
    requires { 0 < step }
{
    let words = words_of(alloc, line)?;
    let mut input = source_of(alloc, input, step, failing)?;
    let mut output = sink_of(alloc, step, failing)?;
    let status = top(alloc, &words, &mut input, &mut output);
    Ok((status, output))
}

/// The trace gives its replies and its status by pulls and pushes of so many bytes.
fn is_as_worked(alloc: Global, row: &Row, step: usize) -> Result<bool, Fail>
    requires { 0 < step }
{
    let trace = bytes_of(alloc, row.trace)?;
    let (status, output) = ran(alloc, &["replay"], trace, step, Failing::nothing())?;
    let replies = bytes_of(alloc, row.replies)?;
    Ok(status == row.status && output.as_slice() == replies.as_slice())
}

fn check_row(alloc: Global, row: &Row, step: usize) -> Result<(), Fail>
    requires { 0 < step }
{
    if is_as_worked(alloc, row, step)? {
        Ok(())
    } else {
        Err(Fail::new(format_args!("{} by {step}", row.name)))
    }
}

fn check_rows(alloc: Global, rows: &[Row], step: usize) -> Result<(), Fail>
    requires { 0 < step }
{
    for row in rows {
        check_row(alloc, row, step)?;
    }
    Ok(())
}

#[test]
fn worked_traces(rt: HostRuntime) -> Result<(), Fail> {
    for step in [1, 7, 4096] {
        check_rows(rt.alloc(), first_path::rows(), step)?;
    }
    Ok(())
}

#[test]
fn worked_traces_of_long_data(rt: HostRuntime) -> Result<(), Fail> {
    for step in [1, 4096, 50_000] {
        check_rows(rt.alloc(), long_data::rows(), step)?;
    }
    Ok(())
}

/// The generated trace of 20 rounds is the worked one.
fn is_generated(alloc: Global) -> Result<bool, Fail> {
    let worked = bytes_of(alloc, generated::trace())?;
    let generated = generate(alloc, 20)?;
    Ok(generated.as_slice() == worked.as_slice())
}

/// The worked trace of 20 rounds has the worked replies.
fn is_replied(alloc: Global) -> Result<bool, Fail> {
    let trace = bytes_of(alloc, generated::trace())?;
    let replies = bytes_of(alloc, generated::replies())?;
    let (status, output) = ran(alloc, &["replay"], trace, 4096, Failing::nothing())?;
    Ok(status == Status::Done && output.as_slice() == replies.as_slice())
}

/// The generated trace of 20 rounds, and the replies to it.
#[test]
fn worked_generated_trace(rt: HostRuntime) -> Result<(), Fail> {
    assert!(rt; is_generated(rt.alloc())?);
    assert!(rt; is_replied(rt.alloc())?);
    Ok(())
}

/// Replays a row, and tells what is counted.
fn replayed(alloc: Global, row: &Row, output: &mut MemorySink) -> Result<Summary, Fail> {
    let trace = bytes_of(alloc, row.trace)?;
    let mut input = source_of(alloc, trace, 4096, Failing::nothing())?;
    Ok(replay(alloc, &mut input, output)?)
}

/// What a replay of a row counts, with the replies that were worked out.
fn counted(alloc: Global, row: &Row) -> Result<Summary, Fail> {
    let mut output = sink_of(alloc, 4096, Failing::nothing())?;
    let sum = replayed(alloc, row, &mut output)?;
    let replies = bytes_of(alloc, row.replies)?;
    if output.as_slice() == replies.as_slice() {
        Ok(sum)
    } else {
        Err(Fail::new("other replies"))
    }
}

/// What a replay counts in a trace with one reply GOOD and one CHECK CONDITION.
#[test]
fn a_replay_counts(rt: HostRuntime) -> Result<(), Fail> {
    let row = named(first_path::rows(), "read at the end, and past it")?;
    let sum = counted(rt.alloc(), row)?;
    assert!(rt; [sum.records, sum.steps, sum.bytes] == [4, 2, 550]);
    assert!(rt; [sum.replies, sum.good, sum.check, sum.busy, sum.full] == [2, 1, 1, 0, 0]);
    Ok(())
}

/// How 'write then read' ends by pulls and pushes of 100 bytes, and how many bytes of its replies were taken.
fn ends_at(alloc: Global, failing: Failing) -> Result<(Status, usize), Fail> {
    let row = named(first_path::rows(), "write then read")?;
    let trace = bytes_of(alloc, row.trace)?;
    let (status, output) = ran(alloc, &["replay"], trace, 100, failing)?;
    let replies = bytes_of(alloc, row.replies)?;
    if replies.as_slice().starts_with(output.as_slice()) {
        Ok((status, output.as_slice().len()))
    } else {
        Err(Fail::new("what was taken is no beginning of the replies"))
    }
}

/// Each pull fails once: what was taken are the replies to what was pulled.
#[test]
fn failing_pulls(rt: HostRuntime) -> Result<(), Fail> {
    for call in 1..14u64 {
        let (status, taken) = ends_at(rt.alloc(), Failing::pull(call))?;
        let wanted = if call < 13 { 0 } else { 1556 };
        assert!(rt; status == Status::ReadFault, "{call}: {status}");
        assert!(rt; taken == wanted, "{call}: {taken}");
    }
    Ok(())
}

/// Each push fails once: what was taken is a beginning of the replies.
#[test]
fn failing_pushes(rt: HostRuntime) -> Result<(), Fail> {
    for call in 1..17u64 {
        let (status, taken) = ends_at(rt.alloc(), Failing::push(call))?;
        assert!(rt; status == Status::WriteFault, "{call}: {status}");
        assert!(rt; taken < 1556, "{call}: {taken}");
    }
    Ok(())
}

/// Whether the program ends so by its words, over a trace that it could read, and writes this text by pushes of 7 bytes.
fn says(
    alloc: Global,
    line: &[&str],
    failing: Failing,
    end: Status,
    text: &str,
) -> Result<bool, Fail> {
    let row = named(first_path::rows(), "write then read")?;
    let trace = bytes_of(alloc, row.trace)?;
    let (status, output) = ran(alloc, line, trace, 7, failing)?;
    Ok(status == end && output.as_slice() == text.as_bytes())
}

fn says_rounds(alloc: Global, rounds: &str, lines: &str) -> Result<bool, Fail> {
    let line = ["gen", rounds];
    says(alloc, &line, Failing::nothing(), Status::Done, lines)
}

/// Generated traces are played, and what they did is told.
#[test]
fn generated_rounds(rt: HostRuntime) -> Result<(), Fail> {
    for (rounds, lines) in words::generated() {
        assert!(rt; says_rounds(rt.alloc(), rounds, lines)?, "{rounds}");
    }
    Ok(())
}

/// The third push of what is told fails: what was taken is a beginning of it.
#[test]
fn generated_rounds_that_are_not_told(rt: HostRuntime) -> Result<(), Fail> {
    let line = ["gen", "1"];
    let end = Status::WriteFault;
    assert!(rt; says(rt.alloc(), &line, Failing::push(3), end, "records 12\nrep")?);
    Ok(())
}

fn is_usage(alloc: Global, line: &[&str]) -> Result<bool, Fail> {
    says(alloc, line, Failing::nothing(), Status::Usage, "")
}

/// Other words are Usage, and nothing is taken.
#[test]
fn other_words(rt: HostRuntime) -> Result<(), Fail> {
    for line in words::other() {
        assert!(rt; is_usage(rt.alloc(), line)?, "{}", line.len());
    }
    Ok(())
}
