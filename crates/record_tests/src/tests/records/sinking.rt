// A recorder over a sink that fails once.
ghost use Rattle.std.specs.Prelude.{◌≤◌, IfOk, OnOk};
ghost use Rattle.std.specs.Io.KnownBytes.{IsAtEnd};
ghost use Rattle.cm_base.specs.Sides.{no_side};
ghost use Rattle.cm_history.specs.declared.act.Entry.{Entry};
ghost use Rattle.recorder.specs.Text.{HasShortLists};

use super::acts::{act, add_long_put, add_text, long_blocks};
use super::entries::{NEXUS, add_head, entry};
use cm_base::{Bytes, CallList, MemorySink, Sink, WriteFailed};
use cm_history::{Act, Actor, Entry};
use recorder::{RecordRefused, Recorder, SinkRecorder};
use std::alloc::Global;
use std::test::Fail;

/// A sink in memory, which tells its faults.
#[derive(Drop)]
struct ToldSink {
    sink: MemorySink,
    faults: u64,
}

impl ToldSink {
    /// It takes at most 20 bytes at a time, and fails at the push of this number, from 1.
    fn new(alloc: Global, failing: u64) -> Result<ToldSink, Fail>
        ensures { IfOk result (λ s. IsAtEnd (⟦<ToldSink as Sink>⟧.taken s)) }
    {
        let failing = CallList::copy(alloc, &[failing])?;
        Ok(ToldSink {
            sink: MemorySink::new(alloc, 20, failing),
            faults: 0,
        })
    }
}

impl Sink for ToldSink {
    ghost taken = { λ s. ⟦<MemorySink as Sink>⟧.taken s.sink };

    ghost write_faults = { λ s. s.faults };

    ghost unpushed = { λ _. no_side };

    fn push(&mut self, from: &[u8]) -> Result<usize, WriteFailed> {
        let pushed = self.sink.push(from);
        if pushed.is_err() {
            self.faults = self.faults.saturating_add(1);
        }
        pushed
    }
}

/// How many entries are recorded: of a Read, of a Put of long blocks, and of a Close.
const ENTRIES: usize = 3;

/// Pushes of 20 bytes at most that their texts take: 3 of the Read, 3, 231 and 26 of the Put and its two runs, and 2
/// of the Close.
const PUSHES: u64 = 265;

/// The texts of the first of these entries, one behind the other.
fn texts(alloc: Global, count: usize) -> Result<Bytes, Fail> {
    let mut texts = Bytes::empty(alloc);
    for place in 0..count {
        add_head(&mut texts, &NEXUS)?;
        match place {
            0 => add_text(&mut texts, 1)?,
            1 => add_long_put(&mut texts)?,
            _ => add_text(&mut texts, 17)?,
        }
    }
    Ok(texts)
}

/// The entry at a place.
fn entry_at(alloc: Global, place: usize) -> Result<Entry, Fail>
    ensures { IfOk result (λ e. HasShortLists e.act) }
{
    let act = match place {
        0 => act(alloc, 1)?,
        1 => Act::Put {
            lba: 7,
            list: long_blocks(alloc)?,
        },
        _ => act(alloc, 17)?,
    };
    Ok(entry(Actor::Nexus(0xd1d2_d3d4), act))
}

/// Records an entry, again where the sink fails.
fn record(recorder: &mut SinkRecorder<ToldSink>, entry: &Entry) -> Result<(), Fail>
    requires fits { ⟦<SinkRecorder<ToldSink> as Recorder>⟧.fits recorder.old entry.now }
    requires short { HasShortLists entry.now.act }
    ensures { OnOk result ((e : Entry) → ⟦<SinkRecorder<ToldSink> as Recorder>⟧.fits recorder.new e) }
{
    if recorder.record(entry).is_ok() {
        return Ok(());
    }
    match recorder.record(entry) {
        Ok(()) => Ok(()),
        Err(_) => Err(Fail::new("an entry was refused twice")),
    }
}

/// Records all entries, in spite of a failure.
fn record_all(alloc: Global, recorder: &mut SinkRecorder<ToldSink>) -> Result<(), Fail>
    requires { (e : Entry) → ⟦<SinkRecorder<ToldSink> as Recorder>⟧.fits recorder.old e }
{
    for place in 0..ENTRIES {
        let entry = entry_at(alloc, place)?;
        record(recorder, &entry)?;
    }
    Ok(())
}

/// Records the entries before the first failure, and tells how many.
fn record_some(alloc: Global, recorder: &mut SinkRecorder<ToldSink>) -> Result<usize, Fail>
    requires { (e : Entry) → ⟦<SinkRecorder<ToldSink> as Recorder>⟧.fits recorder.old e }
    ensures { IfOk result (λ count. count ≤ 3) }
{
    for place in 0..ENTRIES {
        let entry = entry_at(alloc, place)?;
        match recorder.record(&entry) {
            Ok(()) => {}
            Err(RecordRefused::Failed) => return Ok(place),
            Err(_) => return Err(Fail::new("no memory")),
        }
    }
    Ok(ENTRIES)
}

/// A sink has the texts of the first entries, so many, and a part of one more.
fn has_a_part(alloc: Global, sink: &MemorySink, count: usize) -> Result<bool, Fail>
    requires { count ≤ 3 }
{
    let taken = sink.as_slice();
    let whole = texts(alloc, count)?;
    let next = texts(alloc, count + 1)?;
    let begins = taken.starts_with(whole.as_slice()) && next.as_slice().starts_with(taken);
    Ok(begins && taken.len() < next.len())
}

/// Where a push fails, the sink has the texts of the entries before, and a part of one more.
#[test]
fn a_push_fails(rt: HostRuntime) -> Result<(), Fail> {
    let alloc = rt.alloc();
    for failing in 1..=PUSHES {
        let mut recorder = SinkRecorder::new(alloc, ToldSink::new(alloc, failing)?);
        let count = record_some(alloc, &mut recorder)?;
        let told = recorder.into_sink();
        assert_eq!(rt; told.faults, 1, "push {failing}");
        assert!(rt; has_a_part(alloc, &told.sink, count)?, "push {failing}");
    }
    Ok(())
}

/// A sink has the texts of all entries.
fn has_all(alloc: Global, sink: &MemorySink) -> Result<bool, Fail> {
    let all = texts(alloc, ENTRIES)?;
    Ok(sink.as_slice() == all.as_slice())
}

/// Each entry is in the sink once and whole, though a push failed.
#[test]
fn records_go_on_after_a_failed_push(rt: HostRuntime) -> Result<(), Fail> {
    let alloc = rt.alloc();
    for failing in 1..=PUSHES + 1 {
        let mut recorder = SinkRecorder::new(alloc, ToldSink::new(alloc, failing)?);
        record_all(alloc, &mut recorder)?;
        let told = recorder.into_sink();
        assert_eq!(rt; told.faults, u64::from(failing <= PUSHES), "push {failing}");
        assert!(rt; has_all(alloc, &told.sink)?, "push {failing}");
    }
    Ok(())
}
