// Entries that are recorded.
ghost use Rattle.std.specs.Prelude.{◌≡◌, length, IfOk};
ghost use Rattle.cm_history.specs.declared.act.Entry.{Entry};
ghost use Rattle.cm_history.proofs.PublicLaws.{Each};

use super::*;
use cm_history::{Act, Actor, Entry};
use recorder::{MemoryRecorder, RecordRefused, Recorder};
use std::str;

/// The small unit with a record of 6 entries.
pub(super) const SHORT: &str =
    "434d545241434531000102030405060708090a0b0c0d0e0f101112131415161718191a1b1c1d1e1f0001\
0000000000000064000002000000000600000000000000641000000000000000";

/// 16 recorders, of which the first fails at these calls.
fn recorders(alloc: Global, failing: &[u64]) -> Result<RecorderList<MemoryRecorder>, Fail>
    ensures count { IfOk result (λ list. length list ≡ 16) }
    ensures fits { IfOk result (λ list. Each (λ r. (e : Entry) → ⟦<MemoryRecorder as Recorder>⟧.fits r e) list) }
{
    let mut recorders = RecorderList::empty(alloc);
    for unit in 0..16u32 {
        let failing = match unit {
            0 => CallList::copy(alloc, failing)?,
            _ => none(alloc),
        };
        recorders.push(MemoryRecorder::new(alloc, failing))?;
    }
    Ok(recorders)
}

/// Serves twenty READs of one link, with recorders of which the first fails at these calls.
fn twenty_reads<W: Threads + Wait + Sync>(
    rt: &W,
    alloc: Global,
    failing: &[u64],
    output: &mut MemorySink,
) -> Result<Served<MemoryRecorder>, Fail> {
    let mut requests = Bytes::empty(alloc);
    for _ in 0..20 {
        requests.extend(bytes_of(alloc, &READ)?.as_slice())?;
    }
    let mut listener = one_link(alloc, requests)?;
    let words = words_of(alloc, "serve A 1 F")?;
    let config = bytes_of(alloc, &[SHORT])?;
    let recorders = recorders(alloc, failing)?;
    let clock = SetClock::new(0);
    Ok(serve_with(
        rt,
        alloc,
        &words,
        config.as_slice(),
        &mut listener,
        clock,
        output,
        recorders,
    ))
}

/// Whether the recorded entries are those of the first nexus, and last that of a pump, numbered and stamped in order.
fn are_in_order(recorder: &MemoryRecorder) -> bool {
    let entries = recorder.entries();
    for index in 0..entries.len() {
        let entry = &entries[index];
        let place = index as u64;
        let is_next = match entry.actor {
            Actor::Nexus(number) => number == 0 && entry.seq == place,
            Actor::Pump(unit) => unit == 0 && entry.seq == 0 && index + 1 == entries.len(),
        };
        if !is_next || entry.stamp != place + 1 {
            return false;
        }
    }
    true
}

/// The number behind a name in a report.
fn told(output: &MemorySink, name: &str) -> Result<usize, Fail> {
    let text = str::from_utf8(output.as_slice())?;
    let rest = text.split_once(name).map_or("", |parts| parts.1);
    Ok(rest.split_whitespace().next().unwrap_or("").parse()?)
}

/// All entries are recorded: those of the READs, and that of the last pump.
#[test]
fn a_full_record_is_recorded(rt: HostRuntime) -> Result<(), Fail> {
    let mut output = output(rt.alloc());
    let served = twenty_reads(&rt, rt.alloc(), &[], &mut output)?;
    let report =
        "sessions 1\nfaults 0\nmemory 0\ncommands 20\nunit 0 steps 21 live 0 mapped 0\ntotal 21\nkept 0\n";
    assert_eq!(rt; served.status, Status::Done);
    assert_eq!(rt; output.as_slice(), report.as_bytes());
    assert_eq!(rt; served.recorders.len(), 16);
    assert_eq!(rt; served.recorders.at(0).entries().len(), 21);
    assert!(rt; are_in_order(served.recorders.at(0)));
    assert_eq!(rt; served.recorders.at(1).entries().len(), 0);
    Ok(())
}

/// One READ finds the record full, and the last entry is not recorded.
#[test]
fn a_recorder_fails(rt: HostRuntime) -> Result<(), Fail> {
    let mut output = output(rt.alloc());
    let served = twenty_reads(&rt, rt.alloc(), &[1, 21], &mut output)?;
    let report =
        "sessions 1\nfaults 0\nmemory 0\ncommands 20\nunit 0 steps 20 live 0 mapped 0\ntotal 20\nkept 1\n";
    assert_eq!(rt; served.status, Status::Done);
    assert_eq!(rt; output.as_slice(), report.as_bytes());
    assert_eq!(rt; served.recorders.len(), 16);
    assert_eq!(rt; served.recorders.at(0).entries().len(), 19);
    Ok(())
}

/// Each call of a recorder fails once: the first entries are recorded, and the report tells how many were not.
#[test]
fn each_record_fails_once(rt: HostRuntime) -> Result<(), Fail> {
    for call in 1..=22 {
        let mut output = output(rt.alloc());
        let served = twenty_reads(&rt, rt.alloc(), &[call], &mut output)?;
        assert_eq!(rt; served.recorders.len(), 16);
        let recorded = served.recorders.at(0).entries().len();
        let kept = told(&output, "kept ")?;
        assert!(rt; served.status == Status::Done, "{call}");
        let steps = told(&output, "steps ")?;
        assert!(rt; recorded.checked_add(kept) == Some(steps), "{call}");
        assert!(rt; are_in_order(served.recorders.at(0)), "{call}");
    }
    Ok(())
}

/// A recorder that has recorded one entry, of this stamp.
fn marked(alloc: Global, stamp: u64) -> Result<MemoryRecorder, Fail> {
    let entry = Entry {
        stamp,
        unit: 0,
        actor: Actor::Pump(0),
        seq: 0,
        moment: 0,
        act: Act::Pump,
    };
    let mut recorder = MemoryRecorder::new(alloc, none(alloc));
    match recorder.record(&entry) {
        Ok(()) => Ok(recorder),
        Err(_) => Err("it was not recorded".into()),
    }
}

/// 16 recorders, of which each has recorded one entry, of the stamp that is its place.
fn marked_recorders(alloc: Global) -> Result<RecorderList<MemoryRecorder>, Fail>
    ensures count { IfOk result (λ list. length list ≡ 16) }
    ensures fits { IfOk result (λ list. Each (λ r. (e : Entry) → ⟦<MemoryRecorder as Recorder>⟧.fits r e) list) }
{
    let mut recorders = RecorderList::empty(alloc);
    for unit in 0..16u64 {
        recorders.push(marked(alloc, unit)?)?;
    }
    Ok(recorders)
}

/// Whether each recorder still has that entry alone.
fn are_marked(recorders: &RecorderList<MemoryRecorder>) -> bool {
    for unit in 0..recorders.len() {
        match recorders.at(unit).entries() {
            [entry] if entry.stamp == unit as u64 => {}
            _ => return false,
        }
    }
    true
}

/// The recorders come back in their order where nothing was served.
#[test]
fn recorders_come_back(rt: HostRuntime) -> Result<(), Fail> {
    let alloc = rt.alloc();
    for line in ["serve A 1", "serve A 1 -F", "serve A 1 ", "serve A 1 F G"] {
        let mut listener = TestListener::new(alloc);
        let words = words_of(alloc, line)?;
        let config = bytes_of(alloc, &[SHORT])?;
        let recorders = marked_recorders(alloc)?;
        let clock = SetClock::new(0);
        let served = serve_with(
            &rt,
            alloc,
            &words,
            config.as_slice(),
            &mut listener,
            clock,
            &mut output(alloc),
            recorders,
        );
        assert!(rt; served.status == Status::Usage, "{line}");
        assert_eq!(rt; served.recorders.len(), 16);
        assert!(rt; are_marked(&served.recorders), "{line}");
    }
    Ok(())
}

/// A recorder for which memory is always wanted.
#[derive(Drop)]
struct WantingRecorder {
    place: u32,
}

impl Recorder for WantingRecorder {
    ghost use Rattle.std.specs.Prelude.{None, false};

    const EAGER: bool = false;

    ghost EAGER = { false };

    ghost recorded = { λ _. None };

    ghost record_faults = { λ _. 0 };

    ghost absent = { λ _. false };

    ghost fits = { λ _ _. Unit {0} };

    fn record(&mut self, _entry: &Entry) -> Result<(), RecordRefused> {
        Err(RecordRefused::OutOfMemory)
    }
}

/// 16 of them, in their places.
fn wanting_recorders(alloc: Global) -> Result<RecorderList<WantingRecorder>, Fail>
    ensures count { IfOk result (λ list. length list ≡ 16) }
    ensures fits { IfOk result (λ list. Each (λ r. (e : Entry) → ⟦<WantingRecorder as Recorder>⟧.fits r e) list) }
{
    let mut recorders = RecorderList::empty(alloc);
    for place in 0..16u32 {
        recorders.push(WantingRecorder { place })?;
    }
    Ok(recorders)
}

/// Whether each stands in its place.
fn are_in_place(recorders: &RecorderList<WantingRecorder>) -> bool {
    for index in 0..recorders.len() {
        if recorders.at(index).place as usize != index {
            return false;
        }
    }
    true
}

/// Memory is wanted when what is left is recorded: nothing is told, and the recorders come back in their order.
#[test]
fn recorders_come_back_without_memory(rt: HostRuntime) -> Result<(), Fail> {
    let alloc = rt.alloc();
    let mut listener = one_link(alloc, bytes_of(alloc, &READ)?)?;
    let mut output = output(alloc);
    let words = words_of(alloc, "serve A 1 F")?;
    let config = bytes_of(alloc, &[SHORT])?;
    let recorders = wanting_recorders(alloc)?;
    let served = serve_with(
        &rt,
        alloc,
        &words,
        config.as_slice(),
        &mut listener,
        SetClock::new(0),
        &mut output,
        recorders,
    );
    assert_eq!(rt; served.status, Status::OutOfMemory);
    assert!(rt; output.as_slice().is_empty());
    assert_eq!(rt; served.recorders.len(), 16);
    assert!(rt; are_in_place(&served.recorders));
    Ok(())
}
