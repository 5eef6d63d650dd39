// Connections one after the other, over units that forget.
ghost use Rattle.std.specs.Prelude.{false};

use super::recorded::SHORT;
use super::*;
use cm_server::{NoMeet, Requests, manage};
use std::sync::atomic::{AtomicU64, Ordering};

/// Manages what comes to a listener over the unit with a short record, at moment 0.
fn managed<G: Meet + Sync, W: Threads + Wait + Sync>(
    rt: &W,
    alloc: Global,
    line: &str,
    listener: &mut TestListener,
    output: &mut MemorySink,
    requests: &Requests,
    meet: &G,
) -> Result<Status, Fail> {
    let words = words_of(alloc, line)?;
    let config = bytes_of(alloc, &[SHORT])?;
    let clock = SetClock::new(0);
    Ok(manage(
        rt,
        alloc,
        &words,
        config.as_slice(),
        listener,
        clock,
        output,
        requests,
        meet,
    ))
}

/// More links come than there are places, and then an accept fails. The record is never full, since no entry is kept.
#[test]
fn more_links_than_places(rt: HostRuntime) -> Result<(), Fail> {
    let alloc = rt.alloc();
    let mut listener = TestListener::new(alloc);
    for _ in 0..300 {
        listener.add(both(alloc)?, none(alloc))?;
    }
    let mut output = output(alloc);
    let status = managed(
        &rt,
        alloc,
        "manage A F",
        &mut listener,
        &mut output,
        &Requests::new(),
        &NoMeet,
    )?;
    let report =
        "sessions 300\nfaults 0\nmemory 0\ncommands 600\nunit 0 steps 601 live 0 mapped 2\ntotal 601\n";
    assert_eq!(rt; status, Status::AcceptFault);
    assert_eq!(rt; output.as_slice(), report.as_bytes());
    Ok(())
}

/// It was asked to end before the first link came. Other words are not its own.
#[test]
fn an_end_that_is_asked_for(rt: HostRuntime) -> Result<(), Fail> {
    let alloc = rt.alloc();
    let mut listener = one_link(alloc, both(alloc)?)?;
    let requests = Requests::new();
    requests.ask_for_end(&rt);
    assert!(rt; requests.is_end_asked(&rt));
    for (line, status) in [("manage A F", Status::Done), ("manage A -F", Status::Usage)] {
        let mut output = output(alloc);
        assert!(rt;
            managed(
                &rt,
                alloc,
                line,
                &mut listener,
                &mut output,
                &requests,
                &NoMeet
            )? == status,
            "{line}"
        );
        assert_eq!(rt; output.as_slice().is_empty(), status == Status::Usage);
    }
    Ok(())
}

/// How often a unit was counted, how often it was said that it is counted no more, and what sessions had.
#[derive(Drop)]
struct Counted {
    counts: AtomicU64,
    steps: AtomicU64,
    ends: AtomicU64,
    sessions: AtomicU64,
    commands: AtomicU64,
}

impl Counted {
    fn new() -> Counted {
        Counted {
            counts: AtomicU64::new(0),
            steps: AtomicU64::new(0),
            ends: AtomicU64::new(0),
            sessions: AtomicU64::new(0),
            commands: AtomicU64::new(0),
        }
    }
}

impl Meet for Counted {
    ghost SAFE = { false };

    fn wait(&self, _session: u32) {}

    fn replies<R: Recorder + Drop>(&self, _session: u32, _pass: &Pass<R>) {}

    fn told(&self, _session: u32) {}

    fn ended(&self, _session: u32, end: SessionEnd) {
        self.sessions.fetch_add(1, Ordering::SeqCst);
        self.commands.fetch_add(end.frames, Ordering::SeqCst);
    }

    fn counts<R: Recorder + Drop>(&self, _unit: u16, pass: &Pass<R>, hold: &Hold<R>) {
        self.counts.fetch_add(1, Ordering::SeqCst);
        self.steps.store(hold.count(pass).steps, Ordering::SeqCst);
    }

    fn uncounted(&self, _unit: u16) {
        self.ends.fetch_add(1, Ordering::SeqCst);
    }
}

/// The unit is counted once where that was asked once, also before it was served, and that makes no step of its own.
#[test]
fn units_are_counted_when_that_is_asked(rt: HostRuntime) -> Result<(), Fail> {
    let alloc = rt.alloc();
    let mut listener = one_link(alloc, both(alloc)?)?;
    let mut output = output(alloc);
    let requests = Requests::new();
    requests.ask_for_counts(&rt);
    let meet = Counted::new();
    managed(
        &rt,
        alloc,
        "manage A F",
        &mut listener,
        &mut output,
        &requests,
        &meet,
    )?;
    let report =
        "sessions 1\nfaults 0\nmemory 0\ncommands 2\nunit 0 steps 3 live 0 mapped 2\ntotal 3\n";
    assert_eq!(rt; output.as_slice(), report.as_bytes());
    assert_eq!(rt; meet.counts.load(Ordering::SeqCst), 1);
    assert!(rt; meet.steps.load(Ordering::SeqCst) <= 2);
    assert_eq!(rt; meet.ends.load(Ordering::SeqCst), 1);
    assert_eq!(rt; meet.sessions.load(Ordering::SeqCst), 1);
    assert_eq!(rt; meet.commands.load(Ordering::SeqCst), 2);
    Ok(())
}
