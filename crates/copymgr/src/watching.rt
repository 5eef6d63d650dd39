// Who watches a manager while it runs, for those who ask it and for those who read its standard error.
ghost use Rattle.std.specs.Prelude.{false};

use crate::managed::Managing;
use cm_server::Meet;
use nexus::{Hold, Pass};
use recorder::Recorder;
use session::{SessionEnd, SessionFault};
use std::sync::{Mutex, Wait};

/// How sessions ended, counted.
#[derive(Drop, Clone, Copy)]
pub struct EndedCounts {
    pub sessions: u64,
    /// Those that ended with a fault, but for want of memory.
    pub faults: u64,
    /// Those that ended for want of memory.
    pub memory: u64,
    /// Replies that were pushed whole.
    pub commands: u64,
}

impl EndedCounts {
    /// One more has ended.
    fn add(&mut self, end: SessionEnd) {
        self.sessions = self.sessions.saturating_add(1);
        self.commands = self.commands.saturating_add(end.frames);
        match end.fault {
            None => {}
            Some(SessionFault::OutOfMemory) => self.memory = self.memory.saturating_add(1),
            Some(_) => self.faults = self.faults.saturating_add(1),
        }
    }
}

/// The sessions of a manager that have ended.
#[derive(Drop)]
pub struct EndedSessions {
    counts: Mutex<EndedCounts>,
}

impl EndedSessions {
    /// None has.
    pub fn new() -> EndedSessions {
        EndedSessions {
            counts: Mutex::new(EndedCounts {
                sessions: 0,
                faults: 0,
                memory: 0,
                commands: 0,
            }),
        }
    }

    /// One more has ended.
    fn add<W: Wait>(&self, rt: &W, end: SessionEnd) {
        self.counts.lock(rt).add(end);
    }

    /// What is counted of them.
    pub fn counts<W: Wait>(&self, rt: &W) -> EndedCounts {
        *self.counts.lock(rt)
    }
}

/// What is wrong with a connection that ended so.
fn cause(fault: SessionFault) -> &'static str {
    match fault {
        SessionFault::ReadFault => "a read failed",
        SessionFault::WriteFault => "a write failed",
        SessionFault::Torn => "its input ends inside a request",
        SessionFault::BadFrame => "the data of a request is longer than it may be",
        SessionFault::Frames => "it has sent as many requests as a connection may",
        SessionFault::OutOfMemory => "memory was wanted",
        SessionFault::Unsettled => "what it asked last may not be safe",
    }
}

/// Watches a manager: remembers what was counted of its units, and how sessions ended. An end with a fault is a line on
/// standard error.
#[derive(Drop)]
pub struct Watch<'a, W: Wait> {
    rt: &'a W,
    host: &'a HostRuntime,
    managing: &'a Managing,
}

impl<'a, W: Wait> Watch<'a, W> {
    /// Watches for those who share this.
    pub fn new(rt: &'a W, host: &'a HostRuntime, managing: &'a Managing) -> Watch<'a, W> {
        Watch { rt, host, managing }
    }
}

impl<W: Wait> Meet for Watch<'_, W> {
    ghost SAFE = { false };

    fn wait(&self, _session: u32) {}

    fn replies<R: Recorder + Drop>(&self, _session: u32, _pass: &Pass<R>) {}

    fn told(&self, _session: u32) {}

    fn ended(&self, session: u32, end: SessionEnd) {
        if let Some(fault) = end.fault {
            let why = cause(fault);
            let _ = eprintln!(self.host; "copymgr: connection {session} has ended: {why}");
        }
        self.managing.ended.add(self.rt, end);
    }

    fn counts<R: Recorder + Drop>(&self, unit: u16, pass: &Pass<R>, hold: &Hold<R>) {
        self.managing.counts.tell(self.rt, unit, hold.count(pass));
    }

    fn uncounted(&self, unit: u16) {
        self.managing.counts.tell_none(self.rt, unit);
    }
}
