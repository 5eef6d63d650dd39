// The connections of a manager, as its listener hands them out.
ghost use Rattle.std.specs.Prelude.{◌≡◌, None, refl, IfOk};

use crate::announced::Announced;
use crate::open_links::{OpenLink, OpenLinks};
use crate::unit_counts::UnitCounts;
use crate::watching::EndedSessions;
use cm_base::{
    AcceptFailed, Clock, Link, Listener, ReadFailed, Sink, Source, SystemClock, TcpLink,
    WriteFailed,
};
use cm_server::Requests;
use std::sync::Wait;

/// What the threads of a manager share.
#[derive(Drop)]
pub struct Managing {
    pub requests: Requests,
    pub open: OpenLinks,
    pub ended: EndedSessions,
    pub counts: UnitCounts,
}

/// A connection of a manager, which is among those that are open until it is closed.
#[derive(Drop)]
pub struct ManagedLink<'a, W: Wait> {
    rt: &'a W,
    managing: &'a Managing,
    number: u32,
    link: TcpLink,
}

impl<W: Wait> Source for ManagedLink<'_, W> {
    ghost left = { λ _. None };

    ghost read_faults = { λ l. ⟦<TcpLink as Source>⟧.read_faults l.link };

    ghost unpulled = { λ l. ⟦<TcpLink as Source>⟧.unpulled l.link };

    fn pull(&mut self, into: &mut [u8]) -> Result<usize, ReadFailed> {
        self.link.pull(into)
    }
}

impl<W: Wait> Sink for ManagedLink<'_, W> {
    ghost taken = { λ _. None };

    ghost write_faults = { λ l. ⟦<TcpLink as Sink>⟧.write_faults l.link };

    ghost unpushed = { λ l. ⟦<TcpLink as Sink>⟧.unpushed l.link };

    fn push(&mut self, from: &[u8]) -> Result<usize, WriteFailed> {
        self.link.push(from)
    }
}

impl<W: Wait> Link for ManagedLink<'_, W> {
    ghost pulls_apart = { λ l. refl };

    ghost pushes_apart = { λ l. refl };

    fn close(&mut self) {
        self.managing.open.remove(self.rt, self.number);
        self.link.close();
    }
}

/// The connections of a manager: none is handed out once its end was asked for. Where none can be accepted, it waits
/// for what one that is open gives back at its end.
#[derive(Drop)]
pub struct Managed<'a, W: Wait> {
    rt: &'a W,
    host: &'a HostRuntime,
    managing: &'a Managing,
    connections: Announced<'a>,
    /// How many were handed out, which is the number of the next nexus.
    came: u32,
    faults: u64,
}

impl<'a, W: Wait> Managed<'a, W> {
    /// The connections that come to this listener, none of which was handed out.
    pub fn new(
        rt: &'a W,
        host: &'a HostRuntime,
        managing: &'a Managing,
        connections: Announced<'a>,
    ) -> Managed<'a, W> {
        Managed {
            rt,
            host,
            managing,
            connections,
            came: 0,
            faults: 0,
        }
    }

    /// Waits until one more session has ended than so many, where one is open and no end is asked for: whether it waited.
    fn waits(&self, ended: u64) -> bool {
        let requests = &self.managing.requests;
        if ended >= u64::from(self.came) || requests.is_end_asked(self.rt) {
            return false;
        }
        let _ = eprintln!(self.host;
            "copymgr: no connection can be accepted until one that is open has ended"
        );
        requests.wait_for_another(self.rt, ended);
        true
    }

    /// The next connection that comes.
    fn next(&mut self) -> Result<TcpLink, AcceptFailed>
        ensures faults { self.new.faults ≡ self.old.faults }
        ensures unfailed { IfOk result (λ link. (⟦<TcpLink as Source>⟧.read_faults link ≡ 0) × (⟦<TcpLink as Sink>⟧.write_faults link ≡ 0)) }
    {
        let rt = self.rt;
        for _ in rt.forever() {
            let ended = self.managing.requests.ended(rt);
            if let Ok(link) = self.connections.accept() {
                return Ok(link);
            }
            if !self.waits(ended) {
                return Err(AcceptFailed);
            }
        }
        unreachable!()
    }

    /// Says how many have come, once in a hundred million: their numbers end.
    fn note_count(&self) {
        let came = self.came;
        if came != 0 && came % 100_000_000 == 0 {
            let _ = eprintln!(self.host; "copymgr: {came} connections have come, of 4294967038");
        }
    }

    /// Hands out a connection, which is open from now on.
    fn hand_out(&mut self, link: TcpLink) -> ManagedLink<'a, W>
        ensures faults { self.new.faults ≡ self.old.faults }
        ensures same { result.link ≡ link }
    {
        let number = self.came;
        self.came = self.came.saturating_add(1);
        self.note_count();
        let opened = OpenLink {
            number,
            since: SystemClock::new(self.host).now(),
            closer: link.closer(),
        };
        self.managing.open.add(self.rt, opened);
        ManagedLink {
            rt: self.rt,
            managing: self.managing,
            number,
            link,
        }
    }
}

impl<'a, W: Wait + Sync> Listener for Managed<'a, W> {
    type Conn = ManagedLink<'a, W>;

    ghost coming = { λ _. None };

    ghost out = { λ _. None };

    ghost ended = { λ _. None };

    ghost accept_faults = { λ l. l.faults };

    fn accept(&mut self) -> Result<ManagedLink<'a, W>, AcceptFailed> {
        match self.next() {
            Ok(link) if self.managing.requests.is_end_asked(self.rt) => {
                self.connections.done(link);
                self.faults = self.faults.saturating_add(1);
                Err(AcceptFailed)
            }
            Ok(link) => Ok(self.hand_out(link)),
            Err(AcceptFailed) => {
                self.faults = self.faults.saturating_add(1);
                Err(AcceptFailed)
            }
        }
    }

    fn done(&mut self, mut link: ManagedLink<'a, W>) {
        link.close();
    }

    ghost told_together = { λ l. refl };
}
