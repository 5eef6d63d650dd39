// What the program says before it serves, and when.
ghost use Rattle.std.specs.Prelude.{◌≡◌, None, refl};

use cm_base::{AcceptFailed, Listener, TcpConnections, TcpLink};
use std::io;
use std::net::{SocketAddr, TcpListener};

/// Lines for standard error, without their ends.
pub type Notes = Vec<String>;

/// The connections that come to a TCP listener. Before the first of them is awaited, when all that serving wants is
/// ready, the program says on standard error what is to be known of it, and where it listens.
#[derive(Drop)]
pub struct Announced<'a> {
    host: &'a HostRuntime,
    connections: TcpConnections,
    /// Both are None once they were said.
    notes: Option<Notes>,
    address: Option<SocketAddr>,
}

impl<'a> Announced<'a> {
    /// The connections that come to this listener. Its address is said where the system picked the port.
    pub fn new(host: &'a HostRuntime, listener: TcpListener, is_picked: bool) -> Announced<'a> {
        let address = if is_picked {
            listener.local_addr().ok()
        } else {
            None
        };
        Announced {
            host,
            connections: TcpConnections::new(listener),
            notes: None,
            address,
        }
    }

    /// Has these lines said before the address.
    pub fn note(&mut self, notes: Notes) {
        self.notes = Some(notes);
    }

    /// Says what was not said yet, each line in one write.
    fn say(&mut self)
        ensures { self.new.connections ≡ self.old.connections }
    {
        if let Some(notes) = self.notes.take() {
            for note in notes.iter() {
                let _ = eprintln!(self.host; "copymgr: {note}");
            }
        }
        if let Some(address) = self.address.take() {
            let _ = eprintln!(self.host; "copymgr: serving at {address}");
        }
    }
}

impl Listener for Announced<'_> {
    type Conn = TcpLink;

    ghost coming = { λ _. None };

    ghost out = { λ _. None };

    ghost ended = { λ _. None };

    ghost accept_faults = { λ l. ⟦<TcpConnections as Listener>⟧.accept_faults l.connections };

    fn accept(&mut self) -> Result<TcpLink, AcceptFailed> {
        self.say();
        self.connections.accept()
    }

    /// Ends the connection, where it was not ended before.
    fn done(&mut self, link: TcpLink) {
        self.connections.done(link);
    }

    ghost told_together = { λ l. refl };
}
