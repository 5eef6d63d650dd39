ghost use Rattle.std.specs.Prelude.{◌≡◌, None, refl};

use crate::link::Link;
use crate::listener::{AcceptFailed, Listener};
use crate::sink::{Sink, WriteFailed};
use crate::source::{ReadFailed, Source};
use std::io::{Read, Write};
use std::net::{Shutdown, TcpListener, TcpStream};

/// A connection over a TCP stream. It tells nothing of the bytes to come, and of those that it took.
#[derive(Drop)]
pub struct TcpLink {
    /// None once the connection was ended: a pull or push fails then.
    stream: Option<TcpStream>,
    read_faults: u64,
    write_faults: u64,
}

impl TcpLink {
    /// The connection of this stream, with no fault so far. It takes no memory.
    pub fn new(stream: TcpStream) -> TcpLink
        ensures left { ⟦<TcpLink as Source>⟧.left result ≡ None }
        ensures taken { ⟦<TcpLink as Sink>⟧.taken result ≡ None }
        ensures reads { ⟦<TcpLink as Source>⟧.read_faults result ≡ 0 }
        ensures writes { ⟦<TcpLink as Sink>⟧.write_faults result ≡ 0 }
    {
        TcpLink {
            stream: Some(stream),
            read_faults: 0,
            write_faults: 0,
        }
    }
}

impl TcpLink {
    /// What another thread can close this connection by. `None` where it was closed before, or the system has no more
    /// handles.
    pub fn closer(&self) -> Option<TcpCloser> {
        let stream = self.stream.as_ref()?.try_clone().ok()?;
        Some(TcpCloser { stream })
    }
}

/// A handle of a connection, by which it can be closed while others pull and push.
#[derive(Drop)]
pub struct TcpCloser {
    stream: TcpStream,
}

impl TcpCloser {
    /// Ends both directions: a pull that waits comes to the end of the bytes, and pushes fail.
    pub fn close(&self) {
        self.stream.shutdown(Shutdown::Both).ok();
    }
}

impl Source for TcpLink {
    ghost left = { λ _. None };

    ghost read_faults = { λ k. k.read_faults };

    ghost unpulled = { λ k. record { bytes = None; faults = k.write_faults } };

    fn pull(&mut self, into: &mut [u8]) -> Result<usize, ReadFailed> {
        if let Some(stream) = &mut self.stream {
            if let Ok(count) = stream.read(into) {
                return Ok(count);
            }
        }
        self.read_faults = self.read_faults.saturating_add(1);
        Err(ReadFailed)
    }
}

impl Sink for TcpLink {
    ghost taken = { λ _. None };

    ghost write_faults = { λ k. k.write_faults };

    ghost unpushed = { λ k. record { bytes = None; faults = k.read_faults } };

    /// A stream that takes none of some bytes has failed.
    fn push(&mut self, from: &[u8]) -> Result<usize, WriteFailed> {
        if let Some(stream) = &mut self.stream {
            match stream.write(from) {
                Ok(count) if count > 0 || from.is_empty() => return Ok(count),
                _ => {}
            }
        }
        self.write_faults = self.write_faults.saturating_add(1);
        Err(WriteFailed)
    }
}

impl Link for TcpLink {
    ghost pulls_apart = { λ k. refl };

    ghost pushes_apart = { λ k. refl };

    /// Ends both directions and closes the socket.
    fn close(&mut self) {
        if let Some(stream) = self.stream.take() {
            stream.shutdown(Shutdown::Both).ok();
        }
    }
}

/// The connections that come to a TCP listener. It tells nothing of them.
#[derive(Drop)]
pub struct TcpConnections {
    listener: TcpListener,
    faults: u64,
}

impl TcpConnections {
    /// The connections that come to this listener, with no fault so far. It takes no memory.
    pub fn new(listener: TcpListener) -> TcpConnections
        ensures coming { ⟦<TcpConnections as Listener>⟧.coming result ≡ None }
        ensures ended { ⟦<TcpConnections as Listener>⟧.ended result ≡ None }
        ensures faults { ⟦<TcpConnections as Listener>⟧.accept_faults result ≡ 0 }
    {
        TcpConnections {
            listener,
            faults: 0,
        }
    }
}

impl Listener for TcpConnections {
    type Conn = TcpLink;

    ghost coming = { λ _. None };

    ghost out = { λ _. None };

    ghost ended = { λ _. None };

    ghost accept_faults = { λ l. l.faults };

    fn accept(&mut self) -> Result<TcpLink, AcceptFailed> {
        match self.listener.accept() {
            Ok((stream, _)) => {
                // A reply is pushed whole and waits for no other; a stream that refuses is only slower.
                stream.set_nodelay(true).ok();
                Ok(TcpLink::new(stream))
            }
            Err(_) => {
                self.faults = self.faults.saturating_add(1);
                Err(AcceptFailed)
            }
        }
    }

    /// Ends the connection, where it was not ended before.
    fn done(&mut self, mut link: TcpLink) {
        link.close();
    }

    ghost told_together = { λ l. refl };
}
