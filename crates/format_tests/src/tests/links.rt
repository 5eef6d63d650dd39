// Links and listeners over sockets, and clocks.
use cm_base::{
    Clock, InputBuffer, Link, Listener, ReadFailed, SetClock, Sink, Source, SystemClock,
    TcpConnections, TcpLink, WriteFailed, push_all,
};
use std::alloc::Global;
use std::io::{Read, Write};
use std::net::{Ipv4Addr, Shutdown, SocketAddr};
use std::test::Fail;
use std::time::Duration;
use std::{io, net, time};

/// What a thread is lent of a clock.
fn shared<C: Clock + Sync>(clock: &C) -> u64 {
    clock.now()
}

/// A machine without a clock.
#[derive(Drop)]
struct Timeless;

impl time::Clock for Timeless {
    fn monotonic(&self) -> io::Result<Duration> {
        Err(io::Error::from(io::ErrorKind::Unsupported))
    }

    fn since_1970(&self) -> io::Result<Duration> {
        Err(io::Error::from(io::ErrorKind::Unsupported))
    }
}

#[test]
fn a_clock_shows_whole_seconds(rt: HostRuntime) -> Result<(), Fail> {
    assert_eq!(rt; SetClock::new(7).now(), 7);
    let before = time::Clock::since_1970(&rt)?.as_secs();
    let shown = shared(&SystemClock::new(&rt));
    let after = time::Clock::since_1970(&rt)?.as_secs();
    assert!(rt; before <= shown && shown <= after);
    assert_eq!(rt; SystemClock::new(Timeless).now(), 0);
    Ok(())
}

/// Listens on this machine.
fn listen(rt: &HostRuntime) -> io::Result<net::TcpListener> {
    net::TcpListener::bind(rt, SocketAddr::from((Ipv4Addr::LOCALHOST, 0)))
}

/// Answers one link with what it sends.
fn answer_one<L: Listener>(alloc: Global, listener: &mut L) -> Result<(), Fail> {
    let mut link = listener.accept()?;
    let mut bytes = InputBuffer::new(alloc);
    for _ in 0..u32::MAX {
        if bytes.fill(&mut link)? == 0 {
            break;
        }
    }
    push_all(&mut link, bytes.as_slice())?;
    listener.done(link);
    Ok(())
}

/// A client of a listener.
fn client_of(rt: &HostRuntime, listener: &net::TcpListener) -> io::Result<net::TcpStream> {
    net::TcpStream::connect(rt, listener.local_addr()?)
}

/// Sends these bytes, and ends that side of the stream.
fn send(client: &mut net::TcpStream, bytes: &[u8]) -> io::Result<()> {
    client.write_all(bytes)?;
    client.shutdown(Shutdown::Write)
}

/// Whether these bytes come, and then the end.
fn receives(alloc: Global, client: &mut net::TcpStream, wanted: &[u8]) -> io::Result<bool> {
    let mut bytes = Vec::new(alloc);
    client.read_to_end(&mut bytes)?;
    Ok(bytes.as_slice() == wanted)
}

/// Whether a client is answered with these bytes, which it sent.
fn is_answered(rt: &HostRuntime, bytes: &[u8]) -> Result<bool, Fail> {
    let listener = listen(rt)?;
    let mut client = client_of(rt, &listener)?;
    send(&mut client, bytes)?;
    answer_one(rt.alloc(), &mut TcpConnections::new(listener))?;
    Ok(receives(rt.alloc(), &mut client, bytes)?)
}

#[test]
fn sockets_are_read_and_written(rt: HostRuntime) -> Result<(), Fail> {
    assert!(rt; is_answered(&rt, b"request")?);
    Ok(())
}

/// How a pull of four bytes and a push of four end.
fn ends(link: &mut TcpLink) -> (Result<usize, ReadFailed>, Result<usize, WriteFailed>) {
    let mut bytes = [0; 4];
    (link.pull(&mut bytes), link.push(b"late"))
}

/// Whether a link fails at both sides.
fn has_failed(link: &mut TcpLink) -> bool {
    ends(link) == (Err(ReadFailed), Err(WriteFailed))
}

/// Closes the link of a listener's next client: whether it fails then.
fn close_next(listener: net::TcpListener) -> Result<bool, Fail> {
    let mut link = TcpConnections::new(listener).accept()?;
    link.close();
    Ok(has_failed(&mut link))
}

/// How many bytes a client reads once its connection was closed, and whether the other end fails.
fn closed(rt: &HostRuntime) -> Result<(usize, bool), Fail> {
    let listener = listen(rt)?;
    let mut client = client_of(rt, &listener)?;
    let failed = close_next(listener)?;
    Ok((client.read(&mut [0; 4])?, failed))
}

/// A connection that is closed ends at the other end, and fails at this one.
#[test]
fn a_socket_is_closed(rt: HostRuntime) -> Result<(), Fail> {
    assert_eq!(rt; closed(&rt)?, (0, true));
    Ok(())
}

/// A link of a client that does not wait and was shut down.
fn dumb_link(rt: &HostRuntime, listener: &net::TcpListener) -> Result<TcpLink, Fail> {
    let stream = client_of(rt, listener)?;
    stream.set_nonblocking(true)?;
    stream.shutdown(Shutdown::Write)?;
    Ok(TcpLink::new(stream))
}

/// Whether one client is accepted, and none after it.
fn accepts_one(listener: net::TcpListener) -> bool {
    let mut connections = TcpConnections::new(listener);
    let accepted = connections.accept().is_ok();
    accepted && connections.accept().is_err()
}

/// Whether the link of such a client fails, and an accept after its own.
fn are_failing(rt: &HostRuntime) -> Result<bool, Fail> {
    let listener = listen(rt)?;
    let mut link = dumb_link(rt, &listener)?;
    listener.set_nonblocking(true)?;
    Ok(has_failed(&mut link) && accepts_one(listener))
}

/// A read that would wait fails, and so does a write to a stream that was shut down.
#[test]
fn a_socket_fails(rt: HostRuntime) -> Result<(), Fail> {
    assert!(rt; are_failing(&rt)?);
    Ok(())
}
