// What is asked of a manager while it runs: requests on standard input, one a line.
use crate::managed::Managing;
use cm_base::{
    Bytes, Clock, OutOfMemory, Sink, Source, StandardInput, StandardOutput, SystemClock, push_all,
};
use cm_server::{push_line, push_unit};
use std::alloc::Global;
use std::net::{SocketAddr, TcpStream};
use std::sync::Wait;
use std::{io, str};
use unit_gate::UnitCount;

/// Bytes of the longest request.
const LONGEST: usize = 16;

/// What is asked in a line.
#[derive(Debug, Drop, Clone, Copy, PartialEq, Eq)]
enum Request {
    /// `report`: the report as it stands.
    Report,
    /// `units`: what is counted of each.
    Units,
    /// `connections`: which are open.
    Connections,
    /// `close N`: the connection of this number is closed.
    Close(u32),
    /// `end`: no more connections are accepted.
    End,
    /// `stop`: the same, and those that are open are closed.
    Stop,
    /// Anything else.
    Unknown,
}

impl Request {
    /// What a line asks, without its end.
    fn of_line(line: &[u8]) -> Request {
        match str::from_utf8(line).unwrap_or("") {
            "report" => Request::Report,
            "units" => Request::Units,
            "connections" => Request::Connections,
            "end" => Request::End,
            "stop" => Request::Stop,
            other => match other
                .strip_prefix("close ")
                .map(|number| number.parse::<u32>())
            {
                Some(Ok(number)) => Request::Close(number),
                _ => Request::Unknown,
            },
        }
    }
}

/// The bytes of a line that was begun, as far as there is room.
#[derive(Drop)]
struct RequestLine {
    line: [u8; LONGEST],
    length: usize,
}

impl RequestLine {
    /// A line that was not begun.
    fn new() -> RequestLine {
        RequestLine {
            line: [0; LONGEST],
            length: 0,
        }
    }

    /// Takes the next byte. At the end of a line: what it asks.
    fn take(&mut self, byte: u8) -> Option<Request> {
        if byte != b'\n' {
            if self.length < LONGEST {
                self.line[self.length] = byte;
            }
            self.length = self.length.saturating_add(1);
            return None;
        }
        let request = if self.length <= LONGEST {
            Request::of_line(&self.line[..self.length])
        } else {
            Request::Unknown
        };
        self.length = 0;
        Some(request)
    }
}

/// What is counted of each unit now, each in a turn of its own. None of those of which nothing is told any more.
fn counted<W: Wait>(
    rt: &W,
    alloc: Global,
    managing: &Managing,
) -> Result<Vec<Option<UnitCount>>, OutOfMemory> {
    managing.counts.want(rt);
    managing.requests.ask_for_counts(rt);
    managing.counts.wait(rt, alloc)
}

/// Adds the lines of the units: how many steps these have in all.
fn push_units(
    alloc: Global,
    text: &mut Bytes,
    counts: &[Option<UnitCount>],
) -> Result<u128, OutOfMemory> {
    let mut total: u128 = 0;
    for (unit, count) in counts.iter().enumerate() {
        if let Some(count) = count {
            push_unit(alloc, text, unit, *count)?;
            total = total.saturating_add(u128::from(count.steps));
        }
    }
    Ok(total)
}

/// The answer to `units`: a line for each.
fn told_units<W: Wait>(rt: &W, alloc: Global, managing: &Managing) -> Result<Bytes, OutOfMemory> {
    let mut text = Bytes::empty(alloc);
    text.extend(b"units\n")?;
    push_units(alloc, &mut text, &counted(rt, alloc, managing)?)?;
    text.extend(b"\n")?;
    Ok(text)
}

/// The answer to `report`: the lines of the report as it stands, of the sessions that have ended, and how many are open.
fn told_report<W: Wait>(rt: &W, alloc: Global, managing: &Managing) -> Result<Bytes, OutOfMemory> {
    let mut text = Bytes::empty(alloc);
    text.extend(b"report\n")?;
    let ended = managing.ended.counts(rt);
    let open = managing.open.told(rt, alloc)?.len();
    push_line(alloc, &mut text, "sessions", u128::from(ended.sessions))?;
    push_line(alloc, &mut text, "faults", u128::from(ended.faults))?;
    push_line(alloc, &mut text, "memory", u128::from(ended.memory))?;
    push_line(alloc, &mut text, "commands", u128::from(ended.commands))?;
    let total = push_units(alloc, &mut text, &counted(rt, alloc, managing)?)?;
    push_line(alloc, &mut text, "total", total)?;
    push_line(alloc, &mut text, "open", open as u128)?;
    text.extend(b"\n")?;
    Ok(text)
}

/// The answer to `connections`: a line for each that is open, with its number and for how many seconds it has been so.
fn told_connections<W: Wait>(
    rt: &W,
    host: &HostRuntime,
    alloc: Global,
    managing: &Managing,
) -> Result<Bytes, OutOfMemory> {
    let open = managing.open.told(rt, alloc)?;
    let now = SystemClock::new(host).now();
    let mut text = Bytes::empty(alloc);
    text.extend(b"connections\n")?;
    for (number, since) in open {
        let seconds = now.saturating_sub(since);
        text.extend(format!(in alloc; "{number} {seconds}\n")?.as_bytes())?;
    }
    text.extend(b"\n")?;
    Ok(text)
}

/// The answer to `close`.
fn told_closing(alloc: Global, number: u32, is_closed: bool) -> Result<Bytes, OutOfMemory> {
    let what = if is_closed { "closed" } else { "none" };
    let text = format!(in alloc; "close {number}\n{what}\n\n")?;
    Bytes::copy(alloc, text.as_bytes())
}

/// The answer to a request that does not end the manager.
fn answer<W: Wait>(
    rt: &W,
    host: &HostRuntime,
    alloc: Global,
    managing: &Managing,
    request: Request,
) -> Result<Bytes, OutOfMemory> {
    match request {
        Request::Report => told_report(rt, alloc, managing),
        Request::Units => told_units(rt, alloc, managing),
        Request::Connections => told_connections(rt, host, alloc, managing),
        Request::Close(number) => { told_closing(alloc, number, managing.open.close(rt, number)) }
        _ => Bytes::copy(alloc, b"unknown\n\n"),
    }
}

/// Asks for the end, and connects to the manager's own address, so that an accept that waits returns.
fn ask_for_the_end<W: Wait>(
    rt: &W,
    host: &HostRuntime,
    managing: &Managing,
    address: Option<SocketAddr>,
) {
    managing.requests.ask_for_end(rt);
    if let Some(address) = address {
        let _ = TcpStream::connect(host, address);
    }
}

/// Reads requests until one asks for the end, or no more can come. What comes on standard input is no end: a manager
/// without requests serves on. Where memory is wanted for an answer, there is none.
pub fn read_requests<W: Wait>(
    rt: &W,
    host: &HostRuntime,
    alloc: Global,
    managing: &Managing,
    address: Option<SocketAddr>,
) {
    let mut input = StandardInput::new(host.reader());
    let mut output = StandardOutput::new(io::writer(host));
    let mut line = RequestLine::new();
    let mut byte = [0; 1];
    for _ in rt.forever() {
        match input.pull(&mut byte) {
            Ok(1) => {}
            _ => return,
        }
        match line.take(byte[0]) {
            None => {}
            Some(Request::End) => return ask_for_the_end(rt, host, managing, address),
            Some(Request::Stop) => {
                ask_for_the_end(rt, host, managing, address);
                return managing.open.close_all(rt);
            }
            Some(request) => {
                if let Ok(text) = answer(rt, host, alloc, managing, request) {
                    let _ = push_all(&mut output, text.as_slice());
                }
            }
        }
    }
}
