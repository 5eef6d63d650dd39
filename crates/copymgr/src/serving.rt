// The word `serve`: what it reads, where it listens, and where it records. The word `store` begins as it does.
ghost use Rattle.std.specs.Prelude.{◌≤◌, length, IfOk, IfSome};

use crate::announced::Announced;
use crate::ending::Ending;
use crate::folder_notes::folder_notes;
use crate::report_output::ReportOutput;
use crate::status::Status;
use crate::unit_files::unit_files;
use cm_base::{Parsed, Source, StandardInput, StandardOutput, SystemClock, Word};
use cm_frame::read_header;
use cm_server::{serve, serve_with};
use std::alloc::Global;
use std::io::{self, Input};
use std::net::{SocketAddr, TcpListener};
use std::str;
use std::sync::Wait;
use std::thread::Threads;

/// Bytes that are read of a configuration: one more than the longest has.
pub const CONFIGURATION: usize = 555;

/// Whether the words are `serve` and two or three more.
pub fn are_serving(words: &[Word]) -> bool {
    match words {
        [word, _, _] | [word, _, _, _] => word.as_slice() == b"serve".as_slice(),
        _ => false,
    }
}

/// The text of a word.
pub fn text(word: &Word) -> &str {
    str::from_utf8(word.as_slice()).unwrap_or("")
}

/// Reads until the input ends or the room is full, and tells how many bytes there are.
pub fn read_all<I: Source>(input: &mut I, into: &mut [u8]) -> Option<usize>
    ensures { IfSome result (λ n. n ≤ length into.new) }
{
    let mut at = 0;
    while at < into.len() {
        let count = input.pull(&mut into[at..]).ok()?;
        if count == 0 {
            break;
        }
        at += count;
    }
    Some(at)
}

/// Whether the system picks the port of an address.
pub fn picks_port(address: &str) -> bool {
    match address.rsplit_once(':') {
        Some((_, port)) => port.parse() == Ok(0u16),
        None => false,
    }
}

/// Reads the configuration from standard input into this room, and listens at the address: how many bytes were read,
/// and the listener, or how the program ends without them. Where the system picks the port, which one is said before the
/// first connection is accepted.
pub fn begin<'a>(
    host: &'a HostRuntime,
    alloc: Global,
    address: &Word,
    room: &mut [u8],
) -> Result<(usize, Announced<'a>), Ending>
    ensures { IfOk result (λ begun. begun.0 ≤ length room.new) }
{
    let Some(count) = read_all(&mut StandardInput::new(host.reader()), room) else {
        return Err(Ending::new(Status::ReadFault));
    };
    let (listener, _) = listen(host, alloc, address)?;
    Ok((count, listener))
}

/// Listens at the address: the listener, and where it listens, or how the program ends without it. Where the system picks
/// the port, which one is said before the first connection is accepted.
pub fn listen<'a>(
    host: &'a HostRuntime,
    alloc: Global,
    address: &Word,
) -> Result<(Announced<'a>, Option<SocketAddr>), Ending> {
    let address = text(address);
    match TcpListener::bind(host, address) {
        Ok(listener) => {
            let place = listener.local_addr().ok();
            let connections = Announced::new(host, listener, picks_port(address));
            Ok((connections, place))
        }
        Err(error) => Err(Ending::told(alloc, Status::AcceptFault, address, &error)),
    }
}

/// How many units a configuration has, or 0 where it is none.
fn unit_count(alloc: Global, config: &[u8]) -> u16 {
    match read_header(alloc, config) {
        Ok(Parsed::Whole { value, .. }) => value.units(),
        _ => 0,
    }
}

/// Serves as the words say, `serve ADDRESS SESSIONS` or `serve ADDRESS SESSIONS FOLDER`: it reads the configuration from
/// standard input, listens, and writes the report to standard output when all connections were served. It waits for each
/// of them to come and to end. `rt` makes the threads; files, sockets and streams are the host's.
pub fn serve_words<W: Threads + Wait + Sync>(
    rt: &W,
    host: &HostRuntime,
    alloc: Global,
    words: &[Word],
) -> Ending {
    let (address, folder) = match words {
        [_, address, _] => (address, None),
        [_, address, _, folder] => (address, Some(text(folder))),
        _ => return Ending::new(Status::Usage),
    };
    let mut bytes = [0; CONFIGURATION];
    let (count, mut listener) = match begin(host, alloc, address, &mut bytes) {
        Ok(begun) => begun,
        Err(ending) => return ending,
    };
    let config = &bytes[..count];
    let clock = SystemClock::new(host);
    let mut output = ReportOutput::new(StandardOutput::new(io::writer(host)));
    let Some(folder) = folder else {
        let status = serve(rt, alloc, words, config, &mut listener, clock, &mut output);
        return Ending::new(Status::from(status));
    };
    let (Ok(recorders), Ok(notes)) = (
        unit_files(host, alloc, folder),
        folder_notes(host, alloc, folder, unit_count(alloc, config)),
    ) else {
        return Ending::new(Status::OutOfMemory);
    };
    listener.note(notes);
    let served = serve_with(
        rt,
        alloc,
        words,
        config,
        &mut listener,
        clock,
        &mut output,
        recorders,
    );
    Ending::kept(alloc, Status::from(served.status), output.kept())
}
