// Copies of a host copier over the standard streams, and over a socket.
ghost use Rattle.std.specs.Prelude.{◌<◌};

use crate::chained::Chained;
use crate::hosting::{are_hosting, whole_job, work_over};
use crate::rows::host_copies::{HostCopy, copies};
use crate::status::Status;
use crate::tests::{Failing, add_text, bytes_of, ran, source_of, words_of};
use cm_base::{Bytes, InputBuffer, MemorySource};
use std::alloc::Global;
use std::io::{Read, Write};
use std::net::{Ipv4Addr, SocketAddr, TcpListener, TcpStream};
use std::test::Fail;

/// Whether these words ask for hosting.
fn ask(alloc: Global, line: &[&str]) -> Result<bool, Fail> {
    let words = words_of(alloc, line)?;
    Ok(are_hosting(&words))
}

#[test]
fn words_ask_for_hosting(rt: HostRuntime) -> Result<(), Fail> {
    assert!(rt; ask(rt.alloc(), &["copy", "127.0.0.1:3260"])?);
    assert!(rt; ask(rt.alloc(), &["copy", ""])?);
    assert!(rt; !ask(rt.alloc(), &["Copy", "127.0.0.1:3260"])?);
    assert!(rt; !ask(rt.alloc(), &["gen", "1"])?);
    assert!(rt; !ask(rt.alloc(), &["copy"])?);
    Ok(())
}

/// The job and its replies give its requests and its status by pulls and pushes of so many bytes.
fn is_as_worked(alloc: Global, row: &HostCopy, step: usize) -> Result<bool, Fail>
    requires { 0 < step }
{
    let input = bytes_of(alloc, row.input)?;
    let (status, sink) = ran(alloc, &["copy"], input, step, Failing::nothing())?;
    let requests = bytes_of(alloc, row.output)?;
    Ok(status == row.status && sink.as_slice() == requests.as_slice())
}

fn check_copy(alloc: Global, row: &HostCopy, step: usize) -> Result<(), Fail>
    requires { 0 < step }
{
    if is_as_worked(alloc, row, step)? {
        Ok(())
    } else {
        Err(Fail::new(format_args!("{} by {step}", row.name)))
    }
}

fn check_copies(alloc: Global, rows: &[HostCopy], step: usize) -> Result<(), Fail>
    requires { 0 < step }
{
    for row in rows {
        check_copy(alloc, row, step)?;
    }
    Ok(())
}

#[test]
fn worked_copies(rt: HostRuntime) -> Result<(), Fail> {
    for step in [1, 7, 4096] {
        check_copies(rt.alloc(), copies(), step)?;
    }
    Ok(())
}

/// The job of one part.
fn one_part() -> Result<&'static HostCopy, Fail> {
    match copies().first() {
        Some(row) => Ok(row),
        None => Err(Fail::new("no copies")),
    }
}

/// How a copy of one part ends by pulls and pushes of 100 bytes; what it wrote is a beginning of the requests.
fn ends_at(alloc: Global, failing: Failing) -> Result<Status, Fail> {
    let row = one_part()?;
    let input = bytes_of(alloc, row.input)?;
    let (status, sink) = ran(alloc, &["copy"], input, 100, failing)?;
    let requests = bytes_of(alloc, row.output)?;
    if requests.as_slice().starts_with(sink.as_slice()) {
        Ok(status)
    } else {
        Err(Fail::new("what was written begins no requests"))
    }
}

/// Each of the pulls fails once, the first of which is that of the job, and each of the pushes.
#[test]
fn failed_calls_end_a_copy(rt: HostRuntime) -> Result<(), Fail> {
    for call in 1..8 {
        let status = ends_at(rt.alloc(), Failing::pull(call))?;
        assert!(rt; status == Status::ReadFault, "{call}: {status}");
    }
    for call in 1..10 {
        let status = ends_at(rt.alloc(), Failing::push(call))?;
        assert!(rt; status == Status::WriteFault, "{call}: {status}");
    }
    Ok(())
}

/// How a copy ends with these bytes behind its job.
fn ends_behind_job(alloc: Global, behind: &str) -> Result<Status, Fail> {
    let mut input = bytes_of(alloc, "JOB")?;
    add_text(alloc, &mut input, behind)?;
    let (status, _) = ran(alloc, &["copy"], input, 4096, Failing::nothing())?;
    Ok(status)
}

/// A reply that is cut, one whose status there is not, one that is TASK SET FULL, and a GOOD without what is asked for.
#[test]
fn replies_end_a_copy(rt: HostRuntime) -> Result<(), Fail> {
    for (behind, end) in [
        ("0000000000", Status::Ended),
        ("010000000000", Status::BadReply),
        ("280000000000", Status::Refused(1)),
        ("000000000000000000000000", Status::BadData(1)),
    ] {
        let status = ends_behind_job(rt.alloc(), behind)?;
        assert!(rt; status == end, "{behind}: {status}");
    }
    Ok(())
}

/// How a job is judged that is cut to so many bytes, or has so many behind it.
fn judged_job(alloc: Global, cut: usize, behind: &[u8]) -> Result<Result<usize, Status>, Fail> {
    let job = bytes_of(alloc, "JOB")?;
    let length = job.len().saturating_sub(cut);
    let mut bytes = Bytes::copy(alloc, &job.as_slice()[..length])?;
    bytes.extend(behind)?;
    let mut input = source_of(alloc, bytes, 7, Failing::nothing())?;
    Ok(whole_job(alloc, &mut input).map(|job| job.len()))
}

/// A job ends with its input: one that is empty or cut is refused before anybody is asked, and so is one with a byte too
/// many, at that byte.
#[test]
fn a_job_is_judged_before_it_is_asked(rt: HostRuntime) -> Result<(), Fail> {
    let alloc = rt.alloc();
    let length = bytes_of(alloc, "JOB")?.len();
    assert!(rt; judged_job(alloc, 0, b"")? == Ok(length));
    assert!(rt; judged_job(alloc, length, b"")? == Err(Status::Torn(0)));
    assert!(rt; judged_job(alloc, 1, b"")? == Err(Status::Torn(0)));
    assert!(rt; judged_job(alloc, 0, b"x")? == Err(Status::BadHeader(length as u64)));
    assert!(rt;
        judged_job(alloc, length, b"\0\0\0\x01\0\0\0\0\0\0\0\0\0\0\0\0")?
            == Err(Status::BadHeader(4))
    );
    Ok(())
}

/// A source of these bytes by pulls of two, of which one fails.
fn twos(alloc: Global, bytes: &[u8], pull: u64) -> Result<MemorySource, Fail> {
    let bytes = Bytes::copy(alloc, bytes)?;
    source_of(alloc, bytes, 2, Failing::pull(pull))
}

/// Two sources in one, of each of which one pull fails.
fn chained(alloc: Global) -> Result<Chained<MemorySource, MemorySource>, Fail> {
    let first = twos(alloc, b"one", 1)?;
    Ok(Chained::new(first, twos(alloc, b"two", 2)?))
}

/// How many of ten pulls fail; the others bring the bytes of both sources.
fn failed_fills(alloc: Global) -> Result<u32, Fail> {
    let mut both = chained(alloc)?;
    let mut bytes = InputBuffer::new(alloc);
    let mut failed = 0u32;
    for _ in 0..10 {
        if bytes.fill(&mut both).is_err() {
            failed = failed.saturating_add(1);
        }
    }
    if bytes.as_slice() == b"onetwo".as_slice() {
        Ok(failed)
    } else {
        Err(Fail::new("other bytes"))
    }
}

/// The second source follows the first, and a pull of either may fail.
#[test]
fn sources_are_chained(rt: HostRuntime) -> Result<(), Fail> {
    assert!(rt; failed_fills(rt.alloc())? == 2);
    Ok(())
}

/// The two ends of a connection.
fn connected(rt: &HostRuntime) -> Result<(TcpStream, TcpStream), Fail> {
    let listener = TcpListener::bind(rt, SocketAddr::from((Ipv4Addr::LOCALHOST, 0)))?;
    let client = TcpStream::connect(rt, listener.local_addr()?)?;
    let (server, _) = listener.accept()?;
    Ok((client, server))
}

/// How a copy of one part ends over a connection.
fn works_over(alloc: Global, connection: TcpStream) -> Result<Status, Fail> {
    let words = words_of(alloc, &["copy"])?;
    let job = source_of(alloc, bytes_of(alloc, "JOB")?, 4096, Failing::nothing())?;
    Ok(work_over(alloc, &words, job, connection).status)
}

/// Sends the bytes of a text.
fn send(alloc: Global, connection: &mut TcpStream, text: &str) -> Result<(), Fail> {
    let bytes = bytes_of(alloc, text)?;
    connection.write_all(bytes.as_slice())?;
    Ok(())
}

/// Whether the bytes of a text come, and then the end.
fn receives(alloc: Global, connection: &mut TcpStream, text: &str) -> Result<bool, Fail> {
    let mut received = Vec::new(alloc);
    connection.read_to_end(&mut received)?;
    let wanted = bytes_of(alloc, text)?;
    Ok(received.as_slice() == wanted.as_slice())
}

/// How a copy of one part ends over a socket; its requests come.
fn copied_over_socket(rt: &HostRuntime) -> Result<Status, Fail> {
    let row = one_part()?;
    let replies = row.input.trim_start_matches("JOB");
    let (client, mut server) = connected(rt)?;
    send(rt.alloc(), &mut server, replies)?;
    let status = works_over(rt.alloc(), client)?;
    if receives(rt.alloc(), &mut server, row.output)? {
        Ok(status)
    } else {
        Err(Fail::new("other requests"))
    }
}

/// The replies are there before they are asked for; the requests come, and then the end.
#[test]
fn a_copy_over_a_socket(rt: HostRuntime) -> Result<(), Fail> {
    assert!(rt; copied_over_socket(&rt)? == Status::Done);
    Ok(())
}
