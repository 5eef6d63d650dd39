// A port over a connection.
ghost use Rattle.std.specs.Prelude.{◌≤◌, length};
ghost use Rattle.cm_frame.specs.Grammar.{data_limit};

use crate::tests::made::{bytes_of, source_of};
use crate::{LinkPort, Port, PortFault};
use cm_base::{CallList, MemoryLink, MemorySink, Payload};
use cm_frame::{Reply, Request};
use std::alloc::Global;
use std::test::Fail;

/// The frame of a TEST UNIT READY.
const READY: &str = "00000000000000000000000000000000000000000000";

/// A TEST UNIT READY.
fn ready() -> Request
    ensures { length result.out ≤ data_limit }
{
    Request {
        unit: 0,
        cdb: [0; 16],
        out: Payload::new(),
    }
}

/// A port over a connection that gives these bytes, and whose calls of these numbers fail.
fn port_of(
    alloc: Global,
    input: &[&str],
    pulls: &[u64],
    pushes: &[u64],
) -> Result<LinkPort<MemoryLink>, Fail> {
    let source = source_of(alloc, bytes_of(alloc, input)?, pulls)?;
    let sink = MemorySink::new(alloc, 4096, CallList::copy(alloc, pushes)?);
    Ok(LinkPort::new(alloc, MemoryLink::new(source, sink)))
}

/// Whether the reply is a GOOD with these bytes.
fn is_good(port: &mut LinkPort<MemoryLink>, request: &Request, bytes: &[u8]) -> bool
    requires { length request.now.out ≤ data_limit }
{
    match port.ask(request) {
        Ok(Reply::Good(data)) => data.as_slice() == bytes,
        _ => false,
    }
}

/// Why there is no reply.
fn fault(port: &mut LinkPort<MemoryLink>, request: &Request) -> Option<PortFault>
    requires { length request.now.out ≤ data_limit }
{
    port.ask(request).err()
}

/// Two replies, one of them of three bytes, in pulls of five; then the input ends.
#[test]
fn replies_are_read(rt: HostRuntime) -> Result<(), Fail> {
    let alloc = rt.alloc();
    let mut port = port_of(alloc, &["000000000003112233", "000000000000"], &[], &[])?;
    let request = ready();
    assert!(rt; is_good(&mut port, &request, &[0x11, 0x22, 0x33]));
    assert!(rt; is_good(&mut port, &request, &[]));
    assert!(rt; fault(&mut port, &request) == Some(PortFault::Ended));
    let wanted = bytes_of(alloc, &[READY, READY, READY])?;
    assert!(rt; port.into_link().taken() == wanted.as_slice());
    Ok(())
}

/// A pull fails, a push fails, and a reply has a status that there is not.
#[test]
fn faults_of_the_connection(rt: HostRuntime) -> Result<(), Fail> {
    let alloc = rt.alloc();
    let request = ready();
    let mut port = port_of(alloc, &["000000000000"], &[2], &[])?;
    assert!(rt; fault(&mut port, &request) == Some(PortFault::ReadFault));
    let mut port = port_of(alloc, &["000000000000"], &[], &[1])?;
    assert!(rt; fault(&mut port, &request) == Some(PortFault::WriteFault));
    let mut port = port_of(alloc, &["010000000000"], &[], &[])?;
    assert!(rt; fault(&mut port, &request) == Some(PortFault::BadReply));
    Ok(())
}
