// Copies over the units of a configuration.
use crate::tests::made::bytes_of;
use crate::{Copied, CopyFault, Port, UnitPort, copy};
use cm_base::Parsed;
use cm_frame::{Reply, read_header, read_request};
use copy_plan::{Job, read_job};
use scsi_sense::Sense;
use std::alloc::Global;
use std::test::Fail;

/// Three units of 1,048,576 blocks of 512 bytes, with quotas of as many; the first two are in group 0, and the last is in
/// group 1. The secret is the bytes 00h to 1Fh.
const UNITS: [&str; 4] = [
    "434d545241434531000102030405060708090a0b0c0d0e0f101112131415161718191a1b1c1d1e1f0003",
    "0000000000100000000002000010000000000000001000001000000000000000",
    "0000000000100000000002000010000000000000001000001000000000000000",
    "0000000000100000000002000010000000000000001000001000000001000000",
];

/// WRITE (16) of 8 blocks of unit 0 at 0 and at 100, and READ (16) of 16 of unit 1 at 50.
const WRITES: [[&str; 2]; 2] = [
    ["0000100000008a000000000000000000000000080000", "33*4096"],
    ["0000100000008a000000000000000064000000080000", "44*4096"],
];

const READ: [&str; 1] = ["00000000000188000000000000000032000000100000"];

/// Units of which nothing was asked yet, whose pumps work so often behind each request.
fn units(alloc: Global, pumps: u32) -> Result<UnitPort, Fail> {
    let bytes = bytes_of(alloc, &UNITS)?;
    match read_header(alloc, bytes.as_slice())? {
        Parsed::Whole { value, .. } => Ok(UnitPort::new(alloc, &value, pumps)?),
        Parsed::Short | Parsed::Bad { .. } => Err(Fail::from("no units")),
    }
}

/// What a request of this frame is answered.
fn asked(alloc: Global, port: &mut UnitPort, frame: &[&str]) -> Result<Reply, Fail> {
    let bytes = bytes_of(alloc, frame)?;
    match read_request(alloc, bytes.as_slice())? {
        Parsed::Whole { value, .. } => match port.ask(&value) {
            Ok(reply) => Ok(reply),
            Err(_) => Err(Fail::from("no reply")),
        },
        Parsed::Short | Parsed::Bad { .. } => Err(Fail::from("no request")),
    }
}

/// Units of which the extents of the job hold 33h and 44h.
fn filled(alloc: Global, pumps: u32) -> Result<UnitPort, Fail> {
    let mut port = units(alloc, pumps)?;
    for frame in WRITES {
        asked(alloc, &mut port, &frame)?;
    }
    Ok(port)
}

/// Copies two extents of 8 blocks of unit 0, at 0 and 100, to 16 blocks from 50 on of a unit; a write is polled 10 times.
fn job_to(alloc: Global, unit: &str) -> Result<Job, Fail> {
    let rest =
        "0000000a0000000200000001000000000000000000000008000000000000006400000008000000000000003200000010";
    let bytes = bytes_of(alloc, &["0000", unit, rest])?;
    match read_job(alloc, bytes.as_slice())? {
        Parsed::Whole { value, .. } => Ok(value),
        Parsed::Short | Parsed::Bad { .. } => Err(Fail::from("no job")),
    }
}

#[test]
fn blocks_are_equal(rt: HostRuntime) -> Result<(), Fail> {
    let alloc = rt.alloc();
    let mut port = filled(alloc, 1)?;
    match copy(alloc, &job_to(alloc, "0001")?, &mut port) {
        Ok(copied) => assert!(rt;
            copied
                == Copied {
                    populates: 1,
                    writes: 1
                }
        ),
        Err(_) => assert!(rt; false, "it was not copied"),
    }
    let wanted = bytes_of(alloc, &["33*4096", "44*4096"])?;
    match asked(alloc, &mut port, &READ)? {
        Reply::Good(data) => assert!(rt; data.as_slice() == wanted.as_slice()),
        _ => assert!(rt; false, "the blocks were not read"),
    }
    Ok(())
}

#[test]
fn nobody_pumps(rt: HostRuntime) -> Result<(), Fail> {
    let alloc = rt.alloc();
    let mut port = filled(alloc, 0)?;
    match copy(alloc, &job_to(alloc, "0001")?, &mut port) {
        Err(CopyFault::Polls { step }) => assert!(rt; step == 2),
        _ => assert!(rt; false, "it ended otherwise"),
    }
    Ok(())
}

/// Whether the reply is CHECK CONDITION with this sense.
fn is_check(reply: &Reply, sense: Sense) -> bool {
    match reply {
        Reply::Check(found) => *found == sense,
        _ => false,
    }
}

/// The token may not be used there: REMOTE TOKEN USAGE NOT SUPPORTED.
#[test]
fn the_target_is_of_another_group(rt: HostRuntime) -> Result<(), Fail> {
    let alloc = rt.alloc();
    let mut port = filled(alloc, 1)?;
    match copy(alloc, &job_to(alloc, "0002")?, &mut port) {
        Err(CopyFault::Refused { step, reply }) => {
            assert!(rt; step == 2);
            assert!(rt; is_check(&reply, Sense::new(0x05, 0x23, 0x02)));
        }
        _ => assert!(rt; false, "it ended otherwise"),
    }
    Ok(())
}
