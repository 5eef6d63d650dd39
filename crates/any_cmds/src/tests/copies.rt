use super::outcomes::Came;
use super::script::{cut, plays, tells};
use super::seen::{End, GOOD, Seen};
use cm_base::{Bytes, Payload, set_u16, set_u32, set_u64};
use scsi_cdb::{Cdb, encode};
use scsi_sense::Sense;
use std::alloc::Global;
use std::test::Fail;

/// The CSCD descriptor of a unit.
fn cscd(unit: u8) -> [u8; 32] {
    let mut bytes = [0; 32];
    bytes[..9].copy_from_slice(b"\xe4\0\0\0\x01\x03\0\x08\x30");
    bytes[15] = unit;
    set_u16(&mut bytes, 30, 512);
    bytes
}

/// The descriptor of a segment between two CSCDs.
fn segment(source: u16, destination: u16, count: u16, from: u64, to: u64) -> [u8; 28] {
    let mut bytes = [0; 28];
    set_u32(&mut bytes, 0, 0x0200_0018);
    set_u16(&mut bytes, 4, source);
    set_u16(&mut bytes, 6, destination);
    set_u16(&mut bytes, 10, count);
    set_u64(&mut bytes, 12, from);
    set_u64(&mut bytes, 20, to);
    bytes
}

/// The list of a copy of 1500 blocks from unit 0 to unit 1, and of two blocks back.
fn copy_list(alloc: Global, usage: u8) -> Result<Payload, Fail> {
    let mut head = [0; 16];
    head[0] = 3;
    head[1] = (usage & 3) << 3;
    set_u16(&mut head, 2, 64);
    set_u32(&mut head, 8, 56);
    let mut list = Bytes::copy(alloc, &head)?;
    add_descriptors(&mut list)?;
    Ok(Payload::from_vec(list.into_vec())?)
}

/// Adds two units and two segments.
fn add_descriptors(list: &mut Bytes) -> Result<(), Fail> {
    list.extend(&cscd(0))?;
    list.extend(&cscd(1))?;
    list.extend(&segment(0, 1, 1500, 7, 100))?;
    list.extend(&segment(1, 0, 2, 9, 200))?;
    Ok(())
}

/// A copy by a list of this LIST ID USAGE does these things in turn, of which that came, and then the last.
fn copies(alloc: Global, usage: u8, script: &[(Seen, Came)], last: Seen) -> Result<bool, Fail> {
    let copy = encode(&Cdb::ExtendedCopy { length: 136 });
    plays(alloc, copy, copy_list(alloc, usage)?, script, last)
}

const OPEN: Seen = Seen::Open { unit: 1, id: 3 };

const CAPTURE: Seen = Seen::Capture {
    unit: 0,
    lba: 7,
    count: 1500,
};

const CAPTURED: Came = Came::Blocks { count: 1500 };

const FIRST_PUT: Seen = Seen::Put {
    unit: 1,
    lba: 100,
    blocks: 1024,
    mapped: false,
};

const SECOND_PUT: Seen = Seen::Put {
    unit: 1,
    lba: 1124,
    blocks: 476,
    mapped: true,
};

const CAPTURE_BACK: Seen = Seen::Capture {
    unit: 1,
    lba: 9,
    count: 2,
};

const PUT_BACK: Seen = Seen::Put {
    unit: 0,
    lba: 200,
    blocks: 2,
    mapped: false,
};

/// The record is opened, the segments are copied in order and in pieces, and the record is closed.
#[test]
fn two_segments_are_copied(rt: HostRuntime) -> Result<(), Fail> {
    let close = Seen::Close {
        end: End::Done,
        segments: 2,
        bytes: 769_024,
    };
    let script = [
        (OPEN, Came::Done),
        (CAPTURE, CAPTURED),
        (FIRST_PUT, Came::Done),
        (SECOND_PUT, Came::Done),
        (CAPTURE_BACK, Came::Blocks { count: 2 }),
        (PUT_BACK, Came::Done),
        (close, Came::Done),
    ];
    assert!(rt; copies(rt.alloc(), 0, &script, GOOD)?);
    Ok(())
}

/// LIST ID USAGE 11b: no record is opened.
#[test]
fn a_copy_may_have_no_record(rt: HostRuntime) -> Result<(), Fail> {
    let script = [
        (CAPTURE, CAPTURED),
        (FIRST_PUT, Came::Done),
        (SECOND_PUT, Came::Done),
        (CAPTURE_BACK, Came::Blocks { count: 2 }),
        (PUT_BACK, Came::Done),
    ];
    assert!(rt; copies(rt.alloc(), 3, &script, GOOD)?);
    Ok(())
}

/// A Put that is refused ends the segments, and the record says how far they came.
#[test]
fn a_refused_put_ends_the_copy(rt: HostRuntime) -> Result<(), Fail> {
    let over_quota = Sense::new(0x07, 0x27, 0x07);
    let close = Seen::Close {
        end: End::Failed,
        segments: 0,
        bytes: 524_288,
    };
    let aborted = Seen::Check {
        key: 0x0a,
        asc: 0x27,
        ascq: 0x07,
    };
    let script = [
        (OPEN, Came::Done),
        (CAPTURE, CAPTURED),
        (FIRST_PUT, Came::Done),
        (SECOND_PUT, Came::Refused(over_quota)),
        (close, Came::Done),
    ];
    assert!(rt; copies(rt.alloc(), 0, &script, aborted)?);
    Ok(())
}

/// A Put that a reservation bars ends the segments: the record says that the copy failed, and the reply is RESERVATION
/// CONFLICT, as it is where there is no record.
#[test]
fn a_reservation_ends_the_copy(rt: HostRuntime) -> Result<(), Fail> {
    let close = Seen::Close {
        end: End::Failed,
        segments: 0,
        bytes: 524_288,
    };
    let script = [
        (OPEN, Came::Done),
        (CAPTURE, CAPTURED),
        (FIRST_PUT, Came::Done),
        (SECOND_PUT, Came::Conflict),
        (close, Came::Done),
    ];
    assert!(rt; copies(rt.alloc(), 0, &script, Seen::Conflict)?);
    let unrecorded = [(CAPTURE, Came::Conflict)];
    assert!(rt; copies(rt.alloc(), 3, &unrecorded, Seen::Conflict)?);
    Ok(())
}

/// A Capture that a reservation bars ends the segments: the record has those that were copied before it.
#[test]
fn a_barred_capture_ends_the_copy(rt: HostRuntime) -> Result<(), Fail> {
    let close = Seen::Close {
        end: End::Failed,
        segments: 1,
        bytes: 768_000,
    };
    let script = [
        (OPEN, Came::Done),
        (CAPTURE, CAPTURED),
        (FIRST_PUT, Came::Done),
        (SECOND_PUT, Came::Done),
        (CAPTURE_BACK, Came::Conflict),
        (close, Came::Done),
    ];
    assert!(rt; copies(rt.alloc(), 0, &script, Seen::Conflict)?);
    Ok(())
}

/// A copy that gives up closes its record once.
#[test]
fn a_record_is_closed_once(rt: HostRuntime) -> Result<(), Fail> {
    let close = Seen::Close {
        end: End::Terminated,
        segments: 0,
        bytes: 0,
    };
    let script = [
        (OPEN, Came::Done),
        (CAPTURE, Came::NoMemory),
        (close, Came::Full),
    ];
    assert!(rt; copies(rt.alloc(), 0, &script, Seen::Busy)?);
    let unopened = [(OPEN, Came::Full)];
    assert!(rt; copies(rt.alloc(), 0, &unopened, Seen::Full)?);
    Ok(())
}

/// A copy by an empty list is GOOD.
fn copies_nothing(alloc: Global) -> Result<bool, Fail> {
    let copy = encode(&Cdb::ExtendedCopy { length: 0 });
    plays(alloc, copy, Payload::new(), &[], GOOD)
}

/// A list of LIST ID USAGE 01b is refused, and an empty one asks for nothing.
#[test]
fn lists_are_judged(rt: HostRuntime) -> Result<(), Fail> {
    let refused = Seen::Check {
        key: 0x05,
        asc: 0x26,
        ascq: 0x00,
    };
    assert!(rt; copies(rt.alloc(), 1, &[], refused)?);
    assert!(rt; copies_nothing(rt.alloc())?);
    Ok(())
}

/// The record of two segments is told up to this allocation length.
fn tells_status(alloc: Global, length: u32) -> Result<bool, Fail> {
    let cdb = encode(&Cdb::CopyStatus1 { id: 3, length });
    let recall = (Seen::Recall { unit: 1, id: 3 }, Came::Copied);
    let whole = b"\0\0\0\x08\x01\0\x02\0\0\x0b\xbc\0";
    tells(alloc, cdb, recall, cut(whole, length))
}

/// A status is cut at the allocation length.
#[test]
fn a_status_is_told(rt: HostRuntime) -> Result<(), Fail> {
    for length in [0, 3, 11, 12, 1024] {
        assert!(rt; tells_status(rt.alloc(), length)?, "{length}");
    }
    Ok(())
}
