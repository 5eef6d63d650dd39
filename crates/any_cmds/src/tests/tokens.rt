use super::outcomes::Came;
use super::script::{cut, plays, tells};
use super::seen::{GOOD, Seen};
use cm_base::{Payload, set_u16, set_u32, set_u64};
use cm_history::OpState;
use scsi_cdb::{Cdb, encode};
use scsi_sense::Sense;
use std::alloc::Global;
use std::test::Fail;

/// The text of the token of unit 0 with serial 5.
fn named() -> [u8; 512] {
    let mut token = [0; 512];
    set_u32(&mut token, 0, 0x0080_0000);
    set_u16(&mut token, 6, 0x01f8);
    token[15] = 5;
    token
}

/// The zero token.
fn zero() -> [u8; 512] {
    let mut token = [0; 512];
    set_u32(&mut token, 0, 0xffff_0001);
    set_u16(&mut token, 6, 0x01f8);
    token
}

/// The list of a WRITE USING TOKEN to 2000 blocks from LBA 7 on; flag 1 is IMMED, flag 2 DEL_TKN.
fn write_list(alloc: Global, flags: u8, offset: u64, token: &[u8; 512]) -> Result<Payload, Fail> {
    let mut list = [0; 552];
    set_u16(&mut list, 0, 550);
    list[2] = flags;
    set_u64(&mut list, 8, offset);
    list[16..528].copy_from_slice(token);
    set_u16(&mut list, 534, 16);
    set_u64(&mut list, 536, 7);
    set_u32(&mut list, 544, 2000);
    Ok(Payload::copy_from_slice(alloc, &list)?)
}

/// WRITE USING TOKEN with this list.
fn writes(alloc: Global, list: Payload, script: &[(Seen, Came)], last: Seen) -> Result<bool, Fail> {
    let write = encode(&Cdb::WriteUsingToken { id: 3, length: 552 });
    plays(alloc, write, list, script, last)
}

/// A write from the token of unit 0 does these things in turn, of which that came, and then the last.
fn writes_rod(
    alloc: Global,
    flags: u8,
    offset: u64,
    script: &[(Seen, Came)],
    last: Seen,
) -> Result<bool, Fail> {
    let list = write_list(alloc, flags, offset, &named())?;
    writes(alloc, list, script, last)
}

/// A write from the zero token does these things in turn, of which that came, and then the last.
fn writes_zeros(
    alloc: Global,
    flags: u8,
    offset: u64,
    script: &[(Seen, Came)],
    last: Seen,
) -> Result<bool, Fail> {
    let list = write_list(alloc, flags, offset, &zero())?;
    writes(alloc, list, script, last)
}

const REDEEM: Seen = Seen::Redeem { unit: 0, target: 1 };

/// A write of 2000 unmapped blocks begins.
const START: Seen = Seen::Start {
    background: false,
    blocks: 2000,
    mapped: false,
};

/// It begins behind the command.
const START_BEHIND: Seen = Seen::Start {
    background: true,
    blocks: 2000,
    mapped: false,
};

/// A write of 2000 blocks begins, the first of which is mapped.
const START_MAPPED: Seen = Seen::Start {
    background: false,
    blocks: 2000,
    mapped: true,
};

const ADVANCE: Seen = Seen::Advance { id: 3 };

const RUNNING: Came = Came::Progress(OpState::Running);

const FINISHED: Came = Came::Progress(OpState::Done);

/// A POPULATE TOKEN for 60 seconds, whose CDB says that its list has 32 bytes.
fn populates(
    alloc: Global,
    list: &'static [u8],
    script: &[(Seen, Came)],
    last: Seen,
) -> Result<bool, Fail> {
    let populate = encode(&Cdb::PopulateToken { id: 3, length: 32 });
    plays(
        alloc,
        populate,
        Payload::copy_from_slice(alloc, list)?,
        script,
        last,
    )
}

/// POPULATE TOKEN of three blocks from LBA 7 on, for 60 seconds, which a reservation may bar.
#[test]
fn a_token_is_populated(rt: HostRuntime) -> Result<(), Fail> {
    let list: &'static [u8] =
        b"\0\x1e\0\0\0\0\0\x3c\0\0\0\0\0\0\0\x10\0\0\0\0\0\0\0\x07\0\0\0\x03\0\0\0\0";
    let populate = Seen::Populate {
        id: 3,
        timeout: 60,
        blocks: 3,
    };
    for (came, end) in [(Came::Made, GOOD), (Came::Conflict, Seen::Conflict)] {
        assert!(rt; populates(rt.alloc(), list, &[(populate, came)], end)?);
    }
    Ok(())
}

/// The list is shorter than the CDB says.
#[test]
fn a_short_list_is_refused(rt: HostRuntime) -> Result<(), Fail> {
    let refused = Seen::Check {
        key: 0x05,
        asc: 0x1a,
        ascq: 0x00,
    };
    assert!(rt; populates(rt.alloc(), b"\0\x1e", &[], refused)?);
    Ok(())
}

/// A part of the rod is written, from the block at the offset on, in two pieces.
#[test]
fn a_part_of_a_rod_is_written(rt: HostRuntime) -> Result<(), Fail> {
    let script = [
        (REDEEM, Came::Rod { blocks: 2004 }),
        (START_MAPPED, RUNNING),
        (ADVANCE, RUNNING),
        (ADVANCE, FINISHED),
    ];
    assert!(rt; writes_rod(rt.alloc(), 0, 4, &script, GOOD)?);
    Ok(())
}

/// The rod has one block too few behind the offset.
#[test]
fn a_short_rod_is_refused(rt: HostRuntime) -> Result<(), Fail> {
    let refused = Seen::Check {
        key: 0x05,
        asc: 0x26,
        ascq: 0x00,
    };
    let script = [(REDEEM, Came::Rod { blocks: 2003 })];
    assert!(rt; writes_rod(rt.alloc(), 0, 4, &script, refused)?);
    Ok(())
}

/// A token that is not redeemed is refused with the same sense.
#[test]
fn a_token_is_not_redeemed(rt: HostRuntime) -> Result<(), Fail> {
    let expired = Came::Refused(Sense::new(0x05, 0x23, 0x05));
    let refused = Seen::Check {
        key: 0x05,
        asc: 0x23,
        ascq: 0x05,
    };
    assert!(rt; writes_rod(rt.alloc(), 0, 4, &[(REDEEM, expired)], refused)?);
    Ok(())
}

/// DEL_TKN: the token is deleted where it was made, behind the last piece.
#[test]
fn a_token_is_deleted_at_the_end(rt: HostRuntime) -> Result<(), Fail> {
    let script = [
        (REDEEM, Came::Rod { blocks: 2000 }),
        (START, RUNNING),
        (ADVANCE, RUNNING),
        (ADVANCE, FINISHED),
        (Seen::Delete { unit: 0, serial: 5 }, Came::Done),
    ];
    assert!(rt; writes_rod(rt.alloc(), 2, 0, &script, GOOD)?);
    Ok(())
}

/// IMMED: the operation goes on in the background.
#[test]
fn a_rod_is_written_in_the_background(rt: HostRuntime) -> Result<(), Fail> {
    let script = [
        (REDEEM, Came::Rod { blocks: 2000 }),
        (START_BEHIND, RUNNING),
    ];
    assert!(rt; writes_rod(rt.alloc(), 1, 0, &script, GOOD)?);
    Ok(())
}

/// The zero token is not redeemed, its offset is ignored, and nothing is deleted.
#[test]
fn zeros_are_written(rt: HostRuntime) -> Result<(), Fail> {
    let script = [(START, RUNNING), (ADVANCE, FINISHED)];
    assert!(rt; writes_zeros(rt.alloc(), 2, 99, &script, GOOD)?);
    Ok(())
}

/// An operation that runs is ended once where the command gives up.
#[test]
fn an_operation_is_ended_once(rt: HostRuntime) -> Result<(), Fail> {
    let script = [
        (START, RUNNING),
        (ADVANCE, Came::Full),
        (Seen::End { id: 3 }, Came::NoMemory),
    ];
    assert!(rt; writes_zeros(rt.alloc(), 0, 0, &script, Seen::Full)?);
    Ok(())
}

/// A reservation bars the start of a write, in the foreground or behind the command.
#[test]
fn a_reservation_bars_a_write(rt: HostRuntime) -> Result<(), Fail> {
    for (immed, start) in [(0, START), (1, START_BEHIND)] {
        let script = [(start, Came::Conflict)];
        assert!(rt;
            writes_zeros(rt.alloc(), immed, 0, &script, Seen::Conflict)?,
            "{immed}"
        );
    }
    Ok(())
}

/// Where the start of a write is barred, its token is not deleted.
#[test]
fn a_token_of_a_barred_write_stays(rt: HostRuntime) -> Result<(), Fail> {
    let script = [
        (REDEEM, Came::Rod { blocks: 2000 }),
        (START, Came::Conflict),
    ];
    assert!(rt; writes_rod(rt.alloc(), 2, 0, &script, Seen::Conflict)?);
    Ok(())
}

/// An operation that was terminated by another command.
#[test]
fn an_operation_that_is_stopped_is_refused(rt: HostRuntime) -> Result<(), Fail> {
    let stopped = Seen::Check {
        key: 0x0a,
        asc: 0x00,
        ascq: 0x00,
    };
    let script = [(START, Came::Progress(OpState::Terminated))];
    assert!(rt; writes_zeros(rt.alloc(), 0, 0, &script, stopped)?);
    Ok(())
}

/// COPY OPERATION ABORT asks for this, of which that came, and ends so.
fn aborts(alloc: Global, came: Came, end: Seen) -> Result<bool, Fail> {
    let abort = encode(&Cdb::CopyAbort { id: 3 });
    let script = [(Seen::Abort { id: 3 }, came)];
    plays(alloc, abort, Payload::new(), &script, end)
}

#[test]
fn an_operation_is_aborted(rt: HostRuntime) -> Result<(), Fail> {
    assert!(rt; aborts(rt.alloc(), Came::Done, GOOD)?);
    assert!(rt; aborts(rt.alloc(), Came::NoMemory, Seen::Busy)?);
    Ok(())
}

/// The report of the operation is asked for and comes.
const REPORT: (Seen, Came) = (Seen::Report { id: 3 }, Came::Report);

/// What is told of a token operation: it made a token of three blocks and is done.
static STATUS: &[u8; 32] =
    b"\0\0\0\x1c\x10\x01\0\0\0\0\0\0\0\0\0\xf1\0\0\0\0\0\0\0\x03\0\0\0\0\0\0\0\0";

/// The front of its token information, up to the serial of the token of unit 1.
static INFORMATION: &[u8; 54] =
    b"\0\0\x02\x22\x10\x01\0\0\0\0\0\0\0\0\0\xf1\0\0\0\0\0\0\0\x03\0\0\0\0\0\0\0\0\0\0\x02\x02\0\0\0\x80\0\0\0\0\x01\xf8\0\x01\0\0\0\0\0\x05";

/// RECEIVE COPY STATUS(LID4) with this allocation length tells so much of the status.
fn tells_status(alloc: Global, length: u32) -> Result<bool, Fail> {
    let cdb = encode(&Cdb::CopyStatus4 { id: 3, length });
    tells(alloc, cdb, REPORT, cut(STATUS, length))
}

#[test]
fn a_status_is_told(rt: HostRuntime) -> Result<(), Fail> {
    for length in [0, 3, 31, 32, 1024] {
        assert!(rt; tells_status(rt.alloc(), length)?, "{length}");
    }
    Ok(())
}

/// RECEIVE ROD TOKEN INFORMATION with this allocation length tells so much of the information.
fn tells_token(alloc: Global, length: u32) -> Result<bool, Fail> {
    let cdb = encode(&Cdb::TokenInformation { id: 3, length });
    tells(alloc, cdb, REPORT, cut(INFORMATION, length))
}

#[test]
fn a_token_is_told(rt: HostRuntime) -> Result<(), Fail> {
    for length in [0, 5, 54] {
        assert!(rt; tells_token(rt.alloc(), length)?, "{length}");
    }
    Ok(())
}
