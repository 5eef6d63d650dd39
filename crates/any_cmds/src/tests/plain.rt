use super::outcomes::{BLOCK, Came};
use super::script::{answers, cut, does, plays};
use super::seen::{GOOD, Seen};
use cm_base::{Config, Payload, UnitConfig, UnitList};
use cm_frame::Request;
use scsi_cdb::{Cdb, encode};
use scsi_sense::Sense;
use std::alloc::Global;
use std::test::Fail;

/// READ (16) of two blocks from LBA 7 on.
const READ: [u8; 16] = [0x88, 0, 0, 0, 0, 0, 0, 0, 0, 7, 0, 0, 0, 2, 0, 0];

/// WRITE (16) of one block at LBA 7.
const WRITE: [u8; 16] = [0x8a, 0, 0, 0, 0, 0, 0, 0, 0, 7, 0, 0, 0, 1, 0, 0];

/// UNMAP of two blocks from LBA 7 on; the second descriptor is not there whole.
const UNMAP_LIST: &[u8; 31] =
    b"\0\x1d\0\x17\0\0\0\0\0\0\0\0\0\0\0\x07\0\0\0\x02\0\0\0\0\xff\xff\xff\xff\xff\xff\xff";

/// UNMAP with a list of this length.
fn unmap(length: u16) -> [u8; 16] {
    encode(&Cdb::Unmap { length })
}

/// GET LBA STATUS from this LBA on, with this allocation length.
fn lba_status(lba: u64, length: u32) -> [u8; 16] {
    encode(&Cdb::GetLbaStatus { lba, length })
}

/// INQUIRY for this page, or for the standard data, with this allocation length.
fn inquiry(evpd: bool, page: u8, length: u16) -> [u8; 16] {
    encode(&Cdb::Inquiry { evpd, page, length })
}

/// Two units: of 100 blocks of 512 bytes, and the largest one.
fn two_units(alloc: Global) -> Result<Config, Fail> {
    let first = UnitConfig {
        blocks: 100,
        block_length: 512,
        entries: 16,
        quota: 100,
        payload: 65_536,
        group: 0,
    };
    let largest = UnitConfig {
        blocks: 4_294_967_296,
        block_length: 4096,
        ..first
    };
    let units = UnitList::copy(alloc, &[first, largest])?;
    Ok(Config::new([7; 32], units))
}

/// A command for a unit does these things in turn, of which that came, and then the last.
fn does_at(
    alloc: Global,
    unit: u16,
    cdb: [u8; 16],
    out: &'static [u8],
    script: &[(Seen, Came)],
    last: Seen,
) -> Result<bool, Fail> {
    let config = two_units(alloc)?;
    let out = Payload::copy_from_slice(alloc, out)?;
    does(alloc, &config, Request { unit, cdb, out }, script, last)
}

/// A command for a unit does these things in turn, of which that came, and is then GOOD with these bytes.
fn tells_at(
    alloc: Global,
    unit: u16,
    cdb: [u8; 16],
    script: &[(Seen, Came)],
    bytes: &[u8],
) -> Result<bool, Fail> {
    let config = two_units(alloc)?;
    let out = Payload::new();
    answers(alloc, &config, Request { unit, cdb, out }, script, bytes)
}

/// Unit 0 is asked to write the block to LBA 7.
const WRITE_ASKED: Seen = Seen::Write {
    unit: 0,
    lba: 7,
    blocks: 1,
    of_block: true,
};

#[test]
fn a_write_is_asked_and_done(rt: HostRuntime) -> Result<(), Fail> {
    let script = [(WRITE_ASKED, Came::Done)];
    assert!(rt; does_at(rt.alloc(), 0, WRITE, &BLOCK, &script, GOOD)?);
    Ok(())
}

/// The bytes of two blocks, of which the second is unmapped: it is read as zeros.
fn half_mapped() -> [u8; 1024] {
    let mut bytes = [0; 1024];
    bytes[..512].copy_from_slice(&BLOCK);
    bytes
}

#[test]
fn a_read_is_asked_and_told(rt: HostRuntime) -> Result<(), Fail> {
    let asked = Seen::Read {
        unit: 0,
        lba: 7,
        count: 2,
    };
    let script = [(asked, Came::HalfMapped)];
    assert!(rt; tells_at(rt.alloc(), 0, READ, &script, &half_mapped())?);
    Ok(())
}

/// A command for a unit is refused with this sense code, and asks for nothing.
fn is_refused(
    alloc: Global,
    unit: u16,
    cdb: [u8; 16],
    out: &'static [u8],
    asc: u8,
) -> Result<bool, Fail> {
    let refused = Seen::Check {
        key: 0x05,
        asc,
        ascq: 0x00,
    };
    does_at(alloc, unit, cdb, out, &[], refused)
}

/// Unit, CDB, data-out, and the sense code: the first fault counts.
fn faulty() -> [(u16, [u8; 16], &'static [u8], u8); 8] {
    let unknown = [0xff; 16];
    let mut long = READ;
    long[12] = 8;
    let mut naca = READ;
    naca[15] = 4;
    let mut two = WRITE;
    two[13] = 2;
    let block: &'static [u8] = &BLOCK;
    let none: &'static [u8] = &[];
    [
        (2, READ, none, 0x25),
        (2, unknown, block, 0x25),
        (0, unknown, block, 0x20),
        (0, long, none, 0x24),
        (0, naca, none, 0x24),
        (0, READ, block, 0x24),
        (0, WRITE, none, 0x24),
        (0, two, block, 0x24),
    ]
}

#[test]
fn commands_are_refused(rt: HostRuntime) -> Result<(), Fail> {
    for (unit, cdb, out, asc) in faulty() {
        assert!(rt; is_refused(rt.alloc(), unit, cdb, out, asc)?, "{cdb:?}");
    }
    Ok(())
}

/// A WRITE for unit 1 asks for an act, of which that came, and ends so.
fn write_ends(alloc: Global, came: Came, end: Seen) -> Result<bool, Fail> {
    let asked = Seen::Write {
        unit: 1,
        lba: 7,
        blocks: 1,
        of_block: true,
    };
    plays(
        alloc,
        WRITE,
        Payload::copy_from_slice(alloc, &BLOCK)?,
        &[(asked, came)],
        end,
    )
}

#[test]
fn a_write_ends_as_it_must(rt: HostRuntime) -> Result<(), Fail> {
    let over_quota = Seen::Check {
        key: 0x07,
        asc: 0x27,
        ascq: 0x07,
    };
    let ends = [
        (Came::Refused(Sense::new(0x07, 0x27, 0x07)), over_quota),
        (Came::Conflict, Seen::Conflict),
        (Came::Full, Seen::Full),
        (Came::NoMemory, Seen::Busy),
    ];
    for (came, end) in ends {
        assert!(rt; write_ends(rt.alloc(), came, end)?);
    }
    Ok(())
}

/// A reservation bars a command, which asked for this.
fn is_barred(alloc: Global, cdb: [u8; 16], out: &'static [u8], asked: Seen) -> Result<bool, Fail> {
    let script = [(asked, Came::Conflict)];
    plays(
        alloc,
        cdb,
        Payload::copy_from_slice(alloc, out)?,
        &script,
        Seen::Conflict,
    )
}

/// Unit 1 is asked to unmap two blocks from LBA 7 on, and no others.
const UNMAP_ASKED: Seen = Seen::Unmap {
    unit: 1,
    ranges: 1,
    first: Some((7, 2)),
};

/// A reservation bars what reads and what writes.
#[test]
fn a_reservation_bars_a_command(rt: HostRuntime) -> Result<(), Fail> {
    let read = Seen::Read {
        unit: 1,
        lba: 7,
        count: 2,
    };
    let status = Seen::MapStatus { unit: 1, lba: 7 };
    assert!(rt; is_barred(rt.alloc(), READ, &[], read)?);
    assert!(rt; is_barred(rt.alloc(), lba_status(7, 24), &[], status)?);
    assert!(rt; is_barred(rt.alloc(), unmap(31), UNMAP_LIST, UNMAP_ASKED)?);
    Ok(())
}

/// Commands that ask for no act, and what the largest unit tells.
fn fixed_data() -> [([u8; 16], &'static [u8]); 6] {
    [
        (encode(&Cdb::TestUnitReady), b""),
        (
            encode(&Cdb::RequestSense { length: 255 }),
            b"\x70\0\0\0\0\0\0\x0a\0\0\0\0\0\0\0\0\0\0",
        ),
        (encode(&Cdb::ReadCapacity10), b"\xff\xff\xff\xff\0\0\x10\0"),
        (
            encode(&Cdb::ReadCapacity16 { length: 32 }),
            b"\0\0\0\0\xff\xff\xff\xff\0\0\x10\0\0\0\xc0\0\0\0\0\0\0\0\0\0\0\0\0\0\0\0\0\0",
        ),
        (
            encode(&Cdb::ReportLuns { length: 1024 }),
            b"\0\0\0\x10\0\0\0\0\0\0\0\0\0\0\0\0\0\x01\0\0\0\0\0\0",
        ),
        (
            encode(&Cdb::CopyParameters { length: 46 }),
            b"\0\0\0\x2a\x01\0\0\0\0\x10\0\x40\0\0\x09\0\x0f\xff\xf0\0\0\0\0\0\0\0\0\0\0\0\0\0\0\0\0\x40\x40\x09\0\0\0\0\0\x02\x02\xe4",
        ),
    ]
}

#[test]
fn fixed_data_is_told(rt: HostRuntime) -> Result<(), Fail> {
    for (cdb, bytes) in fixed_data() {
        assert!(rt; tells_at(rt.alloc(), 1, cdb, &[], bytes)?, "{cdb:?}");
    }
    Ok(())
}

/// INQUIRY commands, and what the largest unit tells.
fn inquiry_data() -> [([u8; 16], &'static [u8]); 3] {
    [
        (
            inquiry(false, 0, 36),
            b"\0\0\x06\x02\x1f\x08\0\0COPYMGR ROD TOKEN UNIT  0001",
        ),
        (
            inquiry(true, 0x83, 1024),
            b"\0\x83\0\x0c\x01\x03\0\x08\x30\0\0\0\0\0\0\x01",
        ),
        (inquiry(true, 0xb2, 1024), b"\0\xb2\0\x04\0\x84\x02\0"),
    ]
}

#[test]
fn inquiry_data_is_told(rt: HostRuntime) -> Result<(), Fail> {
    for (cdb, bytes) in inquiry_data() {
        assert!(rt; tells_at(rt.alloc(), 1, cdb, &[], bytes)?, "{cdb:?}");
    }
    Ok(())
}

/// Commands with a short allocation length, and what unit 0 tells.
fn short_data() -> [([u8; 16], &'static [u8]); 6] {
    [
        (encode(&Cdb::RequestSense { length: 3 }), b"\x70\0\0"),
        (inquiry(false, 0, 5), b"\0\0\x06\x02\x1f"),
        (inquiry(true, 0, 4), b"\0\0\0\x05"),
        (encode(&Cdb::ReadCapacity16 { length: 0 }), b""),
        (encode(&Cdb::ReportLuns { length: 4 }), b"\0\0\0\x10"),
        (encode(&Cdb::CopyParameters { length: 4 }), b"\0\0\0\x2a"),
    ]
}

/// The allocation length cuts the data, and what is told of its length stays.
#[test]
fn data_is_cut(rt: HostRuntime) -> Result<(), Fail> {
    for (cdb, bytes) in short_data() {
        assert!(rt; tells_at(rt.alloc(), 0, cdb, &[], bytes)?, "{cdb:?}");
    }
    Ok(())
}

/// CDB, data-out, and the sense code.
fn faulty_single_acts() -> [([u8; 16], &'static [u8], u8); 6] {
    let none: &'static [u8] = &[];
    let zeros: &'static [u8] = &[0; 7];
    [
        (inquiry(false, 0x83, 36), none, 0x24),
        (inquiry(true, 0x80, 36), none, 0x24),
        (encode(&Cdb::TestUnitReady), zeros, 0x24),
        (lba_status(0, 24), zeros, 0x24),
        (unmap(8), zeros, 0x1a),
        (unmap(7), zeros, 0x1a),
    ]
}

#[test]
fn single_acts_are_refused(rt: HostRuntime) -> Result<(), Fail> {
    for (cdb, out, asc) in faulty_single_acts() {
        assert!(rt; is_refused(rt.alloc(), 0, cdb, out, asc)?, "{cdb:?}");
    }
    Ok(())
}

#[test]
fn an_unmap_is_asked_and_done(rt: HostRuntime) -> Result<(), Fail> {
    let script = [(UNMAP_ASKED, Came::Done)];
    assert!(rt; does_at(rt.alloc(), 1, unmap(31), UNMAP_LIST, &script, GOOD)?);
    Ok(())
}

/// The list of an UNMAP may be empty.
#[test]
fn an_unmap_of_nothing_is_asked(rt: HostRuntime) -> Result<(), Fail> {
    let asked = Seen::Unmap {
        unit: 0,
        ranges: 0,
        first: None,
    };
    let script = [(asked, Came::Full)];
    assert!(rt; does_at(rt.alloc(), 0, unmap(0), &[], &script, Seen::Full)?);
    Ok(())
}

/// GET LBA STATUS with this allocation length tells so much of two mapped and 91 unmapped blocks.
fn tells_runs(alloc: Global, length: u32) -> Result<bool, Fail> {
    let whole =
        b"\0\0\0\x24\0\0\0\0\0\0\0\0\0\0\0\x07\0\0\0\x02\0\0\0\0\0\0\0\0\0\0\0\x09\0\0\0\x5b\x01\0\0\0";
    let script = [(Seen::MapStatus { unit: 0, lba: 7 }, Came::Runs)];
    tells_at(alloc, 0, lba_status(7, length), &script, cut(whole, length))
}

#[test]
fn runs_are_asked_and_told(rt: HostRuntime) -> Result<(), Fail> {
    for length in [0, 4, 24, 25, 40, 1024] {
        assert!(rt; tells_runs(rt.alloc(), length)?, "{length}");
    }
    Ok(())
}
