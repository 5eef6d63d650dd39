// Command descriptor blocks, read and written.
use scsi_cdb::{Cdb, decode, encode};
use scsi_sense::Sense;

/// The bytes of a CDB, and then zeros.
fn padded(cdb: &[u8]) -> [u8; 16] {
    let mut bytes = [0; 16];
    let count = cdb.len().min(16);
    bytes[..count].copy_from_slice(&cdb[..count]);
    bytes
}

/// The bytes ask for this command, and the command is spelled by them where `spelled` says so.
fn agrees(bytes: &[u8], wanted: &Cdb, spelled: bool) -> Result<bool, Sense> {
    let bytes = padded(bytes);
    let cdb = decode(&bytes)?;
    Ok(cdb == *wanted && (!spelled || encode(&cdb) == bytes))
}

fn inquiry(page: u8, length: u16) -> Cdb {
    Cdb::Inquiry {
        evpd: true,
        page,
        length,
    }
}

fn read(lba: u64, count: u32) -> Cdb {
    Cdb::Read { lba, count }
}

fn write(lba: u64, count: u32) -> Cdb {
    Cdb::Write { lba, count }
}

fn populate(id: u32, length: u32) -> Cdb {
    Cdb::PopulateToken { id, length }
}

fn write_using(id: u32, length: u32) -> Cdb {
    Cdb::WriteUsingToken { id, length }
}

fn copy_status(id: u32, length: u32) -> Cdb {
    Cdb::CopyStatus4 { id, length }
}

fn token_information(id: u32, length: u32) -> Cdb {
    Cdb::TokenInformation { id, length }
}

fn reservation(action: u8, scope: u8, kind: u8) -> Cdb {
    Cdb::PersistentOut {
        action,
        scope,
        kind,
        length: 24,
    }
}

fn reservation_report(action: u8, length: u16) -> Cdb {
    Cdb::PersistentIn { action, length }
}

fn lba_status(lba: u64, length: u32) -> Cdb {
    Cdb::GetLbaStatus { lba, length }
}

/// CDBs by SPC-4 and SBC-3 about a unit.
#[test]
fn inquiries_of_the_standards(rt: HostRuntime) -> Result<(), Sense> {
    let sense: &[u8] = b"\x03\0\0\0\x12";
    assert!(rt; agrees(b"\x00", &Cdb::TestUnitReady, true)?);
    assert!(rt; agrees(sense, &Cdb::RequestSense { length: 18 }, true)?);
    assert!(rt; agrees(b"\x12\x01\x83\x01\x00", &inquiry(0x83, 256), true)?);
    assert!(rt; agrees(b"\x25", &Cdb::ReadCapacity10, true)?);
    let capacity: &[u8] = b"\x9e\x10\0\0\0\0\0\0\0\0\0\0\0\x20";
    assert!(rt; agrees(capacity, &Cdb::ReadCapacity16 { length: 32 }, true)?);
    let status: &[u8] = b"\x9e\x12\0\0\0\0\0\0\0\x05\0\0\0\x18";
    assert!(rt; agrees(status, &lba_status(5, 24), true)?);
    let units: &[u8] = b"\xa0\0\x02\0\0\0\0\0\x01\0";
    assert!(rt; agrees(units, &Cdb::ReportLuns { length: 256 }, false)?);
    Ok(())
}

/// CDBs by SBC-3 that read, write and unmap blocks.
#[test]
fn transfers_of_the_standards(rt: HostRuntime) -> Result<(), Sense> {
    let long_read: &[u8] = b"\x88\0\0\0\0\x01\0\0\0\x02\0\0\0\x03";
    let long_write: &[u8] = b"\x8a\0\xff\xff\xff\xff\xff\xff\xff\xff\0\0\x08\0";
    let known: [(&[u8], Cdb, bool); 5] = [
        (
            b"\x28\x18\x12\x34\x56\x78\x1f\x08\x00",
            read(0x1234_5678, 2048),
            false,
        ),
        (long_read, read(0x1_0000_0002, 3), true),
        (b"\x2a\0\0\0\0\x07\0\0\x01", write(7, 1), false),
        (long_write, write(u64::MAX, 2048), true),
        (b"\x42\0\0\0\0\0\0\0\x18", Cdb::Unmap { length: 24 }, true),
    ];
    for (bytes, wanted, spelled) in known {
        assert!(rt; agrees(bytes, &wanted, spelled)?);
    }
    Ok(())
}

/// CDBs by SPC-4 about persistent reservations.
#[test]
fn reservations_of_the_standards(rt: HostRuntime) -> Result<(), Sense> {
    let reserved: &[u8] = b"\x5f\x01\x05\0\0\0\0\0\x18";
    assert!(rt; agrees(reserved, &reservation(0x01, 0, 5), true)?);
    let preempted: &[u8] = b"\x5f\x04\xf6\0\0\0\0\0\x18";
    assert!(rt; agrees(preempted, &reservation(0x04, 15, 6), true)?);
    let keys: &[u8] = b"\x5e\x00\0\0\0\0\0\x01\x00";
    assert!(rt; agrees(keys, &reservation_report(0, 256), true)?);
    let holder: &[u8] = b"\x5e\xe1\xff\xff\xff\xff\xff\0\x18\xfb";
    assert!(rt; agrees(holder, &reservation_report(1, 24), false)?);
    Ok(())
}

/// CDBs by SPC-4 that begin and abort copies.
#[test]
fn copies_of_the_standards(rt: HostRuntime) -> Result<(), Sense> {
    let extended: &[u8] = b"\x83\x00\0\0\0\0\0\0\0\0\0\0\0\x5c";
    assert!(rt; agrees(extended, &Cdb::ExtendedCopy { length: 92 }, true)?);
    let populated: &[u8] = b"\x83\x10\0\0\0\0\xca\xfe\0\x01\0\0\0\x20";
    assert!(rt; agrees(populated, &populate(0xcafe_0001, 32), true)?);
    let written: &[u8] = b"\x83\x11\0\0\0\0\xca\xfe\0\x02\0\0\x02\x28";
    assert!(rt; agrees(written, &write_using(0xcafe_0002, 552), true)?);
    assert!(rt; agrees(b"\x83\x1c\0\0\0\x07", &Cdb::CopyAbort { id: 7 }, true)?);
    Ok(())
}

/// CDBs by SPC-4 that ask about copies.
#[test]
fn reports_of_the_standards(rt: HostRuntime) -> Result<(), Sense> {
    let status: &[u8] = b"\x84\x00\x07\0\0\0\0\0\0\0\0\0\0\x0c";
    assert!(rt; agrees(status, &Cdb::CopyStatus1 { id: 7, length: 12 }, true)?);
    let parameters: &[u8] = b"\x84\x03\0\0\0\0\0\0\0\0\0\0\0\x2e";
    assert!(rt; agrees(parameters, &Cdb::CopyParameters { length: 46 }, true)?);
    let status: &[u8] = b"\x84\x05\0\0\0\x07\0\0\0\0\0\0\0\x20";
    assert!(rt; agrees(status, &copy_status(7, 32), true)?);
    let token: &[u8] = b"\x84\x07\0\0\0\x07\0\0\0\0\0\0\x02\x26";
    assert!(rt; agrees(token, &token_information(7, 550), true)?);
    Ok(())
}

/// The bits above the service action, and all bytes after a CDB of 6, are ignored.
#[test]
fn some_bits_are_ignored(rt: HostRuntime) -> Result<(), Sense> {
    assert!(rt; agrees(b"\x9e\xf0", &Cdb::ReadCapacity16 { length: 0 }, false)?);
    let ready: &[u8] = b"\x00\xff\xff\xff\xff\xfb\xff\xff\xff\xff\xff\xff\xff\xff\xff\xff";
    assert!(rt; agrees(ready, &Cdb::TestUnitReady, false)?);
    Ok(())
}

/// The bytes are refused so.
fn is_refused(bytes: &[u8], sense: Sense) -> bool {
    match decode(&padded(bytes)) {
        Ok(_) => false,
        Err(found) => found == sense,
    }
}

#[test]
fn some_cdbs_are_refused(rt: HostRuntime) {
    // REPORT CAPABILITIES, PREEMPT AND ABORT, a copy service action, READ LONG (16).
    let unknown: [&[u8]; 4] = [b"\x5e\x02", b"\x5f\x05", b"\x83\x1d", b"\x9e\x11"];
    for bytes in unknown {
        assert!(rt; is_refused(bytes, Sense::invalid_operation_code()));
    }
    let bad: [&[u8]; 9] = [
        // NACA, in the last byte of 6, 10, 12 and 16.
        b"\x00\0\0\0\0\x04",
        b"\x25\0\0\0\0\0\0\0\0\x04",
        b"\x5e\0\0\0\0\0\0\0\0\x04",
        b"\xa0\0\0\0\0\0\0\0\0\0\0\x04",
        b"\x84\x03\0\0\0\0\0\0\0\0\0\0\0\0\0\x04",
        // RDPROTECT, 2049 blocks, ANCHOR, DESC.
        b"\x28\x20",
        b"\x8a\0\0\0\0\0\0\0\0\0\0\0\x08\x01",
        b"\x42\x01",
        b"\x03\x01",
    ];
    for bytes in bad {
        assert!(rt; is_refused(bytes, Sense::invalid_field_in_cdb()));
    }
}
