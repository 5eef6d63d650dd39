// The data that tells how an operation goes.
use cm_base::OutOfMemory;
use copy_status::{
    OperationStatus, StatusFields, header, read_token_information, status1, status4,
    token_information,
};
use scsi_sense::Sense;

/// The bytes tell of a POPULATE TOKEN that made this token, of 8 blocks.
fn is_read(bytes: &[u8], token: [u8; 512]) -> bool {
    let Some((fields, read)) = read_token_information(bytes) else {
        return false;
    };
    let is_done = fields.populate() && fields.status() == 0x01 && !fields.running();
    is_done && fields.sense().is_none() && fields.count() == 8 && read == Some(token)
}

/// RECEIVE ROD TOKEN INFORMATION by SPC-4 of a POPULATE TOKEN that made a token of 8 blocks: 546
/// bytes are available.
#[test]
fn made_token_of_the_standard(rt: HostRuntime) -> Result<(), OutOfMemory> {
    let made = StatusFields::new(true, OperationStatus::Completed, 8);
    let token = [0xa5; 512];
    let information = token_information(rt.alloc(), &made, Some(&token))?;
    let bytes = information.as_slice();
    let mut wanted = [0xa5; 550];
    wanted[..38].copy_from_slice(
        b"\x00\x00\x02\x22\x10\x01\0\0\0\0\0\0\0\0\0\xf1\0\0\0\0\0\0\0\x08\0\0\0\0\0\0\0\0\x00\x00\x02\x02\0\0",
    );
    assert!(rt; bytes == wanted.as_slice() && is_read(bytes, token));
    Ok(())
}

/// RECEIVE COPY STATUS by SPC-4: (LID4) of a WRITE USING TOKEN that runs in background, whose
/// status is due in 100 milliseconds, and (LID1).
#[test]
fn copy_status_of_the_standard(rt: HostRuntime) -> Result<(), OutOfMemory> {
    let running = StatusFields::new(false, OperationStatus::Background, 1024);
    let wanted =
        b"\x00\x00\x00\x1c\x11\x12\0\0\0\0\0\x64\0\0\0\xf1\0\0\0\0\0\0\x04\0\0\0\0\0\0\0\0\0";
    assert!(rt; header(&running, 28) == *wanted);
    assert!(rt; status4(rt.alloc(), &running)?.as_slice() == wanted.as_slice());
    let done = b"\0\0\0\x08\x01\0\x02\0\0\x00\x10\x00";
    assert!(rt; status1(0x01, 2, 4096) == *done);
    Ok(())
}

/// A WRITE USING TOKEN that failed, by LBA OUT OF RANGE.
#[test]
fn failure_of_the_standard(rt: HostRuntime) -> Result<(), OutOfMemory> {
    let out_of_range = Sense::new(0x05, 0x21, 0x00);
    let failed = StatusFields::new(false, OperationStatus::Failed(out_of_range), 0);
    let information = token_information(rt.alloc(), &failed, None)?;
    let wanted =
        b"\x00\x00\x00\x32\x11\x02\0\0\0\0\0\0\x02\x12\x12\xf1\0\0\0\0\0\0\0\0\0\0\0\0\0\0\0\0\x70\0\x05\0\0\0\0\x0a\0\0\0\0\x21\0\0\0\0\0\0\0\0\0";
    assert_eq!(rt; information.as_slice(), wanted.as_slice());
    Ok(())
}

/// A status of 03h, 02h without sense, 12h without its delay, one block too many, a byte too few,
/// and a POPULATE TOKEN without token are no status.
#[test]
fn other_bytes_are_no_status(rt: HostRuntime) {
    let written =
        b"\x00\x00\x00\x20\x11\x01\0\0\0\0\0\0\0\0\0\xf1\0\0\0\0\0\x10\0\0\0\0\0\0\0\0\0\0\0\0\0\0";
    assert!(rt; read_token_information(written).is_some());
    for (place, byte) in [
        (5, 0x03),
        (5, 0x02),
        (5, 0x12),
        (23, 0x01),
        (3, 0x1f),
        (4, 0x10),
    ] {
        let mut other = *written;
        other[place] = byte;
        assert!(rt; read_token_information(&other).is_none());
    }
    assert!(rt; read_token_information(&written[..35]).is_none());
}
