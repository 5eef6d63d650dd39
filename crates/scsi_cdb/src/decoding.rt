ghost use Rattle.std.specs.Prelude.{◌≡◌, ◌≤◌, ◌↔◌, slice_index, IsTrue, IsNone, IsSomeAnd, IfSome, IfOk, true};
ghost use Rattle.std.specs.Option.{option_map};
ghost use Rattle.scsi_sense.specs.Codes.{invalid_operation_code, invalid_field_in_cdb};
ghost use Rattle.cm_base.specs.Fields.{byte, field, bit};
ghost use Rattle.scsi_cdb.specs.declared.cdb.Cdb.{Cdb};
ghost use Rattle.scsi_cdb.specs.Encoded.{moved, has_codes};
ghost use Rattle.scsi_cdb.specs.Decoded.{decoded, row_of, has_bad_field, has_fault};
ghost use Rattle.scsi_cdb.specs.inner.Decoded.{command_of, named_by};

use crate::bits::{has_lowest, has_naca, has_protect, kind, scope, service_action};
use crate::cdb::Cdb;
use crate::opcode;
use cm_base::{ReservationAction, get_u16, get_u32, get_u64};
use scsi_sense::Sense;

/// Blocks that one READ or WRITE may move (SBC-3, MAXIMUM TRANSFER LENGTH).
const MAX_TRANSFER_LENGTH: u32 = 2048;

/// The command of a THIRD-PARTY COPY OUT (SPC-4).
fn copy_out(bytes: &[u8; 16]) -> Option<Cdb>
    requires { slice_index bytes.now 0 ≡ 0x83 }
    ensures { result ≡ option_map (command_of bytes.now) (row_of bytes.now) }
{
    let length = get_u32(bytes, 10);
    match service_action(bytes[1]) {
        opcode::EXTENDED_COPY_LID1 => Some(Cdb::ExtendedCopy { length }),
        opcode::POPULATE_TOKEN => Some(Cdb::PopulateToken {
            id: get_u32(bytes, 6),
            length,
        }),
        opcode::WRITE_USING_TOKEN => Some(Cdb::WriteUsingToken {
            id: get_u32(bytes, 6),
            length,
        }),
        opcode::COPY_OPERATION_ABORT => Some(Cdb::CopyAbort {
            id: get_u32(bytes, 2),
        }),
        _ => None,
    }
}

/// The command of a THIRD-PARTY COPY IN (SPC-4).
fn copy_in(bytes: &[u8; 16]) -> Option<Cdb>
    requires { slice_index bytes.now 0 ≡ 0x84 }
    ensures { result ≡ option_map (command_of bytes.now) (row_of bytes.now) }
{
    let length = get_u32(bytes, 10);
    match service_action(bytes[1]) {
        opcode::COPY_STATUS_LID1 => Some(Cdb::CopyStatus1 {
            id: bytes[2],
            length,
        }),
        opcode::COPY_OPERATING_PARAMETERS => Some(Cdb::CopyParameters { length }),
        opcode::COPY_STATUS_LID4 => Some(Cdb::CopyStatus4 {
            id: get_u32(bytes, 2),
            length,
        }),
        opcode::ROD_TOKEN_INFORMATION => Some(Cdb::TokenInformation {
            id: get_u32(bytes, 2),
            length,
        }),
        _ => None,
    }
}

/// The command of a SERVICE ACTION IN (16) (SBC-3).
fn service_action_in(bytes: &[u8; 16]) -> Option<Cdb>
    requires { slice_index bytes.now 0 ≡ 0x9e }
    ensures { result ≡ option_map (command_of bytes.now) (row_of bytes.now) }
{
    let length = get_u32(bytes, 10);
    match service_action(bytes[1]) {
        opcode::READ_CAPACITY_16 => Some(Cdb::ReadCapacity16 { length }),
        opcode::GET_LBA_STATUS => Some(Cdb::GetLbaStatus {
            lba: get_u64(bytes, 2),
            length,
        }),
        _ => None,
    }
}

/// The command of a PERSISTENT RESERVE OUT (SPC-4).
fn persistent_out(bytes: &[u8; 16]) -> Option<Cdb>
    requires { slice_index bytes.now 0 ≡ 0x5f }
    ensures command { result ≡ option_map (command_of bytes.now) (row_of bytes.now) }
    ensures codes { IfSome result (λ cdb. has_codes cdb ≡ true) }
{
    let action = service_action(bytes[1]);
    ReservationAction::from_code(action)?;
    Some(Cdb::PersistentOut {
        action,
        scope: scope(bytes[2]),
        kind: kind(bytes[2]),
        length: get_u32(bytes, 5),
    })
}

/// The command of a PERSISTENT RESERVE IN (SPC-4).
fn persistent_in(bytes: &[u8; 16]) -> Option<Cdb>
    requires { slice_index bytes.now 0 ≡ 0x5e }
    ensures command { result ≡ option_map (command_of bytes.now) (row_of bytes.now) }
    ensures codes { IfSome result (λ cdb. has_codes cdb ≡ true) }
{
    let length = get_u16(bytes, 7);
    match service_action(bytes[1]) {
        action @ (opcode::READ_KEYS | opcode::READ_RESERVATION) => {
            Some(Cdb::PersistentIn { action, length })
        }
        _ => None,
    }
}

fn inquiry(bytes: &[u8; 16]) -> Cdb
    ensures { result ≡ Cdb.Inquiry (bit bytes.now 1 0) (byte bytes.now 2) (field bytes.now 3 4) }
{
    Cdb::Inquiry {
        evpd: has_lowest(bytes[1]),
        page: bytes[2],
        length: get_u16(bytes, 3),
    }
}

/// First block and number of blocks of a READ (10) or WRITE (10).
fn blocks_10(bytes: &[u8; 16]) -> (u64, u32)
    ensures lba { result.0 ≡ field bytes.now 2 5 }
    ensures count { result.1 ≡ field bytes.now 7 8 }
{
    (u64::from(get_u32(bytes, 2)), u32::from(get_u16(bytes, 7)))
}

/// First block and number of blocks of a READ (16) or WRITE (16).
fn blocks_16(bytes: &[u8; 16]) -> (u64, u32)
    ensures lba { result.0 ≡ field bytes.now 2 9 }
    ensures count { result.1 ≡ field bytes.now 10 13 }
{
    (get_u64(bytes, 2), get_u32(bytes, 10))
}

fn read_10(bytes: &[u8; 16]) -> Cdb
    ensures { result ≡ Cdb.Read (field bytes.now 2 5) (field bytes.now 7 8) }
{
    let (lba, count) = blocks_10(bytes);
    Cdb::Read { lba, count }
}

fn write_10(bytes: &[u8; 16]) -> Cdb
    ensures { result ≡ Cdb.Write (field bytes.now 2 5) (field bytes.now 7 8) }
{
    let (lba, count) = blocks_10(bytes);
    Cdb::Write { lba, count }
}

fn read_16(bytes: &[u8; 16]) -> Cdb
    ensures { result ≡ Cdb.Read (field bytes.now 2 9) (field bytes.now 10 13) }
{
    let (lba, count) = blocks_16(bytes);
    Cdb::Read { lba, count }
}

fn write_16(bytes: &[u8; 16]) -> Cdb
    ensures { result ≡ Cdb.Write (field bytes.now 2 9) (field bytes.now 10 13) }
{
    let (lba, count) = blocks_16(bytes);
    Cdb::Write { lba, count }
}

/// The command, and the CONTROL byte of its CDB.
fn command(bytes: &[u8; 16]) -> Option<(Cdb, u8)>
    ensures codes { IfSome result (λ named. has_codes named.0 ≡ true) }
    ensures command { result ≡ option_map (named_by bytes.now) (row_of bytes.now) }
{
    match bytes[0] {
        opcode::TEST_UNIT_READY => Some((Cdb::TestUnitReady, bytes[5])),
        opcode::REQUEST_SENSE => Some((Cdb::RequestSense { length: bytes[4] }, bytes[5])),
        opcode::INQUIRY => Some((inquiry(bytes), bytes[5])),
        opcode::READ_CAPACITY_10 => Some((Cdb::ReadCapacity10, bytes[9])),
        opcode::READ_10 => Some((read_10(bytes), bytes[9])),
        opcode::WRITE_10 => Some((write_10(bytes), bytes[9])),
        opcode::UNMAP => Some((
            Cdb::Unmap {
                length: get_u16(bytes, 7),
            },
            bytes[9],
        )),
        opcode::PERSISTENT_RESERVE_IN => Some((persistent_in(bytes)?, bytes[9])),
        opcode::PERSISTENT_RESERVE_OUT => Some((persistent_out(bytes)?, bytes[9])),
        opcode::THIRD_PARTY_COPY_OUT => Some((copy_out(bytes)?, bytes[15])),
        opcode::THIRD_PARTY_COPY_IN => Some((copy_in(bytes)?, bytes[15])),
        opcode::READ_16 => Some((read_16(bytes), bytes[15])),
        opcode::WRITE_16 => Some((write_16(bytes), bytes[15])),
        opcode::SERVICE_ACTION_IN_16 => Some((service_action_in(bytes)?, bytes[15])),
        opcode::REPORT_LUNS => Some((
            Cdb::ReportLuns {
                length: get_u32(bytes, 6),
            },
            bytes[11],
        )),
        _ => None,
    }
}

/// A field that is judged is not as it must be.
fn has_bad_field(bytes: &[u8; 16], cdb: &Cdb) -> bool
    ensures { result ≡ has_bad_field bytes.now cdb.now }
{
    match *cdb {
        Cdb::Read { count, .. } | Cdb::Write { count, .. } => {
            has_protect(bytes[1]) || count > MAX_TRANSFER_LENGTH
        }
        Cdb::Unmap { .. } | Cdb::RequestSense { .. } => has_lowest(bytes[1]),
        _ => false,
    }
}

/// What a CDB asks for; what follows a shorter CDB in the 16 bytes is ignored.
///
/// It is refused with INVALID COMMAND OPERATION CODE exactly where its operation code or service
/// action is not of this profile. Otherwise it is refused with INVALID FIELD IN CDB exactly where
/// NACA is set, a READ or WRITE has a protect field other than 0 or more than 2048 blocks, UNMAP
/// has ANCHOR, or REQUEST SENSE has DESC. Group numbers, DPO, FUA, SELECT REPORT and all other bits
/// are ignored.
pub fn decode(bytes: &[u8; 16]) -> Result<Cdb, Sense>
    ensures table { result ≡ decoded bytes.now }
    ensures unknown { (result ≡ Err invalid_operation_code) ↔ IsNone (row_of bytes.now) }
    ensures fault { (result ≡ Err invalid_field_in_cdb)
        ↔ IsSomeAnd (row_of bytes.now) (λ r. IsTrue (has_fault bytes.now r)) }
    ensures few_blocks { IfOk result (λ cdb. moved cdb ≤ 2048) }
    ensures codes { IfOk result (λ cdb. has_codes cdb ≡ true) }
{
    let Some((cdb, control)) = command(bytes) else {
        return Err(Sense::invalid_operation_code());
    };
    if has_naca(control) || has_bad_field(bytes, &cdb) {
        return Err(Sense::invalid_field_in_cdb());
    }
    Ok(cdb)
}
