ghost use Rattle.std.specs.Prelude.{◌≡◌, ◌≤◌, ◌++◌, ◌∷◌, ◌<◌, [], Ok, true};
ghost use Rattle.byteorder.specs.Endian.{big_bytes};
ghost use Rattle.cm_base.specs.Fields.{zeros};
ghost use Rattle.scsi_cdb.specs.declared.cdb.Cdb.{Cdb};
ghost use Rattle.scsi_cdb.specs.Decoded.{decoded};
ghost use Rattle.scsi_cdb.specs.Encoded.{encoded, has_codes, moved};

use crate::cdb::Cdb;
use crate::opcode;
use cm_base::{set_u16, set_u32, set_u64};

/// A CDB of which nothing but operation code and service action is set.
fn bare(code: u8, action: u8) -> [u8; 16]
    ensures { result ≡ code ∷ action ∷ zeros 14 }
{
    let mut bytes = [0; 16];
    bytes[0] = code;
    bytes[1] = action;
    bytes
}

/// A CDB of 16 bytes with a length, or with a first block and a number of blocks.
fn with_lba(code: u8, action: u8, lba: u64, length: u32) -> [u8; 16]
    ensures { result ≡ code ∷ action ∷ big_bytes 8 lba ++ big_bytes 4 length ++ zeros 2 }
{
    let mut bytes = bare(code, action);
    set_u64(&mut bytes, 2, lba);
    set_u32(&mut bytes, 10, length);
    bytes
}

/// A CDB of 16 bytes with a length and no first block.
fn with_length(code: u8, action: u8, length: u32) -> [u8; 16]
    ensures { result ≡ code ∷ action ∷ zeros 8 ++ big_bytes 4 length ++ zeros 2 }
{
    let mut bytes = bare(code, action);
    set_u32(&mut bytes, 10, length);
    bytes
}

/// A CDB of THIRD-PARTY COPY OUT for a token: the LIST IDENTIFIER stands in bytes 6 to 9.
fn for_token(action: u8, id: u32, length: u32) -> [u8; 16]
    ensures { result ≡ 0x83 ∷ action ∷ zeros 4 ++ big_bytes 4 id ++ big_bytes 4 length ++ zeros 2 }
{
    let mut bytes = with_length(opcode::THIRD_PARTY_COPY_OUT, action, length);
    set_u32(&mut bytes, 6, id);
    bytes
}

/// A CDB about an operation: the LIST IDENTIFIER stands in bytes 2 to 5.
fn for_operation(code: u8, action: u8, id: u32, length: u32) -> [u8; 16]
    ensures { result ≡ code ∷ action ∷ big_bytes 4 id ++ zeros 4 ++ big_bytes 4 length ++ zeros 2 }
{
    let mut bytes = with_length(code, action, length);
    set_u32(&mut bytes, 2, id);
    bytes
}

fn request_sense(length: u8) -> [u8; 16]
    ensures { result ≡ encoded (Cdb.RequestSense length) }
{
    let mut bytes = bare(opcode::REQUEST_SENSE, 0);
    bytes[4] = length;
    bytes
}

fn inquiry(evpd: bool, page: u8, length: u16) -> [u8; 16]
    ensures { result ≡ encoded (Cdb.Inquiry evpd page length) }
{
    let mut bytes = bare(opcode::INQUIRY, u8::from(evpd));
    bytes[2] = page;
    set_u16(&mut bytes, 3, length);
    bytes
}

fn unmap(length: u16) -> [u8; 16]
    ensures { result ≡ encoded (Cdb.Unmap length) }
{
    let mut bytes = bare(opcode::UNMAP, 0);
    set_u16(&mut bytes, 7, length);
    bytes
}

fn report_luns(length: u32) -> [u8; 16]
    ensures { result ≡ encoded (Cdb.ReportLuns length) }
{
    let mut bytes = bare(opcode::REPORT_LUNS, 0);
    set_u32(&mut bytes, 6, length);
    bytes
}

fn persistent_in(action: u8, length: u16) -> [u8; 16]
    ensures { result ≡ encoded (Cdb.PersistentIn action length) }
{
    let mut bytes = bare(opcode::PERSISTENT_RESERVE_IN, action);
    set_u16(&mut bytes, 7, length);
    bytes
}

fn persistent_out(action: u8, scope: u8, kind: u8, length: u32) -> [u8; 16]
    requires scope { scope < 16 }
    requires kind { kind < 16 }
    ensures { result ≡ encoded (Cdb.PersistentOut action scope kind length) }
{
    let mut bytes = bare(opcode::PERSISTENT_RESERVE_OUT, action);
    bytes[2] = 16 * scope + kind;
    set_u32(&mut bytes, 5, length);
    bytes
}

fn copy_status_1(id: u8, length: u32) -> [u8; 16]
    ensures { result ≡ encoded (Cdb.CopyStatus1 id length) }
{
    let mut bytes = with_length(
        opcode::THIRD_PARTY_COPY_IN,
        opcode::COPY_STATUS_LID1,
        length,
    );
    bytes[2] = id;
    bytes
}

fn extended_copy(length: u32) -> [u8; 16]
    ensures { result ≡ encoded (Cdb.ExtendedCopy length) }
{
    let action = opcode::EXTENDED_COPY_LID1;
    with_length(opcode::THIRD_PARTY_COPY_OUT, action, length)
}

fn copy_abort(id: u32) -> [u8; 16]
    ensures { result ≡ encoded (Cdb.CopyAbort id) }
{
    let action = opcode::COPY_OPERATION_ABORT;
    for_operation(opcode::THIRD_PARTY_COPY_OUT, action, id, 0)
}

fn copy_parameters(length: u32) -> [u8; 16]
    ensures { result ≡ encoded (Cdb.CopyParameters length) }
{
    let action = opcode::COPY_OPERATING_PARAMETERS;
    with_length(opcode::THIRD_PARTY_COPY_IN, action, length)
}

fn copy_status_4(id: u32, length: u32) -> [u8; 16]
    ensures { result ≡ encoded (Cdb.CopyStatus4 id length) }
{
    let action = opcode::COPY_STATUS_LID4;
    for_operation(opcode::THIRD_PARTY_COPY_IN, action, id, length)
}

fn token_information(id: u32, length: u32) -> [u8; 16]
    ensures { result ≡ encoded (Cdb.TokenInformation id length) }
{
    let action = opcode::ROD_TOKEN_INFORMATION;
    for_operation(opcode::THIRD_PARTY_COPY_IN, action, id, length)
}

/// How a command is spelled: READ and WRITE in 16 bytes, the others in their only form, a shorter
/// CDB being followed by zeros. Every bit that is not named is zero.
pub fn encode(cdb: &Cdb) -> [u8; 16]
    requires few_blocks { moved cdb.now ≤ 2048 }
    requires codes { has_codes cdb.now ≡ true }
    ensures spelled { result ≡ encoded cdb.now }
    ensures read_back { decoded result ≡ Ok cdb.now }
{
    use opcode::SERVICE_ACTION_IN_16 as IN_16;
    match *cdb {
        Cdb::TestUnitReady => bare(opcode::TEST_UNIT_READY, 0),
        Cdb::RequestSense { length } => request_sense(length),
        Cdb::Inquiry { evpd, page, length } => inquiry(evpd, page, length),
        Cdb::Read { lba, count } => with_lba(opcode::READ_16, 0, lba, count),
        Cdb::Write { lba, count } => with_lba(opcode::WRITE_16, 0, lba, count),
        Cdb::Unmap { length } => unmap(length),
        Cdb::ReadCapacity10 => bare(opcode::READ_CAPACITY_10, 0),
        Cdb::ReportLuns { length } => report_luns(length),
        Cdb::PersistentIn { action, length } => persistent_in(action, length),
        Cdb::PersistentOut {
            action,
            scope,
            kind,
            length,
        } => persistent_out(action, scope, kind, length),
        Cdb::ReadCapacity16 { length } => with_length(IN_16, opcode::READ_CAPACITY_16, length),
        Cdb::GetLbaStatus { lba, length } => with_lba(IN_16, opcode::GET_LBA_STATUS, lba, length),
        Cdb::ExtendedCopy { length } => extended_copy(length),
        Cdb::PopulateToken { id, length } => for_token(opcode::POPULATE_TOKEN, id, length),
        Cdb::WriteUsingToken { id, length } => for_token(opcode::WRITE_USING_TOKEN, id, length),
        Cdb::CopyAbort { id } => copy_abort(id),
        Cdb::CopyStatus1 { id, length } => copy_status_1(id, length),
        Cdb::CopyParameters { length } => copy_parameters(length),
        Cdb::CopyStatus4 { id, length } => copy_status_4(id, length),
        Cdb::TokenInformation { id, length } => token_information(id, length),
    }
}
