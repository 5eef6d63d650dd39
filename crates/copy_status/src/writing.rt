ghost use Rattle.std.specs.Prelude.{◌≡◌, ◌+◌, ◌<◌, ◌^◌, ◌++◌, length, is_some, IfOk};
ghost use Rattle.std.specs.Option.{option_copied};
ghost use Rattle.copy_status.specs.StatusBytes.{header_bytes, sense_data, status1_bytes, status4_bytes, information_bytes};

use crate::fields::StatusFields;
use cm_base::{Bytes, OutOfMemory, set_u16, set_u32, set_u64};
use std::alloc::Global;

/// RESPONSE TO SERVICE ACTION of a POPULATE TOKEN and of a WRITE USING TOKEN.
pub(crate) const POPULATE_TOKEN: u8 = 0x10;

const WRITE_USING_TOKEN: u8 = 0x11;

/// ESTIMATED STATUS UPDATE DELAY while an operation runs, in milliseconds.
const DELAY: u32 = 100;

/// COMPLETION STATUS of an operation that failed.
const CHECK_CONDITION: u8 = 0x02;

/// TRANSFER COUNT UNITS: the count is one of logical blocks.
const LOGICAL_BLOCKS: u8 = 0xf1;

/// A token descriptor's length of 514 bytes, and the two zero bytes before the token.
pub(crate) const TOKEN_HEAD: [u8; 6] = [0, 0, 0x02, 0x02, 0, 0];

/// A token descriptors' length of no bytes.
pub(crate) const NO_TOKEN: [u8; 4] = [0; 4];

/// The first 32 bytes of the status of a token operation; `available` is AVAILABLE DATA, the bytes
/// that follow the first four.
pub fn header(fields: &StatusFields, available: u32) -> [u8; 32]
    ensures { result ≡ header_bytes fields.now available }
{
    let mut bytes = [0; 32];
    set_u32(&mut bytes, 0, available);
    bytes[4] = if fields.populate() {
        POPULATE_TOKEN
    } else {
        WRITE_USING_TOKEN
    };
    bytes[5] = fields.status();
    if fields.running() {
        set_u32(&mut bytes, 8, DELAY);
    }
    if fields.sense().is_some() {
        bytes[12] = CHECK_CONDITION;
        bytes[13] = 18;
        bytes[14] = 18;
    }
    bytes[15] = LOGICAL_BLOCKS;
    set_u64(&mut bytes, 16, fields.count());
    bytes
}

/// The data of a RECEIVE COPY STATUS (LID1): a copy's state, the segments that were done, and the
/// bytes that were moved.
pub fn status1(state: u8, segments: u16, bytes: u32) -> [u8; 12]
    ensures { result ≡ status1_bytes state segments bytes }
{
    let mut data = [0; 12];
    set_u32(&mut data, 0, 8);
    data[4] = state;
    set_u16(&mut data, 5, segments);
    set_u32(&mut data, 8, bytes);
    data
}

/// The header and the sense, which `after` more bytes will follow.
fn with_sense(alloc: Global, fields: &StatusFields, after: u32) -> Result<Bytes, OutOfMemory>
    requires { after < 2 ^ 31 }
    ensures { IfOk result (λ bytes. bytes
        ≡ header_bytes fields.now (28 + length (sense_data fields.now.sense) + after) ++ sense_data fields.now.sense) }
{
    match fields.sense() {
        Some(sense) => {
            let mut bytes = Bytes::copy(alloc, &header(fields, 46 + after))?;
            bytes.extend(&sense.to_bytes())?;
            Ok(bytes)
        }
        None => Bytes::copy(alloc, &header(fields, 28 + after)),
    }
}

/// The data of a RECEIVE COPY STATUS (LID4) (SPC-4).
pub fn status4(alloc: Global, fields: &StatusFields) -> Result<Bytes, OutOfMemory>
    ensures { IfOk result (λ bytes. bytes ≡ status4_bytes fields.now) }
{
    with_sense(alloc, fields, 0)
}

/// The data of a RECEIVE ROD TOKEN INFORMATION (SPC-4): with the token exactly where the operation
/// is a POPULATE TOKEN.
pub fn token_information(
    alloc: Global,
    fields: &StatusFields,
    token: Option<&[u8; 512]>,
) -> Result<Bytes, OutOfMemory>
    requires { is_some token ≡ fields.now.populate }
    ensures { IfOk result (λ bytes. bytes ≡ information_bytes fields.now (option_copied token.entry)) }
{
    match token {
        Some(token) => {
            let mut bytes = with_sense(alloc, fields, 518)?;
            bytes.extend(&TOKEN_HEAD)?;
            bytes.extend(token)?;
            Ok(bytes)
        }
        None => {
            let mut bytes = with_sense(alloc, fields, 4)?;
            bytes.extend(&NO_TOKEN)?;
            Ok(bytes)
        }
    }
}
