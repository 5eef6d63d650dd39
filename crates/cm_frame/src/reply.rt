ghost use Rattle.std.specs.Prelude.{◌≡◌, ◌≤◌, ◌++◌, length, IfOk};
ghost use Rattle.cm_base.specs.Fields.{field};
ghost use Rattle.cm_frame.specs.Grammar.{data_limit, IsReply, reply_bytes, reply_body, data_in};
ghost use Rattle.cm_frame.specs.Reading.{is_status, bare_reply, read_reply, read_good, read_check};
ghost use Rattle.cm_frame.specs.Laws.{IfWhole};

use crate::frame::Reply;
use crate::request::DATA_LIMIT;
use cm_base::{Bytes, OutOfMemory, Parsed, Payload, get_u32};
use scsi_sense::Sense;
use std::alloc::Global;

// Status codes (SAM-5, Status codes).
const GOOD: u8 = 0x00;

const CHECK_CONDITION: u8 = 0x02;

const BUSY: u8 = 0x08;

const RESERVATION_CONFLICT: u8 = 0x18;

const TASK_SET_FULL: u8 = 0x28;

/// Bytes of a sense.
const SENSE: u8 = 18;

/// Bytes of a reply before its sense or its data.
const FRONT: usize = 6;

/// The status of a reply.
fn is_status(status: u8) -> bool
    ensures { result ≡ is_status status }
{
    matches!(
        status,
        GOOD | CHECK_CONDITION | BUSY | RESERVATION_CONFLICT | TASK_SET_FULL
    )
}

/// The reply of a status behind which there is neither sense nor data.
fn bare_reply(status: u8) -> Reply
    ensures { result ≡ bare_reply status }
{
    match status {
        BUSY => Reply::Busy,
        RESERVATION_CONFLICT => Reply::Conflict,
        _ => Reply::Full,
    }
}

/// Reads the reply at the front of some bytes (own profile): its status, the lengths of its sense
/// and of its data, and then these.
///
/// When six bytes are there, `Bad` at place 0 for another status, at place 1 for a length of sense
/// that the status does not have, and at place 2 for such a length of data; and at place 6 for 18
/// bytes that spell no sense. Memory is taken only for the data of a reply that is whole.
pub fn read_reply(alloc: Global, bytes: &[u8]) -> Result<Parsed<Reply>, OutOfMemory>
    ensures value { IfOk result (λ p. p ≡ read_reply bytes.now) }
    ensures within { IfOk result (λ p. IfWhole p (λ reply used. used ≤ length bytes.now)) }
    ensures fits { IfOk result (λ p. IfWhole p (λ reply used. IsReply reply)) }
{
    if bytes.len() < FRONT {
        return Ok(Parsed::Short);
    }
    let status = bytes[0];
    if !is_status(status) {
        return Ok(Parsed::Bad { place: 0 });
    }
    let sense = if status == CHECK_CONDITION { SENSE } else { 0 };
    if bytes[1] != sense {
        return Ok(Parsed::Bad { place: 1 });
    }
    let limit = if status == GOOD { DATA_LIMIT } else { 0 };
    if get_u32(bytes, 2) > limit {
        return Ok(Parsed::Bad { place: 2 });
    }
    match status {
        GOOD => read_good(alloc, bytes),
        CHECK_CONDITION => Ok(read_check(bytes)),
        _ => Ok(Parsed::Whole {
            value: bare_reply(status),
            used: FRONT,
        }),
    }
}

fn read_good(alloc: Global, bytes: &[u8]) -> Result<Parsed<Reply>, OutOfMemory>
    requires front { 6 ≤ length bytes.now }
    requires limit { field bytes.now 2 5 ≤ data_limit }
    ensures value { IfOk result (λ p. p ≡ read_good bytes.now) }
    ensures fits { IfOk result (λ p. IfWhole p (λ reply used. IsReply reply)) }
{
    let used = FRONT + get_u32(bytes, 2) as usize;
    if bytes.len() < used {
        return Ok(Parsed::Short);
    }
    let value = Reply::Good(Payload::copy_from_slice(alloc, &bytes[FRONT..used])?);
    Ok(Parsed::Whole { value, used })
}

fn read_check(bytes: &[u8]) -> Parsed<Reply>
    ensures value { result ≡ read_check bytes.now }
    ensures within { IfWhole result (λ reply used. used ≤ length bytes.now) }
    ensures fits { IfWhole result (λ reply used. IsReply reply) }
{
    if bytes.len() < 24 {
        return Parsed::Short;
    }
    match Sense::from_bytes(&bytes[FRONT..24]) {
        Some(sense) => Parsed::Whole {
            value: Reply::Check(sense),
            used: 24,
        },
        None => Parsed::Bad { place: 6 },
    }
}

/// The status and the lengths of a reply: all of its bytes but its sense and its data.
pub fn reply_head(reply: &Reply) -> [u8; 6]
    requires { length (data_in reply.now) ≤ data_limit }
    ensures { reply_bytes reply.now ≡ result ++ reply_body reply.now }
{
    match reply {
        Reply::Good(data) => {
            let [a, b, c, d] = (data.len() as u32).to_be_bytes();
            [GOOD, 0, a, b, c, d]
        }
        Reply::Check(_) => [CHECK_CONDITION, SENSE, 0, 0, 0, 0],
        Reply::Busy => [BUSY, 0, 0, 0, 0, 0],
        Reply::Conflict => [RESERVATION_CONFLICT, 0, 0, 0, 0, 0],
        Reply::Full => [TASK_SET_FULL, 0, 0, 0, 0, 0],
    }
}

/// Spells a reply.
pub fn write_reply(alloc: Global, reply: &Reply) -> Result<Bytes, OutOfMemory>
    requires { length (data_in reply.now) ≤ data_limit }
    ensures { IfOk result (λ bytes. bytes ≡ reply_bytes reply.now) }
{
    let mut bytes = Bytes::copy(alloc, &reply_head(reply))?;
    match reply {
        Reply::Good(data) => bytes.extend(data.as_slice())?,
        Reply::Check(sense) => bytes.extend(&sense.to_bytes())?,
        Reply::Busy | Reply::Conflict | Reply::Full => {}
    }
    Ok(bytes)
}
