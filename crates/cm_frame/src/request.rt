ghost use Rattle.std.specs.Prelude.{◌≡◌, ◌≤◌, ◌++◌, length, IfOk, OnOk};
ghost use Rattle.cm_frame.specs.Grammar.{data_limit, IsRequest, request_bytes};
ghost use Rattle.cm_frame.specs.Reading.{read_request};
ghost use Rattle.cm_frame.specs.Laws.{IfWhole};

use crate::frame::Request;
use cm_base::{Bytes, OutOfMemory, Parsed, Payload, get_u16, get_u32};
use std::alloc::Global;

/// Bytes of data that one frame may have.
pub const DATA_LIMIT: u32 = 8_388_608;

/// Bytes of a request before its data.
pub(crate) const FRONT: usize = 22;

/// Reads the request at the front of some bytes (own profile): the length of the data-out, the
/// unit, 16 bytes of CDB, and the data.
///
/// `Bad` at place 0 where the data is longer than a frame may have, judged as soon as the four
/// bytes of its length are there. Memory is taken only for the data of a request that is whole.
pub fn read_request(alloc: Global, bytes: &[u8]) -> Result<Parsed<Request>, OutOfMemory>
    ensures value { IfOk result (λ p. p ≡ read_request bytes.now) }
    ensures within { IfOk result (λ p. IfWhole p (λ request used. used ≤ length bytes.now)) }
    ensures fits { IfOk result (λ p. IfWhole p (λ request used. IsRequest request)) }
{
    if bytes.len() < 4 {
        return Ok(Parsed::Short);
    }
    let length = get_u32(bytes, 0);
    if length > DATA_LIMIT {
        return Ok(Parsed::Bad { place: 0 });
    }
    let used = FRONT + length as usize;
    if bytes.len() < used {
        return Ok(Parsed::Short);
    }
    let out = Payload::copy_from_slice(alloc, &bytes[FRONT..used])?;
    let mut cdb = [0; 16];
    cdb.copy_from_slice(&bytes[6..FRONT]);
    let value = Request {
        unit: get_u16(bytes, 4),
        cdb,
        out,
    };
    Ok(Parsed::Whole { value, used })
}

/// Spells a request.
pub fn write_request(alloc: Global, request: &Request) -> Result<Bytes, OutOfMemory>
    requires { length request.now.out ≤ data_limit }
    ensures { IfOk result (λ bytes. bytes ≡ request_bytes request.now) }
{
    let mut bytes = Bytes::empty(alloc);
    append_request(&mut bytes, request)?;
    Ok(bytes)
}

/// Spells a request at the end of some bytes.
pub(crate) fn append_request(bytes: &mut Bytes, request: &Request) -> Result<(), OutOfMemory>
    requires { length request.now.out ≤ data_limit }
    ensures { OnOk result (bytes.new ≡ bytes.old ++ request_bytes request.now) }
{
    let length = request.out.len() as u32;
    bytes.extend(&length.to_be_bytes())?;
    bytes.extend(&request.unit.to_be_bytes())?;
    bytes.extend(&request.cdb)?;
    bytes.extend(request.out.as_slice())
}
