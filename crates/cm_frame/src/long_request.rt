ghost use Rattle.std.specs.Prelude.{◌≡◌, ◌+◌, ◌≤◌, ◌<◌, ◌++◌, [], ℕ, List, length, take, Some, None, IfOk, IfSome, IfNone, OnOk, OnErr};
ghost use Rattle.std.specs.Option.{ForSome};
ghost use Rattle.cm_frame.specs.Grammar.{data_limit};
ghost use Rattle.cm_frame.specs.inner.DataOut.{IsFront, so_far, read_as};
ghost use Rattle.cm_frame.specs.Reading.{read_request};

use crate::frame::Request;
use crate::request::{DATA_LIMIT, FRONT};
use cm_base::{InputBuffer, OutOfMemory, Payload, get_u16, get_u32};
use std::mem;

/// Bytes from which on a data-out is long: as many as a pipe holds.
const LONG: u32 = 65_536;

/// Bytes of the data-out of the request that stands at the front of some bytes, if they are many.
pub(crate) fn long_data(bytes: &[u8]) -> Option<usize>
    ensures there { IfSome result (λ wanted. 22 ≤ length bytes.now) }
    ensures front { IfSome result (λ wanted. IsFront (take 22 bytes.now) wanted) }
{
    if bytes.len() < FRONT {
        return None;
    }
    let wanted = get_u32(bytes, 0);
    if wanted < LONG || wanted > DATA_LIMIT {
        return None;
    }
    Some(wanted as usize)
}

/// Adds bytes to a data-out. Where there is too little room, it makes twice as much, but no more than
/// is wanted in all. So a sender takes no more memory than for twice the bytes that it sent.
fn add(come: &mut Vec<u8>, more: &[u8], wanted: usize) -> Result<(), OutOfMemory>
    ensures ok { OnOk result (come.new.items ≡ come.old.items ++ more.now) }
    ensures err { OnErr result (come.new.items ≡ come.old.items) }
{
    let needed = come.len() + more.len();
    let room = come.capacity();
    if needed > room {
        let length = room.saturating_mul(2).min(wanted).max(needed);
        come.reserve_exact(length - come.len())?;
    }
    come.extend_from_slice(more)?;
    Ok(())
}

/// A request with a long data-out, which is copied into its payload as it comes. So the next bytes
/// come while these are copied, and no buffer of its length is wanted beside it.
#[derive(Drop)]
pub(crate) struct LongRequest {
    /// The bytes before the data-out.
    front: [u8; FRONT],
    /// Bytes of the data-out in all.
    wanted: usize,
    /// The data-out so far, while more is to come.
    come: Vec<u8>,
    /// All of it.
    whole: Option<Payload>,
    ghost is_front: { IsFront front wanted },
    ghost few: { length (so_far whole come.items) ≤ wanted },
    ghost all: { ForSome whole (λ bytes. length bytes ≡ wanted) },
}

impl LongRequest {
    ghost use Rattle.cm_frame.specs.inner.Gathering.{gathered, HasTaken};

    /// Begins the request at the front, whose data-out is long. The data goes into `room`, which is
    /// empty and grows where it must.
    pub(crate) fn begin(rest: &mut InputBuffer, wanted: usize, room: Vec<u8>) -> LongRequest
        requires there { 22 ≤ length rest.old }
        requires front { IsFront (take 22 rest.old) wanted }
        requires empty { room.items ≡ [] }
        ensures same { gathered result ++ rest.new ≡ rest.old }
    {
        let mut front = [0; FRONT];
        front.copy_from_slice(&rest.as_slice()[..FRONT]);
        rest.consume(FRONT);
        LongRequest {
            front,
            wanted,
            come: room,
            whole: None,
        }
    }

    /// Bytes of the request in all.
    pub(crate) fn len(&self) -> usize
        ensures { result ≡ 22 + self.now.wanted }
    {
        FRONT + self.wanted
    }

    /// Bytes of the data-out that are still to come.
    pub(crate) fn missing(&self) -> usize
        ensures { result + length (so_far self.now.whole self.now.come.items) ≡ self.now.wanted }
    {
        match &self.whole {
            Some(_) => 0,
            None => self.wanted - self.come.len(),
        }
    }

    /// Takes what waits of the data-out.
    pub(crate) fn gather(&mut self, rest: &mut InputBuffer) -> Result<(), OutOfMemory>
        ensures same { gathered self.new ++ rest.new ≡ gathered self.old ++ rest.old }
        ensures taken { OnOk result (HasTaken self.new rest.new) }
    {
        let waits = rest.as_slice();
        let count = waits.len().min(self.missing());
        add(&mut self.come, &waits[..count], self.wanted)?;
        rest.consume(count);
        Ok(())
    }

    /// The request, if all of its data-out has come.
    pub(crate) fn request(&mut self) -> Result<Option<Request>, OutOfMemory>
        ensures same { gathered self.new ≡ gathered self.old }
        ensures wanted { self.new.wanted ≡ self.old.wanted }
        ensures value { (rest : List ℕ) → HasTaken self.old rest
            → IfOk result (λ found. read_request (gathered self.old ++ rest) ≡ read_as found self.old.wanted) }
        ensures all { IfOk result (λ found. IfSome found (λ request. length (gathered self.old) ≡ 22 + self.old.wanted)) }
    {
        let Some(out) = self.out()? else {
            return Ok(None);
        };
        let mut cdb = [0; 16];
        cdb.copy_from_slice(&self.front[6..FRONT]);
        Ok(Some(Request {
            unit: get_u16(&self.front, 4),
            cdb,
            out,
        }))
    }

    /// The data-out, if all of it has come.
    fn out(&mut self) -> Result<Option<Payload>, OutOfMemory>
        ensures same { gathered self.new ≡ gathered self.old }
        ensures front { (self.new.front ≡ self.old.front) × (self.new.wanted ≡ self.old.wanted) }
        ensures whole { IfOk result (λ found. IfSome found (λ out. (out ≡ so_far self.old.whole self.old.come.items)
            × (length out ≡ self.old.wanted))) }
        ensures part { IfOk result (λ found. IfNone found (length (so_far self.old.whole self.old.come.items) < self.old.wanted)) }
    {
        if self.whole.is_none() && self.come.len() == self.wanted {
            self.settle()?;
        }
        match &self.whole {
            Some(whole) => Ok(Some(whole.clone()?)),
            None => Ok(None),
        }
    }

    /// Makes a payload of the data-out, all of which has come. It copies no byte.
    fn settle(&mut self) -> Result<(), OutOfMemory>
        requires open { self.old.whole ≡ None }
        requires all { length self.old.come.items ≡ self.old.wanted }
        ensures same { gathered self.new ≡ gathered self.old }
        ensures front { (self.new.front ≡ self.old.front) × (self.new.wanted ≡ self.old.wanted) }
        ensures whole { OnOk result (self.new.whole ≡ Some self.old.come.items) }
    {
        let none = Vec::new(*self.come.allocator());
        match Payload::from_vec(mem::replace(&mut self.come, none)) {
            Ok(whole) => {
                self.whole = Some(whole);
                Ok(())
            }
            Err(failed) => {
                self.come = failed.value;
                Err(OutOfMemory)
            }
        }
    }
}
