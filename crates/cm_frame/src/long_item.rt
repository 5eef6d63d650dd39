ghost use Rattle.std.specs.Prelude.{◌≡◌, ◌+◌, ◌≤◌, ◌++◌, ℕ, List, length, take, drop, IfOk, IfSome, OnOk, OnErr};
ghost use Rattle.cm_frame.specs.inner.DataOut.{IsFront, IsStart, so_far};
ghost use Rattle.cm_frame.specs.Reading.{read_item};

use crate::item::{START, TraceItem};
use crate::long_request::{LongRequest, long_data};
use crate::memory::Memory;
use cm_base::{InputBuffer, OutOfMemory, Parsed, get_u32, get_u64};

/// Bytes of the data-out of the item that stands at the front of some bytes, if they are many.
fn long_item_data(bytes: &[u8]) -> Option<usize>
    ensures there { IfSome result (λ wanted. 35 ≤ length bytes.now) }
    ensures start { IfSome result (λ wanted. IsStart (take 13 bytes.now)) }
    ensures front { IfSome result (λ wanted. IsFront (take 22 (drop 13 bytes.now)) wanted) }
{
    if bytes.len() < START || bytes[0] != 1 {
        return None;
    }
    long_data(&bytes[START..])
}

/// An item that begins a command whose data-out is long.
#[derive(Drop)]
pub(crate) struct LongItem {
    /// The bytes before the request.
    start: [u8; START],
    request: LongRequest,
    ghost is_start: { IsStart start },
}

impl LongItem {
    ghost use Rattle.cm_frame.specs.inner.Gathering.{gathered, gathered_item, begun_item, HasTaken};

    /// Begins the item at the front, if its data-out is long.
    pub(crate) fn begin<M: Memory>(
        memory: &mut M,
        rest: &mut InputBuffer,
    ) -> Result<Option<LongItem>, OutOfMemory>
        ensures same { IfOk result (λ long. begun_item long ++ rest.new ≡ rest.old) }
        ensures err { OnErr result (rest.new ≡ rest.old) }
    {
        let bytes = rest.as_slice();
        let Some(wanted) = long_item_data(bytes) else {
            return Ok(None);
        };
        let room = memory.room(wanted)?;
        let mut start = [0; START];
        start.copy_from_slice(&bytes[..START]);
        rest.consume(START);
        let request = LongRequest::begin(rest, wanted, room);
        Ok(Some(LongItem { start, request }))
    }

    /// Bytes of the data-out that are still to come.
    pub(crate) fn missing(&self) -> usize
        ensures { result + length (so_far self.now.request.whole self.now.request.come.items) ≡ self.now.request.wanted }
    {
        self.request.missing()
    }

    /// Takes what waits of the data-out.
    pub(crate) fn gather(&mut self, rest: &mut InputBuffer) -> Result<(), OutOfMemory>
        ensures same { gathered_item self.new ++ rest.new ≡ gathered_item self.old ++ rest.old }
        ensures taken { OnOk result (HasTaken self.new.request rest.new) }
    {
        self.request.gather(rest)
    }

    /// The item, if all of its data-out has come.
    pub(crate) fn item(&mut self) -> Result<Parsed<TraceItem>, OutOfMemory>
        ensures same { gathered_item self.new ≡ gathered_item self.old }
        ensures value { (rest : List ℕ) → HasTaken self.old.request rest → IfOk result (λ p. p ≡ read_item (gathered_item self.old ++ rest)) }
    {
        let Some(request) = self.request.request()? else {
            return Ok(Parsed::Short);
        };
        Ok(Parsed::Whole {
            value: TraceItem::Begin {
                initiator: get_u32(&self.start, 1),
                moment: get_u64(&self.start, 5),
                request,
            },
            used: START + self.request.len(),
        })
    }
}
