ghost use Rattle.std.specs.Prelude.{◌≡◌, ◌==◌, ◌++◌, ℕ, List, [], length, IfOk, IfErr, OnOk, OnErr};
ghost use Rattle.std.specs.Io.KnownBytes.{Keeps, Consumes, IsAtEnd};
ghost use Rattle.cm_base.specs.Outside.{Faulted, StaysTold};
ghost use Rattle.cm_base.specs.declared.input_buffer.FillFailed.{FillFailed};
ghost use Rattle.cm_frame.specs.Reading.{read_request};
ghost use Rattle.cm_frame.specs.Laws.{IsJudged};
ghost use Rattle.cm_frame.specs.Taking.{Takes};

use crate::frame::Request;
use crate::long_request::{LongRequest, long_data};
use crate::request::read_request;
use cm_base::{FillFailed, InputBuffer, OutOfMemory, Parsed, Source};
use std::alloc::Global;
use std::marker::Model;

/// What stands at the front of the bytes of a connection.
#[derive(Drop)]
pub enum Framed {
    /// A request, which was taken.
    Request(Request),
    /// Too little to tell: no byte, or the beginning of a request.
    NotYet,
    /// A request whose data is longer than a frame may have.
    Bad,
}

/// Takes the request at the front of some bytes, if it is whole.
fn take_short(alloc: Global, bytes: &mut InputBuffer) -> Result<Framed, OutOfMemory>
    ensures taken { IfOk result (Takes bytes.old bytes.new) }
    ensures err { OnErr result (bytes.new ≡ bytes.old) }
{
    match read_request(alloc, bytes.as_slice())? {
        Parsed::Whole { value, used } => {
            bytes.consume(used);
            Ok(Framed::Request(value))
        }
        Parsed::Short => Ok(Framed::NotYet),
        Parsed::Bad { place: _ } => Ok(Framed::Bad),
    }
}

/// Takes requests out of bytes that come in pieces. Contracts see the list of the bytes that are left.
///
/// A long data-out is copied into its payload as it comes. So a sender takes no more memory than what
/// it has sent, but for a factor.
#[derive(Drop)]
pub struct Framer {
    /// The request at the front, if it is long.
    long: Option<LongRequest>,
    /// The bytes behind it.
    rest: InputBuffer,
    alloc: Global,
}

impl Model for Framer {
    ghost use Rattle.std.specs.Prelude.{List, ℕ, ◌++◌};
    ghost use Rattle.cm_frame.specs.inner.Gathering.{begun};

    ghost Value = { List ℕ };

    ghost view = { λ f. begun f.long ++ f.rest };
}

impl Framer {
    /// A framer that was fed nothing. It takes no memory.
    pub fn new(alloc: Global) -> Framer
        ensures { result ≡ [] }
    {
        Framer {
            long: None,
            rest: InputBuffer::new(alloc),
            alloc,
        }
    }

    /// No byte is left. It takes no memory.
    pub fn is_empty(&self) -> bool
        ensures { result ≡ (length self.now == 0) }
    {
        self.long.is_none() && self.rest.as_slice().is_empty()
    }

    /// Adds the bytes that came next. At `OutOfMemory` the framer is as before.
    pub fn feed(&mut self, piece: &[u8]) -> Result<(), OutOfMemory>
        ensures ok { OnOk result (self.new ≡ self.old ++ piece.now) }
        ensures err { OnErr result (self.new ≡ self.old) }
        ensures stays { IsJudged (read_request self.old) → read_request self.new ≡ read_request self.old }
    {
        self.make_room()?;
        self.rest.feed(piece)
    }

    /// Takes the request at the front, if it is whole. After `Bad` it finds `Bad` always. At
    /// `OutOfMemory` the framer is as before.
    pub fn take(&mut self) -> Result<Framed, OutOfMemory>
        ensures taken { IfOk result (Takes self.old self.new) }
        ensures err { OnErr result (self.new ≡ self.old) }
    {
        let Some(long) = &mut self.long else {
            return take_short(self.alloc, &mut self.rest);
        };
        long.gather(&mut self.rest)?;
        let Some(request) = long.request()? else {
            return Ok(Framed::NotYet);
        };
        self.long = None;
        Ok(Framed::Request(request))
    }

    /// Pulls once, and adds what came; 0 bytes come only at the end of the input.
    ///
    /// `Read` where the source failed; `OutOfMemory` before anything was pulled. Both leave the
    /// bytes that wait.
    pub fn fill<S: Source>(&mut self, source: &mut S) -> Result<usize, FillFailed>
        ensures ok { IfOk result (λ n. (more : List ℕ) × (length more ≡ n) × (self.new ≡ self.old ++ more)
            × Consumes (S.left source.old) (S.left source.new) more) }
        ensures ended { IfOk result (λ n. n ≡ 0 → IsAtEnd (S.left source.new)) }
        ensures sound { OnOk result (S.read_faults source.new ≡ S.read_faults source.old) }
        ensures err { OnErr result (self.new ≡ self.old) }
        ensures read { IfErr result (λ e. e ≡ FillFailed.Read → Keeps (S.left source.old) (S.left source.new)
            × Faulted (S.read_faults source.old) (S.read_faults source.new)) }
        ensures memory { IfErr result (λ e. e ≡ FillFailed.OutOfMemory → source.new ≡ source.old) }
        ensures told { StaysTold (S.left source.old) (S.left source.new) }
        ensures apart { S.unpulled source.new ≡ S.unpulled source.old }
        ensures stays { IsJudged (read_request self.old) → read_request self.new ≡ read_request self.old }
    {
        self.make_room()?;
        Ok(self.rest.fill(source)?)
    }

    /// Moves the bytes that wait into a long data-out, if one waits for them.
    fn make_room(&mut self) -> Result<(), OutOfMemory>
        ensures { self.new ≡ self.old }
    {
        self.begin_long();
        match &mut self.long {
            Some(long) => long.gather(&mut self.rest),
            None => Ok(()),
        }
    }

    /// Begins the request at the front, if its data-out is long and it was not begun.
    fn begin_long(&mut self)
        ensures { self.new ≡ self.old }
    {
        if self.long.is_some() {
            return;
        }
        if let Some(wanted) = long_data(self.rest.as_slice()) {
            let room = Vec::new(self.alloc);
            self.long = Some(LongRequest::begin(&mut self.rest, wanted, room));
        }
    }
}
