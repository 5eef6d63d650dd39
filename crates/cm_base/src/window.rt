ghost use Rattle.std.specs.Prelude.{◌≡◌, ◌+◌, ◌-◌, ◌*◌, ◌<◌, ◌≤◌, ℕ, List, [], ◌++◌, length, take, drop, slice_range, IfOk, OnOk, OnErr};
ghost use Rattle.std.specs.Io.KnownBytes.{Keeps, Consumes, IsAtEnd};
ghost use Rattle.cm_base.specs.Outside.{Faulted, StaysTold};

use crate::out_of_memory::OutOfMemory;
use crate::source::{ReadFailed, Source};
use std::alloc::Global;

/// Bytes of room that a pull has at least.
pub(crate) const CHUNK: usize = 65_536;

/// The bytes from `start` to `end` wait to be used, and there is room behind them.
#[derive(Drop)]
pub(crate) struct Window {
    bytes: Vec<u8>,
    start: usize,
    end: usize,
    ghost ordered: { start ≤ end },
    ghost within: { end ≤ length bytes.items },
}

impl Window {
    ghost use Rattle.cm_base.specs.inner.Windows.{held, room};

    pub(crate) fn new(alloc: Global) -> Window
        ensures { held result ≡ [] }
    {
        Window {
            bytes: Vec::new(alloc),
            start: 0,
            end: 0,
        }
    }

    pub(crate) fn as_slice(&self) -> &[u8]
        ensures { result.now ≡ held self.now }
    {
        &self.bytes[self.start..self.end]
    }

    pub(crate) fn consume(&mut self, count: usize)
        requires { count ≤ length (held self.old) }
        ensures { held self.new ≡ drop count (held self.old) }
    {
        self.start += count;
    }

    /// Makes room for so many bytes. What is left moves to the front where that costs no more than
    /// using the bytes before it did, and to a larger window where there is too little room.
    pub(crate) fn settle(&mut self, wanted: usize) -> Result<(), OutOfMemory>
        ensures held { held self.new ≡ held self.old }
        ensures room { OnOk result (wanted ≤ room self.new) }
    {
        if self.end - self.start <= self.start {
            self.move_to_front();
        }
        if self.bytes.len() - self.end < wanted {
            self.grow(wanted)?;
        }
        Ok(())
    }

    /// Moves the bytes to the front, over bytes that were used.
    fn move_to_front(&mut self)
        requires { self.old.end - self.old.start ≤ self.old.start }
        ensures { held self.new ≡ held self.old }
    {
        let (start, end) = (self.start, self.end);
        copy_to_front(&mut self.bytes, start, end);
        self.start = 0;
        self.end = end - start;
    }

    /// Moves the bytes to the front of a window of twice their length, or of what is wanted.
    fn grow(&mut self, wanted: usize) -> Result<(), OutOfMemory>
        ensures held { held self.new ≡ held self.old }
        ensures room { OnOk result (wanted ≤ room self.new) }
    {
        let left = self.as_slice();
        let count = left.len();
        let length = count.max(wanted).checked_mul(2).ok_or(OutOfMemory)?;
        let mut bytes = Vec::with_capacity(*self.bytes.allocator(), length)?;
        bytes.extend_from_slice(left)?;
        bytes.resize(length, 0)?;
        self.bytes = bytes;
        self.start = 0;
        self.end = count;
        Ok(())
    }

    /// Adds these bytes behind those that wait. At `OutOfMemory` the same bytes wait as before.
    pub(crate) fn extend(&mut self, piece: &[u8]) -> Result<(), OutOfMemory>
        ensures ok { OnOk result (held self.new ≡ held self.old ++ piece.now) }
        ensures err { OnErr result (held self.new ≡ held self.old) }
    {
        self.settle(piece.len())?;
        self.append(piece);
        Ok(())
    }

    /// Adds bytes into the room behind those that wait.
    fn append(&mut self, piece: &[u8])
        requires { length piece.now ≤ room self.old }
        ensures { held self.new ≡ held self.old ++ piece.now }
    {
        let end = self.end;
        self.bytes[end..end + piece.len()].copy_from_slice(piece);
        self.end = end + piece.len();
    }

    /// Pulls once, into the room behind the bytes.
    pub(crate) fn pull<S: Source>(&mut self, source: &mut S) -> Result<usize, ReadFailed>
        requires { 0 < room self.old }
        ensures ok { IfOk result (λ n. (more : List ℕ) × (length more ≡ n) × (held self.new ≡ held self.old ++ more)
            × Consumes (S.left source.old) (S.left source.new) more) }
        ensures ended { IfOk result (λ n. n ≡ 0 → IsAtEnd (S.left source.new)) }
        ensures sound { OnOk result (S.read_faults source.new ≡ S.read_faults source.old) }
        ensures err { OnErr result (held self.new ≡ held self.old) }
        ensures kept { OnErr result (Keeps (S.left source.old) (S.left source.new)) }
        ensures faulted { OnErr result (Faulted (S.read_faults source.old) (S.read_faults source.new)) }
        ensures told { StaysTold (S.left source.old) (S.left source.new) }
        ensures apart { S.unpulled source.new ≡ S.unpulled source.old }
    {
        let end = self.end;
        let room = (self.bytes.len() - end).min(2 * CHUNK);
        let count = source.pull(&mut self.bytes[end..end + room])?;
        self.end = end + count;
        Ok(count)
    }
}

/// Copies the bytes from `start` to `end` over the first ones.
fn copy_to_front(bytes: &mut [u8], start: usize, end: usize)
    requires ordered { start ≤ end }
    requires within { end ≤ length bytes.old }
    requires apart { end - start ≤ start }
    ensures { take (end - start) bytes.new ≡ slice_range bytes.old start end }
{
    let left = end - start;
    let (used, rest) = bytes.split_at_mut(start);
    used[..left].copy_from_slice(&rest[..left]);
}
