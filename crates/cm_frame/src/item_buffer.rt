ghost use Rattle.std.specs.Prelude.{◌≡◌, ◌≤◌, ◌==◌, ℕ, List, [], ◌++◌, length, drop, IfOk, IfErr, OnOk, OnErr};
ghost use Rattle.std.specs.Io.KnownBytes.{Keeps, Consumes, IsAtEnd};
ghost use Rattle.cm_base.specs.Outside.{Faulted, StaysTold};
ghost use Rattle.cm_base.specs.declared.input_buffer.FillFailed.{FillFailed};
ghost use Rattle.cm_frame.specs.Reading.{read_item, HasItem};

use crate::item::{TraceItem, read_item};
use crate::long_item::LongItem;
use crate::memory::Memory;
use cm_base::{FillFailed, InputBuffer, OutOfMemory, Parsed, Source};
use std::alloc::Global;
use std::marker::Model;

/// The bytes of a trace that were pulled and not used yet. Contracts see their list.
///
/// A long data-out is copied into its payload as it comes; the item shares it.
#[derive(Drop)]
pub struct ItemBuffer {
    /// The item at the front, if it is long.
    long: Option<LongItem>,
    /// The bytes behind it.
    rest: InputBuffer,
}

impl Model for ItemBuffer {
    ghost use Rattle.std.specs.Prelude.{List, ℕ, ◌++◌};
    ghost use Rattle.cm_frame.specs.inner.Gathering.{begun_item};

    ghost Value = { List ℕ };

    ghost view = { λ b. begun_item b.long ++ b.rest };
}

impl ItemBuffer {
    /// These bytes. It takes no memory.
    pub fn new(bytes: InputBuffer) -> ItemBuffer
        ensures { result ≡ bytes }
    {
        ItemBuffer {
            long: None,
            rest: bytes,
        }
    }

    /// No byte waits to be used.
    pub fn is_empty(&self) -> bool
        ensures { result ≡ (length self.now == 0) }
    {
        self.long.is_none() && self.rest.as_slice().is_empty()
    }

    /// The item at the front, as `read_item` reads it; a long data-out is not copied again.
    pub fn item(&mut self, alloc: Global) -> Result<Parsed<TraceItem>, OutOfMemory>
        ensures same { self.new ≡ self.old }
        ensures value { IfOk result (λ p. p ≡ read_item self.old) }
    {
        match &mut self.long {
            None => read_item(alloc, self.rest.as_slice()),
            Some(long) => {
                long.gather(&mut self.rest)?;
                long.item()
            }
        }
    }

    /// Lets the item at the front go, which has so many bytes. It takes no memory.
    pub fn pass(&mut self, used: usize)
        requires { HasItem self.old used }
        ensures { self.new ≡ drop used self.old }
    {
        let left = match &self.long {
            Some(long) => long.missing(),
            None => used,
        };
        self.long = None;
        self.rest.consume(left);
    }

    /// Pulls once, and adds what came; 0 bytes come only at the end of the input. A long data-out that
    /// has begun goes into `memory`.
    ///
    /// `Read` where the source failed; `OutOfMemory` before anything was pulled. Both leave the
    /// bytes that wait.
    pub fn fill<M: Memory, S: Source>(
        &mut self,
        memory: &mut M,
        source: &mut S,
    ) -> Result<usize, FillFailed>
        ensures ok { IfOk result (λ n. (more : List ℕ) × (length more ≡ n) × (self.new ≡ self.old ++ more)
            × Consumes (S.left source.old) (S.left source.new) more) }
        ensures ended { IfOk result (λ n. n ≡ 0 → IsAtEnd (S.left source.new)) }
        ensures sound { OnOk result (S.read_faults source.new ≡ S.read_faults source.old) }
        ensures err { OnErr result (self.new ≡ self.old) }
        ensures read { IfErr result (λ e. e ≡ FillFailed.Read → Keeps (S.left source.old) (S.left source.new)
            × Faulted (S.read_faults source.old) (S.read_faults source.new)) }
        ensures memory { IfErr result (λ e. e ≡ FillFailed.OutOfMemory → source.new ≡ source.old) }
        ensures told { StaysTold (S.left source.old) (S.left source.new) }
        ensures apart { S.unpulled source.new ≡ S.unpulled source.old }
    {
        self.make_room(memory)?;
        self.rest.fill(source)
    }

    /// Moves the bytes that wait into a long data-out, if one waits for them.
    fn make_room<M: Memory>(&mut self, memory: &mut M) -> Result<(), OutOfMemory>
        ensures { self.new ≡ self.old }
    {
        self.begin_long(memory)?;
        match &mut self.long {
            Some(long) => long.gather(&mut self.rest),
            None => Ok(()),
        }
    }

    /// Begins the item at the front, if its data-out is long and it was not begun.
    fn begin_long<M: Memory>(&mut self, memory: &mut M) -> Result<(), OutOfMemory>
        ensures { self.new ≡ self.old }
    {
        if self.long.is_none() {
            self.long = LongItem::begin(memory, &mut self.rest)?;
        }
        Ok(())
    }
}
