ghost use Rattle.std.specs.Prelude.{◌≡◌, ◌==◌, ◌≤◌, ◌<◌, ℕ, List, [], ◌++◌, length, OnOk, OnErr};
ghost use Rattle.std.specs.Io.KnownBytes.{Appends};
ghost use Rattle.cm_base.specs.Outside.{Faulted, StaysTold};

use crate::out_of_memory::OutOfMemory;
use crate::sink::{Sink, WriteFailed, push_from};
use std::alloc::Global;
use std::marker::Model;

/// The bytes that were gathered and not pushed yet. Contracts see their list.
#[derive(Drop)]
pub struct OutputBuffer {
    bytes: Vec<u8>,
    pushed: usize,
}

impl Model for OutputBuffer {
    ghost use Rattle.std.specs.Prelude.{List, ℕ, ◌≤◌, length, drop};

    ghost Value = { List ℕ };

    ghost view = { λ b. drop b.pushed b.bytes.items };

    ghost invariant = { λ b. b.pushed ≤ length b.bytes.items };
}

impl OutputBuffer {
    /// A buffer with no bytes. It takes no memory.
    pub fn new(alloc: Global) -> OutputBuffer
        ensures { result ≡ [] }
    {
        OutputBuffer {
            bytes: Vec::new(alloc),
            pushed: 0,
        }
    }

    /// How many bytes wait to be pushed.
    pub fn len(&self) -> usize
        ensures { result ≡ length self.now }
    {
        self.bytes.len() - self.pushed
    }

    /// No byte waits to be pushed.
    pub fn is_empty(&self) -> bool
        ensures { result ≡ (length self.now == 0) }
    {
        self.len() == 0
    }

    /// Adds these bytes at the end. At `OutOfMemory` the buffer is as before.
    pub fn write(&mut self, bytes: &[u8]) -> Result<(), OutOfMemory>
        ensures ok { OnOk result (self.new ≡ self.old ++ bytes.now) }
        ensures err { OnErr result (self.new ≡ self.old) }
    {
        self.bytes.extend_from_slice(bytes)?;
        Ok(())
    }

    /// Pushes all bytes. At `WriteFailed` the buffer keeps those that the sink did not take.
    pub fn flush<O: Sink>(&mut self, sink: &mut O) -> Result<(), WriteFailed>
        ensures grown { OnOk result (Appends (O.taken sink.old) (O.taken sink.new) self.old) }
        ensures whole { OnOk result (self.new ≡ []) }
        ensures begun { OnErr result ((front : List ℕ) × (front ++ self.new ≡ self.old)
            × Appends (O.taken sink.old) (O.taken sink.new) front) }
        ensures part { OnErr result (0 < length self.new) }
        ensures sound { OnOk result (O.write_faults sink.new ≡ O.write_faults sink.old) }
        ensures faulted { OnErr result (Faulted (O.write_faults sink.old) (O.write_faults sink.new)) }
        ensures told { StaysTold (O.taken sink.old) (O.taken sink.new) }
        ensures apart { O.unpushed sink.new ≡ O.unpushed sink.old }
    {
        push_from(sink, self.bytes.as_slice(), &mut self.pushed)?;
        self.bytes.clear();
        self.pushed = 0;
        Ok(())
    }
}
