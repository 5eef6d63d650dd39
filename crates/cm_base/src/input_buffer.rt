ghost use Rattle.std.specs.Prelude.{◌≡◌, ◌≤◌, ℕ, List, [], ◌++◌, length, drop, IfOk, IfErr, OnOk, OnErr};
ghost use Rattle.std.specs.Io.KnownBytes.{Keeps, Consumes, IsAtEnd};
ghost use Rattle.cm_base.specs.Outside.{Faulted, StaysTold};

use crate::out_of_memory::OutOfMemory;
use crate::source::{ReadFailed, Source};
use crate::window::{CHUNK, Window};
use std::alloc::Global;
use std::error::Error;
use std::fmt;
use std::marker::Model;

/// Why no byte was added to an input.
#[derive(Debug, Clone, Copy, PartialEq, Eq)]
pub enum FillFailed {
    /// The source failed, and counted the fault.
    Read,
    /// Memory was wanted for the bytes that wait.
    OutOfMemory,
}

impl fmt::Display for FillFailed {
    fn fmt<W: fmt::Write>(&self, f: &mut fmt::Formatter<W>) -> fmt::Result {
        match self {
            FillFailed::Read => write!(f, "{ReadFailed}"),
            FillFailed::OutOfMemory => write!(f, "{OutOfMemory}"),
        }
    }
}

impl Error for FillFailed {}

impl From<ReadFailed> for FillFailed {
    ghost use Rattle.cm_base.specs.declared.input_buffer.FillFailed.{FillFailed};

    ghost from_gives = { λ _ e. e ≡ FillFailed.Read };

    fn from(_: ReadFailed) -> FillFailed {
        FillFailed::Read
    }
}

impl From<OutOfMemory> for FillFailed {
    ghost use Rattle.cm_base.specs.declared.input_buffer.FillFailed.{FillFailed};

    ghost from_gives = { λ _ e. e ≡ FillFailed.OutOfMemory };

    fn from(_: OutOfMemory) -> FillFailed {
        FillFailed::OutOfMemory
    }
}

/// The bytes that were pulled from a source and not used yet. Contracts see their list.
#[derive(Drop)]
pub struct InputBuffer {
    window: Window,
}

impl Model for InputBuffer {
    ghost use Rattle.std.specs.Prelude.{List, ℕ};
    ghost use Rattle.cm_base.specs.inner.Windows.{held};

    ghost Value = { List ℕ };

    ghost view = { λ b. held b.window };
}

impl InputBuffer {
    /// A buffer with no bytes. It takes no memory.
    pub fn new(alloc: Global) -> InputBuffer
        ensures { result ≡ [] }
    {
        InputBuffer {
            window: Window::new(alloc),
        }
    }

    /// The bytes that wait to be used.
    pub fn as_slice(&self) -> &[u8]
        ensures { result.now ≡ self.now }
    {
        self.window.as_slice()
    }

    /// Lets the first bytes go. It takes no memory, and its time does not grow with the bytes.
    pub fn consume(&mut self, count: usize)
        requires { count ≤ length self.old }
        ensures { self.new ≡ drop count self.old }
    {
        self.window.consume(count);
    }

    /// Adds these bytes behind those that wait. At `OutOfMemory` the same bytes wait as before.
    pub fn feed(&mut self, piece: &[u8]) -> Result<(), OutOfMemory>
        ensures ok { OnOk result (self.new ≡ self.old ++ piece.now) }
        ensures err { OnErr result (self.new ≡ self.old) }
    {
        self.window.extend(piece)
    }

    /// Pulls once, and adds what came; 0 bytes come only at the end of the input.
    ///
    /// `Read` where the source failed; `OutOfMemory` before anything was pulled. Both leave the
    /// bytes that wait.
    pub fn fill<S: Source>(&mut self, source: &mut S) -> Result<usize, FillFailed>
        ensures ok { IfOk result (λ n. (more : List ℕ) × (length more ≡ n) × (self.new ≡ self.old ++ more)
            × Consumes (S.left source.old) (S.left source.new) more) }
        ensures ended { IfOk result (λ n. n ≡ 0 → IsAtEnd (S.left source.new)) }
        ensures sound { OnOk result (S.read_faults source.new ≡ S.read_faults source.old) }
        ensures err { OnErr result (self.new ≡ self.old) }
        ensures read { IfErr result (λ e. e ≡ FillFailed.Read → Keeps (S.left source.old) (S.left source.new)
            × Faulted (S.read_faults source.old) (S.read_faults source.new)) }
        ensures memory { IfErr result (λ e. e ≡ FillFailed.OutOfMemory → source.new ≡ source.old) }
        ensures told { StaysTold (S.left source.old) (S.left source.new) }
        ensures apart { S.unpulled source.new ≡ S.unpulled source.old }
    {
        self.window.settle(CHUNK)?;
        Ok(self.window.pull(source)?)
    }
}
