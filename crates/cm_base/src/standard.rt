ghost use Rattle.std.specs.Prelude.{◌≡◌, None};
ghost use Rattle.cm_base.specs.Sides.{no_side};

use crate::sink::{Sink, WriteFailed};
use crate::source::{ReadFailed, Source};
use std::io::{Read, Write};

/// A source over a reader, as standard input. It tells nothing of the bytes to come.
#[derive(Drop)]
pub struct StandardInput<R> {
    reader: R,
    faults: u64,
}

impl<R: Read> StandardInput<R> {
    /// A source over this reader, with no fault so far.
    pub fn new(reader: R) -> StandardInput<R>
        ensures left { ⟦<StandardInput<R> as Source>⟧.left result ≡ None }
        ensures faults { ⟦<StandardInput<R> as Source>⟧.read_faults result ≡ 0 }
    {
        StandardInput { reader, faults: 0 }
    }
}

impl<R: Read> Source for StandardInput<R> {
    ghost left = { λ _. None };

    ghost read_faults = { λ s. s.faults };

    ghost unpulled = { λ _. no_side };

    fn pull(&mut self, into: &mut [u8]) -> Result<usize, ReadFailed> {
        match self.reader.read(into) {
            Ok(count) => Ok(count),
            Err(_) => {
                self.faults = self.faults.saturating_add(1);
                Err(ReadFailed)
            }
        }
    }
}

/// A sink over a writer, as standard output. It tells nothing of the bytes that it took.
#[derive(Drop)]
pub struct StandardOutput<W> {
    writer: W,
    faults: u64,
}

impl<W: Write> StandardOutput<W> {
    /// A sink over this writer, with no fault so far.
    pub fn new(writer: W) -> StandardOutput<W>
        ensures taken { ⟦<StandardOutput<W> as Sink>⟧.taken result ≡ None }
        ensures faults { ⟦<StandardOutput<W> as Sink>⟧.write_faults result ≡ 0 }
    {
        StandardOutput { writer, faults: 0 }
    }
}

impl<W: Write> Sink for StandardOutput<W> {
    ghost taken = { λ _. None };

    ghost write_faults = { λ s. s.faults };

    ghost unpushed = { λ _. no_side };

    /// A writer that takes none of some bytes has failed.
    fn push(&mut self, from: &[u8]) -> Result<usize, WriteFailed> {
        match self.writer.write(from) {
            Ok(count) if count > 0 || from.is_empty() => Ok(count),
            _ => {
                self.faults = self.faults.saturating_add(1);
                Err(WriteFailed)
            }
        }
    }
}
