ghost use Rattle.std.specs.Prelude.{None, refl};

use cm_base::{Link, ReadFailed, Sink, Source, StandardInput, StandardOutput, WriteFailed};
use std::io::{Read, Write};

/// A connection over a reader and a writer. It tells nothing of the bytes.
#[derive(Drop)]
pub struct StandardLink<R, W> {
    input: StandardInput<R>,
    output: StandardOutput<W>,
}

impl<R: Read, W: Write> StandardLink<R, W> {
    /// The connection of these two, with no fault so far. It takes no memory.
    pub fn new(reader: R, writer: W) -> StandardLink<R, W> {
        StandardLink {
            input: StandardInput::new(reader),
            output: StandardOutput::new(writer),
        }
    }
}

impl<R: Read, W: Write> Source for StandardLink<R, W> {
    ghost left = { λ _. None };

    ghost read_faults = { λ k. ⟦<StandardInput<R> as Source>⟧.read_faults k.input };

    ghost unpulled = { λ k. record { bytes = None; faults = ⟦<StandardOutput<W> as Sink>⟧.write_faults k.output } };

    fn pull(&mut self, into: &mut [u8]) -> Result<usize, ReadFailed> {
        self.input.pull(into)
    }
}

impl<R: Read, W: Write> Sink for StandardLink<R, W> {
    ghost taken = { λ _. None };

    ghost write_faults = { λ k. ⟦<StandardOutput<W> as Sink>⟧.write_faults k.output };

    ghost unpushed = { λ k. record { bytes = None; faults = ⟦<StandardInput<R> as Source>⟧.read_faults k.input } };

    fn push(&mut self, from: &[u8]) -> Result<usize, WriteFailed> {
        self.output.push(from)
    }
}

impl<R: Read, W: Write> Link for StandardLink<R, W> {
    /// The streams are the process's, and end with it.
    fn close(&mut self) {}

    ghost pulls_apart = { λ k. refl };

    ghost pushes_apart = { λ k. refl };
}
