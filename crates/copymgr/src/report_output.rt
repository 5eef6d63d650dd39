// An output for a report, of which is remembered how many entries it says were kept.
ghost use Rattle.std.specs.Prelude.{◌≡◌};

use cm_base::{Sink, WriteFailed};
use std::str;

/// Bytes of the longest line that is looked at.
const LINE: usize = 32;

/// How the line begins that says how many entries of all units stand in no file.
const KEPT: &str = "kept ";

/// The line of a report that was begun, as far as there is room, and the number in its line `kept N`.
#[derive(Drop)]
struct KeptLine {
    line: [u8; LINE],
    length: usize,
    kept: u64,
}

impl KeptLine {
    /// Takes the next bytes of the report.
    fn take_all(&mut self, bytes: &[u8]) {
        for byte in bytes {
            self.take(*byte);
        }
    }

    /// Takes the next byte of the report.
    fn take(&mut self, byte: u8) {
        if byte == b'\n' {
            self.end();
            self.length = 0;
        } else if self.length < LINE {
            self.line[self.length] = byte;
            self.length += 1;
        }
    }

    /// Reads the line that ends.
    fn end(&mut self) {
        if self.length > LINE {
            return;
        }
        let line = str::from_utf8(&self.line[..self.length]).unwrap_or("");
        if let Some(number) = line.strip_prefix(KEPT) {
            self.kept = number.parse().unwrap_or(0);
        }
    }
}

/// An output that remembers the number in the line `kept N` of what it took.
#[derive(Drop)]
pub struct ReportOutput<S> {
    output: S,
    lines: KeptLine,
}

impl<S: Sink> ReportOutput<S> {
    /// This output, which took no line yet.
    pub fn new(output: S) -> ReportOutput<S>
        ensures taken { ⟦<ReportOutput<S> as Sink>⟧.taken result ≡ S.taken output }
        ensures faults { ⟦<ReportOutput<S> as Sink>⟧.write_faults result ≡ S.write_faults output }
    {
        ReportOutput {
            output,
            lines: KeptLine {
                line: [0; LINE],
                length: 0,
                kept: 0,
            },
        }
    }

    /// How many entries were kept and not written, as the report says; 0 where it says nothing.
    pub fn kept(&self) -> u64 {
        self.lines.kept
    }
}

impl<S: Sink> Sink for ReportOutput<S> {
    ghost taken = { λ o. S.taken o.output };

    ghost write_faults = { λ o. S.write_faults o.output };

    ghost unpushed = { λ o. S.unpushed o.output };

    fn push(&mut self, from: &[u8]) -> Result<usize, WriteFailed> {
        let count = self.output.push(from)?;
        self.lines.take_all(&from[..count]);
        Ok(count)
    }
}
