// The output of a manager's last report, which stands behind a line of its own.
ghost use Rattle.std.specs.Prelude.{◌≡◌, None, OnOk, OnErr};
ghost use Rattle.cm_base.specs.Outside.{Faulted};

use cm_base::{Sink, WriteFailed, push_all};

/// The line behind which the last report stands.
const ENDED: &[u8] = b"ended\n";

/// An output for a report, before whose first byte it takes the line `ended`. It tells nothing of what it took.
#[derive(Drop)]
pub struct LastReport<S> {
    output: S,
    begun: bool,
}

impl<S: Sink> LastReport<S> {
    /// This output, which took no report yet.
    pub fn new(output: S) -> LastReport<S> {
        LastReport {
            output,
            begun: false,
        }
    }

    /// The line, where it was not written yet.
    fn begin(&mut self) -> Result<(), WriteFailed>
        ensures sound { OnOk result (S.write_faults self.new.output ≡ S.write_faults self.old.output) }
        ensures faulted { OnErr result (Faulted (S.write_faults self.old.output) (S.write_faults self.new.output)) }
        ensures apart { S.unpushed self.new.output ≡ S.unpushed self.old.output }
    {
        if !self.begun {
            push_all(&mut self.output, ENDED)?;
            self.begun = true;
        }
        Ok(())
    }
}

impl<S: Sink> Sink for LastReport<S> {
    ghost taken = { λ _. None };

    ghost write_faults = { λ o. S.write_faults o.output };

    ghost unpushed = { λ o. S.unpushed o.output };

    fn push(&mut self, from: &[u8]) -> Result<usize, WriteFailed> {
        self.begin()?;
        self.output.push(from)
    }
}
