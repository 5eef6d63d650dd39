ghost use Rattle.std.specs.Prelude.{◌≡◌, ◌≤◌, ◌<◌, ℕ, List, Option, ◌++◌, length, take, drop, IfOk, OnOk, OnErr};
ghost use Rattle.std.specs.Io.KnownBytes.{Appends, Keeps};
ghost use Rattle.cm_base.specs.Outside.{Faulted, StaysTold};
ghost use Rattle.cm_base.specs.Sides.{Side, IsCut};

use std::error::Error;
use std::fmt;

/// The sink failed to take bytes; it counted the fault.
#[derive(Debug, Clone, Copy, PartialEq, Eq)]
pub struct WriteFailed;

impl fmt::Display for WriteFailed {
    fn fmt<W: fmt::Write>(&self, f: &mut fmt::Formatter<W>) -> fmt::Result {
        write!(f, "a write failed")
    }
}

impl Error for WriteFailed {}

/// What takes bytes in order, as a file or a connection.
pub trait Sink {
    // The bytes that it took so far, where they are told.
    ghost taken: { Self → Option (List ℕ) };

    // How many pushes failed, up to 2^64 - 1.
    ghost write_faults: { Self → ℕ };

    // What pushes leave as it is: the other side of a connection.
    ghost unpushed: { Self → Side };

    /// Takes the first of these bytes: at least one, unless there is none. `WriteFailed` takes
    /// none, and raises the count of faults.
    fn push(&mut self, from: &[u8]) -> Result<usize, WriteFailed>
        ensures within { IfOk result (λ n. n ≤ length from.now) }
        ensures some { IfOk result (λ n. 0 < length from.now → 0 < n) }
        ensures grown { IfOk result (λ n. Appends (taken self.old) (taken self.new) (take n from.now)) }
        ensures sound { OnOk result (write_faults self.new ≡ write_faults self.old) }
        ensures kept { OnErr result (Keeps (taken self.old) (taken self.new)) }
        ensures faulted { OnErr result (Faulted (write_faults self.old) (write_faults self.new)) }
        ensures told { StaysTold (taken self.old) (taken self.new) }
        ensures apart { unpushed self.new ≡ unpushed self.old };
}

/// Pushes all of these bytes. At `WriteFailed` the sink took a beginning of them, and not all.
pub fn push_all<O: Sink>(sink: &mut O, bytes: &[u8]) -> Result<(), WriteFailed>
    ensures grown { OnOk result (Appends (O.taken sink.old) (O.taken sink.new) bytes.now) }
    ensures sound { OnOk result (O.write_faults sink.new ≡ O.write_faults sink.old) }
    ensures begun { OnErr result ((front : List ℕ) × IsCut front bytes.now
        × Appends (O.taken sink.old) (O.taken sink.new) front) }
    ensures faulted { OnErr result (Faulted (O.write_faults sink.old) (O.write_faults sink.new)) }
    ensures told { StaysTold (O.taken sink.old) (O.taken sink.new) }
    ensures apart { O.unpushed sink.new ≡ O.unpushed sink.old }
{
    let mut at = 0;
    push_from(sink, bytes, &mut at)
}

/// Pushes the bytes from a place on, and moves the place behind what the sink took.
pub(crate) fn push_from<O: Sink>(
    sink: &mut O,
    bytes: &[u8],
    at: &mut usize,
) -> Result<(), WriteFailed>
    requires { at.old ≤ length bytes.now }
    ensures grown { (front : List ℕ) × (front ++ drop at.new bytes.now ≡ drop at.old bytes.now)
        × Appends (O.taken sink.old) (O.taken sink.new) front }
    ensures within { at.old ≤ at.new }
    ensures end { at.new ≤ length bytes.now }
    ensures whole { OnOk result (at.new ≡ length bytes.now) }
    ensures part { OnErr result (at.new < length bytes.now) }
    ensures sound { OnOk result (O.write_faults sink.new ≡ O.write_faults sink.old) }
    ensures faulted { OnErr result (Faulted (O.write_faults sink.old) (O.write_faults sink.new)) }
    ensures told { StaysTold (O.taken sink.old) (O.taken sink.new) }
    ensures apart { O.unpushed sink.new ≡ O.unpushed sink.old }
{
    while *at < bytes.len() {
        let count = sink.push(&bytes[*at..])?;
        *at += count;
    }
    Ok(())
}
