ghost use Rattle.std.specs.Prelude.{◌≡◌, ◌≤◌, ◌<◌, ℕ, List, Option, length, take, IfOk, OnOk, OnErr};
ghost use Rattle.std.specs.Io.KnownBytes.{Consumes, Keeps, IsAtEnd};
ghost use Rattle.cm_base.specs.Outside.{Faulted, StaysTold};
ghost use Rattle.cm_base.specs.Sides.{Side};

use std::error::Error;
use std::fmt;

/// The source failed to give bytes; it counted the fault.
#[derive(Debug, Clone, Copy, PartialEq, Eq)]
pub struct ReadFailed;

impl fmt::Display for ReadFailed {
    fn fmt<W: fmt::Write>(&self, f: &mut fmt::Formatter<W>) -> fmt::Result {
        write!(f, "a read failed")
    }
}

impl Error for ReadFailed {}

/// What gives bytes in order, as a file or a connection.
pub trait Source {
    // The bytes that pulls will give from here on, where they are told.
    ghost left: { Self → Option (List ℕ) };

    // How many pulls failed, up to 2^64 - 1.
    ghost read_faults: { Self → ℕ };

    // What pulls leave as it is: the other side of a connection.
    ghost unpulled: { Self → Side };

    /// Gives some of the next bytes: at least one, unless the slice is empty or the input has
    /// ended. `ReadFailed` takes none, and raises the count of faults.
    fn pull(&mut self, into: &mut [u8]) -> Result<usize, ReadFailed>
        ensures within { IfOk result (λ n. n ≤ length into.new) }
        ensures taken { IfOk result (λ n. Consumes (left self.old) (left self.new) (take n into.new)) }
        ensures ended { IfOk result (λ n. n ≡ 0 → 0 < length into.new → IsAtEnd (left self.new)) }
        ensures sound { OnOk result (read_faults self.new ≡ read_faults self.old) }
        ensures kept { OnErr result (Keeps (left self.old) (left self.new)) }
        ensures faulted { OnErr result (Faulted (read_faults self.old) (read_faults self.new)) }
        ensures told { StaysTold (left self.old) (left self.new) }
        ensures apart { unpulled self.new ≡ unpulled self.old };
}
