ghost use Rattle.std.specs.Prelude.{◌≡◌};

use crate::sink::Sink;
use crate::source::Source;

/// A connection, which gives bytes and takes bytes. A pull leaves what it took, and a push what it has
/// to give.
pub trait Link: Source + Sink {
    /// Ends the connection, so that the other end sees it at once, and gives up what is held for it. What was told of
    /// its bytes stays. It takes no memory.
    fn close(&mut self)
        ensures left { Self.left self.new ≡ Self.left self.old }
        ensures taken { Self.taken self.new ≡ Self.taken self.old }
        ensures reads { Self.read_faults self.new ≡ Self.read_faults self.old }
        ensures writes { Self.write_faults self.new ≡ Self.write_faults self.old };

    ghost pulls_apart: { (k : Self) → Self.unpulled k ≡ record { bytes = Self.taken k; faults = Self.write_faults k } };

    ghost pushes_apart: { (k : Self) → Self.unpushed k ≡ record { bytes = Self.left k; faults = Self.read_faults k } };
}
