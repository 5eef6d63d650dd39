ghost use Rattle.std.specs.Prelude.{◌≡◌, ◌-◌, ◌<◌, [], ℕ, List, Option, Some, option_map, is_some, suc, IfOk, IfSome, OnOk, OnErr};
ghost use Rattle.cm_base.specs.Outside.{Faulted};
ghost use Rattle.cm_base.specs.Listening.{Gone, HandsOut, TakesBack, is_broken};

use crate::link::Link;
use std::error::Error;
use std::fmt;

/// The listener failed to hand out a link; it counted the fault.
#[derive(Debug, Clone, Copy, PartialEq, Eq)]
pub struct AcceptFailed;

impl fmt::Display for AcceptFailed {
    fn fmt<W: fmt::Write>(&self, f: &mut fmt::Formatter<W>) -> fmt::Result {
        write!(f, "an accept failed")
    }
}

impl Error for AcceptFailed {}

/// What hands out links, one after the other, and takes them back.
pub trait Listener {
    type Conn: Link + Send + Drop;

    // The bytes of the links that will be handed out, where they are told.
    ghost coming: { Self → Option (List (List ℕ)) };

    // How many links were handed out and not given back. It is told where `coming` is.
    ghost out: { Self → Option ℕ };

    // The links that were given back, in order, where they are told.
    ghost ended: { Self → Option (List Gone) };

    // How many accepts failed, up to 2^64 - 1.
    ghost accept_faults: { Self → ℕ };

    /// Hands out the next link, on which nothing was done yet. `AcceptFailed` hands out none, and
    /// raises the count of faults.
    fn accept(&mut self) -> Result<Self::Conn, AcceptFailed>
        ensures first { IfOk result (λ link. HandsOut (coming self.old) (coming self.new) (Self.Conn.left link)) }
        ensures fresh { IfOk result (λ link. IfSome (coming self.old) (λ _. Self.Conn.taken link ≡ Some [])) }
        ensures unfailed { IfOk result (λ link. (Self.Conn.read_faults link ≡ 0) × (Self.Conn.write_faults link ≡ 0)) }
        ensures out { OnOk result (out self.new ≡ option_map suc (out self.old)) }
        ensures sound { OnOk result (accept_faults self.new ≡ accept_faults self.old) }
        ensures kept { OnErr result ((coming self.new ≡ coming self.old) × (out self.new ≡ out self.old)) }
        ensures faulted { OnErr result (Faulted (accept_faults self.old) (accept_faults self.new)) }
        ensures ended { ended self.new ≡ ended self.old };

    /// Takes a link back, and ends it. It takes no memory.
    fn done(&mut self, link: Self::Conn)
        requires { IfSome (out self.old) (λ n. 0 < n) }
        ensures ended { TakesBack (ended self.old) (ended self.new) (Self.Conn.taken link) (is_broken (Self.Conn.read_faults link) (Self.Conn.write_faults link)) }
        ensures out { out self.new ≡ option_map (λ n. n - 1) (out self.old) }
        ensures coming { coming self.new ≡ coming self.old }
        ensures faults { accept_faults self.new ≡ accept_faults self.old };

    ghost told_together: { (l : Self) → is_some (out l) ≡ is_some (coming l) };
}
