ghost use Rattle.std.specs.Prelude.{◌≤◌, ◌∷◌, ◌++◌, [], List, length};
ghost use Rattle.cm_frame.specs.Grammar.{data_limit};
ghost use Rattle.cm_history.specs.Legal.{IsLegal};
ghost use Rattle.odx_host.specs.Talk.{Talked};
ghost use Rattle.odx_host.specs.Worlds.{World, IsAnsweredIn};

use cm_frame::{Reply, Request};

/// Why a port has no reply.
#[derive(Debug, Clone, Copy, PartialEq, Eq)]
pub enum PortFault {
    /// Memory was wanted.
    OutOfMemory,
    /// The reply could not be read.
    ReadFault,
    /// The request could not be written.
    WriteFault,
    /// There are no more replies.
    Ended,
    /// What was read is no reply.
    BadReply,
}

/// Where a host asks its requests, one after the other (own profile).
pub trait Port {
    // It may be that these are the requests that it was asked from a state on to another, each with what it answered.
    ghost Talks: { Self → List Talked → Self → Type 0 };
    // It may be that these are the units behind it. A port that tells nothing of them is in no world.
    ghost IsIn: { Self → World → Type 0 };

    /// Asks a request and waits for its reply. Any fault is one of the port: the copy manager may have done what was
    /// asked, or a part of it.
    fn ask(&mut self, request: &Request) -> Result<Reply, PortFault>
        requires { length request.now.out ≤ data_limit }
        ensures talked { Talks self.old (record { request = request.now; answer = result } ∷ []) self.new }
        ensures world { (w : World) → IsIn self.old w
            → (v : World) × IsIn self.new v × IsAnsweredIn w v (record { request = request.now; answer = result }) };

    ghost silent: { (p : Self) → Talks p [] p };

    ghost goes_on: { (p q r : Self) (xs ys : List Talked) → Talks p xs q → Talks q ys r → Talks p (xs ++ ys) r };

    ghost legal: { (p : Self) (w : World) → IsIn p w → IsLegal w.config w.history };
}
