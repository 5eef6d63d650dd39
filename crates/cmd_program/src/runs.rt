ghost use Rattle.std.specs.Prelude.{◌≡◌, ℕ, List, IfOk, OnOk, OnErr};
ghost use Rattle.cm_base.specs.Configuration.{Configuration};
ghost use Rattle.cm_base.specs.Outside.{Faulted};
ghost use Rattle.cm_history.specs.Forms.{HasForm};
ghost use Rattle.cmd_program.specs.Meaning.{IsAskedOf};
ghost use Rattle.cmd_program.specs.Running.{Call, called};

use cm_history::{Act, ActRefused, Answer};

/// What a command did is not safe, so no reply may rest on it.
#[derive(Debug, Clone, Copy, PartialEq, Eq)]
pub struct Unsettled;

/// A nexus of units, by which the acts of its commands are done (own profile).
pub trait Runs {
    // The configuration of the units.
    ghost config: { Self → Configuration };
    // The number of the nexus.
    ghost number: { Self → ℕ };
    // It may be that these are the calls that it was asked so far.
    ghost StandsFor: { Self → List Call → Type 0 };
    // What its commands did is safe, so that a reply may rest on it.
    ghost Settled: { Self → Type 0 };
    // How many settles failed.
    ghost unsettled: { Self → ℕ };

    /// The number of the nexus. It takes no memory.
    fn nexus(&self) -> u32
        ensures { result ≡ number self.now };

    /// Does an act on a unit, at a moment in seconds. A refusal is a call too: Full where the unit's
    /// record has no room, OutOfMemory where memory is wanted; neither changes the unit.
    fn run(&mut self, unit: u16, moment: u64, act: Act) -> Result<Answer, ActRefused>
        requires { IsAskedOf (config self.old) unit act }
        ensures made { (calls : List Call) → StandsFor self.old calls
            → StandsFor self.new (called calls unit moment act result) }
        ensures form { IfOk result (λ a. HasForm (config self.old) unit act a) }
        ensures unsettled { unsettled self.new ≡ unsettled self.old }
        ensures config { config self.new ≡ config self.old }
        ensures number { number self.new ≡ number self.old };

    /// Is called when a command has ended, before its reply is pushed. At `Ok` what the command did is safe; at
    /// `Unsettled` it is not known to be, and no reply may be pushed. It asks for no act.
    fn settle(&mut self) -> Result<(), Unsettled>
        ensures made { (calls : List Call) → StandsFor self.old calls → StandsFor self.new calls }
        ensures settled { OnOk result (Settled self.new) }
        ensures sound { OnOk result (unsettled self.new ≡ unsettled self.old) }
        ensures counted { OnErr result (Faulted (unsettled self.old) (unsettled self.new)) }
        ensures config { config self.new ≡ config self.old }
        ensures number { number self.new ≡ number self.old };
}
