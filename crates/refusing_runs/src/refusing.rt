ghost use Rattle.std.specs.Prelude.{◌≡◌, List, IfOk, Err, true, false};
ghost use Rattle.cm_base.specs.Memory.{one_more};
ghost use Rattle.cm_history.specs.Forms.{HasForm};
ghost use Rattle.cm_history.specs.declared.refused.ActRefused.{ActRefused};
ghost use Rattle.cmd_program.specs.Meaning.{IsAskedOf};
ghost use Rattle.cmd_program.specs.Running.{Call, called};
ghost use Rattle.refusing_runs.specs.Refusals.{is_refused, takes_memory, refused_once};

use cm_base::CallList;
use cm_history::{Act, ActRefused, Answer};
use cmd_program::{Runs, Unsettled};
use std::marker::Model;

/// A nexus over another one, which is refused memory at the calls whose numbers are listed (own profile).
#[derive(Drop)]
pub struct Refusing<R> {
    inner: R,
    failing: CallList,
    calls: u64,
}

impl<R> Model for Refusing<R> {
    ghost use Rattle.refusing_runs.specs.Refusals.{Refusals};

    ghost Value = { Refusals R };

    ghost view = { λ n. record { inner = n.inner; failing = n.failing; calls = n.calls } };
}

/// An act that ends an operation takes no memory: what it needs was taken when the operation began.
fn wants_memory(act: &Act) -> bool
    ensures { result ≡ takes_memory act.now }
{
    !matches!(act, Act::End { .. } | Act::Abort { .. } | Act::Close { .. })
}

impl<R> Refusing<R> {
    /// The next call is refused where it asks for this act.
    fn refuses(&self, act: &Act) -> bool
        ensures { result ≡ is_refused self.now.failing self.now.calls act.now }
    {
        let call = self.calls.saturating_add(1);
        wants_memory(act) && self.failing.as_slice().contains(&call)
    }
}

impl<R: Runs> Refusing<R> {
    /// A nexus that passes its calls on to this one, but for those whose numbers, from 1, are listed:
    /// they are refused for want of memory, and not passed on. An End, Abort or Close takes no
    /// memory, so it is passed on though it is listed. `new` takes no memory.
    pub fn new(inner: R, failing: CallList) -> Refusing<R>
        ensures made { result ≡ record { inner = inner; failing = failing; calls = 0 } }
        ensures stands { (calls : List Call) → R.StandsFor inner calls → ⟦<Refusing<R> as Runs>⟧.StandsFor result calls }
    {
        Refusing {
            inner,
            failing,
            calls: 0,
        }
    }
}

impl<R: Runs> Runs for Refusing<R> {
    ghost use Rattle.std.specs.Prelude.{List};
    ghost use Rattle.cmd_program.specs.Running.{Call};
    ghost use Rattle.refusing_runs.specs.Refusals.{HasRefusals};

    ghost config = { λ n. R.config n.inner };

    ghost number = { λ n. R.number n.inner };

    ghost StandsFor = { λ n calls. (done : List Call) × R.StandsFor n.inner done × HasRefusals done calls };

    ghost Settled = { λ n. R.Settled n.inner };

    ghost unsettled = { λ n. R.unsettled n.inner };

    fn nexus(&self) -> u32 {
        self.inner.nexus()
    }

    /// Refuses the act where this call is listed and the act takes memory: the inner nexus is then
    /// not asked. Else the act is done by the inner nexus. It takes no memory of its own.
    fn run(&mut self, unit: u16, moment: u64, act: Act) -> Result<Answer, ActRefused>
        requires { IsAskedOf (R.config self.old.inner) unit act }
        ensures made { (calls : List Call) → ⟦<Refusing<R> as Runs>⟧.StandsFor self.old calls
            → ⟦<Refusing<R> as Runs>⟧.StandsFor self.new (called calls unit moment act result) }
        ensures form { IfOk result (λ a. HasForm (R.config self.old.inner) unit act a) }
        ensures unsettled { R.unsettled self.new.inner ≡ R.unsettled self.old.inner }
        ensures config { R.config self.new.inner ≡ R.config self.old.inner }
        ensures number { R.number self.new.inner ≡ R.number self.old.inner }
        ensures refused { is_refused self.old.failing self.old.calls act ≡ true
            → (result ≡ Err ActRefused.OutOfMemory) × (self.new ≡ refused_once self.old) }
        ensures passed { is_refused self.old.failing self.old.calls act ≡ false
            → (calls : List Call) → R.StandsFor self.old.inner calls
            → R.StandsFor self.new.inner (called calls unit moment act result) }
        ensures counted { self.new.calls ≡ one_more self.old.calls }
        ensures failing { self.new.failing ≡ self.old.failing }
    {
        let refused = self.refuses(&act);
        self.calls = self.calls.saturating_add(1);
        if refused {
            return Err(ActRefused::OutOfMemory);
        }
        self.inner.run(unit, moment, act)
    }

    /// Settles the inner nexus.
    fn settle(&mut self) -> Result<(), Unsettled> {
        self.inner.settle()
    }
}
