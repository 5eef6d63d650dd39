// What the acts on reservations are answered, and what they are to change.
ghost use Rattle.std.specs.Prelude.{◌≡◌, ℕ, IfOk, List};
ghost use Rattle.cm_history.specs.declared.act.Act.{Act};
ghost use Rattle.cm_history.specs.declared.act.Actor.{Actor};
ghost use Rattle.cm_history.specs.declared.act.Entry.{Entry};
ghost use Rattle.cm_history.specs.History.{past_of};
ghost use Rattle.unit_core.specs.inner.Planning.{IsPlan};

use crate::inner::{Core, Reached};
use crate::plan::Plan;
use cm_base::OutOfMemory;
use cm_history::{Actor, ReserveOutcome, answer_holder, answer_keys, reserve};
use lba_ranges::Pins;

impl<B: Pins + Drop> Core<B>
where
    B::Pin: Drop,
{
    /// Does what a PERSISTENT RESERVE OUT asks, given by its fields.
    pub(crate) fn plan_out<'a>(
        &self,
        actor: Actor,
        action: u8,
        scope: u8,
        kind: u8,
        key: u64,
        action_key: u64,
    ) -> Result<Plan<'a>, OutOfMemory>
        requires known { ⟦<Core<B> as Reached>⟧.IsReached self.now }
        ensures { IfOk result (λ p. (h : List Entry) → ⟦<Core<B> as Reached>⟧.IsAfter self.now h → (at : ℕ)
            → IsPlan self.now.config self.now.unit (past_of self.now.config self.now.unit h) actor at (Act.PrOut action scope kind key action_key) p) }
    {
        let held = &self.tables.reservations;
        let ReserveOutcome {
            reservations,
            answer,
        } = reserve(held, actor, action, scope, kind, key, action_key)?;
        Ok(Plan::of_reservations(answer, reservations))
    }

    /// Tells the keys of the registered nexuses.
    pub(crate) fn plan_keys<'a>(&self) -> Result<Plan<'a>, OutOfMemory>
        requires known { ⟦<Core<B> as Reached>⟧.IsReached self.now }
        ensures { IfOk result (λ p. (h : List Entry) → ⟦<Core<B> as Reached>⟧.IsAfter self.now h → (actor : Actor) (at : ℕ)
            → IsPlan self.now.config self.now.unit (past_of self.now.config self.now.unit h) actor at Act.PrKeys p) }
    {
        Ok(Plan::answered(answer_keys(&self.tables.reservations)?))
    }

    /// Tells the reservation.
    pub(crate) fn plan_holder<'a>(&self) -> Plan<'a>
        requires known { ⟦<Core<B> as Reached>⟧.IsReached self.now }
        ensures { (h : List Entry) → ⟦<Core<B> as Reached>⟧.IsAfter self.now h → (actor : Actor) (at : ℕ)
            → IsPlan self.now.config self.now.unit (past_of self.now.config self.now.unit h) actor at Act.PrHolder result }
    {
        Plan::answered(answer_holder(&self.tables.reservations))
    }
}
