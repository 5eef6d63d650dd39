// What each act is answered, and what it is to change.
ghost use Rattle.std.specs.Prelude.{◌≡◌, ◌<◌, ◌≤◌, ℕ, length, max, IfOk, OnErr, true, false, List};
ghost use Rattle.cm_base.specs.Units.{unit_of};
ghost use Rattle.cm_history.specs.declared.act.Act.{Act};
ghost use Rattle.cm_history.specs.declared.act.Actor.{Actor};
ghost use Rattle.cm_history.specs.Limits.{within_limits};
ghost use Rattle.cm_history.specs.Legal.{may_ask};
ghost use Rattle.cm_history.specs.declared.act.Entry.{Entry};
ghost use Rattle.cm_history.specs.Ends.{ends_operation};
ghost use Rattle.cm_history.specs.History.{past_of};
ghost use Rattle.cm_history.specs.Reserving.{reservations, bars_act};
ghost use Rattle.unit_core.specs.inner.Planning.{IsPlan, Reads, Writes};

use crate::inner::{Core, Reached};
use crate::plan::Plan;
use crate::room::token_key;
use crate::{block_plans as blocks, refusals};
use cm_base::OutOfMemory;
use cm_history::{Act, Actor, Answer, bars};
use lba_ranges::{BlockList, Pins, RangeList};

impl<B: Pins + Drop> Core<B>
where
    B::Pin: Drop,
{
    /// What an act is answered, and what it is to change. One that ends an operation takes no memory.
    pub(crate) fn plan<'a>(
        &self,
        actor: Actor,
        moment: u64,
        act: &'a Act,
    ) -> Result<Plan<'a>, OutOfMemory>
        requires known { ⟦<Core<B> as Reached>⟧.IsReached self.now }
        requires pinned { ⟦<Core<B> as Reached>⟧.IsPinned self.now }
        requires limits { within_limits self.now.config self.now.unit act.now ≡ true }
        requires asked { may_ask self.now.unit actor act.now ≡ true }
        ensures planned { IfOk result (λ p. (h : List Entry) → ⟦<Core<B> as Reached>⟧.IsAfter self.now h
            → IsPlan self.now.config self.now.unit (past_of self.now.config self.now.unit h) actor moment act.now p) }
        ensures memory { OnErr result ((h : List Entry) → ⟦<Core<B> as Reached>⟧.IsAfter self.now h
            → ends_operation (past_of self.now.config self.now.unit h) actor act.now ≡ false) }
    {
        if bars(&self.tables.reservations, actor, act) {
            return Ok(Plan::answered(Answer::Conflict));
        }
        self.plan_unbarred(actor, moment, act)
    }

    /// What an act that no reservation bars is answered, and what it is to change.
    fn plan_unbarred<'a>(
        &self,
        actor: Actor,
        moment: u64,
        act: &'a Act,
    ) -> Result<Plan<'a>, OutOfMemory>
        requires known { ⟦<Core<B> as Reached>⟧.IsReached self.now }
        requires pinned { ⟦<Core<B> as Reached>⟧.IsPinned self.now }
        requires limits { within_limits self.now.config self.now.unit act.now ≡ true }
        requires asked { may_ask self.now.unit actor act.now ≡ true }
        ensures planned { IfOk result (λ p. (h : List Entry) → ⟦<Core<B> as Reached>⟧.IsAfter self.now h
            → bars_act (reservations (past_of self.now.config self.now.unit h)) actor act.now ≡ false
            → IsPlan self.now.config self.now.unit (past_of self.now.config self.now.unit h) actor moment act.now p) }
        ensures memory { OnErr result ((h : List Entry) → ⟦<Core<B> as Reached>⟧.IsAfter self.now h
            → ends_operation (past_of self.now.config self.now.unit h) actor act.now ≡ false) }
    {
        match act {
            Act::Read { lba, count } | Act::Capture { lba, count } => self.plan_read(*lba, *count),
            Act::Write { lba, list } | Act::Put { lba, list } => self.plan_write(*lba, list),
            Act::Unmap { ranges } => Ok(self.plan_unmap(ranges)),
            Act::MapStatus { lba } => self.plan_status(*lba),
            Act::Populate {
                id,
                timeout,
                ranges,
            } => self.plan_populate(actor, *id, *timeout, ranges),
            Act::Redeem { text, target } => self.plan_redeem(moment, text.bytes(), *target),
            Act::Delete { serial } => Ok(self.plan_delete(*serial)),
            Act::Start {
                id,
                background,
                ranges,
                rod,
            } => { self.plan_start(actor, *id, *background, ranges, rod.list()) }
            Act::Advance { id } => {
                self.plan_piece(Some(token_key(actor, *id)), refusals::no_such_operation())
            }
            Act::Pump => self.plan_piece(None, Answer::Idle),
            Act::End { id } => Ok(self.plan_end(actor, *id)),
            Act::Abort { id } => Ok(self.plan_abort(actor, *id)),
            Act::Report { id } => Ok(self.plan_report(actor, *id)),
            Act::Open { id } => Ok(self.plan_open(actor, *id)),
            Act::Close { id, result } => Ok(self.plan_close(actor, *id, *result)),
            Act::Recall { id } => Ok(self.plan_recall(actor, *id)),
            Act::PrOut {
                action,
                scope,
                kind,
                key,
                action_key,
            } => self.plan_out(actor, *action, *scope, *kind, *key, *action_key),
            Act::PrKeys => self.plan_keys(),
            Act::PrHolder => Ok(self.plan_holder()),
        }
    }

    /// Reads blocks as they stand.
    fn plan_read<'a>(&self, lba: u64, count: u32) -> Result<Plan<'a>, OutOfMemory>
        requires known { ⟦<Core<B> as Reached>⟧.IsReached self.now }
        ensures { IfOk result (λ p. (h : List Entry) → ⟦<Core<B> as Reached>⟧.IsAfter self.now h → (actor : Actor) (at : ℕ) (act : Act) → Reads lba count act → bars_act (reservations (past_of self.now.config self.now.unit h)) actor act ≡ false
            → IsPlan self.now.config self.now.unit (past_of self.now.config self.now.unit h) actor at act p) }
    {
        let unit = self.config.unit(self.unit);
        let plan = blocks::read(self.alloc, &self.tables.blocks, unit, lba, count)?;
        Ok(Plan::of_blocks(plan))
    }

    /// Writes the list to the blocks from `lba` on, if the quota allows it.
    fn plan_write<'a>(&self, lba: u64, list: &'a BlockList) -> Result<Plan<'a>, OutOfMemory>
        requires known { ⟦<Core<B> as Reached>⟧.IsReached self.now }
        requires length { list.now.block_length ≡ (unit_of self.now.config self.now.unit).block_length }
        requires few { length list.now.items ≤ 2048 }
        ensures { IfOk result (λ p. (h : List Entry) → ⟦<Core<B> as Reached>⟧.IsAfter self.now h → (actor : Actor) (at : ℕ) (act : Act) → Writes lba list.now act → bars_act (reservations (past_of self.now.config self.now.unit h)) actor act ≡ false
            → IsPlan self.now.config self.now.unit (past_of self.now.config self.now.unit h) actor at act p) }
    {
        let unit = self.config.unit(self.unit);
        let plan = blocks::write(self.alloc, &self.tables.blocks, unit, lba, list)?;
        Ok(Plan::of_blocks(plan))
    }

    /// Unmaps the blocks of the ranges.
    fn plan_unmap<'a>(&self, ranges: &'a RangeList) -> Plan<'a>
        requires known { ⟦<Core<B> as Reached>⟧.IsReached self.now }
        ensures { (h : List Entry) → ⟦<Core<B> as Reached>⟧.IsAfter self.now h → (actor : Actor) (at : ℕ) → bars_act (reservations (past_of self.now.config self.now.unit h)) actor (Act.Unmap ranges.now) ≡ false
            → IsPlan self.now.config self.now.unit (past_of self.now.config self.now.unit h) actor at (Act.Unmap ranges.now) result }
    {
        let unit = self.config.unit(self.unit);
        let plan = blocks::unmap(unit, ranges);
        Plan::of_blocks(plan)
    }

    /// Which blocks are mapped from `lba` on.
    fn plan_status<'a>(&self, lba: u64) -> Result<Plan<'a>, OutOfMemory>
        requires known { ⟦<Core<B> as Reached>⟧.IsReached self.now }
        ensures { IfOk result (λ p. (h : List Entry) → ⟦<Core<B> as Reached>⟧.IsAfter self.now h → (actor : Actor) (at : ℕ) → bars_act (reservations (past_of self.now.config self.now.unit h)) actor (Act.MapStatus lba) ≡ false
            → IsPlan self.now.config self.now.unit (past_of self.now.config self.now.unit h) actor at (Act.MapStatus lba) p) }
    {
        let unit = self.config.unit(self.unit);
        let plan = blocks::status(self.alloc, &self.tables.blocks, unit, lba)?;
        Ok(Plan::of_blocks(plan))
    }
}
