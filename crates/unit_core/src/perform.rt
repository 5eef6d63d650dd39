// What an act does to the tables of a unit.
ghost use Rattle.std.specs.Prelude.{◌≡◌, ℕ, ◌+◌, ◌≤◌, ◌++◌, ◌∷◌, [], IfOk, OnOk, OnErr, true, false, List};
ghost use Rattle.cm_history.specs.declared.act.Entry.{Entry};
ghost use Rattle.cm_history.specs.Answers.{answer_after};
ghost use Rattle.cm_history.specs.Ends.{ends_operation};
ghost use Rattle.cm_history.specs.History.{past_of};
ghost use Rattle.cm_history.specs.Legal.{may_ask};
ghost use Rattle.cm_history.specs.Limits.{within_limits};
ghost use Rattle.cm_history.specs.Room.{kept_free, need};
ghost use Rattle.unit_core.specs.Versions.{writer_seen};

use crate::inner::{Core, Reached};
use cm_base::OutOfMemory;
use cm_history::{Act, Actor, Answer, History};
use lba_ranges::Pins;

impl<B: Pins + Drop> Core<B>
where
    B::Pin: Drop,
{
    /// Does an act as the entry of this stamp, for which it makes room, and for what the operations then need. At
    /// `OutOfMemory` the unit answers as before.
    pub(crate) fn perform(
        &mut self,
        history: &mut History,
        actor: Actor,
        stamp: u64,
        moment: u64,
        act: &Act,
    ) -> Result<Answer, OutOfMemory>
        requires known { ⟦<Core<B> as Reached>⟧.IsReached self.old }
        requires pinned { ⟦<Core<B> as Reached>⟧.IsPinned self.old }
        requires limits { within_limits self.old.config self.old.unit act.now ≡ true }
        requires asked { may_ask self.old.unit actor act.now ≡ true }
        ensures answer { IfOk result (λ a. (h : List Entry) → ⟦<Core<B> as Reached>⟧.IsAfter self.old h
            → a ≡ answer_after self.old.config self.old.unit (past_of self.old.config self.old.unit h) actor moment act.now) }
        ensures after { OnOk result ((h : List Entry) (seq : ℕ) → ⟦<Core<B> as Reached>⟧.IsAfter self.old h
            → ⟦<Core<B> as Reached>⟧.IsAfter self.new (h ++ (record { stamp = stamp; unit = self.old.unit; actor = actor; seq = seq; moment = moment; act = act.now }) ∷ [])) }
        ensures written { OnOk result ((h : List Entry) (seq : ℕ) → ⟦<Core<B> as Reached>⟧.IsAfter self.old h
            → ⟦<Core<B> as Reached>⟧.IsWritten self.old (writer_seen (past_of self.old.config self.old.unit h))
            → ⟦<Core<B> as Reached>⟧.IsWritten self.new (writer_seen (past_of self.old.config self.old.unit
            (h ++ (record { stamp = stamp; unit = self.old.unit; actor = actor; seq = seq; moment = moment; act = act.now }) ∷ [])))) }
        ensures room { OnOk result ((h : List Entry) → ⟦<Core<B> as Reached>⟧.IsAfter self.old h
            → kept_free (past_of self.old.config self.old.unit h) + need (past_of self.old.config self.old.unit h) actor act.now ≤ history.new.spare) }
        ensures same { OnErr result ((h : List Entry) → ⟦<Core<B> as Reached>⟧.IsAfter self.old h → ⟦<Core<B> as Reached>⟧.IsAfter self.new h) }
        ensures writers { OnErr result ((h : List Entry) → ⟦<Core<B> as Reached>⟧.IsWritten self.old (writer_seen (past_of self.old.config self.old.unit h))
            → ⟦<Core<B> as Reached>⟧.IsWritten self.new (writer_seen (past_of self.old.config self.old.unit h))) }
        ensures ends { OnErr result ((h : List Entry) → ⟦<Core<B> as Reached>⟧.IsAfter self.old h
            → kept_free (past_of self.old.config self.old.unit h) ≤ history.old.spare
            → ends_operation (past_of self.old.config self.old.unit h) actor act.now ≡ false) }
        ensures pinned { ⟦<Core<B> as Reached>⟧.IsPinned self.new }
        ensures entries { history.new.entries ≡ history.old.entries }
        ensures spare { history.old.spare ≤ history.new.spare }
        ensures config { self.new.config ≡ self.old.config }
        ensures unit { self.new.unit ≡ self.old.unit }
        ensures stamp { OnOk result (self.new.last_stamp ≡ stamp) }
    {
        let room = self.tables.jobs.reserved() + self.need(actor, act);
        history.reserve(room)?;
        let plan = self.plan(actor, moment, act)?;
        let now = moment.max(self.moment);
        let answer = self.tables.change(now, plan)?;
        self.last_stamp = stamp;
        self.moment = now;
        Ok(answer)
    }
}
