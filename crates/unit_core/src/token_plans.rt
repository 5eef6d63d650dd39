// What the acts on tokens are answered, and what they are to change.
ghost use Rattle.std.specs.Prelude.{◌≡◌, ◌<◌, ℕ, length, IfOk, true, false, List};
ghost use Rattle.cm_history.specs.declared.act.Act.{Act};
ghost use Rattle.cm_history.specs.declared.act.Actor.{Actor};
ghost use Rattle.cm_history.specs.Limits.{within_limits};
ghost use Rattle.cm_history.specs.Legal.{may_ask};
ghost use Rattle.cm_history.specs.declared.act.Entry.{Entry};
ghost use Rattle.cm_history.specs.Reserving.{reservations, bars_act};
ghost use Rattle.cm_history.specs.History.{past_of};
ghost use Rattle.unit_core.specs.inner.Planning.{IsPlan};

use crate::block_change::BlockChange;
use crate::inner::{Core, Reached};
use crate::job_change::JobChange;
use crate::plan::Plan;
use crate::refusals;
use crate::room::token_key;
use cm_base::OutOfMemory;
use cm_history::{Actor, Answer};
use lba_ranges::{Pins, RangeList};
use rod_store::TokenChange;

/// Serials that a unit makes.
const SERIALS: u64 = 1 << 48;

impl<B: Pins + Drop> Core<B>
where
    B::Pin: Drop,
{
    /// Makes a token of the blocks of the ranges, as they stand.
    pub(crate) fn plan_populate<'a>(
        &self,
        actor: Actor,
        id: u32,
        timeout: u32,
        ranges: &RangeList,
    ) -> Result<Plan<'a>, OutOfMemory>
        requires known { ⟦<Core<B> as Reached>⟧.IsReached self.now }
        requires limits { within_limits self.now.config self.now.unit (Act.Populate id timeout ranges.now) ≡ true }
        requires asked { may_ask self.now.unit actor (Act.Populate id timeout ranges.now) ≡ true }
        ensures { IfOk result (λ p. (h : List Entry) → ⟦<Core<B> as Reached>⟧.IsAfter self.now h → (at : ℕ)
            → bars_act (reservations (past_of self.now.config self.now.unit h)) actor (Act.Populate id timeout ranges.now) ≡ false
            → IsPlan self.now.config self.now.unit (past_of self.now.config self.now.unit h) actor at (Act.Populate id timeout ranges.now) p) }
    {
        let key = token_key(actor, id);
        if self.tables.jobs.runs(key) {
            return Ok(Plan::answered(refusals::operation_in_progress()));
        }
        if !ranges.within(self.config.unit(self.unit).blocks) {
            return Ok(Plan::answered(refusals::lba_out_of_range()));
        }
        let serial = self.tables.tokens.next_serial();
        if serial >= SERIALS {
            return Ok(Plan::answered(refusals::insufficient_resources()));
        }
        let blocks = ranges.total() as u32;
        let ranges = ranges.copy(self.alloc)?;
        Ok(Plan {
            answer: Answer::Made { serial },
            blocks: BlockChange::Nothing,
            jobs: JobChange::Make {
                key,
                serial,
                blocks,
            },
            tokens: TokenChange::Make {
                timeout,
                blocks,
                ranges,
            },
            reservations: None,
        })
    }

    /// Gives the blocks of the token that the text names, and notes the use.
    pub(crate) fn plan_redeem<'a>(
        &self,
        moment: u64,
        text: &[u8; 512],
        target: u16,
    ) -> Result<Plan<'a>, OutOfMemory>
        requires known { ⟦<Core<B> as Reached>⟧.IsReached self.now }
        requires pinned { ⟦<Core<B> as Reached>⟧.IsPinned self.now }
        requires limits { within_limits self.now.config self.now.unit (Act.Redeem text.now target) ≡ true }
        ensures { IfOk result (λ p. (h : List Entry) → ⟦<Core<B> as Reached>⟧.IsAfter self.now h → (actor : Actor)
            → IsPlan self.now.config self.now.unit (past_of self.now.config self.now.unit h) actor moment (Act.Redeem text.now target) p) }
    {
        let now = moment.max(self.moment);
        match self.tables.tokens.peek(&self.config, now, text, target) {
            Ok((serial, rod)) => {
                let list = self
                    .tables
                    .blocks
                    .cut_at(self.alloc, &rod.pin, &rod.ranges)?;
                Ok(Plan::of_tokens(Answer::Rod(list), TokenChange::Use { serial }))
            }
            Err(sense) => Ok(Plan::answered(Answer::Refused(sense))),
        }
    }

    /// Deletes a token.
    pub(crate) fn plan_delete<'a>(&self, serial: u64) -> Plan<'a>
        ensures { (h : List Entry) → ⟦<Core<B> as Reached>⟧.IsAfter self.now h → (actor : Actor) (at : ℕ)
            → IsPlan self.now.config self.now.unit (past_of self.now.config self.now.unit h) actor at (Act.Delete serial) result }
    {
        Plan::of_tokens(Answer::Done, TokenChange::Delete { serial })
    }
}
