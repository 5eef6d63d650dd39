// What the acts on operations are answered, and what they are to change.
ghost use Rattle.std.specs.Prelude.{◌≡◌, ◌<◌, ◌≤◌, ◌+◌, ℕ, length, IfOk, true, false, if◌then◌else◌, List};
ghost use Rattle.cm_base.specs.Units.{unit_of};
ghost use Rattle.lba_ranges.specs.Denoted.{total, is_within, is_overlapping};
ghost use Rattle.cm_history.specs.Blocks.{held};
ghost use Rattle.cm_history.specs.declared.act.Act.{Act};
ghost use Rattle.cm_history.specs.declared.act.Actor.{Actor};
ghost use Rattle.cm_history.specs.Limits.{within_limits};
ghost use Rattle.cm_history.specs.Legal.{may_ask};
ghost use Rattle.cm_history.specs.declared.act.Entry.{Entry};
ghost use Rattle.cm_history.specs.Reserving.{reservations, bars_act};
ghost use Rattle.cm_history.specs.History.{past_of};
ghost use Rattle.unit_core.specs.inner.Planning.{IsPlan, WritesPiece, piece_plan};

use crate::block_change::BlockChange;
use crate::inner::{Core, Reached};
use crate::job_change::JobChange;
use crate::plan::Plan;
use crate::refusals;
use crate::room::{copy_key, token_key};
use cm_base::OutOfMemory;
use cm_history::{Actor, Answer, CopyEnd, OpState};
use copy_jobs::{Key, NextPiece};
use lba_ranges::{BlockList, Pins, RangeList, exceeds_quota};
use rod_store::TokenChange;
use scsi_sense::Sense;

/// How an operation stands behind a piece.
fn state_after(is_last: bool) -> OpState
    ensures { result ≡ (if is_last then OpState.Done else OpState.Running) }
{
    if is_last {
        OpState::Done
    } else {
        OpState::Running
    }
}

impl<B: Pins + Drop> Core<B>
where
    B::Pin: Drop,
{
    /// Keeps an operation that is to write the rod to the ranges.
    pub(crate) fn plan_start<'a>(
        &self,
        actor: Actor,
        id: u32,
        background: bool,
        ranges: &RangeList,
        rod: &BlockList,
    ) -> Result<Plan<'a>, OutOfMemory>
        requires known { ⟦<Core<B> as Reached>⟧.IsReached self.now }
        requires limits { within_limits self.now.config self.now.unit (Act.Start id background ranges.now rod.now) ≡ true }
        requires asked { may_ask self.now.unit actor (Act.Start id background ranges.now rod.now) ≡ true }
        ensures { IfOk result (λ p. (h : List Entry) → ⟦<Core<B> as Reached>⟧.IsAfter self.now h → (at : ℕ)
            → bars_act (reservations (past_of self.now.config self.now.unit h)) actor (Act.Start id background ranges.now rod.now) ≡ false
            → IsPlan self.now.config self.now.unit (past_of self.now.config self.now.unit h) actor at (Act.Start id background ranges.now rod.now) p) }
    {
        let key = token_key(actor, id);
        if self.tables.jobs.runs(key) {
            return Ok(Plan::answered(refusals::operation_in_progress()));
        }
        if !ranges.within(self.config.unit(self.unit).blocks) {
            return Ok(Plan::answered(refusals::lba_out_of_range()));
        }
        if self.tables.jobs.is_crowded() {
            return Ok(Plan::answered(refusals::insufficient_resources()));
        }
        let answer = Answer::Progress {
            state: state_after(rod.blocks() == 0),
            count: 0,
        };
        let ranges = ranges.copy(self.alloc)?;
        let rod = rod.copy(self.alloc)?;
        Ok(Plan::of_jobs(
            answer,
            JobChange::Start {
                key,
                background,
                ranges,
                rod,
            },
        ))
    }

    /// Writes the next piece of an operation, if the quota allows it: of a key, or without a key of the background
    /// operation that was begun first.
    pub(crate) fn plan_piece<'a>(
        &self,
        key: Option<Key>,
        otherwise: Answer,
    ) -> Result<Plan<'a>, OutOfMemory>
        requires known { ⟦<Core<B> as Reached>⟧.IsReached self.now }
        ensures { IfOk result (λ p. (h : List Entry) → ⟦<Core<B> as Reached>⟧.IsAfter self.now h → (actor : Actor) (at : ℕ) (act : Act) → WritesPiece self.now.unit actor act key otherwise
            → IsPlan self.now.config self.now.unit (past_of self.now.config self.now.unit h) actor at act p) }
    {
        match self.tables.jobs.next(key)? {
            Some(piece) => Ok(self.write_piece(piece)),
            None => Ok(Plan::answered(otherwise)),
        }
    }

    /// Writes the piece, if the quota allows it.
    fn write_piece<'a>(&self, piece: NextPiece) -> Plan<'a>
        requires known { ⟦<Core<B> as Reached>⟧.IsReached self.now }
        requires within { is_within (unit_of self.now.config self.now.unit).blocks piece.ranges ≡ true }
        requires apart { is_overlapping piece.ranges ≡ false }
        requires total { total piece.ranges ≡ length piece.list.items }
        requires few { piece.written + length piece.list.items ≤ 1_048_576 }
        ensures { (h : List Entry) → ⟦<Core<B> as Reached>⟧.IsAfter self.now h
            → result ≡ piece_plan (unit_of self.now.config self.now.unit) (held (past_of self.now.config self.now.unit h)) piece }
    {
        let quota = self.config.unit(self.unit).quota;
        let NextPiece {
            key,
            written,
            is_last,
            ranges,
            list,
        } = piece;
        if exceeds_quota(&self.tables.blocks, &ranges, &list, quota) {
            let answer = Answer::Progress {
                state: OpState::Failed(Sense::space_allocation_failed()),
                count: written,
            };
            return Plan::of_jobs(answer, JobChange::Stop { key });
        }
        let blocks = list.blocks() as u32;
        Plan {
            answer: Answer::Progress {
                state: state_after(is_last),
                count: written + blocks,
            },
            blocks: BlockChange::PutPiece { ranges, list },
            jobs: JobChange::Move { key, blocks },
            tokens: TokenChange::Nothing,
            reservations: None,
        }
    }

    /// Ends the foreground operation of the key.
    pub(crate) fn plan_end<'a>(&self, actor: Actor, id: u32) -> Plan<'a>
        requires known { ⟦<Core<B> as Reached>⟧.IsReached self.now }
        requires asked { may_ask self.now.unit actor (Act.End id) ≡ true }
        ensures { (h : List Entry) → ⟦<Core<B> as Reached>⟧.IsAfter self.now h → (at : ℕ)
            → IsPlan self.now.config self.now.unit (past_of self.now.config self.now.unit h) actor at (Act.End id) result }
    {
        let key = token_key(actor, id);
        if !self.tables.jobs.waits(Some(key)) {
            return Plan::answered(refusals::no_such_operation());
        }
        match self.tables.jobs.report(key) {
            Some(report) => {
                let answer = Answer::Progress {
                    state: OpState::Terminated,
                    count: report.count,
                };
                Plan::of_jobs(answer, JobChange::End { key })
            }
            None => Plan::answered(refusals::no_such_operation()),
        }
    }

    /// Ends the background operation of the key.
    pub(crate) fn plan_abort<'a>(&self, actor: Actor, id: u32) -> Plan<'a>
        requires known { ⟦<Core<B> as Reached>⟧.IsReached self.now }
        requires asked { may_ask self.now.unit actor (Act.Abort id) ≡ true }
        ensures { (h : List Entry) → ⟦<Core<B> as Reached>⟧.IsAfter self.now h → (at : ℕ)
            → IsPlan self.now.config self.now.unit (past_of self.now.config self.now.unit h) actor at (Act.Abort id) result }
    {
        let key = token_key(actor, id);
        if !self.tables.jobs.runs_in_background(key) {
            return Plan::answered(refusals::no_such_operation());
        }
        Plan::of_jobs(Answer::Done, JobChange::End { key })
    }

    /// Tells what is kept of the token operation of the key.
    pub(crate) fn plan_report<'a>(&self, actor: Actor, id: u32) -> Plan<'a>
        requires known { ⟦<Core<B> as Reached>⟧.IsReached self.now }
        requires asked { may_ask self.now.unit actor (Act.Report id) ≡ true }
        ensures { (h : List Entry) → ⟦<Core<B> as Reached>⟧.IsAfter self.now h → (at : ℕ)
            → IsPlan self.now.config self.now.unit (past_of self.now.config self.now.unit h) actor at (Act.Report id) result }
    {
        match self.tables.jobs.report(token_key(actor, id)) {
            Some(report) => Plan::answered(Answer::Report(report)),
            None => Plan::answered(refusals::no_such_operation()),
        }
    }

    /// Keeps a copy that its nexus is to carry out.
    pub(crate) fn plan_open<'a>(&self, actor: Actor, id: u8) -> Plan<'a>
        requires known { ⟦<Core<B> as Reached>⟧.IsReached self.now }
        requires asked { may_ask self.now.unit actor (Act.Open id) ≡ true }
        ensures { (h : List Entry) → ⟦<Core<B> as Reached>⟧.IsAfter self.now h → (at : ℕ)
            → IsPlan self.now.config self.now.unit (past_of self.now.config self.now.unit h) actor at (Act.Open id) result }
    {
        let key = copy_key(actor, id);
        if self.tables.jobs.runs(key) {
            return Plan::answered(refusals::operation_in_progress());
        }
        if self.tables.jobs.is_crowded() {
            return Plan::answered(refusals::insufficient_resources());
        }
        Plan::of_jobs(Answer::Done, JobChange::Open { key })
    }

    /// Keeps how the copy of the key ended.
    pub(crate) fn plan_close<'a>(&self, actor: Actor, id: u8, end: CopyEnd) -> Plan<'a>
        requires known { ⟦<Core<B> as Reached>⟧.IsReached self.now }
        requires limits { within_limits self.now.config self.now.unit (Act.Close id end) ≡ true }
        requires asked { may_ask self.now.unit actor (Act.Close id end) ≡ true }
        ensures { (h : List Entry) → ⟦<Core<B> as Reached>⟧.IsAfter self.now h → (at : ℕ)
            → IsPlan self.now.config self.now.unit (past_of self.now.config self.now.unit h) actor at (Act.Close id end) result }
    {
        let key = copy_key(actor, id);
        if !self.tables.jobs.runs(key) {
            return Plan::answered(refusals::no_such_operation());
        }
        Plan::of_jobs(Answer::Done, JobChange::Close { key, end })
    }

    /// Tells how the copy of the key ended.
    pub(crate) fn plan_recall<'a>(&self, actor: Actor, id: u8) -> Plan<'a>
        requires known { ⟦<Core<B> as Reached>⟧.IsReached self.now }
        requires asked { may_ask self.now.unit actor (Act.Recall id) ≡ true }
        ensures { (h : List Entry) → ⟦<Core<B> as Reached>⟧.IsAfter self.now h → (at : ℕ)
            → IsPlan self.now.config self.now.unit (past_of self.now.config self.now.unit h) actor at (Act.Recall id) result }
    {
        match self.tables.jobs.recall(copy_key(actor, id)) {
            Some(end) => Plan::answered(Answer::Copy(end)),
            None => Plan::answered(refusals::no_such_operation()),
        }
    }
}
