ghost use Rattle.std.specs.Prelude.{◌≡◌, ◌<◌, ◌∷◌, [], ◌^◌, length, max, find, true, false, Some, IfOk, OnOk, OnErr};
ghost use Rattle.std.specs.Option.{option_copied};
ghost use Rattle.cm_base.specs.Units.{unit_of};
ghost use Rattle.lba_ranges.specs.Denoted.{blocks_of};
ghost use Rattle.cm_history.specs.declared.act.Act.{Act};
ghost use Rattle.cm_history.specs.Answers.{answer_after, answer_unbarred, answer_populate, answer_start, answer_open, progress, is_busy, is_crowded, piece_of, writings, deed};
ghost use Rattle.cm_history.specs.Deeds.{moment};
ghost use Rattle.cm_history.specs.Limits.{within_limits};
ghost use Rattle.cm_history.specs.Operations.{OfToken, OfCopy, has_key, kept, next_piece, operations, running, would_serve};
ghost use Rattle.cm_history.specs.Redeeming.{redeemed, named_token};
ghost use Rattle.cm_history.specs.Reserving.{reservations, reserved_by, bars_act};
ghost use Rattle.cm_history.specs.Room.{kept_free, need, need_to_serve, is_full};
ghost use Rattle.plain_model.specs.inner.Amounts.{capped, IsShortAct};
ghost use Rattle.plain_model.specs.inner.Forms.{as_form};
ghost use Rattle.plain_model.specs.inner.Holds.{IsSizedPast, MayFollow, writes};
ghost use Rattle.plain_model.specs.inner.Outcomes.{IsOutcome};
ghost use Rattle.cm_history.specs.Tokens.{tokens};

use crate::acts::{self, PlainForm, bytes_in, is_write};
use crate::deeds::{DeedParts, PlainDeed, PlainPast};
use crate::operation_answers::{answer_end, answer_recall, answer_report, done_if};
use crate::operations::PlainOperation;
use crate::outcome::PlainOutcome;
use crate::reservations::answer_out;
use crate::tables::PlainTables;
use crate::tokens::PlainToken;
use crate::{blocks, refusals};
use cm_base::{Config, OutOfMemory, UnitConfig};
use cm_history::{Act, Actor, Answer, Entry, OpState, answer_holder, answer_keys, bars, pieces};
use lba_ranges::{BlockList, RangeList};
use std::alloc::Global;
use std::marker::Model;

/// Operations that run at most.
const RUNNING_OPERATIONS: usize = 64;

/// Serials that a unit makes.
const SERIALS: usize = 1 << 48;

/// What a unit has done, with the tables that come of it. Contracts see its deeds, the latest first.
#[derive(Drop)]
pub(crate) struct PlainUnit {
    past: PlainPast,
    tables: PlainTables,
}

impl Model for PlainUnit {
    ghost use Rattle.std.specs.Prelude.{List};
    ghost use Rattle.cm_history.specs.Deeds.{Deed};

    ghost Value = { List Deed };

    ghost use Rattle.plain_model.specs.inner.Tables.{ComeOf};

    ghost view = { λ u. u.past };

    ghost invariant = { λ u. ComeOf u.past u.tables };
}

impl PlainUnit {
    /// A unit that has done nothing.
    pub(crate) fn new(alloc: Global) -> PlainUnit
        ensures { result ≡ [] }
    {
        PlainUnit {
            past: PlainPast::new(alloc),
            tables: PlainTables::new(alloc),
        }
    }

    /// The running operation that the act would serve: the one that was made first.
    fn would_serve(&self, actor: Actor, act: &Act) -> Option<&PlainOperation>
        ensures { option_copied result ≡ would_serve self.now actor act.now }
    {
        for operation in &self.tables.operations {
            if operation.is_running() && operation.fits(actor, act) {
                return Some(operation);
            }
        }
        None
    }

    /// The record of the first operation of the key that is kept.
    fn kept(&self, actor: Actor, form: PlainForm, id: u32) -> Option<&PlainOperation>
        ensures { option_copied result ≡ find (has_key actor (as_form form) id) (kept self.now) }
    {
        for operation in &self.tables.kept {
            if operation.has_key(actor, form, id) {
                return Some(operation);
            }
        }
        None
    }

    /// An operation of the key runs.
    fn is_busy(&self, actor: Actor, form: PlainForm, id: u32) -> bool
        ensures { result ≡ is_busy self.now actor (as_form form) id }
    {
        for operation in &self.tables.operations {
            if operation.is_running() && operation.has_key(actor, form, id) {
                return true;
            }
        }
        false
    }

    /// 64 operations run.
    fn is_crowded(&self) -> bool
        ensures { result ≡ is_crowded self.now }
    {
        let mut running = 0;
        for operation in &self.tables.operations {
            if operation.is_running() {
                running += 1;
            }
        }
        running >= RUNNING_OPERATIONS
    }

    /// The token that a text names, if the unit made it.
    fn named_token(&self, text: &[u8; 512]) -> Option<&PlainToken>
        ensures { option_copied result ≡ named_token self.now text.now }
    {
        self.tables.tokens.get(acts::serial_of(text) as usize)
    }

    fn populate(&self, unit: UnitConfig, actor: Actor, id: u32, ranges: &RangeList) -> Answer
        ensures { result ≡ answer_populate unit self.now actor id ranges.now }
    {
        if self.is_busy(actor, PlainForm::OfToken, id) {
            return refusals::in_use();
        }
        if !ranges.within(unit.blocks) {
            return refusals::out_of_range();
        }
        if self.tables.tokens.len() >= SERIALS {
            return refusals::too_many();
        }
        Answer::Made {
            serial: self.tables.tokens.len() as u64,
        }
    }

    fn redeem(
        &self,
        alloc: Global,
        config: &Config,
        unit: u16,
        now: u64,
        text: &[u8; 512],
        target: u16,
    ) -> Result<Answer, OutOfMemory>
        requires unit { unit < length config.now.units }
        requires target { target < length config.now.units }
        requires sized { IsSizedPast (unit_of config.now unit).block_length self.now }
        ensures { IfOk result (λ a. a ≡ redeemed config.now unit now text.now target (named_token self.now text.now)) }
    {
        match self.named_token(text) {
            Some(token) => token.redeemed(alloc, config, unit, now, text, target),
            None => Ok(refusals::not_made()),
        }
    }

    fn start(
        &self,
        unit: UnitConfig,
        actor: Actor,
        id: u32,
        ranges: &RangeList,
        rod: &BlockList,
    ) -> Answer
        ensures { result ≡ answer_start unit self.now actor id ranges.now rod.now }
    {
        if self.is_busy(actor, PlainForm::OfToken, id) {
            return refusals::in_use();
        }
        if !ranges.within(unit.blocks) {
            return refusals::out_of_range();
        }
        if self.is_crowded() {
            return refusals::too_many();
        }
        let state = if rod.blocks() == 0 {
            OpState::Done
        } else {
            OpState::Running
        };
        Answer::Progress { state, count: 0 }
    }

    fn open(&self, actor: Actor, id: u32) -> Answer
        ensures { result ≡ answer_open self.now actor id }
    {
        if self.is_busy(actor, PlainForm::OfCopy, id) {
            return refusals::in_use();
        }
        if self.is_crowded() {
            return refusals::too_many();
        }
        Answer::Done
    }

    /// Writes the next piece of an operation, if the quota allows it.
    fn write_piece(
        &self,
        alloc: Global,
        unit: UnitConfig,
        operation: &PlainOperation,
    ) -> Result<PlainOutcome, OutOfMemory>
        requires { unit.blocks < 2 ^ 63 }
        ensures { IfOk result (λ o. IsOutcome o (progress unit self.now Answer.Idle (Some operation.now)) (next_piece operation.now)) }
    {
        let piece = operation.next_piece(alloc)?;
        let before = operation.count();
        if self.past.maps_beyond(unit.quota, unit.blocks, &piece) {
            let state = OpState::Failed(refusals::quota_sense());
            let count = before;
            return Ok(PlainOutcome::told(alloc, Answer::Progress { state, count }));
        }
        let count = before + piece.len() as u32;
        let state = if u64::from(count) == operation.blocks() {
            OpState::Done
        } else {
            OpState::Running
        };
        Ok(PlainOutcome {
            answer: Answer::Progress { state, count },
            wrote: piece,
        })
    }

    /// Writes the next piece of the operation that the act serves, if there is one.
    fn progress(
        &self,
        alloc: Global,
        unit: UnitConfig,
        otherwise: Answer,
        served: Option<&PlainOperation>,
    ) -> Result<PlainOutcome, OutOfMemory>
        requires { unit.blocks < 2 ^ 63 }
        ensures { IfOk result (λ o. IsOutcome o (progress unit self.now otherwise (option_copied served.entry)) (piece_of (option_copied served.entry))) }
    {
        match served {
            Some(operation) => self.write_piece(alloc, unit, operation),
            None => Ok(PlainOutcome::told(alloc, otherwise)),
        }
    }
}

impl PlainUnit {
    /// What an act is answered that writes no blocks, where no reservation stands against it.
    fn told(
        &self,
        alloc: Global,
        config: &Config,
        number: u16,
        actor: Actor,
        moment: u64,
        act: &Act,
    ) -> Result<Answer, OutOfMemory>
        requires configured { number < length config.now.units }
        requires limits { within_limits config.now number act.now ≡ true }
        requires sized { IsSizedPast (unit_of config.now number).block_length self.now }
        requires told { writes act.now ≡ false }
        ensures { IfOk result (λ a. a ≡ answer_unbarred config.now number self.now actor moment act.now) }
    {
        let unit = config.unit(number);
        let served = self.would_serve(actor, act);
        match act {
            Act::Read { lba, count } | Act::Capture { lba, count } => {
                blocks::read(alloc, unit, &self.past, *lba, *count)
            }
            Act::MapStatus { lba } => blocks::status(alloc, unit, &self.past, *lba),
            Act::Populate { id, ranges, .. } => Ok(self.populate(unit, actor, *id, ranges)),
            Act::Redeem { text, target } => {
                let now = moment.max(self.past.moment());
                self.redeem(alloc, config, number, now, text.bytes(), *target)
            }
            Act::Start {
                id,
                ranges,
                rod,
                ..
            } => Ok(self.start(unit, actor, *id, ranges, rod.list())),
            Act::End { .. } => Ok(answer_end(served)),
            Act::Abort { .. } => Ok(done_if(served)),
            Act::Close { .. } => Ok(done_if(served)),
            Act::Report { id } => Ok(answer_report(self.kept(actor, PlainForm::OfToken, *id))),
            Act::Open { id } => Ok(self.open(actor, u32::from(*id))),
            Act::Recall { id } => {
                let found = self.kept(actor, PlainForm::OfCopy, u32::from(*id));
                Ok(answer_recall(found))
            }
            Act::PrOut { .. } => answer_out(&self.tables.reservations, actor, act),
            Act::PrKeys => answer_keys(&self.tables.reservations),
            Act::PrHolder => Ok(answer_holder(&self.tables.reservations)),
            _ => Ok(Answer::Done),
        }
    }

    /// What an act is answered, and what it writes.
    pub(crate) fn outcome(
        &self,
        alloc: Global,
        config: &Config,
        number: u16,
        actor: Actor,
        moment: u64,
        act: &Act,
    ) -> Result<PlainOutcome, OutOfMemory>
        requires configured { number < length config.now.units }
        requires limits { within_limits config.now number act.now ≡ true }
        requires sized { IsSizedPast (unit_of config.now number).block_length self.now }
        ensures { IfOk result (λ o. IsOutcome o (answer_after config.now number self.now actor moment act.now) (writings self.now actor act.now)) }
    {
        if self.is_barred(actor, act) {
            return Ok(PlainOutcome::told(alloc, Answer::Conflict));
        }
        self.unbarred(alloc, config, number, actor, moment, act)
    }

    /// A reservation stands against the act.
    fn is_barred(&self, actor: Actor, act: &Act) -> bool
        ensures { result ≡ bars_act (reservations self.now) actor act.now }
    {
        bars(&self.tables.reservations, actor, act)
    }

    /// What an act is answered, and what it writes, where no reservation stands against it.
    fn unbarred(
        &self,
        alloc: Global,
        config: &Config,
        number: u16,
        actor: Actor,
        moment: u64,
        act: &Act,
    ) -> Result<PlainOutcome, OutOfMemory>
        requires configured { number < length config.now.units }
        requires limits { within_limits config.now number act.now ≡ true }
        requires sized { IsSizedPast (unit_of config.now number).block_length self.now }
        ensures { IfOk result (λ o. IsOutcome o (answer_unbarred config.now number self.now actor moment act.now) (writings self.now actor act.now)) }
    {
        let unit = config.unit(number);
        match act {
            Act::Write { lba, list } | Act::Put { lba, list } => {
                blocks::write(alloc, unit, &self.past, *lba, list)
            }
            Act::Unmap { ranges } => blocks::unmap(alloc, unit, ranges),
            Act::Advance { .. } => {
                let otherwise = refusals::no_such_operation();
                self.progress(alloc, unit, otherwise, self.would_serve(actor, act))
            }
            Act::Pump => { self.progress(alloc, unit, Answer::Idle, self.would_serve(actor, act)) }
            _ => {
                let answer = self.told(alloc, config, number, actor, moment, act)?;
                Ok(PlainOutcome::told(alloc, answer))
            }
        }
    }

    /// The deed of an entry that serves this operation and has this outcome, behind all deeds.
    fn next_deed(
        &self,
        alloc: Global,
        entry: &Entry,
        served: Option<u64>,
        outcome: PlainOutcome,
    ) -> Result<PlainDeed, OutOfMemory>
        ensures { IfOk result (λ d. d ≡ record {
          entry = entry.now;
          place = length self.now;
          moment = max entry.now.moment (moment self.now);
          answer = outcome.answer;
          wrote = outcome.wrote;
          served = served;
        }) }
    {
        let parts = DeedParts {
            entry: entry.copy(alloc)?,
            place: self.past.len() as u64,
            moment: entry.moment.max(self.past.moment()),
            answer: outcome.answer,
            wrote: outcome.wrote,
            served,
        };
        PlainDeed::new(alloc, parts)
    }

    /// The deed that comes of an entry.
    fn deed(
        &self,
        alloc: Global,
        config: &Config,
        number: u16,
        entry: &Entry,
    ) -> Result<PlainDeed, OutOfMemory>
        requires configured { number < length config.now.units }
        requires limits { within_limits config.now number entry.now.act ≡ true }
        requires sized { IsSizedPast (unit_of config.now number).block_length self.now }
        ensures { IfOk result (λ d. d ≡ deed config.now number self.now entry.now) }
    {
        let served = match self.would_serve(entry.actor, &entry.act) {
            Some(operation) => Some(operation.place()),
            None => None,
        };
        let outcome = self.outcome(alloc, config, number, entry.actor, entry.moment, &entry.act)?;
        self.next_deed(alloc, entry, served, outcome)
    }

    /// Adds a deed. At `OutOfMemory` nothing changes.
    fn push(&mut self, alloc: Global, deed: &PlainDeed) -> Result<(), OutOfMemory>
        requires { MayFollow self.old deed.now }
        ensures ok { OnOk result (self.new ≡ deed.now ∷ self.old) }
        ensures err { OnErr result (self.new ≡ self.old) }
    {
        let tables = self.tables.after(alloc, &self.past, deed)?;
        self.past.push(deed)?;
        self.tables = tables;
        Ok(())
    }

    /// Adds an entry. At `OutOfMemory` nothing changes.
    pub(crate) fn add(
        &mut self,
        alloc: Global,
        config: &Config,
        number: u16,
        entry: &Entry,
    ) -> Result<(), OutOfMemory>
        requires configured { number < length config.now.units }
        requires limits { within_limits config.now number entry.now.act ≡ true }
        requires sized { IsSizedPast (unit_of config.now number).block_length self.old }
        requires follows { MayFollow self.old (deed config.now number self.old entry.now) }
        ensures ok { OnOk result (self.new ≡ deed config.now number self.old entry.now ∷ self.old) }
        ensures err { OnErr result (self.new ≡ self.old) }
    {
        let deed = self.deed(alloc, config, number, entry)?;
        self.push(alloc, &deed)
    }
}

impl PlainUnit {
    /// The entries that are kept free for the operations that run.
    fn reserved(&self) -> u64
        ensures { result ≡ capped (kept_free self.now) }
    {
        let mut reserved = 0u64;
        for operation in &self.tables.operations {
            if operation.is_running() {
                reserved = reserved.saturating_add(operation.reserved());
            }
        }
        reserved
    }

    /// An entry for the act, where none is kept free for it.
    fn need_to_serve(&self, actor: Actor, act: &Act) -> u64
        ensures { result ≡ need_to_serve self.now actor act.now }
    {
        match self.would_serve(actor, act) {
            Some(_) => 0,
            None => 1,
        }
    }

    /// The entries that an act takes, with those that it keeps free.
    fn need(&self, actor: Actor, act: &Act) -> u64
        requires { IsShortAct act.now }
        ensures { result ≡ need self.now actor act.now }
    {
        match act {
            Act::Start { rod, .. } => 2 + pieces(rod.list().blocks()),
            Act::Open { .. } => 2,
            Act::Advance { .. } => self.need_to_serve(actor, act),
            Act::Pump => self.need_to_serve(actor, act),
            Act::End { .. } => self.need_to_serve(actor, act),
            Act::Abort { .. } => self.need_to_serve(actor, act),
            Act::Close { .. } => self.need_to_serve(actor, act),
            _ => 1,
        }
    }

    /// The unit's record has no room for one more act: of stamps, of entries or of bytes.
    pub(crate) fn is_full(&self, unit: UnitConfig, actor: Actor, stamp: u64, act: &Act) -> bool
        requires { IsShortAct act.now }
        ensures { result ≡ is_full unit 0 self.now actor stamp act.now }
    {
        let kept = (self.past.len() as u64).saturating_add(self.reserved());
        let payload = self.past.payload().saturating_add(bytes_in(act));
        stamp.max(self.past.last_stamp()) == u64::MAX
            || kept.saturating_add(self.need(actor, act)) > u64::from(unit.entries)
            || (is_write(act) && payload > u64::from(unit.payload))
    }
}
