ghost use Rattle.std.specs.Prelude.{◌≡◌, ◌<◌, ◌≤◌, List, [], ◌∷◌, ◌++◌, ◌≢◌, drop, length, Some, IfOk, IfErr, OnOk, OnErr, false, true};
ghost use Rattle.cm_base.specs.Units.{unit_of};
ghost use Rattle.cm_history.specs.declared.act.Entry.{Entry};
ghost use Rattle.cm_history.specs.declared.refused.ActRefused.{ActRefused};
ghost use Rattle.cm_history.specs.Blocks.{mapped};
ghost use Rattle.cm_history.specs.Folding.{live_in};
ghost use Rattle.cm_history.specs.Legal.{may_ask};
ghost use Rattle.cm_history.specs.Limits.{within_limits};
ghost use Rattle.recorder.specs.Recording.{FirstFits};
ghost use Rattle.turn_gate.specs.Marks.{AtMost};
ghost use Rattle.unit_core.specs.UnitState.{Stands};
ghost use Rattle.unit_core.specs.declared.folding.FoldEnd.{FoldEnd};
ghost use Rattle.unit_gate.specs.Asking.{IsAtLastStamp, ends_one, is_full_at, past, serves_operation};
ghost use Rattle.unit_gate.specs.Counting.{count_over};
ghost use Rattle.unit_gate.specs.Recorded.{HasRecorded, StandsFor, facts, kin_of, marks_of, without_last};
ghost use Rattle.unit_gate.specs.UnitActs.{DidAct, NotDone, WasFolded};
ghost use Rattle.unit_gate.specs.inner.Keeping.{WasSaved};

use crate::asked::{Acted, AskedAct};
use crate::kin::UnitKin;
use cm_base::{Config, OutOfMemory};
use cm_history::{ActRefused, Entry, History};
use recorder::Recorder;
use std::alloc::Global;
use std::marker::Model;
use std::snapshot::Snapshot;
use turn_gate::Gated;
use unit_core::{FoldEnd, Unit};

/// A unit with its recorder, as a gate has it. Contracts see the unit, and what the recorder has recorded now and had when
/// it was given to the unit. The two stand for lists of entries: the unit answers as after each of them, and of its first
/// entries those that the unit has dropped were recorded since.
#[derive(Drop)]
pub struct RecordedUnit<R: Recorder + Drop> {
    unit: Unit,
    recorder: R,
    opening: Snapshot<R>,
    /// How many entries of the unit the recorder had recorded when it was given.
    folded_then: u64,
    /// How often entries were to be recorded as soon as they were made, and the recorder wanted memory.
    late: u64,
}

impl<R: Recorder + Drop> Model for RecordedUnit<R> {
    ghost use Rattle.unit_gate.specs.Recorded.{RecordedState, facts};
    ghost use Rattle.unit_gate.specs.inner.Keeping.{KeepsRecord, state_of};

    ghost Value = { RecordedState };

    ghost view = { λ u. state_of (facts R.recorded R.record_faults R.absent R.front) u.unit u.recorder u.opening.value u.folded_then u.late };

    ghost invariant = { λ u. KeepsRecord (R.fits u.recorder)
        (state_of (facts R.recorded R.record_faults R.absent R.front) u.unit u.recorder u.opening.value u.folded_then u.late) };
}

impl<R: Recorder + Drop> Gated for RecordedUnit<R> {
    type Entry = Entry;

    type Kin = UnitKin;

    ghost use Rattle.unit_gate.specs.Recorded.{StandsFor, newest, kin_of, marks_of};

    ghost stands_for = { StandsFor };

    ghost newest = { newest };

    ghost kin = { kin_of };

    ghost marks = { marks_of };

    fn length(&self) -> u64 {
        let _last = self.unit.last_stamp();
        self.unit.folded() + self.unit.kept()
    }
}

/// What is counted of a unit, over its whole history.
#[derive(Debug, Drop, Clone, Copy, PartialEq, Eq)]
pub struct UnitCount {
    /// How many entries its history has.
    pub steps: u64,
    /// How many tokens are live.
    pub live: u32,
    /// How many blocks are mapped.
    pub mapped: u64,
}

/// What is left of a unit that is done with.
#[derive(Drop)]
pub struct ClosedUnit<R> {
    /// The entries that were not recorded and dropped.
    pub history: History,
    /// How many older ones were.
    pub folded: u64,
    /// How often entries were to be recorded as soon as they were made, and the recorder wanted memory.
    pub late: u64,
    pub count: UnitCount,
    pub recorder: R,
}

impl<R: Recorder + Drop> RecordedUnit<R> {
    /// A unit that nothing was asked of yet, with its recorder. `OutOfMemory` hands the recorder back.
    pub fn new(
        alloc: Global,
        config: &Config,
        unit: u16,
        recorder: R,
    ) -> Result<RecordedUnit<R>, (R, OutOfMemory)>
        requires unit { unit < length config.now.units }
        requires fits { (e : Entry) → R.fits recorder e }
        ensures stands { IfOk result (λ u. StandsFor u []) }
        ensures kin { IfOk result (λ u. kin_of u
            ≡ record { config = config.now; unit = unit; opening = facts R.recorded R.record_faults R.absent R.front recorder; folded = 0 }) }
        ensures marks { IfOk result (λ u. marks_of u ≡ R.record_faults recorder ∷ 0 ∷ 0 ∷ []) }
        ensures recorder { IfOk result (λ u. u.recorder ≡ facts R.recorded R.record_faults R.absent R.front recorder) }
        ensures back { IfErr result (λ e. e.0 ≡ recorder) }
    {
        match Unit::new(alloc, config, unit) {
            Ok(unit) => Ok(RecordedUnit::fresh(unit, recorder)),
            Err(refused) => Err((recorder, refused)),
        }
    }

    /// A unit that nothing was asked of yet, with its recorder. It takes no memory.
    pub fn fresh(unit: Unit, recorder: R) -> RecordedUnit<R>
        requires fits { (e : Entry) → R.fits recorder e }
        requires stands { Stands unit [] }
        requires folded { unit.folded ≡ 0 }
        ensures stands { StandsFor result [] }
        ensures kin { kin_of result
            ≡ record { config = unit.config; unit = unit.unit; opening = facts R.recorded R.record_faults R.absent R.front recorder; folded = 0 } }
        ensures marks { marks_of result ≡ R.record_faults recorder ∷ 0 ∷ 0 ∷ [] }
        ensures recorder { result.recorder ≡ facts R.recorded R.record_faults R.absent R.front recorder }
    {
        let opening = Snapshot::of(&recorder);
        RecordedUnit {
            unit,
            recorder,
            opening,
            folded_then: 0,
            late: 0,
        }
    }

    /// A unit with its recorder, which has recorded so many of the unit's entries as the unit has dropped. It takes no
    /// memory.
    pub fn over(unit: Unit, recorder: R) -> RecordedUnit<R>
        requires fits { (e : Entry) → R.fits recorder e }
        requires history { (h : List Entry) × HasRecorded unit (R.recorded recorder) h }
        ensures stands { (h : List Entry) → HasRecorded unit (R.recorded recorder) h → StandsFor result h }
        ensures kin { kin_of result ≡ record {
          config = unit.config;
          unit = unit.unit;
          opening = without_last unit.folded (facts R.recorded R.record_faults R.absent R.front recorder);
          folded = unit.folded;
        } }
        ensures marks { marks_of result ≡ R.record_faults recorder ∷ unit.folded ∷ 0 ∷ [] }
        ensures recorder { result.recorder ≡ facts R.recorded R.record_faults R.absent R.front recorder }
    {
        let opening = Snapshot::of(&recorder);
        let folded_then = unit.folded();
        RecordedUnit {
            unit,
            recorder,
            opening,
            folded_then,
            late: 0,
        }
    }

    /// Does an act, after the kept entries were recorded where the record is full, and tells the stamp of its entry. After
    /// a refusal the history is as before: `Full` comes where the record is still full, and `OutOfMemory` where the act or
    /// the recorder wanted memory.
    pub fn act(&mut self, asked: AskedAct) -> Result<Acted, ActRefused>
        requires limits { within_limits self.old.unit.config self.old.unit.unit asked.act ≡ true }
        requires asked { may_ask self.old.unit.unit asked.actor asked.act ≡ true }
        ensures done { IfOk result (λ a. (h : List Entry) → StandsFor self.old h → DidAct (kin_of self.old) self.new h asked a) }
        ensures refused { IfErr result (λ e. (h : List Entry) → StandsFor self.old h → NotDone self.old self.new h asked e) }
        ensures kin { kin_of self.new ≡ kin_of self.old }
        ensures marks { AtMost (marks_of self.old) (marks_of self.new) }
    {
        if self.unit.serves(asked.actor, &asked.act) {
            return self.serve(asked);
        }
        match self.make_room(&asked) {
            Ok(()) => self.act_in_room(asked),
            Err(OutOfMemory) => Err(ActRefused::OutOfMemory),
        }
    }

    /// Does an act that serves a running operation, for which an entry is kept free. So its record is full where no stamp
    /// is left, and only then are the kept entries recorded.
    fn serve(&mut self, asked: AskedAct) -> Result<Acted, ActRefused>
        requires limits { within_limits self.old.unit.config self.old.unit.unit asked.act ≡ true }
        requires asked { may_ask self.old.unit.unit asked.actor asked.act ≡ true }
        requires serves { (h : List Entry) → StandsFor self.old h → serves_operation (kin_of self.old) h asked ≡ true }
        ensures done { IfOk result (λ a. (h : List Entry) → StandsFor self.old h → DidAct (kin_of self.old) self.new h asked a) }
        ensures refused { IfErr result (λ e. (h : List Entry) → StandsFor self.old h → NotDone self.old self.new h asked e) }
        ensures kin { kin_of self.new ≡ kin_of self.old }
        ensures marks { AtMost (marks_of self.old) (marks_of self.new) }
    {
        match self.act_in_room(asked) {
            Ok(acted) => Ok(acted),
            Err(ActRefused::OutOfMemory) => Err(ActRefused::OutOfMemory),
            Err(ActRefused::Full) => match self.fold() {
                FoldEnd::OutOfMemory => Err(ActRefused::OutOfMemory),
                _ => Err(ActRefused::Full),
            },
        }
    }

    /// Does an act, and keeps its entry. After a refusal all is as before.
    fn act_in_room(&mut self, asked: AskedAct) -> Result<Acted, ActRefused>
        requires limits { within_limits self.old.unit.config self.old.unit.unit asked.act ≡ true }
        requires asked { may_ask self.old.unit.unit asked.actor asked.act ≡ true }
        ensures done { IfOk result (λ a. (h : List Entry) → StandsFor self.old h → DidAct (kin_of self.old) self.new h asked a) }
        ensures refused { OnErr result (self.new ≡ self.old) }
        ensures full { IfErr result (λ e. e ≡ ActRefused.Full → (h : List Entry) → StandsFor self.old h
            → is_full_at (kin_of self.old) h self.old.unit.folded asked ≡ true) }
        ensures serving { IfErr result (λ e. e ≡ ActRefused.Full → (h : List Entry) → StandsFor self.old h
            → serves_operation (kin_of self.old) h asked ≡ true → IsAtLastStamp (kin_of self.old) h asked) }
        ensures ending { IfErr result (λ e. e ≡ ActRefused.OutOfMemory → (h : List Entry) → StandsFor self.old h
            → ends_one (kin_of self.old) h asked ≡ false) }
        ensures kin { kin_of self.new ≡ kin_of self.old }
        ensures marks { marks_of self.new ≡ marks_of self.old }
    {
        let AskedAct {
            actor,
            seq,
            stamp,
            moment,
            act,
        } = asked;
        let answer = self.unit.act(actor, seq, stamp, moment, act)?;
        Ok(Acted {
            answer,
            stamp: self.unit.last_stamp(),
        })
    }

    /// Records the kept entries where the record is full.
    fn make_room(&mut self, asked: &AskedAct) -> Result<(), OutOfMemory>
        requires limits { within_limits self.old.unit.config self.old.unit.unit asked.now.act ≡ true }
        requires asked { may_ask self.old.unit.unit asked.now.actor asked.now.act ≡ true }
        ensures stands { (h : List Entry) → StandsFor self.old h → StandsFor self.new h }
        ensures folded { OnOk result ((h : List Entry) → StandsFor self.old h
            → is_full_at (kin_of self.old) h self.new.unit.folded asked.now ≡ true → WasFolded self.old self.new) }
        ensures kin { kin_of self.new ≡ kin_of self.old }
        ensures marks { AtMost (marks_of self.old) (marks_of self.new) }
    {
        if !self.unit.is_full(asked.actor, asked.stamp, &asked.act) {
            return Ok(());
        }
        match self.fold() {
            FoldEnd::OutOfMemory => Err(OutOfMemory),
            _ => Ok(()),
        }
    }

    /// Records the kept entries from the first on, up to the first that is refused, and drops those that were recorded. It
    /// takes no memory but what the recorder takes.
    fn fold(&mut self) -> FoldEnd
        ensures stands { (h : List Entry) → StandsFor self.old h → StandsFor self.new h }
        ensures folded { result ≢ FoldEnd.OutOfMemory → WasFolded self.old self.new }
        ensures kin { kin_of self.new ≡ kin_of self.old }
        ensures marks { AtMost (marks_of self.old) (marks_of self.new) }
    {
        self.unit.fold(&mut self.recorder)
    }

    /// Records the kept entries where the recorder is eager, and counts it where that wants memory. The unit answers as
    /// before.
    pub(crate) fn fold_if_eager(&mut self)
        ensures stands { (h : List Entry) → StandsFor self.old h → StandsFor self.new h }
        ensures saved { R.EAGER ≡ true → self.old.opening.absent ≡ false → WasSaved self.old self.new }
        ensures kin { kin_of self.new ≡ kin_of self.old }
        ensures marks { AtMost (marks_of self.old) (marks_of self.new) }
    {
        if !R::EAGER {
            return;
        }
        match self.fold() {
            FoldEnd::OutOfMemory => self.late = self.late.saturating_add(1),
            _ => {}
        }
    }

    /// The kept entries. It takes no memory.
    pub fn history(&self) -> &History
        ensures kept { result.now.entries ≡ self.now.unit.kept }
        ensures rest { (h : List Entry) → StandsFor self.now h → result.now.entries ≡ drop self.now.unit.folded h }
    {
        self.unit.history()
    }

    /// How many entries were recorded and dropped. It takes no memory.
    pub fn folded(&self) -> u64
        ensures { result ≡ self.now.unit.folded }
    {
        self.unit.folded()
    }

    /// What is counted of the unit, over each history for which it stands now. It takes no memory.
    pub fn count(&self) -> UnitCount
        ensures { (h : List Entry) → StandsFor self.now h → result ≡ count_over self.now.unit.config self.now.unit.unit h }
    {
        UnitCount {
            steps: self.length(),
            live: self.unit.live(),
            mapped: self.unit.mapped(),
        }
    }

    /// What is left of the unit: the kept entries, the counts over each history for which it stands, and the recorder. It
    /// takes no memory.
    pub fn into_closed(self) -> ClosedUnit<R>
        ensures kept { result.history.entries ≡ self.unit.kept }
        ensures folded { result.folded ≡ self.unit.folded }
        ensures late { result.late ≡ self.late }
        ensures unfolded { self.opening.absent ≡ true → result.folded ≡ self.folded_then }
        ensures few { (h : List Entry) → StandsFor self h → result.folded ≤ length h }
        ensures rest { (h : List Entry) → StandsFor self h → result.history.entries ≡ drop result.folded h }
        ensures steps { (h : List Entry) → StandsFor self h → result.count.steps ≡ length h }
        ensures live { (h : List Entry) → StandsFor self h → result.count.live ≡ live_in (past (kin_of self) h) }
        ensures mapped { (h : List Entry) → StandsFor self h
            → result.count.mapped ≡ mapped (unit_of self.unit.config self.unit.unit) (past (kin_of self) h) }
        ensures recorder { facts R.recorded R.record_faults R.absent R.front result.recorder ≡ self.recorder }
        ensures absent { R.absent result.recorder ≡ self.opening.absent }
        ensures front { R.front result.recorder ≡ self.opening.front }
        ensures fits { FirstFits (R.fits result.recorder) result.history.entries }
    {
        let count = self.count();
        let RecordedUnit {
            unit,
            recorder,
            opening: _,
            folded_then: _,
            late,
        } = self;
        ClosedUnit {
            folded: unit.folded(),
            late,
            history: unit.into_history(),
            count,
            recorder,
        }
    }
}
