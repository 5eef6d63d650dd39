ghost use Rattle.std.specs.Prelude.{◌≡◌, ◌≢◌, ◌≤◌, ◌<◌, ◌++◌, ◌∷◌, [], ℕ, List, Option, Some, None, length, IfErr, IfSome, OnOk, OnErr};
ghost use Rattle.cm_base.specs.Configuration.{Configuration};
ghost use Rattle.cm_history.specs.declared.act.Entry.{Entry};
ghost use Rattle.recorder.specs.Recording.{Rose};
ghost use Rattle.recorder.specs.Text.{entry_bytes, HasShortLists};
ghost use Rattle.recorder.specs.declared.recording.RecordRefused.{RecordRefused};
ghost use Rattle.journal_disk.specs.Disk.{LeavesOnly};
ghost use Rattle.journal_disk.specs.Log.{IsTried, IsKept};
ghost use Rattle.journal_disk.specs.inner.Texts.{HasText, HoldsOrThis, IsTriedBy};
ghost use Rattle.journal_disk.specs.Journal.{MayFollow, IsJournal, OpensAsOrOneMore, StaysGood};

use crate::{Disk, Log};
use cm_base::OutOfMemory;
use cm_history::Entry;
use recorder::{RecordRefused, Recorder, write_entry};
use std::alloc::Global;
use std::marker::Model;

/// The entries of a unit in a file. Contracts see the disk, where the records begin, and the last gate, with whether its
/// opening was begun; and how the journal began.
#[derive(Drop)]
pub struct Journal<D: Disk + Drop> {
    alloc: Global,
    log: Log<D>,
}

impl<D: Disk + Drop> Model for Journal<D> {
    ghost use Rattle.journal_disk.specs.declared.log.Log.{Log};

    ghost Value = { Log D };

    ghost view = { λ j. j.log };
}

impl<D: Disk + Drop> Journal<D> {
    /// A journal over a log.
    pub(crate) fn over(alloc: Global, log: Log<D>) -> Journal<D>
        ensures { result ≡ log }
    {
        Journal { alloc, log }
    }

    /// Records an entry.
    fn record_entry(&mut self, entry: &Entry) -> Result<(), RecordRefused>
        requires within { IfSome (D.reads self.old.disk) (λ bytes. self.old.gate < length bytes) }
        requires short { HasShortLists entry.now.act }
        ensures within { IfSome (D.reads self.new.disk) (λ bytes. self.new.gate < length bytes) }
        ensures start { self.new.start ≡ self.old.start }
        ensures opening { self.new.opening ≡ self.old.opening }
        ensures untold { D.reads self.old.disk ≡ None → D.reads self.new.disk ≡ None }
        ensures text { OnOk result (HasText entry.now) }
        ensures grown_records { (front : List ℕ) (ps : List (List ℕ)) (last : Option (List ℕ)) → IsKept D.reads D.may_leave front ps last self.old
            → OnOk result (IsKept D.reads D.may_leave front (ps ++ (entry_bytes entry.now ∷ [])) None self.new) }
        ensures kept_records { (front : List ℕ) (ps : List (List ℕ)) (last : Option (List ℕ)) → IsKept D.reads D.may_leave front ps last self.old
            → OnErr result ((next : Option (List ℕ)) × IsTriedBy last entry.now next × IsKept D.reads D.may_leave front ps next self.new) }
        ensures held_records { (front : List ℕ) (ps : List (List ℕ)) (last : Option (List ℕ)) → IsKept D.reads D.may_leave front ps last self.old
            → LeavesOnly D.moment D.left_since self.old.disk self.new.disk (HoldsOrThis front ps last entry.now) }
        // After Ok a crash leaves a file that is opened with the entry.
        ensures recorded { (config : Configuration) (unit : ℕ) (es : List Entry) (tried : Option Entry)
            → IsJournal D.reads D.may_leave config unit es tried self.old → MayFollow config unit es entry.now
            → OnOk result (IsJournal D.reads D.may_leave config unit (es ++ entry.now ∷ []) None self.new) }

        // After a refusal it is opened as before, or with one more entry, which is this one or that of a call that failed before.
        ensures kept { (config : Configuration) (unit : ℕ) (es : List Entry) (tried : Option Entry)
            → IsJournal D.reads D.may_leave config unit es tried self.old → MayFollow config unit es entry.now
            → OnErr result ((next : Option Entry) × IsTried tried entry.now next × IsJournal D.reads D.may_leave config unit es next self.new) }

        // So is each file that a crash may leave at some moment of the call.
        ensures any_moment { (config : Configuration) (unit : ℕ) (es : List Entry) (tried : Option Entry)
            → IsJournal D.reads D.may_leave config unit es tried self.old → MayFollow config unit es entry.now
            → LeavesOnly D.moment D.left_since self.old.disk self.new.disk (OpensAsOrOneMore config unit es tried entry.now) }

        ensures failed { IfErr result (λ e. e ≡ RecordRefused.Failed → Rose (D.disk_faults self.old.disk) (D.disk_faults self.new.disk)) }
        ensures present { IfErr result (λ e. e ≢ RecordRefused.Absent) }
        ensures counts { D.disk_faults self.old.disk ≤ D.disk_faults self.new.disk }
    {
        let text = write_entry(self.alloc, entry)?;
        self.log.append(self.alloc, text.as_slice())
    }

    /// Records an entry behind those that were recorded: its record is written behind the last gate and synced, and then
    /// the gate is opened and synced (own profile). From `Ok` on a crash leaves it recorded. At `Err` the recorded ones
    /// stay so, and the same entry or another may be recorded next; `Failed` comes only where the disk counted a fault,
    /// or its count is full. The entry's lists have at most 1,048,576 blocks each.
    pub fn append(&mut self, entry: &Entry) -> Result<(), RecordRefused>
        requires within { IfSome (D.reads self.old.disk) (λ bytes. self.old.gate < length bytes) }
        requires short { HasShortLists entry.now.act }
        ensures within { IfSome (D.reads self.new.disk) (λ bytes. self.new.gate < length bytes) }
        // After Ok a crash leaves a file that is opened with the entry.
        ensures recorded { (config : Configuration) (unit : ℕ) (es : List Entry) (tried : Option Entry)
            → IsJournal D.reads D.may_leave config unit es tried self.old → MayFollow config unit es entry.now
            → OnOk result (IsJournal D.reads D.may_leave config unit (es ++ entry.now ∷ []) None self.new) }

        // After a refusal it is opened as before, or with one more entry, which is this one or that of a call that failed before.
        ensures kept { (config : Configuration) (unit : ℕ) (es : List Entry) (tried : Option Entry)
            → IsJournal D.reads D.may_leave config unit es tried self.old → MayFollow config unit es entry.now
            → OnErr result ((next : Option Entry) × IsTried tried entry.now next × IsJournal D.reads D.may_leave config unit es next self.new) }

        // So is each file that a crash may leave at some moment of the call.
        ensures any_moment { (config : Configuration) (unit : ℕ) (es : List Entry) (tried : Option Entry)
            → IsJournal D.reads D.may_leave config unit es tried self.old → MayFollow config unit es entry.now
            → LeavesOnly D.moment D.left_since self.old.disk self.new.disk (OpensAsOrOneMore config unit es tried entry.now) }

        // So nothing that a crash leaves is bad.
        ensures good { (config : Configuration) (unit : ℕ) (es : List Entry) (tried : Option Entry)
            → IsJournal D.reads D.may_leave config unit es tried self.old → MayFollow config unit es entry.now
            → StaysGood D.reads D.may_leave D.moment D.left_since config unit self.old.disk self.new.disk }

        ensures failed { IfErr result (λ e. e ≡ RecordRefused.Failed → Rose (D.disk_faults self.old.disk) (D.disk_faults self.new.disk)) }
        ensures present { IfErr result (λ e. e ≢ RecordRefused.Absent) }
        ensures counts { D.disk_faults self.old.disk ≤ D.disk_faults self.new.disk }
    {
        self.record_entry(entry)
    }

    /// The disk as it stands. It takes no memory.
    pub fn into_disk(self) -> D
        ensures { result ≡ self.disk }
    {
        let Journal { log, .. } = self;
        let Log { disk, .. } = log;
        disk
    }
}

impl<D: Disk + Drop> Recorder for Journal<D> {
    ghost use Rattle.std.specs.Prelude.{true, false};
    ghost use Rattle.journal_disk.specs.Recording.{recorded_in, life_in, IsFit};

    const EAGER: bool = true;

    ghost EAGER = { true };

    ghost recorded = { λ j. recorded_in j.start j.gate (D.reads j.disk) };

    ghost record_faults = { λ j. D.disk_faults j.disk };

    ghost absent = { λ _. false };

    ghost front = { λ j. life_in (D.moment j.opening.synced.value) j.opening.entries.value j.start (D.reads j.disk) };

    ghost fits = { λ j e. IsFit D.reads D.may_leave D.moment D.left_since j e };

    fn record(&mut self, entry: &Entry) -> Result<(), RecordRefused> {
        self.record_entry(entry)
    }
}
