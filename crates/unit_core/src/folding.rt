// Recording the kept entries of a unit elsewhere, and dropping them.
ghost use Rattle.std.specs.Prelude.{◌≡◌, ◌≢◌, ◌≤◌, ◌<◌, ◌+◌, ◌^◌, ◌++◌, [], All, List, Option, length, take, true};
ghost use Rattle.cm_history.specs.declared.act.Entry.{Entry};
ghost use Rattle.recorder.specs.Recording.{with_more, Rose, FirstFits};
ghost use Rattle.recorder.specs.Text.{HasShortLists};
ghost use Rattle.unit_core.specs.declared.folding.FoldEnd.{FoldEnd};
ghost use Rattle.unit_core.specs.UnitState.{Stands};
ghost use Rattle.unit_core.specs.inner.Agreeing.{payload_in};

use crate::room::bytes_in;
use crate::sharing::SharedVersions;
use crate::unit::UnitOver;
use cm_history::{History, standing_law};
use recorder::{RecordRefused, Recorder};

/// How a fold ended: no entry is kept, or why one is.
#[derive(Drop, Clone, Copy, PartialEq)]
pub enum FoldEnd {
    /// Every entry was recorded.
    All,
    /// There is no recorder.
    Absent,
    /// The recorder failed, and counted the failure.
    Failed,
    /// The recorder wanted memory, and had none.
    OutOfMemory,
}

/// Records the entries from the first on, and drops each that was recorded, with its bytes.
fn record_all<R: Recorder>(history: &mut History, payload: &mut u64, recorder: &mut R) -> FoldEnd
    requires fits { FirstFits (R.fits recorder.old) history.old.entries }
    requires short { All (λ (e : Entry). HasShortLists e.act) history.old.entries }
    requires payload { payload.old ≡ payload_in history.old.entries }
    requires few { payload_in history.old.entries < 2 ^ 64 }
    ensures fits { FirstFits (R.fits recorder.new) history.new.entries }
    ensures moved { (done : List Entry) × (done ++ history.new.entries ≡ history.old.entries)
        × (R.recorded recorder.new ≡ with_more (R.recorded recorder.old) done) }
    ensures payload { payload.new ≡ payload_in history.new.entries }
    ensures room { history.new.spare ≡ history.old.spare }
    ensures all { result ≡ FoldEnd.All → history.new.entries ≡ [] }
    ensures absent { R.absent recorder.old ≡ true → history.old.entries ≢ [] → result ≡ FoldEnd.Absent }
    ensures idle { R.absent recorder.old ≡ true → history.new.entries ≡ history.old.entries }
    ensures present { result ≡ FoldEnd.Absent → R.absent recorder.old ≡ true }
    ensures failed { result ≡ FoldEnd.Failed → Rose (R.record_faults recorder.old) (R.record_faults recorder.new) }
    ensures counts { R.record_faults recorder.old ≤ R.record_faults recorder.new }
    ensures same { R.absent recorder.new ≡ R.absent recorder.old }
    ensures front { R.front recorder.new ≡ R.front recorder.old }
{
    while !history.is_empty() {
        let entry = history.at(0);
        let bytes = bytes_in(&entry.act);
        match recorder.record(entry) {
            Ok(()) => {
                history.drop_first(1);
                *payload -= bytes;
            }
            Err(RecordRefused::Absent) => return FoldEnd::Absent,
            Err(RecordRefused::Failed) => return FoldEnd::Failed,
            Err(RecordRefused::OutOfMemory) => return FoldEnd::OutOfMemory,
        }
    }
    FoldEnd::All
}

impl<B: SharedVersions + Drop> UnitOver<B>
where
    B::Pin: Drop,
{
    /// Records the kept entries from the first on, and drops each that was recorded, up to the first that is refused. The
    /// unit answers as before. It takes no memory but what the recorder takes.
    pub fn fold<R: Recorder>(&mut self, recorder: &mut R) -> FoldEnd
        requires { FirstFits (R.fits recorder.old) self.old.kept }
        ensures fits { FirstFits (R.fits recorder.new) self.new.kept }
        ensures stands { (h : List Entry) → Stands self.old h → Stands self.new h }
        ensures moved { (done : List Entry) × (done ++ self.new.kept ≡ self.old.kept)
            × (R.recorded recorder.new ≡ with_more (R.recorded recorder.old) done) × (self.new.folded ≡ self.old.folded + length done) }
        ensures told { (h : List Entry) (start : Option (List Entry)) → Stands self.old h
            → R.recorded recorder.old ≡ with_more start (take self.old.folded h) → R.recorded recorder.new ≡ with_more start (take self.new.folded h) }
        ensures image { self.new.image ≡ self.old.image }
        ensures config { self.new.config ≡ self.old.config }
        ensures unit { self.new.unit ≡ self.old.unit }
        ensures all { result ≡ FoldEnd.All → self.new.kept ≡ [] }
        ensures absent { R.absent recorder.old ≡ true → self.old.kept ≢ [] → result ≡ FoldEnd.Absent }
        ensures idle { R.absent recorder.old ≡ true → self.new.folded ≡ self.old.folded }
        ensures present { result ≡ FoldEnd.Absent → R.absent recorder.old ≡ true }
        ensures failed { result ≡ FoldEnd.Failed → Rose (R.record_faults recorder.old) (R.record_faults recorder.new) }
        ensures counts { R.record_faults recorder.old ≤ R.record_faults recorder.new }
        ensures same { R.absent recorder.new ≡ R.absent recorder.old }
        ensures front { R.front recorder.new ≡ R.front recorder.old }
    {
        standing_law(&self.core.config, self.core.unit);
        let before = self.history.len() as u64;
        let end = record_all(&mut self.history, &mut self.payload, recorder);
        self.folded += before - self.history.len() as u64;
        end
    }

    /// How many entries were recorded elsewhere and dropped. It takes no memory.
    pub fn folded(&self) -> u64
        ensures { result ≡ self.now.folded }
    {
        self.folded
    }
}
