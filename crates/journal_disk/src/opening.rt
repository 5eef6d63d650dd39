// A journal is opened: its file is made new, or read.
ghost use Rattle.std.specs.Prelude.{◌≡◌, ◌≢◌, ◌⊎◌, ◌∷◌, ◌≤◌, ◌<◌, ◌+◌, ℕ, List, Option, Some, None, Ok, Err, length, IfOk, IfErr, IfSome, OnOk, OnErr, false};
ghost use Rattle.cm_history.specs.declared.act.Entry.{Entry};
ghost use Rattle.recorder.specs.Recording.{Rose};
ghost use Rattle.journal_disk.specs.Disk.{IsSynced, IsSyncedFirst, LeavesOnly, OnlyReads};
ghost use Rattle.journal_disk.specs.Opened.{front_bytes, opened};
ghost use Rattle.journal_disk.specs.Journal.{AreInOrder, IsJournal, IsGood, IsLikeGiven, StaysGood, SyncsFirst};
ghost use Rattle.journal_disk.specs.Log.{IsTold};
ghost use Rattle.journal_disk.specs.inner.Texts.{IsBegun};
ghost use Rattle.journal_disk.specs.declared.opening.OpenFault.{OpenFault};

use crate::judging::{Shape, judge, new_file};
use crate::making::make_new;
use crate::scanning::{Found, scan};
use crate::{Disk, DiskFailed, Journal, Log, Opening};
use cm_base::{Config, OutOfMemory};
use cm_history::History;
use recorder::Recorder;
use std::alloc::{AllocError, Global};
use std::snapshot::Snapshot;

/// Why a journal was not opened.
#[derive(Debug, Drop, Clone, Copy, PartialEq, Eq)]
pub enum OpenFault {
    /// Memory was wanted and not had.
    OutOfMemory,
    /// The disk failed, and counted the fault.
    DiskFault,
    /// The file is no journal of the unit under the configuration. 0: its first gate is not open, and it is longer than a
    /// new file. 1: another text, unit or configuration stands before the second gate. Else the place of the length of
    /// the first record that is not good.
    BadJournal { place: u64 },
}

impl From<OutOfMemory> for OpenFault {
    ghost use Rattle.journal_disk.specs.declared.opening.OpenFault.{OpenFault};

    ghost from_gives = { λ _ e. e ≡ OpenFault.OutOfMemory };

    fn from(_: OutOfMemory) -> OpenFault {
        OpenFault::OutOfMemory
    }
}

impl From<AllocError> for OpenFault {
    ghost use Rattle.journal_disk.specs.declared.opening.OpenFault.{OpenFault};

    ghost from_gives = { λ _ e. e ≡ OpenFault.OutOfMemory };

    fn from(_: AllocError) -> OpenFault {
        OpenFault::OutOfMemory
    }
}

impl From<DiskFailed> for OpenFault {
    ghost use Rattle.journal_disk.specs.declared.opening.OpenFault.{OpenFault};

    ghost from_gives = { λ _ e. e ≡ OpenFault.DiskFault };

    fn from(_: DiskFailed) -> OpenFault {
        OpenFault::DiskFault
    }
}

/// What a journal goes on with: its entries, where its records begin, its last gate, and how it began.
struct Opened<D: Disk> {
    history: History,
    start: u64,
    gate: u64,
    opening: Opening<D>,
}

/// A journal of so many entries, whose disk was this one at the end of its first sync.
fn opening_of<D: Disk>(synced: Snapshot<D>, entries: u64) -> Opening<D>
    ensures synced { result.synced ≡ synced }
    ensures entries { result.entries.value ≡ entries }
{
    Opening {
        synced,
        entries: Snapshot::of(&entries),
    }
}

/// The file is made new, or its records are read. It was synced.
fn open_synced<D: Disk>(
    alloc: Global,
    disk: &mut D,
    config: &Config,
    unit: u16,
) -> Result<Opened<D>, OpenFault>
    requires configured { unit < length config.now.units }
    ensures told { IsTold (D.reads disk.old) → IsTold (D.reads disk.new) }
    ensures untold { D.reads disk.old ≡ None → D.reads disk.new ≡ None }
    ensures within { IfOk result (λ r. IfSome (D.reads disk.new) (λ bytes. r.gate < length bytes)) }
    ensures order { IfOk result (λ r. AreInOrder config.now unit 0 r.history.entries) }
    ensures opened { (file : List ℕ) → D.reads disk.old ≡ Some file → IsSynced (D.reads disk.old) (D.may_leave disk.old)
        → IfOk result (λ r. opened config.now unit file ≡ Ok r.history.entries) }
    ensures kept { (file : List ℕ) → D.reads disk.old ≡ Some file → IsSynced (D.reads disk.old) (D.may_leave disk.old)
        → IfOk result (λ r. IsBegun D.reads D.may_leave D.moment D.left_since config.now unit r.history.entries
        (record { disk = disk.new; start = r.start; gate = r.gate; begun = false; opening = r.opening })) }
    ensures began { IfOk result (λ r. r.opening.synced.value ≡ disk.old) }
    ensures untouched { IfErr result (λ e. (place : ℕ) → e ≡ OpenFault.BadJournal place
        → OnlyReads D.reads D.may_leave D.moment D.left_since D.disk_faults disk.old disk.new) }
    ensures bad { (file : List ℕ) → D.reads disk.old ≡ Some file
        → IfErr result (λ e. (place : ℕ) → e ≡ OpenFault.BadJournal place → opened config.now unit file ≡ Err place) }
    ensures moments { (file : List ℕ) → D.reads disk.old ≡ Some file → IsSynced (D.reads disk.old) (D.may_leave disk.old)
        → LeavesOnly D.moment D.left_since disk.old disk.new (λ c. opened config.now unit c ≡ opened config.now unit file) }
    ensures failed { IfErr result (λ e. e ≡ OpenFault.DiskFault → Rose (D.disk_faults disk.old) (D.disk_faults disk.new)) }
    ensures counts { D.disk_faults disk.old ≤ D.disk_faults disk.new }
{
    let synced = Snapshot::of(&*disk);
    let new = new_file(alloc, config, unit)?;
    let start = new.len() as u64 - 1;
    match judge(alloc, disk, &new)? {
        Shape::Unmade { closes } => {
            make_new(disk, &new[1..], closes)?;
            Ok(Opened {
                history: History::empty(alloc),
                start,
                gate: start,
                opening: opening_of(synced, 0),
            })
        }
        Shape::Made { size } => {
            let Found { history, gate } = scan(alloc, disk, config, unit, start, size)?;
            let entries = history.len() as u64;
            Ok(Opened {
                history,
                start,
                gate,
                opening: opening_of(synced, entries),
            })
        }
    }
}

/// Syncs, and then makes the file new or reads its records.
fn open_disk<D: Disk>(
    alloc: Global,
    disk: &mut D,
    config: &Config,
    unit: u16,
) -> Result<Opened<D>, OpenFault>
    requires configured { unit < length config.now.units }
    ensures told { IsTold (D.reads disk.old) → IsTold (D.reads disk.new) }
    ensures untold { D.reads disk.old ≡ None → D.reads disk.new ≡ None }
    ensures within { IfOk result (λ r. IfSome (D.reads disk.new) (λ bytes. r.gate < length bytes)) }
    ensures order { IfOk result (λ r. AreInOrder config.now unit 0 r.history.entries) }
    ensures opened { (file : List ℕ) → D.reads disk.old ≡ Some file → IfOk result (λ r. opened config.now unit file ≡ Ok r.history.entries) }
    ensures kept { (file : List ℕ) → D.reads disk.old ≡ Some file
        → IfOk result (λ r. IsBegun D.reads D.may_leave D.moment D.left_since config.now unit r.history.entries
        (record { disk = disk.new; start = r.start; gate = r.gate; begun = false; opening = r.opening })) }
    ensures first { IfOk result (λ r. IsSyncedFirst D.reads D.may_leave D.moment D.left_since disk.old r.opening.synced.value) }
    ensures untouched { IfErr result (λ e. (place : ℕ) → e ≡ OpenFault.BadJournal place
        → OnlyReads D.reads D.may_leave D.moment D.left_since D.disk_faults disk.old disk.new) }
    ensures bad { (file : List ℕ) → D.reads disk.old ≡ Some file
        → IfErr result (λ e. (place : ℕ) → e ≡ OpenFault.BadJournal place → opened config.now unit file ≡ Err place) }
    ensures synced { (file : List ℕ) → D.reads disk.old ≡ Some file
        → OnOk result (SyncsFirst D.reads D.may_leave D.moment D.left_since disk.old disk.new (λ c. opened config.now unit c ≡ opened config.now unit file)) }
    ensures refused { (file : List ℕ) → D.reads disk.old ≡ Some file
        → OnErr result (LeavesOnly D.moment D.left_since disk.old disk.new (D.may_leave disk.old)
        ⊎ SyncsFirst D.reads D.may_leave D.moment D.left_since disk.old disk.new (λ c. opened config.now unit c ≡ opened config.now unit file)) }
    ensures failed { IfErr result (λ e. e ≡ OpenFault.DiskFault → Rose (D.disk_faults disk.old) (D.disk_faults disk.new)) }
    ensures counts { D.disk_faults disk.old ≤ D.disk_faults disk.new }
{
    disk.sync()?;
    open_synced(alloc, disk, config, unit)
}

impl<D: Disk + Drop> Journal<D> {
    /// Opens the journal of a unit under a configuration, in which there is the unit, and gives the entries that it has.
    /// First it syncs. A file that is not finished is then made new: one that is shorter than a new one, or as long and
    /// with its first gate closed. At `Err` the disk comes back; `DiskFault` comes only where the disk counted a fault, or
    /// its count is full, and `BadJournal` exactly where the file is bad, with the place, and with nothing written (own
    /// profile).
    pub fn open(
        alloc: Global,
        disk: D,
        config: &Config,
        unit: u16,
    ) -> Result<(Journal<D>, History), (D, OpenFault)>
        requires configured { unit < length config.now.units }

        // The entries are those that the file is opened as, or it is bad at this place.
        ensures opened { (file : List ℕ) → D.reads disk ≡ Some file → IfOk result (λ r. opened config.now unit file ≡ Ok r.1.entries) }
        ensures bad { (file : List ℕ) → D.reads disk ≡ Some file
            → IfErr result (λ e. (place : ℕ) → e.1 ≡ OpenFault.BadJournal place → opened config.now unit file ≡ Err place) }

        // Each of them might be asked of the unit, and their stamps rise.
        ensures order { IfOk result (λ r. AreInOrder config.now unit 0 r.1.entries) }

        // The journal has recorded these entries.
        ensures kept { (file : List ℕ) → D.reads disk ≡ Some file
            → IfOk result (λ r. IsJournal D.reads D.may_leave config.now unit r.1.entries None r.0) }
        ensures recorded { (file : List ℕ) → D.reads disk ≡ Some file
            → IfOk result (λ r. ⟦<Journal<D> as Recorder>⟧.recorded r.0 ≡ Some r.1.entries) }
        ensures fits { IfOk result (λ r. (e : Entry) → ⟦<Journal<D> as Recorder>⟧.fits r.0 e) }
        ensures front { (file : List ℕ) → D.reads disk ≡ Some file → IfOk result (λ r. ⟦<Journal<D> as Recorder>⟧.front r.0
            ≡ Some (D.moment r.0.opening.synced.value ∷ length r.1.entries ∷ front_bytes config.now unit)) }

        // It began with the first call of the disk, a sync.
        ensures first { IfOk result (λ r. IsSyncedFirst D.reads D.may_leave D.moment D.left_since disk r.0.opening.synced.value) }
        ensures within { IfOk result (λ r. IfSome (D.reads r.0.disk) (λ bytes. r.0.gate < length bytes)) }
        ensures untold { D.reads disk ≡ None → IfOk result (λ r. D.reads r.0.disk ≡ None) }

        // From the end of its first call of the disk, a sync, each file that a crash may leave is opened as this one.
        ensures any_moment { (file : List ℕ) → D.reads disk ≡ Some file
            → IfOk result (λ r. SyncsFirst D.reads D.may_leave D.moment D.left_since disk r.0.disk (λ c. opened config.now unit c ≡ opened config.now unit file)) }
        ensures refused { (file : List ℕ) → D.reads disk ≡ Some file
            → IfErr result (λ e. LeavesOnly D.moment D.left_since disk e.0 (D.may_leave disk)
            ⊎ SyncsFirst D.reads D.may_leave D.moment D.left_since disk e.0 (λ c. opened config.now unit c ≡ opened config.now unit file)) }
        ensures like_given { (file : List ℕ) → D.reads disk ≡ Some file
            → IfOk result (λ r. IsLikeGiven D.may_leave D.moment D.left_since config.now unit file disk r.0.disk) }
        ensures like_given_refused { (file : List ℕ) → D.reads disk ≡ Some file
            → IfErr result (λ e. IsLikeGiven D.may_leave D.moment D.left_since config.now unit file disk e.0) }

        // A file that is bad is left as it was.
        ensures untouched { IfErr result (λ e. (place : ℕ) → e.1 ≡ OpenFault.BadJournal place
            → OnlyReads D.reads D.may_leave D.moment D.left_since D.disk_faults disk e.0) }

        // A disk of which nothing is bad stays so at each moment, and is not refused as bad.
        ensures good { IsGood D.reads D.may_leave config.now unit disk
            → IfOk result (λ r. StaysGood D.reads D.may_leave D.moment D.left_since config.now unit disk r.0.disk) }
        ensures good_refused { IsGood D.reads D.may_leave config.now unit disk
            → IfErr result (λ e. StaysGood D.reads D.may_leave D.moment D.left_since config.now unit disk e.0) }
        ensures never_bad { IsGood D.reads D.may_leave config.now unit disk → IfErr result (λ e. (place : ℕ) → e.1 ≢ OpenFault.BadJournal place) }

        ensures failed { IfErr result (λ e. e.1 ≡ OpenFault.DiskFault → Rose (D.disk_faults disk) (D.disk_faults e.0)) }
        ensures counts { IfOk result (λ r. D.disk_faults disk ≤ D.disk_faults r.0.disk) }
        ensures counts_refused { IfErr result (λ e. D.disk_faults disk ≤ D.disk_faults e.0) }
    {
        let mut disk = disk;
        match open_disk(alloc, &mut disk, config, unit) {
            Ok(found) => {
                let Opened {
                    history,
                    start,
                    gate,
                    opening,
                } = found;
                let log = Log {
                    disk,
                    start,
                    gate,
                    begun: false,
                    opening,
                };
                Ok((Journal::over(alloc, log), history))
            }
            Err(fault) => Err((disk, fault)),
        }
    }
}
