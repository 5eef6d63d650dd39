ghost use Rattle.std.specs.Prelude.{◌≡◌, ◌≢◌, ◌+◌, ◌≤◌, ◌<◌, ◌^◌, [], ◌∷◌, ◌++◌, List, ℕ, Option, Some, None, true, false, length, IfOk, IfErr, IfSome, OnOk, OnErr};
ghost use Rattle.recorder.specs.Recording.{Rose};
ghost use Rattle.recorder.specs.declared.recording.RecordRefused.{RecordRefused};
ghost use Rattle.journal_disk.specs.Disk.{LeavesOnly};
ghost use Rattle.journal_disk.specs.Log.{framed, records, Behind, IsKept, HoldsOrOneMore, IsTried};

use crate::{Disk, DiskFailed, write_synced};
use cm_base::{OutOfMemory, set_u64};
use recorder::RecordRefused;
use std::alloc::Global;
use std::snapshot::Snapshot;

pub(crate) const OPEN: u8 = 0xa5;

pub(crate) const SHUT: u8 = 0;

impl From<DiskFailed> for RecordRefused {
    ghost use Rattle.recorder.specs.declared.recording.RecordRefused.{RecordRefused};

    ghost from_gives = { λ _ e. e ≡ RecordRefused.Failed };

    fn from(_: DiskFailed) -> RecordRefused {
        RecordRefused::Failed
    }
}

/// How a journal began, for contracts alone: its disk at the end of its first sync, and how many entries it had.
#[derive(Drop)]
pub struct Opening<D: Disk> {
    pub synced: Snapshot<D>,
    pub entries: Snapshot<u64>,
}

/// Records in a file, each between two gates. The last gate is not open.
#[derive(Drop)]
pub struct Log<D: Disk> {
    pub disk: D,
    pub start: u64,
    pub gate: u64,
    pub begun: bool,
    pub opening: Opening<D>,
}

/// A record and its closed gate.
fn framed_text(alloc: Global, payload: &[u8]) -> Result<Vec<u8>, OutOfMemory>
    ensures { IfOk result (λ text. text.items ≡ framed payload.now ++ (0 ∷ [])) }
{
    let mut length = [0; 8];
    set_u64(&mut length, 0, payload.len() as u64);
    let mut text = Vec::new(alloc);
    text.extend_from_slice(&length)?;
    text.extend_from_slice(payload)?;
    text.push(SHUT)?;
    Ok(text)
}

impl<D: Disk> Log<D> {
    /// Closes the last gate if its opening was begun.
    fn shut(&mut self) -> Result<(), DiskFailed>
        requires within { IfSome (D.reads self.old.disk) (λ bytes. self.old.gate < length bytes) }
        requires fits { self.old.gate + 1 < 2 ^ 64 }
        ensures within { IfSome (D.reads self.new.disk) (λ bytes. self.new.gate < length bytes) }
        ensures ok { (front : List ℕ) (ps : List (List ℕ)) (last : Option (List ℕ)) → IsKept D.reads D.may_leave front ps last self.old
            → OnOk result (IsKept D.reads D.may_leave front ps None self.new) }
        ensures err { (front : List ℕ) (ps : List (List ℕ)) (last : Option (List ℕ)) → IsKept D.reads D.may_leave front ps last self.old
            → OnErr result (IsKept D.reads D.may_leave front ps last self.new) }
        ensures moments { (front : List ℕ) (ps : List (List ℕ)) (last : Option (List ℕ)) → IsKept D.reads D.may_leave front ps last self.old
            → LeavesOnly D.moment D.left_since self.old.disk self.new.disk (Behind (front ++ records ps) last) }
        ensures gate { self.new.gate ≡ self.old.gate }
        ensures start { self.new.start ≡ self.old.start }
        ensures opening { self.new.opening ≡ self.old.opening }
        ensures untold { D.reads self.old.disk ≡ None → D.reads self.new.disk ≡ None }
        ensures shut { OnOk result (self.new.begun ≡ false) }
        ensures failed { OnErr result (Rose (D.disk_faults self.old.disk) (D.disk_faults self.new.disk)) }
        ensures counts { D.disk_faults self.old.disk ≤ D.disk_faults self.new.disk }
    {
        if self.begun {
            write_synced(&mut self.disk, self.gate, &[SHUT])?;
            self.begun = false;
        }
        Ok(())
    }

    /// Writes a record and its closed gate behind the last gate, which is closed.
    fn stage(&mut self, text: &[u8]) -> Result<(), DiskFailed>
        requires within { IfSome (D.reads self.old.disk) (λ bytes. self.old.gate < length bytes) }
        requires fits { self.old.gate + 1 + length text.now < 2 ^ 64 }
        requires shut { self.old.begun ≡ false }
        ensures within { IfSome (D.reads self.new.disk) (λ bytes. self.new.gate < length bytes) }
        ensures longer { OnOk result (IfSome (D.reads self.new.disk) (λ bytes. self.new.gate + length text.now < length bytes)) }
        ensures ok { (front : List ℕ) (ps : List (List ℕ)) (last : Option (List ℕ)) (payload : List ℕ) → text.now ≡ framed payload ++ (0 ∷ [])
            → IsKept D.reads D.may_leave front ps last self.old → OnOk result (IsKept D.reads D.may_leave front ps (Some payload) self.new) }
        ensures err { (front : List ℕ) (ps : List (List ℕ)) (last : Option (List ℕ)) → IsKept D.reads D.may_leave front ps last self.old
            → OnErr result (IsKept D.reads D.may_leave front ps None self.new) }
        ensures moments { (front : List ℕ) (ps : List (List ℕ)) (last : Option (List ℕ)) → IsKept D.reads D.may_leave front ps last self.old
            → LeavesOnly D.moment D.left_since self.old.disk self.new.disk (Behind (front ++ records ps) None) }
        ensures gate { self.new.gate ≡ self.old.gate }
        ensures start { self.new.start ≡ self.old.start }
        ensures opening { self.new.opening ≡ self.old.opening }
        ensures untold { D.reads self.old.disk ≡ None → D.reads self.new.disk ≡ None }
        ensures begun { OnOk result (self.new.begun ≡ true) }
        ensures failed { OnErr result (Rose (D.disk_faults self.old.disk) (D.disk_faults self.new.disk)) }
        ensures counts { D.disk_faults self.old.disk ≤ D.disk_faults self.new.disk }
    {
        write_synced(&mut self.disk, self.gate + 1, text)?;
        self.begun = true;
        Ok(())
    }

    /// Opens the last gate. Behind it stands a record of this length, with its closed gate, which is then the last.
    fn unlock(&mut self, size: u64) -> Result<(), DiskFailed>
        requires within { IfSome (D.reads self.old.disk) (λ bytes. self.old.gate + size < length bytes) }
        requires fits { self.old.gate + 1 + size < 2 ^ 64 }
        requires begun { self.old.begun ≡ true }
        ensures start { self.new.start ≡ self.old.start }
        ensures opening { self.new.opening ≡ self.old.opening }
        ensures untold { D.reads self.old.disk ≡ None → D.reads self.new.disk ≡ None }
        ensures within { IfSome (D.reads self.new.disk) (λ bytes. self.new.gate < length bytes) }
        ensures ok { (front : List ℕ) (ps : List (List ℕ)) (payload : List ℕ) → size ≡ 9 + length payload
            → IsKept D.reads D.may_leave front ps (Some payload) self.old → OnOk result (IsKept D.reads D.may_leave front (ps ++ (payload ∷ [])) None self.new) }
        ensures err { (front : List ℕ) (ps : List (List ℕ)) (last : Option (List ℕ)) → IsKept D.reads D.may_leave front ps last self.old
            → OnErr result (IsKept D.reads D.may_leave front ps last self.new) }
        ensures moments { (front : List ℕ) (ps : List (List ℕ)) (last : Option (List ℕ)) → IsKept D.reads D.may_leave front ps last self.old
            → LeavesOnly D.moment D.left_since self.old.disk self.new.disk (Behind (front ++ records ps) last) }
        ensures failed { OnErr result (Rose (D.disk_faults self.old.disk) (D.disk_faults self.new.disk)) }
        ensures counts { D.disk_faults self.old.disk ≤ D.disk_faults self.new.disk }
    {
        write_synced(&mut self.disk, self.gate, &[OPEN])?;
        self.gate += size;
        self.begun = false;
        Ok(())
    }

    /// Records these bytes. From `Ok` on each crash leaves them recorded, behind those that were. At `Err` the
    /// recorded ones stay so, and the same or other bytes may be recorded next.
    pub fn append(&mut self, alloc: Global, payload: &[u8]) -> Result<(), RecordRefused>
        requires within { IfSome (D.reads self.old.disk) (λ bytes. self.old.gate < length bytes) }
        ensures within { IfSome (D.reads self.new.disk) (λ bytes. self.new.gate < length bytes) }

        ensures start { self.new.start ≡ self.old.start }
        ensures opening { self.new.opening ≡ self.old.opening }
        ensures untold { D.reads self.old.disk ≡ None → D.reads self.new.disk ≡ None }
        ensures short { length payload.now < 2 ^ 64 }

        // After Ok each image has the record.
        ensures grown { (front : List ℕ) (ps : List (List ℕ)) (last : Option (List ℕ)) → IsKept D.reads D.may_leave front ps last self.old
            → OnOk result (IsKept D.reads D.may_leave front (ps ++ (payload.now ∷ [])) None self.new) }

        // After a refusal each image has the records of before, or these and one more, which is this one or the one of before.
        ensures kept { (front : List ℕ) (ps : List (List ℕ)) (last : Option (List ℕ)) → IsKept D.reads D.may_leave front ps last self.old
            → OnErr result ((next : Option (List ℕ)) × IsTried last payload.now next × IsKept D.reads D.may_leave front ps next self.new) }

        // So does each that a crash may leave at some moment of the call.
        ensures any_moment { (front : List ℕ) (ps : List (List ℕ)) (last : Option (List ℕ)) → IsKept D.reads D.may_leave front ps last self.old
            → LeavesOnly D.moment D.left_since self.old.disk self.new.disk (HoldsOrOneMore front ps last payload.now) }

        ensures failed { IfErr result (λ e. e ≡ RecordRefused.Failed → Rose (D.disk_faults self.old.disk) (D.disk_faults self.new.disk)) }
        ensures present { IfErr result (λ e. e ≢ RecordRefused.Absent) }
        ensures counts { D.disk_faults self.old.disk ≤ D.disk_faults self.new.disk }
    {
        let text = framed_text(alloc, payload)?;
        let size = text.len() as u64;
        if self.gate >= u64::MAX - size {
            return Err(RecordRefused::OutOfMemory);
        }
        self.shut()?;
        self.stage(&text)?;
        self.unlock(size)?;
        Ok(())
    }
}
