ghost use Rattle.std.specs.Prelude.{◌≡◌, ℕ, ◌+◌, ◌^◌, ◌<◌, ◌≤◌, [], length, find, Some, None, true, false, IfOk, OnOk, OnErr, IfSome};
ghost use Rattle.std.specs.Option.{option_map};
ghost use Rattle.std.specs.List.{list_any};
ghost use Rattle.lba_ranges.specs.Denoted.{total, is_within, is_overlapping};
ghost use Rattle.cm_history.specs.Bounds.{running_operations};
ghost use Rattle.cm_history.specs.Operations.{is_running_copy};
ghost use Rattle.copy_jobs.specs.declared.job.Job.{Job};
ghost use Rattle.copy_jobs.specs.Jobs.{has_key, is_running, runs_as, is_busy, is_crowded, running, reserved, reserved_for, reserved_at_start, started, opened, made};
ghost use Rattle.copy_jobs.specs.Keeping.{keep};
ghost use Rattle.copy_jobs.specs.Changes.{change, with_work, moved_by, stopped_by, terminated, closed_by};
ghost use Rattle.copy_jobs.specs.Pieces.{is_next, runs_in_background, next_length, IsNextPiece};
ghost use Rattle.copy_jobs.specs.Reports.{report_of, result_of};
ghost use Rattle.copy_jobs.specs.Unended.{unended};
ghost use Rattle.copy_jobs.specs.inner.Sought.{runs_so};
ghost use Rattle.copy_jobs.specs.inner.Steps.{stepped, MayStep};
ghost use Rattle.copy_jobs.specs.Tables.{KeysApart};
ghost use Rattle.copy_jobs.specs.inner.Tables.{IsJob, AllJobs};

use crate::change::Change;
use crate::job::{Job, Sought, Work, WriteJob};
use crate::key::Key;
use crate::piece::NextPiece;
use crate::records::{self, KEPT_RECORDS, Works};
use cm_base::OutOfMemory;
use cm_history::{CopyEnd, CopyState, OpReport, OpState};
use lba_ranges::{BlockList, RangeList};
use lru::LruCache;
use scsi_sense::Sense;
use std::alloc::Global;
use std::marker::Model;

/// Operations that run.
const RUNNING_OPERATIONS: u32 = 64;

/// The operations that a unit keeps: at most 256, of which at most 64 run. Contracts see them in the order in
/// which they were kept.
#[derive(Drop)]
pub struct JobTable {
    alloc: Global,
    works: Works,
    running: u32,
    reserved: u64,
}

impl Model for JobTable {
    ghost use Rattle.std.specs.Prelude.{◌≡◌, List};
    ghost use Rattle.cm_history.specs.Bounds.{kept_operations};
    ghost use Rattle.copy_jobs.specs.declared.job.Job.{Job};
    ghost use Rattle.copy_jobs.specs.inner.Entries.{jobs_of};
    ghost use Rattle.copy_jobs.specs.inner.Tables.{IsTable};

    ghost Value = { List Job };

    ghost view = { λ t. jobs_of t.works.entries };

    ghost invariant = { λ t. IsTable (jobs_of t.works.entries) t.running t.reserved × (t.works.cap ≡ kept_operations) };
}

impl JobTable {
    /// A table that keeps nothing.
    pub fn new(alloc: Global) -> Result<JobTable, OutOfMemory>
        ensures { IfOk result (λ table. table ≡ []) }
    {
        Ok(JobTable {
            alloc,
            works: LruCache::sparse(alloc, records::room(KEPT_RECORDS))?,
            running: 0,
            reserved: 0,
        })
    }

    /// The operation that was kept first of those that run so, with its key. Where one alone runs, it is mostly the
    /// newest.
    fn first_running(&self, background: bool) -> Option<(Key, &Work)>
        ensures none { result ≡ None → find (λ (job : Job). runs_so background job.work) self.now ≡ None }
        ensures found { IfSome result (λ found. find (λ (job : Job). runs_so background job.work) self.now ≡ Some (record { key = found.0; work = found.1.now })) }
        ensures jobs { AllJobs self.now }
    {
        let sought = Sought::Running { background };
        if self.running == 0 {
            return None;
        }
        if self.running == 1
            && let Some((key, work)) = self.works.peek_mru()
            && work.is_running()
        {
            if work.is(sought) {
                return Some((*key, work));
            }
            return None;
        }
        records::first(&self.works, sought)
    }

    /// The operation that is to write next, with its key.
    fn next_work(&self, key: Option<Key>) -> Option<(Key, &Work)>
        ensures none { result ≡ None → find (is_next key) self.now ≡ None }
        ensures found { IfSome result (λ found. find (is_next key) self.now ≡ Some (record { key = found.0; work = found.1.now })) }
    {
        let Some(key) = key else {
            return self.first_running(true);
        };
        let work = self.works.peek(&key)?;
        if work.runs_in_foreground() {
            Some((key, work))
        } else {
            None
        }
    }

    /// An operation of the key runs. It takes no memory.
    pub fn runs(&self, key: Key) -> bool
        ensures busy { result ≡ is_busy key self.now }
        ensures apart { KeysApart self.now }
    {
        if self.running == 0 {
            return false;
        }
        match self.works.peek(&key) {
            Some(work) => work.is_running(),
            None => false,
        }
    }

    /// The operation of the key runs in the background: the unit's pump writes its pieces. It takes no memory.
    pub fn runs_in_background(&self, key: Key) -> bool
        ensures { result ≡ list_any (runs_in_background key) self.now }
    {
        match self.works.peek(&key) {
            Some(work) => work.is(Sought::Running { background: true }),
            None => false,
        }
    }

    /// A piece is to be written next: by the foreground operation of a key, or without a key by an operation in the
    /// background. It takes no memory.
    pub fn waits(&self, key: Option<Key>) -> bool
        ensures { result ≡ list_any (is_next key) self.now }
    {
        self.next_work(key).is_some()
    }

    /// The key of the operation that was kept first of those that run and that no pump writes: token operations in the
    /// foreground, and copies. `None` where none runs so. It takes no memory.
    pub fn unended(&self) -> Option<Key>
        ensures unended { result ≡ unended self.now }
        ensures byte { IfSome result (λ key. key.copy ≡ true → key.id < 2 ^ 8) }
    {
        let (key, _) = self.first_running(false)?;
        Some(key)
    }

    /// How many operations run, at most 64. It takes no memory.
    pub fn running(&self) -> u32
        ensures running { result ≡ length (running self.now) }
        ensures few { result ≤ running_operations }
    {
        self.running
    }

    /// As many operations run as may: 64. It takes no memory.
    pub fn is_crowded(&self) -> bool
        ensures { result ≡ is_crowded self.now }
    {
        self.running >= RUNNING_OPERATIONS
    }

    /// How many entries of the unit's record are kept free for the operations that run. It takes no memory.
    pub fn reserved(&self) -> u64
        ensures reserved { result ≡ reserved self.now }
        ensures few { result ≤ 65_600 }
    {
        self.reserved
    }

    /// Keeps a job for which there is room. At `OutOfMemory` the table is as before.
    fn add(&mut self, job: Job) -> Result<(), OutOfMemory>
        requires job { IsJob job }
        requires idle { is_busy job.key self.old ≡ false }
        requires room { is_running job ≡ true → is_crowded self.old ≡ false }
        ensures kept { OnOk result (self.new ≡ keep self.old job) }
        ensures reserves { OnOk result (reserved self.new ≡ reserved self.old + reserved_for job.work) }
        ensures refused { OnErr result (self.new ≡ self.old) }
    {
        let runs = u32::from(job.work.is_running());
        let reserved = job.work.reserved();
        records::keep(&mut self.works, job)?;
        self.running += runs;
        self.reserved += reserved;
        Ok(())
    }

    /// Takes a step of the job that runs as the key.
    fn change(&mut self, key: Key, step: Change)
        requires busy { is_busy key self.old ≡ true }
        requires step { MayStep step key self.old }
        ensures changed { self.new ≡ change (runs_as key) (with_work (stepped step)) self.old }
        ensures frees { reserved self.new + 1 ≤ reserved self.old }
    {
        let Some(work) = self.works.peek_mut(&key) else {
            unreachable!()
        };
        let before = work.reserved();
        work.take(step);
        self.reserved = self.reserved + work.reserved() - before;
        self.running -= u32::from(!work.is_running());
    }

    /// Keeps an operation that is to write the blocks of `rod`, at most 1,048,576, to `ranges` (SPC-4, WRITE USING
    /// TOKEN). One without blocks is done at once. No operation of the key runs (`runs`), and fewer than 64 do
    /// (`is_crowded`). The record of an ended operation of the key is replaced; where 256 are kept, the first that has
    /// ended makes room. At `OutOfMemory` the table is as before.
    pub fn start(
        &mut self,
        key: Key,
        background: bool,
        ranges: RangeList,
        rod: BlockList,
    ) -> Result<(), OutOfMemory>
        requires token { key.copy ≡ false }
        requires idle { is_busy key self.old ≡ false }
        requires room { is_crowded self.old ≡ false }
        requires apart { is_overlapping ranges ≡ false }
        requires numbers { is_within (2 ^ 64) ranges ≡ true }
        requires total { total ranges ≡ length rod.items }
        requires few { length rod.items ≤ 1_048_576 }
        ensures kept { OnOk result (self.new ≡ keep self.old (started key background ranges rod)) }
        ensures reserves { OnOk result (reserved self.new ≡ reserved self.old + reserved_at_start (length rod.items)) }
        ensures refused { OnErr result (self.new ≡ self.old) }
    {
        let state = if rod.blocks() == 0 {
            OpState::Done
        } else {
            OpState::Running
        };
        let work = Work::Writing(WriteJob {
            background,
            ranges,
            rod,
            written: 0,
            state,
        });
        self.add(Job { key, work })
    }

    /// Keeps a copy that its nexus is to carry out (SPC-4, EXTENDED COPY), whose list identifier has one byte. It is
    /// tested, and room is made, as for `start`. At `OutOfMemory` the table is as before.
    pub fn open(&mut self, key: Key) -> Result<(), OutOfMemory>
        requires copy { key.copy ≡ true }
        requires byte { key.id < 2 ^ 8 }
        requires idle { is_busy key self.old ≡ false }
        requires room { is_crowded self.old ≡ false }
        ensures kept { OnOk result (self.new ≡ keep self.old (opened key)) }
        ensures reserves { OnOk result (reserved self.new ≡ reserved self.old + 1) }
        ensures refused { OnErr result (self.new ≡ self.old) }
    {
        let work = Work::Copying(CopyEnd {
            state: CopyState::Running,
            segments: 0,
            bytes: 0,
        });
        self.add(Job { key, work })
    }

    /// Keeps that the token of this serial was made of so many blocks (SPC-4, POPULATE TOKEN). No operation of the key
    /// runs; any number of others may. Room is made as by `start`. At `OutOfMemory` the table is as before.
    pub fn made(&mut self, key: Key, serial: u64, blocks: u32) -> Result<(), OutOfMemory>
        requires token { key.copy ≡ false }
        requires idle { is_busy key self.old ≡ false }
        ensures kept { OnOk result (self.new ≡ keep self.old (made key serial blocks)) }
        ensures reserves { OnOk result (reserved self.new ≡ reserved self.old) }
        ensures refused { OnErr result (self.new ≡ self.old) }
    {
        let work = Work::Populated { serial, blocks };
        self.add(Job { key, work })
    }

    /// What is to be written next, at most 1024 blocks: by the foreground operation of a key, or without a key by the
    /// background operation that was kept first. `None` where no such operation runs. The piece shares the payload.
    pub fn next(&self, key: Option<Key>) -> Result<Option<NextPiece>, OutOfMemory>
        ensures none { IfOk result (λ found. found ≡ None → find (is_next key) self.now ≡ None) }
        ensures piece { IfOk result (λ found. IfSome found (λ piece. IsNextPiece key self.now piece)) }
    {
        match self.next_work(key) {
            Some((key, work)) => work.next_piece(self.alloc, key),
            None => Ok(None),
        }
    }

    /// The next piece of the operation, of so many blocks, was written. With the last one it is done. Here and in the
    /// three calls below one entry at least is no longer kept free. It takes no memory.
    pub fn moved(&mut self, key: Key, blocks: u32)
        requires token { key.copy ≡ false }
        requires piece { next_length key self.old ≡ Some blocks }
        ensures changed { self.new ≡ change (runs_as key) (with_work (moved_by blocks)) self.old }
        ensures frees { reserved self.new + 1 ≤ reserved self.old }
    {
        self.change(key, Change::Moved(blocks));
    }

    /// The next piece of the operation was refused, and it goes on no more. It takes no memory.
    pub fn fail(&mut self, key: Key, sense: Sense)
        requires token { key.copy ≡ false }
        requires busy { is_busy key self.old ≡ true }
        ensures changed { self.new ≡ change (runs_as key) (with_work (stopped_by sense)) self.old }
        ensures frees { reserved self.new + 1 ≤ reserved self.old }
    {
        self.change(key, Change::Stopped(sense));
    }

    /// The operation was ended before it was done. It takes no memory.
    pub fn terminate(&mut self, key: Key)
        requires token { key.copy ≡ false }
        requires busy { is_busy key self.old ≡ true }
        ensures changed { self.new ≡ change (runs_as key) (with_work terminated) self.old }
        ensures frees { reserved self.new + 1 ≤ reserved self.old }
    {
        self.change(key, Change::Terminated);
    }

    /// The copy has come to its end. It takes no memory.
    pub fn close(&mut self, key: Key, end: CopyEnd)
        requires copy { key.copy ≡ true }
        requires busy { is_busy key self.old ≡ true }
        requires ended { is_running_copy end.state ≡ false }
        ensures changed { self.new ≡ change (runs_as key) (with_work (closed_by end)) self.old }
        ensures frees { reserved self.new + 1 ≤ reserved self.old }
    {
        self.change(key, Change::Closed(end));
    }

    /// What is kept of a token operation (SPC-4, RECEIVE ROD TOKEN INFORMATION); `None` where nothing is. It takes no
    /// memory.
    pub fn report(&self, key: Key) -> Option<OpReport>
        requires { key.copy ≡ false }
        ensures { result ≡ option_map (λ (job : Job). report_of job.work) (find (has_key key) self.now) }
    {
        let work = self.works.peek(&key)?;
        Some(work.report())
    }

    /// How a copy stands (SPC-4, RECEIVE COPY STATUS); `None` where nothing is kept of it. It takes no memory.
    pub fn recall(&self, key: Key) -> Option<CopyEnd>
        requires { key.copy ≡ true }
        ensures { result ≡ option_map (λ (job : Job). result_of job.work) (find (has_key key) self.now) }
    {
        let work = self.works.peek(&key)?;
        Some(work.result())
    }
}
