// What is kept of the operations, each found by its key: which stays, which makes room, and which was kept first.
ghost use Rattle.std.specs.Prelude.{◌≡◌, ◌+◌, ◌<◌, ◌≤◌, OnOk, OnErr, IfSome, Some, None, length, find, false};
ghost use Rattle.std.specs.NonZero.{non_zero_usize_get};
ghost use Rattle.cm_history.specs.Bounds.{kept_operations, running_operations};
ghost use Rattle.copy_jobs.specs.declared.job.Job.{Job};
ghost use Rattle.copy_jobs.specs.Jobs.{has_ended, is_busy, running};
ghost use Rattle.copy_jobs.specs.Keeping.{keep, without_first};
ghost use Rattle.copy_jobs.specs.Tables.{KeysApart};
ghost use Rattle.copy_jobs.specs.inner.Entries.{jobs_of, first_runs};
ghost use Rattle.copy_jobs.specs.inner.Sought.{is_sought};

use crate::job::{Job, Sought, Work};
use crate::key::Key;
use cm_base::OutOfMemory;
use lru::LruCache;
use std::num::NonZeroUsize;

/// Records that are kept.
pub(crate) const KEPT_RECORDS: usize = 256;

/// What is kept under each key. A record is new when it is put, and no look at it makes it newer.
pub(crate) type Works = LruCache<Key, Work>;

/// The room that a cache of so many records has.
pub(crate) fn room(records: usize) -> NonZeroUsize
    requires { 0 < records }
    ensures { non_zero_usize_get result ≡ records }
{
    NonZeroUsize::new(records).unwrap()
}

/// The record that was kept first of those sought, with its key.
pub(crate) fn first(works: &Works, sought: Sought) -> Option<(Key, &Work)>
    ensures none { result ≡ None → find (λ (job : Job). is_sought sought job.work) (jobs_of works.now.entries) ≡ None }
    ensures found { IfSome result (λ found. find (λ (job : Job). is_sought sought job.work) (jobs_of works.now.entries) ≡ Some (record { key = found.0; work = found.1.now })) }
{
    let mut older = works.iter();
    while let Some((key, work)) = older.next_back() {
        if work.is(sought) {
            return Some((*key, work));
        }
    }
    None
}

/// The one that was kept first still runs.
fn first_runs(works: &Works) -> bool
    ensures { result ≡ first_runs (jobs_of works.now.entries) }
{
    match works.peek_lru() {
        Some((_, work)) => work.is_running(),
        None => false,
    }
}

/// The first that has ended makes room.
fn drop_oldest(works: &mut Works)
    requires { KeysApart (jobs_of works.old.entries) }
    ensures room { jobs_of works.new.entries ≡ without_first has_ended (jobs_of works.old.entries) }
    ensures cap { works.new.cap ≡ works.old.cap }
{
    if let Some((key, _)) = first(works, Sought::Ended) {
        let _ = works.pop(&key);
    }
}

/// Keeps a job where there is room for one more than are kept, and then lets the first that has ended go. At
/// `OutOfMemory` they are as before.
fn keep_in_room(works: &mut Works, job: Job) -> Result<(), OutOfMemory>
    requires apart { KeysApart (jobs_of works.old.entries) }
    requires idle { is_busy job.key (jobs_of works.old.entries) ≡ false }
    requires few { length (jobs_of works.old.entries) ≤ kept_operations }
    requires few_running { length (running (jobs_of works.old.entries)) ≤ running_operations }
    requires cap { works.old.cap ≡ kept_operations + 1 }
    ensures kept { OnOk result (jobs_of works.new.entries ≡ keep (jobs_of works.old.entries) job) }
    ensures refused { OnErr result (works.new ≡ works.old) }
    ensures cap { works.new.cap ≡ works.old.cap }
{
    let _ = works.put(job.key, job.work)?;
    if works.len() > KEPT_RECORDS {
        drop_oldest(works);
    }
    Ok(())
}

/// Keeps a job behind the others, in the place of the one of its key. At `OutOfMemory` they are as before.
pub(crate) fn keep(works: &mut Works, job: Job) -> Result<(), OutOfMemory>
    requires apart { KeysApart (jobs_of works.old.entries) }
    requires idle { is_busy job.key (jobs_of works.old.entries) ≡ false }
    requires few_running { length (running (jobs_of works.old.entries)) ≤ running_operations }
    requires cap { works.old.cap ≡ kept_operations }
    ensures kept { OnOk result (jobs_of works.new.entries ≡ keep (jobs_of works.old.entries) job) }
    ensures refused { OnErr result (works.new ≡ works.old) }
    ensures cap { works.new.cap ≡ works.old.cap }
{
    // A full cache puts a new record in the place of the oldest, and allocates nothing.
    if works.len() < KEPT_RECORDS || !first_runs(works) {
        let _ = works.put(job.key, job.work)?;
        return Ok(());
    }
    works.resize(room(KEPT_RECORDS + 1));
    let kept = keep_in_room(works, job);
    works.resize(room(KEPT_RECORDS));
    kept
}
