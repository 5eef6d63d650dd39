ghost use Rattle.std.specs.Prelude.{◌≡◌, OnOk, OnErr, true};
ghost use Rattle.unit_core.specs.inner.JobChanges.{jobs_after, MayJob, grows};

use cm_base::OutOfMemory;
use cm_history::CopyEnd;
use copy_jobs::{JobTable, Key};
use lba_ranges::{BlockList, RangeList};
use scsi_sense::Sense;

/// What an act is to change in the operations.
#[derive(Drop)]
pub(crate) enum JobChange {
    Nothing,
    /// A token was made.
    Make {
        key: Key,
        serial: u64,
        blocks: u32,
    },
    Start {
        key: Key,
        background: bool,
        ranges: RangeList,
        rod: BlockList,
    },
    Open {
        key: Key,
    },
    /// The next piece is written.
    Move {
        key: Key,
        blocks: u32,
    },
    /// The next piece goes over the quota.
    Stop {
        key: Key,
    },
    End {
        key: Key,
    },
    Close {
        key: Key,
        end: CopyEnd,
    },
}

impl JobChange {
    /// Changes the operations. Only a new operation takes memory; at `OutOfMemory` they are as before.
    pub(crate) fn apply(self, jobs: &mut JobTable) -> Result<(), OutOfMemory>
        requires { MayJob self jobs.old }
        ensures changed { OnOk result (jobs.new ≡ jobs_after self jobs.old) }
        ensures err { OnErr result (jobs.new ≡ jobs.old) }
        ensures grows { OnErr result (grows self ≡ true) }
    {
        match self {
            JobChange::Nothing => {}
            JobChange::Make {
                key,
                serial,
                blocks,
            } => {
                return jobs.made(key, serial, blocks);
            }
            JobChange::Start {
                key,
                background,
                ranges,
                rod,
            } => {
                return jobs.start(key, background, ranges, rod);
            }
            JobChange::Open { key } => return jobs.open(key),
            JobChange::Move { key, blocks } => jobs.moved(key, blocks),
            JobChange::Stop { key } => jobs.fail(key, Sense::space_allocation_failed()),
            JobChange::End { key } => jobs.terminate(key),
            JobChange::Close { key, end } => jobs.close(key, end),
        }
        Ok(())
    }
}
