ghost use Rattle.std.specs.Prelude.{◌≡◌, ◌≤◌, ◌⊎◌, Some, None, OnOk, IfOk, IfErr};
ghost use Rattle.lba_ranges.specs.Denoted.{total};
ghost use Rattle.copy_plan.specs.declared.fault.JobFault.{JobFault};
ghost use Rattle.copy_plan.specs.Jobs.{AreExtents, fault_of_blocks, job_fault};

use crate::extents::{first_bad_of, overlap, total};
use crate::fault::JobFault;
use cm_base::{OutOfMemory, Sequence};
use lba_ranges::Range;
use std::alloc::Global;
use std::marker::Model;

/// Extents: ranges of blocks, none of them empty.
pub type ExtentList = Sequence<Range>;

/// The extents that a list may have.
pub(crate) const EXTENTS_LIMIT: usize = 65_536;

/// The blocks that a job may copy.
const BLOCKS_LIMIT: u64 = 4_294_967_296;

/// What a host is to copy by tokens (own profile): the blocks of the extents `from` of one unit, in order, to the
/// blocks of the extents `to` of another one, or of the same.
///
/// Each list has at most 65,536 extents, none of them empty, whose block numbers have 64 bits, and no block twice.
/// Both have as many blocks, at most 4,294,967,296. At least one poll is allowed for each write.
#[derive(Drop)]
pub struct Job {
    source: u16,
    target: u16,
    polls: u32,
    from: ExtentList,
    to: ExtentList,
}

impl Model for Job {
    ghost use Rattle.copy_plan.specs.Jobs.{CopyJob, IsJob};

    ghost Value = { CopyJob };

    ghost view = { λ j. record { source = j.source; target = j.target; polls = j.polls; from = j.from; to = j.to } };

    ghost invariant = { λ j. IsJob (record { source = j.source; target = j.target; polls = j.polls; from = j.from; to = j.to }) };
}

impl Job {
    /// The job of these numbers and extents. `polls` is how many replies to one write may say that it still runs.
    ///
    /// At an error the lists are dropped: the first fault of the job, or `JobFault::OutOfMemory`, since the extents
    /// are sorted in memory to find a block that stands twice.
    pub fn new(
        alloc: Global,
        source: u16,
        target: u16,
        polls: u32,
        from: ExtentList,
        to: ExtentList,
    ) -> Result<Job, JobFault>
        ensures job { IfOk result (λ job. job ≡ record { source = source; target = target; polls = polls; from = from; to = to }) }
        ensures sound { OnOk result (job_fault (record { source = source; target = target; polls = polls; from = from; to = to }) ≡ None) }
        ensures cause { IfErr result (λ fault. (fault ≡ JobFault.OutOfMemory)
            ⊎ (job_fault (record { source = source; target = target; polls = polls; from = from; to = to }) ≡ Some fault)) }
    {
        if polls == 0 {
            return Err(JobFault::NoPolls);
        }
        if from.len() > EXTENTS_LIMIT {
            return Err(JobFault::ManySources);
        }
        if to.len() > EXTENTS_LIMIT {
            return Err(JobFault::ManyTargets);
        }
        if let Some(index) = first_bad_of(from.as_slice(), to.as_slice()) {
            return Err(JobFault::BadExtent {
                index: index as u64,
            });
        }
        if overlap(alloc, from.as_slice())? || overlap(alloc, to.as_slice())? {
            return Err(JobFault::SharedBlock);
        }
        let blocks = total(from.as_slice());
        if blocks != total(to.as_slice()) || blocks > BLOCKS_LIMIT {
            return Err(JobFault::BadTotals);
        }
        Ok(Job {
            source,
            target,
            polls,
            from,
            to,
        })
    }

    /// The unit that is read.
    pub fn source(&self) -> u16
        ensures { result ≡ self.now.source }
    {
        self.source
    }

    /// The unit that is written.
    pub fn target(&self) -> u16
        ensures { result ≡ self.now.target }
    {
        self.target
    }

    /// How many replies to one write may say that it still runs, at least 1.
    pub fn polls(&self) -> u32
        ensures polls { result ≡ self.now.polls }
        ensures some { 1 ≤ result }
    {
        self.polls
    }

    /// The extents that are read.
    pub fn from(&self) -> &[Range]
        ensures extents { result.now ≡ self.now.from }
        ensures limits { AreExtents result.now }
    {
        self.from.as_slice()
    }

    /// The extents that are written.
    pub fn to(&self) -> &[Range]
        ensures extents { result.now ≡ self.now.to }
        ensures limits { AreExtents result.now }
    {
        self.to.as_slice()
    }

    /// How many blocks are copied, at most 4,294,967,296.
    pub fn blocks(&self) -> u64
        ensures from { result ≡ total self.now.from }
        ensures to { result ≡ total self.now.to }
        ensures few { result ≤ 4_294_967_296 }
    {
        total(self.from.as_slice())
    }
}
