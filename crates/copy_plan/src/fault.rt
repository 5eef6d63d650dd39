use cm_base::OutOfMemory;
use std::error::Error;
use std::fmt;

/// Why a job is none.
#[derive(Debug, Clone, Copy, PartialEq, Eq)]
pub enum JobFault {
    OutOfMemory,
    /// No poll is allowed.
    NoPolls,
    /// More than 65,536 extents are to be read.
    ManySources,
    /// More than 65,536 extents are to be written.
    ManyTargets,
    /// An extent has no block, or one whose number is above 2^64 - 1. The extents that are read are numbered
    /// from 0, and those that are written behind them.
    BadExtent { index: u64 },
    /// Two extents that are read share a block, or two that are written.
    SharedBlock,
    /// Not as many blocks are read as are written, or more than 4,294,967,296.
    BadTotals,
}

impl fmt::Display for JobFault {
    fn fmt<W: fmt::Write>(&self, f: &mut fmt::Formatter<W>) -> fmt::Result {
        match self {
            JobFault::OutOfMemory => write!(f, "out of memory"),
            JobFault::NoPolls => write!(f, "no poll is allowed"),
            JobFault::ManySources => write!(f, "too many extents to read"),
            JobFault::ManyTargets => write!(f, "too many extents to write"),
            JobFault::BadExtent { index } => write!(f, "extent {index} is empty or too far"),
            JobFault::SharedBlock => write!(f, "two extents share a block"),
            JobFault::BadTotals => write!(f, "not as many blocks to write as to read, or too many"),
        }
    }
}

impl Error for JobFault {}

impl From<OutOfMemory> for JobFault {
    ghost use Rattle.std.specs.Prelude.{◌≡◌};
    ghost use Rattle.copy_plan.specs.declared.fault.JobFault.{JobFault};

    ghost from_gives = { λ _ fault. fault ≡ JobFault.OutOfMemory };

    fn from(_: OutOfMemory) -> JobFault {
        JobFault::OutOfMemory
    }
}
