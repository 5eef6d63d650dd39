ghost use Rattle.std.specs.Prelude.{◌≡◌, ◌≤◌, ◌==◌, ◌||◌, is_some, IsTrue};
ghost use Rattle.copy_status.specs.CopyStatus.{told_status, is_code};

use crate::operation::OperationStatus;
use scsi_sense::Sense;
use std::marker::Model;

/// Blocks of one token operation.
pub(crate) const MAX_COUNT: u64 = 1_048_576;

/// What is told of a token operation: a POPULATE TOKEN or a WRITE USING TOKEN, how it stands, and
/// the blocks that it has moved, at most 1,048,576.
#[derive(Drop)]
pub struct StatusFields {
    populate: bool,
    status: OperationStatus,
    count: u64,
}

impl Model for StatusFields {
    ghost use Rattle.std.specs.Prelude.{◌≤◌};
    ghost use Rattle.copy_status.specs.CopyStatus.{CopyStatus, told_status};

    ghost Value = { CopyStatus };

    ghost view = { λ f. told_status f.populate f.status f.count };

    ghost invariant = { λ f. f.count ≤ 1_048_576 };
}

impl StatusFields {
    /// The status of an operation that moved `count` blocks, at most 1,048,576: a POPULATE TOKEN, or
    /// otherwise a WRITE USING TOKEN. It takes no memory.
    pub fn new(populate: bool, status: OperationStatus, count: u64) -> StatusFields
        requires { count ≤ 1_048_576 }
        ensures { result ≡ told_status populate status count }
    {
        StatusFields {
            populate,
            status,
            count,
        }
    }

    /// It is a POPULATE TOKEN, and otherwise a WRITE USING TOKEN.
    pub fn populate(&self) -> bool
        ensures { result ≡ self.now.populate }
    {
        self.populate
    }

    /// COPY OPERATION STATUS: 01h, 02h, 11h, 12h or 60h.
    pub fn status(&self) -> u8
        ensures value { result ≡ self.now.status }
        ensures known { IsTrue (is_code result) }
    {
        match self.status {
            OperationStatus::Completed => 0x01,
            OperationStatus::Failed(_) => 0x02,
            OperationStatus::Foreground => 0x11,
            OperationStatus::Background => 0x12,
            OperationStatus::Terminated => 0x60,
        }
    }

    /// It is in progress: exactly where the status is 11h or 12h.
    pub fn running(&self) -> bool
        ensures value { result ≡ self.now.running }
        ensures in_progress { result ≡ ((self.now.status == 0x11) || (self.now.status == 0x12)) }
    {
        match self.status {
            OperationStatus::Foreground | OperationStatus::Background => true,
            _ => false,
        }
    }

    /// Why it failed: exactly where the status is 02h.
    pub fn sense(&self) -> Option<Sense>
        ensures value { result ≡ self.now.sense }
        ensures failed { is_some result ≡ (self.now.status == 0x02) }
    {
        match self.status {
            OperationStatus::Failed(sense) => Some(sense),
            _ => None,
        }
    }

    /// TRANSFER COUNT, in blocks, at most 1,048,576.
    pub fn count(&self) -> u64
        ensures value { result ≡ self.now.count }
        ensures few { result ≤ 1_048_576 }
    {
        self.count
    }
}
