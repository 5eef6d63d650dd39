ghost use Rattle.std.specs.Prelude.{◌≡◌, ◌&&◌, ◌+◌, ◌<◌, ◌≤◌, length, IfOk, IfSome, None, true, false};
ghost use Rattle.cm_history.specs.Operations.{is_running_state};
ghost use Rattle.copy_jobs.specs.Jobs.{is_running_work, reserved_to_write, reserved_for};
ghost use Rattle.copy_jobs.specs.Changes.{moved_write};
ghost use Rattle.copy_jobs.specs.Pieces.{is_foreground, is_background, IsPiece};
ghost use Rattle.copy_jobs.specs.inner.Pieces.{is_writing, IsPieceOf};
ghost use Rattle.copy_jobs.specs.Reports.{report_of, result_of};
ghost use Rattle.copy_jobs.specs.declared.job.Job.{Job};
ghost use Rattle.copy_jobs.specs.inner.Sought.{is_sought};
ghost use Rattle.copy_jobs.specs.inner.Steps.{stepped, MayTake};
ghost use Rattle.copy_jobs.specs.inner.Tables.{IsWriteJob, IsWork};

use crate::change::Change;
use crate::key::Key;
use crate::piece::NextPiece;
use cm_base::OutOfMemory;
use cm_history::{CopyEnd, CopyState, OpReport, OpState, PIECE_BLOCKS, pieces};
use lba_ranges::{BlockList, RangeList};
use std::alloc::Global;

/// Blocks that are written piece by piece: the next piece begins behind the first `written` blocks.
#[derive(Drop)]
pub struct WriteJob {
    /// The unit's pump writes the pieces, and not the initiator.
    pub background: bool,
    pub ranges: RangeList,
    pub rod: BlockList,
    pub written: u32,
    pub state: OpState,
}

impl WriteJob {
    fn is_running(&self) -> bool
        ensures { result ≡ is_running_state self.now.state }
    {
        matches!(&self.state, OpState::Running)
    }

    /// The entries that it may still need: one for each piece that is left, and one for an early end.
    fn reserved(&self) -> u64
        requires { IsWriteJob self.now }
        ensures reserved { result ≡ reserved_to_write self.now }
        ensures few { result ≤ 1025 }
    {
        if self.is_running() {
            pieces(self.rod.blocks()) + 1 - pieces(u64::from(self.written))
        } else {
            0
        }
    }

    /// So many more blocks were written.
    fn advance(&mut self, blocks: u32)
        requires { self.old.written + blocks ≤ 1_048_576 }
        ensures { self.new ≡ moved_write blocks self.old }
    {
        self.written += blocks;
        self.state = if u64::from(self.written) == self.rod.blocks() {
            OpState::Done
        } else {
            OpState::Running
        };
    }

    /// The next piece, which shares the payload.
    pub(crate) fn next(&self, alloc: Global, key: Key) -> Result<NextPiece, OutOfMemory>
        requires job { IsWriteJob self.now }
        requires left { self.now.written < length self.now.rod.items }
        ensures named { IfOk result (λ piece. piece.key ≡ key) }
        ensures piece { IfOk result (λ piece. IsPiece self.now piece) }
    {
        let from = u64::from(self.written);
        let count = (self.rod.blocks() - from).min(PIECE_BLOCKS);
        let ranges = self.ranges.slice(alloc, from, count)?;
        let list = self.rod.slice(alloc, from, count)?;
        Ok(NextPiece {
            key,
            written: self.written,
            is_last: from + count == self.rod.blocks(),
            ranges,
            list,
        })
    }
}

/// What is kept of an operation.
#[derive(Drop)]
pub enum Work {
    /// A token was made of so many blocks.
    Populated { serial: u64, blocks: u32 },
    Writing(WriteJob),
    /// A copy that its nexus carries out.
    Copying(CopyEnd),
}

impl Work {
    pub(crate) fn is_running(&self) -> bool
        ensures { result ≡ is_running_work self.now }
    {
        match self {
            Work::Populated { .. } => false,
            Work::Writing(write) => write.is_running(),
            Work::Copying(end) => matches!(&end.state, CopyState::Running),
        }
    }

    /// The entries of the record that are kept free for it.
    pub(crate) fn reserved(&self) -> u64
        requires { IsWork self.now }
        ensures reserved { result ≡ reserved_for self.now }
        ensures few { result ≤ 1025 }
    {
        match self {
            Work::Populated { .. } => 0,
            Work::Writing(write) => write.reserved(),
            Work::Copying(end) => u64::from(matches!(&end.state, CopyState::Running)),
        }
    }

    /// The pump writes it.
    fn is_background(&self) -> bool
        ensures { result ≡ is_background self.now }
    {
        match self {
            Work::Writing(write) => write.background,
            _ => false,
        }
    }

    /// It runs, and the initiator has it written.
    pub(crate) fn runs_in_foreground(&self) -> bool
        ensures { result ≡ (is_running_work self.now && is_foreground self.now) }
    {
        self.is_running() && self.is_foreground()
    }

    /// The initiator has it written.
    fn is_foreground(&self) -> bool
        ensures { result ≡ is_foreground self.now }
    {
        match self {
            Work::Writing(write) => !write.background,
            _ => false,
        }
    }

    /// It is one of those that are looked for.
    pub(crate) fn is(&self, sought: Sought) -> bool
        ensures { result ≡ is_sought sought self.now }
    {
        match sought {
            Sought::Ended => !self.is_running(),
            Sought::Running { background } => {
                self.is_running() && self.is_background() == background
            }
        }
    }

    pub(crate) fn take(&mut self, step: Change)
        requires work { IsWork self.old }
        requires step { MayTake step self.old }
        ensures { self.new ≡ stepped step self.old }
    {
        match self {
            Work::Populated { .. } => {}
            Work::Writing(write) => match step {
                Change::Moved(blocks) => write.advance(blocks),
                Change::Stopped(sense) => write.state = OpState::Failed(sense),
                Change::Terminated => write.state = OpState::Terminated,
                Change::Closed(_) => {}
            },
            Work::Copying(was) => {
                if let Change::Closed(end) = step {
                    *was = end;
                }
            }
        }
    }

    pub(crate) fn report(&self) -> OpReport
        ensures { result ≡ report_of self.now }
    {
        match self {
            Work::Populated { serial, blocks } => OpReport {
                populate: true,
                background: false,
                state: OpState::Done,
                count: *blocks,
                serial: Some(*serial),
            },
            Work::Writing(write) => OpReport {
                populate: false,
                background: write.background,
                state: write.state,
                count: write.written,
                serial: None,
            },
            Work::Copying(_) => OpReport {
                populate: false,
                background: false,
                state: OpState::Done,
                count: 0,
                serial: None,
            },
        }
    }

    pub(crate) fn result(&self) -> CopyEnd
        ensures { result ≡ result_of self.now }
    {
        match self {
            Work::Copying(end) => *end,
            _ => CopyEnd {
                state: CopyState::Running,
                segments: 0,
                bytes: 0,
            },
        }
    }

    /// The next piece, if it writes; `None` of other work.
    pub(crate) fn next_piece(
        &self,
        alloc: Global,
        key: Key,
    ) -> Result<Option<NextPiece>, OutOfMemory>
        requires work { IsWork self.now }
        requires runs { is_running_work self.now ≡ true }
        ensures writes { IfOk result (λ piece. piece ≡ None → is_writing self.now ≡ false) }
        ensures piece { IfOk result (λ piece. IfSome piece (λ piece. IsPieceOf (record { key = key; work = self.now }) piece)) }
    {
        match self {
            Work::Writing(write) => Ok(Some(write.next(alloc, key)?)),
            _ => Ok(None),
        }
    }
}

/// An operation that is kept.
#[derive(Drop)]
pub struct Job {
    pub key: Key,
    pub work: Work,
}

/// Which operation is looked for.
#[derive(Drop, Clone, Copy)]
pub(crate) enum Sought {
    /// One that has ended.
    Ended,
    /// One that runs: the pump writes it, or it goes on, and comes to its end, only as its initiator asks.
    Running { background: bool },
}
