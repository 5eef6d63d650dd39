use cm_history::{CopyEnd, OpState};
use scsi_sense::Sense;

/// What happens to an operation that runs.
#[derive(Drop, Clone, Copy)]
pub(crate) enum Change {
    /// So many more blocks were written, a whole piece.
    Moved(u32),
    /// A piece was refused.
    Stopped(Sense),
    /// The initiator ended it.
    Terminated,
    /// A copy came to its end.
    Closed(CopyEnd),
}
