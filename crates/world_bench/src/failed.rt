use cm_base::OutOfMemory;
use thiserror::Error;

/// Why a run gave up.
#[derive(Debug, Drop, Clone, Copy, Error)]
pub enum Failed {
    #[error("out of memory")]
    OutOfMemory,
    /// The entry of the merged history, from 0, whose act was answered otherwise than by the plain model.
    #[error("the act of entry {0} was not answered as by the plain model")]
    Differs(usize),
    /// The same, otherwise than by a unit that is asked in one thread.
    #[error("the act of entry {0} was not answered as by a unit in one thread")]
    DiffersAlone(usize),
}

impl From<OutOfMemory> for Failed {
    fn from(_: OutOfMemory) -> Failed {
        Failed::OutOfMemory
    }
}
