use cm_base::OutOfMemory;
use recorder::RecordRefused;
use thiserror::Error;

/// Why not all was done.
#[derive(Debug, Drop, Error)]
pub(crate) enum Failed {
    #[error("memory was wanted and not had")]
    OutOfMemory,
    #[error("standard input can't be read")]
    Read,
    #[error("standard output can't be written")]
    Write,
    /// So many bytes are left.
    #[error("no entry stands {0} bytes before the end")]
    NoEntry(usize),
    #[error("a list has more than 1,048,576 blocks")]
    LongList,
}

impl From<OutOfMemory> for Failed {
    fn from(_: OutOfMemory) -> Failed {
        Failed::OutOfMemory
    }
}

impl From<RecordRefused> for Failed {
    fn from(refused: RecordRefused) -> Failed {
        match refused {
            RecordRefused::OutOfMemory => Failed::OutOfMemory,
            RecordRefused::Failed | RecordRefused::Absent => Failed::Write,
        }
    }
}
