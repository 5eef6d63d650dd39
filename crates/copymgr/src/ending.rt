// How the program ends, and why.
use crate::status::Status;
use std::alloc::Global;
use std::fmt;

/// How the program ends, and what caused it, where the host said more of it than the status does.
#[derive(Drop)]
pub struct Ending {
    pub status: Status,
    /// A line without its end, for a second line on standard error.
    pub cause: Option<String>,
}

impl Ending {
    /// An ending of which its status says all.
    pub fn new(status: Status) -> Ending {
        Ending {
            status,
            cause: None,
        }
    }

    /// The ending of serving whose report says how many entries were kept and stand in no file.
    pub fn kept(alloc: Global, status: Status, kept: u64) -> Ending {
        let cause = if kept > 0 {
            format!(in alloc; "{kept} entries are in no file, and are lost with the program").ok()
        } else {
            None
        };
        Ending { status, cause }
    }

    /// An ending whose cause is told of something. Where memory is wanted for the line, the status stands alone.
    pub fn told<E: fmt::Display>(alloc: Global, status: Status, of: &str, error: &E) -> Ending {
        Ending {
            status,
            cause: format!(in alloc; "{of}: {error}").ok(),
        }
    }
}
