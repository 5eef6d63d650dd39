ghost use Rattle.std.specs.Prelude.{◌≡◌};
ghost use Rattle.copymgr.specs.Statuses.{code_of, fault_status, status_of, check_status, copy_status, serve_status};

use cm_server::Status as ServeStatus;
use odx_host::{Copied, StreamFault};
use std::fmt;
use trace_check::CheckEnd;
use trace_replay::{ReplayFault, Summary};

/// How the program ends. A place counts in bytes from the first byte of the input, where nothing else is said.
#[derive(Debug, Clone, Copy, PartialEq, Eq)]
pub enum Status {
    Done,
    ReadFault,
    WriteFault,
    OutOfMemory,
    /// The input ends inside the part at this place.
    Torn(u64),
    /// The header has a fault at this place.
    BadHeader(u64),
    /// The words are none that the program knows.
    Usage,
    /// The item at this place can't be read or played.
    BadRecord(u64),
    /// Another item follows the last that is allowed.
    Records,
    /// No connection can be accepted at the address, or one could not be accepted.
    AcceptFault,
    /// The recorded replies are not those of the trace: the first difference is at this place, from their first byte.
    Differs(u64),
    /// The file of this unit is no journal of it, or a bad one at this place, in bytes from its first.
    BadJournal { unit: u16, place: u64 },
    /// A journal could not be opened, since a call of its file failed.
    DiskFault,
    /// A request of this step of a copy was refused.
    Refused(u32),
    /// The write of this step of a copy failed, or was terminated.
    CopyFailed(u32),
    /// The write of this step of a copy still ran when it had been polled as often as the job allows.
    Polls(u32),
    /// What was told of this step of a copy is told by no copy manager.
    BadData(u32),
    /// The replies of a copy ended before its end.
    Ended,
    /// What stands in place of a reply of a copy is none.
    BadReply,
    /// The journal of this unit has an entry that the unit would not have allowed, with this number from 0.
    BadHistory { unit: u16, entry: u64 },
}

impl Status {
    /// The exit status of the program.
    pub fn code(&self) -> u8
        ensures { result ≡ code_of self.now }
    {
        match self {
            Status::Done => 0,
            Status::ReadFault => 1,
            Status::WriteFault => 2,
            Status::OutOfMemory => 3,
            Status::Torn(_) => 4,
            Status::BadHeader(_) => 5,
            Status::Usage => 6,
            Status::BadRecord(_) => 7,
            Status::Records => 8,
            Status::AcceptFault => 9,
            Status::Differs(_) => 10,
            Status::BadJournal { .. } => 11,
            Status::DiskFault => 12,
            Status::Refused(_) => 13,
            Status::CopyFailed(_) => 14,
            Status::Polls(_) => 15,
            Status::BadData(_) => 16,
            Status::Ended => 17,
            Status::BadReply => 18,
            Status::BadHistory { .. } => 19,
        }
    }
}

impl From<ReplayFault> for Status {
    ghost from_gives = { λ fault status. status ≡ fault_status fault };

    fn from(fault: ReplayFault) -> Status {
        match fault {
            ReplayFault::ReadFault => Status::ReadFault,
            ReplayFault::WriteFault => Status::WriteFault,
            ReplayFault::OutOfMemory => Status::OutOfMemory,
            ReplayFault::Torn { place } => Status::Torn(place),
            ReplayFault::BadHeader { place } => Status::BadHeader(place),
            ReplayFault::BadRecord { place } => Status::BadRecord(place),
            ReplayFault::Records => Status::Records,
        }
    }
}

impl From<Result<Summary, ReplayFault>> for Status {
    ghost from_gives = { λ answer status. status ≡ status_of answer };

    fn from(answer: Result<Summary, ReplayFault>) -> Status {
        match answer {
            Ok(_) => Status::Done,
            Err(fault) => Status::from(fault),
        }
    }
}

impl From<Result<CheckEnd, ReplayFault>> for Status {
    ghost from_gives = { λ answer status. status ≡ check_status answer };

    fn from(answer: Result<CheckEnd, ReplayFault>) -> Status {
        match answer {
            Ok(CheckEnd::Yes) => Status::Done,
            Ok(CheckEnd::Differs { place }) => Status::Differs(place),
            Err(fault) => Status::from(fault),
        }
    }
}

impl From<Result<Copied, StreamFault>> for Status {
    ghost from_gives = { λ answer status. status ≡ copy_status answer };

    fn from(answer: Result<Copied, StreamFault>) -> Status {
        match answer {
            Ok(_) => Status::Done,
            Err(StreamFault::OutOfMemory) => Status::OutOfMemory,
            Err(StreamFault::ReadFault) => Status::ReadFault,
            Err(StreamFault::WriteFault) => Status::WriteFault,
            Err(StreamFault::Torn) => Status::Torn(0),
            Err(StreamFault::BadJob { place }) => Status::BadHeader(place),
            Err(StreamFault::Ended) => Status::Ended,
            Err(StreamFault::BadReply) => Status::BadReply,
            Err(StreamFault::Refused { step }) => Status::Refused(step),
            Err(StreamFault::BadData { step }) => Status::BadData(step),
            Err(StreamFault::Failed { step }) => Status::CopyFailed(step),
            Err(StreamFault::Polls { step }) => Status::Polls(step),
        }
    }
}

impl From<ServeStatus> for Status {
    ghost from_gives = { λ served status. status ≡ serve_status served };

    fn from(served: ServeStatus) -> Status {
        match served {
            ServeStatus::Done => Status::Done,
            ServeStatus::WriteFault => Status::WriteFault,
            ServeStatus::OutOfMemory => Status::OutOfMemory,
            ServeStatus::BadHeader(place) => Status::BadHeader(place),
            ServeStatus::Usage => Status::Usage,
            ServeStatus::AcceptFault => Status::AcceptFault,
            ServeStatus::BadJournal { unit, place } => Status::BadJournal { unit, place },
            ServeStatus::DiskFault => Status::DiskFault,
            ServeStatus::BadHistory { unit, entry } => Status::BadHistory { unit, entry },
        }
    }
}

impl fmt::Display for Status {
    fn fmt<W: fmt::Write>(&self, f: &mut fmt::Formatter<W>) -> fmt::Result {
        match self {
            Status::Done => write!(f, "done"),
            Status::ReadFault => write!(f, "read failed"),
            Status::WriteFault => write!(f, "write failed"),
            Status::OutOfMemory => write!(f, "out of memory"),
            Status::Torn(place) => write!(f, "input ends inside the part at byte {place}"),
            Status::BadHeader(place) => write!(f, "bad header at byte {place}"),
            Status::Usage => {
                write!(
                    f,
                    "use replay, check, copy [ADDRESS], gen N, store ADDRESS SESSIONS FOLDER, \
                     or serve ADDRESS SESSIONS [FOLDER]"
                )
            }
            Status::BadRecord(place) => write!(f, "bad record at byte {place}"),
            Status::Records => write!(f, "too many records"),
            Status::AcceptFault => write!(f, "accept failed"),
            Status::Differs(place) => write!(f, "replies differ at byte {place}"),
            Status::BadJournal { unit, place } => {
                write!(f, "bad journal of unit {unit} at byte {place}")
            }
            Status::DiskFault => write!(f, "disk failed"),
            Status::Refused(step) => write!(f, "refused at step {step}"),
            Status::CopyFailed(step) => write!(f, "copy failed at step {step}"),
            Status::Polls(step) => write!(f, "still running at step {step}"),
            Status::BadData(step) => write!(f, "bad data at step {step}"),
            Status::Ended => write!(f, "replies ended"),
            Status::BadReply => write!(f, "bad reply"),
            Status::BadHistory { unit, entry } => {
                write!(f, "bad history of unit {unit} at entry {entry}")
            }
        }
    }
}
