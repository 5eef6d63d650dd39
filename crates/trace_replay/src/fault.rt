use cm_base::{FillFailed, OutOfMemory, WriteFailed};
use thiserror::Error;

/// Why a replay ended early. Places are in bytes, from the first byte of the input.
#[derive(Debug, Drop, Clone, Copy, Error)]
pub enum ReplayFault {
    /// The source failed. All replies to what was read were written.
    #[error("read failed")]
    ReadFault,
    /// The sink failed. A beginning of the replies was written.
    #[error("write failed")]
    WriteFault,
    /// Memory was wanted. A beginning of the replies was written.
    #[error("out of memory")]
    OutOfMemory,
    /// The input ends inside the header, or inside an item, which begins there. All replies to
    /// what comes before were written.
    #[error("input ends inside the part at byte {place}")]
    Torn { place: u64 },
    /// The header breaks a limit in the field that begins there. Nothing was written.
    #[error("bad header at byte {place}")]
    BadHeader { place: u64 },
    /// An item that may not stand there, which begins at this place. All replies to what comes
    /// before were written.
    #[error("bad record at byte {place}")]
    BadRecord { place: u64 },
    /// There are bytes behind 16,777,216 items. All replies to these were written.
    #[error("too many records")]
    Records,
}

impl From<OutOfMemory> for ReplayFault {
    ghost use Rattle.std.specs.Prelude.{◌≡◌};
    ghost use Rattle.trace_replay.specs.declared.fault.ReplayFault.{ReplayFault};

    ghost from_gives = { λ _ e. e ≡ ReplayFault.OutOfMemory };

    fn from(_: OutOfMemory) -> ReplayFault {
        ReplayFault::OutOfMemory
    }
}

impl From<WriteFailed> for ReplayFault {
    ghost use Rattle.std.specs.Prelude.{◌≡◌};
    ghost use Rattle.trace_replay.specs.declared.fault.ReplayFault.{ReplayFault};

    ghost from_gives = { λ _ e. e ≡ ReplayFault.WriteFault };

    fn from(_: WriteFailed) -> ReplayFault {
        ReplayFault::WriteFault
    }
}

impl From<FillFailed> for ReplayFault {
    ghost use Rattle.std.specs.Prelude.{◌≡◌};
    ghost use Rattle.trace_replay.specs.declared.fault.ReplayFault.{ReplayFault};
    ghost use Rattle.trace_replay.specs.Faults.{fault_of};

    ghost from_gives = { λ f e. e ≡ fault_of f };

    fn from(failed: FillFailed) -> ReplayFault {
        match failed {
            FillFailed::Read => ReplayFault::ReadFault,
            FillFailed::OutOfMemory => ReplayFault::OutOfMemory,
        }
    }
}
