use crate::port::PortFault;
use cm_base::OutOfMemory;
use cm_frame::Reply;

/// What a copy asked for.
#[derive(Debug, Clone, Copy, PartialEq, Eq)]
pub struct Copied {
    /// POPULATE TOKENs, as many as the plan of the copy has parts.
    pub populates: u32,
    /// WRITE USING TOKENs.
    pub writes: u32,
}

/// Why a copy ended before its end. `step` is the LIST IDENTIFIER of the POPULATE TOKEN or WRITE USING TOKEN that was
/// under way: they are numbered from 1, in the order in which they were asked.
#[derive(Drop)]
pub enum CopyFault {
    /// Memory was wanted, by the copier or by its port.
    OutOfMemory,
    /// The port has no reply. It is not for want of memory.
    Port(PortFault),
    /// The reply is not GOOD.
    Refused { step: u32, reply: Reply },
    /// The reply tells what no copy manager tells of that operation: its data are no status of a token operation; a
    /// token is missing or told of a write; the status is 11h; that of a POPULATE TOKEN is not 01h; or the count at 01h
    /// is not the number of its blocks.
    BadData { step: u32 },
    /// A write ended with an error or was terminated: COPY OPERATION STATUS is 02h or 60h (SPC-4).
    Failed { step: u32, status: u8 },
    /// As many replies as the job allows told that the write still runs.
    Polls { step: u32 },
}

impl From<OutOfMemory> for CopyFault {
    ghost use Rattle.std.specs.Prelude.{◌≡◌};
    ghost use Rattle.odx_host.specs.declared.fault.CopyFault.{CopyFault};

    ghost from_gives = { λ _ fault. fault ≡ CopyFault.OutOfMemory };

    fn from(_: OutOfMemory) -> CopyFault {
        CopyFault::OutOfMemory
    }
}

impl From<PortFault> for CopyFault {
    ghost use Rattle.std.specs.Prelude.{◌≡◌};
    ghost use Rattle.odx_host.specs.Rule.{port_fault};

    ghost from_gives = { λ found fault. fault ≡ port_fault found };

    fn from(found: PortFault) -> CopyFault {
        match found {
            PortFault::OutOfMemory => CopyFault::OutOfMemory,
            other => CopyFault::Port(other),
        }
    }
}
