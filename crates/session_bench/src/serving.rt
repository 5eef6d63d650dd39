ghost use Rattle.std.specs.Prelude.{◌≡◌};

use crate::standard_link::StandardLink;
use crate::words::Failed;
use cm_base::{Clock, Config};
use session::{SessionEnd, SessionFault, UnitRuns, session};
use std::alloc::Global;
use std::cell::Cell;
use std::io::{self, Input, Print};

/// A clock that rises by as many seconds each time that it is read.
#[derive(Drop)]
struct RisingClock {
    next: Cell<u64>,
    seconds: u64,
}

impl Clock for RisingClock {
    ghost shows = { λ _ _. Unit {0} };

    fn now(&self) -> u64 {
        let moment = self.next.get();
        self.next.set(moment.saturating_add(self.seconds));
        moment
    }
}

/// Serves one connection over the standard streams.
pub fn serve<R: Input + Print>(
    rt: &R,
    alloc: Global,
    config: &Config,
    nexus: u32,
    moment: u64,
    seconds: u64,
) -> Result<SessionEnd, Failed> {
    let mut units = UnitRuns::new(alloc, config.copy(alloc)?, nexus)?;
    let mut link = StandardLink::new(rt.reader(), io::writer(rt));
    let clock = RisingClock {
        next: Cell::new(moment),
        seconds,
    };
    Ok(session(alloc, config, &mut link, &mut units, &clock))
}

/// The exit status by how a session ended.
pub fn code_of(fault: Option<SessionFault>) -> u8 {
    match fault {
        None => 0,
        Some(SessionFault::ReadFault) => 1,
        Some(SessionFault::WriteFault) => 2,
        Some(SessionFault::OutOfMemory) => 3,
        Some(SessionFault::Torn) => 4,
        Some(SessionFault::BadFrame) => 7,
        Some(SessionFault::Frames) => 8,
        Some(SessionFault::Unsettled) => 9,
    }
}
