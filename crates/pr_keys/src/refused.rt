ghost use Rattle.std.specs.Prelude.{◌≡◌};
ghost use Rattle.pr_keys.specs.declared.refused.PrRefused.{PrRefused};

use cm_base::OutOfMemory;
use scsi_sense::Sense;
use std::error::Error;
use std::fmt;

/// How something is refused.
#[derive(Debug, Drop, Clone, Copy, PartialEq, Eq)]
pub enum Refusal {
    /// RESERVATION CONFLICT: a registration or the reservation stands against it.
    Conflict,
    /// CHECK CONDITION, with this sense.
    Refused(Sense),
}

/// Why an action was not done.
#[derive(Debug, Drop, Clone, Copy)]
pub enum PrRefused {
    /// A registration or the reservation stands against it: RESERVATION CONFLICT.
    Conflict,
    /// The action is refused by this sense.
    Refused(Sense),
    OutOfMemory,
}

impl fmt::Display for PrRefused {
    fn fmt<W: fmt::Write>(&self, f: &mut fmt::Formatter<W>) -> fmt::Result {
        match self {
            PrRefused::Conflict => write!(f, "reservation conflict"),
            PrRefused::Refused(sense) => write!(
                f,
                "refused by {:02x}/{:02x}/{:02x}",
                sense.key(),
                sense.asc(),
                sense.ascq()
            ),
            PrRefused::OutOfMemory => write!(f, "out of memory"),
        }
    }
}

impl Error for PrRefused {}

impl From<Sense> for PrRefused {
    ghost from_gives = { λ sense refused. refused ≡ PrRefused.Refused sense };

    fn from(sense: Sense) -> PrRefused {
        PrRefused::Refused(sense)
    }
}

impl From<OutOfMemory> for PrRefused {
    ghost from_gives = { λ _ refused. refused ≡ PrRefused.OutOfMemory };

    fn from(_: OutOfMemory) -> PrRefused {
        PrRefused::OutOfMemory
    }
}
