ghost use Rattle.std.specs.Prelude.{◌≡◌};
ghost use Rattle.scsi_sense.specs.declared.fault.ParamFault.{ParamFault};

use crate::sense::Sense;
use cm_base::OutOfMemory;
use std::error::Error;
use std::fmt;

/// Why a parameter list is not read.
#[derive(Debug, Drop, Clone, Copy)]
pub enum ParamFault {
    /// The list is refused by this sense.
    Refused(Sense),
    OutOfMemory,
}

impl fmt::Display for ParamFault {
    fn fmt<W: fmt::Write>(&self, f: &mut fmt::Formatter<W>) -> fmt::Result {
        match self {
            ParamFault::Refused(sense) => write!(
                f,
                "refused by {:02x}/{:02x}/{:02x}",
                sense.key(),
                sense.asc(),
                sense.ascq()
            ),
            ParamFault::OutOfMemory => write!(f, "out of memory"),
        }
    }
}

impl Error for ParamFault {}

impl From<Sense> for ParamFault {
    ghost from_gives = { λ sense fault. fault ≡ ParamFault.Refused sense };

    fn from(sense: Sense) -> ParamFault {
        ParamFault::Refused(sense)
    }
}

impl From<OutOfMemory> for ParamFault {
    ghost from_gives = { λ _ fault. fault ≡ ParamFault.OutOfMemory };

    fn from(_: OutOfMemory) -> ParamFault {
        ParamFault::OutOfMemory
    }
}
