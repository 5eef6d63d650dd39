use crate::fault::TextFault;
use cm_base::OutOfMemory;

/// Why a table tells no machine of units.
#[derive(Clone, Copy)]
pub(crate) enum Refused {
    OutOfMemory,
    Fault(TextFault),
}

impl From<OutOfMemory> for Refused {
    ghost use Rattle.std.specs.Prelude.{◌≡◌};
    ghost use Rattle.config_text.specs.declared.refused.Refused.{Refused};

    ghost from_gives = { λ _ e. e ≡ Refused.OutOfMemory };

    fn from(_: OutOfMemory) -> Refused {
        Refused::OutOfMemory
    }
}
