ghost use Rattle.std.specs.Prelude.{◌≡◌, Some};
ghost use Rattle.pr_keys.specs.Types.{type_of, type_code};
ghost use Rattle.pr_keys.specs.Reservations.{bars};

/// The type of a persistent reservation (SPC-4): which commands of others it bars.
#[derive(Debug, Drop, Clone, Copy)]
pub enum ReservationType {
    /// Writing is for the holder alone.
    WriteExclusive,
    /// Reading and writing are for the holder alone.
    ExclusiveAccess,
    /// Writing is for registered nexuses alone.
    WriteExclusiveRegistrantsOnly,
    /// Reading and writing are for registered nexuses alone.
    ExclusiveAccessRegistrantsOnly,
}

impl ReservationType {
    /// The type of this code, if there is one.
    pub fn from_code(code: u8) -> Option<ReservationType>
        ensures { result ≡ type_of code }
    {
        match code {
            0x1 => Some(ReservationType::WriteExclusive),
            0x3 => Some(ReservationType::ExclusiveAccess),
            0x5 => Some(ReservationType::WriteExclusiveRegistrantsOnly),
            0x6 => Some(ReservationType::ExclusiveAccessRegistrantsOnly),
            _ => None,
        }
    }

    /// The code of the type.
    pub fn code(self) -> u8
        ensures code { result ≡ type_code self }
        ensures back { type_of result ≡ Some self }
    {
        match self {
            ReservationType::WriteExclusive => 0x1,
            ReservationType::ExclusiveAccess => 0x3,
            ReservationType::WriteExclusiveRegistrantsOnly => 0x5,
            ReservationType::ExclusiveAccessRegistrantsOnly => 0x6,
        }
    }

    /// It bars a nexus that is not its holder from reading, or from writing.
    pub(crate) fn bars(self, writes: bool, is_registered: bool) -> bool
        ensures { result ≡ bars self writes is_registered }
    {
        match self {
            ReservationType::WriteExclusive => writes,
            ReservationType::ExclusiveAccess => true,
            ReservationType::WriteExclusiveRegistrantsOnly => writes && !is_registered,
            ReservationType::ExclusiveAccessRegistrantsOnly => !is_registered,
        }
    }
}
