ghost use Rattle.std.specs.Prelude.{◌≡◌, Some};
ghost use Rattle.cm_base.specs.ReservationActions.{action_of, action_code};

use crate::sequence::Sequence;

/// Reservation keys.
pub type KeyList = Sequence<u64>;

/// A persistent reservation, as READ RESERVATION tells it (SPC-4).
#[derive(Debug, Drop, Clone, Copy, PartialEq, Eq)]
pub struct Holder {
    /// The key under which the reservation holder is registered.
    pub key: u64,
    /// The code of the reservation's type.
    pub kind: u8,
}

/// What a PERSISTENT RESERVE OUT asks for, its service action (SPC-4).
#[derive(Debug, Drop, Clone, Copy)]
pub enum ReservationAction {
    Register,
    Reserve,
    Release,
    Clear,
    Preempt,
    RegisterAndIgnoreExistingKey,
}

impl ReservationAction {
    /// The action of this code, if there is one.
    pub fn from_code(code: u8) -> Option<ReservationAction>
        ensures { result ≡ action_of code }
    {
        match code {
            0x00 => Some(ReservationAction::Register),
            0x01 => Some(ReservationAction::Reserve),
            0x02 => Some(ReservationAction::Release),
            0x03 => Some(ReservationAction::Clear),
            0x04 => Some(ReservationAction::Preempt),
            0x06 => Some(ReservationAction::RegisterAndIgnoreExistingKey),
            _ => None,
        }
    }

    /// The code of the action.
    pub fn code(self) -> u8
        ensures code { result ≡ action_code self }
        ensures back { action_of result ≡ Some self }
    {
        match self {
            ReservationAction::Register => 0x00,
            ReservationAction::Reserve => 0x01,
            ReservationAction::Release => 0x02,
            ReservationAction::Clear => 0x03,
            ReservationAction::Preempt => 0x04,
            ReservationAction::RegisterAndIgnoreExistingKey => 0x06,
        }
    }
}
