// One unit under turns (own profile: no standard speaks of it): the unit with its recorder stands in a gate, and a seat
// at that gate has acts done, each in a turn of its own.
#![tactic(auto)]

mod asked;
mod holding;
mod kin;
mod recorded_unit;
mod refused;
mod resuming;
mod seat_acts;

pub use asked::{Acted, AskedAct};
pub use holding::{hold, hold_waiting, release};
pub use kin::{RecorderFacts, UnitKin};
pub use recorded_unit::{ClosedUnit, RecordedUnit, UnitCount};
pub use refused::TryRefused;
pub use resuming::{ResumeRefused, resume};
pub use seat_acts::{act, try_act};
