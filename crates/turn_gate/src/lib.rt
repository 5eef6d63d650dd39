// A value that threads change in turns, with a history that turns add to (own profile: no standard speaks of it).
//
// A gate has the value, and each thread a seat at it. Who takes the turn has the value, changes it, counts the entry
// that the change made, and leaves. Seats are split off the first one, and joined into it again; then the gate can be
// closed, and each entry of the history stands in exactly one seat's list of own entries.
#![tactic(auto)]

mod gate;
mod gated;
mod plays;
mod sleepers;
mod turn;
mod view;

pub use gate::{Gate, GateSeat, VacantGate};
pub use gated::Gated;
pub use turn::Turn;
pub use view::{Joined, Own, View};

#[cfg(test)]
mod tests;
