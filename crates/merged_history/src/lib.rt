// The histories of several units as one (own profile: no standard speaks of it).
//
// Each unit has its history, and each actor makes its entries through passes, which are joined one after the other. What
// stays true of passes and of their root from call to call makes the merged history legal at the end, with each actor's
// entries exactly those of its joined passes.
#![tactic(auto)]

mod known;
mod merging;
mod register;

pub use known::{JoinedPass, Known, Ticket};
pub use merging::{Kept, merge};
pub use register::{PassSeat, Register, RootSeat};

#[cfg(test)]
mod tests;
