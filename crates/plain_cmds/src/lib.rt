// Commands that ask for one act at most.
#![tactic(auto)]

mod blocks;
mod fixed;
mod map_status;
mod phase;
mod reserving;
mod unmap;

pub use phase::{Command, PlainPhase};
pub use reserving::ReservePhase;
