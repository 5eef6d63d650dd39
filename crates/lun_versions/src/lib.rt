// The blocks of a unit, with what live pins show of them.
#![tactic(auto)]

mod earlier;
mod pinned;
mod plan;
mod segment;
mod segment_map;
mod unit;

pub use unit::{Pin, VersionUnit};
