// The blocks of a unit, kept in extents: runs of blocks whose bytes lie in shared payloads.
#![tactic(auto)]

mod map;
mod runs;
mod unit;
mod walk;

pub use unit::ExtentUnit;
