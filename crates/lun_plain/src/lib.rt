// The blocks of a unit, kept in a plain map.
#![tactic(auto)]

mod map;
mod unit;

pub use unit::PlainUnit;
