// A command of any kind.
#![tactic(auto)]

mod any;
mod phase;

pub use any::begin_any;
pub use phase::{AnyCommand, AnyPhase};

#[cfg(test)]
mod tests;
