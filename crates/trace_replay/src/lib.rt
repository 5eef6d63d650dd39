// A trace, played item after item.
#![tactic(auto)]

mod fault;
mod laws;
mod machine;
mod nexus;
mod player;
mod reply;
mod summary;
#[cfg(test)]
mod tests;
mod trace;
mod units;

pub use fault::ReplayFault;
pub use laws::{played_is_legal_law, played_writes_law, quiet_law, shown_law};
pub use summary::Summary;
pub use trace::{replay, replay_with};
