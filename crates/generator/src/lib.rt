// A trace that is made by rule: as many rounds as are asked for, each of which copies by a token.
#![tactic(auto)]

mod laws;
mod lists;
mod machine;
mod round;
#[cfg(test)]
mod tests;
mod trace;

pub use laws::well_formed_law;
pub use trace::generate;
