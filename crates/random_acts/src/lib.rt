// Random acts of all kinds, and what it is that two answers are the same. Tests and programs for measuring stand on it.
#![tactic(auto)]

mod acts;
mod answers;
mod numbers;

pub use acts::{Style, random_act};
pub use answers::is_same;
pub use numbers::Numbers;
