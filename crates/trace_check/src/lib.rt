// Whether recorded replies are those of a recorded trace.
#![tactic(auto)]

mod checker;
mod comparing;
mod input;
mod laws;
mod machine;
mod playing;

pub use checker::{CheckEnd, check};
pub use laws::difference_law;
