// What a generated trace of so many rounds comes to, in numbers.
#![tactic(auto)]

mod laws;

pub use laws::rounds_law;
