// A nexus that is refused memory at calls that are told beforehand. Tests alone stand on it.
#![tactic(auto)]

mod refusing;
#[cfg(test)]
mod tests;

pub use refusing::Refusing;
