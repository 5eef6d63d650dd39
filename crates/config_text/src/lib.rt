// A machine of units as a text for people, in TOML, and the file that has it: a text, or a header.
#![tactic(auto)]

mod fault;
mod file;
mod key;
mod line;
mod refused;
mod secret;
mod table;
#[cfg(test)]
mod tests;
mod text;
mod told;
mod unit;
mod units;

pub use fault::{ConfigFault, TextFault, UnitFault};
pub use file::read_file;
pub use key::UnitKey;
pub use text::read_text;
pub use told::Told;
