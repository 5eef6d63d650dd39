// Why a command was refused: key, additional sense code and its qualifier.
#![tactic(auto)]

mod codes;
mod fault;
mod sense;

pub use fault::ParamFault;
pub use sense::Sense;
