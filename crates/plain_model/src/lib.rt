// The slow plain model of units: their answers, by going through the whole history.
#![tactic(auto)]

mod acts;
mod answering;
mod blocks;
mod deeds;
mod operation_answers;
mod operations;
mod outcome;
mod refusals;
mod reservations;
mod tables;
mod tokens;
mod unit;
mod units;
mod writings;

pub use answering::plain_answer;
pub use units::PlainUnits;
