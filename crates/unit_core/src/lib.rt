// One unit: its blocks, its tokens, its operations, its record, and the answer to each act.
#![tactic(auto)]

mod block_change;
mod block_plans;
mod ends;
mod folding;
mod inner;
mod job_change;
mod job_plans;
mod laws;
mod perform;
mod plan;
mod plans;
mod refusals;
mod reservation_plans;
mod room;
mod sharing;
mod tables;
mod token_plans;
mod unit;

pub use folding::FoldEnd;
pub use laws::serving_law;
pub use sharing::SharedVersions;
pub use unit::{Unit, UnitOver};
