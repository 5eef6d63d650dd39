// Programs of acts: what a command asks of the units, and what it replies.
#![tactic(auto)]

mod laws;
mod runs;
mod step;

pub use laws::{
    asks_law, busy_at_once_law, conversation_law, give_up_law, honest_law, short_law, started_law,
    write_ends_well_law, write_is_not_stopped_law,
};
pub use runs::{Runs, Unsettled};
pub use step::{Outcome, Step};
