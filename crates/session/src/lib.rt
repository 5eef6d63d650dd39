// One connection over anything that can run an act: requests in, replies out.
#![tactic(auto)]

mod connection;
mod driver;
mod end;
mod runs;
mod talks;

pub use connection::session;
pub use end::{SessionEnd, SessionFault};
pub use runs::UnitRuns;
