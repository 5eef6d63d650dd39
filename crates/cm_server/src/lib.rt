// Serves many connections side by side: each has a pass and a thread of its own, and beside them a pump works on each
// unit (own profile: no standard speaks of it).
#![tactic(auto)]

mod asking;
mod by_pass;
mod forgetting;
mod laws;
mod parting;
mod pumps;
mod report;
mod served;
mod serving;
mod sessions;
mod shared;
mod status;
mod stored;
mod storing;
mod term;

pub use forgetting::{Requests, manage};
pub use laws::{served_laws, served_writes_law};
pub use report::text::{push_line, push_unit};
pub use served::{RecorderList, Served, serve, serve_at, serve_with};
pub use sessions::meet::{Meet, NoMeet};
pub use status::Status;
pub use stored::{DiskList, Stored, serve_stored, serve_stored_at};
pub use term::Term;
