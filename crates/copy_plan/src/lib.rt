// The job of a host copier, and the plan of its copy: the parts that one POPULATE TOKEN each can read,
// and the ranges of blocks that one command can name.
#![tactic(auto)]

mod cursor;
mod extents;
mod fault;
mod job;
mod laws;
mod planning;
mod reading;
mod writing;

pub use cursor::ExtentCursor;
pub use fault::JobFault;
pub use job::{ExtentList, Job};
pub use laws::{one_spelling_law, read_back_law, stays_judged_law};
pub use planning::{CutList, plan};
pub use reading::read_job;
pub use writing::write_job;
