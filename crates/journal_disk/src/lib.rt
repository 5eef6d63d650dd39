// A journal of the entries of a unit in one file, whole after a crash at any moment.
#![tactic(auto)]

mod disk;
mod journal;
mod judging;
mod log;
mod making;
mod memory;
mod opening;
mod reading;
mod scanning;
mod writing;

pub use disk::{Disk, DiskFailed};
pub use journal::Journal;
pub use log::{Log, Opening};
pub use memory::{Call, MemoryDisk};
pub use opening::OpenFault;
pub use writing::{write_all_at, write_synced};
