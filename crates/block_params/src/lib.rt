// The parameter lists of UNMAP, POPULATE TOKEN and WRITE USING TOKEN.
#![tactic(auto)]

mod lists;
mod ranges;
mod reading;
mod writing;

pub use lists::{PopulateList, WriteList};
pub use reading::{read_populate, read_unmap, read_write_token};
pub use scsi_sense::ParamFault;
pub use writing::{write_populate, write_unmap, write_write_token};
