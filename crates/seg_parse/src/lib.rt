// The parameter list of EXTENDED COPY (LID1).
#![tactic(auto)]

mod descriptors;
mod list;
mod reading;
mod writing;

pub use list::{CopyList, Cscd, CscdList, Segment, SegmentList};
pub use reading::read_lid1;
pub use scsi_sense::ParamFault;
pub use writing::write_lid1;
