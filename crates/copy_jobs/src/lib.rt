// The operations of a unit: which are kept, which run, and what each is to write next.
#![tactic(auto)]

mod change;
mod job;
mod key;
mod piece;
mod records;
mod table;

pub use job::{Job, Work, WriteJob};
pub use key::Key;
pub use piece::NextPiece;
pub use table::JobTable;
