use crate::key::Key;
use lba_ranges::{BlockList, RangeList};

/// What an operation writes next: to each block that the ranges denote, in order, the item at its place of
/// the list. It shares the payload of the operation.
#[derive(Drop)]
pub struct NextPiece {
    pub key: Key,
    /// How many blocks were written before.
    pub written: u32,
    /// With this piece all is written.
    pub is_last: bool,
    pub ranges: RangeList,
    pub list: BlockList,
}
