use cm_base::Config;
use cm_history::Entry;
use std::collections::LinkedList;

/// What contracts see of a recorder. No value of it is made.
pub struct RecorderFacts {
    /// What it has recorded, where that is told.
    pub recorded: Option<LinkedList<Entry>>,
    /// How many of its records failed, up to 2^64 - 1.
    pub faults: u64,
    /// There is none.
    pub absent: bool,
    /// What stands before the entries where they go, where that is told.
    pub front: Option<LinkedList<u8>>,
}

/// What no turn changes of a unit with its recorder. No value of it is made.
pub struct UnitKin {
    pub config: Config,
    pub unit: u16,
    /// The recorder as it was given to the unit, without the entries of the unit that it had recorded by then.
    pub opening: RecorderFacts,
    /// How many these are.
    pub folded: u64,
}
