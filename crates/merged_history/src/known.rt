use cm_history::{Actor, Entry};
use std::collections::LinkedList;

/// A pass as it is made: its actor, and what the joined passes of that actor had made by then. No value of it is made.
pub struct Ticket {
    pub actor: Actor,
    pub before: LinkedList<Entry>,
}

/// A pass that was joined: its number among all passes, its ticket, and what it has made. No value of it is made.
pub struct JoinedPass {
    pub number: u64,
    pub ticket: Ticket,
    pub own: LinkedList<Entry>,
}

/// What a seat at the register knows: the root's all passes that were made, in order, and those that were joined, the
/// latest first; a pass's its number and its ticket. No value of it is made.
pub enum Known {
    Root {
        made: LinkedList<Ticket>,
        joined: LinkedList<JoinedPass>,
    },
    Pass {
        number: u64,
        ticket: Ticket,
    },
    Spent,
}
