use cm_history::{Act, Actor, Answer};

/// One act, as its actor asks it.
#[derive(Drop)]
pub struct AskedAct {
    pub actor: Actor,
    /// How many acts the actor has done before.
    pub seq: u64,
    /// The stamp of the actor's last entry, and 0 before the first.
    pub stamp: u64,
    /// In seconds.
    pub moment: u64,
    pub act: Act,
}

/// What came of an act that was done.
#[derive(Drop)]
pub struct Acted {
    pub answer: Answer,
    /// The stamp of its entry.
    pub stamp: u64,
}
