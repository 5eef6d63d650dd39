use cm_frame::Reply;
use cm_history::{Act, Answer};

/// What came of an act that a command asked for.
#[derive(Drop)]
pub enum Outcome {
    /// The act was done, with this answer.
    Answered(Answer),
    /// The unit's record had no room.
    Full,
    /// Memory was wanted.
    NoMemory,
}

/// What a command does next.
#[derive(Drop)]
pub enum Step {
    /// It asks a unit for an act.
    Do { unit: u16, act: Act },
    /// It is done, with this reply.
    Done(Reply),
}
