use cm_history::{Act, ActRefused};

/// Why an act was not done at once.
#[derive(Drop)]
pub enum TryRefused {
    /// The unit's turn was taken; the act is handed back.
    Held(Act),
    Act(ActRefused),
}
