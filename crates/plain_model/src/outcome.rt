ghost use Rattle.std.specs.Prelude.{◌≡◌, []};
ghost use Rattle.plain_model.specs.inner.Outcomes.{IsOutcome};

use crate::writings::PlainWritings;
use cm_history::Answer;
use std::alloc::Global;

/// What an act is answered, and what it writes.
#[derive(Drop)]
pub(crate) struct PlainOutcome {
    pub(crate) answer: Answer,
    pub(crate) wrote: PlainWritings,
}

impl PlainOutcome {
    /// The answer to an act that writes nothing.
    pub(crate) fn told(alloc: Global, answer: Answer) -> PlainOutcome
        ensures { IsOutcome result answer [] }
    {
        PlainOutcome {
            answer,
            wrote: PlainWritings::new(alloc),
        }
    }
}
