ghost use Rattle.std.specs.Prelude.{◌≡◌, Some};
ghost use Rattle.unit_core.specs.inner.Planning.{quiet, of_blocks};

use crate::block_change::BlockChange;
use crate::block_plans::BlockPlan;
use crate::job_change::JobChange;
use cm_history::Answer;
use pr_keys::PrState;
use rod_store::TokenChange;

/// What an act is answered, and what it is to change.
#[derive(Drop)]
pub(crate) struct Plan<'a> {
    pub answer: Answer,
    pub blocks: BlockChange<'a>,
    pub jobs: JobChange,
    pub tokens: TokenChange,
    /// What the reservations are to be, if they change.
    pub reservations: Option<PrState>,
}

impl<'a> Plan<'a> {
    /// An act that changes nothing.
    pub(crate) fn answered(answer: Answer) -> Plan<'a>
        ensures { result ≡ quiet answer }
    {
        Plan {
            answer,
            blocks: BlockChange::Nothing,
            jobs: JobChange::Nothing,
            tokens: TokenChange::Nothing,
            reservations: None,
        }
    }

    /// An act that changes an operation alone.
    pub(crate) fn of_jobs(answer: Answer, jobs: JobChange) -> Plan<'a>
        ensures { result ≡ record (quiet answer) { jobs = jobs } }
    {
        Plan {
            answer,
            blocks: BlockChange::Nothing,
            jobs,
            tokens: TokenChange::Nothing,
            reservations: None,
        }
    }

    /// An act that changes a token alone.
    pub(crate) fn of_tokens(answer: Answer, tokens: TokenChange) -> Plan<'a>
        ensures { result ≡ record (quiet answer) { tokens = tokens } }
    {
        Plan {
            answer,
            blocks: BlockChange::Nothing,
            jobs: JobChange::Nothing,
            tokens,
            reservations: None,
        }
    }

    /// An act on reservations alone.
    pub(crate) fn of_reservations(answer: Answer, reservations: PrState) -> Plan<'a>
        ensures { result ≡ record (quiet answer) { reservations = Some reservations } }
    {
        Plan {
            answer,
            blocks: BlockChange::Nothing,
            jobs: JobChange::Nothing,
            tokens: TokenChange::Nothing,
            reservations: Some(reservations),
        }
    }

    /// An act that changes blocks alone.
    pub(crate) fn of_blocks(plan: BlockPlan<'a>) -> Plan<'a>
        ensures { result ≡ of_blocks plan.entry }
    {
        Plan {
            answer: plan.answer,
            blocks: plan.change,
            jobs: JobChange::Nothing,
            tokens: TokenChange::Nothing,
            reservations: None,
        }
    }
}
