// What the acts on an operation are answered: a refusal where there is no such operation.
ghost use Rattle.std.specs.Prelude.{◌≡◌};
ghost use Rattle.std.specs.Option.{option_copied};
ghost use Rattle.cm_history.specs.Answers.{answer_end, done_if, answer_report, answer_recall};

use crate::operations::PlainOperation;
use crate::refusals;
use cm_history::{Answer, OpState};

/// An End: the operation is terminated, with the blocks that it has written.
pub(crate) fn answer_end(served: Option<&PlainOperation>) -> Answer
    ensures { result ≡ answer_end (option_copied served.entry) }
{
    match served {
        Some(operation) => Answer::Progress {
            state: OpState::Terminated,
            count: operation.count(),
        },
        None => refusals::no_such_operation(),
    }
}

/// An Abort and a Close.
pub(crate) fn done_if(served: Option<&PlainOperation>) -> Answer
    ensures { result ≡ done_if (option_copied served.entry) }
{
    match served {
        Some(_) => Answer::Done,
        None => refusals::no_such_operation(),
    }
}

/// A Report.
pub(crate) fn answer_report(found: Option<&PlainOperation>) -> Answer
    ensures { result ≡ answer_report (option_copied found.entry) }
{
    match found {
        Some(operation) => Answer::Report(operation.report()),
        None => refusals::no_such_operation(),
    }
}

/// A Recall.
pub(crate) fn answer_recall(found: Option<&PlainOperation>) -> Answer
    ensures { result ≡ answer_recall (option_copied found.entry) }
{
    match found {
        Some(operation) => Answer::Copy(operation.result()),
        None => refusals::no_such_operation(),
    }
}
