ghost use Rattle.std.specs.Prelude.{◌≡◌, IfOk};
ghost use Rattle.scsi_sense.specs.declared.fault.ParamFault.{ParamFault};
ghost use Rattle.cmd_program.specs.Program.{next, unless_refused, done};
ghost use Rattle.cmd_machine.specs.Ends.{by_ended};

use cm_base::{OutOfMemory, Payload};
use cm_frame::Reply;
use cm_history::Answer;
use cmd_program::Step;
use scsi_sense::{ParamFault, Sense};

/// How a command ended that did not give up.
#[derive(Drop, Clone, Copy)]
pub enum Ended {
    /// GOOD without data.
    Good,
    /// RESERVATION CONFLICT.
    Conflict,
    Refused(Sense),
}

/// The sense by which a list is refused.
pub fn refusal(fault: ParamFault) -> Result<Sense, OutOfMemory>
    ensures { IfOk result (λ sense. fault ≡ ParamFault.Refused sense) }
{
    match fault {
        ParamFault::Refused(sense) => Ok(sense),
        ParamFault::OutOfMemory => Err(OutOfMemory),
    }
}

impl Ended {
    /// The end of a command whose last act was answered: GOOD, unless it was refused.
    pub fn unless_refused(answer: Answer) -> Ended
        ensures { by_ended result ≡ unless_refused done answer }
    {
        match answer {
            Answer::Refused(sense) => Ended::Refused(sense),
            Answer::Conflict => Ended::Conflict,
            _ => Ended::Good,
        }
    }

    /// It takes no memory.
    pub(crate) fn step(self) -> Step
        ensures { result ≡ next (by_ended self) }
    {
        Step::Done(match self {
            Ended::Good => Reply::Good(Payload::new()),
            Ended::Conflict => Reply::Conflict,
            Ended::Refused(sense) => Reply::Check(sense),
        })
    }
}
