ghost use Rattle.std.specs.Prelude.{◌≡◌, ◌<◌, length, IfOk};
ghost use Rattle.cm_base.specs.Configuration.{Configuration};
ghost use Rattle.cm_history.specs.declared.act.Act.{Act};
ghost use Rattle.cm_history.specs.declared.answer.Answer.{Answer};
ghost use Rattle.cm_history.specs.Forms.{HasKind};
ghost use Rattle.cmd_program.specs.declared.step.Step.{Step};
ghost use Rattle.cmd_program.specs.Meaning.{IsWritable};
ghost use Rattle.cmd_program.specs.Program.{next, ask_then};
ghost use Rattle.cmd_program.specs.SingleActs.{told_copy};
ghost use Rattle.cmd_program.specs.AnswerBytes.{copy_code};
ghost use Rattle.cmd_machine.specs.Rest.{rest_of, IsSoundAt};
ghost use Rattle.xcopy_exec.specs.Meaning.{by_phase, IsSoundPhase};

use crate::phase::{CopyCommand, CopyPhase};
use cm_base::{OutOfMemory, Payload};
use cm_frame::Reply;
use cm_history::{Act, Answer, CopyEnd, CopyState};
use cmd_machine::{CommandOf, Ended};
use cmd_program::Step;
use copy_status::status1;
use std::alloc::Global;

/// How a copy ended is asked for, of which `allocation` bytes may be told.
#[derive(Drop)]
pub struct RecallQuery {
    unit: u16,
    id: u8,
    allocation: u32,
}

/// How a copy ended, of which `allocation` bytes may be told.
#[derive(Drop)]
pub struct Told {
    allocation: u32,
    end: CopyEnd,
}

/// A RECEIVE COPY STATUS(LID1). It takes no memory.
pub(crate) fn begin(unit: u16, id: u8, allocation: u32) -> CopyPhase
    ensures program { (config : Configuration) → by_phase config result ≡ ask_then unit (Act.Recall id) (told_copy allocation) }
    ensures sound { (config : Configuration) → unit < length config.units → IsSoundPhase config result }
{
    CopyPhase::Recalling(RecallQuery {
        unit,
        id,
        allocation,
    })
}

impl RecallQuery {
    /// Asks the unit how the copy ended. It takes no memory.
    pub(crate) fn step(&self) -> Step
        ensures { result ≡ Step.Do self.now.unit (Act.Recall self.now.id) }
    {
        Step::Do {
            unit: self.unit,
            act: Act::Recall { id: self.id },
        }
    }

    /// The phase after the act was answered.
    pub(crate) fn after(self, answer: &Answer) -> CopyCommand
        requires { HasKind (Act.Recall self.id) answer.now }
        ensures program { (config : Configuration) → rest_of by_phase config result ≡ told_copy self.allocation answer.now }
        ensures sound { (config : Configuration) → IsSoundAt IsSoundPhase config result }
    {
        match answer {
            Answer::Copy(end) => CommandOf::At(CopyPhase::Recalled(Told {
                allocation: self.allocation,
                end: *end,
            })),
            Answer::Refused(sense) => CommandOf::Ended(Ended::Refused(*sense)),
            _ => unreachable!(),
        }
    }
}

/// COPY MANAGER STATUS (SPC-4, RECEIVE COPY STATUS (LID1)).
fn code(state: CopyState) -> u8
    ensures { result ≡ copy_code state }
{
    match state {
        CopyState::Running => 0x00,
        CopyState::Done => 0x01,
        CopyState::Failed | CopyState::Terminated => 0x02,
    }
}

impl Told {
    /// Tells how the copy ended.
    pub(crate) fn step(&self, alloc: Global) -> Result<Step, OutOfMemory>
        ensures next { IfOk result (λ s. s ≡ next (told_copy self.now.allocation (Answer.Copy self.now.end))) }
        ensures fits { IfOk result IsWritable }
    {
        let bytes = status1(code(self.end.state), self.end.segments, self.end.bytes);
        let mut data = Payload::copy_from_slice(alloc, &bytes)?;
        data.truncate(self.allocation as usize);
        Ok(Step::Done(Reply::Good(data)))
    }
}
