ghost use Rattle.std.specs.Prelude.{◌≡◌, ◌<◌, length, IfOk};
ghost use Rattle.cm_base.specs.Configuration.{Configuration};
ghost use Rattle.cm_history.specs.declared.act.Act.{Act};
ghost use Rattle.cm_history.specs.declared.answer.Answer.{Answer};
ghost use Rattle.cm_history.specs.Forms.{HasForm, IsReport};
ghost use Rattle.cmd_program.specs.Meaning.{IsWritable};
ghost use Rattle.cmd_program.specs.Program.{next, ask_then};
ghost use Rattle.cmd_program.specs.SingleActs.{told_report};
ghost use Rattle.cmd_machine.specs.Rest.{rest_of, IsSoundAt};
ghost use Rattle.token_cmds.specs.Meaning.{by_phase, IsSoundPhase};

use crate::phase::{TokenCommand, TokenPhase};
use crate::report::{FoundReport, ReportQuery, allocated, fields};
use cm_base::OutOfMemory;
use cm_frame::Reply;
use cm_history::Answer;
use cmd_machine::{CommandOf, Ended};
use cmd_program::Step;
use copy_status::status4;
use std::alloc::Global;

/// A RECEIVE COPY STATUS(LID4). It takes no memory.
pub(crate) fn begin(unit: u16, id: u32, allocation: u32) -> TokenPhase
    ensures program { (config : Configuration) → by_phase config result ≡ ask_then unit (Act.Report id) (told_report allocation) }
    ensures sound { (config : Configuration) → unit < length config.units → IsSoundPhase config result }
{
    TokenPhase::StatusAsked(ReportQuery {
        unit,
        id,
        allocation,
    })
}

/// A RECEIVE COPY STATUS(LID4) whose act was answered.
pub(crate) fn after(asked: ReportQuery, answer: &Answer) -> TokenCommand
    requires { (config : Configuration) × HasForm config asked.unit (Act.Report asked.id) answer.now }
    ensures program { (config : Configuration) → rest_of by_phase config result ≡ told_report asked.allocation answer.now }
    ensures sound { (config : Configuration) → IsSoundAt IsSoundPhase config result }
{
    match answer {
        Answer::Report(report) => CommandOf::At(TokenPhase::StatusFound(FoundReport {
            unit: asked.unit,
            allocation: asked.allocation,
            report: *report,
        })),
        Answer::Refused(sense) => CommandOf::Ended(Ended::Refused(*sense)),
        _ => unreachable!(),
    }
}

/// Tells the status of the report.
pub(crate) fn tell(alloc: Global, told: &FoundReport) -> Result<Step, OutOfMemory>
    requires { IsReport told.now.report }
    ensures next { IfOk result (λ s. s ≡ next (told_report told.now.allocation (Answer.Report told.now.report))) }
    ensures fits { IfOk result IsWritable }
{
    let bytes = status4(alloc, &fields(&told.report))?;
    Ok(Step::Done(Reply::Good(allocated(bytes, told.allocation)?)))
}
