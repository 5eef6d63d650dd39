ghost use Rattle.std.specs.Prelude.{◌≡◌, ◌<◌, ◌^◌, length, IfOk, IfSome};
ghost use Rattle.std.specs.Option.{option_map};
ghost use Rattle.cm_base.specs.Configuration.{Configuration};
ghost use Rattle.rod_token.specs.TokenText.{token_text};
ghost use Rattle.cm_history.specs.declared.act.Act.{Act};
ghost use Rattle.cm_history.specs.declared.answer.Answer.{Answer};
ghost use Rattle.cm_history.specs.Forms.{HasForm, IsReport};
ghost use Rattle.cmd_program.specs.Meaning.{IsWritable};
ghost use Rattle.cmd_program.specs.Program.{next, ask_then};
ghost use Rattle.cmd_program.specs.SingleActs.{told_token};
ghost use Rattle.cmd_machine.specs.Rest.{rest_of, IsSoundAt};
ghost use Rattle.token_cmds.specs.Meaning.{by_phase, IsSoundPhase};

use crate::phase::{TokenCommand, TokenPhase};
use crate::report::{FoundReport, ReportQuery, allocated, fields};
use cm_base::{Config, OutOfMemory};
use cm_frame::Reply;
use cm_history::{Answer, OpReport};
use cmd_machine::{CommandOf, Ended};
use cmd_program::Step;
use copy_status::token_information;
use std::alloc::Global;

/// A RECEIVE ROD TOKEN INFORMATION. It takes no memory.
pub(crate) fn begin(unit: u16, id: u32, allocation: u32) -> TokenPhase
    ensures program { (config : Configuration) → by_phase config result
        ≡ ask_then unit (Act.Report id) (told_token config unit allocation) }
    ensures sound { (config : Configuration) → unit < length config.units → IsSoundPhase config result }
{
    TokenPhase::InformationAsked(ReportQuery {
        unit,
        id,
        allocation,
    })
}

/// A RECEIVE ROD TOKEN INFORMATION whose act was answered.
pub(crate) fn after(asked: ReportQuery, answer: &Answer) -> TokenCommand
    requires { (config : Configuration) × HasForm config asked.unit (Act.Report asked.id) answer.now }
    ensures program { (config : Configuration) → rest_of by_phase config result
        ≡ told_token config asked.unit asked.allocation answer.now }
    ensures sound { (config : Configuration) → asked.unit < length config.units → IsSoundAt IsSoundPhase config result }
{
    match answer {
        Answer::Report(report) => CommandOf::At(TokenPhase::InformationFound(FoundReport {
            unit: asked.unit,
            allocation: asked.allocation,
            report: *report,
        })),
        Answer::Refused(sense) => CommandOf::Ended(Ended::Refused(*sense)),
        _ => unreachable!(),
    }
}

/// The token that a reported operation made.
fn token(config: &Config, unit: u16, report: &OpReport) -> Option<[u8; 512]>
    requires configured { unit < length config.now.units }
    requires serial { IfSome report.now.serial (λ serial. serial < 2 ^ 48) }
    ensures { result ≡ option_map (λ serial. token_text config.now unit serial report.now.count) report.now.serial }
{
    match report.serial {
        Some(serial) => Some(rod_token::text(config, unit, serial, report.count)),
        None => None,
    }
}

/// Tells the report, with the token that the operation made.
pub(crate) fn tell(alloc: Global, config: &Config, told: &FoundReport) -> Result<Step, OutOfMemory>
    requires configured { told.now.unit < length config.now.units }
    requires report { IsReport told.now.report }
    ensures next { IfOk result (λ s. s
        ≡ next (told_token config.now told.now.unit told.now.allocation (Answer.Report told.now.report))) }
    ensures fits { IfOk result IsWritable }
{
    let token = token(config, told.unit, &told.report);
    let bytes = token_information(alloc, &fields(&told.report), token.as_ref())?;
    Ok(Step::Done(Reply::Good(allocated(bytes, told.allocation)?)))
}
