ghost use Rattle.std.specs.Prelude.{◌≡◌};
ghost use Rattle.cmd_program.specs.Kinds.{is_token_command};

use crate::abort::Abort;
use crate::populate::Populate;
use crate::report::{FoundReport, ReportQuery};
use crate::writing::Writing;
use crate::{abort, information, populate, status, writing};
use cm_base::{Config, OutOfMemory};
use cm_frame::Request;
use cm_history::Answer;
use cmd_machine::{CommandOf, Ended, LastAct, Phase};
use cmd_program::Step;
use scsi_cdb::Cdb;
use std::alloc::Global;

/// How far a POPULATE TOKEN, WRITE USING TOKEN, COPY OPERATION ABORT, RECEIVE ROD TOKEN INFORMATION
/// or RECEIVE COPY STATUS(LID4) has come.
#[derive(Drop)]
pub enum TokenPhase {
    Populating(Populate),
    Aborting(Abort),
    StatusAsked(ReportQuery),
    StatusFound(FoundReport),
    InformationAsked(ReportQuery),
    InformationFound(FoundReport),
    Writing(Writing),
}

impl TokenPhase {
    /// A phase that stands in for one that is moved out. It takes no memory.
    pub fn nothing() -> TokenPhase {
        abort::begin(0, 0)
    }
}

/// A command with tokens.
pub type TokenCommand = CommandOf<TokenPhase>;

/// The command is one of these.
pub fn is_token_command(cdb: &Cdb) -> bool
    ensures { result ≡ is_token_command cdb.now }
{
    matches!(
        cdb,
        Cdb::PopulateToken { .. }
            | Cdb::WriteUsingToken { .. }
            | Cdb::CopyAbort { .. }
            | Cdb::CopyStatus4 { .. }
            | Cdb::TokenInformation { .. }
    )
}

impl Phase for TokenPhase {
    ghost use Rattle.cmd_program.specs.Kinds.{is_token_command};
    ghost use Rattle.token_cmds.specs.Meaning.{by_phase, IsSoundPhase};
    ghost use Rattle.token_cmds.specs.UnderWay.{phase-goes-on};

    ghost kind = { is_token_command };

    ghost meaning = { by_phase };

    ghost sound = { IsSoundPhase };

    fn begin(
        alloc: Global,
        config: &Config,
        request: Request,
        cdb: Cdb,
    ) -> Result<TokenCommand, OutOfMemory> {
        let Request { unit, cdb: _, out } = request;
        match cdb {
            Cdb::PopulateToken { id, length: _ } => populate::begin(alloc, unit, id, &out),
            Cdb::WriteUsingToken { id, length: _ } => {
                writing::begin(alloc, config, unit, id, &out)
            }
            Cdb::CopyAbort { id } => Ok(CommandOf::At(abort::begin(unit, id))),
            Cdb::CopyStatus4 { id, length } => Ok(CommandOf::At(status::begin(unit, id, length))),
            Cdb::TokenInformation { id, length } => {
                Ok(CommandOf::At(information::begin(unit, id, length)))
            }
            _ => unreachable!(),
        }
    }

    fn step(&self, alloc: Global, config: &Config) -> Result<Step, OutOfMemory> {
        match self {
            TokenPhase::Populating(populate) => populate.step(alloc),
            TokenPhase::Aborting(abort) => Ok(abort.step()),
            TokenPhase::StatusAsked(asked) => Ok(asked.step()),
            TokenPhase::StatusFound(told) => status::tell(alloc, told),
            TokenPhase::InformationAsked(asked) => Ok(asked.step()),
            TokenPhase::InformationFound(told) => information::tell(alloc, config, told),
            TokenPhase::Writing(writing) => writing.step(alloc, config),
        }
    }

    fn after(self, config: &Config, answer: Answer) -> TokenCommand {
        match self {
            TokenPhase::Populating(_) | TokenPhase::Aborting(_) => {
                CommandOf::Ended(Ended::unless_refused(answer))
            }
            TokenPhase::StatusAsked(asked) => status::after(asked, &answer),
            TokenPhase::InformationAsked(asked) => information::after(asked, &answer),
            TokenPhase::Writing(writing) => writing.after(config, answer),
            told => CommandOf::At(told),
        }
    }

    fn last(&self, config: &Config) -> Option<LastAct> {
        let _ = config;
        match self {
            TokenPhase::Writing(writing) => writing.last(),
            _ => None,
        }
    }

    ghost goes_on = { phase-goes-on };
}
