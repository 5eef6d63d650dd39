ghost use Rattle.std.specs.Prelude.{◌≡◌};
ghost use Rattle.cmd_program.specs.Kinds.{is_copy_command};

use crate::recall::{RecallQuery, Told};
use crate::stage::Stage;
use crate::{extended, recall};
use cm_base::{Config, OutOfMemory};
use cm_frame::Request;
use cm_history::Answer;
use cmd_machine::{CommandOf, LastAct, Phase};
use cmd_program::Step;
use scsi_cdb::Cdb;
use std::alloc::Global;

/// How far an EXTENDED COPY(LID1) or RECEIVE COPY STATUS(LID1) has come.
#[derive(Drop)]
pub enum CopyPhase {
    Recalling(RecallQuery),
    Recalled(Told),
    Copying(Stage),
}

impl CopyPhase {
    /// A phase that stands in for one that is moved out. It takes no memory.
    pub fn nothing() -> CopyPhase {
        recall::begin(0, 0, 0)
    }
}

/// A copy of segments, or how it ended.
pub type CopyCommand = CommandOf<CopyPhase>;

/// The command is one of these.
pub fn is_copy_command(cdb: &Cdb) -> bool
    ensures { result ≡ is_copy_command cdb.now }
{
    matches!(cdb, Cdb::ExtendedCopy { .. } | Cdb::CopyStatus1 { .. })
}

impl Phase for CopyPhase {
    ghost use Rattle.cmd_program.specs.Kinds.{is_copy_command};
    ghost use Rattle.xcopy_exec.specs.Meaning.{by_phase, IsSoundPhase};
    ghost use Rattle.xcopy_exec.specs.UnderWay.{phase-goes-on};

    ghost kind = { is_copy_command };

    ghost meaning = { by_phase };

    ghost sound = { IsSoundPhase };

    fn begin(
        alloc: Global,
        config: &Config,
        request: Request,
        cdb: Cdb,
    ) -> Result<CopyCommand, OutOfMemory> {
        let Request { unit, cdb: _, out } = request;
        match cdb {
            Cdb::ExtendedCopy { length } => extended::begin(alloc, config, unit, length, &out),
            Cdb::CopyStatus1 { id, length } => Ok(CommandOf::At(recall::begin(unit, id, length))),
            _ => unreachable!(),
        }
    }

    fn step(&self, alloc: Global, config: &Config) -> Result<Step, OutOfMemory> {
        match self {
            CopyPhase::Recalling(asked) => Ok(asked.step()),
            CopyPhase::Recalled(told) => told.step(alloc),
            CopyPhase::Copying(stage) => stage.step(alloc, config),
        }
    }

    fn after(self, config: &Config, answer: Answer) -> CopyCommand {
        match self {
            CopyPhase::Recalling(asked) => asked.after(&answer),
            CopyPhase::Copying(stage) => stage.after(config, answer),
            told => CommandOf::At(told),
        }
    }

    fn last(&self, config: &Config) -> Option<LastAct> {
        let _ = config;
        match self {
            CopyPhase::Copying(stage) => stage.last(),
            _ => None,
        }
    }

    ghost goes_on = { phase-goes-on };
}
