ghost use Rattle.std.specs.Prelude.{◌≡◌, IfOk, IfSome, Some};
ghost use Rattle.cm_base.specs.Configuration.{Configuration};
ghost use Rattle.cm_history.specs.declared.answer.Answer.{Answer};
ghost use Rattle.cmd_program.specs.Meaning.{IsWritable, IsAskable, MayFollow};
ghost use Rattle.cmd_program.specs.Program.{next, go_on_by, unless_refused};
ghost use Rattle.cmd_program.specs.ExtendedCopy.{end_state, copy_reply};
ghost use Rattle.std.specs.Option.{option_map};
ghost use Rattle.cmd_program.specs.declared.step.Outcome.{Outcome};
ghost use Rattle.cmd_machine.specs.Ends.{by_ended};
ghost use Rattle.cmd_machine.specs.Last.{by_last, IsLastOf};
ghost use Rattle.cmd_machine.specs.Rest.{rest_of, IsSoundAt, last_ask};
ghost use Rattle.xcopy_exec.specs.Meaning.{by_phase, by_stage, IsSoundPhase, IsSoundStage};

use crate::faults::place;
use crate::list_copy::ListCopy;
use crate::open_record::OpenRecord;
use crate::phase::CopyCommand;
use crate::pieces::Pieces;
use cm_base::{Config, OutOfMemory};
use cm_history::{Act, Answer, CopyState};
use cmd_machine::{CommandOf, Ended, LastAct};
use cmd_program::Step;
use pr_keys::Refusal;
use scsi_sense::Sense;
use seg_parse::Segment;
use std::alloc::Global;

/// SENSE KEY of a copy that was begun and is not done: COPY ABORTED.
const COPY_ABORTED: u8 = 0x0a;

/// How far an EXTENDED COPY has come.
#[derive(Drop)]
pub enum Stage {
    /// Its record is to be opened.
    Opening {
        copy: ListCopy,
    },
    /// The blocks of a segment are asked for.
    Capturing {
        copy: ListCopy,
        segment: Segment,
    },
    /// The blocks of a segment are to be put.
    Putting {
        copy: ListCopy,
        segment: Segment,
        pieces: Pieces,
    },
    /// The segments are done, or one was refused, and the record is to be closed.
    Closing {
        record: OpenRecord,
        ended_by: Option<Refusal>,
    },
}

/// The state of a copy whose segments a refusal may have ended.
fn end_state(ended_by: &Option<Refusal>) -> CopyState
    ensures { result ≡ end_state ended_by.now }
{
    match ended_by {
        None => CopyState::Done,
        Some(_) => CopyState::Failed,
    }
}

/// The end of a copy whose segments a refusal ended.
fn ended_by(refusal: Refusal) -> Ended
    ensures { by_ended result ≡ copy_reply (Some refusal) }
{
    match refusal {
        Refusal::Conflict => Ended::Conflict,
        Refusal::Refused(sense) => {
            Ended::Refused(Sense::new(COPY_ABORTED, sense.asc(), sense.ascq()))
        }
    }
}

/// The end of a copy whose segments a refusal may have ended.
pub(crate) fn copy_ended(refusal: Option<Refusal>) -> Ended
    ensures { by_ended result ≡ copy_reply refusal }
{
    match refusal {
        None => Ended::Good,
        Some(refusal) => ended_by(refusal),
    }
}

/// The end of a copy whose record was closed.
fn closed(ended_by: Option<Refusal>, answer: Answer) -> CopyCommand
    ensures program { (config : Configuration) → rest_of by_phase config result ≡ unless_refused (copy_reply ended_by) answer }
    ensures sound { (config : Configuration) → IsSoundAt IsSoundPhase config result }
{
    match answer {
        Answer::Refused(sense) => CommandOf::Ended(Ended::Refused(sense)),
        Answer::Conflict => CommandOf::Ended(Ended::Conflict),
        _ => CommandOf::Ended(copy_ended(ended_by)),
    }
}

impl Stage {
    pub(crate) fn step(&self, alloc: Global, config: &Config) -> Result<Step, OutOfMemory>
        requires { IsSoundStage config.now self.now }
        ensures next { IfOk result (λ s. s ≡ next (by_stage config.now self.now)) }
        ensures asks { IfOk result (λ s. IsAskable config.now s) }
        ensures fits { IfOk result IsWritable }
    {
        match self {
            Stage::Opening { copy } => Ok(Step::Do {
                unit: copy.unit,
                act: Act::Open { id: copy.list.id },
            }),
            Stage::Capturing { copy, segment } => Ok(Step::Do {
                unit: place(config, &copy.list, segment.source),
                act: Act::Capture {
                    lba: segment.from,
                    count: u32::from(segment.count),
                },
            }),
            Stage::Putting {
                copy,
                segment,
                pieces,
            } => Ok(Step::Do {
                unit: place(config, &copy.list, segment.destination),
                act: Act::Put {
                    lba: segment.to + pieces.at,
                    list: pieces.piece(alloc)?,
                },
            }),
            Stage::Closing { record, ended_by } => Ok(record.close(end_state(ended_by))),
        }
    }

    /// The command after an answer. It takes no memory.
    pub(crate) fn after(self, config: &Config, answer: Answer) -> CopyCommand
        requires sound { IsSoundStage config.now self }
        requires follows { MayFollow config.now (next (by_stage config.now self)) (Outcome.Answered answer) }
        ensures program { rest_of by_phase config.now result ≡ go_on_by (by_stage config.now self) answer }
        ensures sound { IsSoundAt IsSoundPhase config.now result }
    {
        let _ = config;
        match self {
            Stage::Opening { copy } => copy.opened(answer),
            Stage::Capturing { copy, segment } => match answer {
                Answer::Blocks(blocks) => copy.putting(segment, blocks),
                Answer::Refused(sense) => copy.ended(Some(Refusal::Refused(sense))),
                Answer::Conflict => copy.ended(Some(Refusal::Conflict)),
                _ => unreachable!(),
            },
            Stage::Putting {
                copy,
                segment,
                pieces,
            } => copy.put(segment, pieces, answer),
            Stage::Closing { ended_by, .. } => closed(ended_by, answer),
        }
    }

    /// What is asked once more if the command gives up here. It takes no memory.
    pub(crate) fn last(&self) -> Option<LastAct>
        ensures last { (config : Configuration) → last_ask (by_stage config self.now) ≡ option_map by_last result }
        ensures sound { (config : Configuration) → IsSoundStage config self.now → IfSome result (IsLastOf config) }
    {
        match self {
            Stage::Opening { .. } => None,
            Stage::Capturing { copy, .. } | Stage::Putting { copy, .. } => copy.last(),
            Stage::Closing { record, .. } => Some(record.terminating()),
        }
    }
}
