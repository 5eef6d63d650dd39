// PERSISTENT RESERVE IN and OUT.
ghost use Rattle.std.specs.Prelude.{◌≡◌, ◌<◌, ◌≤◌, ◌^◌, length, take, true, IfOk};
ghost use Rattle.cm_base.specs.Configuration.{Configuration};
ghost use Rattle.scsi_cdb.specs.declared.cdb.Cdb.{Cdb};
ghost use Rattle.scsi_cdb.specs.Encoded.{has_codes};
ghost use Rattle.pr_keys.specs.Bytes.{out_list_read};
ghost use Rattle.cm_frame.specs.declared.frame.Reply.{Reply};
ghost use Rattle.cmd_program.specs.declared.step.Outcome.{Outcome};
ghost use Rattle.cmd_program.specs.declared.step.Step.{Step};
ghost use Rattle.cmd_program.specs.Meaning.{IsAskable, IsWritable, MayFollow};
ghost use Rattle.cmd_program.specs.Program.{next, go_on_by};
ghost use Rattle.cmd_program.specs.SingleActs.{reserve_in, reserve_out};
ghost use Rattle.cmd_machine.specs.Rest.{rest_of, IsSoundAt};
ghost use Rattle.plain_cmds.specs.Meaning.{by_phase, by_reserve, IsSoundPhase, IsSoundReserve};

use crate::phase::{Command, PlainPhase};
use cm_base::{Bytes, Holder, KeyList, OutOfMemory, Payload};
use cm_frame::Reply;
use cm_history::{Act, Answer};
use cmd_machine::{CommandOf, Ended};
use cmd_program::Step;
use pr_keys::{OutList, holder_data, keys_data, read_out_list};
use std::alloc::Global;

/// Service action READ KEYS of PERSISTENT RESERVE IN (SPC-4).
const READ_KEYS: u8 = 0;

/// How far a PERSISTENT RESERVE IN or OUT has come; `allocation` is the allocation length.
#[derive(Drop)]
pub enum ReservePhase {
    /// A service action of PERSISTENT RESERVE OUT is to be done.
    Out {
        unit: u16,
        action: u8,
        scope: u8,
        kind: u8,
        list: OutList,
    },
    /// The keys are asked for.
    KeysAsked {
        unit: u16,
        allocation: u16,
    },
    /// The keys were answered.
    KeysFound {
        allocation: u16,
        generation: u32,
        keys: KeyList,
    },
    /// The reservation is asked for.
    HolderAsked {
        unit: u16,
        allocation: u16,
    },
    /// The reservation was answered.
    HolderFound {
        allocation: u16,
        generation: u32,
        holder: Option<Holder>,
    },
}

/// A PERSISTENT RESERVE OUT with this list. It takes no memory.
pub(crate) fn reserve_out(unit: u16, action: u8, scope: u8, kind: u8, out: &[u8]) -> Command
    ensures program { (config : Configuration) → rest_of by_phase config result ≡ reserve_out unit action scope kind (out_list_read out.now) }
    ensures sound { (config : Configuration) → unit < length config.units
        → has_codes (Cdb.PersistentOut action scope kind 24) ≡ true → IsSoundAt IsSoundPhase config result }
{
    match read_out_list(out) {
        Ok(list) => CommandOf::At(PlainPhase::Reserving(ReservePhase::Out {
            unit,
            action,
            scope,
            kind,
            list,
        })),
        Err(sense) => CommandOf::Ended(Ended::Refused(sense)),
    }
}

/// A PERSISTENT RESERVE IN. It takes no memory.
pub(crate) fn reserve_in(unit: u16, action: u8, allocation: u16) -> PlainPhase
    ensures program { (config : Configuration) → by_phase config result ≡ reserve_in unit action allocation }
    ensures sound { (config : Configuration) → unit < length config.units → IsSoundPhase config result }
{
    PlainPhase::Reserving(if action == READ_KEYS {
        ReservePhase::KeysAsked { unit, allocation }
    } else {
        ReservePhase::HolderAsked { unit, allocation }
    })
}

/// GOOD with the first `allocation` of some bytes.
fn told(bytes: Bytes, allocation: u16) -> Result<Step, OutOfMemory>
    ensures told { IfOk result (λ s. s ≡ Step.Done (Reply.Good (take allocation bytes))) }
    ensures fits { IfOk result IsWritable }
{
    let mut told = Payload::from_vec(bytes.into_vec())?;
    told.truncate(usize::from(allocation));
    Ok(Step::Done(Reply::Good(told)))
}

impl ReservePhase {
    pub(crate) fn step(&self, alloc: Global) -> Result<Step, OutOfMemory>
        requires { (config : Configuration) × IsSoundReserve config self.now }
        ensures next { IfOk result (λ s. s ≡ next (by_reserve self.now)) }
        ensures asks { (config : Configuration) → IsSoundReserve config self.now → IfOk result (λ s. IsAskable config s) }
        ensures fits { IfOk result IsWritable }
    {
        match self {
            ReservePhase::Out {
                unit,
                action,
                scope,
                kind,
                list,
            } => Ok(Step::Do {
                unit: *unit,
                act: Act::PrOut {
                    action: *action,
                    scope: *scope,
                    kind: *kind,
                    key: list.key,
                    action_key: list.action_key,
                },
            }),
            ReservePhase::KeysAsked { unit, .. } => Ok(Step::Do {
                unit: *unit,
                act: Act::PrKeys,
            }),
            ReservePhase::KeysFound {
                allocation,
                generation,
                keys,
            } => told(keys_data(alloc, *generation, keys)?, *allocation),
            ReservePhase::HolderAsked { unit, .. } => Ok(Step::Do {
                unit: *unit,
                act: Act::PrHolder,
            }),
            ReservePhase::HolderFound {
                allocation,
                generation,
                holder,
            } => told(holder_data(alloc, *generation, *holder)?, *allocation),
        }
    }

    /// The command after an answer. It takes no memory.
    pub(crate) fn after(self, answer: Answer) -> Command
        requires follows { (config : Configuration) × MayFollow config (next (by_reserve self)) (Outcome.Answered answer) }
        ensures program { (config : Configuration) → rest_of by_phase config result ≡ go_on_by (by_reserve self) answer }
        ensures sound { (config : Configuration) → IsSoundReserve config self
            → MayFollow config (next (by_reserve self)) (Outcome.Answered answer) → IsSoundAt IsSoundPhase config result }
    {
        match self {
            ReservePhase::Out { .. } => CommandOf::Ended(Ended::unless_refused(answer)),
            ReservePhase::KeysAsked { allocation, .. } => match answer {
                Answer::Keys { generation, keys } => {
                    CommandOf::At(PlainPhase::Reserving(ReservePhase::KeysFound {
                        allocation,
                        generation,
                        keys,
                    }))
                }
                _ => unreachable!(),
            },
            ReservePhase::HolderAsked { allocation, .. } => match answer {
                Answer::Holder { generation, holder } => {
                    CommandOf::At(PlainPhase::Reserving(ReservePhase::HolderFound {
                        allocation,
                        generation,
                        holder,
                    }))
                }
                _ => unreachable!(),
            },
            told => CommandOf::At(PlainPhase::Reserving(told)),
        }
    }
}
