use crate::blocks::{blocks_told, write, write_asked};
use crate::fixed::{inquiry, read_capacity10, report_luns, request_sense, told};
use crate::map_status::runs_told;
use crate::reserving::{ReservePhase, reserve_in, reserve_out};
use crate::unmap::{unmap, unmap_asked};
use cm_base::{Config, OutOfMemory, Payload};
use cm_frame::{Reply, Request};
use cm_history::{Act, Answer};
use cmd_machine::{CommandOf, Ended, LastAct, Phase};
use cmd_program::Step;
use lba_ranges::{BlockList, RangeList, StatusList};
use scsi_cdb::Cdb;
use scsi_inquiry::{copy_parameters, read_capacity16};
use std::alloc::Global;

/// How far a command that asks for one act at most has come.
#[derive(Drop)]
pub enum PlainPhase {
    /// The blocks of a READ are asked for.
    Reading {
        unit: u16,
        lba: u64,
        count: u32,
    },
    /// The blocks of a READ were answered.
    Read {
        list: BlockList,
    },
    /// The blocks of a WRITE are to be written.
    Writing {
        unit: u16,
        lba: u64,
        list: BlockList,
    },
    /// The blocks of an UNMAP are to be unmapped.
    Unmapping {
        unit: u16,
        ranges: RangeList,
    },
    /// The runs of a GET LBA STATUS are asked for; `allocation` is its allocation length.
    Mapping {
        unit: u16,
        lba: u64,
        allocation: u32,
    },
    /// The runs of a GET LBA STATUS were answered.
    Mapped {
        allocation: u32,
        runs: StatusList,
    },
    Reserving(ReservePhase),
    /// The command ends GOOD with this data.
    Ready {
        bytes: Payload,
    },
}

/// A command that asks for one act at most.
pub type Command = CommandOf<PlainPhase>;

impl Phase for PlainPhase {
    ghost use Rattle.cmd_program.specs.Kinds.{is_plain_command};
    ghost use Rattle.plain_cmds.specs.Meaning.{by_phase, IsSoundPhase};
    ghost use Rattle.plain_cmds.specs.UnderWay.{phase-goes-on};

    ghost kind = { is_plain_command };

    ghost meaning = { by_phase };

    ghost sound = { IsSoundPhase };

    fn begin(
        alloc: Global,
        config: &Config,
        request: Request,
        cdb: Cdb,
    ) -> Result<Command, OutOfMemory> {
        let Request { unit, cdb: _, out } = request;
        match cdb {
            Cdb::TestUnitReady => Ok(CommandOf::Ended(Ended::Good)),
            Cdb::RequestSense { length } => request_sense(alloc, length),
            Cdb::Inquiry { evpd, page, length } => inquiry(alloc, unit, evpd, page, length),
            Cdb::Read { lba, count } => Ok(CommandOf::At(PlainPhase::Reading { unit, lba, count })),
            Cdb::Write { lba, count } => {
                write(alloc, unit, config.unit(unit).block_length, lba, count, out)
            }
            Cdb::Unmap { length: _ } => unmap(alloc, unit, out.as_slice()),
            Cdb::ReadCapacity10 => read_capacity10(alloc, config, unit),
            Cdb::ReadCapacity16 { length } => told(alloc, length, &read_capacity16(config, unit)),
            Cdb::GetLbaStatus { lba, length } => Ok(CommandOf::At(PlainPhase::Mapping {
                unit,
                lba,
                allocation: length,
            })),
            Cdb::ReportLuns { length } => report_luns(alloc, config, length),
            Cdb::CopyParameters { length } => told(alloc, length, &copy_parameters()),
            Cdb::PersistentIn { action, length } => {
                Ok(CommandOf::At(reserve_in(unit, action, length)))
            }
            Cdb::PersistentOut {
                action,
                scope,
                kind,
                length: _,
            } => Ok(reserve_out(unit, action, scope, kind, out.as_slice())),
            _ => unreachable!(),
        }
    }

    fn step(&self, alloc: Global, config: &Config) -> Result<Step, OutOfMemory> {
        let _ = config;
        match self {
            PlainPhase::Reading { unit, lba, count } => Ok(Step::Do {
                unit: *unit,
                act: Act::Read {
                    lba: *lba,
                    count: *count,
                },
            }),
            PlainPhase::Read { list } => blocks_told(alloc, list),
            PlainPhase::Writing { unit, lba, list } => write_asked(alloc, *unit, *lba, list),
            PlainPhase::Unmapping { unit, ranges } => unmap_asked(alloc, *unit, ranges),
            PlainPhase::Mapping {
                unit,
                lba,
                allocation: _,
            } => Ok(Step::Do {
                unit: *unit,
                act: Act::MapStatus { lba: *lba },
            }),
            PlainPhase::Mapped { allocation, runs } => runs_told(alloc, *allocation, runs),
            PlainPhase::Reserving(phase) => phase.step(alloc),
            PlainPhase::Ready { bytes } => Ok(Step::Done(Reply::Good(bytes.clone()?))),
        }
    }

    fn after(self, config: &Config, answer: Answer) -> Command {
        let _units = config.units();
        match self {
            PlainPhase::Reading { .. } => match answer {
                Answer::Blocks(list) => CommandOf::At(PlainPhase::Read { list }),
                Answer::Refused(sense) => CommandOf::Ended(Ended::Refused(sense)),
                Answer::Conflict => CommandOf::Ended(Ended::Conflict),
                _ => unreachable!(),
            },
            PlainPhase::Writing { .. } | PlainPhase::Unmapping { .. } => {
                CommandOf::Ended(Ended::unless_refused(answer))
            }
            PlainPhase::Mapping { allocation, .. } => match answer {
                Answer::Status(runs) => CommandOf::At(PlainPhase::Mapped { allocation, runs }),
                Answer::Refused(sense) => CommandOf::Ended(Ended::Refused(sense)),
                Answer::Conflict => CommandOf::Ended(Ended::Conflict),
                _ => unreachable!(),
            },
            PlainPhase::Reserving(phase) => phase.after(answer),
            told => CommandOf::At(told),
        }
    }

    fn last(&self, config: &Config) -> Option<LastAct> {
        let _ = config;
        None
    }

    ghost goes_on = { phase-goes-on };
}
