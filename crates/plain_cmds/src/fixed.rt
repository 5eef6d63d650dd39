ghost use Rattle.std.specs.Prelude.{◌≡◌, ◌<◌, ◌≤◌, length, take, min, IfOk};
ghost use Rattle.cm_base.specs.Configuration.{Configuration};
ghost use Rattle.scsi_sense.specs.Codes.{no_additional_sense};
ghost use Rattle.scsi_sense.specs.SenseBytes.{sense_bytes};
ghost use Rattle.scsi_inquiry.specs.UnitData.{capacity10, report_luns};
ghost use Rattle.cmd_program.specs.Program.{good};
ghost use Rattle.cmd_program.specs.SingleActs.{inquiry};
ghost use Rattle.plain_cmds.specs.Meaning.{by_phase, IsSoundPhase};
ghost use Rattle.cmd_machine.specs.Rest.{rest_of, IsSoundAt};

use crate::phase::{Command, PlainPhase};
use cm_base::{Config, OutOfMemory, Payload};
use cmd_machine::{CommandOf, Ended};
use scsi_inquiry::{standard, vpd};
use scsi_sense::Sense;
use std::alloc::Global;

/// GOOD with the first `allocation` bytes of some data, `allocation` being the allocation length.
pub(crate) fn told(alloc: Global, allocation: u32, bytes: &[u8]) -> Result<Command, OutOfMemory>
    requires { min allocation (length bytes.now) ≤ 8_388_608 }
    ensures program { (config : Configuration) → IfOk result (λ c. rest_of by_phase config c ≡ good (take allocation bytes.now)) }
    ensures sound { (config : Configuration) → IfOk result (λ c. IsSoundAt IsSoundPhase config c) }
{
    let mut bytes = Payload::copy_from_slice(alloc, bytes)?;
    bytes.truncate(allocation as usize);
    Ok(CommandOf::At(PlainPhase::Ready { bytes }))
}

/// A REQUEST SENSE: no sense is kept for it, as each reply has its own.
pub(crate) fn request_sense(alloc: Global, allocation: u8) -> Result<Command, OutOfMemory>
    ensures program { (config : Configuration) → IfOk result (λ c. rest_of by_phase config c ≡ good (take allocation (sense_bytes no_additional_sense))) }
    ensures sound { (config : Configuration) → IfOk result (λ c. IsSoundAt IsSoundPhase config c) }
{
    let sense = Sense::no_additional_sense();
    told(alloc, u32::from(allocation), &sense.to_bytes())
}

/// An INQUIRY: a vital product data page where EVPD is set, and otherwise the standard data, for
/// which the page code has to be 0.
pub(crate) fn inquiry(
    alloc: Global,
    unit: u16,
    evpd: bool,
    page: u8,
    allocation: u16,
) -> Result<Command, OutOfMemory>
    ensures program { (config : Configuration) → IfOk result (λ c. rest_of by_phase config c ≡ inquiry unit evpd page allocation) }
    ensures sound { (config : Configuration) → IfOk result (λ c. IsSoundAt IsSoundPhase config c) }
{
    if evpd {
        match vpd(alloc, unit, page)? {
            Some(data) => told(alloc, u32::from(allocation), data.as_slice()),
            None => Ok(CommandOf::Ended(Ended::Refused(Sense::invalid_field_in_cdb()))),
        }
    } else if page == 0 {
        told(alloc, u32::from(allocation), &standard())
    } else {
        Ok(CommandOf::Ended(Ended::Refused(Sense::invalid_field_in_cdb())))
    }
}

/// A READ CAPACITY (10), which has no allocation length.
pub(crate) fn read_capacity10(
    alloc: Global,
    config: &Config,
    unit: u16,
) -> Result<Command, OutOfMemory>
    requires { unit < length config.now.units }
    ensures program { IfOk result (λ c. rest_of by_phase config.now c ≡ good (capacity10 config.now unit)) }
    ensures sound { IfOk result (λ c. IsSoundAt IsSoundPhase config.now c) }
{
    let bytes = Payload::copy_from_slice(alloc, &scsi_inquiry::read_capacity10(config, unit))?;
    Ok(CommandOf::At(PlainPhase::Ready { bytes }))
}

/// A REPORT LUNS; SELECT REPORT is ignored.
pub(crate) fn report_luns(
    alloc: Global,
    config: &Config,
    allocation: u32,
) -> Result<Command, OutOfMemory>
    ensures program { IfOk result (λ c. rest_of by_phase config.now c ≡ good (take allocation (report_luns config.now))) }
    ensures sound { IfOk result (λ c. IsSoundAt IsSoundPhase config.now c) }
{
    let data = scsi_inquiry::report_luns(alloc, config)?;
    told(alloc, allocation, data.as_slice())
}
