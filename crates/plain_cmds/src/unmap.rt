ghost use Rattle.std.specs.Prelude.{◌≡◌, ◌<◌, length, IfOk};
ghost use Rattle.cm_base.specs.Configuration.{Configuration};
ghost use Rattle.block_params.specs.ListsRead.{unmap_read};
ghost use Rattle.cm_history.specs.declared.act.Act.{Act};
ghost use Rattle.cmd_program.specs.declared.step.Step.{Step};
ghost use Rattle.cmd_program.specs.SingleActs.{unmap};
ghost use Rattle.plain_cmds.specs.Meaning.{by_phase, IsSoundPhase};
ghost use Rattle.cmd_machine.specs.Rest.{rest_of, IsSoundAt};

use crate::phase::{Command, PlainPhase};
use block_params::read_unmap;
use cm_base::OutOfMemory;
use cm_history::Act;
use cmd_machine::{CommandOf, Ended, refusal};
use cmd_program::Step;
use lba_ranges::RangeList;
use std::alloc::Global;

/// An UNMAP of this list.
pub(crate) fn unmap(alloc: Global, unit: u16, list: &[u8]) -> Result<Command, OutOfMemory>
    ensures program { (config : Configuration) → IfOk result (λ c. rest_of by_phase config c ≡ unmap unit (unmap_read list.now)) }
    ensures sound { (config : Configuration) → unit < length config.units → IfOk result (λ c. IsSoundAt IsSoundPhase config c) }
{
    match read_unmap(alloc, list) {
        Ok(ranges) => Ok(CommandOf::At(PlainPhase::Unmapping { unit, ranges })),
        Err(fault) => Ok(CommandOf::Ended(Ended::Refused(refusal(fault)?))),
    }
}

/// The act of an UNMAP.
pub(crate) fn unmap_asked(alloc: Global, unit: u16, ranges: &RangeList) -> Result<Step, OutOfMemory>
    ensures { IfOk result (λ s. s ≡ Step.Do unit (Act.Unmap ranges.now)) }
{
    let ranges = ranges.copy(alloc)?;
    Ok(Step::Do {
        unit,
        act: Act::Unmap { ranges },
    })
}
