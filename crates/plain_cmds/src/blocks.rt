ghost use Rattle.std.specs.Prelude.{◌≡◌, ◌≤◌, ◌<◌, ◌*◌, length, IfOk};
ghost use Rattle.cm_base.specs.Configuration.{Configuration};
ghost use Rattle.cm_base.specs.Units.{unit_of};
ghost use Rattle.lba_ranges.specs.HeldBlocks.{blocks_bytes};
ghost use Rattle.cm_frame.specs.declared.frame.Reply.{Reply};
ghost use Rattle.cm_history.specs.declared.act.Act.{Act};
ghost use Rattle.cmd_program.specs.declared.step.Step.{Step};
ghost use Rattle.cmd_program.specs.SingleActs.{act_alone, blocks_in};
ghost use Rattle.cmd_program.specs.Meaning.{IsWritable, FitsReply};
ghost use Rattle.plain_cmds.specs.Meaning.{by_phase, IsSoundPhase};
ghost use Rattle.cmd_machine.specs.Rest.{rest_of, IsSoundAt};

use crate::phase::{Command, PlainPhase};
use cm_base::{OutOfMemory, Payload};
use cm_frame::Reply;
use cm_history::Act;
use cmd_machine::CommandOf;
use cmd_program::Step;
use lba_ranges::BlockList;
use std::alloc::Global;

/// GOOD with the bytes of the blocks.
pub(crate) fn blocks_told(alloc: Global, list: &BlockList) -> Result<Step, OutOfMemory>
    requires { FitsReply list.now }
    ensures told { IfOk result (λ s. s ≡ Step.Done (Reply.Good (blocks_bytes list.now))) }
    ensures fits { IfOk result IsWritable }
{
    Ok(Step::Done(Reply::Good(list.payload(alloc)?)))
}

/// A WRITE, whose data-out is the bytes of its blocks.
pub(crate) fn write(
    alloc: Global,
    unit: u16,
    block_length: u32,
    lba: u64,
    count: u32,
    out: Payload,
) -> Result<Command, OutOfMemory>
    requires few { count ≤ 2048 }
    requires some { 0 < block_length }
    requires whole { length out ≡ count * block_length }
    ensures program { (config : Configuration) → IfOk result (λ c. rest_of by_phase config c ≡ act_alone unit (Act.Write lba (blocks_in block_length out))) }
    ensures sound { (config : Configuration) → unit < length config.units
        → (unit_of config unit).block_length ≡ block_length
        → IfOk result (λ c. IsSoundAt IsSoundPhase config c) }
{
    let list = BlockList::from_payload(alloc, block_length, count, out)?;
    Ok(CommandOf::At(PlainPhase::Writing { unit, lba, list }))
}

/// The act of a WRITE.
pub(crate) fn write_asked(
    alloc: Global,
    unit: u16,
    lba: u64,
    list: &BlockList,
) -> Result<Step, OutOfMemory>
    ensures { IfOk result (λ s. s ≡ Step.Do unit (Act.Write lba list.now)) }
{
    Ok(Step::Do {
        unit,
        act: Act::Write {
            lba,
            list: list.copy(alloc)?,
        },
    })
}
