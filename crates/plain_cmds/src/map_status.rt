ghost use Rattle.std.specs.Prelude.{◌≡◌, take, IfOk};
ghost use Rattle.cm_frame.specs.declared.frame.Reply.{Reply};
ghost use Rattle.cmd_program.specs.declared.step.Step.{Step};
ghost use Rattle.cmd_program.specs.AnswerBytes.{run_bytes, map_bytes};
ghost use Rattle.cmd_program.specs.Meaning.{IsWritable, AreTold};

use cm_base::{Bytes, OutOfMemory, Payload, set_u32, set_u64};
use cm_frame::Reply;
use cmd_program::Step;
use lba_ranges::{MapRun, StatusList};
use std::alloc::Global;

/// Bytes of an LBA status descriptor.
const DESCRIPTOR: usize = 16;

/// PROVISIONING STATUS of unmapped blocks: deallocated.
const DEALLOCATED: u8 = 1;

/// The LBA status descriptor of a run (SBC-3, GET LBA STATUS).
fn descriptor(run: MapRun) -> [u8; DESCRIPTOR]
    ensures { result ≡ run_bytes run }
{
    let mut bytes = [0; DESCRIPTOR];
    set_u64(&mut bytes, 0, run.lba);
    set_u32(&mut bytes, 8, run.count);
    if !run.mapped {
        bytes[12] = DEALLOCATED;
    }
    bytes
}

/// The data of a GET LBA STATUS (SBC-3).
fn status_data(alloc: Global, runs: &StatusList) -> Result<Bytes, OutOfMemory>
    requires { AreTold runs.now }
    ensures { IfOk result (λ bytes. bytes ≡ map_bytes runs.now) }
{
    let count = runs.len();
    let mut head = [0; 8];
    set_u32(&mut head, 0, (4 + DESCRIPTOR * count) as u32);
    let mut data = Bytes::copy(alloc, &head)?;
    for index in 0..count {
        data.extend(&descriptor(*runs.at(index)))?;
    }
    Ok(data)
}

/// GOOD with the first `allocation` bytes of what is told of the runs.
pub(crate) fn runs_told(
    alloc: Global,
    allocation: u32,
    runs: &StatusList,
) -> Result<Step, OutOfMemory>
    requires { AreTold runs.now }
    ensures told { IfOk result (λ s. s ≡ Step.Done (Reply.Good (take allocation (map_bytes runs.now)))) }
    ensures fits { IfOk result IsWritable }
{
    let mut data = Payload::from_vec(status_data(alloc, runs)?.into_vec())?;
    data.truncate(allocation as usize);
    Ok(Step::Done(Reply::Good(data)))
}
