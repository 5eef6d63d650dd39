ghost use Rattle.std.specs.Prelude.{◌≡◌, ◌++◌, flat_map, IfOk, OnOk};
ghost use Rattle.copy_plan.specs.Spelling.{extent_bytes, front_bytes, job_bytes};

use crate::job::Job;
use cm_base::{Bytes, OutOfMemory, set_u16, set_u32, set_u64};
use lba_ranges::Range;
use std::alloc::Global;

/// Spells a job.
pub fn write_job(alloc: Global, job: &Job) -> Result<Bytes, OutOfMemory>
    ensures { IfOk result (λ bytes. bytes ≡ job_bytes job.now) }
{
    let mut bytes = Bytes::empty(alloc);
    bytes.extend(&front_bytes(job))?;
    append_extents(&mut bytes, job.from())?;
    append_extents(&mut bytes, job.to())?;
    Ok(bytes)
}

/// Adds the spelling of some extents.
fn append_extents(bytes: &mut Bytes, extents: &[Range]) -> Result<(), OutOfMemory>
    ensures { OnOk result (bytes.new ≡ bytes.old ++ flat_map extent_bytes extents.now) }
{
    for extent in extents {
        bytes.extend(&extent_bytes(extent))?;
    }
    Ok(())
}

/// What stands before the extents.
fn front_bytes(job: &Job) -> [u8; 16]
    ensures { result ≡ front_bytes job.now }
{
    let mut bytes = [0; 16];
    set_u16(&mut bytes, 0, job.source());
    set_u16(&mut bytes, 2, job.target());
    set_u32(&mut bytes, 4, job.polls());
    set_u32(&mut bytes, 8, job.from().len() as u32);
    set_u32(&mut bytes, 12, job.to().len() as u32);
    bytes
}

/// An extent in 12 bytes.
fn extent_bytes(extent: &Range) -> [u8; 12]
    ensures { result ≡ extent_bytes extent.now }
{
    let mut bytes = [0; 12];
    set_u64(&mut bytes, 0, extent.lba);
    set_u32(&mut bytes, 8, extent.count);
    bytes
}
