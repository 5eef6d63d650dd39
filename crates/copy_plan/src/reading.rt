ghost use Rattle.std.specs.Prelude.{◌≡◌, ◌≢◌, ◌+◌, ◌*◌, ◌<◌, ◌≤◌, ◌^◌, length, drop, IfOk, OnOk};
ghost use Rattle.cm_base.specs.declared.parsed.Parsed.TheVariants.{Bad};
ghost use Rattle.cm_frame.specs.Laws.{IfWhole};
ghost use Rattle.copy_plan.specs.declared.fault.JobFault.{JobFault};
ghost use Rattle.copy_plan.specs.Reading.{extent_in, extents_in, place_of, read_job};

use crate::fault::JobFault;
use crate::job::{EXTENTS_LIMIT, ExtentList, Job};
use cm_base::{OutOfMemory, Parsed, get_u16, get_u32, get_u64};
use lba_ranges::Range;
use std::alloc::Global;

/// Bytes before the extents.
const FRONT: usize = 16;

/// Bytes that spell one extent.
const EXTENT: usize = 12;

/// Reads the job at the front of some bytes (own profile): the units that are read and written, 2 bytes each; the
/// polls, and the numbers of extents that are read and written, 4 bytes each; and the extents, those that are read
/// first, each by its first block in 8 bytes and its number of blocks in 4.
///
/// The first 16 bytes are judged when they are there, and the extents when all of them are. The place of a fault is
/// that of the polls or of a number of extents, the first byte of a bad extent, or 0 where extents share a block or
/// the totals are wrong.
pub fn read_job(alloc: Global, bytes: &[u8]) -> Result<Parsed<Job>, OutOfMemory>
    ensures value { IfOk result (λ p. p ≡ read_job bytes.now) }
    ensures within { IfOk result (λ p. IfWhole p (λ job used. used ≤ length bytes.now)) }
{
    if bytes.len() < FRONT {
        return Ok(Parsed::Short);
    }
    let polls = get_u32(bytes, 4);
    let sources = get_u32(bytes, 8) as usize;
    let targets = get_u32(bytes, 12) as usize;
    if polls == 0 {
        return bad(JobFault::NoPolls);
    }
    if sources > EXTENTS_LIMIT {
        return bad(JobFault::ManySources);
    }
    if targets > EXTENTS_LIMIT {
        return bad(JobFault::ManyTargets);
    }
    let used = FRONT + EXTENT * (sources + targets);
    if bytes.len() < used {
        return Ok(Parsed::Short);
    }
    let from = extents_in(alloc, &bytes[FRONT..], sources)?;
    let to = extents_in(alloc, &bytes[FRONT + EXTENT * sources..], targets)?;
    match Job::new(alloc, get_u16(bytes, 0), get_u16(bytes, 2), polls, from, to) {
        Ok(value) => Ok(Parsed::Whole { value, used }),
        Err(fault) => bad(fault),
    }
}

/// So many extents at the front of some bytes.
fn extents_in(alloc: Global, bytes: &[u8], count: usize) -> Result<ExtentList, OutOfMemory>
    requires { 12 * count ≤ length bytes.now }
    ensures { IfOk result (λ extents. extents ≡ extents_in count bytes.now) }
{
    let mut extents = Vec::with_capacity(alloc, count)?;
    for index in 0..count {
        extents.push(extent_in(&bytes[EXTENT * index..]))?;
    }
    Ok(ExtentList::from_vec(extents))
}

/// The extent that 12 bytes spell.
fn extent_in(bytes: &[u8]) -> Range
    requires { 12 ≤ length bytes.now }
    ensures { result ≡ extent_in bytes.now }
{
    Range {
        lba: get_u64(bytes, 0),
        count: get_u32(bytes, 8),
    }
}

/// What is read where the bytes spell no job.
fn bad(fault: JobFault) -> Result<Parsed<Job>, OutOfMemory>
    requires { place_of fault < 2 ^ 64 }
    ensures bad { IfOk result (λ p. p ≡ Bad (place_of fault)) }
    ensures memory { OnOk result (fault ≢ JobFault.OutOfMemory) }
{
    let place = match fault {
        JobFault::OutOfMemory => return Err(OutOfMemory),
        JobFault::NoPolls => 4,
        JobFault::ManySources => 8,
        JobFault::ManyTargets => 12,
        JobFault::BadExtent { index } => FRONT as u64 + EXTENT as u64 * index,
        JobFault::SharedBlock | JobFault::BadTotals => 0,
    };
    Ok(Parsed::Bad { place })
}
