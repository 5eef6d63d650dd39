ghost use Rattle.std.specs.Prelude.{ℕ, List, ◌≤◌, length, IfOk};
ghost use Rattle.copy_plan.specs.Plans.{IsPlan, IsGreedy};

use crate::cursor::ExtentCursor;
use crate::job::Job;
use cm_base::{OutOfMemory, Sequence};
use std::alloc::Global;

/// The ends of parts of a list of blocks, as places in it.
pub type CutList = Sequence<u64>;

/// The blocks of one POPULATE TOKEN.
const PART_LIMIT: u64 = 1_048_576;

/// The plan of a copy (own profile): the blocks of the extents that are read, in order, cut into parts that are not
/// empty, each of at most 1,048,576 blocks from at most 64 extents. It is given as the ends of the parts.
///
/// Each part is as long as it may be, and no plan has fewer parts. The time is that of one walk over the extents.
pub fn plan(alloc: Global, job: &Job) -> Result<CutList, OutOfMemory>
    ensures plan { IfOk result (λ ends. IsPlan job.now.from ends) }
    ensures fewest { IfOk result (λ ends. (other : List ℕ) → IsPlan job.now.from other → length ends ≤ length other) }
    ensures greedy { IfOk result (λ ends. IsGreedy job.now.from 0 ends) }
{
    let mut cursor = ExtentCursor::new(job.from());
    let mut ends = CutList::empty(alloc);
    while cursor.pass(PART_LIMIT) > 0 {
        ends.push(cursor.place())?;
    }
    Ok(ends)
}
