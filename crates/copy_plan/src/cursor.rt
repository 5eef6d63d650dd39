ghost use Rattle.std.specs.Prelude.{◌≡◌, ◌+◌, ◌<◌, ◌≤◌, ◌∷◌, [], OnErr, IfOk, IfSome, IfNone, length, slice_range};
ghost use Rattle.lba_ranges.specs.Denoted.{blocks_of, total};
ghost use Rattle.copy_plan.specs.Jobs.{AreExtents};
ghost use Rattle.copy_plan.specs.Plans.{IsLongestRun, longest_run, ranges_between};

use cm_base::OutOfMemory;
use lba_ranges::{Range, RangeList};
use std::alloc::Global;
use std::marker::Model;

/// The ranges that one command may have.
const RANGES_LIMIT: usize = 64;

/// A place in the blocks of some extents, which lie one behind the other.
#[derive(Drop)]
pub struct ExtentCursor<'a> {
    extents: &'a [Range],
    index: usize,
    passed: u32,
    place: u64,
}

impl<'a> Model for ExtentCursor<'a> {
    ghost use Rattle.copy_plan.specs.Plans.{Cursor};

    ghost Value = { Cursor };

    ghost use Rattle.copy_plan.specs.inner.Cursors.{IsCursor};

    ghost view = { λ c. record { extents = c.extents.now; place = c.place } };

    ghost invariant = { IsCursor };
}

impl<'a> ExtentCursor<'a> {
    /// The cursor before the first block of these extents. It takes no memory.
    pub fn new(extents: &'a [Range]) -> ExtentCursor<'a>
        requires { AreExtents extents.now }
        ensures { result ≡ record { extents = extents.now; place = 0 } }
    {
        ExtentCursor {
            extents,
            index: 0,
            passed: 0,
            place: 0,
        }
    }

    /// How many blocks were passed. It takes no memory.
    pub fn place(&self) -> u64
        ensures place { result ≡ self.now.place }
        ensures within { result ≤ total self.now.extents }
    {
        self.place
    }

    /// Passes over the next blocks, as many as `most` and 64 extents allow, and tells how many they are. It takes no
    /// memory.
    pub fn pass(&mut self, most: u64) -> u64
        ensures run { IsLongestRun self.old.extents self.old.place most result }
        ensures passed { self.new ≡ record self.old { place = self.old.place + result } }
    {
        let mut left = most;
        for _ in 0..RANGES_LIMIT {
            match self.next_range(left) {
                Some(range) => left -= u64::from(range.count),
                None => break,
            }
        }
        most - left
    }

    /// Passes over the next blocks, as many as `most` and 64 extents allow, and gives their ranges, one of each extent
    /// of which there are any. At `OutOfMemory` the cursor is as before.
    pub fn next_ranges(&mut self, alloc: Global, most: u64) -> Result<RangeList, OutOfMemory>
        ensures ranges { IfOk result (λ ranges. ranges ≡ longest_run self.old.extents self.old.place most) }
        ensures run { IfOk result (λ ranges. IsLongestRun self.old.extents self.old.place most (total ranges)) }
        ensures between { IfOk result (λ ranges. ranges ≡ ranges_between self.old.extents self.old.place self.new.place) }
        ensures blocks { IfOk result (λ ranges. blocks_of ranges ≡ slice_range (blocks_of self.old.extents) self.old.place self.new.place) }
        ensures passed { IfOk result (λ ranges. self.new ≡ record self.old { place = self.old.place + total ranges }) }
        ensures err { OnErr result (self.new ≡ self.old) }
    {
        let mut ranges = RangeList::empty(alloc);
        let room = ranges.reserve(RANGES_LIMIT as u64)?;
        let mut left = most;
        for _ in 0..RANGES_LIMIT {
            match self.next_range(left) {
                Some(range) => {
                    left -= u64::from(range.count);
                    room.append(range);
                }
                None => break,
            }
        }
        Ok(ranges)
    }

    /// Passes over the next blocks of one extent, at most so many; `None` where there are none.
    fn next_range(&mut self, most: u64) -> Option<Range>
        ensures next { IfSome result (λ range. ranges_between self.old.extents self.old.place (self.old.place + most)
            ≡ range ∷ ranges_between self.old.extents (self.old.place + range.count) (self.old.place + most)) }
        ensures passed { IfSome result (λ range. self.new ≡ record self.old { place = self.old.place + range.count }) }
        ensures within { IfSome result (λ range. range.count ≤ most) }
        ensures there { self.old.place ≤ total self.old.extents }
        ensures none { IfNone result (ranges_between self.old.extents self.old.place (self.old.place + most) ≡ []) }
        ensures same { IfNone result (self.new ≡ self.old) }
    {
        if self.index == self.extents.len() {
            return None;
        }
        let extent = self.extents[self.index];
        let left = extent.count - self.passed;
        let count = u64::from(left).min(most) as u32;
        if count == 0 {
            return None;
        }
        let lba = extent.lba + u64::from(self.passed);
        self.place += u64::from(count);
        if count == left {
            self.index += 1;
            self.passed = 0;
        } else {
            self.passed += count;
        }
        Some(Range { lba, count })
    }
}
