ghost use Rattle.std.specs.Prelude.{◌≡◌, ◌<◌, ◌≤◌, ◌+◌, ◌++◌, ◌∷◌, [], length, IfOk, OnOk, OnErr, IfSome, IfNone};

use crate::ranges::Range;
use cm_base::OutOfMemory;
use smallvec::SmallVec;
use std::alloc::Global;
use std::marker::Model;

/// At most 64 ranges with their room. Contracts see the ranges, and how many more have room.
/// Most lists have one range, for which there is room in the value itself.
#[derive(Drop)]
pub struct RangeListRoom {
    ranges: SmallVec<Range, 1>,
}

impl Model for RangeListRoom {
    ghost use Rattle.std.specs.Prelude.{◌≤◌, ◌-◌, length};
    ghost use Rattle.cm_base.specs.Roomy.{Roomy};
    ghost use Rattle.lba_ranges.specs.declared.ranges.Range.{Range};

    ghost Value = { Roomy Range };

    ghost view = { λ r. record {
      items = r.ranges.items;
      spare = r.ranges.capacity - length r.ranges.items;
    } };

    ghost invariant = { λ r. length r.ranges.items ≤ 64 };
}

impl RangeListRoom {
    /// No ranges. It takes no memory.
    pub(crate) fn empty(alloc: Global) -> RangeListRoom
        ensures { result.items ≡ [] }
    {
        RangeListRoom {
            ranges: SmallVec::new(alloc),
        }
    }

    /// Equal ranges. One range takes no memory.
    pub(crate) fn copy(&self, alloc: Global) -> Result<RangeListRoom, OutOfMemory>
        ensures { IfOk result (λ room. room.items ≡ self.now.items) }
    {
        let ranges = SmallVec::from_slice(alloc, self.as_slice())?;
        Ok(RangeListRoom { ranges })
    }

    /// The ranges in order. It takes no memory.
    pub(crate) fn as_slice(&self) -> &[Range]
        ensures ranges { result.now ≡ self.now.items }
        ensures few { length result.now ≤ 64 }
    {
        self.ranges.as_slice()
    }

    /// How many ranges there are, at most 64. It takes no memory.
    pub fn len(&self) -> usize
        ensures length { result ≡ length self.now.items }
        ensures few { result ≤ 64 }
    {
        self.ranges.len()
    }

    /// How many more ranges have room. It takes no memory.
    pub fn spare(&self) -> u64
        ensures { result ≡ self.now.spare }
    {
        (self.ranges.capacity() - self.ranges.len()) as u64
    }

    /// Makes room for so many more ranges; where there is so much room it takes no memory. At `OutOfMemory` the room is as before.
    pub fn reserve(&mut self, more: u64) -> Result<(), OutOfMemory>
        ensures same { self.new.items ≡ self.old.items }
        ensures room { OnOk result (more ≤ self.new.spare) }
        ensures kept { self.old.spare ≤ self.new.spare }
        ensures err { OnErr result (self.new ≡ self.old) }
        ensures needed { OnErr result (self.old.spare < more) }
    {
        if more <= self.spare() {
            return Ok(());
        }
        self.ranges.reserve(more as usize)?;
        Ok(())
    }

    /// Adds a range to the end, for which there is room. It takes no memory.
    pub fn append(&mut self, range: Range)
        requires room { 0 < self.old.spare }
        requires few { length self.old.items < 64 }
        ensures added { self.new.items ≡ self.old.items ++ range ∷ [] }
        ensures room { self.new.spare + 1 ≡ self.old.spare }
    {
        self.ranges.push_reserved(range);
    }

    /// Takes the last range out; `None` exactly where there are none. It takes no memory.
    pub(crate) fn pop(&mut self) -> Option<Range>
        ensures last { IfSome result (λ range. self.old.items ≡ self.new.items ++ range ∷ []) }
        ensures empty { IfNone result ((self.old.items ≡ []) × (self.new.items ≡ [])) }
    {
        self.ranges.pop()
    }
}
