ghost use Rattle.std.specs.Prelude.{◌≡◌, ℕ, ◌+◌, ◌*◌, ◌<◌, ◌≤◌, ◌^◌, ◌++◌, ◌∷◌, [], length, get_or, slice_get, slice_range, OnOk, OnErr, IfOk, IfSome, IfNone, IsTrue};
ghost use Rattle.std.specs.Borrow.{sem};
ghost use Rattle.std.specs.List.{list_any};
ghost use Rattle.lba_ranges.specs.Denoted.{row, blocks_of, total, is_within, is_overlapping};
ghost use Rattle.lba_ranges.specs.inner.Denoted.{meets};
ghost use Rattle.lba_ranges.specs.Lending.{LendsRoom};

use crate::room::RangeListRoom;
use cm_base::OutOfMemory;
use std::alloc::Global;
use std::marker::Model;

/// Some blocks in a row.
#[derive(Drop, Clone, Copy, Default)]
pub struct Range {
    pub lba: u64,
    pub count: u32,
}

impl Range {
    /// Adds the numbers of the range's blocks to the end.
    fn push_blocks(&self, blocks: &mut Vec<u64>) -> Result<(), OutOfMemory>
        requires { self.now.lba + self.now.count ≤ 2 ^ 64 }
        ensures { OnOk result (blocks.new.items ≡ blocks.old.items ++ row self.now.lba self.now.count) }
    {
        for index in 0..self.count {
            blocks.push(self.lba + u64::from(index))?;
        }
        Ok(())
    }

    /// A block is in both ranges.
    fn meets(&self, other: &Range) -> bool
        ensures { result ≡ meets self.now other.now }
    {
        if self.lba <= other.lba {
            other.count > 0 && other.lba - self.lba < u64::from(self.count)
        } else {
            self.count > 0 && self.lba - other.lba < u64::from(other.count)
        }
    }

    /// A block is in this range and in one of the others.
    fn meets_any(&self, others: &[Range]) -> bool
        ensures { result ≡ list_any (λ other. meets self.now other) others.now }
    {
        others.iter().any(|other| self.meets(other))
    }
}

/// At most 64 ranges.
#[derive(Drop)]
pub struct RangeList {
    room: RangeListRoom,
}

impl Model for RangeList {
    ghost use Rattle.std.specs.Prelude.{List};
    ghost use Rattle.lba_ranges.specs.declared.ranges.Range.{Range};

    ghost Value = { List Range };

    ghost view = { λ l. l.room.items };
}

impl RangeList {
    /// The list without ranges. It takes no memory.
    pub fn empty(alloc: Global) -> RangeList
        ensures { result ≡ [] }
    {
        RangeList {
            room: RangeListRoom::empty(alloc),
        }
    }

    /// The ranges in order. It takes no memory.
    fn as_slice(&self) -> &[Range]
        ensures ranges { result.now ≡ self.now }
        ensures few { length result.now ≤ 64 }
    {
        self.room.as_slice()
    }

    /// How many ranges there are, at most 64. It takes no memory.
    pub fn len(&self) -> usize
        ensures length { result ≡ length self.now }
        ensures few { result ≤ 64 }
    {
        self.room.len()
    }

    /// The range at this place; the first is at 0. It takes no memory.
    pub fn at(&self, index: usize) -> Range
        requires { index < length self.now }
        ensures { slice_get self.now index ≡ Some result }
    {
        self.as_slice()[index]
    }

    /// Makes room for so many more ranges, and lends the list with its room.
    /// At `OutOfMemory` the list is as before.
    pub fn reserve(&mut self, more: u64) -> Result<&mut RangeListRoom, OutOfMemory>
        ensures* lent { sem 𝓛 (LendsRoom self.entry result) }
        ensures same { IfOk result (λ room. room.now.items ≡ self.old) }
        ensures room { IfOk result (λ room. more ≤ room.now.spare) }
    {
        let room = &mut self.room;
        room.reserve(more)?;
        Ok(room)
    }

    /// Adds a range to the end, as one of at most 64. At `OutOfMemory` the list is as before.
    pub fn push(&mut self, range: Range) -> Result<(), OutOfMemory>
        requires { length self.old < 64 }
        ensures ok { OnOk result (self.new ≡ self.old ++ range ∷ []) }
        ensures err { OnErr result (self.new ≡ self.old) }
    {
        self.reserve(1)?.append(range);
        Ok(())
    }

    /// Takes the last range out; `None` exactly where the list is empty. It takes no memory.
    pub fn pop(&mut self) -> Option<Range>
        ensures last { IfSome result (λ range. self.old ≡ self.new ++ range ∷ []) }
        ensures empty { IfNone result ((self.old ≡ []) × (self.new ≡ [])) }
    {
        self.room.pop()
    }

    /// How many blocks the ranges denote, a block once for each range that it is in.
    /// It takes no memory.
    pub fn total(&self) -> u64
        ensures total { result ≡ total self.now }
        ensures few { result ≤ 64 * 4_294_967_295 }
    {
        let mut blocks = 0;
        for range in self.as_slice() {
            blocks += u64::from(range.count);
        }
        blocks
    }

    /// The numbers of the blocks that the ranges denote, in order.
    pub fn blocks(&self, alloc: Global) -> Result<Vec<u64>, OutOfMemory>
        requires { IsTrue (is_within (2 ^ 64) self.now) }
        ensures { IfOk result (λ blocks. blocks.items ≡ blocks_of self.now) }
    {
        let mut blocks = Vec::new(alloc);
        for range in self.as_slice() {
            range.push_blocks(&mut blocks)?;
        }
        Ok(blocks)
    }

    /// The number of the block at this place. It takes no memory.
    pub fn block(&self, place: u64) -> u64
        requires within { place < total self.now }
        requires numbers { IsTrue (is_within (2 ^ 64) self.now) }
        ensures { result ≡ get_or (blocks_of self.now) place 0 }
    {
        let mut left = place;
        for range in self.as_slice() {
            if left < u64::from(range.count) {
                return range.lba + left;
            }
            left -= u64::from(range.count);
        }
        unreachable!()
    }

    /// Two places of the list denote one block. It takes no memory.
    pub fn overlap(&self) -> bool
        ensures { result ≡ is_overlapping self.now }
    {
        let ranges = self.as_slice();
        for index in 0..ranges.len() {
            let range = self.at(index);
            if range.meets_any(&ranges[index + 1..]) {
                return true;
            }
        }
        false
    }

    /// Every range ends within so many blocks. It takes no memory.
    pub fn within(&self, blocks: u64) -> bool
        ensures { result ≡ is_within blocks self.now }
    {
        for range in self.as_slice() {
            if range.lba > blocks || u64::from(range.count) > blocks - range.lba {
                return false;
            }
        }
        true
    }

    /// Adds some blocks of a range; an empty part adds nothing.
    fn push_part(&mut self, range: &Range, from: u32, count: u32) -> Result<(), OutOfMemory>
        requires few { length self.old < 64 }
        requires within { from + count ≤ range.now.count }
        requires numbers { range.now.lba + range.now.count ≤ 2 ^ 64 }
        ensures blocks { OnOk result (blocks_of self.new
            ≡ blocks_of self.old ++ slice_range (row range.now.lba range.now.count) from (from + count)) }
        ensures few { length self.new ≤ length self.old + 1 }
        ensures within { OnOk result ((blocks : ℕ) → IsTrue (is_within blocks self.old)
            → range.now.lba + range.now.count ≤ blocks → IsTrue (is_within blocks self.new)) }
    {
        if count == 0 {
            return Ok(());
        }
        let lba = range.lba + u64::from(from);
        self.push(Range { lba, count })?;
        Ok(())
    }

    /// The ranges of some of the blocks that the list denotes, none of them empty.
    pub fn slice(&self, alloc: Global, from: u64, count: u64) -> Result<RangeList, OutOfMemory>
        requires part { from + count ≤ total self.now }
        requires numbers { IsTrue (is_within (2 ^ 64) self.now) }
        ensures blocks { IfOk result (λ part. blocks_of part ≡ slice_range (blocks_of self.now) from (from + count)) }
        ensures within { IfOk result (λ part. (blocks : ℕ) → IsTrue (is_within blocks self.now) → IsTrue (is_within blocks part)) }
    {
        let mut part = RangeList::empty(alloc);
        let mut skip = from;
        let mut left = count;
        for range in self.as_slice() {
            let whole = u64::from(range.count);
            let before = skip.min(whole);
            let taken = left.min(whole - before);
            part.push_part(range, before as u32, taken as u32)?;
            skip -= before;
            left -= taken;
        }
        Ok(part)
    }

    /// An equal list.
    pub fn copy(&self, alloc: Global) -> Result<RangeList, OutOfMemory>
        ensures { IfOk result (λ l. l ≡ self.now) }
    {
        Ok(RangeList {
            room: self.room.copy(alloc)?,
        })
    }
}
