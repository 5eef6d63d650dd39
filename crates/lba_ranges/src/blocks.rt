ghost use Rattle.std.specs.Prelude.{◌≡◌, ◌≢◌, ℕ, ◌+◌, ◌<◌, ◌≤◌, ◌^◌, List, length, map, Option, None, is_some, Bool, false, IfOk, OnOk, OnErr, IfSome, IsTrue};
ghost use Rattle.std.specs.Option.{option_copied};
ghost use Rattle.lba_ranges.specs.declared.ranges.Range.{Range};
ghost use Rattle.lba_ranges.specs.Denoted.{row, blocks_of, total, is_within, is_overlapping};
ghost use Rattle.lba_ranges.specs.Writings.{paired, unmapped, after, mapped_below, mapped_among};
ghost use Rattle.lba_ranges.specs.Versions.{Writers, no_writers, IsNew, with_put, PinsStay, AgreeOn};

use crate::list::BlockList;
use crate::ranges::{Range, RangeList};
use cm_base::OutOfMemory;
use std::alloc::Global;

/// What the blocks of a unit hold, and what live pins show of them. A block is unmapped, and takes
/// no room, until it is written.
pub trait Blocks: Sized {
    // how many blocks there are
    ghost blocks: { Self → ℕ };
    // the bytes of a block
    ghost block_length: { Self → ℕ };
    // the bytes of each block, or `None` where it is unmapped
    ghost holds: { Self → ℕ → Option (List ℕ) };
    // the ranges of each live pin, by its number
    ghost pinned: { Self → ℕ → Option (List Range) };
    // what the pin of a number shows of each block, or `None` where that is unmapped
    ghost shown: { Self → ℕ → ℕ → Option (List ℕ) };
    // what the blocks hold, and what live pins show of them, may have been written by these puts
    ghost written_by: { Self → Writers → Type 0 };

    /// So many blocks of `size` bytes, all unmapped, and no pin.
    fn new(alloc: Global, count: u64, size: u32) -> Result<Self, OutOfMemory>
        requires { 1 ≤ size }
        ensures blocks { IfOk result (λ unit. blocks unit ≡ count) }
        ensures length { IfOk result (λ unit. block_length unit ≡ size) }
        ensures unmapped { IfOk result (λ unit. (block : ℕ) → holds unit block ≡ None) }
        ensures pinned { IfOk result (λ unit. (pin : ℕ) → pinned unit pin ≡ None) }
        ensures written { IfOk result (λ unit. written_by unit no_writers) };

    /// The bytes of a block, or `None` where it is unmapped. It takes no memory.
    fn held(&self, block: u64) -> Option<&[u8]>
        ensures { option_copied result ≡ holds self.now block };

    /// How many blocks are mapped. It takes no memory.
    fn mapped(&self) -> u64
        ensures mapped { result ≡ mapped_below (blocks self.now) (holds self.now) }
        ensures fits { blocks self.now < 2 ^ 64 };

    /// How many blocks of a range are mapped. It takes no memory.
    fn mapped_in(&self, range: Range) -> u64
        requires { range.lba + range.count ≤ blocks self.now }
        ensures { result ≡ mapped_among (holds self.now) (row range.lba range.count) };

    /// The end of the run at a block: up to it all blocks are mapped, or all are unmapped.
    /// It takes no memory.
    fn mapped_until(&self, block: u64) -> u64
        requires { block < blocks self.now }
        ensures some { block < result }
        ensures within { result ≤ blocks self.now }
        ensures alike { (b : ℕ) → block ≤ b → b < result → is_some (holds self.now b) ≡ is_some (holds self.now block) }
        ensures ends { result < blocks self.now → is_some (holds self.now result) ≢ is_some (holds self.now block) };

    /// Gives each denoted block the item at its place. At `OutOfMemory` each block holds what it held.
    /// Each live pin shows what it showed.
    fn put(&mut self, ranges: &RangeList, list: &BlockList) -> Result<(), OutOfMemory>
        requires within { IsTrue (is_within (blocks self.old) ranges.now) }
        requires apart { is_overlapping ranges.now ≡ false }
        requires total { total ranges.now ≡ length list.now.items }
        requires size { list.now.block_length ≡ block_length self.old }
        ensures put { OnOk result ((block : ℕ) → holds self.new block
            ≡ after (paired (blocks_of ranges.now) list.now.items) block (holds self.old block)) }
        ensures err { OnErr result ((block : ℕ) → holds self.new block ≡ holds self.old block) }
        ensures written { OnOk result ((w : Writers) (number : ℕ) → written_by self.old w → IsNew (blocks self.old) (pinned self.old) w number
            → written_by self.new (with_put (paired (blocks_of ranges.now) list.now.items) number w)) }
        ensures writers { OnErr result ((w : Writers) → written_by self.old w → written_by self.new w) }
        ensures pins { PinsStay (pinned self.old) (shown self.old) (pinned self.new) (shown self.new) }
        ensures blocks { blocks self.new ≡ blocks self.old }
        ensures length { block_length self.new ≡ block_length self.old };

    /// Unmaps each denoted block; the ranges may overlap. At `OutOfMemory` each block holds what it held.
    /// Each live pin shows what it showed.
    fn clear(&mut self, ranges: &RangeList) -> Result<(), OutOfMemory>
        requires { IsTrue (is_within (blocks self.old) ranges.now) }
        ensures cleared { OnOk result ((block : ℕ) → holds self.new block
            ≡ after (unmapped (blocks_of ranges.now)) block (holds self.old block)) }
        ensures err { OnErr result ((block : ℕ) → holds self.new block ≡ holds self.old block) }
        ensures written { OnOk result ((w : Writers) (number : ℕ) → written_by self.old w
            → written_by self.new (with_put (unmapped (blocks_of ranges.now)) number w)) }
        ensures writers { OnErr result ((w : Writers) → written_by self.old w → written_by self.new w) }
        ensures pins { PinsStay (pinned self.old) (shown self.old) (pinned self.new) (shown self.new) }
        ensures blocks { blocks self.new ≡ blocks self.old }
        ensures length { block_length self.new ≡ block_length self.old };

    /// The denoted blocks as they stand, in order. The list shares their bytes.
    fn cut(&self, alloc: Global, ranges: &RangeList) -> Result<BlockList, OutOfMemory>
        requires { IsTrue (is_within (blocks self.now) ranges.now) }
        ensures { IfOk result (λ list. list
            ≡ record { block_length = block_length self.now; items = map (holds self.now) (blocks_of ranges.now) }) };

    // it does not matter who wrote what no live pin shows any more
    ghost alike: { (unit : Self) (w v : Writers) → written_by unit w → AgreeOn (pinned unit) w v → written_by unit v };
}
