ghost use Rattle.std.specs.Prelude.{◌≡◌, ℕ, List, length, map, Some, None, IsSome, false, IfOk, OnErr, IsTrue};
ghost use Rattle.lba_ranges.specs.declared.ranges.Range.{Range};
ghost use Rattle.lba_ranges.specs.Denoted.{blocks_of, denotes, is_within, is_overlapping};
ghost use Rattle.lba_ranges.specs.Versions.{Version, Writers, AreKept, without_repeats, with_pin, with_ranges};

use crate::blocks::Blocks;
use crate::list::BlockList;
use crate::ranges::RangeList;
use cm_base::OutOfMemory;
use std::alloc::Global;

/// Blocks of which pins can be made. A pin shows the blocks of its ranges as they stood when it was
/// made, until it ends. It takes room only for what was written over since.
pub trait Pins: Blocks {
    /// What stands for a live pin.
    type Pin;

    // the number of a pin
    ghost number: { Self.Pin → ℕ };

    /// Makes a pin, whose number was not live. It shows the blocks of the ranges as they stand.
    /// At `OutOfMemory` no pin is made, and each live pin shows what it showed.
    fn pin(&mut self, ranges: &RangeList) -> Result<Self::Pin, OutOfMemory>
        requires within { IsTrue (is_within (Self.blocks self.old) ranges.now) }
        requires apart { is_overlapping ranges.now ≡ false }
        ensures vacant { IfOk result (λ pin. Self.pinned self.old (number pin) ≡ None) }
        ensures pinned { IfOk result (λ pin. (other : ℕ) → Self.pinned self.new other ≡ with_ranges (number pin) (Some ranges.now) (Self.pinned self.old) other) }
        ensures shows { IfOk result (λ pin. (block : ℕ) → IsTrue (denotes ranges.now block) → Self.shown self.new (number pin) block ≡ Self.holds self.old block) }
        ensures others { (other : ℕ) (its : List Range) (block : ℕ) → Self.pinned self.old other ≡ Some its → IsTrue (denotes its block)
            → Self.shown self.new other block ≡ Self.shown self.old other block }
        ensures written { IfOk result (λ pin. (w : Writers) → Self.written_by self.old w → Self.written_by self.new (with_pin (number pin) w)) }
        ensures none { OnErr result ((other : ℕ) → Self.pinned self.new other ≡ Self.pinned self.old other) }
        ensures same { OnErr result ((w : Writers) → Self.written_by self.old w → Self.written_by self.new w) }
        ensures holds { (block : ℕ) → Self.holds self.new block ≡ Self.holds self.old block }
        ensures blocks { Self.blocks self.new ≡ Self.blocks self.old }
        ensures length { Self.block_length self.new ≡ Self.block_length self.old };

    /// The blocks of the ranges as a live pin shows them, in order. What it shows of blocks that
    /// it does not cover may change at each call. The list shares their bytes.
    fn cut_at(
        &self,
        alloc: Global,
        pin: &Self::Pin,
        ranges: &RangeList,
    ) -> Result<BlockList, OutOfMemory>
        requires live { IsSome (Self.pinned self.now (number pin.now)) }
        requires within { IsTrue (is_within (Self.blocks self.now) ranges.now) }
        ensures { IfOk result (λ list. list
            ≡ record { block_length = Self.block_length self.now; items = map (Self.shown self.now (number pin.now)) (blocks_of ranges.now) }) };

    /// Ends a live pin, so that no version is kept for it any more. It takes no memory.
    fn unpin(&mut self, pin: Self::Pin)
        requires { IsSome (Self.pinned self.old (number pin)) }
        ensures pinned { (other : ℕ) → Self.pinned self.new other ≡ with_ranges (number pin) None (Self.pinned self.old) other }
        ensures shows { (other : ℕ) (ranges : List Range) (block : ℕ) → Self.pinned self.new other ≡ Some ranges → IsTrue (denotes ranges block)
            → Self.shown self.new other block ≡ Self.shown self.old other block }
        ensures written { (w : Writers) → Self.written_by self.old w → Self.written_by self.new w }
        ensures holds { (block : ℕ) → Self.holds self.new block ≡ Self.holds self.old block }
        ensures blocks { Self.blocks self.new ≡ Self.blocks self.old }
        ensures length { Self.block_length self.new ≡ Self.block_length self.old };

    /// How many versions are kept, in blocks: those that are current or that a live pin shows, each
    /// once. It takes no memory.
    fn stored(&self) -> u64
        ensures { (w : Writers) (vs : List Version) → Self.written_by self.now w → AreKept (Self.blocks self.now) (Self.pinned self.now) w vs
            → result ≡ length (without_repeats vs) };
}
