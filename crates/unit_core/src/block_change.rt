ghost use Rattle.std.specs.Prelude.{◌≡◌, ℕ, OnOk, OnErr, false, true};
ghost use Rattle.lba_ranges.specs.Versions.{Writers, IsNew, PinsStay, with_put};
ghost use Rattle.lba_ranges.specs.Writings.{after};
ghost use Rattle.unit_core.specs.inner.BlockChanges.{writings_of, MayChange, is_nothing};

use cm_base::OutOfMemory;
use lba_ranges::{BlockList, Blocks, RangeList};

/// What an act is to write to the blocks. Lists of the act itself stay where they are.
#[derive(Drop)]
pub(crate) enum BlockChange<'a> {
    Nothing,
    /// The list of an act.
    Put {
        ranges: RangeList,
        list: &'a BlockList,
    },
    /// The next piece of an operation.
    PutPiece {
        ranges: RangeList,
        list: BlockList,
    },
    Clear {
        ranges: &'a RangeList,
    },
}

impl BlockChange<'_> {
    /// Writes the change. At `OutOfMemory` each block holds what it held.
    pub(crate) fn apply<B: Blocks>(&self, blocks: &mut B) -> Result<(), OutOfMemory>
        requires { MayChange (B.blocks blocks.old) (B.block_length blocks.old) self.now }
        ensures wrote { OnOk result ((block : ℕ) → B.holds blocks.new block ≡ after (writings_of self.now) block (B.holds blocks.old block)) }
        ensures err { OnErr result ((block : ℕ) → B.holds blocks.new block ≡ B.holds blocks.old block) }
        ensures some { OnErr result (is_nothing self.now ≡ false) }
        ensures written { OnOk result ((w : Writers) (put : ℕ) → B.written_by blocks.old w → IsNew (B.blocks blocks.old) (B.pinned blocks.old) w put
            → B.written_by blocks.new (with_put (writings_of self.now) put w)) }
        ensures writers { OnErr result ((w : Writers) → B.written_by blocks.old w → B.written_by blocks.new w) }
        ensures quiet { is_nothing self.now ≡ true → (w : Writers) → B.written_by blocks.old w → B.written_by blocks.new w }
        ensures blocks { B.blocks blocks.new ≡ B.blocks blocks.old }
        ensures length { B.block_length blocks.new ≡ B.block_length blocks.old }
        ensures pins { PinsStay (B.pinned blocks.old) (B.shown blocks.old) (B.pinned blocks.new) (B.shown blocks.new) }
    {
        match self {
            BlockChange::Nothing => Ok(()),
            BlockChange::Put { ranges, list } => blocks.put(ranges, list),
            BlockChange::PutPiece { ranges, list } => blocks.put(ranges, list),
            BlockChange::Clear { ranges } => blocks.clear(ranges),
        }
    }
}
