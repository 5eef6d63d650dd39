ghost use Rattle.std.specs.Prelude.{◌≡◌, ◌+◌, ◌<◌, ◌≤◌, length, slice_range, IfOk};
ghost use Rattle.lba_ranges.specs.HeldBlocks.{filled, IsFull};

use crate::fill::Piece;
use crate::list::BlockList;
use cm_base::OutOfMemory;

impl BlockList {
    /// The blocks from a place on that lie in one piece, at most `most` of them; they share its bytes.
    pub fn run(&self, from: u64, most: u32) -> Result<Piece, OutOfMemory>
        requires within { from < length self.now.items }
        requires some { 0 < most }
        ensures some { IfOk result (λ run. 0 < run.count) }
        ensures most { IfOk result (λ run. run.count ≤ most) }
        ensures within { IfOk result (λ run. from + run.count ≤ length self.now.items) }
        ensures full { IfOk result (λ run. IsFull self.now.block_length run.count run.fill) }
        ensures items { IfOk result (λ run. filled self.now.block_length run.count run.fill
            ≡ slice_range self.now.items from (from + run.count)) }
    {
        let (piece, place) = self.piece_at(from);
        let run = piece.part(self.block_length(), place, most.min(piece.count - place))?;
        Ok(run)
    }
}
