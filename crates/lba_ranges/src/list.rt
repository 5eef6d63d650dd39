ghost use Rattle.std.specs.Prelude.{◌≡◌, ◌-◌, IfSome, true, false, ◌+◌, ◌*◌, ◌<◌, ◌≤◌, ◌^◌, ◌++◌, [], List, ℕ, length, slice_range, IfOk, OnOk, OnErr, is_some};
ghost use Rattle.std.specs.Option.{option_copied};
ghost use Rattle.std.specs.List.{list_all, count_by};
ghost use Rattle.lba_ranges.specs.inner.Runs.{pieces_of};
ghost use Rattle.lba_ranges.specs.inner.HeldBlocks.{items_of, AllFull};
ghost use Rattle.lba_ranges.specs.HeldBlocks.{HeldBlocks, filled, cut_into, IsFull, held_at, AllSized, blocks_bytes};

use crate::fill::{Fill, Piece};
use crate::runs::{PlacedPiece, Runs, first_after, move_ends, push_joined};
use cm_base::{Bytes, OutOfMemory, Payload};
use smallvec::SmallVec;
use std::alloc::Global;
use std::marker::Model;

/// A list of blocks, each of which holds bytes or is unmapped. A list of one run takes no memory but its bytes.
#[derive(Drop)]
pub struct BlockList {
    block_length: u32,
    count: u64,
    runs: Runs,
}

impl Model for BlockList {
    ghost use Rattle.std.specs.Prelude.{◌≡◌, length};
    ghost use Rattle.lba_ranges.specs.inner.HeldBlocks.{items_of, AllFull};
    ghost use Rattle.lba_ranges.specs.HeldBlocks.{HeldBlocks};
    ghost use Rattle.lba_ranges.specs.inner.Runs.{pieces_of, Spans};

    ghost Value = { HeldBlocks };

    ghost view = { λ b. record {
      block_length = b.block_length;
      items = items_of b.block_length (pieces_of b.runs.items);
    } };

    ghost invariant = { λ b. (b.count ≡ length (items_of b.block_length (pieces_of b.runs.items)))
        × AllFull b.block_length (pieces_of b.runs.items)
        × Spans 0 b.runs.items b.count };
}

impl BlockList {
    /// The list without blocks; those to come have so many bytes each. It takes no memory.
    pub fn empty(alloc: Global, block_length: u32) -> BlockList
        ensures length { result.block_length ≡ block_length }
        ensures empty { result.items ≡ [] }
    {
        BlockList {
            block_length,
            count: 0,
            runs: SmallVec::new(alloc),
        }
    }

    /// The list of the blocks whose bytes these are, `count` blocks of `block_length` bytes.
    pub fn from_payload(
        alloc: Global,
        block_length: u32,
        count: u32,
        bytes: Payload,
    ) -> Result<BlockList, OutOfMemory>
        requires { length bytes ≡ count * block_length }
        ensures { IfOk result (λ list. list
            ≡ record { block_length = block_length; items = cut_into block_length count bytes }) }
    {
        let mut list = BlockList::empty(alloc, block_length);
        list.push(Piece {
            count,
            fill: Fill::Bytes(bytes),
        })?;
        Ok(list)
    }

    /// An equal list, which shares the bytes.
    pub fn copy(&self, alloc: Global) -> Result<BlockList, OutOfMemory>
        ensures { IfOk result (λ list. list ≡ self.now) }
    {
        self.slice(alloc, 0, self.count)
    }

    /// How many blocks there are; each mapped one has the list's block length. It takes no memory.
    pub fn blocks(&self) -> u64
        ensures count { result ≡ length self.now.items }
        ensures sized { AllSized self.now.block_length self.now.items }
    {
        self.count
    }

    /// Each block is mapped. It takes no memory.
    pub fn is_mapped(&self) -> bool
        ensures { result ≡ list_all is_some self.now.items }
    {
        for run in self.runs.as_slice() {
            if !run.piece.is_mapped(self.block_length) {
                return false;
            }
        }
        true
    }

    /// How many blocks are mapped. It takes no memory.
    pub fn mapped(&self) -> u64
        ensures { result ≡ count_by is_some self.now.items }
    {
        let _all = self.count;
        let mut blocks = 0;
        for run in self.runs.as_slice() {
            blocks += u64::from(run.piece.mapped());
        }
        blocks
    }

    /// The bytes of a block. It takes no memory.
    pub fn block_length(&self) -> u32
        ensures { result ≡ self.now.block_length }
    {
        self.block_length
    }

    /// Adds the blocks of a run to the end, fewer than 2^64 in all; a hole joins the hole before it.
    /// At `OutOfMemory` the list is as before.
    pub fn push(&mut self, piece: Piece) -> Result<(), OutOfMemory>
        requires full { IsFull self.old.block_length piece.count piece.fill }
        requires room { length self.old.items + piece.count < 2 ^ 64 }
        ensures ok { OnOk result (self.new ≡ record self.old {
          items = self.old.items ++ filled self.old.block_length piece.count piece.fill;
        }) }
        ensures err { OnErr result (self.new ≡ self.old) }
    {
        let end = self.count + u64::from(piece.count);
        push_joined(&mut self.runs, end, piece)?;
        self.count = end;
        Ok(())
    }

    /// The bytes of the block at this place, or `None` where it is unmapped or past the end.
    /// It takes no memory.
    pub fn held(&self, index: u64) -> Option<&[u8]>
        ensures { option_copied result ≡ held_at self.now.items index }
    {
        let runs = self.runs.as_slice();
        let run = runs.get(first_after(runs, index))?;
        run.piece.held(self.block_length, run.place(index))
    }

    /// The piece that has a block of the list, and the block's place in it. It takes no memory.
    pub(crate) fn piece_at(&self, index: u64) -> (&Piece, u32)
        requires { index < length self.now.items }
        ensures place { result.1 < result.0.now.count }
        ensures full { IsFull self.now.block_length result.0.now.count result.0.now.fill }
        ensures within { index + (result.0.now.count - result.1) ≤ length self.now.items }
        ensures part { (count : ℕ) → result.1 + count ≤ result.0.now.count
            → slice_range (filled self.now.block_length result.0.now.count result.0.now.fill) result.1 (result.1 + count)
            ≡ slice_range self.now.items index (index + count) }
    {
        let _block_length = self.block_length;
        let runs = self.runs.as_slice();
        let run = &runs[first_after(runs, index)];
        (&run.piece, run.place(index))
    }

    /// What each block holds. The items share the list's bytes.
    pub fn items(&self, alloc: Global) -> Result<Vec<Option<Payload>>, OutOfMemory>
        ensures items { IfOk result (λ v. v.items ≡ self.now.items) }
        ensures sized { IfOk result (λ v. AllSized self.now.block_length v.items) }
    {
        let mut items = Vec::new(alloc);
        for run in self.runs.as_slice() {
            run.piece.push_items(self.block_length, &mut items)?;
        }
        Ok(items)
    }

    /// Adds the bytes of all blocks to the end; an unmapped block's are zeros.
    /// At `OutOfMemory` some of them may have been added.
    pub fn read_into(&self, into: &mut Bytes) -> Result<(), OutOfMemory>
        ensures ok { OnOk result (into.new ≡ into.old ++ blocks_bytes self.now) }
        ensures err { OnErr result ((part : List ℕ) × (into.new ≡ into.old ++ part)) }
        ensures length { length (blocks_bytes self.now) ≡ length self.now.items * self.now.block_length }
    {
        for run in self.runs.as_slice() {
            run.piece.read_into(self.block_length, into)?;
        }
        Ok(())
    }

    /// The bytes of all blocks, where they stand in one piece.
    fn whole(&self) -> Option<&Payload>
        ensures { IfSome result (λ bytes. bytes.now ≡ blocks_bytes self.now) }
    {
        let [run] = self.runs.as_slice() else {
            return None;
        };
        match &run.piece.fill {
            Fill::Hole => None,
            Fill::Bytes(bytes) => Some(bytes),
        }
    }

    /// The bytes of all blocks; an unmapped block's are zeros. They are shared where they stand in
    /// one piece, and gathered otherwise.
    pub fn payload(&self, alloc: Global) -> Result<Payload, OutOfMemory>
        ensures bytes { IfOk result (λ bytes. bytes ≡ blocks_bytes self.now) }
        ensures length { length (blocks_bytes self.now) ≡ length self.now.items * self.now.block_length }
    {
        let _block_length = self.block_length;
        if let Some(bytes) = self.whole() {
            return Ok(bytes.clone()?);
        }
        let mut bytes = Bytes::empty(alloc);
        self.read_into(&mut bytes)?;
        Ok(Payload::from_vec(bytes.into_vec())?)
    }

    /// Adds some blocks of a run, which share its bytes.
    fn push_part(&mut self, piece: &Piece, from: u32, count: u32) -> Result<(), OutOfMemory>
        requires full { IsFull self.old.block_length piece.now.count piece.now.fill }
        requires within { from + count ≤ piece.now.count }
        requires room { length self.old.items + count < 2 ^ 64 }
        ensures ok { OnOk result (self.new ≡ record self.old {
          items = self.old.items
              ++ slice_range (filled self.old.block_length piece.now.count piece.now.fill) from (from + count);
        }) }
    {
        if count == 0 {
            return Ok(());
        }
        let part = piece.part(self.block_length, from, count)?;
        self.push(part)
    }

    /// Adds blocks of runs, which share their bytes: `count` of them, after the first `skip`.
    fn push_window(
        &mut self,
        runs: &[PlacedPiece],
        skip: u64,
        count: u64,
    ) -> Result<(), OutOfMemory>
        requires full { AllFull self.old.block_length (pieces_of runs.now) }
        requires within { skip + count ≤ length (items_of self.old.block_length (pieces_of runs.now)) }
        requires room { length self.old.items + count < 2 ^ 64 }
        ensures { OnOk result (self.new ≡ record self.old {
          items = self.old.items ++ slice_range (items_of self.old.block_length (pieces_of runs.now)) skip (skip + count);
        }) }
    {
        let mut skip = skip;
        let mut left = count;
        for run in runs {
            if left == 0 {
                return Ok(());
            }
            let whole = u64::from(run.piece.count);
            let before = skip.min(whole);
            let taken = left.min(whole - before);
            self.push_part(&run.piece, before as u32, taken as u32)?;
            skip -= before;
            left -= taken;
        }
        Ok(())
    }

    /// Some blocks of the list, which share its bytes.
    pub fn slice(&self, alloc: Global, from: u64, count: u64) -> Result<BlockList, OutOfMemory>
        requires { from + count ≤ length self.now.items }
        ensures { IfOk result (λ r. r ≡ record self.now { items = slice_range self.now.items from (from + count) }) }
    {
        if count == 0 {
            return Ok(BlockList::empty(alloc, self.block_length));
        }
        let runs = self.runs.as_slice();
        let first = first_after(runs, from);
        let mut list = BlockList::empty(alloc, self.block_length);
        let skip = runs[first].place(from);
        list.push_window(&runs[first..], u64::from(skip), count)?;
        Ok(list)
    }

    /// Adds all blocks of another list to the end. At `OutOfMemory` the list is as before.
    pub fn append(&mut self, other: BlockList) -> Result<(), OutOfMemory>
        requires size { self.old.block_length ≡ other.block_length }
        requires room { length self.old.items + length other.items < 2 ^ 64 }
        ensures ok { OnOk result (self.new ≡ record self.old { items = self.old.items ++ other.items }) }
        ensures err { OnErr result (self.new ≡ self.old) }
    {
        let BlockList {
            mut runs,
            count,
            ..
        } = other;
        move_ends(&mut runs, self.count);
        self.runs.append(&mut runs)?;
        self.count += count;
        Ok(())
    }
}
