ghost use Rattle.std.specs.Prelude.{◌≡◌, ◌≢◌, ℕ, ◌+◌, ◌<◌, ◌≤◌, ◌^◌, ◌++◌, ◌∷◌, [], length, map, None, is_some, IfOk, OnOk, OnErr, IfSome, IsTrue, false};
ghost use Rattle.std.specs.Option.{option_copied};
ghost use Rattle.lba_ranges.specs.HeldBlocks.{IsFull, filled};
ghost use Rattle.lba_ranges.specs.Denoted.{row, blocks_of, total, is_within, is_overlapping};
ghost use Rattle.lba_ranges.specs.Writings.{paired, unmapped, after, mapped_below, mapped_among};
ghost use Rattle.lun_plain.specs.Plain.{stored};

use crate::map::{self, Stored};
use cm_base::OutOfMemory;
use lba_ranges::{BlockList, Blocks, Fill, Piece, Range, RangeList};
use std::alloc::Global;
use std::collections::BTreeMap;
use std::marker::Model;

/// The blocks of a unit, kept in a map from each mapped block to its bytes.
#[derive(Drop)]
pub struct PlainUnit {
    alloc: Global,
    blocks: u64,
    block_length: u32,
    held: Stored,
}

impl Model for PlainUnit {
    ghost use Rattle.lun_plain.specs.Plain.{Plain};
    ghost use Rattle.lun_plain.specs.inner.Plain.{IsPlain};

    ghost Value = { Plain };

    ghost view = { λ u. record { blocks = u.blocks; block_length = u.block_length; entries = u.held.entries } };

    ghost invariant = { λ u. IsPlain u.blocks u.block_length u.held.entries };
}

impl PlainUnit {
    /// A block as it stands, which shares its bytes.
    fn piece(&self, block: u64) -> Result<Piece, OutOfMemory>
        ensures count { IfOk result (λ piece. piece.count ≡ 1) }
        ensures full { IfOk result (λ piece. IsFull self.now.block_length 1 piece.fill) }
        ensures held { IfOk result (λ piece. filled self.now.block_length 1 piece.fill ≡ stored self.now.entries block ∷ []) }
    {
        let _ = &self.blocks;
        let fill = match self.held.get(&block) {
            Some(bytes) => Fill::Bytes(bytes.clone()?),
            None => Fill::Hole,
        };
        Ok(Piece { count: 1, fill })
    }

    /// Adds the blocks of a range as they stand.
    fn cut_row(&self, list: &mut BlockList, range: Range) -> Result<(), OutOfMemory>
        requires numbers { range.lba + range.count ≤ 2 ^ 64 }
        requires size { list.old.block_length ≡ self.now.block_length }
        requires room { length list.old.items + range.count < 2 ^ 64 }
        ensures size { list.new.block_length ≡ list.old.block_length }
        ensures items { OnOk result (list.new.items ≡ list.old.items ++ map (stored self.now.entries) (row range.lba range.count)) }
    {
        for index in 0..range.count {
            list.push(self.piece(range.lba + u64::from(index))?)?;
        }
        Ok(())
    }
}

impl Blocks for PlainUnit {
    ghost blocks = { λ u. u.blocks };

    ghost block_length = { λ u. u.block_length };

    ghost holds = { λ u. stored u.entries };

    // no pin is made of it
    ghost pinned = { λ u pin. None };

    ghost shown = { λ u pin block. None };

    ghost written_by = { λ u w. Unit {0} };

    fn new(alloc: Global, count: u64, size: u32) -> Result<PlainUnit, OutOfMemory> {
        Ok(PlainUnit {
            alloc,
            blocks: count,
            block_length: size,
            held: BTreeMap::new(alloc),
        })
    }

    fn held(&self, block: u64) -> Option<&[u8]> {
        match self.held.get(&block) {
            Some(bytes) => Some(bytes.as_slice()),
            None => None,
        }
    }

    fn mapped(&self) -> u64 {
        let _blocks = self.blocks;
        self.held.len() as u64
    }

    fn mapped_in(&self, range: Range) -> u64 {
        let _blocks = self.blocks;
        map::stored_in(&self.held, range.lba, range.count)
    }

    fn mapped_until(&self, block: u64) -> u64 {
        if self.held.contains_key(&block) {
            map::end_of_run(&self.held, block, self.blocks)
        } else {
            map::first_of(&self.held, block, self.blocks).unwrap_or(self.blocks)
        }
    }

    fn put(&mut self, ranges: &RangeList, list: &BlockList) -> Result<(), OutOfMemory> {
        let blocks = ranges.blocks(self.alloc)?;
        let items = list.items(self.alloc)?;
        if let Err(refused) = map::make_rooms(&mut self.held, &blocks) {
            map::drop_rooms(&mut self.held, &blocks);
            return Err(refused);
        }
        map::set_all(&mut self.held, &blocks, items);
        Ok(())
    }

    fn clear(&mut self, ranges: &RangeList) -> Result<(), OutOfMemory> {
        for index in 0..ranges.len() {
            let range = ranges.at(index);
            map::clear_row(&mut self.held, range.lba, range.count);
        }
        Ok(())
    }

    fn cut(&self, alloc: Global, ranges: &RangeList) -> Result<BlockList, OutOfMemory> {
        let _blocks = self.blocks;
        let _total = ranges.total();
        let mut list = BlockList::empty(alloc, self.block_length);
        for index in 0..ranges.len() {
            self.cut_row(&mut list, ranges.at(index))?;
        }
        Ok(list)
    }

    ghost alike = { λ u w v by agree. by };
}
