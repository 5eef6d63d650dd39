ghost use Rattle.std.specs.Prelude.{◌≡◌, ◌≢◌, ℕ, ◌+◌, ◌-◌, ◌<◌, ◌≤◌, ◌^◌, ◌++◌, ◌∷◌, [], length, map, Some, None, is_some, IsSome, IfOk, OnOk, OnErr, IfSome, IsTrue, true, false, if◌then◌else◌};
ghost use Rattle.std.specs.Option.{option_copied};
ghost use Rattle.lba_ranges.specs.HeldBlocks.{IsFull, filled};
ghost use Rattle.lba_ranges.specs.Denoted.{row, blocks_of, total, is_within, is_overlapping};
ghost use Rattle.lba_ranges.specs.Writings.{paired, unmapped, after, mapped_below, mapped_among};
ghost use Rattle.lun_extents.specs.Extents.{stored, held_in};
ghost use Rattle.lun_extents.specs.inner.Runs.{ranges_of, items_of_runs, is_mapped, AreRuns, IsSplitAt, IsAlone, IsClear, HoldsSame};

use crate::map::{self, Occupancy, Stored};
use crate::runs::{self, Filling, has_hole};
use crate::walk;
use cm_base::OutOfMemory;
use lba_ranges::{BlockList, Blocks, Fill, Piece, Range, RangeList};
use std::alloc::Global;
use std::collections::BTreeMap;
use std::marker::Model;

/// The blocks of a unit, kept in extents: runs of mapped blocks whose bytes lie in shared payloads.
#[derive(Drop)]
pub struct ExtentUnit {
    alloc: Global,
    blocks: u64,
    block_length: u32,
    // how many blocks are mapped
    mapped: u64,
    extents: Stored,
}

impl Model for ExtentUnit {
    ghost use Rattle.std.specs.Prelude.{◌≡◌};
    ghost use Rattle.lba_ranges.specs.Writings.{mapped_below};
    ghost use Rattle.lun_extents.specs.Extents.{Extents, held_in};
    ghost use Rattle.lun_extents.specs.inner.Extents.{AreExtents};

    ghost Value = { Extents };

    ghost view = { λ u. record { blocks = u.blocks; block_length = u.block_length; entries = u.extents.entries } };

    ghost invariant = { λ u. AreExtents u.blocks u.block_length u.extents.entries
        × (u.mapped ≡ mapped_below u.blocks (held_in u.block_length u.extents.entries)) };
}

/// How many blocks of a run are to be mapped.
fn mapped_of(run: &Filling) -> u64
    ensures { result ≡ (if is_mapped run.now.fill then run.now.range.count else 0) }
{
    match run.fill {
        Fill::Bytes(_) => u64::from(run.range.count),
        Fill::Hole => 0,
    }
}

impl ExtentUnit {
    /// Adds the blocks of a range as they stand, a piece for each run that the range meets.
    fn cut_range(&self, list: &mut BlockList, range: Range) -> Result<(), OutOfMemory>
        requires numbers { range.lba + range.count < 2 ^ 64 }
        requires size { list.old.block_length ≡ self.now.block_length }
        requires room { length list.old.items + range.count < 2 ^ 64 }
        ensures size { list.new.block_length ≡ list.old.block_length }
        ensures items { OnOk result (list.new.items
            ≡ list.old.items ++ map (held_in self.now.block_length self.now.entries) (row range.lba range.count)) }
    {
        let mut done = 0;
        while done < range.count {
            let at = range.lba + u64::from(done);
            let piece = walk::piece_at(
                &self.extents,
                self.blocks,
                self.block_length,
                at,
                range.count - done,
            )?;
            done += piece.count;
            list.push(piece)?;
        }
        Ok(())
    }

    /// Lets an extent begin at the start and at the end of each range. Each block holds what it
    /// held, at `OutOfMemory` too.
    fn split_at_ranges(&mut self, ranges: &RangeList) -> Result<(), OutOfMemory>
        requires { IsTrue (is_within self.old.blocks ranges.now) }
        ensures splits { OnOk result (IsSplitAt self.new.entries ranges.now) }
        ensures same { HoldsSame self.old self.new }
    {
        for index in 0..ranges.len() {
            let range = ranges.at(index);
            let end = range.lba + u64::from(range.count);
            map::split(&mut self.extents, self.blocks, self.block_length, range.lba)?;
            map::split(&mut self.extents, self.blocks, self.block_length, end)?;
        }
        Ok(())
    }

    /// Lets an extent begin at the start and at the end of each run. Each block holds what it
    /// held, at `OutOfMemory` too.
    fn split_at_fillings(&mut self, runs: &[Filling]) -> Result<(), OutOfMemory>
        requires { AreRuns self.old.blocks self.old.block_length runs.now }
        ensures splits { OnOk result (IsSplitAt self.new.entries (ranges_of runs.now)) }
        ensures same { HoldsSame self.old self.new }
    {
        for run in runs {
            let end = run.range.lba + u64::from(run.range.count);
            map::split(
                &mut self.extents,
                self.blocks,
                self.block_length,
                run.range.lba,
            )?;
            map::split(&mut self.extents, self.blocks, self.block_length, end)?;
        }
        Ok(())
    }

    /// Takes out what is not needed of the extents that begin in the ranges. Each block holds what it held.
    fn remove_empty_extents(&mut self, ranges: &RangeList)
        requires { IsTrue (is_within self.old.blocks ranges.now) }
        ensures { HoldsSame self.old self.new }
    {
        for index in 0..ranges.len() {
            let range = ranges.at(index);
            let end = range.lba + u64::from(range.count);
            map::remove_empty_extents(
                &mut self.extents,
                self.blocks,
                self.block_length,
                range.lba,
                end,
            );
        }
    }

    /// Gives the blocks of a run what they are to hold, where an extent begins at its start and at
    /// its end. It takes no memory.
    fn set_run(&mut self, run: Filling)
        requires some { 1 ≤ run.range.count }
        requires within { run.range.lba + run.range.count ≤ self.old.blocks }
        requires full { IsFull self.old.block_length run.range.count run.fill }
        requires start { IsSome (stored self.old.entries run.range.lba) }
        requires end { IsSome (stored self.old.entries (run.range.lba + run.range.count)) }
        ensures blocks { self.new.blocks ≡ self.old.blocks }
        ensures length { self.new.block_length ≡ self.old.block_length }
        ensures held { (block : ℕ) → held_in self.new.block_length self.new.entries block
            ≡ after (paired (row run.range.lba run.range.count) (filled self.old.block_length run.range.count run.fill)) block
            (held_in self.old.block_length self.old.entries block) }
        ensures below { (b : ℕ) → b ≤ run.range.lba → IsSome (stored self.old.entries b) → IsSome (stored self.new.entries b) }
        ensures above { (b : ℕ) → run.range.lba + run.range.count ≤ b → IsSome (stored self.old.entries b) → IsSome (stored self.new.entries b) }
    {
        let before = self.mapped_in(run.range);
        let now = mapped_of(&run);
        let Filling { range, fill } = run;
        map::set(
            &mut self.extents,
            range.lba,
            Piece {
                count: range.count,
                fill,
            },
        );
        self.mapped = self.mapped - before + now;
    }

    /// Gives the blocks of runs that are apart what they are to hold, where an extent begins at the
    /// start and at the end of each. It takes no memory.
    fn set_runs(&mut self, runs: Vec<Filling>)
        requires runs { AreRuns self.old.blocks self.old.block_length runs.items }
        requires apart { is_overlapping (ranges_of runs.items) ≡ false }
        requires splits { IsSplitAt self.old.entries (ranges_of runs.items) }
        ensures blocks { self.new.blocks ≡ self.old.blocks }
        ensures length { self.new.block_length ≡ self.old.block_length }
        ensures held { (block : ℕ) → held_in self.new.block_length self.new.entries block
            ≡ after (paired (blocks_of (ranges_of runs.items)) (items_of_runs self.old.block_length runs.items)) block
            (held_in self.old.block_length self.old.entries block) }
    {
        for run in runs {
            self.set_run(run);
        }
    }

    /// The range, where it is one with blocks.
    fn one_range(&self, ranges: &RangeList) -> Option<Range>
        requires { IsTrue (is_within self.now.blocks ranges.now) }
        ensures range { IfSome result (λ range. ranges.now ≡ range ∷ []) }
        ensures some { IfSome result (λ range. 1 ≤ range.count) }
        ensures within { IfSome result (λ range. range.lba + range.count ≤ self.now.blocks) }
    {
        let _blocks = self.blocks;
        if ranges.len() != 1 {
            return None;
        }
        let range = ranges.at(0);
        if range.count == 0 {
            return None;
        }
        Some(range)
    }

    /// The run that a list is put to a range as, where it is one.
    fn one_run(range: Range, list: &BlockList) -> Result<Option<Filling>, OutOfMemory>
        requires some { 1 ≤ range.count }
        requires total { range.count ≡ length list.now.items }
        ensures range { IfOk result (λ found. IfSome found (λ run. run.range ≡ range)) }
        ensures items { IfOk result (λ found. IfSome found (λ run. list.now.items ≡ filled list.now.block_length range.count run.fill)) }
        ensures full { IfOk result (λ found. IfSome found (λ run. IsFull list.now.block_length range.count run.fill)) }
    {
        let piece = list.run(0, range.count)?;
        if piece.count < range.count {
            return Ok(None);
        }
        Ok(Some(Filling {
            range,
            fill: piece.fill,
        }))
    }

    /// Gives the blocks of a run, so many of which are mapped, what they are to hold, where it can be set by one extent. At
    /// `OutOfMemory` each block holds what it held.
    fn set_alone(&mut self, run: Filling, before: u64) -> Result<(), OutOfMemory>
        requires some { 1 ≤ run.range.count }
        requires within { run.range.lba + run.range.count ≤ self.old.blocks }
        requires full { IsFull self.old.block_length run.range.count run.fill }
        requires alone { IsAlone self.old.entries run.range.lba run.range.count }
        requires before { before ≡ mapped_among (held_in self.old.block_length self.old.entries) (row run.range.lba run.range.count) }
        ensures blocks { self.new.blocks ≡ self.old.blocks }
        ensures length { self.new.block_length ≡ self.old.block_length }
        ensures held { OnOk result ((block : ℕ) → held_in self.new.block_length self.new.entries block
            ≡ after (paired (row run.range.lba run.range.count) (filled self.old.block_length run.range.count run.fill)) block
            (held_in self.old.block_length self.old.entries block)) }
        ensures start { OnOk result (stored self.new.entries run.range.lba ≡ Some (record { count = run.range.count; fill = run.fill })) }
        ensures others { OnOk result ((b : ℕ) → (b ≡ run.range.lba → ⊥) → stored self.new.entries b ≡ stored self.old.entries b) }
        ensures same { OnErr result (self.new ≡ self.old) }
    {
        let now = mapped_of(&run);
        let Filling { range, fill } = run;
        let piece = Piece {
            count: range.count,
            fill,
        };
        map::set_alone(&mut self.extents, range.lba, piece)?;
        let others = self.mapped - before;
        self.mapped = others + now;
        Ok(())
    }

    /// Gives the blocks of runs in a row what they are to hold, where nothing stood. At `OutOfMemory` each block holds what
    /// it held.
    fn set_in_clear(&mut self, range: Range, runs: Vec<Filling>) -> Result<(), OutOfMemory>
        requires runs { AreRuns self.old.blocks self.old.block_length runs.items }
        requires row { blocks_of (ranges_of runs.items) ≡ row range.lba range.count }
        requires clear { IsClear self.old.entries range.lba range.count }
        requires within { range.lba + range.count ≤ self.old.blocks }
        ensures blocks { self.new.blocks ≡ self.old.blocks }
        ensures length { self.new.block_length ≡ self.old.block_length }
        ensures held { OnOk result ((block : ℕ) → held_in self.new.block_length self.new.entries block
            ≡ after (paired (blocks_of (ranges_of runs.items)) (items_of_runs self.old.block_length runs.items)) block
            (held_in self.old.block_length self.old.entries block)) }
        ensures same { OnErr result (HoldsSame self.old self.new) }
    {
        let was = self.mapped;
        let mut at = range.lba;
        for run in runs {
            let count = run.range.count;
            if let Err(refused) = self.set_alone(run, 0) {
                map::take_out(&mut self.extents, range.lba, at);
                self.mapped = was;
                return Err(refused);
            }
            at += u64::from(count);
        }
        Ok(())
    }

    /// Gives the blocks of runs what they are to hold, wherever extents begin. At `OutOfMemory` each block holds what it
    /// held.
    fn set_anywhere(&mut self, ranges: &RangeList, runs: Vec<Filling>) -> Result<(), OutOfMemory>
        requires within { IsTrue (is_within self.old.blocks ranges.now) }
        requires runs { AreRuns self.old.blocks self.old.block_length runs.items }
        requires apart { is_overlapping (ranges_of runs.items) ≡ false }
        ensures blocks { self.new.blocks ≡ self.old.blocks }
        ensures length { self.new.block_length ≡ self.old.block_length }
        ensures held { OnOk result ((block : ℕ) → held_in self.new.block_length self.new.entries block
            ≡ after (paired (blocks_of (ranges_of runs.items)) (items_of_runs self.old.block_length runs.items)) block
            (held_in self.old.block_length self.old.entries block)) }
        ensures same { OnErr result (HoldsSame self.old self.new) }
    {
        if let Err(refused) = self.split_at_fillings(&runs) {
            self.remove_empty_extents(ranges);
            return Err(refused);
        }
        let has_hole = has_hole(&runs);
        self.set_runs(runs);
        if has_hole {
            self.remove_empty_extents(ranges);
        } else {
            self.remove_behind(ranges);
        }
        Ok(())
    }

    /// Gives the blocks of a range what a list has, where nothing stood. At `OutOfMemory` each block holds what it held.
    fn put_in_clear(
        &mut self,
        range: Range,
        ranges: &RangeList,
        list: &BlockList,
    ) -> Result<(), OutOfMemory>
        requires range { ranges.now ≡ range ∷ [] }
        requires some { 1 ≤ range.count }
        requires within { range.lba + range.count ≤ self.old.blocks }
        requires total { total ranges.now ≡ length list.now.items }
        requires size { list.now.block_length ≡ self.old.block_length }
        requires clear { IsClear self.old.entries range.lba range.count }
        ensures blocks { self.new.blocks ≡ self.old.blocks }
        ensures length { self.new.block_length ≡ self.old.block_length }
        ensures put { OnOk result ((block : ℕ) → held_in self.new.block_length self.new.entries block
            ≡ after (paired (blocks_of ranges.now) list.now.items) block (held_in self.old.block_length self.old.entries block)) }
        ensures same { OnErr result (HoldsSame self.old self.new) }
    {
        if let Some(run) = ExtentUnit::one_run(range, list)? {
            return self.set_alone(run, 0);
        }
        let runs = runs::runs_of(self.alloc, self.blocks, ranges, list)?;
        self.set_in_clear(range, runs)
    }

    /// The same where one extent can take the place of what stands there.
    fn put_alone(
        &mut self,
        range: Range,
        ranges: &RangeList,
        list: &BlockList,
    ) -> Result<(), OutOfMemory>
        requires range { ranges.now ≡ range ∷ [] }
        requires apart { is_overlapping ranges.now ≡ false }
        requires some { 1 ≤ range.count }
        requires within { range.lba + range.count ≤ self.old.blocks }
        requires total { total ranges.now ≡ length list.now.items }
        requires size { list.now.block_length ≡ self.old.block_length }
        requires alone { IsAlone self.old.entries range.lba range.count }
        ensures blocks { self.new.blocks ≡ self.old.blocks }
        ensures length { self.new.block_length ≡ self.old.block_length }
        ensures put { OnOk result ((block : ℕ) → held_in self.new.block_length self.new.entries block
            ≡ after (paired (blocks_of ranges.now) list.now.items) block (held_in self.old.block_length self.old.entries block)) }
        ensures same { OnErr result (HoldsSame self.old self.new) }
    {
        match ExtentUnit::one_run(range, list)? {
            Some(run) => {
                let before = self.mapped_in(range);
                self.set_alone(run, before)
            }
            None => self.put_anywhere(ranges, list),
        }
    }

    /// The same of any ranges that do not overlap, whatever stands there.
    fn put_anywhere(&mut self, ranges: &RangeList, list: &BlockList) -> Result<(), OutOfMemory>
        requires within { IsTrue (is_within self.old.blocks ranges.now) }
        requires apart { is_overlapping ranges.now ≡ false }
        requires total { total ranges.now ≡ length list.now.items }
        requires size { list.now.block_length ≡ self.old.block_length }
        ensures blocks { self.new.blocks ≡ self.old.blocks }
        ensures length { self.new.block_length ≡ self.old.block_length }
        ensures put { OnOk result ((block : ℕ) → held_in self.new.block_length self.new.entries block
            ≡ after (paired (blocks_of ranges.now) list.now.items) block (held_in self.old.block_length self.old.entries block)) }
        ensures same { OnErr result (HoldsSame self.old self.new) }
    {
        let runs = runs::runs_of(self.alloc, self.blocks, ranges, list)?;
        self.set_anywhere(ranges, runs)
    }

    /// Takes out what is not needed of the extents that begin at the ends of ranges. Each block holds what it held.
    fn remove_behind(&mut self, ranges: &RangeList)
        requires { IsTrue (is_within self.old.blocks ranges.now) }
        ensures { HoldsSame self.old self.new }
    {
        for index in 0..ranges.len() {
            let range = ranges.at(index);
            let end = range.lba + u64::from(range.count);
            map::remove_empty_extent(&mut self.extents, self.block_length, end);
        }
    }

    /// Unmaps the blocks of a range, where an extent begins at its start and at its end. It takes no memory.
    fn unmap_range(&mut self, range: Range)
        requires within { range.lba + range.count ≤ self.old.blocks }
        requires start { IsSome (stored self.old.entries range.lba) }
        requires end { IsSome (stored self.old.entries (range.lba + range.count)) }
        ensures blocks { self.new.blocks ≡ self.old.blocks }
        ensures length { self.new.block_length ≡ self.old.block_length }
        ensures held { (block : ℕ) → held_in self.new.block_length self.new.entries block
            ≡ after (unmapped (row range.lba range.count)) block (held_in self.old.block_length self.old.entries block) }
        ensures kept { (b : ℕ) → IsSome (stored self.old.entries b) → IsSome (stored self.new.entries b) }
    {
        let before = self.mapped_in(range);
        map::unmap(&mut self.extents, range.lba, range.count);
        self.mapped -= before;
    }
}

impl Blocks for ExtentUnit {
    ghost blocks = { λ u. u.blocks };

    ghost block_length = { λ u. u.block_length };

    ghost holds = { λ u. held_in u.block_length u.entries };

    // no pin is made of it
    ghost pinned = { λ u pin. None };

    ghost shown = { λ u pin block. None };

    ghost written_by = { λ u w. Unit {0} };

    fn new(alloc: Global, count: u64, size: u32) -> Result<ExtentUnit, OutOfMemory> {
        Ok(ExtentUnit {
            alloc,
            blocks: count,
            block_length: size,
            mapped: 0,
            extents: BTreeMap::new(alloc),
        })
    }

    fn held(&self, block: u64) -> Option<&[u8]> {
        match map::extent_at(&self.extents, block) {
            Some((piece, place)) => piece.held(self.block_length, place),
            None => None,
        }
    }

    fn mapped(&self) -> u64 {
        let _blocks = self.blocks;
        self.mapped
    }

    fn mapped_in(&self, range: Range) -> u64 {
        let _blocks = self.blocks;
        let end = range.lba + u64::from(range.count);
        let mut at = range.lba;
        let mut blocks = 0;
        while at < end {
            let run = walk::run_at(&self.extents, at, end);
            if run.mapped {
                blocks += run.end - at;
            }
            at = run.end;
        }
        blocks
    }

    fn mapped_until(&self, block: u64) -> u64 {
        let first = walk::run_at(&self.extents, block, self.blocks);
        let mut end = first.end;
        while end < self.blocks {
            let run = walk::run_at(&self.extents, end, self.blocks);
            if run.mapped != first.mapped {
                return end;
            }
            end = run.end;
        }
        end
    }

    fn put(&mut self, ranges: &RangeList, list: &BlockList) -> Result<(), OutOfMemory> {
        let Some(range) = self.one_range(ranges) else {
            return self.put_anywhere(ranges, list);
        };
        match map::occupied(&self.extents, range.lba, range.count) {
            Occupancy::Clear => self.put_in_clear(range, ranges, list),
            Occupancy::Alone => self.put_alone(range, ranges, list),
            Occupancy::Mixed => self.put_anywhere(ranges, list),
        }
    }

    fn clear(&mut self, ranges: &RangeList) -> Result<(), OutOfMemory> {
        if let Err(refused) = self.split_at_ranges(ranges) {
            self.remove_empty_extents(ranges);
            return Err(refused);
        }
        for index in 0..ranges.len() {
            self.unmap_range(ranges.at(index));
        }
        self.remove_empty_extents(ranges);
        Ok(())
    }

    fn cut(&self, alloc: Global, ranges: &RangeList) -> Result<BlockList, OutOfMemory> {
        let _blocks = self.blocks;
        let _total = ranges.total();
        let mut list = BlockList::empty(alloc, self.block_length);
        for index in 0..ranges.len() {
            self.cut_range(&mut list, ranges.at(index))?;
        }
        Ok(list)
    }

    ghost alike = { λ u w v by agree. by };
}
