ghost use Rattle.std.specs.Prelude.{◌≡◌, ℕ, ◌+◌, ◌-◌, ◌^◌, ◌++◌, ◌<◌, ◌≤◌, map, List, Some, None, IsSome, IfOk, OnOk, OnErr, IsTrue, length, false};
ghost use Rattle.lba_ranges.specs.declared.ranges.Range.{Range};
ghost use Rattle.slab.specs.Slab.{get};
ghost use Rattle.lba_ranges.specs.Denoted.{row, blocks_of, total, is_within, is_overlapping, denotes};
ghost use Rattle.lba_ranges.specs.Writings.{paired, unmapped, after};
ghost use Rattle.lun_extents.specs.Extents.{held_in};
ghost use Rattle.lun_versions.specs.Units.{ranges_of};
ghost use Rattle.lun_versions.specs.Alike.{agreeing_written};
ghost use Rattle.lun_versions.specs.Versioned.{shown_by};
ghost use Rattle.lun_versions.specs.inner.Chains.{kept_below};
ghost use Rattle.lun_versions.specs.inner.Planned.{ArePlanned, mapped_parts};
ghost use Rattle.lba_ranges.specs.Versions.{Version, Writers, without_repeats, IsNew, PinsStay, with_pin, with_put, with_ranges};
ghost use Rattle.lun_versions.specs.Versioned.{Versioned, holds, chain, WrittenBy};
ghost use Rattle.lun_versions.specs.inner.Versioned.{pinned, shown, shown_then, AreStored};

use crate::earlier::{EarlierVersions, Part};
use crate::pinned::Pinned;
use crate::plan::{self, fits, mapped_of};
use crate::segment::ShownPart;
use cm_base::OutOfMemory;
use lba_ranges::{BlockList, Blocks, Pins, Range, RangeList};
use lun_extents::ExtentUnit;
use slab::Slab;
use std::alloc::Global;
use std::marker::Model;

/// A live pin, by its number.
#[derive(Drop)]
pub struct Pin {
    pub(crate) key: usize,
}

/// The blocks of a unit, and what live pins show of them.
#[derive(Drop)]
pub struct VersionUnit {
    alloc: Global,
    block_length: u32,
    current: ExtentUnit,
    earlier: EarlierVersions,
    pins: Slab<Pinned>,
    // how many pins were made
    made: u64,
}

impl Model for VersionUnit {
    ghost use Rattle.std.specs.Prelude.{◌≡◌};
    ghost use Rattle.slab.specs.Slab.{get};
    ghost use Rattle.lun_versions.specs.Versioned.{Versioned};
    ghost use Rattle.lun_versions.specs.inner.Versioned.{IsSound};

    ghost Value = { Versioned };

    ghost view = { λ u. record { current = u.current; earlier = u.earlier; pins = u.pins; made = u.made } };

    ghost invariant = { λ u. (u.block_length ≡ u.current.block_length) × IsSound u.current.blocks u.current.block_length u.made u.earlier (get u.pins) };
}

impl VersionUnit {
    /// How many versions are kept: those that are current or that a live pin shows. It takes no
    /// memory.
    fn stored(&self) -> u64
        ensures { (w : Writers) (vs : List Version) → WrittenBy self.now w → AreStored self.now w vs → result ≡ length (without_repeats vs) }
    {
        self.current.mapped() + self.earlier.kept()
    }

    /// Ends a pin. It takes no memory.
    fn unpin(&mut self, pin: Pin)
        requires { IsSome (pinned self.old pin.key) }
        ensures pinned { (other : ℕ) → pinned self.new other ≡ with_ranges pin.key None (pinned self.old) other }
        ensures holds { (block : ℕ) → holds self.new block ≡ holds self.old block }
        ensures shows { (other : ℕ) (ranges : List Range) (block : ℕ) → pinned self.new other ≡ Some ranges → IsTrue (denotes ranges block)
            → shown self.new other block ≡ shown self.old other block }
        ensures written { (w : Writers) → WrittenBy self.old w → WrittenBy self.new w }
        ensures current { self.new.current ≡ self.old.current }
    {
        self.earlier.sound();
        let ended = self.pins.remove(pin.key);
        self.earlier.end_pin(&self.pins, &ended);
    }

    /// Makes a pin, which shows the blocks of the ranges as they stand.
    fn pin(&mut self, ranges: &RangeList) -> Result<Pin, OutOfMemory>
        requires within { IsTrue (is_within self.old.current.blocks ranges.now) }
        requires apart { is_overlapping ranges.now ≡ false }
        ensures vacant { IfOk result (λ pin. pinned self.old pin.key ≡ None) }
        ensures pinned { IfOk result (λ pin. (other : ℕ) → pinned self.new other ≡ with_ranges pin.key (Some ranges.now) (pinned self.old) other) }
        ensures shows { IfOk result (λ pin. (block : ℕ) → shown self.new pin.key block ≡ holds self.old block) }
        ensures others { (other : ℕ) (r : List Range) (block : ℕ) → pinned self.old other ≡ Some r → shown self.new other block ≡ shown self.old other block }
        ensures written { IfOk result (λ pin. (w : Writers) → WrittenBy self.old w → WrittenBy self.new (with_pin pin.key w)) }
        ensures current { self.new.current ≡ self.old.current }
        ensures err { OnErr result ((other : ℕ) → pinned self.new other ≡ pinned self.old other) }
        ensures same { OnErr result ((w : Writers) → WrittenBy self.old w → WrittenBy self.new w) }
    {
        let Some(made) = self.made.checked_add(1) else {
            return Err(OutOfMemory);
        };
        self.earlier.sound();
        let ranges = ranges.copy(self.alloc)?;
        let pinned = Pinned::new(made, ranges, self.earlier.blocks());
        let key = self.pins.insert(pinned)?;
        self.made = made;
        Ok(Pin { key })
    }

    /// The versions to be kept before the blocks of the ranges are written, which there is room
    /// for. No version changes, at `OutOfMemory` neither.
    fn planned(&mut self, ranges: &RangeList) -> Result<Vec<Part>, OutOfMemory>
        requires { IsTrue (is_within self.old.current.blocks ranges.now) }
        ensures current { self.new.current ≡ self.old.current }
        ensures pins { self.new.pins ≡ self.old.pins }
        ensures made { self.new.made ≡ self.old.made }
        ensures chains { (block : ℕ) → chain self.new block ≡ chain self.old block }
        ensures planned { IfOk result (λ parts. ArePlanned self.new.current.block_length self.new.made self.new.earlier.entries (get self.new.pins) (holds self.new) (denotes ranges.now) parts.items) }
        ensures fits { IfOk result (λ parts. kept_below self.new.current.blocks (chain self.new) + mapped_parts parts.items + self.new.current.blocks < 2 ^ 64) }
    {
        let parts = plan::plan(
            &mut self.earlier,
            &self.current,
            &self.pins,
            self.alloc,
            self.made,
            ranges,
        )?;
        let Some(more) = mapped_of(&parts) else {
            return Err(OutOfMemory);
        };
        if !fits(self.earlier.kept(), more, self.earlier.blocks()) {
            return Err(OutOfMemory);
        }
        Ok(parts)
    }

    /// Gives each denoted block the item at its place. At `OutOfMemory` each block holds what it held.
    /// Each live pin shows what it showed.
    fn put(&mut self, ranges: &RangeList, list: &BlockList) -> Result<(), OutOfMemory>
        requires within { IsTrue (is_within self.old.current.blocks ranges.now) }
        requires apart { is_overlapping ranges.now ≡ false }
        requires total { total ranges.now ≡ length list.now.items }
        requires size { list.now.block_length ≡ self.old.current.block_length }
        ensures put { OnOk result ((block : ℕ) → holds self.new block ≡ after (paired (blocks_of ranges.now) list.now.items) block (holds self.old block)) }
        ensures err { OnErr result ((block : ℕ) → holds self.new block ≡ holds self.old block) }
        ensures written { OnOk result ((w : Writers) (number : ℕ) → WrittenBy self.old w → IsNew self.old.current.blocks (pinned self.old) w number
            → WrittenBy self.new (with_put (paired (blocks_of ranges.now) list.now.items) number w)) }
        ensures writers { OnErr result ((w : Writers) → WrittenBy self.old w → WrittenBy self.new w) }
        ensures pins { PinsStay (pinned self.old) (shown self.old) (pinned self.new) (shown self.new) }
        ensures blocks { self.new.current.blocks ≡ self.old.current.blocks }
        ensures length { self.new.current.block_length ≡ self.old.current.block_length }
    {
        let parts = self.planned(ranges)?;
        self.earlier.sound();
        self.current.put(ranges, list)?;
        self.earlier.add_parts(parts);
        Ok(())
    }

    /// Unmaps each denoted block; the ranges may overlap. At `OutOfMemory` each block holds what it held.
    /// Each live pin shows what it showed.
    fn clear(&mut self, ranges: &RangeList) -> Result<(), OutOfMemory>
        requires { IsTrue (is_within self.old.current.blocks ranges.now) }
        ensures cleared { OnOk result ((block : ℕ) → holds self.new block ≡ after (unmapped (blocks_of ranges.now)) block (holds self.old block)) }
        ensures err { OnErr result ((block : ℕ) → holds self.new block ≡ holds self.old block) }
        ensures written { OnOk result ((w : Writers) (number : ℕ) → WrittenBy self.old w → WrittenBy self.new (with_put (unmapped (blocks_of ranges.now)) number w)) }
        ensures writers { OnErr result ((w : Writers) → WrittenBy self.old w → WrittenBy self.new w) }
        ensures pins { PinsStay (pinned self.old) (shown self.old) (pinned self.new) (shown self.new) }
        ensures blocks { self.new.current.blocks ≡ self.old.current.blocks }
        ensures length { self.new.current.block_length ≡ self.old.current.block_length }
    {
        let parts = self.planned(ranges)?;
        self.earlier.sound();
        self.current.clear(ranges)?;
        self.earlier.add_parts(parts);
        Ok(())
    }

    /// Adds the blocks of a range as a pin of this time shows them.
    fn cut_range_at(
        &self,
        alloc: Global,
        list: &mut BlockList,
        range: Range,
        time: u64,
    ) -> Result<(), OutOfMemory>
        requires time { 0 < time }
        requires within { range.lba + range.count ≤ self.now.current.blocks }
        requires numbers { range.lba + range.count < 2 ^ 64 }
        requires size { list.old.block_length ≡ self.now.current.block_length }
        requires room { length list.old.items + range.count < 2 ^ 64 }
        ensures size { list.new.block_length ≡ list.old.block_length }
        ensures items { OnOk result (list.new.items ≡ list.old.items ++ map (shown_then self.now time) (row range.lba range.count)) }
    {
        let end = range.lba + u64::from(range.count);
        let mut at = range.lba;
        while at < end {
            let shown = self.shown_row(alloc, at, end, time)?;
            at += shown.blocks();
            list.append(shown)?;
        }
        Ok(())
    }

    /// The first of these blocks, as a pin of this time shows them.
    fn shown_row(
        &self,
        alloc: Global,
        at: u64,
        end: u64,
        time: u64,
    ) -> Result<BlockList, OutOfMemory>
        requires time { 0 < time }
        requires some { at < end }
        requires few { end < at + 2 ^ 32 }
        requires within { end ≤ self.now.current.blocks }
        ensures some { IfOk result (λ list. 0 < length list.items) }
        ensures within { IfOk result (λ list. at + length list.items ≤ end) }
        ensures size { IfOk result (λ list. list.block_length ≡ self.now.current.block_length) }
        ensures items { IfOk result (λ list. list.items ≡ map (shown_then self.now time) (row at (length list.items))) }
    {
        let _made = self.made;
        let ShownPart { end, earlier } = self.earlier.shown_part(alloc, at, end, time)?;
        match earlier {
            Some(list) => Ok(list),
            None => {
                let list = self.cut_row(alloc, at, end)?;
                Ok(list)
            }
        }
    }

    /// Some blocks in a row, as they stand.
    fn cut_row(&self, alloc: Global, at: u64, end: u64) -> Result<BlockList, OutOfMemory>
        requires row { at ≤ end }
        requires few { end < at + 2 ^ 32 }
        requires within { end ≤ self.now.current.blocks }
        ensures { IfOk result (λ list. list
            ≡ record { block_length = self.now.current.block_length; items = map (holds self.now) (row at (end - at)) }) }
    {
        let _made = self.made;
        let mut ranges = RangeList::empty(alloc);
        ranges.push(Range {
            lba: at,
            count: (end - at) as u32,
        })?;
        self.current.cut(alloc, &ranges)
    }

    /// The blocks of the ranges as a live pin shows them. The list shares their bytes.
    fn cut_at(&self, alloc: Global, pin: &Pin, ranges: &RangeList) -> Result<BlockList, OutOfMemory>
        requires live { IsSome (pinned self.now pin.now.key) }
        requires within { IsTrue (is_within self.now.current.blocks ranges.now) }
        ensures { IfOk result (λ list. list
            ≡ record { block_length = self.now.current.block_length; items = map (shown self.now pin.now.key) (blocks_of ranges.now) }) }
    {
        let pinned = &self.pins[pin.key];
        self.cut_then(alloc, ranges, pinned.time)
    }

    /// The blocks of the ranges as a pin of this time shows them.
    fn cut_then(
        &self,
        alloc: Global,
        ranges: &RangeList,
        time: u64,
    ) -> Result<BlockList, OutOfMemory>
        requires time { 0 < time }
        requires within { IsTrue (is_within self.now.current.blocks ranges.now) }
        ensures { IfOk result (λ list. list
            ≡ record { block_length = self.now.current.block_length; items = map (shown_then self.now time) (blocks_of ranges.now) }) }
    {
        let _mapped = self.current.mapped();
        let _total = ranges.total();
        let mut list = BlockList::empty(alloc, self.block_length);
        for index in 0..ranges.len() {
            self.cut_range_at(alloc, &mut list, ranges.at(index), time)?;
        }
        Ok(list)
    }
}

impl Blocks for VersionUnit {
    ghost blocks = { λ u. u.current.blocks };

    ghost block_length = { λ u. u.current.block_length };

    ghost holds = { λ u. held_in u.current.block_length u.current.entries };

    ghost pinned = { λ u. ranges_of (get u.pins) };

    ghost shown = { λ u pin block. shown_by (get u.pins pin) (chain u block) (held_in u.current.block_length u.current.entries block) };

    ghost written_by = { λ u. WrittenBy u };

    fn new(alloc: Global, count: u64, size: u32) -> Result<VersionUnit, OutOfMemory> {
        let current = ExtentUnit::new(alloc, count, size)?;
        Ok(VersionUnit {
            alloc,
            block_length: size,
            current,
            earlier: EarlierVersions::new(alloc, count, size),
            pins: Slab::new(alloc),
            made: 0,
        })
    }

    fn held(&self, block: u64) -> Option<&[u8]> {
        let _made = self.made;
        self.current.held(block)
    }

    fn mapped(&self) -> u64 {
        let _made = self.made;
        self.current.mapped()
    }

    fn mapped_in(&self, range: Range) -> u64 {
        let _made = self.made;
        self.current.mapped_in(range)
    }

    fn mapped_until(&self, block: u64) -> u64 {
        let _made = self.made;
        self.current.mapped_until(block)
    }

    fn put(&mut self, ranges: &RangeList, list: &BlockList) -> Result<(), OutOfMemory> {
        VersionUnit::put(self, ranges, list)
    }

    fn clear(&mut self, ranges: &RangeList) -> Result<(), OutOfMemory> {
        VersionUnit::clear(self, ranges)
    }

    fn cut(&self, alloc: Global, ranges: &RangeList) -> Result<BlockList, OutOfMemory> {
        let _made = self.made;
        self.current.cut(alloc, ranges)
    }

    ghost alike = { λ u w v by agree. agreeing_written u.current.blocks (chain u) (held_in u.current.block_length u.current.entries) (get u.pins) w v by agree };
}

impl Pins for VersionUnit {
    type Pin = Pin;

    ghost number = { λ pin. pin.key };

    fn pin(&mut self, ranges: &RangeList) -> Result<Pin, OutOfMemory> {
        VersionUnit::pin(self, ranges)
    }

    fn cut_at(
        &self,
        alloc: Global,
        pin: &Pin,
        ranges: &RangeList,
    ) -> Result<BlockList, OutOfMemory> {
        VersionUnit::cut_at(self, alloc, pin, ranges)
    }

    fn unpin(&mut self, pin: Pin) {
        VersionUnit::unpin(self, pin)
    }

    fn stored(&self) -> u64 {
        VersionUnit::stored(self)
    }
}
