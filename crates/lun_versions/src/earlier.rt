// The earlier versions of all blocks, which are kept in segments.
ghost use Rattle.std.specs.Prelude.{◌≡◌, ◌⊎◌, ℕ, ◌+◌, ◌<◌, ◌≤◌, List, ◌^◌, is_some, Option, Some, None, IfSome, IfNone, IfOk, IsTrue, false};
ghost use Rattle.slab.specs.Slab.{get};
ghost use Rattle.lun_versions.specs.declared.segment.Segment.{Segment};
ghost use Rattle.lun_versions.specs.declared.pinned.Pinned.{Pinned};
ghost use Rattle.lun_versions.specs.inner.Chains.{last_to, kept_below};
ghost use Rattle.lun_versions.specs.inner.Units.{LivesAt};
ghost use Rattle.lun_versions.specs.Segments.{stored, chain_in};
ghost use Rattle.lun_versions.specs.inner.Segments.{AreSegments, AreEven, AreFewer};
ghost use Rattle.lun_versions.specs.inner.GivenUp.{GivesUp, AreGivenUp, AreEnded};
ghost use Rattle.lun_versions.specs.inner.Adding.{IsReady, IsAdded, IsEvenAt, HasRoom, ArePast};
ghost use Rattle.lun_versions.specs.inner.Planned.{AreReady, AreEvenParts, mapped_parts, with_parts};
ghost use Rattle.std.specs.List.{count_by};
ghost use Rattle.lun_versions.specs.inner.ShownParts.{ShowsEarlier, ShowsCurrent};
ghost use Rattle.lba_ranges.specs.Denoted.{is_within, is_overlapping};

use crate::pinned::Pinned;
use crate::segment::{self, ChangedRun, EarlierVersion, ShownPart};
use crate::segment_map::{self, SegmentMap};
use cm_base::OutOfMemory;
use lba_ranges::RangeList;
use slab::Slab;
use std::alloc::Global;
use std::collections::BTreeMap;
use std::marker::Model;

/// What the blocks of a segment hold, which is to be kept.
#[derive(Drop)]
pub(crate) struct Part {
    pub first: u64,
    pub version: EarlierVersion,
}

/// The earlier versions of a unit's blocks.
#[derive(Drop)]
pub(crate) struct EarlierVersions {
    blocks: u64,
    block_length: u32,
    map: SegmentMap,
    // how many blocks of all versions are mapped
    kept: u64,
}

impl Model for EarlierVersions {
    ghost use Rattle.std.specs.Prelude.{◌≡◌};
    ghost use Rattle.lun_versions.specs.inner.Chains.{kept_below};
    ghost use Rattle.lun_versions.specs.Segments.{EarlierBlocks, chain_in};
    ghost use Rattle.lun_versions.specs.inner.Segments.{AreSegments};

    ghost Value = { EarlierBlocks };

    ghost view = { λ o. record { blocks = o.blocks; block_length = o.block_length; entries = o.map.entries } };

    ghost invariant = { λ o. AreSegments o.blocks o.block_length o.map.entries
        × (o.kept ≡ kept_below o.blocks (chain_in o.map.entries)) };
}

impl EarlierVersions {
    /// No earlier versions of so many blocks.
    pub fn new(alloc: Global, blocks: u64, block_length: u32) -> EarlierVersions
        ensures blocks { result.blocks ≡ blocks }
        ensures length { result.block_length ≡ block_length }
        ensures none { (block : ℕ) → stored result.entries block ≡ None }
    {
        EarlierVersions {
            blocks,
            block_length,
            map: BTreeMap::new(alloc),
            kept: 0,
        }
    }

    /// How many blocks of the earlier versions are mapped.
    pub fn kept(&self) -> u64
        ensures { result ≡ kept_below self.now.blocks (chain_in self.now.entries) }
    {
        let _blocks = self.blocks;
        self.kept
    }

    /// How many blocks there are.
    pub fn blocks(&self) -> u64
        ensures { result ≡ self.now.blocks }
    {
        self.blocks
    }

    /// Tells what is kept of the segments. It does nothing.
    pub fn sound(&self)
        ensures { AreSegments self.now.blocks self.now.block_length self.now.entries }
    {
        let _blocks = self.blocks;
    }

    /// Adds a version to the segment that begins at a block, and has room for it. It takes no memory.
    pub fn add_at(&mut self, first: u64, version: EarlierVersion)
        requires ready { IsReady self.old.block_length self.old.entries first version }
        requires fits { kept_below self.old.blocks (chain_in self.old.entries) + count_by is_some version.list.items < 2 ^ 64 }
        ensures blocks { self.new.blocks ≡ self.old.blocks }
        ensures length { self.new.block_length ≡ self.old.block_length }
        ensures added { IsAdded first version self.old.entries self.new.entries }
        ensures others { (b : ℕ) → (b ≡ first → ⊥) → stored self.new.entries b ≡ stored self.old.entries b }
        ensures counted { kept_below self.new.blocks (chain_in self.new.entries) ≡ kept_below self.old.blocks (chain_in self.old.entries) + count_by is_some version.list.items }
        ensures even { (pins : ℕ → Option Pinned) → AreEven pins self.old.entries → IsEvenAt pins self.old.entries first → AreEven pins self.new.entries }
    {
        let more = version.list.mapped();
        segment_map::add(&mut self.map, first, version);
        self.kept += more;
    }

    /// Adds the versions of all parts, which have room for them. It takes no memory.
    pub fn add_parts(&mut self, parts: Vec<Part>)
        requires ready { AreReady self.old.block_length self.old.entries parts.items }
        requires fits { kept_below self.old.blocks (chain_in self.old.entries) + mapped_parts parts.items < 2 ^ 64 }
        ensures blocks { self.new.blocks ≡ self.old.blocks }
        ensures length { self.new.block_length ≡ self.old.block_length }
        ensures chains { (b : ℕ) → chain_in self.new.entries b ≡ with_parts parts.items (chain_in self.old.entries) b }
        ensures counted { kept_below self.old.blocks (chain_in self.new.entries) ≡ kept_below self.old.blocks (chain_in self.old.entries) + mapped_parts parts.items }
        ensures even { (pins : ℕ → Option Pinned) → AreEven pins self.old.entries → AreEvenParts pins self.old.entries parts.items → AreEven pins self.new.entries }
    {
        for part in parts {
            let Part { first, version } = part;
            self.add_at(first, version);
        }
    }

    /// Lets a segment that has room for one version more begin at the first of these blocks. The
    /// answer is where it ends. Each block keeps its versions, at `OutOfMemory` too.
    pub fn make_room(&mut self, alloc: Global, at: u64, end: u64) -> Result<u64, OutOfMemory>
        requires some { at < end }
        requires few { end < at + 2 ^ 32 }
        requires within { end ≤ self.old.blocks }
        requires alone { (b : ℕ) → at < b → b < end → stored self.old.entries b ≡ None }
        ensures blocks { self.new.blocks ≡ self.old.blocks }
        ensures length { self.new.block_length ≡ self.old.block_length }
        ensures some { IfOk result (λ stop. at < stop) }
        ensures within { IfOk result (λ stop. stop ≤ end) }
        ensures room { IfOk result (λ stop. HasRoom at stop self.new.entries) }
        ensures chains { (b : ℕ) → chain_in self.new.entries b ≡ chain_in self.old.entries b }
        ensures even { (pins : ℕ → Option Pinned) → ArePast pins → AreEven pins self.old.entries → AreEven pins self.new.entries }
        ensures kept { (b : ℕ) (segment : Segment) → stored self.old.entries b ≡ Some segment → (b + segment.count ≤ at) ⊎ (end ≤ b) → stored self.new.entries b ≡ Some segment }
    {
        segment_map::room_at(
            &mut self.map,
            alloc,
            self.blocks,
            self.block_length,
            at,
            end,
        )
    }

    /// Gives up the earlier version of a segment that a pin of this time showed, where none of these
    /// pins shows it.
    fn give_up_at(&mut self, pins: &Slab<Pinned>, first: u64, time: u64)
        requires { 0 < time }
        ensures blocks { self.new.blocks ≡ self.old.blocks }
        ensures length { self.new.block_length ≡ self.old.block_length }
        ensures none { stored self.old.entries first ≡ None → stored self.new.entries first ≡ None }
        ensures some { (was : Segment) → stored self.old.entries first ≡ Some was
            → GivesUp (LivesAt (get pins.now) first) time was (stored self.new.entries first) }
        ensures others { (b : ℕ) → (b ≡ first → ⊥) → stored self.new.entries b ≡ stored self.old.entries b }
    {
        let given = segment_map::give_up(&mut self.map, pins, first, time);
        self.kept -= given;
    }

    /// The first of these blocks, those that lie in one segment or in none.
    pub fn run_at(&self, at: u64, to: u64) -> ChangedRun
        requires { at < to }
        ensures some { at < result.end }
        ensures within { result.end ≤ to }
        ensures last { (b : ℕ) → at ≤ b → b < result.end → last_to 0 (chain_in self.now.entries b) ≡ result.last }
        ensures alone { (b : ℕ) → at < b → b < result.end → stored self.now.entries b ≡ None }
    {
        let _blocks = self.blocks;
        let end = segment_map::gap_end(&self.map, at, to);
        match segment_map::nearest(&self.map, at) {
            Some((first, segment)) => segment::run_of(segment, first, at, end),
            None => ChangedRun { last: 0, end },
        }
    }

    /// What a pin of this time shows of the first of these blocks.
    pub fn shown_part(
        &self,
        alloc: Global,
        at: u64,
        to: u64,
        time: u64,
    ) -> Result<ShownPart, OutOfMemory>
        requires some { at < to }
        requires time { 0 < time }
        ensures some { IfOk result (λ part. at < part.end) }
        ensures within { IfOk result (λ part. part.end ≤ to) }
        ensures earlier { IfOk result (λ part. IfSome part.earlier (λ list. ShowsEarlier self.now.block_length (chain_in self.now.entries) at part.end time list)) }
        ensures current { IfOk result (λ part. IfNone part.earlier (ShowsCurrent (chain_in self.now.entries) at part.end time)) }
    {
        let end = segment_map::gap_end(&self.map, at, to);
        match segment_map::nearest(&self.map, at) {
            Some((first, segment)) => {
                let part = segment::shown_part(segment, alloc, first, at, end, time)?;
                Ok(part)
            }
            None => Ok(ShownPart { end, earlier: None }),
        }
    }

    /// The same of all segments that begin in a row of blocks.
    fn give_up_range(&mut self, pins: &Slab<Pinned>, from: u64, to: u64, time: u64)
        requires time { 0 < time }
        requires row { from ≤ to }
        ensures blocks { self.new.blocks ≡ self.old.blocks }
        ensures length { self.new.block_length ≡ self.old.block_length }
        ensures given { AreGivenUp (λ (first : ℕ). LivesAt (get pins.now) first) time from to self.old.entries self.new.entries }
    {
        let mut at = from;
        while let Some(first) = segment_map::next_first(&self.map, at, to) {
            self.give_up_at(pins, first, time);
            at = first + 1;
        }
    }

    /// The same of all segments that begin in the ranges of a pin.
    fn give_up_ranges(&mut self, pins: &Slab<Pinned>, ended: &Pinned)
        requires time { 0 < ended.now.time }
        requires within { IsTrue (is_within self.old.blocks ended.now.ranges) }
        requires apart { is_overlapping ended.now.ranges ≡ false }
        ensures blocks { self.new.blocks ≡ self.old.blocks }
        ensures length { self.new.block_length ≡ self.old.block_length }
        ensures given { AreEnded (λ (first : ℕ). LivesAt (get pins.now) first) ended.now.time ended.now.ranges self.old.entries self.new.entries }
    {
        let _blocks = self.blocks;
        for index in 0..ended.ranges.len() {
            let range = ended.ranges.at(index);
            let end = range.lba + u64::from(range.count);
            self.give_up_range(pins, range.lba, end, ended.time);
        }
    }

    /// Takes out a segment without earlier versions.
    fn drop_empty(&mut self, first: u64)
        ensures blocks { self.new.blocks ≡ self.old.blocks }
        ensures length { self.new.block_length ≡ self.old.block_length }
        ensures fewer { AreFewer self.old.entries self.new.entries }
    {
        if segment_map::is_empty_at(&self.map, first) {
            segment_map::take_out(&mut self.map, first);
        }
    }

    /// The same of all that begin in a row of blocks.
    fn drop_range(&mut self, from: u64, to: u64)
        requires { from ≤ to }
        ensures blocks { self.new.blocks ≡ self.old.blocks }
        ensures length { self.new.block_length ≡ self.old.block_length }
        ensures fewer { AreFewer self.old.entries self.new.entries }
    {
        let mut at = from;
        while let Some(first) = segment_map::next_first(&self.map, at, to) {
            self.drop_empty(first);
            at = first + 1;
        }
    }

    /// The same of all that begin in ranges.
    fn drop_ranges(&mut self, ranges: &RangeList)
        requires { IsTrue (is_within self.old.blocks ranges.now) }
        ensures blocks { self.new.blocks ≡ self.old.blocks }
        ensures length { self.new.block_length ≡ self.old.block_length }
        ensures fewer { AreFewer self.old.entries self.new.entries }
    {
        let _blocks = self.blocks;
        for index in 0..ranges.len() {
            let range = ranges.at(index);
            let end = range.lba + u64::from(range.count);
            self.drop_range(range.lba, end);
        }
    }

    /// Gives up each earlier version that a pin showed and none of the pins that are left shows.
    /// It takes no memory.
    pub fn end_pin(&mut self, pins: &Slab<Pinned>, ended: &Pinned)
        requires time { 0 < ended.now.time }
        requires within { IsTrue (is_within self.old.blocks ended.now.ranges) }
        requires apart { is_overlapping ended.now.ranges ≡ false }
        ensures blocks { self.new.blocks ≡ self.old.blocks }
        ensures length { self.new.block_length ≡ self.old.block_length }
        ensures given { (given : List (ℕ × Segment)) × AreFewer given self.new.entries
            × AreEnded (λ (first : ℕ). LivesAt (get pins.now) first) ended.now.time ended.now.ranges self.old.entries given }
    {
        self.give_up_ranges(pins, ended);
        self.drop_ranges(&ended.ranges);
    }
}
