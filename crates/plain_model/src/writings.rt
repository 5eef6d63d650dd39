ghost use Rattle.std.specs.Prelude.{◌≡◌, ◌+◌, ◌<◌, ◌≤◌, ◌++◌, ◌^◌, ◌∷◌, [], length, take, drop, IsTrue, IfOk, OnOk};
ghost use Rattle.std.specs.Option.{option_copied};
ghost use Rattle.lba_ranges.specs.Denoted.{blocks_of, is_within};
ghost use Rattle.lba_ranges.specs.HeldBlocks.{held_at};
ghost use Rattle.lba_ranges.specs.Writings.{after, paired, unmapped};
ghost use Rattle.cm_history.specs.Answers.{put_at};
ghost use Rattle.plain_model.specs.inner.Amounts.{mapping};

use cm_base::{OutOfMemory, Payload};
use lba_ranges::{BlockList, RangeList};
use std::alloc::Global;
use std::marker::Model;

/// A block, and what it holds from then on.
#[derive(Drop)]
pub(crate) struct PlainWriting {
    block: u64,
    held: Option<Payload>,
}

/// What is written to blocks, the oldest first.
#[derive(Drop)]
pub(crate) struct PlainWritings {
    writings: Vec<PlainWriting>,
}

impl Model for PlainWritings {
    ghost use Rattle.std.specs.Prelude.{List, map};
    ghost use Rattle.lba_ranges.specs.Writings.{Writing};

    ghost Value = { List Writing };

    ghost use Rattle.plain_model.specs.inner.Writings.{writing_of};

    ghost view = { λ w. map writing_of w.writings.items };
}

/// What a block holds, which shares its bytes.
fn shared(held: Option<&Payload>) -> Result<Option<Payload>, OutOfMemory>
    ensures { IfOk result (λ copy. copy ≡ option_copied held.entry) }
{
    match held {
        Some(bytes) => Ok(Some(bytes.clone()?)),
        None => Ok(None),
    }
}

/// What a block of a list holds.
fn held_in(alloc: Global, list: &BlockList, index: u64) -> Result<Option<Payload>, OutOfMemory>
    ensures { IfOk result (λ held. held ≡ held_at list.now.items index) }
{
    match list.held(index) {
        Some(bytes) => Ok(Some(Payload::copy_from_slice(alloc, bytes)?)),
        None => Ok(None),
    }
}

#[tactic(auto, using(crate::proofs::Loops::places))]
impl PlainWritings {
    pub(crate) fn new(alloc: Global) -> PlainWritings
        ensures { result ≡ [] }
    {
        PlainWritings {
            writings: Vec::new(alloc),
        }
    }

    pub(crate) fn len(&self) -> usize
        ensures { result ≡ length self.now }
    {
        self.writings.len()
    }

    fn push(&mut self, block: u64, held: Option<Payload>) -> Result<(), OutOfMemory>
        ensures { OnOk result (self.new ≡ self.old ++ (record { block = block; held = held }) ∷ []) }
    {
        self.writings.push(PlainWriting { block, held })?;
        Ok(())
    }

    /// So many of the writings, from a place on; fewer where there are not so many.
    pub(crate) fn part(
        &self,
        alloc: Global,
        from: usize,
        count: usize,
    ) -> Result<PlainWritings, OutOfMemory>
        ensures part { IfOk result (λ part. part ≡ take count (drop from self.now)) }
        ensures few { IfOk result (λ part. length part ≤ count) }
    {
        let mut part = PlainWritings::new(alloc);
        for (place, writing) in self.writings.iter().enumerate() {
            if from <= place && place - from < count {
                part.push(writing.block, shared(writing.held.as_ref())?)?;
            }
        }
        Ok(part)
    }

    /// What a block holds after them, where it held `was`: the last writing of it.
    pub(crate) fn after<'a>(&'a self, block: u64, was: Option<&'a Payload>) -> Option<&'a Payload>
        ensures { option_copied result ≡ after self.now block (option_copied was.entry) }
    {
        let mut last = was;
        for writing in &self.writings {
            if writing.block == block {
                last = writing.held.as_ref();
            }
        }
        last
    }

    /// The blocks of a list, from `lba` on.
    pub(crate) fn put_at(
        alloc: Global,
        lba: u64,
        list: &BlockList,
    ) -> Result<PlainWritings, OutOfMemory>
        requires { lba + length list.now.items < 2 ^ 64 }
        ensures { IfOk result (λ w. w ≡ put_at lba list.now.items) }
    {
        let mut writings = PlainWritings::new(alloc);
        for index in 0..list.blocks() {
            writings.push(lba + index, held_in(alloc, list, index)?)?;
        }
        Ok(writings)
    }

    /// The blocks of a list, each to the block of the ranges at its place.
    pub(crate) fn paired(
        alloc: Global,
        ranges: &RangeList,
        list: &BlockList,
    ) -> Result<PlainWritings, OutOfMemory>
        requires { IsTrue (is_within (2 ^ 64) ranges.now) }
        ensures { IfOk result (λ w. w ≡ paired (blocks_of ranges.now) list.now.items) }
    {
        let blocks = ranges.blocks(alloc)?;
        let mut writings = PlainWritings::new(alloc);
        for (index, block) in blocks.iter().enumerate() {
            if (index as u64) < list.blocks() {
                writings.push(*block, held_in(alloc, list, index as u64)?)?;
            }
        }
        Ok(writings)
    }

    /// Each block of the ranges is unmapped.
    pub(crate) fn unmapped(alloc: Global, ranges: &RangeList) -> Result<PlainWritings, OutOfMemory>
        requires { IsTrue (is_within (2 ^ 64) ranges.now) }
        ensures { IfOk result (λ w. w ≡ unmapped (blocks_of ranges.now)) }
    {
        let blocks = ranges.blocks(alloc)?;
        let mut writings = PlainWritings::new(alloc);
        for block in &blocks {
            writings.push(*block, None)?;
        }
        Ok(writings)
    }

    /// Equal writings, which share the bytes.
    pub(crate) fn copy(&self, alloc: Global) -> Result<PlainWritings, OutOfMemory>
        ensures { IfOk result (λ copy. copy ≡ self.now) }
    {
        let mut copy = PlainWritings::new(alloc);
        for writing in &self.writings {
            copy.push(writing.block, shared(writing.held.as_ref())?)?;
        }
        Ok(copy)
    }
}

#[tactic(auto, using(crate::proofs::Amounts::amounts))]
impl PlainWritings {
    /// How many of them leave their block mapped.
    pub(crate) fn mapping(&self) -> u64
        ensures { result ≡ mapping self.now }
    {
        let mut mapping = 0;
        for writing in &self.writings {
            if writing.held.is_some() {
                mapping += 1;
            }
        }
        mapping
    }
}
