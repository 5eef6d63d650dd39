// Live pins, and what they cover.
ghost use Rattle.std.specs.Prelude.{◌≡◌, ◌⊎◌, ℕ, ◌<◌, ◌≤◌, Some, true, false, IsTrue, nat_lt, ◌&&◌, ◌||◌, if◌then◌else◌};
ghost use Rattle.lba_ranges.specs.Denoted.{is_within, covers, denotes};
ghost use Rattle.lun_versions.specs.declared.pinned.Pinned.{Pinned};
ghost use Rattle.slab.specs.Slab.{get};
ghost use Rattle.lun_versions.specs.inner.Chains.{PinBetween};
ghost use Rattle.lun_versions.specs.inner.Units.{LivesAt, NewerPin, IsEvenPin};

use lba_ranges::{Range, RangeList};
use slab::Slab;
use std::marker::Model;

/// A live pin: how many pins had been made, it included, and its ranges.
#[derive(Drop)]
pub struct Pinned {
    pub(crate) time: u64,
    // the blocks of the ranges lie from `first` on and before `end`, which tells most pins that lie
    // elsewhere without a look at the ranges, on the heap
    first: u64,
    end: u64,
    pub(crate) ranges: RangeList,
}

impl Model for Pinned {
    ghost use Rattle.lun_versions.specs.Pins.{LivePin};
    ghost use Rattle.lun_versions.specs.inner.Pins.{IsSpan};

    ghost Value = { LivePin };

    ghost view = { λ p. record { time = p.time; ranges = p.ranges } };

    ghost invariant = { λ p. IsSpan p.first p.end p.ranges };
}

impl Pinned {
    /// A pin of ranges that lie within so many blocks.
    pub(crate) fn new(time: u64, ranges: RangeList, blocks: u64) -> Pinned
        requires { IsTrue (is_within blocks ranges) }
        ensures { result ≡ record { time = time; ranges = ranges } }
    {
        let mut first = blocks;
        let mut end: u64 = 0;
        for index in 0..ranges.len() {
            let range = ranges.at(index);
            first = first.min(range.lba);
            end = end.max(range.lba + u64::from(range.count));
        }
        Pinned {
            time,
            first,
            end,
            ranges,
        }
    }

    /// The pin covers the block.
    fn covers(&self, block: u64) -> bool
        ensures { result ≡ denotes self.now.ranges block }
    {
        self.first <= block && block < self.end && denotes(&self.ranges, block)
    }
}

/// The block is in the range.
fn covers(range: Range, block: u64) -> bool
    ensures { result ≡ covers block range }
{
    range.lba <= block && block - range.lba < u64::from(range.count)
}

/// The block is in one of the ranges.
pub(crate) fn denotes(ranges: &RangeList, block: u64) -> bool
    ensures { result ≡ denotes ranges.now block }
{
    for index in 0..ranges.len() {
        if covers(ranges.at(index), block) {
            return true;
        }
    }
    false
}

/// A live pin that covers the block was made after the one moment and not after the other.
pub(crate) fn is_shown(pins: &Slab<Pinned>, block: u64, since: u64, to: u64) -> bool
    ensures yes { result ≡ true → PinBetween (LivesAt (get pins.now) block) since to }
    ensures no { result ≡ false → (time : ℕ) → LivesAt (get pins.now) block time → (time ≤ since) ⊎ (to < time) }
{
    for (key, pinned) in pins.iter() {
        let _ = key;
        if since < pinned.time && pinned.time <= to && pinned.covers(block) {
            return true;
        }
    }
    false
}

/// The first border of the ranges after a block, and before `end`.
pub(crate) fn border_after(ranges: &RangeList, blocks: u64, at: u64, end: u64) -> u64
    requires within { IsTrue (is_within blocks ranges.now) }
    requires some { at < end }
    ensures some { at < result }
    ensures within { result ≤ end }
    ensures even { (b : ℕ) → at ≤ b → b < result → denotes ranges.now b ≡ denotes ranges.now at }
{
    let mut next = end;
    for index in 0..ranges.len() {
        let range = ranges.at(index);
        let past = range.lba + u64::from(range.count);
        next = nearer(at, nearer(at, next, range.lba), past);
    }
    let _ = blocks;
    next
}

/// A border after a block, if it comes before the other.
fn nearer(at: u64, next: u64, border: u64) -> u64
    ensures { result ≡ (if nat_lt at border && nat_lt border next then border else next) }
{
    if at < border && border < next {
        border
    } else {
        next
    }
}

/// The blocks from one on, as far as pins that were made after some time go evenly.
#[derive(Drop, Clone, Copy)]
pub(crate) struct EvenPart {
    // one of them covers the blocks
    pub covered: bool,
    pub end: u64,
}

/// As far as a pin goes evenly too, if it was made after `last`.
fn with_pin(found: EvenPart, pinned: &Pinned, blocks: u64, at: u64, last: u64) -> EvenPart
    requires within { IsTrue (is_within blocks pinned.now.ranges) }
    requires some { at < found.end }
    ensures some { at < result.end }
    ensures within { result.end ≤ found.end }
    ensures even { IsEvenPin pinned.now at last result.covered result.end }
    ensures covered { result.covered ≡ (found.covered || (nat_lt last pinned.now.time && denotes pinned.now.ranges at)) }
{
    // it shows what was there before, or lies elsewhere
    if pinned.time <= last || pinned.end <= at || found.end <= pinned.first {
        return found;
    }
    let end = border_after(&pinned.ranges, blocks, at, found.end);
    if pinned.covers(at) {
        EvenPart { covered: true, end }
    } else {
        EvenPart {
            covered: found.covered,
            end,
        }
    }
}

/// The blocks from one on and before `end`, which pins that were made after `last` cover evenly.
pub(crate) fn even_part(pins: &Slab<Pinned>, blocks: u64, at: u64, end: u64, last: u64) -> EvenPart
    requires within { (pin : ℕ) (p : Pinned) → get pins.now pin ≡ Some p → IsTrue (is_within blocks p.ranges) }
    requires some { at < end }
    ensures some { at < result.end }
    ensures within { result.end ≤ end }
    ensures even { (pin : ℕ) (p : Pinned) (b : ℕ) → get pins.now pin ≡ Some p → last < p.time → at ≤ b → b < result.end → denotes p.ranges b ≡ denotes p.ranges at }
    ensures covered { result.covered ≡ true → NewerPin (get pins.now) at last }
    ensures bare { result.covered ≡ false → (time : ℕ) → LivesAt (get pins.now) at time → time ≤ last }
{
    let mut found = EvenPart {
        covered: false,
        end,
    };
    for (key, pinned) in pins.iter() {
        let _ = key;
        found = with_pin(found, pinned, blocks, at, last);
    }
    found
}
