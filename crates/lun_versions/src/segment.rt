// What blocks in a row held before they were changed.
ghost use Rattle.std.specs.Prelude.{◌≡◌, ℕ, ◌+◌, ◌-◌, ◌<◌, ◌≤◌, ◌++◌, ◌∷◌, [], length, slice_get, Some, IfSome, IfNone, IfOk, OnOk};
ghost use Rattle.std.specs.Vec.{vec_len, vec_capacity};
ghost use Rattle.lba_ranges.specs.HeldBlocks.{held_at};
ghost use Rattle.lba_ranges.specs.Writings.{Held};
ghost use Rattle.lun_versions.specs.declared.segment.EarlierVersion.{EarlierVersion};
ghost use Rattle.lun_versions.specs.inner.ShownParts.{ShowsEarlierOf, ShowsCurrentOf};
ghost use Rattle.lun_versions.specs.inner.Splits.{IsPart};
ghost use Rattle.slab.specs.Slab.{get};
ghost use Rattle.lun_versions.specs.inner.Units.{LivesAt};
ghost use Rattle.lun_versions.specs.inner.GivenUp.{IsGivenUpAt};
ghost use Rattle.std.specs.List.{remove};
ghost use Rattle.lun_versions.specs.Chains.{shown_at};
ghost use Rattle.lun_versions.specs.inner.Chains.{last_to, given_up, since_at, until_at};
ghost use Rattle.lun_versions.specs.Segments.{slots_of};

use crate::pinned::{Pinned, is_shown};
use cm_base::OutOfMemory;
use lba_ranges::BlockList;
use slab::Slab;
use std::alloc::Global;

/// What the blocks of a segment held until so many pins had been made.
#[derive(Drop)]
pub struct EarlierVersion {
    pub(crate) to: u64,
    pub(crate) list: BlockList,
}

/// Blocks in a row, and their earlier versions, the oldest first.
#[derive(Drop)]
pub struct Segment {
    pub(crate) count: u32,
    pub(crate) versions: Vec<EarlierVersion>,
}

/// An earlier version: its place, and the pins that show it. They were made after the one moment and
/// not after the other.
#[derive(Drop, Clone, Copy)]
pub(crate) struct Span {
    pub index: usize,
    pub since: u64,
    pub to: u64,
}

/// The earlier version that a pin of this time shows; `None`: it shows the current one.
pub(crate) fn span_at(versions: &[EarlierVersion], time: u64) -> Option<Span>
    requires { 0 < time }
    ensures within { IfSome result (λ span. span.index < length versions.now) }
    ensures since { IfSome result (λ span. (place : ℕ) → span.since ≡ since_at time 0 (slots_of place versions.now)) }
    ensures until { IfSome result (λ span. (place : ℕ) → span.to ≡ until_at time (slots_of place versions.now)) }
    ensures shown { IfSome result (λ span. (place : ℕ) (now : Held) (v : EarlierVersion) → slice_get versions.now span.index ≡ Some v
        → shown_at (slots_of place versions.now) time now ≡ held_at v.list.items place) }
    ensures given_up { IfSome result (λ span. (place : ℕ) → slots_of place (remove versions.now span.index) ≡ given_up time (slots_of place versions.now)) }
    ensures newest { IfNone result ((place : ℕ) (now : Held) → shown_at (slots_of place versions.now) time now ≡ now) }
    ensures current { IfNone result ((place : ℕ) → last_to 0 (slots_of place versions.now) < time) }
{
    let mut since = 0;
    for index in 0..versions.len() {
        let to = versions[index].to;
        if time <= to {
            return Some(Span { index, since, to });
        }
        since = to;
    }
    None
}

/// Gives up the earlier version of a segment that a pin of this time showed, where none of these pins
/// shows it at the segment's first block. The answer is how many of its blocks were mapped.
/// It takes no memory.
pub(crate) fn give_up(segment: &mut Segment, pins: &Slab<Pinned>, first: u64, time: u64) -> u64
    requires { 0 < time }
    ensures { IsGivenUpAt (LivesAt (get pins.now) first) time segment.old segment.new result }
{
    let Some(span) = span_at(&segment.versions, time) else {
        return 0;
    };
    if is_shown(pins, first, span.since, span.to) {
        return 0;
    }
    let version = segment.versions.remove(span.index);
    version.list.mapped()
}

/// Blocks from one on that a pin shows alike: as an earlier version, or else as they stand.
#[derive(Drop)]
pub(crate) struct ShownPart {
    pub end: u64,
    pub earlier: Option<BlockList>,
}

/// What a pin of this time shows of the blocks from `at` on and before `end`, where this is the
/// nearest segment.
pub(crate) fn shown_part(
    segment: &Segment,
    alloc: Global,
    first: u64,
    at: u64,
    end: u64,
    time: u64,
) -> Result<ShownPart, OutOfMemory>
    requires low { first ≤ at }
    requires some { at < end }
    requires time { 0 < time }
    requires whole { (k : ℕ) (v : EarlierVersion) → slice_get segment.now.versions.items k ≡ Some v → length v.list.items ≡ segment.now.count }
    ensures some { IfOk result (λ part. at < part.end) }
    ensures within { IfOk result (λ part. part.end ≤ end) }
    ensures earlier { IfOk result (λ part. IfSome part.earlier (λ list. ShowsEarlierOf segment.now (at - first) (part.end - at) time list)) }
    ensures current { IfOk result (λ part. IfNone part.earlier (ShowsCurrentOf segment.now (at - first) (part.end - at) time)) }
{
    let place = at - first;
    if place >= u64::from(segment.count) {
        return Ok(ShownPart { end, earlier: None });
    }
    let count = (end - at).min(u64::from(segment.count) - place);
    match span_at(&segment.versions, time) {
        Some(span) => {
            let list = segment.versions[span.index]
                .list
                .slice(alloc, place, count)?;
            Ok(ShownPart {
                end: at + count,
                earlier: Some(list),
            })
        }
        None => Ok(ShownPart {
            end: at + count,
            earlier: None,
        }),
    }
}

/// Some blocks of a segment, with their earlier versions, which share its bytes.
pub(crate) fn part_of(
    segment: &Segment,
    alloc: Global,
    from: u32,
    count: u32,
) -> Result<Segment, OutOfMemory>
    requires within { from + count ≤ segment.now.count }
    requires long { (k : ℕ) (v : EarlierVersion) → slice_get segment.now.versions.items k ≡ Some v → length v.list.items ≡ segment.now.count }
    ensures count { IfOk result (λ part. part.count ≡ count) }
    ensures part { IfOk result (λ part. IsPart from count segment.now.versions.items part.versions.items) }
{
    let mut versions = Vec::new(alloc);
    for index in 0..segment.versions.len() {
        let version = &segment.versions[index];
        let list = version
            .list
            .slice(alloc, u64::from(from), u64::from(count))?;
        versions.push(EarlierVersion {
            to: version.to,
            list,
        })?;
    }
    Ok(Segment { count, versions })
}

/// When the last of the earlier versions was changed; 0 where there is none.
fn last_of(versions: &[EarlierVersion]) -> u64
    ensures { (place : ℕ) → last_to 0 (slots_of place versions.now) ≡ result }
{
    if versions.is_empty() {
        return 0;
    }
    versions[versions.len() - 1].to
}

/// Blocks from one on that were last changed together, as far as it is kept.
#[derive(Drop, Clone, Copy)]
pub(crate) struct ChangedRun {
    pub last: u64,
    pub end: u64,
}

/// The blocks from `at` on and before `end` that lie in the segment, or past it, where this is the
/// nearest segment.
pub(crate) fn run_of(segment: &Segment, first: u64, at: u64, end: u64) -> ChangedRun
    requires low { first ≤ at }
    requires some { at < end }
    ensures some { at < result.end }
    ensures within { result.end ≤ end }
    ensures last { (place : ℕ) → at - first < segment.now.count → last_to 0 (slots_of place segment.now.versions.items) ≡ result.last }
    ensures inside { at - first < segment.now.count → result.end ≤ first + segment.now.count }
    ensures past { segment.now.count ≤ at - first → result.last ≡ 0 }
{
    let place = at - first;
    if place >= u64::from(segment.count) {
        return ChangedRun { last: 0, end };
    }
    let count = (end - at).min(u64::from(segment.count) - place);
    ChangedRun {
        last: last_of(&segment.versions),
        end: at + count,
    }
}

/// Adds a version to a segment that has room for it. It takes no memory.
pub(crate) fn add(segment: &mut Segment, version: EarlierVersion)
    requires { vec_len segment.old.versions < vec_capacity segment.old.versions }
    ensures count { segment.new.count ≡ segment.old.count }
    ensures items { segment.new.versions.items ≡ segment.old.versions.items ++ version ∷ [] }
{
    let done: Result<_, _> = segment.versions.push(version);
    done.unwrap();
}

/// Makes room for one version more.
pub(crate) fn reserve(segment: &mut Segment) -> Result<(), OutOfMemory>
    ensures count { segment.new.count ≡ segment.old.count }
    ensures items { segment.new.versions.items ≡ segment.old.versions.items }
    ensures room { OnOk result (vec_len segment.new.versions < vec_capacity segment.new.versions) }
{
    segment.versions.reserve(1)?;
    Ok(())
}
