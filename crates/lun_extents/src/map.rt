// What is done to the map of extents. An extent reaches to the first block of the next one at most.
ghost use Rattle.std.specs.Prelude.{◌≡◌, ℕ, ◌+◌, ◌-◌, ◌<◌, ◌≤◌, ◌^◌, ◌&&◌, ◌==◌, List, Option, None, Some, IsSome, IfOk, OnOk, OnErr, IfSome, IfNone, true, nat_le, nat_lt, if◌then◌else◌};
ghost use Rattle.lba_ranges.specs.HeldBlocks.{filled, held_at, IsFull};
ghost use Rattle.lba_ranges.specs.Denoted.{row};
ghost use Rattle.lba_ranges.specs.declared.fill.Piece.{Piece};
ghost use Rattle.lba_ranges.specs.Writings.{paired, unmapped, after};
ghost use Rattle.lun_extents.specs.Extents.{stored, held_from, held_in};
ghost use Rattle.lun_extents.specs.inner.Extents.{emptied, AreExtents};
ghost use Rattle.lun_extents.specs.declared.map.Occupancy.{Occupancy};
ghost use Rattle.lun_extents.specs.inner.Runs.{IsAlone, IsClear};

use cm_base::OutOfMemory;
use lba_ranges::{Fill, Piece};
use std::collections::BTreeMap;

/// The extents by their first blocks.
pub(crate) type Stored = BTreeMap<u64, Piece>;

/// The first block at which an extent begins, of those from `from` on and before `to`.
pub(crate) fn next_first(map: &Stored, from: u64, to: u64) -> Option<u64>
    requires { from ≤ to }
    ensures found { IfSome result (λ first. (from ≤ first) × (first < to) × IsSome (stored map.now.entries first)) }
    ensures before { IfSome result (λ first. (b : ℕ) → from ≤ b → b < first → stored map.now.entries b ≡ None) }
    ensures none { IfNone result ((b : ℕ) → from ≤ b → b < to → stored map.now.entries b ≡ None) }
{
    if from == to {
        return None;
    }
    // one search, where a range with two ends takes two
    match map.range(from..).next() {
        Some((first, _)) if *first < to => Some(*first),
        _ => None,
    }
}

/// The nearest extent at a block or below it, and its first block.
pub(crate) fn nearest(map: &Stored, block: u64) -> Option<(u64, &Piece)>
    ensures found { IfSome result (λ near. (near.0 ≤ block) × (stored map.now.entries near.0 ≡ Some near.1.now)) }
    ensures above { IfSome result (λ near. (b : ℕ) → near.0 < b → b ≤ block → stored map.now.entries b ≡ None) }
    ensures none { IfNone result ((b : ℕ) → b ≤ block → stored map.now.entries b ≡ None) }
{
    match map.range(..=block).next_back() {
        Some((first, piece)) => Some((*first, piece)),
        None => None,
    }
}

/// A place in an extent, if it reaches as far.
pub(crate) fn place_in(piece: &Piece, place: u64) -> Option<u32>
    ensures inside { IfSome result (λ same. (same ≡ place) × (same < piece.now.count)) }
    ensures outside { IfNone result (piece.now.count ≤ place) }
    ensures count { piece.now.count < 2 ^ 32 }
{
    if place < u64::from(piece.count) {
        Some(place as u32)
    } else {
        None
    }
}

/// The extent that has a block, and the block's place in it.
pub(crate) fn extent_at(map: &Stored, block: u64) -> Option<(&Piece, u32)>
    ensures place { IfSome result (λ found. found.1 < found.0.now.count) }
    ensures count { IfSome result (λ found. found.0.now.count < 2 ^ 32) }
    ensures stored { IfSome result (λ found. stored map.now.entries (block - found.1) ≡ Some found.0.now) }
    ensures low { IfSome result (λ found. found.1 ≤ block) }
    ensures above { IfSome result (λ found. (b : ℕ) → block - found.1 < b → b ≤ block → stored map.now.entries b ≡ None) }
    ensures held { IfSome result (λ found. (size i : ℕ) → held_from size (stored map.now.entries) block i
        ≡ held_at (filled size found.0.now.count found.0.now.fill) (found.1 + i)) }
    ensures none { IfNone result ((size i : ℕ) → held_from size (stored map.now.entries) block i ≡ None) }
{
    let Some((first, piece)) = nearest(map, block) else {
        return None;
    };
    match place_in(piece, block - first) {
        Some(place) => Some((piece, place)),
        None => None,
    }
}

/// What is held from a block on, up to where the next extent begins; it shares the bytes.
fn rest_at(map: &Stored, blocks: u64, size: u32, block: u64) -> Result<Piece, OutOfMemory>
    requires extents { AreExtents blocks size map.now.entries }
    requires within { block ≤ blocks }
    ensures full { IfOk result (λ rest. IsFull size rest.count rest.fill) }
    ensures within { IfOk result (λ rest. block + rest.count ≤ blocks) }
    ensures held { IfOk result (λ rest. (i : ℕ) → held_at (filled size rest.count rest.fill) i
        ≡ held_from size (stored map.now.entries) block i) }
{
    match extent_at(map, block) {
        Some((piece, place)) => {
            let rest = piece.part(size, place, piece.count - place)?;
            Ok(rest)
        }
        None => Ok(Piece {
            count: 0,
            fill: Fill::Hole,
        }),
    }
}

/// Lets an extent begin at a block. Each block holds what it held, at `OutOfMemory` too.
pub(crate) fn split(map: &mut Stored, blocks: u64, size: u32, block: u64) -> Result<(), OutOfMemory>
    requires extents { AreExtents blocks size map.old.entries }
    requires within { block ≤ blocks }
    ensures begins { OnOk result (IsSome (stored map.new.entries block)) }
    ensures kept { (b : ℕ) → IsSome (stored map.old.entries b) → IsSome (stored map.new.entries b) }
    ensures extents { AreExtents blocks size map.new.entries }
    ensures held { (b : ℕ) → held_in size map.new.entries b ≡ held_in size map.old.entries b }
{
    if !map.contains_key(&block) {
        let rest = rest_at(map, blocks, size, block)?;
        map.insert(block, rest)?;
    }
    Ok(())
}

/// Takes out the extents that begin in a row of blocks.
pub(crate) fn take_out(map: &mut Stored, from: u64, to: u64)
    requires { from ≤ to }
    ensures inside { (b : ℕ) → from ≤ b → b < to → stored map.new.entries b ≡ None }
    ensures below { (b : ℕ) → b < from → stored map.new.entries b ≡ stored map.old.entries b }
    ensures above { (b : ℕ) → to ≤ b → stored map.new.entries b ≡ stored map.old.entries b }
{
    while let Some(first) = next_first(map, from, to) {
        map.remove(&first);
    }
}

/// Gives an extent that is there other blocks. It takes no memory.
fn replace(map: &mut Stored, first: u64, piece: Piece)
    requires { IsSome (stored map.old.entries first) }
    ensures { (b : ℕ) → stored map.new.entries b ≡ (if first == b then Some piece else stored map.old.entries b) }
{
    let was: Result<_, _> = map.insert(first, piece);
    let _ = was.unwrap();
}

/// Lets an extent begin at a block, where one begins at the end of its blocks too, and where none
/// of those between begins another one any more.
pub(crate) fn set(map: &mut Stored, lba: u64, piece: Piece)
    requires some { 1 ≤ piece.count }
    requires numbers { lba + piece.count < 2 ^ 64 }
    requires start { IsSome (stored map.old.entries lba) }
    requires end { IsSome (stored map.old.entries (lba + piece.count)) }
    ensures held { (size b : ℕ) → held_in size map.new.entries b
        ≡ after (paired (row lba piece.count) (filled size piece.count piece.fill)) b (held_in size map.old.entries b) }
    ensures below { (b : ℕ) → b ≤ lba → IsSome (stored map.old.entries b) → IsSome (stored map.new.entries b) }
    ensures above { (b : ℕ) → lba + piece.count ≤ b → stored map.new.entries b ≡ stored map.old.entries b }
    ensures extents { (blocks size : ℕ) → AreExtents blocks size map.old.entries → IsFull size piece.count piece.fill
        → lba + piece.count ≤ blocks → AreExtents blocks size map.new.entries }
{
    let end = lba + u64::from(piece.count);
    take_out(map, lba + 1, end);
    replace(map, lba, piece);
}

/// What stands in a row of blocks.
#[derive(Clone, Copy, PartialEq, Eq)]
pub(crate) enum Occupancy {
    /// Nothing: no extent begins there, and none goes on there.
    Clear,
    /// What one extent can take the place of: none begins within the row, and none goes on behind it.
    Alone,
    /// Anything else.
    Mixed,
}

/// What stands in a row of blocks, as one search tells it.
pub(crate) fn occupied(map: &Stored, lba: u64, count: u32) -> Occupancy
    requires some { 1 ≤ count }
    requires numbers { lba + count < 2 ^ 64 }
    ensures clear { result ≡ Occupancy.Clear → IsClear map.now.entries lba count }
    ensures alone { result ≡ Occupancy.Alone → IsAlone map.now.entries lba count }
{
    let last = lba + u64::from(count) - 1;
    let Some((first, piece)) = nearest(map, last) else {
        return Occupancy::Clear;
    };
    if first < lba && u64::from(piece.count) <= lba - first {
        Occupancy::Clear
    } else if first <= lba && u64::from(piece.count) <= last - first + 1 {
        Occupancy::Alone
    } else {
        Occupancy::Mixed
    }
}

/// Lets an extent begin at a block, where none begins within its blocks and none goes on behind them.
/// At `OutOfMemory` all is as before.
pub(crate) fn set_alone(map: &mut Stored, lba: u64, piece: Piece) -> Result<(), OutOfMemory>
    requires some { 1 ≤ piece.count }
    requires alone { IsAlone map.old.entries lba piece.count }
    ensures held { OnOk result ((size b : ℕ) → held_in size map.new.entries b
        ≡ after (paired (row lba piece.count) (filled size piece.count piece.fill)) b (held_in size map.old.entries b)) }
    ensures extents { OnOk result ((blocks size : ℕ) → AreExtents blocks size map.old.entries → IsFull size piece.count piece.fill
        → lba + piece.count ≤ blocks → AreExtents blocks size map.new.entries) }
    ensures start { OnOk result (stored map.new.entries lba ≡ Some piece) }
    ensures others { OnOk result ((b : ℕ) → (b ≡ lba → ⊥) → stored map.new.entries b ≡ stored map.old.entries b) }
    ensures same { OnErr result (map.new.entries ≡ map.old.entries) }
{
    map.insert(lba, piece)?;
    Ok(())
}

/// Lets each extent that begins in a row of blocks hold nothing. It takes no memory.
pub(crate) fn empty_extents(map: &mut Stored, from: u64, to: u64)
    requires { from ≤ to }
    ensures inside { (b : ℕ) → from ≤ b → b < to → stored map.new.entries b ≡ emptied (stored map.old.entries b) }
    ensures below { (b : ℕ) → b < from → stored map.new.entries b ≡ stored map.old.entries b }
    ensures above { (b : ℕ) → to ≤ b → stored map.new.entries b ≡ stored map.old.entries b }
{
    let mut at = from;
    while let Some(first) = next_first(map, at, to) {
        replace(
            map,
            first,
            Piece {
                count: 0,
                fill: Fill::Hole,
            },
        );
        at = first + 1;
    }
}

/// Unmaps a row of blocks where an extent begins at its start and at its end. It takes no memory.
pub(crate) fn unmap(map: &mut Stored, lba: u64, count: u32)
    requires numbers { lba + count < 2 ^ 64 }
    requires start { IsSome (stored map.old.entries lba) }
    requires end { IsSome (stored map.old.entries (lba + count)) }
    ensures held { (size b : ℕ) → held_in size map.new.entries b ≡ after (unmapped (row lba count)) b (held_in size map.old.entries b) }
    ensures kept { (b : ℕ) → IsSome (stored map.old.entries b) → IsSome (stored map.new.entries b) }
    ensures extents { (blocks size : ℕ) → AreExtents blocks size map.old.entries → AreExtents blocks size map.new.entries }
{
    empty_extents(map, lba, lba + u64::from(count));
}

/// Lets the extent before a block, at which another one begins, end there at the latest. At `false`
/// it could not be cut. Each block holds what it held.
fn end_before(map: &mut Stored, size: u32, block: u64) -> bool
    requires next { IsSome (stored map.old.entries block) }
    requires full { (b : ℕ) (extent : Piece) → stored map.old.entries b ≡ Some extent → IsFull size extent.count extent.fill }
    ensures ended { result ≡ true → 0 < block → (i : ℕ) → held_from size (stored map.new.entries) (block - 1) (1 + i) ≡ None }
    ensures held { (b : ℕ) → held_in size map.new.entries b ≡ held_in size map.old.entries b }
    ensures above { (b : ℕ) → block ≤ b → stored map.new.entries b ≡ stored map.old.entries b }
    ensures extents { (blocks : ℕ) → AreExtents blocks size map.old.entries → AreExtents blocks size map.new.entries }
{
    if block == 0 {
        return true;
    }
    let Some((piece, place)) = extent_at(map, block - 1) else {
        return true;
    };
    if piece.count == place + 1 {
        return true;
    }
    let Ok(part) = piece.part(size, 0, place + 1) else {
        return false;
    };
    replace(map, block - 1 - u64::from(place), part);
    true
}

/// An extent that holds nothing begins at a block.
fn is_hole(map: &Stored, block: u64) -> bool
    ensures some { result ≡ true → IsSome (stored map.now.entries block) }
    ensures nothing { result ≡ true → (size i : ℕ) → held_from size (stored map.now.entries) block i ≡ None }
{
    match map.get(&block) {
        Some(piece) => matches!(piece.fill, Fill::Hole),
        None => false,
    }
}

/// Takes out an extent that holds nothing, where none before it goes on there.
/// Each block holds what it held.
pub(crate) fn remove_empty_extent(map: &mut Stored, size: u32, block: u64)
    requires full { (b : ℕ) (extent : Piece) → stored map.old.entries b ≡ Some extent → IsFull size extent.count extent.fill }
    ensures held { (b : ℕ) → held_in size map.new.entries b ≡ held_in size map.old.entries b }
    ensures extents { (blocks : ℕ) → AreExtents blocks size map.old.entries → AreExtents blocks size map.new.entries }
{
    if !is_hole(map, block) {
        return;
    }
    if end_before(map, size, block) {
        map.remove(&block);
    }
}

/// Takes out what is not needed of the extents that begin in a row of blocks or at its end.
/// Each block holds what it held.
pub(crate) fn remove_empty_extents(map: &mut Stored, blocks: u64, size: u32, from: u64, to: u64)
    requires row { from ≤ to }
    requires extents { AreExtents blocks size map.old.entries }
    ensures held { (b : ℕ) → held_in size map.new.entries b ≡ held_in size map.old.entries b }
    ensures extents { AreExtents blocks size map.new.entries }
{
    let mut at = from;
    while let Some(first) = next_first(map, at, to) {
        remove_empty_extent(map, size, first);
        at = first + 1;
    }
    remove_empty_extent(map, size, to);
}
