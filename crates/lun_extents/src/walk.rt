// Walks over the blocks, one run after the other.
ghost use Rattle.std.specs.Prelude.{◌≡◌, ℕ, ◌+◌, ◌-◌, ◌<◌, ◌≤◌, ◌^◌, Some, None, IfOk, IfSome, IfNone, map, is_some};
ghost use Rattle.lba_ranges.specs.HeldBlocks.{filled, held_at, IsFull};
ghost use Rattle.lba_ranges.specs.Denoted.{row};
ghost use Rattle.lun_extents.specs.Extents.{stored, held_from, held_in};
ghost use Rattle.lun_extents.specs.inner.Extents.{AreExtents};

use crate::map::{Stored, extent_at, nearest, next_first, place_in};
use cm_base::OutOfMemory;
use lba_ranges::{Fill, Piece};

/// A run of blocks that are all mapped, or all unmapped.
#[derive(Drop, Clone, Copy)]
pub(crate) struct Stretch {
    pub end: u64,
    pub mapped: bool,
}

/// The end of the blocks, from a block on and before `to`, up to which no other extent begins.
fn gap_end(extents: &Stored, block: u64, to: u64) -> u64
    requires { block < to }
    ensures some { block < result }
    ensures within { result ≤ to }
    ensures held { (size b : ℕ) → block ≤ b → b < result
        → held_in size extents.now.entries b ≡ held_from size (stored extents.now.entries) block (b - block) }
{
    match next_first(extents, block + 1, to) {
        Some(first) => first,
        None => to,
    }
}

/// The extent that has a block, with the block's place in it, and the end of the blocks, before `to`, up to which no
/// other one begins.
fn reach_at(extents: &Stored, block: u64, to: u64) -> (Option<(&Piece, u32)>, u64)
    requires { block < to }
    ensures some { block < result.1 }
    ensures within { result.1 ≤ to }
    ensures gap { (size b : ℕ) → block ≤ b → b < result.1
        → held_in size extents.now.entries b ≡ held_from size (stored extents.now.entries) block (b - block) }
    ensures place { IfSome result.0 (λ found. found.1 < found.0.now.count) }
    ensures count { IfSome result.0 (λ found. found.0.now.count < 2 ^ 32) }
    ensures stored { IfSome result.0 (λ found. stored extents.now.entries (block - found.1) ≡ Some found.0.now) }
    ensures held { IfSome result.0 (λ found. (size i : ℕ) → held_from size (stored extents.now.entries) block i
        ≡ held_at (filled size found.0.now.count found.0.now.fill) (found.1 + i)) }
    ensures none { IfNone result.0 ((size i : ℕ) → held_from size (stored extents.now.entries) block i ≡ None) }
{
    // mostly none begins behind the block, and then one search tells both
    match nearest(extents, to - 1) {
        Some((first, piece)) if first <= block => match place_in(piece, block - first) {
            Some(place) => (Some((piece, place)), to),
            None => (None, to),
        },
        Some(_) => {
            let end = gap_end(extents, block, to);
            (extent_at(extents, block), end)
        }
        None => (None, to),
    }
}

/// The blocks, from a block on and before `to`, that lie in one extent, or in none.
pub(crate) fn run_at(extents: &Stored, block: u64, to: u64) -> Stretch
    requires { block < to }
    ensures some { block < result.end }
    ensures within { result.end ≤ to }
    ensures alike { (size b : ℕ) → block ≤ b → b < result.end → is_some (held_in size extents.now.entries b) ≡ result.mapped }
{
    let (found, end) = reach_at(extents, block, to);
    match found {
        Some((piece, place)) => Stretch {
            end: block + u64::from(piece.count - place).min(end - block),
            mapped: matches!(piece.fill, Fill::Bytes(_)),
        },
        None => Stretch { end, mapped: false },
    }
}

/// The first of these blocks, those that lie in one extent, or in none; they share its bytes.
pub(crate) fn piece_at(
    extents: &Stored,
    blocks: u64,
    size: u32,
    block: u64,
    most: u32,
) -> Result<Piece, OutOfMemory>
    requires extents { AreExtents blocks size extents.now.entries }
    requires some { 0 < most }
    requires numbers { block + most < 2 ^ 64 }
    ensures some { IfOk result (λ piece. 0 < piece.count) }
    ensures within { IfOk result (λ piece. piece.count ≤ most) }
    ensures full { IfOk result (λ piece. IsFull size piece.count piece.fill) }
    ensures held { IfOk result (λ piece. filled size piece.count piece.fill
        ≡ map (held_in size extents.now.entries) (row block piece.count)) }
{
    let (found, end) = reach_at(extents, block, block + u64::from(most));
    let count = (end - block) as u32;
    match found {
        Some((piece, place)) => {
            let part = piece.part(size, place, count.min(piece.count - place))?;
            Ok(part)
        }
        None => Ok(Piece {
            count,
            fill: Fill::Hole,
        }),
    }
}
