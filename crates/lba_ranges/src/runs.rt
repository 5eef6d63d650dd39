ghost use Rattle.std.specs.Prelude.{◌≡◌, ◌-◌, ◌+◌, ◌<◌, ◌≤◌, ◌^◌, ◌++◌, ℕ, length, IfSome, OnOk, OnErr, true, false, map, slice_index_or, slice_set};
ghost use Rattle.std.specs.List.Sorted.{IsNonDecreasingBy};
ghost use Rattle.lba_ranges.specs.declared.fill.Fill.TheVariants.{Hole};
ghost use Rattle.lba_ranges.specs.declared.runs.PlacedPiece.{PlacedPiece};
ghost use Rattle.lba_ranges.specs.inner.HeldBlocks.{items_of, AllFull};
ghost use Rattle.lba_ranges.specs.HeldBlocks.{IsFull, filled};
ghost use Rattle.lba_ranges.specs.inner.Runs.{pieces_of, Spans, IsFirstAfter, later};

use crate::fill::{Fill, Piece};
use cm_base::OutOfMemory;
use smallvec::SmallVec;

/// A run of blocks in a list. The place where it ends is how many blocks there are up to it.
#[derive(Drop)]
pub(crate) struct PlacedPiece {
    pub(crate) end: u64,
    pub(crate) piece: Piece,
}

/// Runs in their order. Most lists have one, which lies in the value itself.
pub(crate) type Runs = SmallVec<PlacedPiece, 1>;

// the blank where a value has room for a run
impl Default for PlacedPiece {
    fn default() -> PlacedPiece {
        PlacedPiece {
            end: 0,
            piece: Piece {
                count: 0,
                fill: Fill::Hole,
            },
        }
    }
}

impl PlacedPiece {
    /// The place in the run of its block that stands at this place in the list.
    pub(crate) fn place(&self, index: u64) -> u32
        requires from { self.now.end ≤ index + self.now.piece.count }
        requires to { index < self.now.end }
        ensures { result + self.now.end ≡ index + self.now.piece.count }
    {
        self.piece.count - (self.end - index) as u32
    }
}

/// Which is the first run that ends after this place.
pub(crate) fn first_after(runs: &[PlacedPiece], place: u64) -> usize
    requires { IsNonDecreasingBy (λ (run : PlacedPiece). run.end) runs.now }
    ensures within { result ≤ length runs.now }
    ensures first { IsFirstAfter runs.now place result }
{
    runs.partition_point(|run| run.end <= place)
}

/// How long a hole is with the blocks of a hole more: `None` where one of them is no hole,
/// or a run can't be as long.
fn widened(last: &Piece, more: &Piece) -> Option<u32>
    ensures hole { IfSome result (λ count. last.now ≡ record { count = count - more.now.count; fill = Hole }) }
    ensures more { IfSome result (λ count. more.now.count ≤ count) }
    ensures both { IfSome result (λ count. more.now.fill ≡ Hole) }
{
    match (&last.fill, &more.fill) {
        (Fill::Hole, Fill::Hole) => last.count.checked_add(more.count),
        _ => None,
    }
}

/// Puts a run in the place of another.
fn replace_run(runs: &mut Runs, index: usize, run: PlacedPiece)
    requires { index < length runs.old.items }
    ensures { runs.new.items ≡ slice_set runs.old.items index run }
{
    runs[index] = run;
}

/// Lets a hole at the end take in the blocks of a hole, which end at this place.
/// Otherwise, at `false`, all stays.
fn widen_hole(runs: &mut Runs, end: u64, more: &Piece) -> bool
    ensures widened { result ≡ true → (size : ℕ) → items_of size (pieces_of runs.new.items)
        ≡ items_of size (pieces_of runs.old.items) ++ filled size more.now.count more.now.fill }
    ensures full { (size : ℕ) → AllFull size (pieces_of runs.old.items) → AllFull size (pieces_of runs.new.items) }
    ensures spans { result ≡ true → (before : ℕ) → Spans 0 runs.old.items before → end ≡ before + more.now.count
        → Spans 0 runs.new.items end }
    ensures kept { result ≡ false → runs.new ≡ runs.old }
{
    let Some(last) = runs.last() else {
        return false;
    };
    let Some(count) = widened(&last.piece, more) else {
        return false;
    };
    let last = runs.len() - 1;
    let piece = Piece {
        count,
        fill: Fill::Hole,
    };
    replace_run(runs, last, PlacedPiece { end, piece });
    true
}

/// Adds a run to the end, up to this place; a hole joins the hole before it.
pub(crate) fn push_joined(runs: &mut Runs, end: u64, piece: Piece) -> Result<(), OutOfMemory>
    ensures items { OnOk result ((size : ℕ) → items_of size (pieces_of runs.new.items)
        ≡ items_of size (pieces_of runs.old.items) ++ filled size piece.count piece.fill) }
    ensures full { OnOk result ((size : ℕ) → AllFull size (pieces_of runs.old.items) → IsFull size piece.count piece.fill
        → AllFull size (pieces_of runs.new.items)) }
    ensures spans { OnOk result ((before : ℕ) → Spans 0 runs.old.items before → end ≡ before + piece.count
        → Spans 0 runs.new.items end) }
    ensures err { OnErr result (runs.new.items ≡ runs.old.items) }
{
    if widen_hole(runs, end, &piece) {
        return Ok(());
    }
    runs.push(PlacedPiece { end, piece })?;
    Ok(())
}

/// Lets each run end so many blocks later.
pub(crate) fn move_ends(runs: &mut Runs, by: u64)
    requires { (k : ℕ) (d : PlacedPiece) → k < length runs.old.items → (slice_index_or runs.old.items k d).end + by < 2 ^ 64 }
    ensures { runs.new.items ≡ map (later by) runs.old.items }
{
    for run in runs.iter_mut() {
        run.end += by;
    }
}
