ghost use Rattle.std.specs.Prelude.{◌≡◌, ◌≤◌, ◌<◌, ◌^◌, ℕ, List, length, Option, Some, None};
ghost use Rattle.rod_store.specs.Kept.{expired, populated, deleted};
ghost use Rattle.rod_store.specs.declared.kept.Kept.{Kept};
ghost use Rattle.lba_ranges.specs.Versions.{Writers};
ghost use Rattle.rod_store.specs.declared.pinned_rod.PinnedRod.{PinnedRod};
ghost use Rattle.rod_store.specs.Pinning.{holder, ArePinned, ShowSame};
ghost use Rattle.rod_store.specs.TokenChanges.{MayToken, unpinned, rod_made, pinned_after};

use crate::pinned_rod::PinnedRod;
use crate::{Populated, RodStore};
use lba_ranges::Pins;

/// What an act is to change in the tokens. A new token has its pin.
#[derive(Drop)]
pub enum PinnedChange<P> {
    Nothing,
    Make {
        timeout: u32,
        blocks: u32,
        rod: PinnedRod<P>,
    },
    Use {
        serial: u64,
    },
    Delete {
        serial: u64,
    },
}

impl<P: Drop> PinnedChange<P> {
    /// What a new token stands for, if one is made.
    fn rod(self) -> Option<PinnedRod<P>>
        ensures { result ≡ rod_made self }
    {
        match self {
            PinnedChange::Make { rod, .. } => Some(rod),
            PinnedChange::Nothing | PinnedChange::Use { .. } | PinnedChange::Delete { .. } => None,
        }
    }
}

/// Gives up what is over at the moment, and ends its pins.
fn expire_all<B: Pins>(moment: u64, tokens: &mut RodStore<PinnedRod<B::Pin>>, blocks: &mut B)
where
    B::Pin: Drop,
    requires pinned { (spare : Option (PinnedRod B.Pin)) × ArePinned B.number (B.blocks blocks.old) (B.pinned blocks.old) (holder spare tokens.old.tokens) }
    ensures pinned { (spare : Option (PinnedRod B.Pin)) → ArePinned B.number (B.blocks blocks.old) (B.pinned blocks.old) (holder spare tokens.old.tokens)
        → ArePinned B.number (B.blocks blocks.new) (B.pinned blocks.new) (holder spare tokens.new.tokens) }
    ensures shows { ShowSame (B.pinned blocks.old) (B.shown blocks.old) (B.pinned blocks.new) (B.shown blocks.new) }
    ensures tokens { tokens.new.tokens ≡ expired moment tokens.old.tokens }
    ensures done { expired moment tokens.new.tokens ≡ tokens.new.tokens }
    ensures unit { tokens.new.unit ≡ tokens.old.unit }
    ensures room { tokens.new.spare ≡ tokens.old.spare }
    ensures written { (w : Writers) → B.written_by blocks.old w → B.written_by blocks.new w }
    ensures holds { (block : ℕ) → B.holds blocks.new block ≡ B.holds blocks.old block }
    ensures blocks { B.blocks blocks.new ≡ B.blocks blocks.old }
    ensures length { B.block_length blocks.new ≡ B.block_length blocks.old }
{
    while let Some(rod) = tokens.expire(moment) {
        blocks.unpin(rod.pin);
    }
}

/// Makes a token that has its pin, and ends the pin of the one that makes room.
fn populate<B: Pins>(
    moment: u64,
    timeout: u32,
    count: u32,
    rod: PinnedRod<B::Pin>,
    tokens: &mut RodStore<PinnedRod<B::Pin>>,
    blocks: &mut B,
)
where
    B::Pin: Drop,
    requires over { expired moment tokens.old.tokens ≡ tokens.old.tokens }
    requires room { 1 ≤ tokens.old.spare }
    requires serials { length tokens.old.tokens < 2 ^ 48 }
    requires pinned { ArePinned B.number (B.blocks blocks.old) (B.pinned blocks.old) (holder (Some rod) tokens.old.tokens) }
    ensures pinned { ArePinned B.number (B.blocks blocks.new) (B.pinned blocks.new) (holder None tokens.new.tokens) }
    ensures shows { ShowSame (B.pinned blocks.old) (B.shown blocks.old) (B.pinned blocks.new) (B.shown blocks.new) }
    ensures tokens { tokens.new.tokens ≡ populated tokens.old.tokens moment timeout count rod }
    ensures unit { tokens.new.unit ≡ tokens.old.unit }
    ensures written { (w : Writers) → B.written_by blocks.old w → B.written_by blocks.new w }
    ensures holds { (block : ℕ) → B.holds blocks.new block ≡ B.holds blocks.old block }
    ensures blocks { B.blocks blocks.new ≡ B.blocks blocks.old }
    ensures length { B.block_length blocks.new ≡ B.block_length blocks.old }
{
    let _placed = tokens.next_serial();
    match tokens.populate(moment, timeout, count, rod) {
        Ok(Populated { evicted, .. }) => match evicted {
            Some(ended) => blocks.unpin(ended.pin),
            None => {}
        },
        Err(_) => unreachable!(),
    }
}

/// Deletes the token of the serial, if it is live, and ends its pin.
fn delete<B: Pins>(serial: u64, tokens: &mut RodStore<PinnedRod<B::Pin>>, blocks: &mut B)
where
    B::Pin: Drop,
    requires pinned { ArePinned B.number (B.blocks blocks.old) (B.pinned blocks.old) (holder None tokens.old.tokens) }
    ensures pinned { ArePinned B.number (B.blocks blocks.new) (B.pinned blocks.new) (holder None tokens.new.tokens) }
    ensures shows { ShowSame (B.pinned blocks.old) (B.shown blocks.old) (B.pinned blocks.new) (B.shown blocks.new) }
    ensures tokens { tokens.new.tokens ≡ deleted serial tokens.old.tokens }
    ensures unit { tokens.new.unit ≡ tokens.old.unit }
    ensures written { (w : Writers) → B.written_by blocks.old w → B.written_by blocks.new w }
    ensures holds { (block : ℕ) → B.holds blocks.new block ≡ B.holds blocks.old block }
    ensures blocks { B.blocks blocks.new ≡ B.blocks blocks.old }
    ensures length { B.block_length blocks.new ≡ B.block_length blocks.old }
{
    let _placed = tokens.next_serial();
    match tokens.delete(serial) {
        Some(ended) => blocks.unpin(ended.pin),
        None => {}
    }
}

/// Ends the pin of a token that is not to be made after all.
pub fn give_up<B: Pins>(change: PinnedChange<B::Pin>, blocks: &mut B)
where
    B::Pin: Drop,
    requires pinned { (own : List (Kept (PinnedRod B.Pin))) × ArePinned B.number (B.blocks blocks.old) (B.pinned blocks.old) (holder (rod_made change) own) }
    ensures pinned { (own : List (Kept (PinnedRod B.Pin))) → ArePinned B.number (B.blocks blocks.old) (B.pinned blocks.old) (holder (rod_made change) own)
        → ArePinned B.number (B.blocks blocks.new) (B.pinned blocks.new) (holder None own) }
    ensures shows { ShowSame (B.pinned blocks.old) (B.shown blocks.old) (B.pinned blocks.new) (B.shown blocks.new) }
    ensures written { (w : Writers) → B.written_by blocks.old w → B.written_by blocks.new w }
    ensures holds { (block : ℕ) → B.holds blocks.new block ≡ B.holds blocks.old block }
    ensures blocks { B.blocks blocks.new ≡ B.blocks blocks.old }
    ensures length { B.block_length blocks.new ≡ B.block_length blocks.old }
{
    match change.rod() {
        Some(rod) => blocks.unpin(rod.pin),
        None => {}
    }
}

/// Changes the tokens at a moment, at which some may expire. The pin of each token that ends is ended.
/// It takes no memory.
pub fn settle<B: Pins>(
    change: PinnedChange<B::Pin>,
    moment: u64,
    tokens: &mut RodStore<PinnedRod<B::Pin>>,
    blocks: &mut B,
)
where
    B::Pin: Drop,
    requires may { MayToken tokens.old moment (unpinned change) }
    requires pinned { ArePinned B.number (B.blocks blocks.old) (B.pinned blocks.old) (holder (rod_made change) tokens.old.tokens) }
    ensures pinned { ArePinned B.number (B.blocks blocks.new) (B.pinned blocks.new) (holder None tokens.new.tokens) }
    ensures shows { ShowSame (B.pinned blocks.old) (B.shown blocks.old) (B.pinned blocks.new) (B.shown blocks.new) }
    ensures tokens { tokens.new.tokens ≡ pinned_after change moment tokens.old.tokens }
    ensures unit { tokens.new.unit ≡ tokens.old.unit }
    ensures written { (w : Writers) → B.written_by blocks.old w → B.written_by blocks.new w }
    ensures holds { (block : ℕ) → B.holds blocks.new block ≡ B.holds blocks.old block }
    ensures blocks { B.blocks blocks.new ≡ B.blocks blocks.old }
    ensures length { B.block_length blocks.new ≡ B.block_length blocks.old }
{
    expire_all(moment, tokens, blocks);
    match change {
        PinnedChange::Nothing => {}
        PinnedChange::Make {
            timeout,
            blocks: count,
            rod,
        } => populate(moment, timeout, count, rod, tokens, blocks),
        PinnedChange::Use { serial } => tokens.note_use(serial, moment),
        PinnedChange::Delete { serial } => delete(serial, tokens, blocks),
    }
}
