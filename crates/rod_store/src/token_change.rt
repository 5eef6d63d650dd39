ghost use Rattle.std.specs.Prelude.{◌≡◌, ◌≤◌, ℕ, List, OnOk, OnErr, IfOk, true, Option, Some, None};
ghost use Rattle.lba_ranges.specs.declared.ranges.Range.{Range};
ghost use Rattle.lba_ranges.specs.Denoted.{denotes};
ghost use Rattle.lba_ranges.specs.Versions.{Writers};
ghost use Rattle.rod_store.specs.declared.kept.Kept.{Kept};
ghost use Rattle.rod_store.specs.declared.pinned_rod.PinnedRod.{PinnedRod};
ghost use Rattle.rod_store.specs.Pinning.{rod_shown, rod_now, holder, ArePinned};
ghost use Rattle.rod_store.specs.TokenChanges.{MayPin, is_make, unpinned, rod_made, written_with};

use crate::RodStore;
use crate::pinned_change::PinnedChange;
use crate::pinned_rod::PinnedRod;
use cm_base::OutOfMemory;
use lba_ranges::{Pins, RangeList};

/// What an act is to change in the tokens.
#[derive(Drop)]
pub enum TokenChange {
    Nothing,
    /// A token is made of the blocks of the ranges.
    Make {
        timeout: u32,
        blocks: u32,
        ranges: RangeList,
    },
    /// The token, which lives on at the moment, is used.
    Use {
        serial: u64,
    },
    Delete {
        serial: u64,
    },
}

impl TokenChange {
    /// Takes the room that the change needs. Only a new token needs room. No token is changed.
    pub fn reserve<P: Drop>(&self, tokens: &mut RodStore<PinnedRod<P>>) -> Result<(), OutOfMemory>
        ensures same { tokens.new.tokens ≡ tokens.old.tokens }
        ensures unit { tokens.new.unit ≡ tokens.old.unit }
        ensures room { OnOk result (is_make self.now ≡ true → 1 ≤ tokens.new.spare) }
        ensures grows { OnErr result (is_make self.now ≡ true) }
    {
        match self {
            TokenChange::Make { .. } => tokens.reserve(),
            _ => Ok(()),
        }
    }

    /// Pins the blocks of a token that is to be made. At `OutOfMemory` no pin is made.
    pub fn pinned<B: Pins>(self, blocks: &mut B) -> Result<PinnedChange<B::Pin>, OutOfMemory>
    where
        B::Pin: Drop,
        requires { MayPin (B.blocks blocks.old) self }
        ensures change { IfOk result (λ c. unpinned c ≡ self) }
        ensures pins { IfOk result (λ c. (own : List (Kept (PinnedRod B.Pin))) → ArePinned B.number (B.blocks blocks.old) (B.pinned blocks.old) (holder None own)
            → ArePinned B.number (B.blocks blocks.new) (B.pinned blocks.new) (holder (rod_made c) own)) }
        ensures same { OnErr result ((own : List (Kept (PinnedRod B.Pin))) → ArePinned B.number (B.blocks blocks.old) (B.pinned blocks.old) (holder None own)
            → ArePinned B.number (B.blocks blocks.new) (B.pinned blocks.new) (holder None own)) }
        ensures shows { (n : ℕ) (ranges : List Range) (block : ℕ) → B.pinned blocks.old n ≡ Some ranges → denotes ranges block ≡ true
            → B.shown blocks.new n block ≡ B.shown blocks.old n block }
        ensures made { IfOk result (λ c. (rod : PinnedRod B.Pin) → rod_made c ≡ Some rod
            → rod_shown B.number (B.block_length blocks.old) (B.shown blocks.new) rod ≡ rod_now (B.block_length blocks.old) (B.holds blocks.old) rod.ranges) }
        ensures makes { OnErr result (is_make self ≡ true) }
        ensures written { IfOk result (λ c. (w : Writers) → B.written_by blocks.old w → B.written_by blocks.new (written_with B.number c w)) }
        ensures writers { OnErr result ((w : Writers) → B.written_by blocks.old w → B.written_by blocks.new w) }
        ensures holds { (block : ℕ) → B.holds blocks.new block ≡ B.holds blocks.old block }
        ensures blocks { B.blocks blocks.new ≡ B.blocks blocks.old }
        ensures length { B.block_length blocks.new ≡ B.block_length blocks.old }
    {
        match self {
            TokenChange::Nothing => Ok(PinnedChange::Nothing),
            TokenChange::Make {
                timeout,
                blocks: count,
                ranges,
            } => {
                let pin = blocks.pin(&ranges)?;
                Ok(PinnedChange::Make {
                    timeout,
                    blocks: count,
                    rod: PinnedRod { pin, ranges },
                })
            }
            TokenChange::Use { serial } => Ok(PinnedChange::Use { serial }),
            TokenChange::Delete { serial } => Ok(PinnedChange::Delete { serial }),
        }
    }
}
