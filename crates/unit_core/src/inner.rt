// What a unit answers from. It has no record: its clauses speak of each list of entries that makes it so.
ghost use Rattle.std.specs.Prelude.{ℕ, List};

use crate::tables::Tables;
use cm_base::Config;
use lba_ranges::Pins;
use std::alloc::Global;

/// The tables and the counters of a unit.
#[derive(Drop)]
pub(crate) struct Core<B: Pins + Drop>
where
    B::Pin: Drop,
{
    pub alloc: Global,
    pub config: Config,
    pub unit: u16,
    pub tables: Tables<B>,
    pub last_stamp: u64,
    pub moment: u64,
}

/// How tables agree with lists of entries.
pub(crate) trait Reached {
    ghost use Rattle.std.specs.Prelude.{ℕ, List, Option};
    ghost use Rattle.cm_history.specs.declared.act.Entry.{Entry};
    ghost use Rattle.unit_core.specs.Versions.{Sight};

    // These entries make the tables as they are.
    ghost IsAfter: { Self → List Entry → Type 0 };

    // Some entries do.
    ghost IsReached: { Self → Type 0 };

    // Each live token has a pin of its own, and no other pin is live.
    ghost IsPinned: { Self → Type 0 };

    // These puts may have written what the blocks and the live tokens show.
    ghost IsWritten: { Self → (Sight → ℕ → Option ℕ) → Type 0 };
}

impl<B: Pins + Drop> Reached for Core<B>
where
    B::Pin: Drop,
{
    ghost use Rattle.std.specs.Prelude.{List};
    ghost use Rattle.cm_history.specs.declared.act.Entry.{Entry};
    ghost use Rattle.std.specs.Prelude.{ℕ, Option, None};
    ghost use Rattle.unit_core.specs.Versions.{Sight};
    ghost use Rattle.unit_core.specs.inner.Agreeing.{TablesAgree};
    ghost use Rattle.unit_core.specs.inner.Seen.{AreWriters};
    ghost use Rattle.rod_store.specs.Pinning.{rods_of, holder, ArePinned};

    ghost IsAfter = { λ c entries. TablesAgree c.config c.unit
        (B.blocks c.tables.blocks) (B.block_length c.tables.blocks) (B.holds c.tables.blocks)
        (rods_of B.number (B.block_length c.tables.blocks) (B.shown c.tables.blocks) c.tables.tokens) c.tables.jobs c.tables.reservations c.last_stamp c.moment entries };

    ghost IsReached = { λ c. (entries : List Entry) × TablesAgree c.config c.unit
        (B.blocks c.tables.blocks) (B.block_length c.tables.blocks) (B.holds c.tables.blocks)
        (rods_of B.number (B.block_length c.tables.blocks) (B.shown c.tables.blocks) c.tables.tokens) c.tables.jobs c.tables.reservations c.last_stamp c.moment entries };

    ghost IsPinned = { λ c. ArePinned B.number (B.blocks c.tables.blocks) (B.pinned c.tables.blocks) (holder None c.tables.tokens.tokens) };

    ghost IsWritten = { λ c seen. AreWriters B.number (B.written_by c.tables.blocks) c.tables.tokens.tokens seen };
}
