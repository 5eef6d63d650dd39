ghost use Rattle.std.specs.Prelude.{ℕ, Option, Bool};
ghost use Rattle.lba_ranges.specs.Versions.{Writers};
ghost use Rattle.unit_core.specs.Sharing.{AreShared};
ghost use Rattle.unit_core.specs.inner.VersionUnits.{shares_of, shares_told};

use lba_ranges::Pins;
use lun_versions::VersionUnit;

/// Blocks of whose versions it is known which are the same.
pub trait SharedVersions: Pins {
    // what is current of a block, or the pin of a number shows, is the version that is current, or another pin shows
    ghost shares: { Self → Option ℕ → Option ℕ → ℕ → Bool };

    // it is so whichever puts wrote them
    ghost told: { (unit : Self) (w : Writers) → Self.written_by unit w → AreShared (Self.blocks unit) (Self.pinned unit) (shares unit) w };
}

impl SharedVersions for VersionUnit {
    ghost shares = { λ u. shares_of u };

    ghost told = { λ u w by. shares_told u w by };
}
