// What holds of each history whose entries had room.
ghost use Rattle.std.specs.Prelude.{ℕ};
ghost use Rattle.cm_base.specs.Configuration.{Configuration};
ghost use Rattle.unit_core.specs.Serving.{ServingLaw};

/// An act that serves a running operation finds room in the record, but at the last stamp, wherever each entry of the
/// unit had room when it was done.
pub fn serving_law()
    ensures { (config : Configuration) (unit : ℕ) → ServingLaw config unit }
{}
