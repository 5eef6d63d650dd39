// The lists that a world fills when it ends.
ghost use Rattle.std.specs.Prelude.{◌≡◌, [], vec_capacity, IfOk};
ghost use Rattle.nexus.specs.inner.Rooms.{HasRoom};

use crate::closing::HeldUnit;
use cm_base::OutOfMemory;
use recorder::Recorder;
use std::alloc::Global;
use std::marker::Model;
use unit_gate::ClosedUnit;

/// Empty lists for the units' turns and for what is left of the units. Contracts see how many there is room for.
pub(crate) struct Rooms<R: Recorder + Drop> {
    turns: Vec<HeldUnit<R>>,
    units: Vec<ClosedUnit<R>>,
}

impl<R: Recorder + Drop> Model for Rooms<R> {
    ghost use Rattle.std.specs.Prelude.{◌≡◌, [], vec_capacity};
    ghost use Rattle.nexus.specs.inner.Rooms.{Room};

    ghost Value = { Room };

    ghost view = { λ r. record { turns = vec_capacity r.turns; units = vec_capacity r.units } };

    ghost invariant = { λ r. (r.turns.items ≡ []) × (r.units.items ≡ []) };
}

impl<R: Recorder + Drop> Rooms<R> {
    /// Rooms for so many units.
    pub(crate) fn new(alloc: Global, count: usize) -> Result<Rooms<R>, OutOfMemory>
        ensures { IfOk result (HasRoom count) }
    {
        let units = Vec::with_capacity(alloc, count)?;
        let turns = Vec::with_capacity(alloc, count)?;
        Ok(Rooms { turns, units })
    }

    /// The rooms that these lists are.
    pub(crate) fn of(turns: Vec<HeldUnit<R>>, units: Vec<ClosedUnit<R>>) -> Rooms<R>
        requires no_turn { turns.items ≡ [] }
        requires no_unit { units.items ≡ [] }
        ensures { result ≡ record { turns = vec_capacity turns; units = vec_capacity units } }
    {
        Rooms { turns, units }
    }

    /// The lists. It takes no memory.
    pub(crate) fn into_lists(self) -> (Vec<HeldUnit<R>>, Vec<ClosedUnit<R>>)
        ensures no_turn { result.0.items ≡ [] }
        ensures no_unit { result.1.items ≡ [] }
        ensures turns { vec_capacity result.0 ≡ self.turns }
        ensures units { vec_capacity result.1 ≡ self.units }
    {
        let Rooms { turns, units } = self;
        (turns, units)
    }
}

impl<R: Recorder + Drop> Drop for Rooms<R> {
    fn drop(self) {
        let Rooms { turns, units: _ } = self;
        turns.destroy_empty();
    }
}
