ghost use Rattle.std.specs.Prelude.{◌≡◌};
ghost use Rattle.nexus.specs.Safe.{IsSoundRoot};

use crate::rooms::Rooms;
use merged_history::RootSeat;
use recorder::Recorder;
use std::marker::Model;
use turn_gate::GateSeat;
use unit_gate::RecordedUnit;

/// What makes the passes of a world and joins them. Contracts see the passes that are out, those that were joined
/// with what they made, and for each unit what is seen of its history.
#[derive(Drop)]
pub struct Root<R: Recorder + Drop> {
    pub(crate) slip: RootSeat,
    /// How many passes of nexuses were made.
    pub(crate) made: u32,
    /// How many entries the joined passes of each unit's pump have made.
    pub(crate) seqs: Vec<u64>,
    /// The first seat at the gate of each unit.
    pub(crate) seats: Vec<GateSeat<RecordedUnit<R>>>,
    /// What the end of the world wants.
    pub(crate) rooms: Rooms<R>,
}

impl<R: Recorder + Drop> Model for Root<R> {
    ghost use Rattle.nexus.specs.inner.Gates.{config_of};
    ghost use Rattle.nexus.specs.Roots.{RootView};
    ghost use Rattle.std.specs.Prelude.{length};
    ghost use Rattle.nexus.specs.inner.Keeping.{AreAbove, gates_of, root_view, KeepsRoot};
    ghost use Rattle.nexus.specs.inner.Rooms.{HasRoom};

    ghost Value = { RootView };

    ghost view = { λ r. root_view (config_of (gates_of r.seats.items)) r.made r.slip r.seats.items };

    ghost invariant = { λ r. KeepsRoot (config_of (gates_of r.seats.items)) r.made r.seqs.items r.slip r.seats.items
        × AreAbove r.seats.items × HasRoom (length r.seats.items) r.rooms };
}

impl<R: Recorder + Drop> Root<R> {
    /// What is true of every root: the entries of joined passes are those of their actors, in order, and stand in what it
    /// has seen; no two passes that are out are of one actor. It does nothing when it runs.
    pub fn sound(&self)
        ensures { IsSoundRoot self.now }
    {
        let _ = &self.seats;
    }

    /// The number of the next nexus that gets a pass.
    pub fn next_nexus(&self) -> u32
        ensures { result ≡ self.now.made }
    {
        self.made
    }
}
