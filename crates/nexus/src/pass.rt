ghost use Rattle.std.specs.Prelude.{◌≡◌, true};
ghost use Rattle.nexus.specs.Safe.{IsSafe, IsSoundPass};

use cm_history::Actor;
use merged_history::PassSeat;
use recorder::Recorder;
use std::marker::Model;
use turn_gate::GateSeat;
use unit_gate::RecordedUnit;

/// One actor's way through a world. Contracts see the entries that it has made (`own`), and for each unit what it has
/// seen of the history (`seen`), whether it holds the unit, and how often it found the unit's turn taken (`misses`).
#[derive(Drop)]
pub struct Pass<R: Recorder + Drop> {
    pub(crate) slip: PassSeat,
    pub(crate) actor: Actor,
    /// How many entries its actor has made.
    pub(crate) seq: u64,
    /// The stamp of its last entry, or 0.
    pub(crate) last_stamp: u64,
    /// One at the gate of each unit.
    pub(crate) seats: Vec<GateSeat<RecordedUnit<R>>>,
}

impl<R: Recorder + Drop> Model for Pass<R> {
    ghost use Rattle.nexus.specs.Worlds.{PassView};
    ghost use Rattle.nexus.specs.inner.Gates.{config_of};
    ghost use Rattle.nexus.specs.inner.Keeping.{AreSafe, gates_of, pass_view, KeepsPass};

    ghost Value = { PassView };

    ghost view = { λ p. pass_view (config_of (gates_of p.seats.items)) p.slip p.seats.items };

    ghost invariant = { λ p. KeepsPass (config_of (gates_of p.seats.items)) p.slip.ticket p.seats.items
        p.actor p.seq p.last_stamp × AreSafe R.EAGER p.seats.items };
}

impl<R: Recorder + Drop> Pass<R> {
    /// What is true of every pass: its entries are those of one actor, in order, go on where the actor's earlier passes
    /// ended, and stand in what it has seen. It does nothing when it runs.
    pub fn sound(&self)
        ensures { IsSoundPass self.now }
    {
        let _ = &self.seats;
    }

    /// What is true of every pass over recorders that are eager: each of its entries on a unit with a recorder is recorded,
    /// unless a record of that unit has failed since the opening of the world, or memory for one was wanted. It does
    /// nothing when it runs.
    pub fn safe(&self)
        ensures { R.EAGER ≡ true → IsSafe self.now }
    {
        let _ = &self.seats;
    }
}
