// The world is closed: the root holds every unit's turn while the kept entries are merged.
ghost use Rattle.std.specs.Prelude.{◌≡◌, ◌≤◌, [], length, map, vec_capacity, IfOk, IfErr};
ghost use Rattle.unit_gate.specs.Recorded.{facts};
ghost use Rattle.unit_gate.specs.SeatActs.{IsHeldBy};
ghost use Rattle.nexus.specs.Roots.{IsRootOf};
ghost use Rattle.nexus.specs.Closing.{WasClosed, WasEnded, WasHandedBack};
ghost use Rattle.nexus.specs.inner.Keeping.{gates_of};
ghost use Rattle.nexus.specs.inner.Closing.{IsReady, AreReady, AreAlone, AreHeld, AreEntered};
ghost use Rattle.nexus.specs.inner.Closing.{AreClosed, IsClosed, given_back};

use crate::rooms::Rooms;
use crate::root::Root;
use crate::world::World;
use cm_history::History;
use merged_history::{Kept, merge};
use recorder::Recorder;
use std::alloc::Global;
use std::marker::Model;
use turn_gate::{Gate, GateSeat, Turn};
use unit_gate::{ClosedUnit, RecordedUnit, hold, release};

/// What is left of a world.
#[derive(Drop)]
pub struct Closed<R> {
    /// What is left of each unit, in the order of the units.
    pub units: Vec<ClosedUnit<R>>,
    /// The entries that the units had kept, by stamp, and at one stamp by unit.
    pub merged: History,
}

/// A unit's turn that the root holds.
pub(crate) struct HeldUnit<R: Recorder + Drop> {
    turn: Turn<RecordedUnit<R>>,
}

impl<R: Recorder + Drop> Model for HeldUnit<R> {
    ghost use Rattle.unit_gate.specs.Recorded.{RecordedState};

    ghost Value = { RecordedState };

    ghost view = { λ h. h.turn };
}

impl<R: Recorder + Drop> Kept for HeldUnit<R> {
    ghost entries = { λ h. h.unit.kept };

    fn history(&self) -> &History {
        self.turn.look().history()
    }
}

/// Takes the turn of every unit, into a list that has room for them. No other seat is out. It takes no memory.
pub(crate) fn enter_all<R: Recorder + Drop>(
    gates: &[Gate<RecordedUnit<R>>],
    seats: &mut Vec<GateSeat<RecordedUnit<R>>>,
    turns: &mut Vec<HeldUnit<R>>,
)
    requires gates { gates_of seats.old.items ≡ gates.now }
    requires alone { AreAlone seats.old.items }
    requires none { turns.old.items ≡ [] }
    requires room { length gates.now ≤ vec_capacity turns.old }
    ensures entered { AreEntered seats.old.items seats.new.items turns.new.items (length seats.old.items) }
    ensures room { vec_capacity turns.old ≤ vec_capacity turns.new }
{
    for index in 0..gates.len() {
        let Some(turn) = hold(&gates[index], &mut seats[index]) else {
            unreachable!()
        };
        turns.push_reserved(HeldUnit { turn });
    }
}

/// Gives every unit's turn back. It takes no memory.
pub(crate) fn leave_all<R: Recorder + Drop>(
    gates: &[Gate<RecordedUnit<R>>],
    seats: &mut Vec<GateSeat<RecordedUnit<R>>>,
    turns: &mut Vec<HeldUnit<R>>,
)
    requires gates { gates_of seats.old.items ≡ gates.now }
    requires held { AreHeld seats.old.items turns.old.items }
    ensures back { seats.new.items ≡ map given_back seats.old.items }
    ensures none { turns.new.items ≡ [] }
    ensures room { vec_capacity turns.new ≡ vec_capacity turns.old }
{
    while let Some(held) = turns.pop() {
        let index = turns.len();
        let HeldUnit { turn } = held;
        release(&gates[index], &mut seats[index], turn);
    }
}

/// Closes the gate of a unit, whose turn the root holds. It takes no memory.
fn close_one<R: Recorder + Drop>(
    gate: Gate<RecordedUnit<R>>,
    seat: GateSeat<RecordedUnit<R>>,
    held: HeldUnit<R>,
) -> ClosedUnit<R>
    requires gate { seat.gate ≡ gate }
    requires ready { IsReady seat }
    requires held { IsHeldBy seat.gate.kin seat held }
    ensures { IsClosed (facts R.recorded R.record_faults R.absent R.front) R.fits seat held result }
{
    let HeldUnit { turn } = held;
    gate.close_held(seat, turn).into_closed()
}

/// Closes all gates, into a list that has room for what is left of the units. It takes no memory.
pub(crate) fn close_all<R: Recorder + Drop>(
    gates: Vec<Gate<RecordedUnit<R>>>,
    seats: Vec<GateSeat<RecordedUnit<R>>>,
    turns: Vec<HeldUnit<R>>,
    units: &mut Vec<ClosedUnit<R>>,
)
    requires gates { gates_of seats.items ≡ gates.items }
    requires ready { AreReady seats.items }
    requires held { AreHeld seats.items turns.items }
    requires none { units.old.items ≡ [] }
    requires room { length gates.items ≤ vec_capacity units.old }
    ensures { AreClosed (facts R.recorded R.record_faults R.absent R.front) R.fits seats.items turns.items units.new.items }
{
    let mut gates = gates.into_iter();
    let mut seats = seats.into_iter();
    let mut turns = turns.into_iter();
    while let Some(held) = turns.next() {
        let Some(gate) = gates.next() else {
            unreachable!()
        };
        let Some(seat) = seats.next() else {
            unreachable!()
        };
        units.push_reserved(close_one(gate, seat, held));
    }
    turns.destroy_empty();
}

impl<R: Recorder + Drop> World<R> {
    /// Ends the world, whose passes are all joined: what is left of each unit, in the order of the units. It takes no
    /// memory.
    pub fn end(self, root: Root<R>) -> Vec<ClosedUnit<R>>
        requires root { IsRootOf self root }
        requires none { length root.out ≡ 0 }
        ensures { WasEnded (facts R.recorded R.record_faults R.absent R.front) R.fits root result.items }
    {
        let World { gates, register: _ } = self;
        let Root {
            slip: _,
            made: _,
            seqs: _,
            mut seats,
            rooms,
        } = root;
        let (mut turns, mut units) = rooms.into_lists();
        enter_all(&gates, &mut seats, &mut turns);
        close_all(gates, seats, turns, &mut units);
        units
    }

    /// Closes the world, whose passes are all joined: what is left of each unit, and the merged history of the
    /// entries that they have kept. Only the merging takes memory: where it is wanted, the world and the root are handed
    /// back.
    pub fn close(self, alloc: Global, root: Root<R>) -> Result<Closed<R>, (World<R>, Root<R>)>
        requires root { IsRootOf self root }
        requires none { length root.out ≡ 0 }
        ensures closed { IfOk result (λ c. WasClosed (facts R.recorded R.record_faults R.absent R.front) R.fits
            root c.units.items c.merged) }
        ensures world { IfErr result (λ b. b.0 ≡ self) }
        ensures root { IfErr result (λ b. WasHandedBack root b.1) }
    {
        let Root {
            slip,
            made,
            seqs,
            mut seats,
            rooms,
        } = root;
        let (mut turns, mut units) = rooms.into_lists();
        enter_all(&self.gates, &mut seats, &mut turns);
        match merge(alloc, turns.as_slice()) {
            Ok(merged) => {
                let World { gates, register: _ } = self;
                close_all(gates, seats, turns, &mut units);
                Ok(Closed { units, merged })
            }
            Err(_) => {
                leave_all(&self.gates, &mut seats, &mut turns);
                let rooms = Rooms::of(turns, units);
                let root = Root {
                    slip,
                    made,
                    seqs,
                    seats,
                    rooms,
                };
                Err((self, root))
            }
        }
    }
}
