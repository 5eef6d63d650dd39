// The seats of the root and of a pass, one at each unit's gate, in the order of the units.
ghost use Rattle.std.specs.Prelude.{◌≡◌, ◌≤◌, [], length, map, vec_capacity, true};
ghost use Rattle.turn_gate.specs.Seats.{SeatState};
ghost use Rattle.cm_history.proofs.PublicLaws.{Each};
ghost use Rattle.nexus.specs.inner.Seats.{AllFree, AreFirst, AreSplit, AreJoinedTo};

use std::alloc::Global;
use turn_gate::{Gate, GateSeat, Gated};

/// Splits a seat off each of the root's, into a list that has room for them. It takes no memory.
pub(crate) fn split_all<V: Gated>(
    gates: &[Gate<V>],
    seats: &mut Vec<GateSeat<V>>,
    fresh: &mut Vec<GateSeat<V>>,
)
    requires gates { map (λ (s : SeatState V.Entry V.Kin). s.gate) seats.old.items ≡ gates.now }
    requires firsts { AreFirst seats.old.items }
    requires none { fresh.old.items ≡ [] }
    requires room { length gates.now ≤ vec_capacity fresh.old }
    ensures { AreSplit seats.old.items seats.new.items fresh.new.items (length seats.old.items) }
{
    for index in 0..gates.len() {
        let Ok(seat) = gates[index].split(&mut seats[index]) else {
            unreachable!()
        };
        fresh.push_reserved(seat);
    }
}

/// Joins the seats of a pass into the root's. It takes no memory.
pub(crate) fn join_all<V: Gated>(
    gates: &[Gate<V>],
    seats: &mut Vec<GateSeat<V>>,
    mut passed: Vec<GateSeat<V>>,
)
    requires gates { map (λ (s : SeatState V.Entry V.Kin). s.gate) seats.old.items ≡ gates.now }
    requires same { map (λ (s : SeatState V.Entry V.Kin). s.gate) passed.items ≡ gates.now }
    requires firsts { AreFirst seats.old.items }
    requires free { AllFree passed.items }
    ensures { AreJoinedTo seats.old.items passed.items seats.new.items 0 }
{
    while let Some(seat) = passed.pop() {
        let index = passed.len();
        gates[index].join(&mut seats[index], seat);
    }
}
