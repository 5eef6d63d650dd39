// A unit's turn that a seat keeps for longer than one act.
ghost use Rattle.std.specs.Prelude.{◌≡◌, IfNone, IfSome, IsSome, false, true};
ghost use Rattle.unit_gate.specs.SeatActs.{HasTaken, HasWaited, IsHeldBy, Missed};

use crate::recorded_unit::RecordedUnit;
use recorder::Recorder;
use std::sync::Wait;
use turn_gate::{Gate, GateSeat, Turn};

/// Takes the unit's turn if it is free, for the seat to keep. None comes only where this call found the turn taken. It
/// takes no memory.
pub fn hold<R: Recorder + Drop>(
    gate: &Gate<RecordedUnit<R>>,
    seat: &mut GateSeat<RecordedUnit<R>>,
) -> Option<Turn<RecordedUnit<R>>>
    requires gate { seat.old.gate ≡ gate.now }
    requires idle { seat.old.holds ≡ false }
    ensures taken { IfSome result (λ turn. IfSome gate.now.kin (λ kin. HasTaken kin seat.old seat.new)) }
    ensures held { IfSome result (λ turn. IsHeldBy gate.now.kin seat.new turn) }
    ensures missed { IfNone result (Missed seat.old seat.new) }
    ensures alone { seat.old.first ≡ true → seat.old.out ≡ 0 → IsSome result }
{
    match gate.try_enter(seat) {
        Some(turn) => Some(turn),
        None => None,
    }
}

/// Takes the unit's turn, for the seat to keep, and sleeps while it is taken. It takes no memory.
pub fn hold_waiting<W: Wait, R: Recorder + Drop>(
    rt: &W,
    gate: &Gate<RecordedUnit<R>>,
    seat: &mut GateSeat<RecordedUnit<R>>,
) -> Turn<RecordedUnit<R>>
    requires gate { seat.old.gate ≡ gate.now }
    requires idle { seat.old.holds ≡ false }
    ensures waited { IfSome gate.now.kin (λ kin. HasWaited kin seat.old seat.new) }
    ensures held { IsHeldBy gate.now.kin seat.new result }
{
    gate.enter(rt, seat)
}

/// Gives back a turn that the seat has kept. It takes no memory.
pub fn release<R: Recorder + Drop>(
    gate: &Gate<RecordedUnit<R>>,
    seat: &mut GateSeat<RecordedUnit<R>>,
    turn: Turn<RecordedUnit<R>>,
)
    requires gate { seat.old.gate ≡ gate.now }
    requires held { IsHeldBy gate.now.kin seat.old turn }
    ensures { seat.new ≡ record seat.old { holds = false } }
{
    gate.leave(seat, turn);
}
