// Acts of a seat at a unit's gate, each in a turn of its own.
ghost use Rattle.std.specs.Prelude.{◌≡◌, ◌≤◌, Some, IfOk, IfErr, IfSome, IfNone, IsSome, true, false};
ghost use Rattle.cm_history.specs.Legal.{may_ask};
ghost use Rattle.cm_history.specs.Limits.{within_limits};
ghost use Rattle.turn_gate.specs.Marks.{AtMost};
ghost use Rattle.unit_gate.specs.Asking.{IsServed};
ghost use Rattle.unit_gate.specs.Recorded.{StandsFor, kin_of, marks_of};
ghost use Rattle.unit_gate.specs.SeatActs.{HasActed, IfAct, IsRefused, IsSaved, IsTryRefused, StaysSeated};

use crate::asked::{Acted, AskedAct};
use crate::recorded_unit::RecordedUnit;
use crate::refused::TryRefused;
use cm_history::ActRefused;
use recorder::Recorder;
use std::sync::Wait;
use turn_gate::{Gate, GateSeat, Turn};

/// Has an act done in the unit's turn, and sleeps while the turn is taken. At Ok the seat has made one entry more, the
/// last of the history. After a refusal it has seen the history, which is as it was: `Full` comes where the record has no
/// room, after its entries were recorded as far as that went, and `OutOfMemory` where the act or the recorder wanted
/// memory. From an eager recorder the entry was recorded then, unless that failed or wanted memory.
pub fn act<W: Wait, R: Recorder + Drop>(
    rt: &W,
    gate: &Gate<RecordedUnit<R>>,
    seat: &mut GateSeat<RecordedUnit<R>>,
    asked: AskedAct,
) -> Result<Acted, ActRefused>
    requires gate { seat.old.gate ≡ gate.now }
    requires idle { seat.old.holds ≡ false }
    requires limits { IfSome gate.now.kin (λ kin. within_limits kin.config kin.unit asked.act ≡ true) }
    requires asked { IfSome gate.now.kin (λ kin. may_ask kin.unit asked.actor asked.act ≡ true) }
    ensures done { IfOk result (λ a. IfSome gate.now.kin (λ kin. HasActed kin seat.old seat.new asked a)) }
    ensures saved { IfOk result (λ a. IfSome gate.now.kin (λ kin. IsSaved R.EAGER kin seat.old seat.new)) }
    ensures refused { IfErr result (λ e. IfSome gate.now.kin (λ kin. IsRefused kin seat.old seat.new asked e)) }
    ensures served { IfErr result (λ e. IfSome gate.now.kin (λ kin. IsServed kin seat.new.seen asked e)) }
    ensures stays { StaysSeated seat.old seat.new }
{
    let turn = gate.enter(rt, seat);
    act_in_turn(gate, seat, turn, asked)
}

/// Has an act done as `act` does, if the unit's turn is free. `Held` comes only where this call found that turn taken,
/// which `misses` counts; it hands the act back.
pub fn try_act<R: Recorder + Drop>(
    gate: &Gate<RecordedUnit<R>>,
    seat: &mut GateSeat<RecordedUnit<R>>,
    asked: AskedAct,
) -> Result<Acted, TryRefused>
    requires gate { seat.old.gate ≡ gate.now }
    requires idle { seat.old.holds ≡ false }
    requires limits { IfSome gate.now.kin (λ kin. within_limits kin.config kin.unit asked.act ≡ true) }
    requires asked { IfSome gate.now.kin (λ kin. may_ask kin.unit asked.actor asked.act ≡ true) }
    ensures done { IfOk result (λ a. IfSome gate.now.kin (λ kin. HasActed kin seat.old seat.new asked a)) }
    ensures saved { IfOk result (λ a. IfSome gate.now.kin (λ kin. IsSaved R.EAGER kin seat.old seat.new)) }
    ensures at_once { IfOk result (λ a. seat.new.misses ≡ seat.old.misses) }
    ensures refused { IfErr result (λ e. IfSome gate.now.kin (λ kin. IsTryRefused kin seat.old seat.new asked e)) }
    ensures served { IfErr result (λ e. IfSome gate.now.kin (λ kin. IfAct e (IsServed kin seat.new.seen asked))) }
    ensures stays { StaysSeated seat.old seat.new }
{
    match gate.try_enter(seat) {
        Some(turn) => match act_in_turn(gate, seat, turn, asked) {
            Ok(acted) => Ok(acted),
            Err(refused) => Err(TryRefused::Act(refused)),
        },
        None => Err(TryRefused::Held(asked.act)),
    }
}

/// Has an act done in a turn that the seat has, and leaves. An eager recorder is told of the entry before that; the answer
/// stands whatever comes of it.
fn act_in_turn<R: Recorder + Drop>(
    gate: &Gate<RecordedUnit<R>>,
    seat: &mut GateSeat<RecordedUnit<R>>,
    turn: Turn<RecordedUnit<R>>,
    asked: AskedAct,
) -> Result<Acted, ActRefused>
    requires gate { seat.old.gate ≡ gate.now }
    requires holds { seat.old.holds ≡ true }
    requires stands { StandsFor turn seat.old.seen }
    requires kin { gate.now.kin ≡ Some (kin_of turn) }
    requires marks { seat.old.marks ≡ marks_of turn }
    requires limits { within_limits turn.unit.config turn.unit.unit asked.act ≡ true }
    requires asked { may_ask turn.unit.unit asked.actor asked.act ≡ true }
    ensures done { IfOk result (λ a. HasActed (kin_of turn) (record seat.old { holds = false }) seat.new asked a) }
    ensures saved { IfOk result (λ a. IsSaved R.EAGER (kin_of turn) (record seat.old { holds = false }) seat.new) }
    ensures refused { IfErr result (λ e. IsRefused (kin_of turn) (record seat.old { holds = false }) seat.new asked e) }
    ensures served { IfErr result (λ e. IsServed (kin_of turn) seat.new.seen asked e) }
    ensures misses { seat.new.misses ≡ seat.old.misses }
    ensures stays { StaysSeated (record seat.old { holds = false }) seat.new }
{
    let mut turn = turn;
    match turn.value().act(asked) {
        Ok(acted) => {
            gate.count(seat, &mut turn);
            turn.value().fold_if_eager();
            gate.leave(seat, turn);
            Ok(acted)
        }
        Err(refused) => {
            gate.leave(seat, turn);
            Err(refused)
        }
    }
}
