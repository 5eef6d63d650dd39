// What a pass does on one unit.
ghost use Rattle.std.specs.Prelude.{◌≡◌, ◌<◌, ◌+◌, length, slice_index_or, IfOk, IfErr, OnOk, true, false};
ghost use Rattle.cm_history.specs.Legal.{may_ask};
ghost use Rattle.cm_history.specs.Limits.{within_limits};
ghost use Rattle.unit_gate.specs.SeatActs.{IfAct};
ghost use Rattle.nexus.specs.Worlds.{IsOf, WasAnswered, IsSaved, NotDone, NotTaken, IsServed, Stays};

use crate::pass::Pass;
use crate::world::World;
use cm_history::{Act, ActRefused, Answer};
use recorder::Recorder;
use std::sync::Wait;
use unit_gate::{Acted, AskedAct, TryRefused};

// The number of the next entry of an actor, after one with this stamp.
fn next_seq(seq: u64, stamp: u64) -> u64
    requires { seq < stamp }
    ensures { result ≡ seq + 1 }
{
    let _ = stamp;
    seq + 1
}

impl<R: Recorder + Drop> World<R> {
    /// Has an act done on a unit, in a turn of its own, and sleeps while the turn is taken. The act is answered
    /// over the unit's whole history in that turn, and comes to its end, and to the end of what the pass has made.
    /// Where the unit's record is full its entries are recorded first. By an eager recorder the entry was recorded then,
    /// unless that failed or wanted memory. `Full` and `OutOfMemory` leave the history;
    /// the pass has seen it. Neither comes where the act ends a running operation, and no `Full` where it serves one,
    /// while there are stamps.
    pub fn act<W: Wait>(
        &self,
        rt: &W,
        pass: &mut Pass<R>,
        unit: u16,
        moment: u64,
        act: Act,
    ) -> Result<Answer, ActRefused>
        requires pass { IsOf self.now pass.old }
        requires configured { unit < length self.now.config.units }
        requires free { slice_index_or pass.old.holds unit false ≡ false }
        requires limits { within_limits self.now.config unit act ≡ true }
        requires asked { may_ask unit pass.old.ticket.actor act ≡ true }
        ensures done { IfOk result (λ a. WasAnswered pass.old pass.new unit moment act a) }
        ensures saved { OnOk result (IsSaved R.EAGER pass.old pass.new unit) }
        ensures refused { IfErr result (λ e. NotDone pass.old pass.new unit act e) }
        ensures served { IfErr result (λ e. IsServed pass.old pass.new unit act e) }
        ensures stays { Stays pass.old pass.new }
    {
        let index = usize::from(unit);
        let gate = &self.gates[index];
        let seat = &mut pass.seats[index];
        let asked = AskedAct {
            actor: pass.actor,
            seq: pass.seq,
            stamp: pass.last_stamp,
            moment,
            act,
        };
        match unit_gate::act(rt, gate, seat, asked) {
            Ok(Acted { answer, stamp }) => {
                pass.seq = next_seq(pass.seq, stamp);
                pass.last_stamp = stamp;
                Ok(answer)
            }
            Err(refused) => Err(refused),
        }
    }

    /// Has an act done on a unit as `act` does, if the unit's turn is free. `Held` hands the act back, and comes
    /// only where this call found the turn taken, which `misses` counts.
    pub fn try_act(
        &self,
        pass: &mut Pass<R>,
        unit: u16,
        moment: u64,
        act: Act,
    ) -> Result<Answer, TryRefused>
        requires pass { IsOf self.now pass.old }
        requires configured { unit < length self.now.config.units }
        requires free { slice_index_or pass.old.holds unit false ≡ false }
        requires limits { within_limits self.now.config unit act ≡ true }
        requires asked { may_ask unit pass.old.ticket.actor act ≡ true }
        ensures done { IfOk result (λ a. WasAnswered pass.old pass.new unit moment act a) }
        ensures saved { OnOk result (IsSaved R.EAGER pass.old pass.new unit) }
        ensures refused { IfErr result (λ e. NotTaken pass.old pass.new unit act e) }
        ensures served { IfErr result (λ e. IfAct e (IsServed pass.old pass.new unit act)) }
        ensures stays { Stays pass.old pass.new }
    {
        let index = usize::from(unit);
        let gate = &self.gates[index];
        let seat = &mut pass.seats[index];
        let asked = AskedAct {
            actor: pass.actor,
            seq: pass.seq,
            stamp: pass.last_stamp,
            moment,
            act,
        };
        match unit_gate::try_act(gate, seat, asked) {
            Ok(Acted { answer, stamp }) => {
                pass.seq = next_seq(pass.seq, stamp);
                pass.last_stamp = stamp;
                Ok(answer)
            }
            Err(refused) => Err(refused),
        }
    }
}
