// A pass keeps a unit's turn for longer than one act.
ghost use Rattle.std.specs.Prelude.{◌≡◌, ◌<◌, length, slice_index_or, slice_set, IfSome, IfNone, false};
ghost use Rattle.merged_history.specs.Passes.{of_unit};
ghost use Rattle.unit_gate.specs.Counting.{count_over};
ghost use Rattle.nexus.specs.Worlds.{IsOf, FoundTaken};
ghost use Rattle.nexus.specs.Holding.{HasTaken, HasWaited, IsHeldAt};

use crate::pass::Pass;
use crate::world::World;
use recorder::Recorder;
use std::marker::Model;
use std::sync::Wait;
use turn_gate::Turn;
use unit_gate::{RecordedUnit, UnitCount};

/// A unit's turn that a pass keeps. It can't be let go: `World::release` takes it.
pub struct Hold<R: Recorder + Drop> {
    unit: u16,
    turn: Turn<RecordedUnit<R>>,
}

impl<R: Recorder + Drop> Model for Hold<R> {
    ghost use Rattle.nexus.specs.Holding.{HoldView};

    ghost Value = { HoldView };

    ghost view = { λ h. record { unit = h.unit; turn = h.turn } };
}

impl<R: Recorder + Drop> Hold<R> {
    /// What is counted of the unit now: over its whole history, which the pass that keeps the turn has seen. It takes no
    /// memory.
    pub fn count(&self, pass: &Pass<R>) -> UnitCount
        requires { IsHeldAt pass.now self.now }
        ensures { result ≡ count_over pass.now.config self.now.unit (of_unit pass.now.seen self.now.unit) }
    {
        let _ = &pass.seats;
        self.turn.look().count()
    }
}

impl<R: Recorder + Drop> World<R> {
    /// Takes a unit's turn if it is free, for the pass to keep. The pass has then seen the unit's whole history.
    /// None comes only where this call found the turn taken, which `misses` counts. It takes no memory.
    pub fn hold(&self, pass: &mut Pass<R>, unit: u16) -> Option<Hold<R>>
        requires pass { IsOf self.now pass.old }
        requires configured { unit < length self.now.config.units }
        requires free { slice_index_or pass.old.holds unit false ≡ false }
        ensures taken { IfSome result (λ hold. HasTaken pass.old pass.new unit) }
        ensures held { IfSome result (λ hold. IsHeldAt pass.new hold) }
        ensures unit { IfSome result (λ hold. hold.unit ≡ unit) }
        ensures missed { IfNone result (FoundTaken pass.old pass.new unit) }
    {
        let index = usize::from(unit);
        let gate = &self.gates[index];
        let seat = &mut pass.seats[index];
        let Some(turn) = unit_gate::hold(gate, seat) else {
            return None;
        };
        Some(Hold { unit, turn })
    }

    /// Takes a unit's turn as `hold` does, and sleeps while it is taken. How often it was found taken, `misses` counts. It
    /// takes no memory.
    pub fn hold_waiting<W: Wait>(&self, rt: &W, pass: &mut Pass<R>, unit: u16) -> Hold<R>
        requires pass { IsOf self.now pass.old }
        requires configured { unit < length self.now.config.units }
        requires free { slice_index_or pass.old.holds unit false ≡ false }
        ensures waited { HasWaited pass.old pass.new unit }
        ensures held { IsHeldAt pass.new result }
        ensures unit { result.unit ≡ unit }
    {
        let index = usize::from(unit);
        let gate = &self.gates[index];
        let seat = &mut pass.seats[index];
        let turn = unit_gate::hold_waiting(rt, gate, seat);
        Hold { unit, turn }
    }

    /// Gives a unit's turn back, which the pass has kept. It takes no memory.
    pub fn release(&self, pass: &mut Pass<R>, hold: Hold<R>)
        requires pass { IsOf self.now pass.old }
        requires held { IsHeldAt pass.old hold }
        ensures { pass.new ≡ record pass.old { holds = slice_set pass.old.holds hold.unit false } }
    {
        let Hold { unit, turn } = hold;
        let index = usize::from(unit);
        let gate = &self.gates[index];
        let seat = &mut pass.seats[index];
        unit_gate::release(gate, seat, turn);
    }
}
