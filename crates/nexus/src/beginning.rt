// A world is made.
ghost use Rattle.std.specs.Prelude.{◌≡◌, ◌≤◌, [], List, Some, length, map, vec_capacity, IfOk, IfErr};
ghost use Rattle.cm_base.specs.declared.config.UnitConfig.{UnitConfig};
ghost use Rattle.cm_history.specs.declared.act.Entry.{Entry};
ghost use Rattle.cm_history.proofs.PublicLaws.{Each};
ghost use Rattle.turn_gate.specs.inner.Seats.{first_seat};
ghost use Rattle.unit_gate.specs.Recorded.{StandsFor, facts, kin_of, marks_of};
ghost use Rattle.nexus.specs.Opening.{IsBegun, no_recorder};
ghost use Rattle.nexus.specs.inner.Building.{AreBegunOf, AreBegunUnits, AreNewUnits, BegunState, IsBegunWith, units_in};

use crate::rooms::Rooms;
use crate::root::Root;
use crate::world::World;
use cm_base::{Config, OutOfMemory};
use cm_history::History;
use merged_history::{Register, RootSeat};
use recorder::{NoRecorder, Recorder};
use std::alloc::Global;
use std::marker::Model;
use turn_gate::{Gate, GateSeat, VacantGate};
use unit_core::Unit;
use unit_gate::RecordedUnit;

/// A unit as a world begins with it, and its history, which was recorded before.
#[derive(Drop)]
pub(crate) struct Begun<R: Recorder + Drop> {
    pub(crate) unit: RecordedUnit<R>,
    pub(crate) history: History,
}

impl<R: Recorder + Drop> Model for Begun<R> {
    ghost use Rattle.nexus.specs.inner.Building.{BegunState};

    ghost Value = { BegunState };

    ghost view = { λ b. record { unit = b.unit; history = b.history.entries } };
}

/// A world whose memory is had and whose units are still to come. Contracts see the units for which it was made.
#[derive(Drop)]
struct VacantWorld<R: Recorder + Drop> {
    register: Register,
    slip: RootSeat,
    vacant: Vec<VacantGate<RecordedUnit<R>>>,
    gates: Vec<Gate<RecordedUnit<R>>>,
    seats: Vec<GateSeat<RecordedUnit<R>>>,
    seqs: Vec<u64>,
    rooms: Rooms<R>,
}

impl<R: Recorder + Drop> Model for VacantWorld<R> {
    ghost use Rattle.std.specs.Prelude.{List, length, vec_capacity};
    ghost use Rattle.unit_gate.specs.Recorded.{RecordedState};
    ghost use Rattle.nexus.specs.inner.Building.{IsVacantWorld};

    ghost Value = { List RecordedState };

    ghost view = { λ w. w.vacant.items };

    ghost invariant = { λ w. IsVacantWorld (length w.vacant.items) w.register w.slip w.gates.items w.seats.items w.seqs.items
        (vec_capacity w.gates) (vec_capacity w.seats) (vec_capacity w.seqs) w.rooms };
}

/// A vacant gate for each unit, in order.
fn vacant_gates<R: Recorder + Drop>(
    alloc: Global,
    units: &Vec<Begun<R>>,
) -> Result<Vec<VacantGate<RecordedUnit<R>>>, OutOfMemory>
    ensures { IfOk result (λ gates. gates.items ≡ units_in units.now.items) }
{
    let mut vacant = Vec::new(alloc);
    for index in 0..units.len() {
        let gate = Gate::vacant(alloc, &units[index].unit)?;
        vacant.push(gate)?;
    }
    Ok(vacant)
}

/// The gate of a unit, and the root's seat at it, which has seen the entries that the caller names (`opening`). It takes
/// no memory.
fn fill_gate<R: Recorder + Drop>(
    vacant: VacantGate<RecordedUnit<R>>,
    begun: Begun<R>,
) -> (Gate<RecordedUnit<R>>, GateSeat<RecordedUnit<R>>)
    ghost opening: { List Entry }
    requires same { begun.unit ≡ vacant }
    requires stands { StandsFor begun.unit opening }
    ensures kin { result.0.kin ≡ Some (kin_of begun.unit) }
    ensures seat { result.1 ≡ first_seat result.0 opening (marks_of begun.unit) }
{
    let Begun { unit, history: _ } = begun;
    vacant.fill(unit)
}

impl<R: Recorder + Drop> VacantWorld<R> {
    fn of(alloc: Global, units: &Vec<Begun<R>>) -> Result<VacantWorld<R>, OutOfMemory>
        ensures { IfOk result (λ w. w ≡ units_in units.now.items) }
    {
        let vacant = vacant_gates(alloc, units)?;
        let (register, slip) = Register::new(alloc)?;
        let gates = Vec::with_capacity(alloc, units.len())?;
        let seats = Vec::with_capacity(alloc, units.len())?;
        let seqs = Vec::with_capacity(alloc, units.len())?;
        let rooms = Rooms::new(alloc, units.len())?;
        Ok(VacantWorld {
            register,
            slip,
            vacant,
            gates,
            seats,
            seqs,
            rooms,
        })
    }

    /// The world of these units, in the order of the units, and its root. The next nexus that gets a pass has the number
    /// `made`. It takes no memory.
    fn fill(self, config: &Config, units: Vec<Begun<R>>, made: u32) -> (World<R>, Root<R>)
        requires one_each { length units.items ≡ length config.now.units }
        requires units { AreBegunUnits config.now 0 units.items }
        requires same { self ≡ units_in units.items }
        ensures { IsBegunWith config.now units.items made result.0 result.1 }
    {
        let VacantWorld {
            register,
            slip,
            vacant,
            mut gates,
            mut seats,
            mut seqs,
            rooms,
        } = self;
        let mut vacant = vacant.into_iter();
        let mut units = units.into_iter();
        for _ in 0..config.units() {
            let Some(begun) = units.next() else {
                unreachable!()
            };
            let Some(gate) = vacant.next() else {
                unreachable!()
            };
            let (gate, seat) = fill_gate(gate, begun);
            gates.push_reserved(gate);
            seats.push_reserved(seat);
            seqs.push_reserved(0);
        }
        let root = Root {
            slip,
            made,
            seqs,
            seats,
            rooms,
        };
        (World { gates, register }, root)
    }
}

/// The world of these units, in the order of the units, and its root. The next nexus that gets a pass has the number
/// `made`. Where memory is wanted the units are handed back.
pub(crate) fn begin<R: Recorder + Drop>(
    alloc: Global,
    config: &Config,
    units: Vec<Begun<R>>,
    made: u32,
) -> Result<(World<R>, Root<R>), Vec<Begun<R>>>
    requires one_each { length units.items ≡ length config.now.units }
    requires units { AreBegunUnits config.now 0 units.items }
    ensures begun { IfOk result (λ w. IsBegunWith config.now units.items made w.0 w.1) }
    ensures back { IfErr result (λ begun. begun.items ≡ units.items) }
{
    match VacantWorld::of(alloc, &units) {
        Ok(vacant) => Ok(vacant.fill(config, units, made)),
        Err(_) => Err(units),
    }
}

/// Units of which nothing was asked yet.
fn new_units(alloc: Global, config: &Config) -> Result<Vec<Unit>, OutOfMemory>
    ensures new { IfOk result (λ units. AreNewUnits config.now 0 units.items) }
    ensures one_each { IfOk result (λ units. length units.items ≡ length config.now.units) }
{
    let mut units = Vec::new(alloc);
    for number in 0..config.units() {
        let unit = Unit::new(alloc, config, number)?;
        units.push(unit)?;
    }
    Ok(units)
}

/// Gives each unit its recorder, in order, in a list that has room for them. It takes no memory.
fn give_recorders<R: Recorder + Drop>(
    alloc: Global,
    config: &Config,
    units: Vec<Unit>,
    recorders: Vec<R>,
    begun: &mut Vec<Begun<R>>,
)
    requires one_each { length recorders.items ≡ length config.now.units }
    requires fits { Each (λ r. (e : Entry) → R.fits r e) recorders.items }
    requires new { AreNewUnits config.now 0 units.items }
    requires its_unit { length units.items ≡ length config.now.units }
    requires none { begun.old.items ≡ [] }
    requires room { length recorders.items ≤ vec_capacity begun.old }
    ensures { AreBegunOf config.now 0
        (map (λ r. record { history = []; recorder = facts R.recorded R.record_faults R.absent R.front r }) recorders.items) begun.new.items }
{
    let mut recorders = recorders.into_iter();
    let mut units = units.into_iter();
    for _ in 0..config.units() {
        let Some(recorder) = recorders.next() else {
            unreachable!()
        };
        let Some(unit) = units.next() else {
            unreachable!()
        };
        let history = History::empty(alloc);
        let unit = RecordedUnit::fresh(unit, recorder);
        begun.push_reserved(Begun { unit, history });
    }
}

/// Takes the units' recorders back, in order, into a list that has room for them. It takes no memory.
fn take_recorders<R: Recorder + Drop>(units: Vec<Begun<R>>, recorders: &mut Vec<R>)
    requires none { recorders.old.items ≡ [] }
    requires room { length units.items ≤ vec_capacity recorders.old }
    ensures { map (facts R.recorded R.record_faults R.absent R.front) recorders.new.items
        ≡ map (λ (b : BegunState). b.unit.recorder) units.items }
{
    let mut units = units.into_iter();
    while let Some(begun) = units.next() {
        let Begun { unit, history: _ } = begun;
        recorders.push_reserved(unit.into_closed().recorder);
    }
}

impl<R: Recorder + Drop> World<R> {
    /// A world of the configured units, each with its recorder, in the order of the units, and its root. Where
    /// memory is wanted the recorders are handed back, in their order.
    pub fn with(
        alloc: Global,
        config: &Config,
        recorders: Vec<R>,
    ) -> Result<(World<R>, Root<R>), (Vec<R>, OutOfMemory)>
        requires one_each { length recorders.items ≡ length config.now.units }
        requires fits { Each (λ r. (e : Entry) → R.fits r e) recorders.items }
        ensures begun { IfOk result (λ w. IsBegun config.now
            (map (facts R.recorded R.record_faults R.absent R.front) recorders.items) w.0 w.1) }
        ensures back { IfErr result (λ e. map (facts R.recorded R.record_faults R.absent R.front) e.0.items
            ≡ map (facts R.recorded R.record_faults R.absent R.front) recorders.items) }
    {
        let units = match new_units(alloc, config) {
            Ok(units) => units,
            Err(refused) => return Err((recorders, refused)),
        };
        let Ok(mut begun) = Vec::with_capacity(alloc, recorders.len()) else {
            return Err((recorders, OutOfMemory));
        };
        let Ok(mut back) = Vec::with_capacity(alloc, recorders.len()) else {
            return Err((recorders, OutOfMemory));
        };
        give_recorders(alloc, config, units, recorders, &mut begun);
        match begin(alloc, config, begun, 0) {
            Ok(made) => Ok(made),
            Err(begun) => {
                take_recorders(begun, &mut back);
                Err((back, OutOfMemory))
            }
        }
    }
}

impl World<NoRecorder> {
    /// A world of the configured units, which keep all their entries, and its root.
    pub fn new(
        alloc: Global,
        config: &Config,
    ) -> Result<(World<NoRecorder>, Root<NoRecorder>), OutOfMemory>
        ensures { IfOk result (λ w. IsBegun config.now
            (map (λ (u : UnitConfig). no_recorder) config.now.units) w.0 w.1) }
    {
        let mut recorders = Vec::new(alloc);
        for _ in 0..config.units() {
            recorders.push(NoRecorder)?;
        }
        match World::with(alloc, config, recorders) {
            Ok(made) => Ok(made),
            Err((_, refused)) => Err(refused),
        }
    }
}
