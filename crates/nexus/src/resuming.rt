// A world goes on with histories that were recorded before.
ghost use Rattle.std.specs.Prelude.{◌≡◌, ◌≢◌, ◌≤◌, [], length, map, vec_capacity, None, Some, IfOk, IfErr, OnOk, false};
ghost use Rattle.cm_history.specs.declared.act.Entry.{Entry};
ghost use Rattle.cm_history.proofs.PublicLaws.{Each};
ghost use Rattle.unit_gate.specs.declared.resuming.ResumeRefused.{ResumeRefused};
ghost use Rattle.unit_gate.specs.Opening.{has_late_number};
ghost use Rattle.unit_gate.specs.Recorded.{facts};
ghost use Rattle.nexus.specs.Opening.{AreStored, GoesOn, bad_history, next_nexus, number_after, numbers_after, stored};
ghost use Rattle.nexus.specs.inner.Building.{AreBegunOf, HaveGoneOn, store_in};

use crate::beginning::{Begun, begin};
use crate::root::Root;
use crate::world::World;
use cm_base::Config;
use cm_history::{Actor, History};
use recorder::Recorder;
use std::alloc::Global;
use unit_core::Unit;
use unit_gate::{RecordedUnit, ResumeRefused, resume};

/// What a unit goes on with: its history, and the recorder that has recorded it.
#[derive(Drop)]
pub struct Store<R> {
    pub history: History,
    pub recorder: R,
}

/// A number above that of a nexus.
fn number_after(actor: Actor) -> u32
    requires { has_late_number actor ≡ false }
    ensures { result ≡ number_after actor }
{
    match actor {
        Actor::Nexus(number) => number + 1,
        Actor::Pump(_) => 0,
    }
}

/// The least number above those of the nexuses of a history.
fn numbers_after(history: &History) -> u32
    requires { Each (λ (e : Entry). has_late_number e.actor ≡ false) history.now.entries }
    ensures { result ≡ numbers_after history.now.entries }
{
    let mut next = 0;
    for place in 0..history.len() {
        next = number_after(history.at(place).actor).max(next);
    }
    next
}

/// The least number above those of the nexuses of all histories.
fn next_nexus<R: Recorder + Drop>(stores: &Vec<Store<R>>) -> u32
    requires { Each (λ s. Each (λ (e : Entry). has_late_number e.actor ≡ false) s.history.entries) stores.now.items }
    ensures { result ≡ next_nexus (map (stored (facts R.recorded R.record_faults R.absent R.front)) stores.now.items) }
{
    let mut next = 0;
    for index in 0..stores.len() {
        next = numbers_after(&stores[index].history).max(next);
    }
    next
}

/// Units that go on with the histories of the stores, in order.
fn units_of<R: Recorder + Drop>(
    alloc: Global,
    config: &Config,
    stores: &Vec<Store<R>>,
) -> Result<Vec<Unit>, ResumeRefused>
    requires one_each { length stores.now.items ≡ length config.now.units }
    requires stores { AreStored config.now 0 (map (stored (facts R.recorded R.record_faults R.absent R.front)) stores.now.items) }
    ensures units { IfOk result (λ units. HaveGoneOn config.now 0
        (map (stored (facts R.recorded R.record_faults R.absent R.front)) stores.now.items) units.items) }
    ensures good { OnOk result (bad_history config.now 0
        (map (stored (facts R.recorded R.record_faults R.absent R.front)) stores.now.items) ≡ None) }
    ensures bad { IfErr result (λ e. e ≢ ResumeRefused.OutOfMemory → bad_history config.now 0
        (map (stored (facts R.recorded R.record_faults R.absent R.front)) stores.now.items) ≡ Some e) }
{
    let mut units = Vec::new(alloc);
    for number in 0..config.units() {
        let history = &stores[usize::from(number)].history;
        let unit = resume(alloc, config, number, history)?;
        match units.push(unit) {
            Ok(()) => {}
            Err(_) => return Err(ResumeRefused::OutOfMemory),
        }
    }
    Ok(units)
}

/// Gives each unit its store, in order, in a list that has room for them. It takes no memory.
fn give_stores<R: Recorder + Drop>(
    config: &Config,
    units: Vec<Unit>,
    stores: Vec<Store<R>>,
    begun: &mut Vec<Begun<R>>,
)
    requires one_each { length stores.items ≡ length config.now.units }
    requires stores { AreStored config.now 0 (map (stored (facts R.recorded R.record_faults R.absent R.front)) stores.items) }
    requires fits { Each (λ s. (e : Entry) → R.fits s.recorder e) stores.items }
    requires units { HaveGoneOn config.now 0 (map (stored (facts R.recorded R.record_faults R.absent R.front)) stores.items) units.items }
    requires none { begun.old.items ≡ [] }
    requires room { length stores.items ≤ vec_capacity begun.old }
    ensures { AreBegunOf config.now 0
        (map (stored (facts R.recorded R.record_faults R.absent R.front)) stores.items) begun.new.items }
{
    let mut stores = stores.into_iter();
    let mut units = units.into_iter();
    for _ in 0..config.units() {
        let Some(store) = stores.next() else {
            unreachable!()
        };
        let Some(unit) = units.next() else {
            unreachable!()
        };
        let Store { history, recorder } = store;
        let unit = RecordedUnit::over(unit, recorder);
        begun.push_reserved(Begun { unit, history });
    }
}

/// Takes the units' stores back, in order, into a list that has room for them. It takes no memory.
fn take_stores<R: Recorder + Drop>(units: Vec<Begun<R>>, stores: &mut Vec<Store<R>>)
    requires none { stores.old.items ≡ [] }
    requires room { length units.items ≤ vec_capacity stores.old }
    ensures { map (stored (facts R.recorded R.record_faults R.absent R.front)) stores.new.items ≡ map store_in units.items }
{
    let mut units = units.into_iter();
    while let Some(begun) = units.next() {
        let Begun { unit, history } = begun;
        let recorder = unit.into_closed().recorder;
        stores.push_reserved(Store { history, recorder });
    }
}

impl<R: Recorder + Drop> World<R> {
    /// A world whose units go on with the histories of their stores, in the order of the units, and its root. Each unit
    /// begins with its history and the ends of the operations that their initiators had still to end. New passes of nexuses
    /// have numbers above those of the histories. `BadHistory` comes exactly where an entry is refused, with the first of
    /// the least unit that has one. The stores are handed back, in their order, and where memory is wanted each with its
    /// history and a recorder of which contracts see the same.
    pub fn resume(
        alloc: Global,
        config: &Config,
        stores: Vec<Store<R>>,
    ) -> Result<(World<R>, Root<R>), (Vec<Store<R>>, ResumeRefused)>
        requires one_each { length stores.items ≡ length config.now.units }
        requires stores { AreStored config.now 0 (map (stored (facts R.recorded R.record_faults R.absent R.front)) stores.items) }
        requires fits { Each (λ s. (e : Entry) → R.fits s.recorder e) stores.items }
        ensures resumed { IfOk result (λ w. GoesOn config.now
            (map (stored (facts R.recorded R.record_faults R.absent R.front)) stores.items)
            (next_nexus (map (stored (facts R.recorded R.record_faults R.absent R.front)) stores.items)) w.0 w.1) }
        ensures few { IfOk result (λ w. w.1.made ≤ 4_294_967_039) }
        ensures good { OnOk result (bad_history config.now 0
            (map (stored (facts R.recorded R.record_faults R.absent R.front)) stores.items) ≡ None) }
        ensures bad { IfErr result (λ e. e.1 ≢ ResumeRefused.OutOfMemory → bad_history config.now 0
            (map (stored (facts R.recorded R.record_faults R.absent R.front)) stores.items) ≡ Some e.1) }
        ensures back { IfErr result (λ e. e.1 ≢ ResumeRefused.OutOfMemory → e.0.items ≡ stores.items) }
        ensures handed_back { IfErr result (λ e. map (stored (facts R.recorded R.record_faults R.absent R.front)) e.0.items
            ≡ map (stored (facts R.recorded R.record_faults R.absent R.front)) stores.items) }
    {
        let units = match units_of(alloc, config, &stores) {
            Ok(units) => units,
            Err(refused) => return Err((stores, refused)),
        };
        let made = next_nexus(&stores);
        let Ok(mut begun) = Vec::with_capacity(alloc, stores.len()) else {
            return Err((stores, ResumeRefused::OutOfMemory));
        };
        let Ok(mut back) = Vec::with_capacity(alloc, stores.len()) else {
            return Err((stores, ResumeRefused::OutOfMemory));
        };
        give_stores(config, units, stores, &mut begun);
        match begin(alloc, config, begun, made) {
            Ok(made) => Ok(made),
            Err(begun) => {
                take_stores(begun, &mut back);
                Err((back, ResumeRefused::OutOfMemory))
            }
        }
    }
}
