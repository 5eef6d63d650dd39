ghost use Rattle.std.specs.Prelude.{◌≡◌, ◌<◌, ℕ, [], ◌∷◌, length, map, IfOk, true};
ghost use Rattle.cm_history.specs.declared.act.Act.{Act};
ghost use Rattle.cm_history.specs.declared.act.Actor.{Actor};
ghost use Rattle.cm_history.specs.Legal.{may_ask};
ghost use Rattle.cm_history.specs.Limits.{within_limits};
ghost use Rattle.nexus.specs.Opening.{AreStored, no_recorder, stored};
ghost use Rattle.nexus.specs.Worlds.{IsFreePass};

use cm_base::{Config, OutOfMemory, Payload, UnitConfig, UnitList};
use cm_history::{Act, Actor, Entry, History, within_limits};
use lba_ranges::BlockList;
use nexus::{Pass, Store, World};
use recorder::NoRecorder;
use std::alloc::Global;
use std::sync::Wait;
use std::test::Fail;
use std::thread::{Threads, join};
use unit_gate::{ResumeRefused, TryRefused, UnitCount};

/// A machine of two units of 100 blocks of 512 bytes.
fn machine(alloc: Global) -> Result<Config, Fail>
    ensures { IfOk result (λ config. length config.units ≡ 2) }
{
    let unit = UnitConfig {
        blocks: 100,
        block_length: 512,
        entries: 100,
        quota: 100,
        payload: 1024,
        group: 0,
    };
    let mut units = UnitList::empty(alloc);
    units.push(unit)?;
    units.push(unit)?;
    Ok(Config::new([0; 32], units))
}

/// What came of an act.
#[derive(Debug, Drop, Clone, Copy, PartialEq, Eq)]
enum Told {
    Done,
    Held,
    Refused,
}

/// A WRITE of one block.
fn writing(alloc: Global) -> Result<Act, OutOfMemory>
    ensures { IfOk result (λ act. (unit number : ℕ) → may_ask unit (Actor.Nexus number) act ≡ true) }
{
    let bytes = Payload::copy_from_slice(alloc, &[0x5a; 512])?;
    let list = BlockList::from_payload(alloc, 512, 1, bytes)?;
    Ok(Act::Write { lba: 0, list })
}

/// Has an act done on a unit by the pass of a nexus, if the unit's turn is free.
fn ask(
    world: &World<NoRecorder>,
    config: &Config,
    number: u32,
    pass: &mut Pass<NoRecorder>,
    unit: u16,
    act: Act,
) -> Told
    requires config { config.now ≡ world.now.config }
    requires pass { IsFreePass world.now number pass.old }
    requires asked { may_ask unit (Actor.Nexus number) act ≡ true }
    ensures { IsFreePass world.now number pass.new }
{
    if unit >= config.units() || !within_limits(config, unit, &act) {
        return Told::Refused;
    }
    match world.try_act(pass, unit, 0, act) {
        Ok(_) => Told::Done,
        Err(TryRefused::Held(_)) => Told::Held,
        Err(TryRefused::Act(_)) => Told::Refused,
    }
}

/// Has one block of a unit read by the pass of a nexus, if the unit's turn is free.
fn read(
    world: &World<NoRecorder>,
    config: &Config,
    number: u32,
    pass: &mut Pass<NoRecorder>,
    unit: u16,
) -> Told
    requires config { config.now ≡ world.now.config }
    requires pass { IsFreePass world.now number pass.old }
    ensures { IsFreePass world.now number pass.new }
{
    ask(
        world,
        config,
        number,
        pass,
        unit,
        Act::Read { lba: 0, count: 1 },
    )
}

/// The units and the stamps of a history, in its order.
fn order_of(alloc: Global, history: &History) -> Result<Vec<(u16, u64)>, Fail> {
    let mut order = Vec::new(alloc);
    for index in 0..history.len() {
        let entry = history.at(index);
        order.push((entry.unit, entry.stamp))?;
    }
    Ok(order)
}

/// Has two passes read, the first one where that is true, on a unit each time.
fn read_in_order(
    world: &World<NoRecorder>,
    config: &Config,
    first: &mut Pass<NoRecorder>,
    second: &mut Pass<NoRecorder>,
    reads: &[(bool, u16)],
) -> Result<(), Fail>
    requires config { config.now ≡ world.now.config }
    requires first { IsFreePass world.now 0 first.old }
    requires second { IsFreePass world.now 1 second.old }
    ensures first { IsFreePass world.now 0 first.new }
    ensures second { IsFreePass world.now 1 second.new }
{
    for &(by_first, unit) in reads {
        let told = if by_first {
            read(world, config, 0, first, unit)
        } else {
            read(world, config, 1, second, unit)
        };
        if told != Told::Done {
            return Err("the read was not answered".into());
        }
    }
    Ok(())
}

/// The order of the reads of two passes.
fn order_of_reads(alloc: Global, reads: &[(bool, u16)]) -> Result<Vec<(u16, u64)>, Fail> {
    let config = machine(alloc)?;
    let (world, mut root) = World::new(alloc, &config)?;
    let mut first = world.pass(alloc, &mut root)?;
    let mut second = world.pass(alloc, &mut root)?;
    read_in_order(&world, &config, &mut first, &mut second, reads)?;
    world.join(&mut root, first);
    world.join(&mut root, second);
    let Ok(closed) = world.close(alloc, root) else {
        return Err("no memory for the merged history".into());
    };
    order_of(alloc, &closed.merged)
}

#[test]
fn stamps_follow_a_pass_over_units_and_a_unit_over_passes(rt: HostRuntime) -> Result<(), Fail> {
    let order = order_of_reads(rt.alloc(), &[(true, 0), (true, 1), (false, 1), (false, 0)])?;
    let wanted = [(0, 1), (1, 2), (1, 3), (0, 4)];
    assert_eq!(rt; order.as_slice(), wanted.as_slice());
    Ok(())
}

#[test]
fn one_stamp_on_two_units_is_merged_by_unit(rt: HostRuntime) -> Result<(), Fail> {
    let order = order_of_reads(rt.alloc(), &[(true, 0), (false, 1)])?;
    let wanted = [(0, 1), (1, 1)];
    assert_eq!(rt; order.as_slice(), wanted.as_slice());
    Ok(())
}

/// A READ on the first unit and a WRITE on the second, by a pass of another thread.
fn ask_both(
    world: &World<NoRecorder>,
    config: &Config,
    pass: Pass<NoRecorder>,
    write: Act,
) -> (Told, Told, Pass<NoRecorder>)
    requires config { config.now ≡ world.now.config }
    requires pass { IsFreePass world.now 1 pass }
    requires asked { may_ask 1 (Actor.Nexus 1) write ≡ true }
    ensures { IsFreePass world.now 1 result.2 }
{
    let mut pass = pass;
    let first = read(world, config, 1, &mut pass, 0);
    let second = ask(world, config, 1, &mut pass, 1, write);
    (first, second, pass)
}

/// What comes of a READ on the first unit and of a WRITE on the second in another thread, while a pass holds the first one.
fn beside_a_hold<R: Threads + Sync>(
    rt: &R,
    world: &World<NoRecorder>,
    config: &Config,
    holder: &mut Pass<NoRecorder>,
    other: Pass<NoRecorder>,
    write: Act,
) -> Result<(Told, Told, Pass<NoRecorder>), Fail>
    requires config { config.now ≡ world.now.config }
    requires some { 0 < length config.now.units }
    requires holder { IsFreePass world.now 0 holder.old }
    requires other { IsFreePass world.now 1 other }
    requires asked { may_ask 1 (Actor.Nexus 1) write ≡ true }
    ensures holder { IsFreePass world.now 0 holder.new }
    ensures other { IfOk result (λ r. IsFreePass world.now 1 r.2) }
{
    let Some(hold) = world.hold(holder, 0) else {
        return Err("the turn was taken".into());
    };
    let (_, told) = join(
        rt,
        || {},
        || -> (Told, Told, Pass<NoRecorder>)
            requires config { config.now ≡ world.now.config }
            requires pass { IsFreePass world.now 1 other }
            requires asked { may_ask 1 (Actor.Nexus 1) write ≡ true }
            ensures { IsFreePass world.entry.now 1 result.2 }
        { ask_both(world, config, other, write) },
    );
    world.release(holder, hold);
    Ok(told)
}

/// What is counted of the second unit in a turn that the pass waits for.
fn counted<R: Wait>(rt: &R, world: &World<NoRecorder>, pass: &mut Pass<NoRecorder>) -> UnitCount
    requires second { 1 < length world.now.config.units }
    requires pass { IsFreePass world.now 0 pass.old }
    ensures { IsFreePass world.now 0 pass.new }
{
    let hold = world.hold_waiting(rt, pass, 1);
    let count = hold.count(pass);
    world.release(pass, hold);
    count
}

/// What comes of a READ on the first unit and of a WRITE on the second while a pass holds the first one, of a READ on the
/// first behind that, what is counted of the second then, and how many entries the merged history has.
fn held<R: Threads + Wait + Sync>(
    rt: &R,
    alloc: Global,
) -> Result<(Told, Told, Told, UnitCount, usize), Fail> {
    let config = machine(alloc)?;
    let (world, mut root) = World::new(alloc, &config)?;
    let mut holder = world.pass(alloc, &mut root)?;
    let other = world.pass(alloc, &mut root)?;
    let write = writing(alloc)?;
    let (first, second, other) = beside_a_hold(rt, &world, &config, &mut holder, other, write)?;
    let mut other = other;
    let later = read(&world, &config, 1, &mut other, 0);
    let count = counted(rt, &world, &mut holder);
    world.join(&mut root, holder);
    world.join(&mut root, other);
    match world.close(alloc, root) {
        Ok(closed) => Ok((first, second, later, count, closed.merged.len())),
        Err(_) => Err("no memory for the merged history".into()),
    }
}

/// A pass that holds a unit keeps others out of that unit alone, until it gives the turn back; in a turn that it waits for it
/// counts what the unit has then.
#[test]
fn a_held_unit_keeps_others_out(rt: HostRuntime) -> Result<(), Fail> {
    let found = held(&rt, rt.alloc())?;
    let count = UnitCount {
        steps: 1,
        live: 0,
        mapped: 1,
    };
    assert_eq!(rt; found, (Told::Held, Told::Done, Told::Done, count, 2));
    Ok(())
}

/// What a unit goes on with: a copy that the nexus opened, and has still to end.
fn store_of(alloc: Global, unit: u16, number: u32) -> Result<Store<NoRecorder>, Fail>
    ensures { IfOk result (λ s. s.history.entries
        ≡ record { stamp = 1; unit = unit; actor = Actor.Nexus number; seq = 0; moment = 0; act = Act.Open 3 } ∷ []) }
{
    let mut history = History::empty(alloc);
    history.push(Entry {
        stamp: 1,
        unit,
        actor: Actor::Nexus(number),
        seq: 0,
        moment: 0,
        act: Act::Open { id: 3 },
    })?;
    Ok(Store {
        history,
        recorder: NoRecorder,
    })
}

/// What the machine's units go on with, by nexuses of these numbers.
fn stores_of(
    alloc: Global,
    config: &Config,
    first: u32,
    second: u32,
) -> Result<Vec<Store<NoRecorder>>, Fail>
    requires { length config.now.units ≡ 2 }
    ensures long { IfOk result (λ l. length l.items ≡ 2) }
    ensures stored { IfOk result (λ l. AreStored config.now 0 (map (stored (λ _. no_recorder)) l.items)) }
{
    let open = Act::Open { id: 3 };
    if !within_limits(config, 0, &open) {
        return Err("past the limits".into());
    }
    if !within_limits(config, 1, &open) {
        return Err("past the limits".into());
    }
    let lower = store_of(alloc, 0, first)?;
    let upper = store_of(alloc, 1, second)?;
    let mut stores = Vec::new(alloc);
    stores.push(lower)?;
    stores.push(upper)?;
    Ok(stores)
}

/// The entries of a closed world, and of each unit how many older ones there are and how many in all.
#[derive(Drop)]
struct Resumed {
    order: Vec<(u16, u64)>,
    units: Vec<(u64, u64)>,
}

/// What a world has that goes on with the histories of two nexuses.
fn go_on(alloc: Global, first: u32, second: u32) -> Result<Resumed, Fail> {
    let config = machine(alloc)?;
    let stores = stores_of(alloc, &config, first, second)?;
    let Ok((world, root)) = World::resume(alloc, &config, stores) else {
        return Err("the histories were refused".into());
    };
    let Ok(closed) = world.close(alloc, root) else {
        return Err("no memory for the merged history".into());
    };
    let mut units = Vec::new(alloc);
    for unit in &closed.units {
        units.push((unit.folded, unit.count.steps))?;
    }
    let order = order_of(alloc, &closed.merged)?;
    Ok(Resumed { order, units })
}

/// Each copy that was open is ended: the ends are kept, and what was recorded is not.
#[test]
fn a_world_goes_on_with_histories(rt: HostRuntime) -> Result<(), Fail> {
    let found = go_on(rt.alloc(), 7, 8)?;
    assert_eq!(rt; found.order.as_slice(), [(0, 2), (1, 2)].as_slice());
    assert_eq!(rt; found.units.as_slice(), [(1, 2), (1, 2)].as_slice());
    Ok(())
}

/// Why a world does not go on with the histories of two nexuses, if it does not, and how many stores come back.
fn refused(alloc: Global, first: u32, second: u32) -> Result<Option<(ResumeRefused, usize)>, Fail> {
    let config = machine(alloc)?;
    let stores = stores_of(alloc, &config, first, second)?;
    match World::resume(alloc, &config, stores) {
        Ok(_) => Ok(None),
        Err((stores, refused)) => Ok(Some((refused, stores.len()))),
    }
}

/// How many units are left of a world with these recorders, or how many recorders come back where memory is wanted.
fn recorders_of(alloc: Global, config: &Config) -> Result<usize, Fail> {
    let mut recorders = Vec::new(alloc);
    for _ in 0..config.units() {
        recorders.push(NoRecorder)?;
    }
    match World::with(alloc, config, recorders) {
        Ok((world, root)) => Ok(world.end(root).len()),
        Err((recorders, OutOfMemory)) => Ok(recorders.len()),
    }
}

/// Where there is no memory for a world the recorders come back: `rt try --test --fail-alloc` shows it.
#[test]
fn no_recorder_is_lost(rt: HostRuntime) -> Result<(), Fail> {
    let config = machine(rt.alloc())?;
    assert_eq!(rt; recorders_of(rt.alloc(), &config)?, 2);
    Ok(())
}

/// A history that is bad is told with its unit and its entry, and the stores come back.
#[test]
fn a_bad_history_is_told(rt: HostRuntime) -> Result<(), Fail> {
    let bad = ResumeRefused::BadHistory { unit: 1, entry: 0 };
    let found = refused(rt.alloc(), 7, 4_294_967_039)?;
    assert_eq!(rt; found, Some((bad, 2)));
    Ok(())
}
