// Worlds of one unit: what one leaves in its journal the next goes on with.
ghost use Rattle.std.specs.Prelude.{◌≡◌, ◌<◌, [], ℕ, length, IfOk, true};
ghost use Rattle.cm_history.specs.declared.act.Actor.{Actor};
ghost use Rattle.cm_history.specs.Legal.{may_ask};
ghost use Rattle.nexus.specs.Roots.{IsRootOf};
ghost use Rattle.nexus.specs.Worlds.{IsFreePass};

use crate::journals::{MemoryJournal, disk_with, entries_on, new_disk, one_unit, stores_on};
use cm_base::{Config, Payload};
use cm_history::{Act, Answer, RodBlocks, within_limits};
use journal_disk::MemoryDisk;
use lba_ranges::{BlockList, Range, RangeList};
use nexus::{Pass, Root, World};
use std::alloc::Global;
use std::sync::Wait;
use std::test::Fail;
use unit_gate::{ClosedUnit, ResumeRefused};

/// Each byte of the block that is written.
const BYTE: u8 = 0x11;

/// A block that is written.
fn one_block(alloc: Global) -> Result<BlockList, Fail> {
    let bytes = vec![in alloc; BYTE; 512]?;
    let payload = Payload::from_vec(bytes)?;
    Ok(BlockList::from_payload(alloc, 512, 1, payload)?)
}

/// A Write of the first block.
fn write_of_one(alloc: Global) -> Result<Act, Fail>
    ensures { IfOk result (λ act. (n : ℕ) → may_ask 0 (Actor.Nexus n) act ≡ true) }
{
    let list = one_block(alloc)?;
    Ok(Act::Write { lba: 0, list })
}

/// A Start of an operation that writes the first block.
fn start_of_one(alloc: Global) -> Result<Act, Fail> {
    let rod = RodBlocks::new(alloc, one_block(alloc)?)?;
    let mut ranges = RangeList::empty(alloc);
    ranges.push(Range { lba: 0, count: 1 })?;
    Ok(Act::Start {
        id: 1,
        background: false,
        ranges,
        rod,
    })
}

/// The answer is the block that was written.
fn is_one_block(answer: &Answer) -> bool {
    let Answer::Blocks(list) = answer else {
        return false;
    };
    match list.held(0) {
        Some(bytes) => list.blocks() == 1 && bytes == [BYTE; 512].as_slice(),
        None => false,
    }
}

/// A world whose unit goes on with the journal on a disk.
fn resumed(
    alloc: Global,
    config: &Config,
    disk: MemoryDisk,
) -> Result<(World<MemoryJournal>, Root<MemoryJournal>), Fail>
    requires one { length config.now.units ≡ 1 }
    ensures config { IfOk result (λ w. w.0.config ≡ config.now) }
    ensures root { IfOk result (λ w. IsRootOf w.0 w.1) }
    ensures none { IfOk result (λ w. w.1.out ≡ []) }
    ensures few { IfOk result (λ w. w.1.made < 4_294_967_295) }
{
    let stores = stores_on(alloc, config, disk)?;
    match World::resume(alloc, config, stores) {
        Ok(made) => Ok(made),
        Err(_) => Err("the history was refused".into()),
    }
}

/// What the unit answers to an act of the pass of a nexus.
fn answered<W: Wait>(
    rt: &W,
    world: &World<MemoryJournal>,
    config: &Config,
    nexus: u32,
    pass: &mut Pass<MemoryJournal>,
    act: Act,
) -> Result<Answer, Fail>
    requires config { config.now ≡ world.now.config }
    requires one { length config.now.units ≡ 1 }
    requires pass { IsFreePass world.now nexus pass.old }
    requires asked { may_ask 0 (Actor.Nexus nexus) act ≡ true }
    ensures { IsFreePass world.now nexus pass.new }
{
    if !within_limits(config, 0, &act) {
        return Err("past the limits".into());
    }
    match world.act(rt, pass, 0, 0, act) {
        Ok(answer) => Ok(answer),
        Err(_) => Err("the act was refused".into()),
    }
}

/// What is left of the unit when its world is ended.
fn left_of(
    world: World<MemoryJournal>,
    root: Root<MemoryJournal>,
) -> Result<ClosedUnit<MemoryJournal>, Fail>
    requires root { IsRootOf world root }
    requires none { length root.out ≡ 0 }
{
    match world.end(root).pop() {
        Some(unit) => Ok(unit),
        None => Err("no unit is left".into()),
    }
}

/// What came of one act in a world, which is ended.
#[derive(Drop)]
struct Outcome {
    /// Whose act it was.
    nexus: u32,
    answer: Answer,
    left: ClosedUnit<MemoryJournal>,
}

/// What comes of an act of the first new pass in a world that goes on with the journal on a disk.
fn outcome_of<W: Wait>(
    rt: &W,
    alloc: Global,
    config: &Config,
    disk: MemoryDisk,
    act: Act,
) -> Result<Outcome, Fail>
    requires one { length config.now.units ≡ 1 }
    requires asked { (n : ℕ) → may_ask 0 (Actor.Nexus n) act ≡ true }
{
    let (world, mut root) = resumed(alloc, config, disk)?;
    let nexus = root.next_nexus();
    let mut pass = world.pass(alloc, &mut root)?;
    let answer = answered(rt, &world, config, nexus, &mut pass, act)?;
    world.join(&mut root, pass);
    let left = left_of(world, root)?;
    Ok(Outcome {
        nexus,
        answer,
        left,
    })
}

/// An entry goes into the journal as soon as it is made, and the unit keeps none.
#[test]
fn a_write_is_recorded_at_once(rt: HostRuntime) -> Result<(), Fail> {
    let alloc = rt.alloc();
    let config = one_unit(alloc, 100)?;
    let write = write_of_one(alloc)?;
    let Outcome {
        nexus,
        answer,
        left,
    } = outcome_of(&rt, alloc, &config, new_disk(alloc), write)?;
    assert!(rt; nexus == 0 && matches!(answer, Answer::Done));
    assert!(rt; left.folded == 1 && left.history.is_empty());
    assert_eq!(rt; entries_on(alloc, &config, left.recorder.into_disk())?, 1);
    Ok(())
}

/// What was written in a world is read in the next one, by a nexus of the next number.
#[test]
fn a_written_block_is_read_in_the_next_world(rt: HostRuntime) -> Result<(), Fail> {
    let alloc = rt.alloc();
    let config = one_unit(alloc, 100)?;
    let write = write_of_one(alloc)?;
    let Outcome { left, .. } = outcome_of(&rt, alloc, &config, new_disk(alloc), write)?;
    let read = Act::Read { lba: 0, count: 1 };
    let Outcome {
        nexus,
        answer,
        left,
    } = outcome_of(&rt, alloc, &config, left.recorder.into_disk(), read)?;
    assert!(rt; nexus == 1 && is_one_block(&answer));
    assert!(rt; left.folded == 2 && left.count.steps == 2);
    Ok(())
}

/// A record of two entries has no room for a Start of one block, which needs three: its world is not made, and the store
/// comes back.
#[test]
fn a_journal_of_a_start_without_room_is_refused(rt: HostRuntime) -> Result<(), Fail> {
    let alloc = rt.alloc();
    let config = one_unit(alloc, 2)?;
    let disk = disk_with(alloc, &config, start_of_one(alloc)?)?;
    let stores = stores_on(alloc, &config, disk)?;
    let Err((stores, refused)) = World::resume(alloc, &config, stores) else {
        return Err("the history was taken".into());
    };
    assert!(rt; refused == ResumeRefused::BadHistory { unit: 0, entry: 0 });
    assert!(rt; stores.len() == 1);
    Ok(())
}

/// A copy that was open is ended: the unit keeps its end alone, and the journal has what it had.
#[test]
fn an_open_copy_is_ended(rt: HostRuntime) -> Result<(), Fail> {
    let alloc = rt.alloc();
    let config = one_unit(alloc, 100)?;
    let disk = disk_with(alloc, &config, Act::Open { id: 3 })?;
    let (world, root) = resumed(alloc, &config, disk)?;
    let left = left_of(world, root)?;
    assert!(rt; left.count.steps == 2 && left.folded == 1 && left.history.len() == 1);
    assert_eq!(rt; entries_on(alloc, &config, left.recorder.into_disk())?, 1);
    Ok(())
}

/// The end of a copy is recorded with the next entry.
#[test]
fn the_end_of_a_copy_is_recorded(rt: HostRuntime) -> Result<(), Fail> {
    let alloc = rt.alloc();
    let config = one_unit(alloc, 100)?;
    let disk = disk_with(alloc, &config, Act::Open { id: 3 })?;
    let read = Act::Read { lba: 0, count: 1 };
    let Outcome { left, .. } = outcome_of(&rt, alloc, &config, disk, read)?;
    assert!(rt; left.folded == 3 && left.history.is_empty());
    assert_eq!(rt; entries_on(alloc, &config, left.recorder.into_disk())?, 3);
    Ok(())
}
