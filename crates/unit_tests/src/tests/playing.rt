// Steps of a test, played one after the other.
ghost use Rattle.std.specs.Prelude.{◌≡◌, ◌≤◌, length, IfOk};

use super::acts::{Asked, act_of, redeem, row, start};
use super::asking::{Told, abort, ask, close_copy, end, fold, fold_nowhere, pump, unended};
use cm_base::{CallList, Config, UnitConfig, UnitList};
use cm_history::{Actor, Answer, within_limits};
use lba_ranges::BlockList;
use recorder::MemoryRecorder;
use std::alloc::Global;
use std::test::Fail;
use unit_core::Unit;

/// What is done to the unit, or asked of it.
#[derive(Clone, Copy)]
pub(crate) enum Step {
    /// Nexus 1 asks, at the moment 0.
    Ask(Asked),
    /// Nexus 1 asks at a moment.
    At(u64, Asked),
    /// A nexus asks, at the moment 0.
    By(u32, Asked),
    /// Tokens of so many blocks, one each, made a second after each other from 100 on.
    Fill(u32),
    /// Sixty-four tokens of all blocks, made a second after each other from 100 on, each behind a Write of one more block.
    /// Done where after each no more versions are kept than the unit has blocks, with one for each Write behind a token.
    Freeze,
    /// Begins to write the two blocks of the token 0 from block 10 on.
    StartRedeemed,
    Pump,
    End,
    Abort,
    Close,
    Fold,
    /// A fold where there is no recorder.
    FoldNowhere,
    /// How many tokens live.
    Live,
    /// How many entries are kept.
    Kept,
    /// How many entries were dropped.
    Dropped,
    /// How many entries the recorder has.
    Recorded,
    /// How many blocks are mapped.
    Mapped,
    /// How many versions of blocks are kept.
    Stored,
    /// Whether the operation of nexus 1 runs, a copy or none, of this identifier.
    Runs(bool, u32),
    Unended,
    /// The stamp of the last entry.
    LastStamp,
}

/// What the unit has, where a step asks for that.
fn seen(unit: &Unit, recorder: &MemoryRecorder, step: Step) -> Result<Told, Fail> {
    match step {
        Step::Live => Ok(Told::Count(u64::from(unit.live()))),
        Step::Kept => Ok(Told::Count(unit.kept())),
        Step::Dropped => Ok(Told::Count(unit.folded())),
        Step::Recorded => Ok(Told::Count(recorder.entries().len() as u64)),
        Step::Mapped => Ok(Told::Count(unit.mapped())),
        Step::Stored => Ok(Told::Count(unit.stored())),
        Step::Runs(copy, id) => Ok(Told::Runs(unit.runs(Actor::Nexus(1), copy, id))),
        Step::Unended => Ok(unended(unit)),
        Step::LastStamp => Ok(Told::Count(unit.last_stamp())),
        _ => Err(Fail::new("the step asks for nothing that a unit has")),
    }
}

/// A nexus asks at a moment.
fn asked(
    alloc: Global,
    config: &Config,
    unit: &mut Unit,
    nexus: u32,
    moment: u64,
    asked: Asked,
) -> Result<Told, Fail>
    requires config { unit.old.config ≡ config.now }
    requires unit { unit.old.unit ≡ 0 }
    requires one { length config.now.units ≡ 1 }
    ensures config { unit.new.config ≡ unit.old.config }
    ensures unit { unit.new.unit ≡ unit.old.unit }
{
    let act = act_of(alloc, config, asked)?;
    Ok(ask(config, unit, nexus, moment, act))
}

/// Tokens of the first blocks.
fn fill(alloc: Global, config: &Config, unit: &mut Unit, count: u32) -> Result<Told, Fail>
    requires config { unit.old.config ≡ config.now }
    requires unit { unit.old.unit ≡ 0 }
    requires one { length config.now.units ≡ 1 }
    ensures config { unit.new.config ≡ unit.old.config }
    ensures unit { unit.new.unit ≡ unit.old.unit }
{
    for block in 0..count {
        let populate = Asked::Populate {
            id: block,
            timeout: 300,
            lba: block,
            count: 1,
        };
        asked(alloc, config, unit, 1, 100 + u64::from(block), populate)?;
    }
    Ok(Told::Done)
}

/// Tokens of all blocks, each behind a Write of one more block; the number of versions, where it is another one.
fn freeze(alloc: Global, config: &Config, unit: &mut Unit) -> Result<Told, Fail>
    requires config { unit.old.config ≡ config.now }
    requires unit { unit.old.unit ≡ 0 }
    requires one { length config.now.units ≡ 1 }
    ensures config { unit.new.config ≡ unit.old.config }
    ensures unit { unit.new.unit ≡ unit.old.unit }
{
    for block in 0..64u32 {
        let moment = 100 + u64::from(block);
        let write = Asked::Write(0x22, u64::from(block), 1);
        asked(alloc, config, unit, 1, moment, write)?;
        let populate = Asked::Populate {
            id: block,
            timeout: 300,
            lba: 0,
            count: 4096,
        };
        asked(alloc, config, unit, 1, moment, populate)?;
        if unit.stored() != 4096 + u64::from(block) {
            return Ok(Told::Count(unit.stored()));
        }
    }
    Ok(Told::Done)
}

/// The two blocks of the token 0.
fn redeemed(alloc: Global, config: &Config, unit: &mut Unit) -> Result<BlockList, Fail>
    requires config { unit.old.config ≡ config.now }
    requires unit { unit.old.unit ≡ 0 }
    requires one { length config.now.units ≡ 1 }
    ensures config { unit.new.config ≡ unit.old.config }
    ensures unit { unit.new.unit ≡ unit.old.unit }
{
    let act = redeem(alloc, config, 0, 2)?;
    if within_limits(config, 0, &act) {
        if let Ok(Answer::Rod(list)) = unit.act(Actor::Nexus(1), 0, 0, 0, act) {
            return Ok(list);
        }
    }
    Ok(BlockList::empty(alloc, 512))
}

/// Begins to write the blocks of the token 0.
fn start_redeemed(alloc: Global, config: &Config, unit: &mut Unit) -> Result<Told, Fail>
    requires config { unit.old.config ≡ config.now }
    requires unit { unit.old.unit ≡ 0 }
    requires one { length config.now.units ≡ 1 }
    ensures config { unit.new.config ≡ unit.old.config }
    ensures unit { unit.new.unit ≡ unit.old.unit }
{
    let list = redeemed(alloc, config, unit)?;
    let act = start(alloc, false, list, row(alloc, 10, 2)?)?;
    Ok(ask(config, unit, 1, 0, act))
}

/// What a step is answered.
fn told(
    alloc: Global,
    config: &Config,
    unit: &mut Unit,
    recorder: &mut MemoryRecorder,
    step: Step,
) -> Result<Told, Fail>
    requires config { unit.old.config ≡ config.now }
    requires unit { unit.old.unit ≡ 0 }
    requires one { length config.now.units ≡ 1 }
    ensures config { unit.new.config ≡ unit.old.config }
    ensures unit { unit.new.unit ≡ unit.old.unit }
{
    match step {
        Step::Ask(act) => asked(alloc, config, unit, 1, 0, act),
        Step::At(moment, act) => asked(alloc, config, unit, 1, moment, act),
        Step::By(nexus, act) => asked(alloc, config, unit, nexus, 0, act),
        Step::Fill(count) => fill(alloc, config, unit, count),
        Step::Freeze => freeze(alloc, config, unit),
        Step::StartRedeemed => start_redeemed(alloc, config, unit),
        Step::Pump => Ok(pump(unit)),
        Step::End => Ok(end(unit)),
        Step::Abort => Ok(abort(unit)),
        Step::Close => Ok(close_copy(unit)),
        Step::Fold => Ok(fold(unit, recorder)),
        Step::FoldNowhere => Ok(fold_nowhere(unit)),
        _ => seen(unit, recorder, step),
    }
}

/// The number of a step, from 0, that is answered otherwise.
#[derive(Drop, Debug)]
struct OtherStep(usize);

/// Fails with the first step that is answered otherwise.
fn play_on(
    alloc: Global,
    config: &Config,
    unit: &mut Unit,
    recorder: &mut MemoryRecorder,
    steps: &[(Step, Told)],
) -> Result<(), Fail>
    requires config { unit.old.config ≡ config.now }
    requires unit { unit.old.unit ≡ 0 }
    requires one { length config.now.units ≡ 1 }
{
    for (number, (step, wanted)) in steps.iter().enumerate() {
        if told(alloc, config, unit, recorder, *step)? != *wanted {
            return Err(Fail::from(OtherStep(number)));
        }
    }
    Ok(())
}

/// What a unit has room for.
#[derive(Clone, Copy)]
pub(crate) struct Room {
    /// Entries of its record.
    pub(crate) entries: u32,
    /// Mapped blocks.
    pub(crate) quota: u64,
    /// Bytes of its record.
    pub(crate) payload: u32,
}

/// Ample room.
pub(crate) const AMPLE: Room = Room {
    entries: 1024,
    quota: 4096,
    payload: 4_194_304,
};

/// A machine of one unit of 4096 blocks of 512 bytes.
fn machine(alloc: Global, room: Room) -> Result<Config, Fail>
    requires entries { (1 ≤ room.entries) × (room.entries ≤ 1024) }
    requires quota { room.quota ≤ 4096 }
    requires payload { (1 ≤ room.payload) × (room.payload ≤ 4_194_304) }
    ensures { IfOk result (λ config. length config.units ≡ 1) }
{
    let mut units = UnitList::empty(alloc);
    units.push(UnitConfig {
        blocks: 4096,
        block_length: 512,
        entries: room.entries,
        quota: room.quota,
        payload: room.payload,
        group: 0,
    })?;
    Ok(Config::new([0; 32], units))
}

/// Plays the steps with a new unit.
fn play_new(
    alloc: Global,
    config: &Config,
    recorder: &mut MemoryRecorder,
    steps: &[(Step, Told)],
) -> Result<(), Fail>
    requires { length config.now.units ≡ 1 }
{
    let mut unit = Unit::new(alloc, config, 0)?;
    play_on(alloc, config, &mut unit, recorder, steps)
}

/// Fails with the first step that a new unit answers otherwise. Of the calls of its recorder those listed fail.
pub(crate) fn play(
    alloc: Global,
    room: Room,
    failing: &[u64],
    steps: &[(Step, Told)],
) -> Result<(), Fail>
    requires entries { (1 ≤ room.entries) × (room.entries ≤ 1024) }
    requires quota { room.quota ≤ 4096 }
    requires payload { (1 ≤ room.payload) × (room.payload ≤ 4_194_304) }
{
    let config = machine(alloc, room)?;
    let failing = CallList::copy(alloc, failing)?;
    let mut recorder = MemoryRecorder::new(alloc, failing);
    play_new(alloc, &config, &mut recorder, steps)
}

/// [`play`] with ample room, and no call of the recorder fails.
pub(crate) fn play_ample(alloc: Global, steps: &[(Step, Told)]) -> Result<(), Fail> {
    play(alloc, AMPLE, &[], steps)
}

/// How many entries a new unit hands out behind these steps.
fn left_by(alloc: Global, config: &Config, steps: &[(Step, Told)]) -> Result<usize, Fail>
    requires { length config.now.units ≡ 1 }
{
    let mut unit = Unit::new(alloc, config, 0)?;
    let mut recorder = MemoryRecorder::new(alloc, CallList::empty(alloc));
    let played = play_on(alloc, config, &mut unit, &mut recorder, steps);
    let left = unit.into_history().len();
    played?;
    Ok(left)
}

/// How many entries a unit hands out behind these steps.
pub(crate) fn handed_out(alloc: Global, room: Room, steps: &[(Step, Told)]) -> Result<usize, Fail>
    requires entries { (1 ≤ room.entries) × (room.entries ≤ 1024) }
    requires quota { room.quota ≤ 4096 }
    requires payload { (1 ≤ room.payload) × (room.payload ≤ 4_194_304) }
{
    let config = machine(alloc, room)?;
    left_by(alloc, &config, steps)
}
