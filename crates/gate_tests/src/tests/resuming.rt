// A unit that goes on with what was recorded of it.
ghost use Rattle.std.specs.Prelude.{◌≡◌, ◌≤◌, [], ◌∷◌, List, None, IfOk, length, true};
ghost use Rattle.cm_history.specs.declared.act.Actor.{Actor};
ghost use Rattle.cm_history.specs.declared.act.Entry.{Entry};
ghost use Rattle.cm_history.specs.Legal.{may_ask};
ghost use Rattle.unit_gate.specs.Recorded.{HasRecorded};

use super::machine::machine;
use cm_base::{Config, Payload};
use cm_history::{Act, Actor, Entry, History, RodBlocks, within_limits};
use lba_ranges::{BlockList, Range, RangeList};
use recorder::NoRecorder;
use std::alloc::Global;
use std::test::Fail;
use unit_core::Unit;
use unit_gate::{RecordedUnit, ResumeRefused, resume};

/// A history of one entry of the machine's unit, by a nexus.
fn history_of(alloc: Global, number: u32, act: Act) -> Result<History, Fail>
    ensures { IfOk result (λ history. history.entries
        ≡ record { stamp = 1; unit = 0; actor = Actor.Nexus number; seq = 0; moment = 0; act = act } ∷ []) }
{
    let mut history = History::empty(alloc);
    history.push(Entry {
        stamp: 1,
        unit: 0,
        actor: Actor::Nexus(number),
        seq: 0,
        moment: 0,
        act,
    })?;
    Ok(history)
}

/// What comes of it that the machine's unit goes on with one entry of a nexus.
fn resumed(
    alloc: Global,
    config: &Config,
    number: u32,
    act: Act,
) -> Result<Result<Unit, ResumeRefused>, Fail>
    requires one { length config.now.units ≡ 1 }
    requires asked { may_ask 0 (Actor.Nexus number) act ≡ true }
    ensures { IfOk result (λ told. IfOk told (λ u. (h : List Entry) × HasRecorded u None h)) }
{
    if !within_limits(config, 0, &act) {
        return Err("past the limits".into());
    }
    let history = history_of(alloc, number, act)?;
    Ok(resume(alloc, config, 0, &history))
}

/// The machine's unit, which goes on with a copy that a nexus opened.
fn with_open_copy(alloc: Global) -> Result<Unit, Fail>
    ensures { IfOk result (λ u. (h : List Entry) × HasRecorded u None h) }
{
    let config = machine(alloc, 6, 4096)?;
    match resumed(alloc, &config, 7, Act::Open { id: 3 })? {
        Ok(unit) => Ok(unit),
        Err(_) => Err("the history was refused".into()),
    }
}

/// How many entries were dropped and are kept, the last stamp, and whether a copy is still to be ended.
fn seen(alloc: Global) -> Result<(u64, u64, u64, bool), Fail> {
    let unit = with_open_copy(alloc)?;
    let is_open = unit.unended().is_some();
    Ok((unit.folded(), unit.kept(), unit.last_stamp(), is_open))
}

/// A copy that was open is ended: the end alone is kept, and what was recorded is dropped.
#[test]
fn an_open_copy_is_ended(rt: HostRuntime) -> Result<(), Fail> {
    assert_eq!(rt; seen(rt.alloc())?, (1, 1, 2, false));
    Ok(())
}

/// Why a unit with room for so many entries does not go on with one entry of a nexus, if it does not.
fn refused(
    alloc: Global,
    entries: u32,
    number: u32,
    act: Act,
) -> Result<Option<ResumeRefused>, Fail>
    requires entries { (1 ≤ entries) × (entries ≤ 1024) }
    requires asked { may_ask 0 (Actor.Nexus number) act ≡ true }
{
    let config = machine(alloc, entries, 4096)?;
    Ok(resumed(alloc, &config, number, act)?.err())
}

const BAD: Option<ResumeRefused> = Some(ResumeRefused::BadHistory { unit: 0, entry: 0 });

/// Above the number 4,294,967,038 of a nexus its entry is refused.
#[test]
fn too_great_a_number_is_bad(rt: HostRuntime) -> Result<(), Fail> {
    let read = Act::Read { lba: 0, count: 1 };
    assert_eq!(rt; refused(rt.alloc(), 6, 4_294_967_038, read)?, None);
    let read = Act::Read { lba: 0, count: 1 };
    assert_eq!(rt; refused(rt.alloc(), 6, 4_294_967_039, read)?, BAD);
    Ok(())
}

/// A Start of one block.
fn start_of_one(alloc: Global) -> Result<Act, Fail>
    ensures { IfOk result (λ act. may_ask 0 (Actor.Nexus 1) act ≡ true) }
{
    let mut ranges = RangeList::empty(alloc);
    ranges.push(Range { lba: 0, count: 1 })?;
    let bytes = vec![in alloc; 7; 512]?;
    let rod = BlockList::from_payload(alloc, 512, 1, Payload::from_vec(bytes)?)?;
    Ok(Act::Start {
        id: 1,
        background: false,
        ranges,
        rod: RodBlocks::new(alloc, rod)?,
    })
}

/// A record of two entries has no room for a Start of one block, which needs three.
#[test]
fn an_entry_without_room_is_bad(rt: HostRuntime) -> Result<(), Fail> {
    let start = start_of_one(rt.alloc())?;
    assert_eq!(rt; refused(rt.alloc(), 2, 1, start)?, BAD);
    Ok(())
}

/// What a unit has at its end that goes on without a recorder.
fn closed_without_a_recorder(alloc: Global) -> Result<(u64, u64, usize, u64), Fail> {
    let closed = RecordedUnit::over(with_open_copy(alloc)?, NoRecorder).into_closed();
    let kept = closed.history.len();
    Ok((closed.folded, closed.late, kept, closed.count.steps))
}

/// A unit may go on without a recorder, and then keeps what is asked of it.
#[test]
fn a_unit_goes_on_without_a_recorder(rt: HostRuntime) -> Result<(), Fail> {
    assert_eq!(rt; closed_without_a_recorder(rt.alloc())?, (1, 0, 1, 2));
    Ok(())
}
