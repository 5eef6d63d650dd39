// What a unit answers in the tests, in short.
ghost use Rattle.std.specs.Prelude.{◌≡◌, ℕ, length, true};
ghost use Rattle.cm_history.specs.declared.act.Actor.{Actor};
ghost use Rattle.cm_history.specs.Legal.{may_ask};

use cm_base::Config;
use cm_history::{Act, ActRefused, Actor, Answer, CopyEnd, CopyState, OpState, within_limits};
use lba_ranges::BlockList;
use recorder::{MemoryRecorder, NoRecorder};
use unit_core::{FoldEnd, Unit};

/// What an act was answered, or what is seen of the unit, in short.
#[derive(Clone, Copy, PartialEq)]
pub(crate) enum Told {
    PastLimits,
    Full,
    NoMemory,
    Done,
    /// The first byte of the first block and of the second; 0 of one that is unmapped.
    Blocks(u8, u8),
    Made(u64),
    Rod(u8),
    /// So many blocks are written, and the operation runs.
    Running(u32),
    /// So many blocks are written, and the operation has ended.
    Ended(u32),
    /// So many blocks are written, and no more for this reason.
    Stopped(u32, u8, u8, u8),
    Refused(u8, u8, u8),
    Conflict,
    /// The generation, and the first key.
    Keys(u32, Option<u64>),
    /// The generation, and the key and the type of the reservation.
    Holder(u32, Option<(u64, u8)>),
    Idle,
    Other,
    /// How a fold ended, how many entries are kept, and how many were dropped.
    Folded(FoldEnd, u64, u64),
    Count(u64),
    Runs(bool),
    /// The number of the nexus, whether it is a copy, and its identifier.
    Unended(Option<(u32, bool, u32)>),
}

/// The byte that a block begins with, and 0 where it is unmapped.
fn first_byte(list: &BlockList, block: u64) -> u8 {
    match list.held(block) {
        Some([first, ..]) => *first,
        _ => 0,
    }
}

/// How far an operation has come.
fn progress(state: OpState, count: u32) -> Told {
    match state {
        OpState::Running => Told::Running(count),
        OpState::Failed(sense) => Told::Stopped(count, sense.key(), sense.asc(), sense.ascq()),
        _ => Told::Ended(count),
    }
}

/// An answer, in short.
fn answered(answer: Answer) -> Told {
    match answer {
        Answer::Done => Told::Done,
        Answer::Blocks(list) => Told::Blocks(first_byte(&list, 0), first_byte(&list, 1)),
        Answer::Made { serial } => Told::Made(serial),
        Answer::Rod(list) => Told::Rod(first_byte(&list, 0)),
        Answer::Progress { state, count } => progress(state, count),
        Answer::Report(report) => progress(report.state, report.count),
        Answer::Refused(sense) => Told::Refused(sense.key(), sense.asc(), sense.ascq()),
        Answer::Conflict => Told::Conflict,
        Answer::Keys { generation, keys } => {
            Told::Keys(generation, keys.as_slice().first().copied())
        }
        Answer::Holder { generation, holder } => {
            Told::Holder(generation, holder.map(|held| (held.key, held.kind)))
        }
        Answer::Idle => Told::Idle,
        _ => Told::Other,
    }
}

/// What an act came to, in short.
fn in_short(told: Result<Answer, ActRefused>) -> Told {
    match told {
        Ok(answer) => answered(answer),
        Err(ActRefused::Full) => Told::Full,
        Err(ActRefused::OutOfMemory) => Told::NoMemory,
    }
}

/// An act of a nexus at a moment.
pub(crate) fn ask(config: &Config, unit: &mut Unit, nexus: u32, moment: u64, act: Act) -> Told
    requires config { unit.old.config ≡ config.now }
    requires unit { unit.old.unit ≡ 0 }
    requires one { length config.now.units ≡ 1 }
    requires asked { may_ask 0 (Actor.Nexus nexus) act ≡ true }
    ensures config { unit.new.config ≡ unit.old.config }
    ensures unit { unit.new.unit ≡ unit.old.unit }
{
    if !within_limits(config, 0, &act) {
        return Told::PastLimits;
    }
    in_short(unit.act(Actor::Nexus(nexus), 0, 0, moment, act))
}

/// The pump's act.
pub(crate) fn pump(unit: &mut Unit) -> Told
    requires unit { unit.old.unit ≡ 0 }
    ensures config { unit.new.config ≡ unit.old.config }
    ensures unit { unit.new.unit ≡ unit.old.unit }
{
    in_short(unit.act(Actor::Pump(0), 0, 0, 0, Act::Pump))
}

/// Ends the operation 2, where it runs.
pub(crate) fn end(unit: &mut Unit) -> Told
    requires { unit.old.unit ≡ 0 }
    ensures config { unit.new.config ≡ unit.old.config }
    ensures unit { unit.new.unit ≡ unit.old.unit }
{
    let actor = Actor::Nexus(1);
    if unit.last_stamp() == u64::MAX || !unit.serves(actor, &Act::End { id: 2 }) {
        return Told::Other;
    }
    answered(unit.end(actor, 0, 0, 0, 2))
}

/// Aborts the operation 2, where it runs.
pub(crate) fn abort(unit: &mut Unit) -> Told
    requires { unit.old.unit ≡ 0 }
    ensures config { unit.new.config ≡ unit.old.config }
    ensures unit { unit.new.unit ≡ unit.old.unit }
{
    let actor = Actor::Nexus(1);
    if unit.last_stamp() == u64::MAX || !unit.serves(actor, &Act::Abort { id: 2 }) {
        return Told::Other;
    }
    answered(unit.abort(actor, 0, 0, 0, 2))
}

/// Closes the copy 3 as done, where it runs.
pub(crate) fn close_copy(unit: &mut Unit) -> Told
    requires { unit.old.unit ≡ 0 }
    ensures config { unit.new.config ≡ unit.old.config }
    ensures unit { unit.new.unit ≡ unit.old.unit }
{
    let actor = Actor::Nexus(1);
    let result = CopyEnd {
        state: CopyState::Done,
        segments: 1,
        bytes: 512,
    };
    if unit.last_stamp() == u64::MAX || !unit.serves(actor, &Act::Close { id: 3, result }) {
        return Told::Other;
    }
    answered(unit.close_copy(actor, 0, 0, 0, 3, result))
}

/// Records the kept entries.
pub(crate) fn fold(unit: &mut Unit, recorder: &mut MemoryRecorder) -> Told
    ensures config { unit.new.config ≡ unit.old.config }
    ensures unit { unit.new.unit ≡ unit.old.unit }
{
    let end = unit.fold(recorder);
    Told::Folded(end, unit.kept(), unit.folded())
}

/// Records them where there is no recorder.
pub(crate) fn fold_nowhere(unit: &mut Unit) -> Told
    ensures config { unit.new.config ≡ unit.old.config }
    ensures unit { unit.new.unit ≡ unit.old.unit }
{
    let end = unit.fold(&mut NoRecorder);
    Told::Folded(end, unit.kept(), unit.folded())
}

/// The operation of an initiator that has not ended.
pub(crate) fn unended(unit: &Unit) -> Told {
    Told::Unended(unit.unended().map(|key| (key.actor, key.copy, key.id)))
}
