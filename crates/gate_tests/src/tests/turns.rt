// Acts that are asked of a unit through its gate.
ghost use Rattle.std.specs.Prelude.{◌≡◌, ◌≤◌, IfOk, IfSome, false, length, true};
ghost use Rattle.cm_history.specs.declared.act.Actor.{Actor};
ghost use Rattle.cm_history.specs.Legal.{may_ask};

use super::machine::machine;
use cm_base::{CallList, Config, Payload};
use cm_history::{Act, ActRefused, Actor, within_limits};
use lba_ranges::BlockList;
use recorder::{MemoryRecorder, NoRecorder};
use std::alloc::Global;
use std::sync::Wait;
use std::test::Fail;
use std::thread::{Threads, join};
use turn_gate::{Gate, GateSeat};
use unit_gate::{AskedAct, RecordedUnit, TryRefused, UnitCount, act, hold, release, try_act};

type Recorded = RecordedUnit<MemoryRecorder>;

/// What an act came to, in short.
#[derive(Clone, Copy, Debug, PartialEq)]
enum Told {
    PastLimits,
    /// With the stamp of its entry.
    Done(u64),
    Full,
    NoMemory,
    Held,
}

/// A gate round the machine's unit, whose recorder fails at the listed calls.
fn gate_of(
    alloc: Global,
    config: &Config,
    failing: CallList,
) -> Result<(Gate<Recorded>, GateSeat<Recorded>), Fail>
    requires { length config.now.units ≡ 1 }
    ensures kin { IfOk result (λ r. IfSome r.0.kin (λ kin. (kin.config ≡ config.now) × (kin.unit ≡ 0))) }
    ensures gate { IfOk result (λ r. r.1.gate ≡ r.0) }
    ensures idle { IfOk result (λ r. r.1.holds ≡ false) }
    ensures first { IfOk result (λ r. r.1.first ≡ true) }
    ensures out { IfOk result (λ r. r.1.out ≡ 0) }
{
    let recorder = MemoryRecorder::new(alloc, failing);
    let Ok(unit) = RecordedUnit::new(alloc, config, 0, recorder) else {
        return Err("no memory for a unit".into());
    };
    match Gate::new(alloc, unit) {
        Ok(made) => Ok(made),
        Err(_) => Err("no memory for a gate".into()),
    }
}

/// An act of nexus 1.
fn asked(seq: u64, act: Act) -> AskedAct
    ensures act { result.act ≡ act }
    ensures actor { result.actor ≡ Actor.Nexus 1 }
{
    AskedAct {
        actor: Actor::Nexus(1),
        seq,
        stamp: 0,
        moment: 0,
        act,
    }
}

/// What an act comes to that is asked at once.
fn ask(
    config: &Config,
    gate: &Gate<Recorded>,
    seat: &mut GateSeat<Recorded>,
    seq: u64,
    act: Act,
) -> Told
    requires kin { IfSome gate.now.kin (λ kin. (kin.config ≡ config.now) × (kin.unit ≡ 0)) }
    requires one { length config.now.units ≡ 1 }
    requires asked { may_ask 0 (Actor.Nexus 1) act ≡ true }
    requires gate { seat.old.gate ≡ gate.now }
    requires idle { seat.old.holds ≡ false }
    ensures gate { seat.new.gate ≡ seat.old.gate }
    ensures idle { seat.new.holds ≡ false }
    ensures first { seat.new.first ≡ seat.old.first }
    ensures out { seat.new.out ≡ seat.old.out }
{
    if !within_limits(config, 0, &act) {
        return Told::PastLimits;
    }
    match try_act(gate, seat, asked(seq, act)) {
        Ok(acted) => Told::Done(acted.stamp),
        Err(TryRefused::Held(_)) => Told::Held,
        Err(TryRefused::Act(ActRefused::Full)) => Told::Full,
        Err(TryRefused::Act(ActRefused::OutOfMemory)) => Told::NoMemory,
    }
}

/// What is asked through the gate.
#[derive(Clone, Copy)]
enum Step {
    /// So many Reads of one block; the last one's answer, or the first that is not done.
    Reads(u64),
    /// A Write of so many blocks.
    Write(u32),
}

/// Reads one block so many times, until one is not done.
fn reads(config: &Config, gate: &Gate<Recorded>, seat: &mut GateSeat<Recorded>, count: u64) -> Told
    requires kin { IfSome gate.now.kin (λ kin. (kin.config ≡ config.now) × (kin.unit ≡ 0)) }
    requires one { length config.now.units ≡ 1 }
    requires gate { seat.old.gate ≡ gate.now }
    requires idle { seat.old.holds ≡ false }
    ensures gate { seat.new.gate ≡ seat.old.gate }
    ensures idle { seat.new.holds ≡ false }
    ensures first { seat.new.first ≡ seat.old.first }
    ensures out { seat.new.out ≡ seat.old.out }
{
    let mut told = Told::Done(0);
    for seq in 0..count {
        told = ask(config, gate, seat, seq, Act::Read { lba: 0, count: 1 });
        if !matches!(told, Told::Done(_)) {
            return told;
        }
    }
    told
}

/// Writes so many blocks.
fn write(
    alloc: Global,
    config: &Config,
    gate: &Gate<Recorded>,
    seat: &mut GateSeat<Recorded>,
    count: u32,
) -> Result<Told, Fail>
    requires kin { IfSome gate.now.kin (λ kin. (kin.config ≡ config.now) × (kin.unit ≡ 0)) }
    requires one { length config.now.units ≡ 1 }
    requires gate { seat.old.gate ≡ gate.now }
    requires idle { seat.old.holds ≡ false }
    ensures gate { seat.new.gate ≡ seat.old.gate }
    ensures idle { seat.new.holds ≡ false }
    ensures first { seat.new.first ≡ seat.old.first }
    ensures out { seat.new.out ≡ seat.old.out }
{
    let bytes = vec![in alloc; 7; count as usize * 512]?;
    let list = BlockList::from_payload(alloc, 512, count, Payload::from_vec(bytes)?)?;
    Ok(ask(config, gate, seat, 0, Act::Write { lba: 0, list }))
}

/// Whether each step is answered so.
fn are_answered(
    alloc: Global,
    config: &Config,
    gate: &Gate<Recorded>,
    seat: &mut GateSeat<Recorded>,
    steps: &[(Step, Told)],
) -> Result<bool, Fail>
    requires kin { IfSome gate.now.kin (λ kin. (kin.config ≡ config.now) × (kin.unit ≡ 0)) }
    requires one { length config.now.units ≡ 1 }
    requires gate { seat.old.gate ≡ gate.now }
    requires idle { seat.old.holds ≡ false }
    ensures gate { seat.new.gate ≡ seat.old.gate }
    ensures idle { seat.new.holds ≡ false }
    ensures first { seat.new.first ≡ seat.old.first }
    ensures out { seat.new.out ≡ seat.old.out }
{
    for &(step, wanted) in steps {
        let told = match step {
            Step::Reads(count) => reads(config, gate, seat, count),
            Step::Write(count) => write(alloc, config, gate, seat, count)?,
        };
        if told != wanted {
            return Ok(false);
        }
    }
    Ok(true)
}

/// What a closed unit has.
#[derive(Clone, Copy, Debug, PartialEq)]
struct Closed {
    /// Entries of its recorder.
    recorded: usize,
    folded: u64,
    late: u64,
    /// Entries that were not dropped.
    kept: usize,
    count: UnitCount,
}

/// What the machine's unit has behind these steps, if each is answered so. Its recorder fails at the listed calls.
fn played(
    alloc: Global,
    entries: u32,
    payload: u32,
    failing: &[u64],
    steps: &[(Step, Told)],
) -> Result<Option<Closed>, Fail>
    requires entries { (1 ≤ entries) × (entries ≤ 1024) }
    requires payload { (1 ≤ payload) × (payload ≤ 4_194_304) }
{
    let config = machine(alloc, entries, payload)?;
    let (gate, mut seat) = gate_of(alloc, &config, CallList::copy(alloc, failing)?)?;
    if !are_answered(alloc, &config, &gate, &mut seat, steps)? {
        return Ok(None);
    }
    let closed = gate.close(seat).into_closed();
    Ok(Some(Closed {
        recorded: closed.recorder.entries().len(),
        folded: closed.folded,
        late: closed.late,
        kept: closed.history.len(),
        count: closed.count,
    }))
}

/// A full record is recorded elsewhere, and the unit goes on.
#[test]
fn entries_are_folded(rt: HostRuntime) -> Result<(), Fail> {
    let steps = [(Step::Reads(20), Told::Done(20))];
    let wanted = Closed {
        recorded: 18,
        folded: 18,
        late: 0,
        kept: 2,
        count: UnitCount {
            steps: 20,
            live: 0,
            mapped: 0,
        },
    };
    assert_eq!(rt; played(rt.alloc(), 6, 4096, &[], &steps)?, Some(wanted));
    Ok(())
}

/// Where the recorder fails at its first call, the seventh act is Full and the eighth is answered.
#[test]
fn a_failed_fold_is_full(rt: HostRuntime) -> Result<(), Fail> {
    let steps = [
        (Step::Reads(6), Told::Done(6)),
        (Step::Reads(1), Told::Full),
        (Step::Reads(1), Told::Done(7)),
    ];
    let wanted = Closed {
        recorded: 6,
        folded: 6,
        late: 0,
        kept: 1,
        count: UnitCount {
            steps: 7,
            live: 0,
            mapped: 0,
        },
    };
    assert_eq!(rt; played(rt.alloc(), 6, 4096, &[1], &steps)?, Some(wanted));
    Ok(())
}

/// Payload is written out with its entries; more than the record has room for in all stays Full.
#[test]
fn payload_is_folded(rt: HostRuntime) -> Result<(), Fail> {
    let steps = [
        (Step::Write(2), Told::Done(1)),
        (Step::Write(2), Told::Done(2)),
        (Step::Write(3), Told::Full),
    ];
    let wanted = Closed {
        recorded: 2,
        folded: 2,
        late: 0,
        kept: 0,
        count: UnitCount {
            steps: 2,
            live: 0,
            mapped: 2,
        },
    };
    assert_eq!(rt; played(rt.alloc(), 1024, 1024, &[], &steps)?, Some(wanted));
    Ok(())
}

/// A Read by a seat of another thread.
fn read_there(
    config: &Config,
    gate: &Gate<Recorded>,
    seat: GateSeat<Recorded>,
) -> (Told, GateSeat<Recorded>)
    requires kin { IfSome gate.now.kin (λ kin. (kin.config ≡ config.now) × (kin.unit ≡ 0)) }
    requires one { length config.now.units ≡ 1 }
    requires gate { seat.gate ≡ gate.now }
    requires idle { seat.holds ≡ false }
    ensures gate { result.1.gate ≡ gate.now }
    ensures idle { result.1.holds ≡ false }
{
    let mut seat = seat;
    let told = ask(config, gate, &mut seat, 0, Act::Read { lba: 0, count: 1 });
    (told, seat)
}

/// What a Read in another thread comes to while the first seat holds the unit, and after that.
fn beside_a_hold<R: Wait + Threads + Sync>(
    rt: &R,
    alloc: Global,
) -> Result<(Told, Told, u64), Fail> {
    let config = machine(alloc, 6, 4096)?;
    let (gate, mut first) = gate_of(alloc, &config, CallList::empty(alloc))?;
    let second = gate.split(&mut first)?;
    let Some(turn) = hold(&gate, &mut first) else {
        return Err("the turn was taken".into());
    };
    let (_, (held, second)) = join(
        rt,
        || {},
        || -> (Told, GateSeat<Recorded>)
            requires kin { IfSome gate.kin (λ kin. (kin.config ≡ config) × (kin.unit ≡ 0)) }
            requires one { length config.units ≡ 1 }
            requires gate { second.gate ≡ gate }
            requires idle { second.holds ≡ false }
            ensures gate { result.1.gate ≡ gate }
            ensures idle { result.1.holds ≡ false }
        { read_there(&config, &gate, second) },
    );
    release(&gate, &mut first, turn);
    let (_, (done, second)) = join(
        rt,
        || {},
        || -> (Told, GateSeat<Recorded>)
            requires kin { IfSome gate.kin (λ kin. (kin.config ≡ config) × (kin.unit ≡ 0)) }
            requires one { length config.units ≡ 1 }
            requires gate { second.gate ≡ gate }
            requires idle { second.holds ≡ false }
            ensures gate { result.1.gate ≡ gate }
            ensures idle { result.1.holds ≡ false }
        { read_there(&config, &gate, second) },
    );
    gate.join(&mut first, second);
    Ok((held, done, gate.close(first).into_closed().count.steps))
}

/// A seat that holds the unit keeps the others out until it gives the turn back.
#[test]
fn a_held_unit_keeps_others_out(rt: HostRuntime) -> Result<(), Fail> {
    let found = beside_a_hold(&rt, rt.alloc())?;
    assert!(rt; found == (Told::Held, Told::Done(1), 1));
    Ok(())
}

/// Whether the first of two Reads is answered where there is no recorder, whether the second finds the record full, and how
/// many entries were dropped and are kept.
fn without_a_recorder<R: Wait + Sync>(
    rt: &R,
    alloc: Global,
) -> Result<(bool, bool, u64, usize), Fail> {
    let config = machine(alloc, 1, 4096)?;
    let Ok(unit) = RecordedUnit::new(alloc, &config, 0, NoRecorder) else {
        return Err("no memory for a unit".into());
    };
    let Ok((gate, mut seat)) = Gate::new(alloc, unit) else {
        return Err("no memory for a gate".into());
    };
    let read = asked(0, Act::Read { lba: 0, count: 1 });
    let first = act(rt, &gate, &mut seat, read).is_ok();
    let read = asked(1, Act::Read { lba: 0, count: 1 });
    let second = matches!(act(rt, &gate, &mut seat, read), Err(ActRefused::Full));
    let closed = gate.close(seat).into_closed();
    Ok((first, second, closed.folded, closed.history.len()))
}

/// Without a recorder a record stays full.
#[test]
fn a_record_stays_full_without_a_recorder(rt: HostRuntime) -> Result<(), Fail> {
    let found = without_a_recorder(&rt, rt.alloc())?;
    assert_eq!(rt; found, (true, true, 0, 1));
    Ok(())
}
