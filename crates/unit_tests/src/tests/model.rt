// What one unit of four blocks is answered.
ghost use Rattle.std.specs.Prelude.{◌≡◌, ◌≤◌, length, true, IfOk, OnOk};
ghost use Rattle.cm_history.specs.Limits.{within_limits};
ghost use Rattle.plain_model.specs.Holds.{AreWithin};

use cm_base::{Bytes, Config, Holder, Payload, UnitConfig, UnitList};
use cm_history::{
    Act, Actor, Answer, Entry, History, OpState, RodBlocks, TokenText, within_limits,
};
use lba_ranges::{BlockList, Fill, Piece, Range, RangeList};
use plain_model::plain_answer;
use scsi_sense::Sense;
use std::alloc::Global;
use std::test::Fail;

/// An act of the unit, in short.
#[derive(Clone, Copy)]
enum Asked {
    Read {
        lba: u64,
        count: u32,
    },
    /// Of one block, all of whose bytes are this one.
    Write {
        lba: u64,
        byte: u8,
    },
    /// Of all blocks, by a token that lives for ten seconds.
    Populate,
    /// Of the unit's first token.
    Redeem,
    /// Of a background write of four unmapped blocks.
    Start,
    Pump,
    Report,
    PrOut {
        action: u8,
        kind: u8,
        key: u64,
        action_key: u64,
    },
    PrKeys,
    PrHolder,
}

/// What an act is answered, in short.
#[derive(Clone, Copy, PartialEq, Eq)]
enum Told {
    Done,
    Conflict,
    Refused(Sense),
    /// The first byte of the last of four blocks, where that is mapped.
    Rod {
        last: Option<u8>,
    },
    Report {
        background: bool,
        count: u32,
        done: bool,
    },
    Keys {
        generation: u32,
        count: usize,
    },
    Holder(Holder),
    Other,
}

/// A unit of four blocks of 512 bytes, of which two may be mapped.
fn unit() -> UnitConfig
    ensures { result ≡ record {
      blocks = 4;
      block_length = 512;
      entries = 16;
      quota = 2;
      payload = 65_536;
      group = 0;
    } }
{
    UnitConfig {
        blocks: 4,
        block_length: 512,
        entries: 16,
        quota: 2,
        payload: 65_536,
        group: 0,
    }
}

/// This unit alone.
fn one_unit(alloc: Global) -> Result<Config, Fail>
    ensures { IfOk result (λ config. length config.units ≡ 1) }
{
    let mut units = UnitList::empty(alloc);
    units.push(unit())?;
    Ok(Config::new([7; 32], units))
}

/// A Write of one block, all of whose bytes are this one.
fn write(alloc: Global, lba: u64, byte: u8) -> Result<Act, Fail> {
    let bytes = Payload::from_vec(vec![in alloc; byte; 512]?)?;
    let list = BlockList::from_payload(alloc, 512, 1, bytes)?;
    Ok(Act::Write { lba, list })
}

/// All four blocks of the unit, as one range.
fn all_blocks(alloc: Global) -> Result<RangeList, Fail> {
    let mut list = RangeList::empty(alloc);
    list.push(Range { lba: 0, count: 4 })?;
    Ok(list)
}

/// A Populate of all blocks, whose token lives for ten seconds.
fn populate(alloc: Global) -> Result<Act, Fail> {
    Ok(Act::Populate {
        id: 1,
        timeout: 10,
        ranges: all_blocks(alloc)?,
    })
}

/// A Redeem of the first token of unit 0.
fn redeem(alloc: Global, config: &Config) -> Result<Act, Fail>
    requires { 1 ≤ length config.now.units }
{
    let text = TokenText::new(alloc, &rod_token::text(config, 0, 0, 4))?;
    Ok(Act::Redeem { text, target: 0 })
}

/// A background write of four unmapped blocks.
fn start(alloc: Global) -> Result<Act, Fail> {
    let mut rod = BlockList::empty(alloc, 512);
    rod.push(Piece {
        count: 4,
        fill: Fill::Hole,
    })?;
    Ok(Act::Start {
        id: 1,
        background: true,
        ranges: all_blocks(alloc)?,
        rod: RodBlocks::new(alloc, rod)?,
    })
}

/// The act that is asked.
fn act_of(alloc: Global, config: &Config, asked: Asked) -> Result<Act, Fail>
    requires { 1 ≤ length config.now.units }
{
    match asked {
        Asked::Read { lba, count } => Ok(Act::Read { lba, count }),
        Asked::Write { lba, byte } => write(alloc, lba, byte),
        Asked::Populate => populate(alloc),
        Asked::Redeem => redeem(alloc, config),
        Asked::Start => start(alloc),
        Asked::Pump => Ok(Act::Pump),
        Asked::Report => Ok(Act::Report { id: 1 }),
        Asked::PrOut {
            action,
            kind,
            key,
            action_key,
        } => Ok(Act::PrOut {
            action,
            scope: 0,
            kind,
            key,
            action_key,
        }),
        Asked::PrKeys => Ok(Act::PrKeys),
        Asked::PrHolder => Ok(Act::PrHolder),
    }
}

/// The act is within its limits.
fn allowed(config: &Config, act: &Act) -> Result<(), &'static str>
    requires { 1 ≤ length config.now.units }
    ensures { OnOk result (within_limits config.now 0 act.now ≡ true) }
{
    if within_limits(config, 0, act) {
        Ok(())
    } else {
        Err("an act is beyond its limits")
    }
}

/// Makes room for an act that is within its limits.
fn admit(config: &Config, history: &mut History, act: &Act) -> Result<(), Fail>
    requires { 1 ≤ length config.now.units }
    ensures limits { OnOk result (within_limits config.now 0 act.now ≡ true) }
    ensures room { OnOk result (1 ≤ history.new.spare) }
    ensures same { history.new.entries ≡ history.old.entries }
{
    allowed(config, act)?;
    history.reserve(1)?;
    Ok(())
}

/// Initiator 1 asks unit 0 for an act at this moment.
fn ask(config: &Config, history: &mut History, moment: u64, act: Act) -> Result<(), Fail>
    requires one { 1 ≤ length config.now.units }
    requires within { AreWithin config.now 0 history.old.entries }
    ensures { OnOk result (AreWithin config.now 0 history.new.entries) }
{
    admit(config, history, &act)?;
    history.append(Entry {
        stamp: moment,
        unit: 0,
        actor: Actor::Nexus(1),
        seq: moment,
        moment,
        act,
    });
    Ok(())
}

/// The history goes on with these acts of initiator 1, each at its moment.
fn ask_all(
    alloc: Global,
    config: &Config,
    history: History,
    acts: &[(u64, Asked)],
) -> Result<History, Fail>
    requires one { 1 ≤ length config.now.units }
    requires within { AreWithin config.now 0 history.entries }
    ensures { IfOk result (λ history. AreWithin config.now 0 history.entries) }
{
    let mut history = history;
    for row in acts {
        let act = act_of(alloc, config, row.1)?;
        ask(config, &mut history, row.0, act)?;
    }
    Ok(history)
}

/// Four Writes, the third of which is refused.
const FOUR_WRITES: [(u64, Asked); 4] = [
    (0, Asked::Write { lba: 1, byte: 0x11 }),
    (1, Asked::Write { lba: 1, byte: 0x22 }),
    (2, Asked::Write { lba: 4, byte: 0x33 }),
    (3, Asked::Write { lba: 3, byte: 0x44 }),
];

/// The history of four Writes, and of these acts behind them.
fn history_of(alloc: Global, config: &Config, acts: &[(u64, Asked)]) -> Result<History, Fail>
    requires { 1 ≤ length config.now.units }
    ensures { IfOk result (λ history. AreWithin config.now 0 history.entries) }
{
    let history = ask_all(alloc, config, History::empty(alloc), &FOUR_WRITES)?;
    ask_all(alloc, config, history, acts)
}

/// What an initiator is answered behind a history to an act at a moment.
fn answered_behind(
    alloc: Global,
    config: &Config,
    history: &History,
    nexus: u32,
    moment: u64,
    act: &Act,
) -> Result<Answer, Fail>
    requires one { 1 ≤ length config.now.units }
    requires within { AreWithin config.now 0 history.now.entries }
{
    allowed(config, act)?;
    let actor = Actor::Nexus(nexus);
    Ok(plain_answer(alloc, config, history, 0, actor, moment, act)?)
}

/// What an initiator is answered, after four Writes and these acts of initiator 1, to an act at a moment.
fn answered(
    alloc: Global,
    acts: &[(u64, Asked)],
    nexus: u32,
    moment: u64,
    asked: Asked,
) -> Result<Answer, Fail> {
    let config = one_unit(alloc)?;
    let act = act_of(alloc, &config, asked)?;
    let history = history_of(alloc, &config, acts)?;
    answered_behind(alloc, &config, &history, nexus, moment, &act)
}

/// The first byte of the last of four blocks, where that is mapped.
fn last_of(rod: &BlockList) -> Option<u8> {
    match rod.held(3) {
        Some(bytes) => bytes.first().copied(),
        None => None,
    }
}

fn told_of(answer: &Answer) -> Told {
    match answer {
        Answer::Done => Told::Done,
        Answer::Conflict => Told::Conflict,
        Answer::Refused(sense) => Told::Refused(*sense),
        Answer::Rod(rod) => Told::Rod { last: last_of(rod) },
        Answer::Report(report) => Told::Report {
            background: report.background,
            count: report.count,
            done: matches!(report.state, OpState::Done),
        },
        Answer::Keys { generation, keys } => Told::Keys {
            generation: *generation,
            count: keys.len(),
        },
        Answer::Holder {
            holder: Some(holder),
            ..
        } => Told::Holder(*holder),
        _ => Told::Other,
    }
}

/// What an initiator is told, after four Writes and these acts of initiator 1, where it asks at a moment.
fn told_to(
    alloc: Global,
    acts: &[(u64, Asked)],
    nexus: u32,
    moment: u64,
    asked: Asked,
) -> Result<Told, Fail> {
    let answer = answered(alloc, acts, nexus, moment, asked)?;
    Ok(told_of(&answer))
}

/// The bytes of the blocks that a Read of all blocks is answered after four Writes.
fn read_back(alloc: Global) -> Result<Bytes, Fail> {
    let answer = answered(alloc, &[], 1, 4, Asked::Read { lba: 0, count: 4 })?;
    let mut bytes = Bytes::empty(alloc);
    if let Answer::Blocks(list) = &answer {
        list.read_into(&mut bytes)?;
    }
    Ok(bytes)
}

/// At these places are these bytes.
fn hold(bytes: &[u8], held: &[(usize, u8)]) -> bool {
    for (place, byte) in held {
        if bytes.get(*place) != Some(byte) {
            return false;
        }
    }
    true
}

/// A Read after four Writes is answered so many bytes, and these at these places.
fn reads(alloc: Global, length: usize, held: &[(usize, u8)]) -> Result<bool, Fail> {
    let bytes = read_back(alloc)?;
    Ok(bytes.len() == length && hold(bytes.as_slice(), held))
}

#[test]
fn what_was_written_is_read(rt: HostRuntime) -> Result<(), Fail> {
    let held = [
        (0, 0),
        (511, 0),
        (512, 0x22),
        (1023, 0x22),
        (1024, 0),
        (1536, 0x44),
    ];
    assert!(rt; reads(rt.alloc(), 2048, &held)?);
    Ok(())
}

/// The unit has four blocks, and the quota is of two.
#[test]
fn acts_are_refused(rt: HostRuntime) -> Result<(), Fail> {
    let out_of_range = Told::Refused(Sense::new(0x05, 0x21, 0x00));
    let over_quota = Told::Refused(Sense::new(0x07, 0x27, 0x07));
    let rows = [
        (Asked::Read { lba: 1, count: 4 }, out_of_range),
        (Asked::Write { lba: 0, byte: 0x55 }, over_quota),
        (Asked::Write { lba: 3, byte: 0x55 }, Told::Done),
    ];
    for (asked, wanted) in rows {
        assert!(rt; told_to(rt.alloc(), &[], 1, 4, asked)? == wanted);
    }
    Ok(())
}

/// A token has the blocks of its making for ten seconds.
#[test]
fn a_token_is_redeemed(rt: HostRuntime) -> Result<(), Fail> {
    let acts = [
        (4, Asked::Populate),
        (5, Asked::Write { lba: 3, byte: 0x66 }),
    ];
    let rod = Told::Rod { last: Some(0x44) };
    let expired = Told::Refused(Sense::new(0x05, 0x23, 0x07));
    for (moment, wanted) in [(14, rod), (15, expired)] {
        assert!(rt; told_to(rt.alloc(), &acts, 1, moment, Asked::Redeem)? == wanted);
    }
    Ok(())
}

/// The pump writes the piece of the operation.
#[test]
fn an_operation_is_pumped(rt: HostRuntime) -> Result<(), Fail> {
    let acts = [(4, Asked::Start), (5, Asked::Pump), (5, Asked::Pump)];
    let begun = Told::Report {
        background: true,
        count: 0,
        done: false,
    };
    let done = Told::Report {
        background: true,
        count: 4,
        done: true,
    };
    assert!(rt; told_to(rt.alloc(), &acts[..1], 1, 6, Asked::Report)? == begun);
    assert!(rt; told_to(rt.alloc(), &acts, 1, 6, Asked::Report)? == done);
    Ok(())
}

/// Initiator 1 registers the key A1h, and reserves the unit for itself.
const RESERVED: [(u64, Asked); 2] = [
    (
        4,
        Asked::PrOut {
            action: 0x00,
            kind: 0,
            key: 0,
            action_key: 0xa1,
        },
    ),
    (
        5,
        Asked::PrOut {
            action: 0x01,
            kind: 3,
            key: 0xa1,
            action_key: 0,
        },
    ),
];

/// Others may not read, also where no block is; they are told the keys and the holder, and may register.
#[test]
fn a_reservation_is_looked_at_first(rt: HostRuntime) -> Result<(), Fail> {
    let register = Asked::PrOut {
        action: 0x00,
        kind: 0,
        key: 0,
        action_key: 0xb2,
    };
    let keys = Told::Keys {
        generation: 1,
        count: 1,
    };
    let holder = Holder { key: 0xa1, kind: 3 };
    let rows = [
        (Asked::Read { lba: 9, count: 4 }, Told::Conflict),
        (Asked::PrKeys, keys),
        (Asked::PrHolder, Told::Holder(holder)),
        (register, Told::Done),
    ];
    for (asked, wanted) in rows {
        assert!(rt; told_to(rt.alloc(), &RESERVED, 2, 6, asked)? == wanted);
    }
    Ok(())
}
