ghost use Rattle.std.specs.Prelude.{◌≡◌, ◌++◌, ◌<◌, ◌≤◌, ℕ, length, true, IfOk, OnOk};
ghost use Rattle.cm_base.specs.Configuration.{Configuration};
ghost use Rattle.cm_history.specs.Limits.{within_limits};
ghost use Rattle.cmd_program.specs.Meaning.{IsOfLength, IsOutcomeOf};
ghost use Rattle.cmd_program.specs.Judging.{step};
ghost use Rattle.cmd_machine.specs.Rest.{StandsFor, IsSoundAt};
ghost use Rattle.any_cmds.specs.Meaning.{by_any, IsSoundAny};
ghost use Rattle.trace_replay.specs.ReplayState.{Pending, ReplayState, Nowhere, at_first, entries_after, outcome_of, gone_on, after_item, item_fits};
ghost use Rattle.trace_replay.specs.Played.{addressed_bytes};
ghost use Rattle.trace_check.specs.inner.Machines.{IsStanding, StandsBeside, Stands};

use any_cmds::{AnyCommand, begin_any};
use cm_base::{Config, OutOfMemory};
use cm_frame::{Reply, Request, TraceItem, write_reply};
use cm_history::{Act, Actor};
use cmd_program::{Outcome, Step};
use plain_model::PlainUnits;
use std::alloc::Global;
use std::collections::BTreeMap;

/// A command that waits to be run, with the act that it asks for.
#[derive(Drop)]
pub(crate) struct Waiting {
    command: AnyCommand,
    unit: u16,
    act: Act,
}

/// The units and the initiators of a trace, and the bytes of all replies so far.
#[derive(Drop)]
pub(crate) struct Machine {
    alloc: Global,
    units: PlainUnits,
    waiting: BTreeMap<u32, Waiting>,
    replies: Vec<u8>,
}

/// Does an act of an actor behind all others, where the unit's record has room for it, and tells what came of it.
fn ask(
    alloc: Global,
    units: &mut PlainUnits,
    unit: u16,
    actor: Actor,
    moment: u64,
    act: Act,
) -> Result<Outcome, OutOfMemory>
    requires configured { unit < length units.old.config.units }
    requires limits { within_limits units.old.config unit act ≡ true }
    ensures config { units.new.config ≡ units.old.config }
    ensures outcome { IfOk result (λ o. o ≡ outcome_of units.old.config units.old.entries actor unit moment act) }
    ensures follows { IfOk result (λ o. IsOutcomeOf units.old.config unit act o) }
    ensures entries { OnOk result (units.new.entries ≡ entries_after units.old.config units.old.entries actor unit moment act) }
{
    if units.is_full(unit, actor, &act) {
        return Ok(Outcome::Full);
    }
    let answer = units.answer(alloc, unit, actor, moment, &act)?;
    units.add(alloc, unit, actor, moment, act)?;
    Ok(Outcome::Answered(answer))
}

/// Writes a reply for an initiator.
fn write(
    alloc: Global,
    replies: &mut Vec<u8>,
    initiator: u32,
    reply: &Reply,
) -> Result<(), OutOfMemory>
    requires { IsOfLength reply.now }
    ensures { OnOk result (replies.new.items ≡ replies.old.items ++ addressed_bytes (record { initiator = initiator; reply = reply.now })) }
{
    let bytes = write_reply(alloc, reply)?;
    replies.extend_from_slice(&initiator.to_be_bytes())?;
    replies.extend_from_slice(bytes.as_slice())?;
    Ok(())
}

impl Machine {
    pub(crate) fn new(alloc: Global, config: Config) -> Result<Machine, OutOfMemory>
        ensures { IfOk result (IsStanding config at_first) }
    {
        Ok(Machine {
            alloc,
            units: PlainUnits::new(alloc, config)?,
            waiting: BTreeMap::new(alloc),
            replies: Vec::new(alloc),
        })
    }

    /// The bytes of all replies.
    pub(crate) fn into_replies(self) -> Vec<u8>
        ensures { result ≡ self.replies }
    {
        self.replies
    }

    /// Lets a command go on: it is answered, or it waits.
    fn go_on(&mut self, initiator: u32, command: AnyCommand) -> Result<(), OutOfMemory>
        requires { IsSoundAt IsSoundAny self.old.units.config command }
        ensures { (config : Configuration) (s : ReplayState) (p : Pending) → p.initiator ≡ initiator
            → StandsBeside config initiator s self.old
            → StandsFor by_any config command p.initiator p.request p.outcomes
            → OnOk result (IsStanding config (gone_on step config s p) self.new) }
    {
        match command.step(self.alloc, self.units.config())? {
            Step::Done(reply) => write(self.alloc, &mut self.replies, initiator, &reply),
            Step::Do { unit, act } => {
                let waiting = Waiting { command, unit, act };
                self.waiting.insert(initiator, waiting)?;
                Ok(())
            }
        }
    }

    /// Begins a command. Whether it may begin here.
    fn begin(&mut self, initiator: u32, request: Request) -> Result<bool, OutOfMemory>
        requires { Stands self.old }
        ensures { (config : Configuration) (s : ReplayState) (moment : ℕ) → IsStanding config s self.old
            → IfOk result (λ fit. (fit ≡ item_fits config s (TraceItem.Begin initiator moment request))
            × (fit ≡ true → IsStanding config (after_item step config s (TraceItem.Begin initiator moment request) Nowhere) self.new)) }
    {
        if self.waiting.contains_key(&initiator) {
            return Ok(false);
        }
        let command = begin_any(self.alloc, self.units.config(), initiator, request)?;
        self.go_on(initiator, command)?;
        Ok(true)
    }

    /// Does the act of the command that waits, and lets it go on. Whether one waits.
    fn run(&mut self, initiator: u32, moment: u64) -> Result<bool, OutOfMemory>
        requires { Stands self.old }
        ensures { (config : Configuration) (s : ReplayState) → IsStanding config s self.old
            → IfOk result (λ fit. (fit ≡ item_fits config s (TraceItem.Run initiator moment))
            × (fit ≡ true → IsStanding config (after_item step config s (TraceItem.Run initiator moment) Nowhere) self.new)) }
    {
        let Some(waiting) = self.waiting.remove(&initiator) else {
            return Ok(false);
        };
        let Waiting {
            mut command,
            unit,
            act,
        } = waiting;
        let actor = Actor::Nexus(initiator);
        let outcome = ask(self.alloc, &mut self.units, unit, actor, moment, act)?;
        command.note(self.units.config(), outcome);
        self.go_on(initiator, command)?;
        Ok(true)
    }

    /// Lets the pump of a unit work once, where its record has room. Whether the unit is there.
    fn pump(&mut self, unit: u16, moment: u64) -> Result<bool, OutOfMemory>
        ensures { (config : Configuration) (s : ReplayState) → IsStanding config s self.old
            → IfOk result (λ fit. (fit ≡ item_fits config s (TraceItem.Pump unit moment))
            × (fit ≡ true → IsStanding config (after_item step config s (TraceItem.Pump unit moment) Nowhere) self.new)) }
    {
        if !self.units.config().is_configured(unit) {
            return Ok(false);
        }
        let actor = Actor::Pump(unit);
        let _ = ask(self.alloc, &mut self.units, unit, actor, moment, Act::Pump)?;
        Ok(true)
    }

    /// Plays an item. Whether it may stand here. `OutOfMemory` leaves the machine of no use.
    pub(crate) fn play(&mut self, item: TraceItem) -> Result<bool, OutOfMemory>
        requires { Stands self.old }
        ensures { (config : Configuration) (s : ReplayState) → IsStanding config s self.old
            → IfOk result (λ fit. (fit ≡ item_fits config s item)
            × (fit ≡ true → IsStanding config (after_item step config s item Nowhere) self.new)) }
    {
        match item {
            TraceItem::Begin {
                initiator,
                moment: _,
                request,
            } => self.begin(initiator, request),
            TraceItem::Run { initiator, moment } => self.run(initiator, moment),
            TraceItem::Pump { unit, moment } => self.pump(unit, moment),
        }
    }
}
