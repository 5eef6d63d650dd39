ghost use Rattle.std.specs.Prelude.{◌≡◌, ◌||◌, None, is_some, List, IfOk, Bool, true, false};
ghost use Rattle.cm_base.specs.Configuration.{Configuration};
ghost use Rattle.cm_history.specs.declared.act.Actor.{Actor};
ghost use Rattle.cm_history.specs.declared.act.Entry.{Entry};
ghost use Rattle.cmd_program.specs.Meaning.{IsAskable, IsWritable};
ghost use Rattle.cmd_program.specs.Stepping.{gives_up, gave_up};
ghost use Rattle.cmd_machine.specs.Rest.{IsSoundAt};
ghost use Rattle.any_cmds.specs.Meaning.{IsSoundAny};
ghost use Rattle.trace_replay.specs.ReplayState.{Pending, Shortage, seq, noted, noted_at_step};
ghost use Rattle.trace_replay.specs.inner.Machines.{HaveCounted, IsCommandOf, IsCommand, IsWaiting, IsNext, WentOn, HasBegun, MayAct, HasActed, MayRun, HasRun, shortage_of};

use crate::units::Units;
use any_cmds::{AnyCommand, begin_any};
use cm_base::{Config, OutOfMemory};
use cm_frame::{Reply, Request};
use cm_history::{Act, ActRefused};
use cmd_program::{Outcome, Step};
use std::alloc::Global;

/// A command that waits to be run, with the act that it asks for.
#[derive(Drop)]
pub(crate) struct Waiting {
    command: AnyCommand,
    unit: u16,
    act: Act,
    gave_up: bool,
}

/// What is kept of an initiator: how many entries it made, and its command that waits.
#[derive(Drop)]
pub(crate) struct Nexus {
    seq: u64,
    waiting: Option<Waiting>,
}

/// Whether a command has given up, after one more outcome.
fn has_given_up(given_up: bool, outcome: &Outcome) -> bool
    ensures { result ≡ (given_up || gives_up outcome.now) }
{
    match outcome {
        Outcome::Answered(_) => given_up,
        Outcome::Full | Outcome::NoMemory => true,
    }
}

/// The next step of a command, and whether it has given up. It gives up where memory is wanted for
/// the step, which is then another one.
fn next_step(
    alloc: Global,
    config: &Config,
    command: &mut AnyCommand,
    given_up: bool,
) -> (Step, bool)
    requires sound { IsSoundAt IsSoundAny config.now command.old }
    requires stands { IsCommand config.now command.old given_up }
    ensures sound { IsSoundAt IsSoundAny config.now command.new }
    ensures next { (p : Pending) → IsCommandOf config.now command.old given_up p
        → IsNext config.now command.new p result.0 result.1 }
    ensures asks { IsAskable config.now result.0 }
    ensures fits { IsWritable result.0 }
{
    match command.step(alloc, config) {
        Ok(step) => (step, given_up),
        Err(OutOfMemory) => {
            command.note(config, Outcome::NoMemory);
            (command.step(alloc, config).unwrap(), true)
        }
    }
}

impl Nexus {
    /// An initiator that has done nothing yet.
    pub(crate) fn idle() -> Nexus
        ensures { result ≡ record { seq = 0; waiting = None } }
    {
        Nexus {
            seq: 0,
            waiting: None,
        }
    }

    pub(crate) fn waits(&self) -> bool
        ensures { result ≡ is_some self.now.waiting }
    {
        self.waiting.is_some()
    }

    /// The command that waits, which then waits no more.
    pub(crate) fn take_waiting(&mut self) -> Option<Waiting>
        ensures taken { result ≡ self.old.waiting }
        ensures after { self.new ≡ record self.old { waiting = None } }
    {
        self.waiting.take()
    }

    /// Lets the command go on: it is answered, or it waits.
    fn go_on(
        &mut self,
        alloc: Global,
        config: &Config,
        mut command: AnyCommand,
        given_up: bool,
    ) -> Option<Reply>
        requires sound { IsSoundAt IsSoundAny config.now command }
        requires stands { IsCommand config.now command given_up }
        ensures seq { self.new.seq ≡ self.old.seq }
        ensures went { (p : Pending) → IsCommandOf config.now command given_up p
            → (wanted : Bool) × (gave_up p.outcomes ≡ true → wanted ≡ false)
            × WentOn config.now (noted p (noted_at_step (shortage_of wanted))) self.new.waiting result }
    {
        let (step, gave_up) = next_step(alloc, config, &mut command, given_up);
        match step {
            Step::Done(reply) => {
                self.waiting = None;
                Some(reply)
            }
            Step::Do { unit, act } => {
                self.waiting = Some(Waiting {
                    command,
                    unit,
                    act,
                    gave_up,
                });
                None
            }
        }
    }

    /// Begins a command. Where memory is wanted for it, it is answered BUSY.
    pub(crate) fn begin(
        &mut self,
        alloc: Global,
        config: &Config,
        initiator: u32,
        request: Request,
    ) -> Option<Reply>
        requires { self.old.waiting ≡ None }
        ensures seq { self.new.seq ≡ self.old.seq }
        ensures begun { (shortage : Shortage) × HasBegun config.now initiator request shortage self.new.waiting result }
    {
        match begin_any(alloc, config, initiator, request) {
            Ok(command) => self.go_on(alloc, config, command, false),
            Err(OutOfMemory) => Some(Reply::Busy),
        }
    }

    /// Does the act that a command asks for. Where memory is wanted for it, that is its outcome,
    /// unless the command gave up before.
    fn do_act(
        &mut self,
        units: &mut Units,
        initiator: u32,
        moment: u64,
        unit: u16,
        act: Act,
        given_up: bool,
    ) -> Result<Outcome, OutOfMemory>
        requires { MayAct units.old self.old.seq unit initiator act }
        ensures { (config : Configuration) (entries : List Entry) → HaveCounted config entries units.old
            → self.old.seq ≡ seq (Actor.Nexus initiator) entries
            → IfOk result (HasActed config entries initiator unit moment act given_up units.new self.new.seq) }
    {
        match units.act(unit, initiator, self.seq, moment, act) {
            Ok(answer) => {
                self.seq += 1;
                Ok(Outcome::Answered(answer))
            }
            Err(ActRefused::Full) => Ok(Outcome::Full),
            Err(ActRefused::OutOfMemory) if given_up => Err(OutOfMemory),
            Err(ActRefused::OutOfMemory) => Ok(Outcome::NoMemory),
        }
    }

    /// Does the act that the command asks for, and lets it go on.
    pub(crate) fn run(
        &mut self,
        alloc: Global,
        config: &Config,
        units: &mut Units,
        initiator: u32,
        moment: u64,
        waiting: Waiting,
    ) -> Result<Option<Reply>, OutOfMemory>
        requires { MayRun config.now units.old self.old.seq initiator waiting }
        ensures { (entries : List Entry) (p : Pending) → IsWaiting config.now waiting p → p.initiator ≡ initiator
            → HaveCounted config.now entries units.old → self.old.seq ≡ seq (Actor.Nexus initiator) entries
            → IfOk result (HasRun config.now entries p waiting.unit moment waiting.act units.new self.new) }
    {
        let Waiting {
            mut command,
            unit,
            act,
            gave_up,
        } = waiting;
        let outcome = self.do_act(units, initiator, moment, unit, act, gave_up)?;
        let given_up = has_given_up(gave_up, &outcome);
        command.note(config, outcome);
        Ok(self.go_on(alloc, config, command, given_up))
    }
}
