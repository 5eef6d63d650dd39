ghost use Rattle.std.specs.Prelude.{◌≡◌, ◌++◌, ◌∷◌, [], ℕ, List, IfOk, IfSome, IsOk, true};
ghost use Rattle.cm_base.specs.Configuration.{Configuration};
ghost use Rattle.cm_frame.specs.declared.frame.Request.{Request};
ghost use Rattle.cmd_program.specs.declared.step.Outcome.{Outcome};
ghost use Rattle.cmd_program.specs.Stepping.{gave_up};
ghost use Rattle.cmd_program.specs.Judging.{program, step};
ghost use Rattle.cmd_program.specs.Program.{GivesUp, next, moved, give_up, refused};
ghost use Rattle.cmd_program.specs.Meaning.{IsAskable, IsWritable, MayFollow, reply_of};
ghost use Rattle.std.specs.Option.{option_map};
ghost use Rattle.cmd_machine.specs.Last.{by_last, IsLastOf};
ghost use Rattle.cmd_machine.specs.Rest.{rest_of, IsSoundAt, StandsFor, IsNotable};
ghost use Rattle.cmd_machine.specs.Judged.{IsJudged};

use crate::ended::Ended;
use crate::last::LastAct;
use crate::phase::Phase;
use cm_base::{Config, OutOfMemory};
use cm_frame::{Reply, Request};
use cmd_program::{Outcome, Step};
use scsi_cdb::Cdb;
use scsi_sense::Sense;
use std::alloc::Global;
use std::mem;

/// A command, as a program of acts.
#[derive(Drop)]
pub enum CommandOf<P> {
    /// It asks for an act, or tells what it was answered.
    At(P),
    Ended(Ended),
    /// It gave up, and asks a last time if there is what to ask.
    GaveUp { last: Option<LastAct>, full: bool },
}

/// The reply of a command that gave up.
fn given_up_reply(full: bool) -> Reply
    ensures { result ≡ reply_of full }
{
    if full { Reply::Full } else { Reply::Busy }
}

/// What a command that gave up does: it asks a last time if there is what to ask, and else it ends.
fn last_step(last: Option<LastAct>, full: bool) -> Step
    ensures next { result ≡ next (GivesUp (option_map by_last last) (reply_of full)) }
    ensures asks { (config : Configuration) → IfSome last (IsLastOf config) → IsAskable config result }
    ensures fits { IsWritable result }
{
    match last {
        Some(last) => last.step(),
        None => Step::Done(given_up_reply(full)),
    }
}

impl<P: Phase> CommandOf<P> {
    /// The command of a request that was refused.
    pub fn refused(sense: Sense) -> CommandOf<P>
        ensures stands { (config : Configuration) (nexus : ℕ) (request : Request) → program config request ≡ refused sense
            → StandsFor P.meaning config result nexus request [] }
        ensures sound { (config : Configuration) → IsSoundAt P.sound config result }
    {
        CommandOf::Ended(Ended::Refused(sense))
    }

    /// The command of a request that was judged, and is of this kind.
    pub fn begin(
        alloc: Global,
        config: &Config,
        nexus: u32,
        request: Request,
        cdb: Cdb,
    ) -> Result<CommandOf<P>, OutOfMemory>
        requires judged { IsJudged config.now request cdb }
        requires asked { P.kind cdb ≡ true }
        ensures stands { IfOk result (λ c. StandsFor P.meaning config.now c nexus request []) }
        ensures sound { IfOk result (λ c. IsSoundAt P.sound config.now c) }
    {
        let _nexus = nexus;
        P::begin(alloc, config, request, cdb)
    }

    /// What the command does next. After an outcome at which it gave up it takes no memory.
    pub fn step(&self, alloc: Global, config: &Config) -> Result<Step, OutOfMemory>
        requires { IsSoundAt P.sound config.now self.now }
        ensures next { (nexus : ℕ) (request : Request) (outcomes : List Outcome)
            → StandsFor P.meaning config.now self.now nexus request outcomes
            → IfOk result (λ s. s ≡ step config.now nexus request outcomes) }
        ensures asks { IfOk result (λ s. IsAskable config.now s) }
        ensures fits { IfOk result IsWritable }
        ensures free { (nexus : ℕ) (request : Request) (outcomes : List Outcome)
            → StandsFor P.meaning config.now self.now nexus request outcomes
            → gave_up outcomes ≡ true → IsOk result }
    {
        match self {
            CommandOf::At(phase) => phase.step(alloc, config),
            CommandOf::Ended(ended) => Ok(ended.step()),
            CommandOf::GaveUp { last, full } => Ok(last_step(*last, *full)),
        }
    }

    /// Notes what came of the act that the command asked for. It takes no memory.
    pub fn note(&mut self, config: &Config, outcome: Outcome)
        requires sound { IsSoundAt P.sound config.now self.old }
        requires notable { IsNotable P.meaning config.now self.old outcome }
        ensures sound { IsSoundAt P.sound config.now self.new }
        ensures stands { (nexus : ℕ) (request : Request) (outcomes : List Outcome)
            → StandsFor P.meaning config.now self.old nexus request outcomes
            → StandsFor P.meaning config.now self.new nexus request (outcomes ++ outcome ∷ []) }
    {
        let command = mem::replace(self, CommandOf::Ended(Ended::Good));
        *self = command.noted(config, outcome);
    }

    /// The command after an outcome.
    fn noted(self, config: &Config, outcome: Outcome) -> CommandOf<P>
        requires sound { IsSoundAt P.sound config.now self }
        requires follows { MayFollow config.now (next (rest_of P.meaning config.now self)) outcome }
        ensures program { rest_of P.meaning config.now result ≡ moved (rest_of P.meaning config.now self) outcome }
        ensures sound { IsSoundAt P.sound config.now result }
    {
        match outcome {
            Outcome::Answered(answer) => match self {
                CommandOf::At(phase) => phase.after(config, answer),
                CommandOf::GaveUp { last: _, full } => CommandOf::GaveUp { last: None, full },
                CommandOf::Ended(ended) => CommandOf::Ended(ended),
            },
            Outcome::Full => self.given_up(config, true),
            Outcome::NoMemory => self.given_up(config, false),
        }
    }

    /// The command after an outcome at which it gives up; the first such counts.
    fn given_up(self, config: &Config, full: bool) -> CommandOf<P>
        requires { IsSoundAt P.sound config.now self }
        ensures program { rest_of P.meaning config.now result
            ≡ give_up (rest_of P.meaning config.now self) (reply_of full) }
        ensures sound { IsSoundAt P.sound config.now result }
    {
        match self {
            CommandOf::At(phase) => CommandOf::GaveUp {
                last: phase.last(config),
                full,
            },
            CommandOf::GaveUp { full: first, .. } => CommandOf::GaveUp {
                last: None,
                full: first,
            },
            CommandOf::Ended(_) => CommandOf::GaveUp { last: None, full },
        }
    }
}
