ghost use Rattle.std.specs.Prelude.{◌≡◌, ℕ, List, []};
ghost use Rattle.cm_frame.specs.declared.frame.Request.{Request};
ghost use Rattle.cmd_program.specs.Meaning.{IsAskable, IsWritable, IsOfLength};
ghost use Rattle.cmd_program.specs.Judging.{program, program_after};
ghost use Rattle.cmd_program.specs.Running.{Call, outcome_of};
ghost use Rattle.cmd_program.specs.Exchanges.{Event, outcomes_of};
ghost use Rattle.cmd_program.specs.Short.{IsShort, acts_limit};
ghost use Rattle.cmd_machine.specs.Rest.{StandsFor, IsSoundAt};
ghost use Rattle.any_cmds.specs.Meaning.{by_any, IsSoundAny};
ghost use Rattle.session.specs.inner.Talking.{IsGoing, Goes, HasNext, HasReplied};

use any_cmds::{AnyCommand, begin_any};
use cm_base::{Clock, Config, OutOfMemory};
use cm_frame::{Reply, Request};
use cm_history::{ActRefused, Answer};
use cmd_program::{Outcome, Runs, Step, busy_at_once_law};
use std::alloc::Global;

/// Acts that one command may ask for.
const ACTS: u32 = 1154;

/// What came of an act.
fn noted(found: Result<Answer, ActRefused>) -> Outcome
    ensures { result ≡ outcome_of found }
{
    match found {
        Ok(answer) => Outcome::Answered(answer),
        Err(ActRefused::Full) => Outcome::Full,
        Err(ActRefused::OutOfMemory) => Outcome::NoMemory,
    }
}

/// The next step of a command. It gives up where memory is wanted for the step, which is then another
/// one.
fn next_step(alloc: Global, config: &Config, command: &mut AnyCommand) -> Step
    requires sound { IsSoundAt IsSoundAny config.now command.old }
    requires goes { (nexus : ℕ) × (left : ℕ) × Goes config.now nexus command.old left }
    ensures sound { IsSoundAt IsSoundAny config.now command.new }
    ensures next { (nexus : ℕ) (request : Request) (events : List Event) (left : ℕ)
        → IsGoing config.now nexus request command.old events
        → IsShort (program_after config.now request (outcomes_of events)) left
        → HasNext config.now nexus request command.new events left result }
    ensures asks { IsAskable config.now result }
    ensures fits { IsWritable result }
{
    match command.step(alloc, config) {
        Ok(step) => step,
        Err(OutOfMemory) => {
            command.note(config, Outcome::NoMemory);
            command.step(alloc, config).unwrap()
        }
    }
}

/// Runs a command to its reply.
fn run<R: Runs, C: Clock>(
    alloc: Global,
    config: &Config,
    mut command: AnyCommand,
    actor: &mut R,
    clock: &C,
) -> Reply
    requires sound { IsSoundAt IsSoundAny config.now command }
    requires config { R.config actor.old ≡ config.now }
    requires goes { Goes config.now (R.number actor.old) command acts_limit }
    ensures replied { (request : Request) (calls : List Call)
        → StandsFor by_any config.now command (R.number actor.old) request []
        → IsShort (program config.now request) acts_limit
        → R.StandsFor actor.old calls
        → HasReplied config.now (R.number actor.old) request (C.shows clock.now) (R.StandsFor actor.new) calls result }
    ensures unsettled { R.unsettled actor.new ≡ R.unsettled actor.old }
    ensures config { R.config actor.new ≡ R.config actor.old }
    ensures number { R.number actor.new ≡ R.number actor.old }
    ensures fits { IsOfLength result }
{
    let mut left = ACTS;
    'acts: loop {
        match next_step(alloc, config, &mut command) {
            Step::Done(reply) => return reply,
            Step::Do { unit, act } => {
                left -= 1;
                let found = actor.run(unit, clock.now(), act);
                command.note(config, noted(found));
            }
        }
    }
}

/// The reply to a request: its command is begun and run. Where memory is wanted for it, it is BUSY.
pub(crate) fn answer<R: Runs, C: Clock>(
    alloc: Global,
    config: &Config,
    request: Request,
    actor: &mut R,
    clock: &C,
) -> Reply
    requires config { R.config actor.old ≡ config.now }
    requires short { IsShort (program config.now request) acts_limit }
    ensures replied { (calls : List Call) → R.StandsFor actor.old calls
        → HasReplied config.now (R.number actor.old) request (C.shows clock.now) (R.StandsFor actor.new) calls result }
    ensures unsettled { R.unsettled actor.new ≡ R.unsettled actor.old }
    ensures config { R.config actor.new ≡ R.config actor.old }
    ensures number { R.number actor.new ≡ R.number actor.old }
    ensures fits { IsOfLength result }
{
    match begin_any(alloc, config, actor.nexus(), request) {
        Ok(command) => run(alloc, config, command, actor, clock),
        Err(OutOfMemory) => {
            busy_at_once_law();
            Reply::Busy
        }
    }
}
