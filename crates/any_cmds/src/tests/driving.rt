// The steps of a command, by outcomes that its acts can have.
ghost use Rattle.std.specs.Prelude.{◌≡◌, ℕ, List, true};
ghost use Rattle.cm_base.specs.Configuration.{Configuration};
ghost use Rattle.cm_history.specs.Forms.{HasForm, AreBlocksOf, IsRod, IsReport};
ghost use Rattle.cm_frame.specs.declared.frame.Request.{Request};
ghost use Rattle.cmd_program.specs.declared.step.Outcome.{Outcome};
ghost use Rattle.cmd_program.specs.Meaning.{MayFollow};
ghost use Rattle.cmd_machine.specs.Rest.{IsSoundAt, StandsFor};
ghost use Rattle.any_cmds.specs.Meaning.{IsSoundAny, by_any};

use crate::{AnyCommand, begin_any};
use cm_base::Config;
use cm_frame::Request;
use cm_history::{Act, Answer, OpReport, OpState};
use cmd_program::{Outcome, Step};
use lba_ranges::BlockList;
use std::alloc::Global;
use std::test::Fail;

/// The blocks may be what a Read or a Capture is answered.
fn are_read(config: &Config, unit: u16, count: u32, list: &BlockList) -> bool
    ensures { result ≡ true → AreBlocksOf config.now unit count list.now }
{
    config.is_configured(unit)
        && config.unit(unit).block_length == list.block_length()
        && list.blocks() == u64::from(count)
}

/// The blocks may be what a token of a unit is redeemed for.
fn is_rod(config: &Config, unit: u16, target: u16, rod: &BlockList) -> bool
    ensures { result ≡ true → IsRod config.now unit target rod.now }
{
    config.is_configured(unit)
        && config.unit(unit).block_length == rod.block_length()
        && config.is_configured(target)
        && config.unit(target).block_length == rod.block_length()
        && rod.blocks() <= 1_048_576
}

/// The report is one of an operation that made a token.
fn is_made(report: &OpReport) -> bool
    ensures { result ≡ true → IsReport report.now }
{
    report.populate
        && report.count <= 1_048_576
        && matches!(report.state, OpState::Done)
        && matches!(report.serial, Some(serial) if serial < 1 << 48)
}

/// The act may be answered in this way, which says nothing more than its kind.
fn has_kind(act: &Act, answer: &Answer) -> bool
    ensures { result ≡ true → (config : Configuration) (unit : ℕ) → HasForm config unit act.now answer.now }
{
    match (act, answer) {
        (Act::Pump | Act::Delete { .. } | Act::PrKeys | Act::PrHolder, Answer::Refused(_)) => false,
        (_, Answer::Refused(_)) => true,
        (
            Act::Read { .. }
            | Act::Capture { .. }
            | Act::MapStatus { .. }
            | Act::Populate { .. }
            | Act::Write { .. }
            | Act::Unmap { .. }
            | Act::Start { .. }
            | Act::Put { .. }
            | Act::PrOut { .. },
            Answer::Conflict,
        ) => true,
        (
            Act::Write { .. }
            | Act::Put { .. }
            | Act::Unmap { .. }
            | Act::Delete { .. }
            | Act::Abort { .. }
            | Act::Open { .. }
            | Act::Close { .. }
            | Act::PrOut { .. },
            Answer::Done,
        ) => true,
        (Act::Populate { .. }, Answer::Made { .. }) => true,
        (Act::Start { .. } | Act::Advance { .. } | Act::End { .. }, Answer::Progress { .. }) =>
            true,
        (Act::Recall { .. }, Answer::Copy(_)) => true,
        (Act::PrHolder, Answer::Holder { .. }) => true,
        _ => false,
    }
}

/// The answer has the form of those to the act.
fn has_form(config: &Config, unit: u16, act: &Act, answer: &Answer) -> bool
    ensures { result ≡ true → HasForm config.now unit act.now answer.now }
{
    match (act, answer) {
        (Act::Read { count, .. } | Act::Capture { count, .. }, Answer::Blocks(list)) => {
            are_read(config, unit, *count, list)
        }
        (Act::MapStatus { .. }, Answer::Status(runs)) => runs.len() <= 64,
        (Act::Redeem { target, .. }, Answer::Rod(rod)) => is_rod(config, unit, *target, rod),
        (Act::Report { .. }, Answer::Report(report)) => is_made(report),
        (Act::PrKeys, Answer::Keys { keys, .. }) => keys.len() <= 64,
        _ => has_kind(act, answer),
    }
}

/// The outcome may come of what the step asks.
fn may_follow(config: &Config, step: &Step, outcome: &Outcome) -> bool
    ensures { result ≡ true → MayFollow config.now step.now outcome.now }
{
    match (step, outcome) {
        (Step::Do { unit, act }, Outcome::Answered(answer)) => has_form(config, *unit, act, answer),
        _ => true,
    }
}

/// The next step of a command, which then notes what came of it.
fn drive(
    alloc: Global,
    config: &Config,
    command: &mut AnyCommand,
    outcome: Outcome,
) -> Result<Step, Fail>
    requires sound { IsSoundAt IsSoundAny config.now command.old }
    requires stands { (nexus : ℕ) × (request : Request) × (outcomes : List Outcome)
        × StandsFor by_any config.now command.old nexus request outcomes }
    ensures sound { IsSoundAt IsSoundAny config.now command.new }
    ensures stands { (nexus : ℕ) × (request : Request) × (outcomes : List Outcome)
        × StandsFor by_any config.now command.new nexus request outcomes }
{
    let step = command.step(alloc, config)?;
    if !may_follow(config, &step, &outcome) {
        return Err(Fail::new("no outcome of the act"));
    }
    command.note(config, outcome);
    Ok(step)
}

/// The next steps of a command, of which that came, and the step behind them.
fn go_on(
    alloc: Global,
    config: &Config,
    command: &mut AnyCommand,
    outcomes: Vec<Outcome>,
    steps: &mut Vec<Step>,
) -> Result<(), Fail>
    requires sound { IsSoundAt IsSoundAny config.now command.old }
    requires stands { (nexus : ℕ) × (request : Request) × (outcomes : List Outcome)
        × StandsFor by_any config.now command.old nexus request outcomes }
{
    for outcome in outcomes {
        steps.push(drive(alloc, config, command, outcome)?)?;
    }
    steps.push(command.step(alloc, config)?)?;
    Ok(())
}

/// The steps of the command of a request, of which that came, and the step behind them.
pub(super) fn steps(
    alloc: Global,
    config: &Config,
    request: Request,
    outcomes: Vec<Outcome>,
) -> Result<Vec<Step>, Fail> {
    let mut command = begin_any(alloc, config, 7, request)?;
    let mut steps = Vec::new(alloc);
    go_on(alloc, config, &mut command, outcomes, &mut steps)?;
    Ok(steps)
}
