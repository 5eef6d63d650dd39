ghost use Rattle.std.specs.Prelude.{◌≡◌, IfOk};
ghost use Rattle.cmd_program.specs.declared.step.Outcome.{Outcome};
ghost use Rattle.cmd_program.specs.Program.{next, go_on_by};
ghost use Rattle.cmd_program.specs.Meaning.{MayFollow};
ghost use Rattle.cm_base.specs.Configuration.{Configuration};
ghost use Rattle.cmd_machine.specs.Rest.{rest_of, IsSoundAt};
ghost use Rattle.plain_cmds.specs.Meaning as plain;
ghost use Rattle.token_cmds.specs.Meaning as token;
ghost use Rattle.xcopy_exec.specs.Meaning as copy;
ghost use Rattle.any_cmds.specs.Meaning.{by_any, IsSoundAny};

use cm_base::{Config, OutOfMemory};
use cm_frame::Request;
use cm_history::Answer;
use cmd_machine::{CommandOf, LastAct, Phase};
use cmd_program::Step;
use plain_cmds::{Command, PlainPhase};
use scsi_cdb::Cdb;
use std::alloc::Global;
use std::mem;
use token_cmds::{TokenCommand, TokenPhase, is_token_command};
use xcopy_exec::{CopyCommand, CopyPhase, is_copy_command};

/// How far a command of any kind has come.
#[derive(Drop)]
pub enum AnyPhase {
    Plain(PlainPhase),
    Token(Box<TokenPhase>),
    Copy(Box<CopyPhase>),
}

/// A command of any kind.
pub type AnyCommand = CommandOf<AnyPhase>;

fn of_plain(command: Command) -> AnyCommand
    ensures program { (config : Configuration) → rest_of by_any config result ≡ rest_of plain.by_phase config command }
    ensures sound { (config : Configuration) → IsSoundAt plain.IsSoundPhase config command → IsSoundAt IsSoundAny config result }
{
    match command {
        CommandOf::At(phase) => CommandOf::At(AnyPhase::Plain(phase)),
        CommandOf::Ended(ended) => CommandOf::Ended(ended),
        CommandOf::GaveUp { last, full } => CommandOf::GaveUp { last, full },
    }
}

fn of_token(alloc: Global, command: TokenCommand) -> Result<AnyCommand, OutOfMemory>
    ensures program { (config : Configuration) → IfOk result (λ c. rest_of by_any config c ≡ rest_of token.by_phase config command) }
    ensures sound { (config : Configuration) → IsSoundAt token.IsSoundPhase config command → IfOk result (λ c. IsSoundAt IsSoundAny config c) }
{
    Ok(match command {
        CommandOf::At(phase) => CommandOf::At(AnyPhase::Token(Box::new(alloc, phase)?)),
        CommandOf::Ended(ended) => CommandOf::Ended(ended),
        CommandOf::GaveUp { last, full } => CommandOf::GaveUp { last, full },
    })
}

/// The command goes on in the box of its phase. It takes no memory.
fn token_after(mut phase: Box<TokenPhase>, config: &Config, answer: Answer) -> AnyCommand
    requires sound { token.IsSoundPhase config.now phase.value }
    requires follows { MayFollow config.now (next (token.by_phase config.now phase.value)) (Outcome.Answered answer) }
    ensures program { rest_of by_any config.now result ≡ go_on_by (token.by_phase config.now phase.value) answer }
    ensures sound { IsSoundAt IsSoundAny config.now result }
{
    let was = mem::replace(&mut *phase, TokenPhase::nothing());
    match was.after(config, answer) {
        CommandOf::At(next) => {
            *phase = next;
            CommandOf::At(AnyPhase::Token(phase))
        }
        CommandOf::Ended(ended) => CommandOf::Ended(ended),
        CommandOf::GaveUp { last, full } => CommandOf::GaveUp { last, full },
    }
}

fn of_copy(alloc: Global, command: CopyCommand) -> Result<AnyCommand, OutOfMemory>
    ensures program { (config : Configuration) → IfOk result (λ c. rest_of by_any config c ≡ rest_of copy.by_phase config command) }
    ensures sound { (config : Configuration) → IsSoundAt copy.IsSoundPhase config command → IfOk result (λ c. IsSoundAt IsSoundAny config c) }
{
    Ok(match command {
        CommandOf::At(phase) => CommandOf::At(AnyPhase::Copy(Box::new(alloc, phase)?)),
        CommandOf::Ended(ended) => CommandOf::Ended(ended),
        CommandOf::GaveUp { last, full } => CommandOf::GaveUp { last, full },
    })
}

/// The command goes on in the box of its phase. It takes no memory.
fn copy_after(mut phase: Box<CopyPhase>, config: &Config, answer: Answer) -> AnyCommand
    requires sound { copy.IsSoundPhase config.now phase.value }
    requires follows { MayFollow config.now (next (copy.by_phase config.now phase.value)) (Outcome.Answered answer) }
    ensures program { rest_of by_any config.now result ≡ go_on_by (copy.by_phase config.now phase.value) answer }
    ensures sound { IsSoundAt IsSoundAny config.now result }
{
    let was = mem::replace(&mut *phase, CopyPhase::nothing());
    match was.after(config, answer) {
        CommandOf::At(next) => {
            *phase = next;
            CommandOf::At(AnyPhase::Copy(phase))
        }
        CommandOf::Ended(ended) => CommandOf::Ended(ended),
        CommandOf::GaveUp { last, full } => CommandOf::GaveUp { last, full },
    }
}

impl Phase for AnyPhase {
    ghost use Rattle.std.specs.Prelude.{true};
    ghost use Rattle.any_cmds.specs.Meaning.{by_any, IsSoundAny};
    ghost use Rattle.any_cmds.specs.UnderWay.{any-goes-on};

    ghost kind = { λ cdb. true };

    ghost meaning = { by_any };

    ghost sound = { IsSoundAny };

    fn begin(
        alloc: Global,
        config: &Config,
        request: Request,
        cdb: Cdb,
    ) -> Result<AnyCommand, OutOfMemory> {
        if is_token_command(&cdb) {
            return of_token(alloc, TokenPhase::begin(alloc, config, request, cdb)?);
        }
        if is_copy_command(&cdb) {
            return of_copy(alloc, CopyPhase::begin(alloc, config, request, cdb)?);
        }
        Ok(of_plain(PlainPhase::begin(alloc, config, request, cdb)?))
    }

    fn step(&self, alloc: Global, config: &Config) -> Result<Step, OutOfMemory> {
        match self {
            AnyPhase::Plain(phase) => phase.step(alloc, config),
            AnyPhase::Token(phase) => phase.step(alloc, config),
            AnyPhase::Copy(phase) => phase.step(alloc, config),
        }
    }

    fn after(self, config: &Config, answer: Answer) -> AnyCommand {
        match self {
            AnyPhase::Plain(phase) => of_plain(phase.after(config, answer)),
            AnyPhase::Token(phase) => token_after(phase, config, answer),
            AnyPhase::Copy(phase) => copy_after(phase, config, answer),
        }
    }

    fn last(&self, config: &Config) -> Option<LastAct> {
        match self {
            AnyPhase::Plain(phase) => phase.last(config),
            AnyPhase::Token(phase) => phase.last(config),
            AnyPhase::Copy(phase) => phase.last(config),
        }
    }

    ghost goes_on = { any-goes-on };
}
