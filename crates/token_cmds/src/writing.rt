ghost use Rattle.std.specs.Prelude.{◌≡◌, ◌+◌, ◌*◌, ◌<◌, ◌≤◌, ◌==◌, ℕ, length, nat_lt, IfOk, IfSome, None, if◌then◌else◌};
ghost use Rattle.cm_base.specs.Configuration.{Configuration};
ghost use Rattle.cm_base.specs.Units.{is_configured};
ghost use Rattle.scsi_sense.specs.Codes.{token_unknown};
ghost use Rattle.block_params.specs.ListsRead.{write_token_read};
ghost use Rattle.block_params.specs.RangesRead.{range_fault};
ghost use Rattle.lba_ranges.specs.HeldBlocks.{HeldBlocks};
ghost use Rattle.rod_token.specs.declared.kind.TokenKind.{TokenKind};
ghost use Rattle.rod_token.specs.TokenText.{classify};
ghost use Rattle.cm_history.specs.declared.act.Act.{Act};
ghost use Rattle.cm_history.specs.declared.answer.Answer.{Answer};
ghost use Rattle.cm_history.specs.declared.answer.OpState.{OpState};
ghost use Rattle.cm_history.specs.Forms.{HasKind};
ghost use Rattle.cmd_program.specs.Meaning.{IsWritable, IsAskable, MayFollow};
ghost use Rattle.cmd_program.specs.declared.step.Outcome.{Outcome};
ghost use Rattle.cmd_program.specs.Program.{next, refused, go_on_by, ask_then};
ghost use Rattle.cmd_program.specs.TokenWrite.{wanted, deleting, advancing, started, after_redeem, starting, zero_rod, write_by, write_using_token};
ghost use Rattle.cmd_machine.specs.Last.{by_last, IsLastOf};
ghost use Rattle.cmd_machine.specs.Rest.{rest_of, IsSoundAt, last_ask};
ghost use Rattle.std.specs.Option.{option_map};
ghost use Rattle.token_cmds.specs.inner.Progress.{IsProgress};
ghost use Rattle.token_cmds.specs.Meaning.{by_phase, by_writing, IsGiven, IsSized, IsSoundPhase, IsSoundWriting};

use crate::phase::{TokenCommand, TokenPhase};
use block_params::{WriteList, read_write_token};
use cm_base::{Config, OutOfMemory, Payload};
use cm_frame::Reply;
use cm_history::{Act, Answer, OpState, PIECE_BLOCKS, RodBlocks, TokenText};
use cmd_machine::{CommandOf, Ended, LastAct, refusal};
use cmd_program::Step;
use lba_ranges::{BlockList, Fill, Piece};
use rod_token::{TokenKind, classify};
use scsi_sense::Sense;
use std::alloc::Global;
use std::marker::Model;

/// A WRITE USING TOKEN whose list was read. The list has the text of a token, so a box moves in its place.
#[derive(Drop)]
pub struct Write {
    unit: u16,
    id: u32,
    list: Box<WriteList>,
}

impl Model for Write {
    ghost use Rattle.cmd_program.specs.TokenWrite.{TokenWrite};

    ghost Value = { TokenWrite };

    ghost view = { λ w. record { unit = w.unit; id = w.id; list = w.list.value } };
}

/// How far a WRITE USING TOKEN has come.
#[derive(Drop)]
pub enum Writing {
    /// The blocks of the token are asked of the unit that made it.
    Redeeming { write: Write, creator: u16 },
    /// They were answered; those that are wanted are to be written.
    Redeemed { write: Write, rod: BlockList },
    /// Zeros are to be written.
    Zeroing { write: Write },
    /// The operation runs in the foreground, with so many Advances to come after this one.
    Advancing { write: Write, left: u64 },
    /// All was written, and the token is to be deleted where it was made.
    Deleting { creator: u16, serial: u64 },
}

/// A WRITE USING TOKEN.
pub(crate) fn begin(
    alloc: Global,
    config: &Config,
    unit: u16,
    id: u32,
    out: &Payload,
) -> Result<TokenCommand, OutOfMemory>
    requires configured { unit < length config.now.units }
    ensures program { IfOk result (λ c. rest_of by_phase config.now c
        ≡ write_using_token config.now unit id (write_token_read out.now)) }
    ensures sound { IfOk result (λ c. IsSoundAt IsSoundPhase config.now c) }
{
    match read_write_token(alloc, out.as_slice()) {
        Ok(list) => {
            let list = Box::new(alloc, list)?;
            Ok(Write { unit, id, list }.by_token(config))
        }
        Err(fault) => Ok(CommandOf::Ended(Ended::Refused(refusal(fault)?))),
    }
}

impl Write {
    /// The first phase, which the kind of the token tells.
    fn by_token(self, config: &Config) -> TokenCommand
        requires configured { self.unit < length config.now.units }
        requires ranges { range_fault self.list.ranges ≡ None }
        ensures program { rest_of by_phase config.now result ≡ write_by config.now self (classify self.list.token) }
        ensures sound { IsSoundAt IsSoundPhase config.now result }
    {
        match classify(&self.list.token) {
            TokenKind::BadLength => CommandOf::Ended(Ended::Refused(Sense::invalid_token_length())),
            TokenKind::BadType => CommandOf::Ended(Ended::Refused(Sense::unsupported_token_type())),
            TokenKind::Zero => CommandOf::At(TokenPhase::Writing(Writing::Zeroing { write: self })),
            TokenKind::Names { unit, .. } => self.by_creator(config, unit),
        }
    }

    /// The first phase of a token that names this unit.
    fn by_creator(self, config: &Config, creator: u16) -> TokenCommand
        requires configured { self.unit < length config.now.units }
        requires ranges { range_fault self.list.ranges ≡ None }
        requires named { (serial : ℕ) × (classify self.list.token ≡ TokenKind.Names creator serial) }
        ensures program { rest_of by_phase config.now result
            ≡ (if is_configured config.now creator then ask_then creator (Act.Redeem self.list.token self.unit) (after_redeem self)
            else refused token_unknown) }
        ensures sound { IsSoundAt IsSoundPhase config.now result }
    {
        if config.is_configured(creator) {
            CommandOf::At(TokenPhase::Writing(Writing::Redeeming {
                write: self,
                creator,
            }))
        } else {
            CommandOf::Ended(Ended::Refused(Sense::token_unknown()))
        }
    }

    /// How many blocks are to be written.
    fn wanted(&self) -> u64
        ensures blocks { result ≡ wanted self.now }
        ensures few { result ≤ 64 * 4_294_967_295 }
    {
        self.list.ranges.total()
    }

    /// The token has too few blocks.
    fn is_short(&self, rod: &BlockList) -> bool
        ensures { result ≡ nat_lt (length rod.now.items) (self.now.list.offset + wanted self.now) }
    {
        let blocks = rod.blocks();
        self.list.offset > blocks || self.wanted() > blocks - self.list.offset
    }

    /// Asks the unit to write these blocks.
    fn start(&self, alloc: Global, rod: BlockList) -> Result<Step, OutOfMemory>
        ensures { IfOk result (λ s. s ≡ next (starting self.now rod)) }
    {
        let ranges = self.list.ranges.copy(alloc)?;
        let rod = RodBlocks::new(alloc, rod)?;
        Ok(Step::Do {
            unit: self.unit,
            act: Act::Start {
                id: self.id,
                background: self.is_background(),
                ranges,
                rod,
            },
        })
    }

    /// Asks the unit to write those blocks of the token that are wanted, if it has them.
    fn start_part(&self, alloc: Global, rod: &BlockList) -> Result<Step, OutOfMemory>
        ensures next { IfOk result (λ s. s ≡ next (after_redeem self.now (Answer.Rod rod.now))) }
        ensures asks { (config : Configuration) → IsSized config self.now rod.now.block_length
            → IfOk result (λ s. IsAskable config s) }
    {
        if self.is_short(rod) {
            let sense = Sense::invalid_field_in_parameter_list();
            return Ok(Step::Done(Reply::Check(sense)));
        }
        let part = rod.slice(alloc, self.list.offset, self.wanted())?;
        self.start(alloc, part)
    }

    /// Asks the unit to write zeros.
    fn start_zeros(&self, alloc: Global, config: &Config) -> Result<Step, OutOfMemory>
        requires { IsGiven config.now self.now }
        ensures next { IfOk result (λ s. s ≡ next (starting self.now (zero_rod config.now self.now))) }
        ensures asks { IfOk result (λ s. IsAskable config.now s) }
    {
        let mut rod = BlockList::empty(alloc, config.unit(self.unit).block_length);
        rod.push(Piece {
            count: self.wanted() as u32,
            fill: Fill::Hole,
        })?;
        self.start(alloc, rod)
    }

    /// The phase when all was written.
    fn deleting(&self) -> TokenCommand
        ensures program { (config : Configuration) → rest_of by_phase config result ≡ deleting self.now }
        ensures sound { (config : Configuration) → IsGiven config self.now → IsSoundAt IsSoundPhase config result }
    {
        if !self.list.delete {
            return CommandOf::Ended(Ended::Good);
        }
        match classify(&self.list.token) {
            TokenKind::Names { unit, serial } => CommandOf::At(TokenPhase::Writing(
                Writing::Deleting {
                    creator: unit,
                    serial,
                },
            )),
            _ => CommandOf::Ended(Ended::Good),
        }
    }

    /// The phase of an operation that runs, when so many Advances are left.
    fn running(self, left: u64) -> TokenCommand
        ensures program { (config : Configuration) (count : ℕ) → rest_of by_phase config result
            ≡ advancing self left (Answer.Progress OpState.Running count) }
        ensures sound { (config : Configuration) → IsGiven config self → IsSoundAt IsSoundPhase config result }
    {
        if left == 0 {
            return CommandOf::Ended(Ended::Refused(Sense::copy_aborted()));
        }
        CommandOf::At(TokenPhase::Writing(Writing::Advancing {
            write: self,
            left: left - 1,
        }))
    }

    /// The phase of an operation in the foreground that was answered, when so many Advances are
    /// left.
    fn advanced(self, left: u64, answer: Answer) -> TokenCommand
        requires { IsProgress answer }
        ensures program { (config : Configuration) → rest_of by_phase config result ≡ advancing self left answer }
        ensures sound { (config : Configuration) → IsGiven config self → IsSoundAt IsSoundPhase config result }
    {
        match answer {
            Answer::Progress { state, .. } => match state {
                OpState::Done => self.deleting(),
                OpState::Failed(sense) => CommandOf::Ended(Ended::Refused(sense)),
                OpState::Terminated => CommandOf::Ended(Ended::Refused(Sense::copy_aborted())),
                OpState::Running => self.running(left),
            },
            Answer::Refused(sense) => CommandOf::Ended(Ended::Refused(sense)),
            Answer::Conflict => CommandOf::Ended(Ended::Conflict),
            _ => unreachable!(),
        }
    }

    /// The unit's pump writes the pieces.
    fn is_background(&self) -> bool
        ensures { result ≡ self.now.list.immed }
    {
        self.list.immed
    }

    /// The phase after the Start was answered.
    fn started(self, answer: Answer) -> TokenCommand
        requires { (rod : HeldBlocks) × HasKind (Act.Start self.id self.list.immed self.list.ranges rod) answer }
        ensures program { (config : Configuration) → rest_of by_phase config result
            ≡ started self self.list.immed answer }
        ensures sound { (config : Configuration) → IsGiven config self → IsSoundAt IsSoundPhase config result }
    {
        if !self.is_background() {
            let pieces = (self.wanted() + (PIECE_BLOCKS - 1)) / PIECE_BLOCKS;
            return self.advanced(pieces, answer);
        }
        match answer {
            Answer::Refused(sense) => CommandOf::Ended(Ended::Refused(sense)),
            Answer::Conflict => CommandOf::Ended(Ended::Conflict),
            _ => self.deleting(),
        }
    }

    /// The phase after the Start of a token's blocks was answered, if it has as many as are wanted.
    fn started_part(self, rod: &BlockList, answer: Answer) -> TokenCommand
        requires { (config : Configuration)
            × MayFollow config (next (after_redeem self (Answer.Rod rod.now))) (Outcome.Answered answer) }
        ensures program { (config : Configuration) → rest_of by_phase config result
            ≡ go_on_by (after_redeem self (Answer.Rod rod.now)) answer }
        ensures sound { (config : Configuration) → IsGiven config self → IsSoundAt IsSoundPhase config result }
    {
        if self.is_short(rod) {
            CommandOf::Ended(Ended::Refused(Sense::invalid_field_in_parameter_list()))
        } else {
            self.started(answer)
        }
    }
}

impl Writing {
    pub(crate) fn step(&self, alloc: Global, config: &Config) -> Result<Step, OutOfMemory>
        requires { IsSoundWriting config.now self.now }
        ensures next { IfOk result (λ s. s ≡ next (by_writing config.now self.now)) }
        ensures asks { IfOk result (λ s. IsAskable config.now s) }
        ensures fits { IfOk result IsWritable }
    {
        match self {
            Writing::Redeeming { write, creator } => Ok(Step::Do {
                unit: *creator,
                act: Act::Redeem {
                    text: TokenText::new(alloc, &write.list.token)?,
                    target: write.unit,
                },
            }),
            Writing::Redeemed { write, rod } => write.start_part(alloc, rod),
            Writing::Zeroing { write } => write.start_zeros(alloc, config),
            Writing::Advancing { write, .. } => Ok(Step::Do {
                unit: write.unit,
                act: Act::Advance { id: write.id },
            }),
            Writing::Deleting { creator, serial } => Ok(Step::Do {
                unit: *creator,
                act: Act::Delete { serial: *serial },
            }),
        }
    }

    /// The phase after an answer.
    pub(crate) fn after(self, config: &Config, answer: Answer) -> TokenCommand
        requires sound { IsSoundWriting config.now self }
        requires follows { MayFollow config.now (next (by_writing config.now self)) (Outcome.Answered answer) }
        ensures program { rest_of by_phase config.now result ≡ go_on_by (by_writing config.now self) answer }
        ensures sound { IsSoundAt IsSoundPhase config.now result }
    {
        let _ = config;
        match self {
            Writing::Redeeming { write, .. } => match answer {
                Answer::Rod(rod) => {
                    CommandOf::At(TokenPhase::Writing(Writing::Redeemed { write, rod }))
                }
                Answer::Refused(sense) => CommandOf::Ended(Ended::Refused(sense)),
                _ => unreachable!(),
            },
            Writing::Redeemed { write, rod } => write.started_part(&rod, answer),
            Writing::Zeroing { write } => write.started(answer),
            Writing::Advancing { write, left } => write.advanced(left, answer),
            Writing::Deleting { .. } => CommandOf::Ended(Ended::unless_refused(answer)),
        }
    }

    /// What is asked once more if the command gives up here.
    pub(crate) fn last(&self) -> Option<LastAct>
        ensures last { (config : Configuration) → last_ask (by_writing config self.now) ≡ option_map by_last result }
        ensures sound { (config : Configuration) → IsSoundWriting config self.now → IfSome result (IsLastOf config) }
    {
        match self {
            Writing::Advancing { write, .. } => Some(LastAct::End {
                unit: write.unit,
                id: write.id,
            }),
            _ => None,
        }
    }
}
