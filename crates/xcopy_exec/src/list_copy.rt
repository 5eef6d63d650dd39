ghost use Rattle.std.specs.Prelude.{◌≡◌, ◌<◌, ◌≤◌, ◌==◌, length, not, slice_get, Some, IfSome};
ghost use Rattle.cm_base.specs.Configuration.{Configuration};
ghost use Rattle.scsi_sense.specs.SenseCode.{SenseCode};
ghost use Rattle.seg_parse.specs.declared.list.Segment.{Segment};
ghost use Rattle.cm_history.specs.Forms.{AreBlocksOf};
ghost use Rattle.cm_history.specs.declared.answer.Answer.{Answer};
ghost use Rattle.cmd_program.specs.Program.{go_on_by};
ghost use Rattle.cmd_program.specs.ExtendedCopy.{closing, captured, left_of};
ghost use Rattle.xcopy_exec.specs.declared.stage.Stage.{Stage};
ghost use Rattle.std.specs.Option.{option_map};
ghost use Rattle.cmd_machine.specs.Last.{by_last, IsLastOf};
ghost use Rattle.cmd_machine.specs.Rest.{rest_of, IsSoundAt};
ghost use Rattle.xcopy_exec.specs.Meaning.{by_phase, by_stage, given, tally, move, ahead, later, IsAhead, IsWithin, IsPutting, IsSoundPhase, move_bytes};

use crate::open_record::{Counted, OpenRecord};
use crate::phase::{CopyCommand, CopyPhase};
use crate::pieces::Pieces;
use crate::stage::{Stage, copy_ended};
use cm_history::{Answer, PIECE_BLOCKS};
use cmd_machine::{CommandOf, Ended, LastAct};
use lba_ranges::BlockList;
use pr_keys::Refusal;
use seg_parse::{CopyList, Segment};

/// LIST ID USAGE of a copy of which no record is kept.
const NO_RECORD: u8 = 3;

/// The copy of a list that was read, of which so much was done.
#[derive(Drop)]
pub struct ListCopy {
    pub(crate) unit: u16,
    pub(crate) list: CopyList,
    pub(crate) counted: Counted,
}

impl ListCopy {
    /// A record of the copy is kept.
    pub(crate) fn is_recorded(&self) -> bool
        ensures { result ≡ not (self.now.list.usage == 3) }
    {
        self.list.usage != NO_RECORD
    }

    /// The copy's record, if one is kept.
    fn record(&self) -> OpenRecord
        ensures { result ≡ record { unit = self.now.unit; id = self.now.list.id; counted = self.now.counted } }
    {
        OpenRecord {
            unit: self.unit,
            id: self.list.id,
            counted: self.counted,
        }
    }

    /// The phase after the segments, which a refusal may have ended. It takes no memory.
    pub(crate) fn ended(self, ended_by: Option<Refusal>) -> CopyCommand
        ensures program { (config : Configuration) → rest_of by_phase config result ≡ closing (given self) (tally self.counted) ended_by }
        ensures sound { (config : Configuration) → self.unit < length config.units → IsSoundAt IsSoundPhase config result }
    {
        if self.is_recorded() {
            CommandOf::At(CopyPhase::Copying(Stage::Closing {
                record: self.record(),
                ended_by,
            }))
        } else {
            CommandOf::Ended(copy_ended(ended_by))
        }
    }

    /// The segment that is to be done next, if there is one.
    fn current(&self) -> Option<Segment>
        ensures { result ≡ slice_get self.now.list.segments self.now.counted.segments }
    {
        self.list
            .segments
            .as_slice()
            .get(usize::from(self.counted.segments))
            .copied()
    }

    /// Counts the segments of no blocks at the front of those that are not done.
    fn skip_empty(&mut self)
        requires { length self.old.list.segments ≤ 64 }
        ensures program { (config : Configuration) → ahead config self.new ≡ ahead config self.old }
        ensures sound { (config : Configuration) → IsAhead config self.old → IsAhead config self.new }
        ensures some { (segment : Segment) → slice_get self.new.list.segments self.new.counted.segments ≡ Some segment → 0 < segment.count }
    {
        while let Some(segment) = self.current() {
            if segment.count > 0 {
                return;
            }
            self.counted.segments += 1;
        }
    }

    /// The phase in which the next segment is begun. It takes no memory.
    pub(crate) fn next_phase(mut self) -> CopyCommand
        requires { length self.list.segments ≤ 64 }
        ensures program { (config : Configuration) → rest_of by_phase config result ≡ ahead config self }
        ensures sound { (config : Configuration) → IsAhead config self → IsSoundAt IsSoundPhase config result }
    {
        self.skip_empty();
        match self.current() {
            Some(segment) => CommandOf::At(CopyPhase::Copying(Stage::Capturing {
                copy: self,
                segment,
            })),
            None => self.ended(None),
        }
    }

    /// The phase after the Open was answered. It takes no memory.
    pub(crate) fn opened(self, answer: Answer) -> CopyCommand
        requires { length self.list.segments ≤ 64 }
        ensures program { (config : Configuration) → rest_of by_phase config result ≡ go_on_by (by_stage config (Stage.Opening self)) answer }
        ensures sound { (config : Configuration) → IsAhead config self → IsSoundAt IsSoundPhase config result }
    {
        match answer {
            Answer::Refused(sense) => CommandOf::Ended(Ended::Refused(sense)),
            Answer::Conflict => CommandOf::Ended(Ended::Conflict),
            _ => self.next_phase(),
        }
    }

    /// The phase in which the blocks of a segment, which were answered, are put. It takes no memory.
    pub(crate) fn putting(self, segment: Segment, blocks: BlockList) -> CopyCommand
        requires { 0 < segment.count }
        ensures program { (config : Configuration) → rest_of by_phase config result
            ≡ captured (given self) (move config self segment) (later config self) (tally self.counted) (Answer.Blocks blocks) }
        ensures sound { (config : Configuration) → IsWithin config self segment (move_bytes config (move config self segment))
            → AreBlocksOf config (move config self segment).source segment.count blocks → IsSoundAt IsSoundPhase config result }
    {
        CommandOf::At(CopyPhase::Copying(Stage::Putting {
            copy: self,
            segment,
            pieces: Pieces {
                blocks,
                at: 0,
                left: (u64::from(segment.count) - 1) / PIECE_BLOCKS,
            },
        }))
    }

    /// The phase after a piece was put, and there may be more. It takes no memory.
    fn piece_done(mut self, segment: Segment, pieces: Pieces) -> CopyCommand
        requires { (config : Configuration) × IsPutting config self segment pieces }
        ensures program { (answer : Answer) → ((sense : SenseCode) → answer ≡ Answer.Refused sense → ⊥) → (answer ≡ Answer.Conflict → ⊥) → (config : Configuration) → rest_of by_phase config result
            ≡ go_on_by (by_stage config (Stage.Putting self segment pieces)) answer }
        ensures sound { (config : Configuration) → IsPutting config self segment pieces → IsSoundAt IsSoundPhase config result }
    {
        self.counted.bytes += pieces.count() as u32 * pieces.blocks.block_length();
        if pieces.left == 0 {
            self.counted.segments += 1;
            return self.next_phase();
        }
        CommandOf::At(CopyPhase::Copying(Stage::Putting {
            copy: self,
            segment,
            pieces: pieces.next(),
        }))
    }

    /// The phase after the Put of a piece was answered. It takes no memory.
    pub(crate) fn put(self, segment: Segment, pieces: Pieces, answer: Answer) -> CopyCommand
        requires { (config : Configuration) × IsPutting config self segment pieces }
        ensures program { (config : Configuration) → rest_of by_phase config result
            ≡ go_on_by (by_stage config (Stage.Putting self segment pieces)) answer }
        ensures sound { (config : Configuration) → IsPutting config self segment pieces → IsSoundAt IsSoundPhase config result }
    {
        match answer {
            Answer::Refused(sense) => self.ended(Some(Refusal::Refused(sense))),
            Answer::Conflict => self.ended(Some(Refusal::Conflict)),
            _ => self.piece_done(segment, pieces),
        }
    }

    /// What is asked once more if the copy gives up while its segments are done. It takes no memory.
    pub(crate) fn last(&self) -> Option<LastAct>
        ensures last { option_map by_last result ≡ left_of (given self.now) (tally self.now.counted) }
        ensures sound { (config : Configuration) → self.now.unit < length config.units → IfSome result (IsLastOf config) }
    {
        if self.is_recorded() {
            Some(self.record().terminating())
        } else {
            None
        }
    }
}
