ghost use Rattle.std.specs.Prelude.{◌≡◌, ◌<◌, ◌≤◌, ◌^◌, ◌∷◌, [], length, nat_lt, IfOk, OnOk, OnErr};
ghost use Rattle.std.specs.Option.{option_copied};
ghost use Rattle.lba_ranges.specs.Writings.{mapped_below, held_with};
ghost use Rattle.cm_history.specs.Deeds.{moment, last_stamp, is_answered, is_refusal};
ghost use Rattle.cm_history.specs.Blocks.{held};
ghost use Rattle.cm_history.specs.Operations.{is_failure, is_ending, written_by, was_stopped, was_ended, result_or, result_of};
ghost use Rattle.cm_history.specs.Room.{payload};
ghost use Rattle.plain_model.specs.inner.Amounts.{capped, mappings};
ghost use Rattle.plain_model.specs.inner.Parts.{deed_of};

use crate::acts::bytes_in;
use crate::writings::PlainWritings;
use cm_base::{OutOfMemory, Payload};
use cm_history::{Act, Answer, CopyEnd, CopyState, Entry, OpState};
use std::alloc::Global;
use std::marker::Model;
use std::rc::Rc;

/// What a deed consists of.
#[derive(Drop)]
pub(crate) struct DeedParts {
    pub(crate) entry: Entry,
    pub(crate) place: u64,
    pub(crate) moment: u64,
    pub(crate) answer: Answer,
    pub(crate) wrote: PlainWritings,
    pub(crate) served: Option<u64>,
}

/// An entry of the unit, with what came of it. Its copies share them.
#[derive(Drop)]
pub(crate) struct PlainDeed {
    parts: Rc<DeedParts>,
}

impl Model for PlainDeed {
    ghost use Rattle.cm_history.specs.Deeds.{Deed};
    ghost use Rattle.plain_model.specs.inner.Parts.{deed_of};

    ghost Value = { Deed };

    ghost view = { λ d. deed_of d.parts.value };
}

/// The answer is a refusal.
pub(crate) fn is_refusal(answer: &Answer) -> bool
    ensures { result ≡ is_refusal answer.now }
{
    matches!(answer, Answer::Refused(_) | Answer::Conflict)
}

/// The answer says that a piece was not written.
pub(crate) fn is_failure(answer: &Answer) -> bool
    ensures { result ≡ is_failure answer.now }
{
    match answer {
        Answer::Progress { state, count: _ } => matches!(state, OpState::Failed(_)),
        _ => false,
    }
}

impl PlainDeed {
    pub(crate) fn new(alloc: Global, parts: DeedParts) -> Result<PlainDeed, OutOfMemory>
        ensures { IfOk result (λ deed. deed ≡ deed_of parts) }
    {
        Ok(PlainDeed {
            parts: Rc::new(alloc, parts)?,
        })
    }

    pub(crate) fn entry(&self) -> &Entry
        ensures { result.now ≡ self.now.entry }
    {
        &self.parts.entry
    }

    pub(crate) fn place(&self) -> u64
        ensures { result ≡ self.now.place }
    {
        self.parts.place
    }

    pub(crate) fn moment(&self) -> u64
        ensures { result ≡ self.now.moment }
    {
        self.parts.moment
    }

    pub(crate) fn answer(&self) -> &Answer
        ensures { result.now ≡ self.now.answer }
    {
        &self.parts.answer
    }

    pub(crate) fn wrote(&self) -> &PlainWritings
        ensures { result.now ≡ self.now.wrote }
    {
        &self.parts.wrote
    }

    pub(crate) fn served(&self) -> Option<u64>
        ensures { result ≡ self.now.served }
    {
        self.parts.served
    }

    pub(crate) fn is_answered(&self) -> bool
        ensures { result ≡ is_answered self.now }
    {
        !is_refusal(self.answer())
    }

    /// It ended the operation that it served.
    fn is_ending(&self) -> bool
        ensures { result ≡ is_ending self.now.entry.act }
    {
        matches!(&self.parts.entry.act, Act::End { .. } | Act::Abort { .. })
    }

    /// The result of a Close; of another act, what it was.
    fn result_or(&self, was: CopyEnd) -> CopyEnd
        ensures { result ≡ result_or was self.now.entry.act }
    {
        match &self.parts.entry.act {
            Act::Close { id: _, result } => *result,
            _ => was,
        }
    }

    pub(crate) fn copy(&self) -> Result<PlainDeed, OutOfMemory>
        ensures { IfOk result (λ copy. copy ≡ self.now) }
    {
        Ok(PlainDeed {
            parts: self.parts.clone()?,
        })
    }
}

/// Deeds of a unit, the oldest first. Contracts see the latest first.
#[derive(Drop)]
pub(crate) struct PlainPast {
    deeds: Vec<PlainDeed>,
}

impl Model for PlainPast {
    ghost use Rattle.std.specs.Prelude.{List, reverse};
    ghost use Rattle.cm_history.specs.Deeds.{Deed};

    ghost Value = { List Deed };

    ghost view = { λ p. reverse p.deeds.items };
}

#[tactic(auto, using(crate::proofs::Loops::walks))]
impl PlainPast {
    pub(crate) fn new(alloc: Global) -> PlainPast
        ensures { result ≡ [] }
    {
        PlainPast {
            deeds: Vec::new(alloc),
        }
    }

    pub(crate) fn len(&self) -> usize
        ensures { result ≡ length self.now }
    {
        self.deeds.len()
    }

    pub(crate) fn push(&mut self, deed: &PlainDeed) -> Result<(), OutOfMemory>
        ensures ok { OnOk result (self.new ≡ deed.now ∷ self.old) }
        ensures err { OnErr result (self.new ≡ self.old) }
    {
        self.deeds.push(deed.copy()?)?;
        Ok(())
    }

    pub(crate) fn copy(&self, alloc: Global) -> Result<PlainPast, OutOfMemory>
        ensures { IfOk result (λ copy. copy ≡ self.now) }
    {
        let mut copy = PlainPast::new(alloc);
        for deed in &self.deeds {
            copy.push(deed)?;
        }
        Ok(copy)
    }

    /// The greatest moment of the entries.
    pub(crate) fn moment(&self) -> u64
        ensures { result ≡ moment self.now }
    {
        let mut moment = 0;
        for deed in &self.deeds {
            moment = deed.entry().moment.max(moment);
        }
        moment
    }

    /// What a block holds: the last writing of it.
    pub(crate) fn held(&self, block: u64) -> Option<&Payload>
        ensures { option_copied result ≡ held self.now block }
    {
        let mut last = None;
        for deed in &self.deeds {
            last = deed.wrote().after(block, last);
        }
        last
    }

    /// How many writings left their block mapped; the greatest number where they are more.
    fn mappings(&self) -> u64
        ensures { result ≡ capped (mappings self.now) }
    {
        let mut mappings = 0u64;
        for deed in &self.deeds {
            mappings = mappings.saturating_add(deed.wrote().mapping());
        }
        mappings
    }

    /// More of the first blocks than these would be mapped if this were written next. They are counted only where
    /// so many writings left their block mapped.
    pub(crate) fn maps_beyond(&self, quota: u64, blocks: u64, more: &PlainWritings) -> bool
        ensures { result ≡ nat_lt quota (mapped_below blocks (held_with (held self.now) more.now)) }
    {
        self.mappings().saturating_add(more.mapping()) > quota
            && self.mapped_with(blocks, more) > quota
    }

    /// How many of the first blocks would be mapped if this were written next.
    fn mapped_with(&self, blocks: u64, more: &PlainWritings) -> u64
        ensures { result ≡ mapped_below blocks (held_with (held self.now) more.now) }
    {
        let mut mapped = 0;
        for block in 0..blocks {
            if more.after(block, self.held(block)).is_some() {
                mapped += 1;
            }
        }
        mapped
    }

    /// The stamp of the latest entry.
    pub(crate) fn last_stamp(&self) -> u64
        ensures { result ≡ last_stamp self.now }
    {
        let mut stamp = 0;
        for deed in &self.deeds {
            stamp = deed.entry().stamp;
        }
        stamp
    }

    /// The bytes of all Writes, refused ones too; the greatest number where they are more.
    pub(crate) fn payload(&self) -> u64
        ensures { result ≡ capped (payload 0 self.now) }
    {
        let mut payload = 0u64;
        for deed in &self.deeds {
            payload = payload.saturating_add(bytes_in(&deed.entry().act));
        }
        payload
    }

    /// How many blocks they wrote.
    pub(crate) fn written(&self) -> usize
        requires { length (written_by self.now) < 2 ^ 64 }
        ensures { result ≡ length (written_by self.now) }
    {
        let mut written = 0;
        for deed in &self.deeds {
            written += deed.wrote().len();
        }
        written
    }

    /// A piece was not written, since it would have gone over the quota.
    pub(crate) fn was_stopped(&self) -> bool
        ensures { result ≡ was_stopped self.now }
    {
        let mut stopped = false;
        for deed in &self.deeds {
            stopped = is_failure(deed.answer()) || stopped;
        }
        stopped
    }

    /// An End or an Abort is among them.
    pub(crate) fn was_ended(&self) -> bool
        ensures { result ≡ was_ended self.now }
    {
        let mut ended = false;
        for deed in &self.deeds {
            ended = deed.is_ending() || ended;
        }
        ended
    }

    /// The result of the last Close; before, a copy runs.
    pub(crate) fn result(&self) -> CopyEnd
        ensures { result ≡ result_of self.now }
    {
        let mut end = CopyEnd {
            state: CopyState::Running,
            segments: 0,
            bytes: 0,
        };
        for deed in &self.deeds {
            end = deed.result_or(end);
        }
        end
    }
}
