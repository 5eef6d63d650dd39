ghost use Rattle.std.specs.Prelude.{◌≡◌, ◌+◌, ◌-◌, ◌^◌, ◌<◌, ◌≤◌, ℕ, List, [], Option, Ok, Err, IfOk, IfErr, OnOk, MatchResult, length, drop, true};
ghost use Rattle.std.specs.Io.KnownBytes.{Consumes, IsAtEnd};
ghost use Rattle.cm_base.specs.Configuration.{Configuration};
ghost use Rattle.cm_base.specs.declared.parsed.Parsed.TheVariants.{Whole, Short};
ghost use Rattle.cm_frame.specs.Reading.{read_header, read_item, HasItem};
ghost use Rattle.cmd_program.specs.Judging.{step};
ghost use Rattle.trace_replay.specs.ReplayState.{ReplayState};
ghost use Rattle.trace_replay.specs.Replayed.{Replayed, IsCounted};
ghost use Rattle.trace_replay.specs.inner.Machines.{IsStanding};
ghost use Rattle.trace_replay.specs.inner.Counting.{HasRoom, with_item};
ghost use Rattle.trace_replay.specs.inner.Writing.{IsCountedBy};
ghost use Rattle.trace_replay.specs.inner.Players.{IsLoopAt, IsAt, IsPlayer, NeedsMore, EndsBad, HasPulled, HasMore, HasTurned, HasFound, LooksAt, left_of};

use crate::fault::ReplayFault;
use crate::machine::{Effect, Machine};
use crate::reply::{flush, write_reply};
use crate::summary::Summary;
use cm_base::{Config, InputBuffer, OutOfMemory, OutputBuffer, Parsed, Sink, Source};
use cm_frame::{ItemBuffer, Memory, TraceItem};
use std::alloc::Global;

/// Items that a trace may have.
const ITEMS: u64 = 16_777_216;

/// A trace that is being played.
#[derive(Drop)]
pub(crate) struct Player {
    alloc: Global,
    machine: Machine,
    summary: Summary,
    /// Bytes that were pulled and not used yet.
    input: ItemBuffer,
    /// Place of the first of them in the whole input.
    place: u64,
    /// Replies that were not pushed yet.
    output: OutputBuffer,
}

/// An item that stands at the front of the input, and how many bytes it has.
#[derive(Drop)]
pub(crate) struct Found {
    item: TraceItem,
    used: usize,
}

/// The fault of an item that may not stand at its place, when all replies were pushed.
fn bad_record<O: Sink>(place: u64, waits: &mut OutputBuffer, output: &mut O) -> ReplayFault
    ensures ended { (left rest taken : Option (List ℕ)) (config : Configuration) (s : ReplayState) (n : ℕ) (input : List ℕ)
        → IsLoopAt left rest taken (O.taken output.old) config s n place input waits.old
        → EndsBad config s n place input
        → Replayed step left rest taken (O.taken output.new) (Err result) }
    ensures counted { (reads : ℕ)
        → IsCounted reads reads (O.write_faults output.old) (O.write_faults output.new) (Err result) }
{
    match flush(waits, output) {
        Ok(()) => ReplayFault::BadRecord { place },
        Err(fault) => fault,
    }
}

impl Player {
    /// A player of the items behind a header of so many bytes.
    pub(crate) fn new(
        alloc: Global,
        config: Config,
        used: usize,
        mut input: InputBuffer,
    ) -> Result<Player, OutOfMemory>
        requires { used ≤ length input }
        ensures { (left rest given : Option (List ℕ)) → Consumes left rest input
            → read_header input ≡ Whole config used
            → IfOk result (λ p. IsAt left rest given given p × (p.summary.records ≡ 0)) }
    {
        input.consume(used);
        Ok(Player {
            alloc,
            machine: Machine::new(alloc, config)?,
            summary: Summary::none(),
            input: ItemBuffer::new(input),
            place: used as u64,
            output: OutputBuffer::new(alloc),
        })
    }

    /// Plays all items that come, and pushes all replies.
    pub(crate) fn play_all<M: Memory, I: Source, O: Sink>(
        &mut self,
        memory: &mut M,
        input: &mut I,
        output: &mut O,
    ) -> Result<Summary, ReplayFault>
        requires { IsPlayer self.old }
        ensures played { (left taken : Option (List ℕ)) → IsAt left (I.left input.old) taken (O.taken output.old) self.old
            → Replayed step left (I.left input.new) taken (O.taken output.new) result }
        ensures counted { IsCounted (I.read_faults input.old) (I.read_faults input.new) (O.write_faults output.old) (O.write_faults output.new) result }
    {
        while self.summary.records < ITEMS {
            if !self.turn(memory, input, output)? {
                return Ok(self.summary);
            }
        }
        self.end(memory, input, output)
    }

    /// Plays the next item. Whether there was one.
    fn turn<M: Memory, I: Source, O: Sink>(
        &mut self,
        memory: &mut M,
        input: &mut I,
        output: &mut O,
    ) -> Result<bool, ReplayFault>
        requires playing { IsPlayer self.old }
        requires left { 0 < left_of self.old }
        ensures turned { (left taken : Option (List ℕ)) → IsAt left (I.left input.old) taken (O.taken output.old) self.old
            → MatchResult result (HasTurned left (I.left input.new) taken (O.taken output.new) self.new)
            (λ e. Replayed step left (I.left input.new) taken (O.taken output.new) (Err e)) }
        ensures counted { IsCountedBy (I.read_faults input.old) (I.read_faults input.new) (O.write_faults output.old) (O.write_faults output.new) result }
        ensures records { IfOk result (λ more. more ≡ true → self.new.summary.records ≡ self.old.summary.records + 1) }
    {
        match self.next_item(memory, input, output)? {
            Some(found) => {
                self.play(found, output)?;
                Ok(true)
            }
            None => Ok(false),
        }
    }

    /// Ends behind the last item that is allowed.
    fn end<M: Memory, I: Source, O: Sink>(
        &mut self,
        memory: &mut M,
        input: &mut I,
        output: &mut O,
    ) -> Result<Summary, ReplayFault>
        requires { left_of self.old ≡ 0 }
        ensures played { (left taken : Option (List ℕ)) → IsAt left (I.left input.old) taken (O.taken output.old) self.old
            → Replayed step left (I.left input.new) taken (O.taken output.new) result }
        ensures counted { IsCounted (I.read_faults input.old) (I.read_faults input.new) (O.write_faults output.old) (O.write_faults output.new) result }
    {
        if !self.has_more(memory, input, output)? {
            return Ok(self.summary);
        }
        flush(&mut self.output, output)?;
        Err(ReplayFault::Records)
    }

    /// Whether bytes wait, once more were pulled where none did.
    fn has_more<M: Memory, I: Source, O: Sink>(
        &mut self,
        memory: &mut M,
        input: &mut I,
        output: &mut O,
    ) -> Result<bool, ReplayFault>
        ensures more { (left taken : Option (List ℕ)) → IsAt left (I.left input.old) taken (O.taken output.old) self.old
            → MatchResult result (HasMore left (I.left input.new) taken (O.taken output.new) self.new)
            (λ e. Replayed step left (I.left input.new) taken (O.taken output.new) (Err e)) }
        ensures counted { IsCountedBy (I.read_faults input.old) (I.read_faults input.new) (O.write_faults output.old) (O.write_faults output.new) result }
        ensures summary { self.new.summary ≡ self.old.summary }
    {
        if !self.input.is_empty() {
            return Ok(true);
        }
        self.pull(memory, input, output)
    }

    /// Pulls until the next item is whole. There is none where the input ends between two items.
    fn next_item<M: Memory, I: Source, O: Sink>(
        &mut self,
        memory: &mut M,
        input: &mut I,
        output: &mut O,
    ) -> Result<Option<Found>, ReplayFault>
        requires { 0 < left_of self.old }
        ensures found { (left taken : Option (List ℕ)) → IsAt left (I.left input.old) taken (O.taken output.old) self.old
            → MatchResult result (HasFound left (I.left input.new) taken (O.taken output.new) self.new)
            (λ e. Replayed step left (I.left input.new) taken (O.taken output.new) (Err e)) }
        ensures counted { IsCountedBy (I.read_faults input.old) (I.read_faults input.new) (O.write_faults output.old) (O.write_faults output.new) result }
        ensures summary { OnOk result (self.new.summary ≡ self.old.summary) }
    {
        loop {
            if let Some(found) = self.look(output)? {
                return Ok(Some(found));
            }
            if !self.pull(memory, input, output)? {
                return self.at_end();
            }
        }
    }

    /// The item at the front, if it is whole.
    fn look<O: Sink>(&mut self, output: &mut O) -> Result<Option<Found>, ReplayFault>
        requires { 0 < left_of self.old }
        ensures failed { (left rest taken : Option (List ℕ)) → IsAt left rest taken (O.taken output.old) self.old
            → IfErr result (λ e. Replayed step left rest taken (O.taken output.new) (Err e)) }
        ensures counted { (reads : ℕ) → IsCountedBy reads reads (O.write_faults output.old) (O.write_faults output.new) result }
        ensures same { OnOk result ((self.new ≡ self.old) × (output.new ≡ output.old)) }
        ensures looked { IfOk result (LooksAt self.old.input) }
    {
        match self.input.item(self.alloc)? {
            Parsed::Whole { value: item, used } => Ok(Some(Found { item, used })),
            Parsed::Bad { place: _ } => Err(bad_record(self.place, &mut self.output, output)),
            Parsed::Short => Ok(None),
        }
    }

    /// At the end of the input: between two items, or in one.
    fn at_end(&self) -> Result<Option<Found>, ReplayFault>
        ensures found { (left rest taken given : Option (List ℕ)) → IsAt left rest taken given self.now
            → NeedsMore (left_of self.now) self.now.input → IsAtEnd rest → self.now.output ≡ []
            → MatchResult result (HasFound left rest taken given self.now)
            (λ e. Replayed step left rest taken given (Err e)) }
        ensures counted { (reads writes : ℕ) → IsCountedBy reads reads writes writes result }
    {
        if self.input.is_empty() {
            Ok(None)
        } else {
            Err(ReplayFault::Torn { place: self.place })
        }
    }

    /// Pushes all replies, so that those to all that was pulled are out, and pulls once. Whether
    /// there was more.
    fn pull<M: Memory, I: Source, O: Sink>(
        &mut self,
        memory: &mut M,
        input: &mut I,
        output: &mut O,
    ) -> Result<bool, ReplayFault>
        ensures pulled { (left taken : Option (List ℕ)) → IsAt left (I.left input.old) taken (O.taken output.old) self.old
            → NeedsMore (left_of self.old) self.old.input
            → MatchResult result (HasPulled left (I.left input.new) taken (O.taken output.new) self.old.input self.new)
            (λ e. Replayed step left (I.left input.new) taken (O.taken output.new) (Err e)) }
        ensures counted { IsCountedBy (I.read_faults input.old) (I.read_faults input.new) (O.write_faults output.old) (O.write_faults output.new) result }
        ensures grows { IfOk result (λ more. more ≡ true → length self.old.input < length self.new.input) }
        ensures summary { self.new.summary ≡ self.old.summary }
    {
        flush(&mut self.output, output)?;
        let count = self.input.fill(memory, input)?;
        Ok(count > 0)
    }

    /// Plays the item that was found, and writes its reply.
    fn play<O: Sink>(&mut self, found: Found, output: &mut O) -> Result<(), ReplayFault>
        requires playing { IsPlayer self.old }
        requires left { 0 < left_of self.old }
        requires found { read_item self.old.input ≡ Whole found.item found.used }
        ensures played { (left rest taken : Option (List ℕ)) → IsAt left rest taken (O.taken output.old) self.old
            → MatchResult result (λ _. IsAt left rest taken (O.taken output.new) self.new)
            (λ e. Replayed step left rest taken (O.taken output.new) (Err e)) }
        ensures counted { (reads : ℕ) → IsCountedBy reads reads (O.write_faults output.old) (O.write_faults output.new) result }
        ensures records { OnOk result (self.new.summary.records ≡ self.old.summary.records + 1) }
    {
        let Found { item, used } = found;
        match self.machine.play(item)? {
            Effect::Unfit => Err(bad_record(self.place, &mut self.output, output)),
            Effect::Quiet => {
                self.pass(used);
                Ok(())
            }
            Effect::Answers { initiator, reply } => {
                self.pass(used);
                self.summary.count_reply(&reply);
                write_reply(&mut self.output, output, initiator, &reply)
            }
        }
    }

    /// Goes on behind an item that was played.
    fn pass(&mut self, used: usize)
        requires item { HasItem self.old.input used }
        requires place { self.old.place + used < 2 ^ 64 }
        requires room { HasRoom self.old.summary }
        ensures { (config : Configuration) (s : ReplayState) → IsStanding config s self.old.machine
            → self.new ≡ record self.old {
              input = drop used self.old.input;
              place = self.old.place + used;
              summary = with_item self.old.summary (length s.entries);
            } }
    {
        self.input.pass(used);
        self.place += used as u64;
        self.summary.count_item(self.machine.steps());
    }
}
