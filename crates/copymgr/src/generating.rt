ghost use Rattle.std.specs.Prelude.{◌≡◌, ◌++◌, IfOk, OnOk};
ghost use Rattle.copymgr.specs.Told.{line, summary_text};
ghost use Rattle.copymgr.specs.Orders.{AreRounds};
ghost use Rattle.copymgr.specs.inner.Generating.{IsAnswerOf, IsPushedSo};
ghost use Rattle.copymgr.specs.Generating.{HasGenerated};

use crate::ends::{AtHand, Dropped};
use crate::status::Status;
use cm_base::{Bytes, OutOfMemory, Sink, push_all};
use cm_frame::{Memory, read_back_law};
use generator::{generate, well_formed_law};
use round_counts::rounds_law;
use std::alloc::Global;
use trace_replay::{ReplayFault, Summary, replay_with};

/// Plays the generated trace of so many rounds, and counts what it did.
fn play_rounds<M: Memory>(
    alloc: Global,
    memory: &mut M,
    rounds: u32,
) -> Result<Summary, ReplayFault>
    requires { AreRounds rounds }
    ensures { IsAnswerOf rounds result }
{
    read_back_law();
    well_formed_law();
    rounds_law();
    let mut trace = AtHand::new(generate(alloc, rounds)?);
    replay_with(alloc, memory, &mut trace, &mut Dropped)
}

/// Adds a line with a number behind its name.
fn push_line(alloc: Global, text: &mut Bytes, name: &str, number: u64) -> Result<(), OutOfMemory>
    ensures { OnOk result (text.new ≡ text.old ++ line name.now number) }
{
    let line = format!(in alloc; "{name} {number}\n")?;
    text.extend(line.as_bytes())
}

/// What a replay did, in eight lines.
fn summary_text(alloc: Global, summary: &Summary) -> Result<Bytes, OutOfMemory>
    ensures { IfOk result (λ text. text ≡ summary_text summary.now) }
{
    let mut text = Bytes::empty(alloc);
    push_line(alloc, &mut text, "records", summary.records)?;
    push_line(alloc, &mut text, "replies", summary.replies)?;
    push_line(alloc, &mut text, "good", summary.good)?;
    push_line(alloc, &mut text, "check", summary.check)?;
    push_line(alloc, &mut text, "busy", summary.busy)?;
    push_line(alloc, &mut text, "full", summary.full)?;
    push_line(alloc, &mut text, "steps", summary.steps)?;
    push_line(alloc, &mut text, "bytes", summary.bytes)?;
    Ok(text)
}

/// Pushes what a replay did.
fn tell<O: Sink>(alloc: Global, summary: &Summary, output: &mut O) -> Status
    ensures { IsPushedSo (O.taken output.old) (O.taken output.new)
        (O.write_faults output.old) (O.write_faults output.new) summary.now result }
{
    let Ok(text) = summary_text(alloc, summary) else {
        return Status::OutOfMemory;
    };
    match push_all(output, text.as_slice()) {
        Ok(()) => Status::Done,
        Err(_) => Status::WriteFault,
    }
}

/// Plays the generated trace of so many rounds, and tells what it did.
pub fn tell_rounds<M: Memory, O: Sink>(
    alloc: Global,
    memory: &mut M,
    rounds: u32,
    output: &mut O,
) -> Status
    requires { AreRounds rounds }
    ensures { HasGenerated rounds (O.taken output.old) (O.taken output.new)
        (O.write_faults output.old) (O.write_faults output.new) result }
{
    match play_rounds(alloc, memory, rounds) {
        Ok(summary) => tell(alloc, &summary, output),
        Err(fault) => Status::from(fault),
    }
}
