ghost use Rattle.std.specs.Prelude.{◌≡◌, ◌⊎◌, ℕ, List, [], Option, Ok, Err, OnOk, MatchResult};
ghost use Rattle.std.specs.Io.KnownBytes.{Consumes, Appends, IsAtEnd};
ghost use Rattle.cmd_program.specs.Judging.{step};
ghost use Rattle.trace_replay.specs.declared.fault.ReplayFault.{ReplayFault};
ghost use Rattle.trace_check.specs.Verdict.{verdict};
ghost use Rattle.trace_check.specs.Checked.{Checked, IsCheckCounted, told_of};
ghost use Rattle.trace_check.specs.inner.Pulls.{HasFailed, IsFillCounted, IsTooLong, HasNotTold, IsPushCounted};

use crate::comparing::first_difference;
use crate::input::{fill_to, fill_to_end};
use crate::playing::play;
use cm_base::{InputBuffer, Sink, Source, get_u64, push_all};
use std::alloc::Global;
use trace_replay::ReplayFault;

/// Bytes in which an input tells the length of its trace.
const LENGTH: usize = 8;

/// The longest trace that is checked, in bytes.
const TRACE_LIMIT: u64 = 1_073_741_824;

/// What is told when a checker is pleased.
const YES: &[u8] = b"yes\n";

/// How recorded replies compare with those of their trace.
#[derive(Debug, Drop, Clone, Copy, PartialEq, Eq)]
pub enum CheckEnd {
    /// They are the replies of the trace, byte for byte.
    Yes,
    /// They are not. The place counts from the first byte of the records; it is the first at which they and the replies
    /// of the trace differ, or one of the two ends.
    Differs { place: u64 },
}

/// Pulls the whole input, or as much of it as tells that its trace is too long.
fn pull_input<I: Source>(waits: &mut InputBuffer, input: &mut I) -> Result<(), ReplayFault>
    ensures pulled { (left : Option (List ℕ)) → Consumes left (I.left input.old) waits.old
        → MatchResult result (λ _. Consumes left (I.left input.new) waits.new) (HasFailed left (I.left input.new)) }
    ensures counted { IsFillCounted (I.read_faults input.old) (I.read_faults input.new) result }
    ensures ended { OnOk result (IsAtEnd (I.left input.new) ⊎ IsTooLong waits.new) }
{
    fill_to(waits, input, LENGTH)?;
    let bytes = waits.as_slice();
    if bytes.len() >= LENGTH && get_u64(bytes, 0) > TRACE_LIMIT {
        return Ok(());
    }
    fill_to_end(waits, input)
}

/// What is said of an input. `OutOfMemory` where memory was wanted.
fn judge(alloc: Global, bytes: &[u8]) -> Result<CheckEnd, ReplayFault>
    ensures { (result ≡ Err ReplayFault.OutOfMemory) ⊎ (verdict step bytes.now ≡ result) }
{
    if bytes.len() < LENGTH {
        return Err(ReplayFault::Torn { place: 0 });
    }
    let length = get_u64(bytes, 0);
    if length > TRACE_LIMIT {
        return Err(ReplayFault::BadHeader { place: 0 });
    }
    let behind = &bytes[LENGTH..];
    if (behind.len() as u64) < length {
        return Err(ReplayFault::Torn {
            place: LENGTH as u64,
        });
    }
    let (trace, records) = behind.split_at(length as usize);
    let replies = play(alloc, trace)?;
    match first_difference(&replies, records) {
        None => Ok(CheckEnd::Yes),
        Some(place) => Ok(CheckEnd::Differs { place }),
    }
}

/// Tells a Yes.
fn tell<O: Sink>(end: CheckEnd, output: &mut O) -> Result<(), ReplayFault>
    ensures told { (taken : Option (List ℕ)) → Appends taken (O.taken output.old) []
        → MatchResult result (λ _. Appends taken (O.taken output.new) (told_of (Ok end))) (HasNotTold taken (O.taken output.new) end) }
    ensures counted { IsPushCounted (O.write_faults output.old) (O.write_faults output.new) result }
{
    match end {
        CheckEnd::Yes => {
            push_all(output, YES)?;
            Ok(())
        }
        CheckEnd::Differs { place: _ } => Ok(()),
    }
}

/// Whether recorded replies are those of a recorded trace. The input (own profile) is the length of the trace in 8 bytes,
/// at most 1,073,741,824, the trace, and the reply records to the end. The trace is played by the slow plain model, where
/// memory is never refused, with at most 65,536 items; a Yes is written as the word `yes` and a line feed.
///
/// `BadHeader` with place 0 exactly where the length is greater. `Torn` with place 0 exactly where the input ends inside
/// the length, and with place 8 where it ends before the trace does. Else a trace that does not end between two items is
/// at fault as in a replay, with a place from the first byte of the input. `ReadFault` and `WriteFault` only where a
/// pull or a push failed. At each fault nothing was written, but at `WriteFault` a beginning of the Yes.
///
/// All of the input, and all replies, are in memory at once. Each answer goes through all that the unit has done.
pub fn check<I: Source, O: Sink>(
    alloc: Global,
    input: &mut I,
    output: &mut O,
) -> Result<CheckEnd, ReplayFault>
    ensures checked { Checked step (I.left input.old) (I.left input.new) (O.taken output.old) (O.taken output.new) result }
    ensures counted { IsCheckCounted (I.read_faults input.old) (I.read_faults input.new) (O.write_faults output.old) (O.write_faults output.new) result }
{
    let mut waits = InputBuffer::new(alloc);
    pull_input(&mut waits, input)?;
    let end = judge(alloc, waits.as_slice())?;
    tell(end, output)?;
    Ok(end)
}
