ghost use Rattle.std.specs.Prelude.{◌≡◌, ◌≤◌, ◌<◌, ◌+◌, ◌^◌, ℕ, suc, length, drop, IfOk, MatchResult};
ghost use Rattle.cmd_program.specs.Judging.{step};
ghost use Rattle.trace_replay.specs.Items.{Done};
ghost use Rattle.trace_replay.specs.Played.{Played, output_of};
ghost use Rattle.trace_check.specs.CheckedTrace.{checked_trace, checked_items};
ghost use Rattle.trace_check.specs.inner.Machines.{Stands};
ghost use Rattle.trace_check.specs.inner.Endings.{EndsBy};
ghost use Rattle.trace_check.specs.inner.Loops.{IsAt};

use crate::machine::Machine;
use cm_base::Parsed;
use cm_frame::{read_header, read_item};
use std::alloc::Global;
use trace_replay::ReplayFault;

/// Items that a checked trace may have.
const ITEMS: u32 = 65_536;

/// Bytes of the input before its trace.
const AHEAD: u64 = 8;

/// Plays the item at the front of some bytes, which stand at a place of the trace. How many bytes it has; or how the
/// trace ends there, with a place from the first byte of the input.
fn play_item(
    alloc: Global,
    machine: &mut Machine,
    bytes: &[u8],
    place: u64,
) -> Result<usize, ReplayFault>
    requires stands { Stands machine.old }
    requires some { 0 < length bytes.now }
    requires place { place < 2 ^ 63 }
    ensures played { (whole : Played) (n : ℕ) → IsAt whole (suc n) place bytes.now machine.old
        → MatchResult result (λ used. IsAt whole n (place + used) (drop used bytes.now) machine.new) (EndsBy whole) }
    ensures within { IfOk result (λ used. used ≤ length bytes.now) }
{
    match read_item(alloc, bytes)? {
        Parsed::Whole { value: item, used } => {
            if machine.play(item)? {
                Ok(used)
            } else {
                Err(ReplayFault::BadRecord {
                    place: AHEAD + place,
                })
            }
        }
        Parsed::Short => Err(ReplayFault::Torn {
            place: AHEAD + place,
        }),
        Parsed::Bad { place: _ } => Err(ReplayFault::BadRecord {
            place: AHEAD + place,
        }),
    }
}

/// Plays the items of a trace, of which the first stands at a place. The bytes of all replies.
fn play_items(
    alloc: Global,
    mut machine: Machine,
    trace: &[u8],
    first: usize,
) -> Result<Vec<u8>, ReplayFault>
    requires within { first ≤ length trace.now }
    requires at { IsAt (checked_trace step trace.now) checked_items first (drop first trace.now) machine }
    ensures { MatchResult result
        (λ replies. ((checked_trace step trace.now).ending ≡ Done) × (replies.items ≡ output_of (checked_trace step trace.now).state))
        (EndsBy (checked_trace step trace.now)) }
{
    let mut at = first;
    let mut left = ITEMS;
    while left > 0 && at < trace.len() {
        at += play_item(alloc, &mut machine, &trace[at..], at as u64)?;
        left -= 1;
    }
    if at < trace.len() {
        return Err(ReplayFault::Records);
    }
    Ok(machine.into_replies())
}

/// Plays a trace where memory is never refused: the bytes of all replies, or how the trace ends otherwise, with a place
/// from the first byte of the input, in which it stands behind its length. `OutOfMemory` where memory was wanted.
pub(crate) fn play(alloc: Global, trace: &[u8]) -> Result<Vec<u8>, ReplayFault>
    ensures { MatchResult result
        (λ replies. ((checked_trace step trace.now).ending ≡ Done) × (replies.items ≡ output_of (checked_trace step trace.now).state))
        (EndsBy (checked_trace step trace.now)) }
{
    match read_header(alloc, trace)? {
        Parsed::Whole {
            value: config,
            used,
        } => play_items(alloc, Machine::new(alloc, config)?, trace, used),
        Parsed::Short => Err(ReplayFault::Torn { place: AHEAD }),
        Parsed::Bad { place } => Err(ReplayFault::BadHeader {
            place: AHEAD + place,
        }),
    }
}
