ghost use Rattle.std.specs.Prelude.{◌≡◌, [], List, ℕ, Option, Err, MatchResult};
ghost use Rattle.std.specs.Io.KnownBytes.{Consumes};
ghost use Rattle.cm_base.specs.declared.parsed.Parsed.TheVariants.{Whole};
ghost use Rattle.cm_frame.specs.Reading.{read_header};
ghost use Rattle.cmd_program.specs.Judging.{step};
ghost use Rattle.trace_replay.specs.Replayed.{Replayed, IsCounted};
ghost use Rattle.trace_replay.specs.inner.Writing.{IsCountedBy};

use crate::fault::ReplayFault;
use crate::player::Player;
use crate::summary::Summary;
use cm_base::{Config, InputBuffer, Parsed, Sink, Source};
use cm_frame::{Memory, read_header};
use std::alloc::Global;

/// A header that was read, and how many bytes it has.
#[derive(Drop)]
struct Header {
    config: Config,
    used: usize,
}

/// Pulls until the header is whole.
fn pull_header<I: Source>(
    alloc: Global,
    waits: &mut InputBuffer,
    input: &mut I,
) -> Result<Header, ReplayFault>
    requires { waits.old ≡ [] }
    ensures pulled { MatchResult result
        (λ h. Consumes (I.left input.old) (I.left input.new) waits.new × (read_header waits.new ≡ Whole h.config h.used))
        (λ e. (taken : Option (List ℕ)) → Replayed step (I.left input.old) (I.left input.new) taken taken (Err e)) }
    ensures counted { (writes : ℕ) → IsCountedBy (I.read_faults input.old) (I.read_faults input.new) writes writes result }
{
    loop {
        match read_header(alloc, waits.as_slice())? {
            Parsed::Whole {
                value: config,
                used,
            } => return Ok(Header { config, used }),
            Parsed::Bad { place } => return Err(ReplayFault::BadHeader { place }),
            Parsed::Short => {
                if waits.fill(input)? == 0 {
                    return Err(ReplayFault::Torn { place: 0 });
                }
            }
        }
    }
}

/// Plays a trace: a header, and then items, up to the end of the input. It waits where the source or
/// the sink does, and nowhere else.
pub fn replay<I: Source, O: Sink>(
    alloc: Global,
    input: &mut I,
    output: &mut O,
) -> Result<Summary, ReplayFault>
    ensures played { Replayed step (I.left input.old) (I.left input.new) (O.taken output.old) (O.taken output.new) result }
    ensures counted { IsCounted (I.read_faults input.old) (I.read_faults input.new) (O.write_faults output.old) (O.write_faults output.new) result }
{
    let mut memory = alloc;
    replay_with(alloc, &mut memory, input, output)
}

/// Plays a trace as [`replay`] does, with long data-outs in `memory`.
pub fn replay_with<M: Memory, I: Source, O: Sink>(
    alloc: Global,
    memory: &mut M,
    input: &mut I,
    output: &mut O,
) -> Result<Summary, ReplayFault>
    ensures played { Replayed step (I.left input.old) (I.left input.new) (O.taken output.old) (O.taken output.new) result }
    ensures counted { IsCounted (I.read_faults input.old) (I.read_faults input.new) (O.write_faults output.old) (O.write_faults output.new) result }
{
    let mut waits = InputBuffer::new(alloc);
    let Header { config, used } = pull_header(alloc, &mut waits, input)?;
    let mut player = Player::new(alloc, config, used, waits)?;
    player.play_all(memory, input, output)
}
