ghost use Rattle.std.specs.Prelude.{◌≡◌, ◌++◌, ℕ, List};
ghost use Rattle.std.specs.Io.KnownBytes.{Consumes};
ghost use Rattle.odx_host.specs.Linked.{IsRead, EndsThere, IsCounted};

use crate::port::PortFault;
use cm_base::{InputBuffer, Parsed, Source};
use cm_frame::{Reply, read_reply};
use std::alloc::Global;

/// Pulls until the next reply is whole, and takes it.
pub(crate) fn next_reply<S: Source>(
    alloc: Global,
    source: &mut S,
    input: &mut InputBuffer,
) -> Result<Reply, PortFault>
    ensures read { (pulled : List ℕ) × Consumes (S.left source.old) (S.left source.new) pulled
        × IsRead result (input.old ++ pulled) input.new }
    ensures ended { EndsThere result (S.left source.new) }
    ensures counted { (writes : ℕ) → IsCounted result (S.read_faults source.old) (S.read_faults source.new) writes writes }
    ensures apart { S.unpulled source.new ≡ S.unpulled source.old }
{
    'pulls: loop {
        match read_reply(alloc, input.as_slice())? {
            Parsed::Whole { value, used } => {
                input.consume(used);
                return Ok(value);
            }
            Parsed::Bad { place: _ } => return Err(PortFault::BadReply),
            Parsed::Short => {}
        }
        if input.fill(source)? == 0 {
            return Err(PortFault::Ended);
        }
    }
}
