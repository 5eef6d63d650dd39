ghost use Rattle.std.specs.Prelude.{◌≡◌, IfOk};
ghost use Rattle.generator.specs.Generated.{generated};

use crate::machine::settings;
use crate::round::push_round;
use cm_base::{Bytes, OutOfMemory};
use cm_frame::write_header;
use std::alloc::Global;

/// The trace of so many rounds (own profile). Two units of 1,048,576 blocks of 512 bytes are played on. Each
/// round is of one of eight initiators in turn: WRITE (16) of eight blocks and POPULATE TOKEN of them on unit 0,
/// WRITE USING TOKEN in the background and a Pump on unit 1, and there RECEIVE ROD TOKEN INFORMATION and READ (16).
pub fn generate(alloc: Global, rounds: u32) -> Result<Bytes, OutOfMemory>
    ensures { IfOk result (λ trace. trace ≡ generated rounds) }
{
    let config = settings(alloc)?;
    let mut trace = write_header(alloc, &config)?;
    for round in 0..rounds {
        push_round(alloc, &config, &mut trace, round)?;
    }
    Ok(trace)
}
