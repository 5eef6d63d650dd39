ghost use Rattle.std.specs.Prelude.{◌≡◌, ◌<◌, ◌^◌, ◌+◌, ◌%◌, ◌*◌, ◌∷◌, [], replicate, length, true, false, IfOk};
ghost use Rattle.block_params.specs.ListsWritten.{populate_written};
ghost use Rattle.generator.specs.Settings.{settings};
ghost use Rattle.generator.specs.Rounds as rounds;

use block_params::{WriteList, write_write_token};
use cm_base::{Bytes, Config, OutOfMemory, set_u16, set_u32, set_u64};
use lba_ranges::{Range, RangeList};
use rod_token::text;
use std::alloc::Global;

/// Blocks that a round writes.
pub(crate) const BLOCKS: u32 = 8;

/// Type of a token for a point in time copy, whose blocks stay as they are.
const POINT_IN_TIME: u32 = 0x0080_0000;

/// The blocks of unit 0 that a round writes.
pub(crate) fn source(round: u32) -> Range
    ensures { result ≡ rounds.source round }
{
    Range {
        lba: 37 * u64::from(round) % 65_536,
        count: BLOCKS,
    }
}

/// The blocks of unit 1 that a round writes.
pub(crate) fn target(round: u32) -> Range
    ensures { result ≡ rounds.target round }
{
    Range {
        lba: 8 * u64::from(round),
        count: BLOCKS,
    }
}

/// The data of a round's WRITE.
pub(crate) fn data(round: u32) -> [u8; 4096]
    ensures { result ≡ rounds.written round }
{
    let byte = (round % 251) as u8 + 1;
    [byte; 4096]
}

/// The list of a POPULATE TOKEN of one range, with RTV and the default timeout.
pub(crate) fn populate_list(range: Range) -> [u8; 32]
    ensures { result ≡ populate_written (record { timeout = 0; ranges = range ∷ [] }) }
{
    let mut list = [0; 32];
    set_u16(&mut list, 0, 30);
    list[2] = 2;
    set_u32(&mut list, 8, POINT_IN_TIME);
    set_u16(&mut list, 14, 16);
    set_u64(&mut list, 16, range.lba);
    set_u32(&mut list, 24, range.count);
    list
}

/// The list of a round's WRITE USING TOKEN, with IMMED and the token of the round.
pub(crate) fn write_list(alloc: Global, config: &Config, round: u32) -> Result<Bytes, OutOfMemory>
    requires { config.now ≡ settings }
    ensures { IfOk result (λ list. list ≡ rounds.write_list round) }
{
    let mut ranges = RangeList::empty(alloc);
    ranges.push(target(round))?;
    let list = WriteList {
        immed: true,
        delete: false,
        offset: 0,
        token: text(config, 0, u64::from(round), BLOCKS),
        ranges,
    };
    write_write_token(alloc, &list)
}
