ghost use Rattle.std.specs.Prelude.{◌≡◌, ◌≤◌, ◌∷◌, ◌++◌, [], length, flat_map, OnOk, true};
ghost use Rattle.cm_frame.specs.declared.item.TraceItem.{TraceItem};
ghost use Rattle.cm_frame.specs.Grammar.{item_bytes, data_limit};
ghost use Rattle.scsi_cdb.specs.declared.cdb.Cdb.{Cdb};
ghost use Rattle.scsi_cdb.specs.Encoded.{has_codes, moved};
ghost use Rattle.generator.specs.Settings.{settings};
ghost use Rattle.generator.specs.Rounds as rounds;

use crate::lists::{BLOCKS, data, populate_list, source, target, write_list};
use cm_base::{Bytes, Config, OutOfMemory, Payload};
use cm_frame::{Request, TraceItem, write_item};
use scsi_cdb::{Cdb, encode};
use std::alloc::Global;

/// Initiators that take turns.
const INITIATORS: u32 = 8;

/// Adds a Begin of a round's initiator.
fn push_begin(
    alloc: Global,
    trace: &mut Bytes,
    round: u32,
    unit: u16,
    cdb: Cdb,
    out: &[u8],
) -> Result<(), OutOfMemory>
    requires codes { has_codes cdb ≡ true }
    requires moved { moved cdb ≤ 2048 }
    requires data { length out.now ≤ data_limit }
    ensures { OnOk result (trace.new ≡ trace.old ++ item_bytes (rounds.begin_of round unit cdb out.now)) }
{
    let item = TraceItem::Begin {
        initiator: round % INITIATORS,
        moment: u64::from(round),
        request: Request {
            unit,
            cdb: encode(&cdb),
            out: Payload::copy_from_slice(alloc, out)?,
        },
    };
    trace.extend(write_item(alloc, &item)?.as_slice())
}

/// Adds a Run of a round's initiator.
fn push_run(alloc: Global, trace: &mut Bytes, round: u32) -> Result<(), OutOfMemory>
    ensures { OnOk result (trace.new ≡ trace.old ++ item_bytes (rounds.run_of round)) }
{
    let item = TraceItem::Run {
        initiator: round % INITIATORS,
        moment: u64::from(round),
    };
    trace.extend(write_item(alloc, &item)?.as_slice())
}

/// Adds a step of unit 1 in the background.
fn push_pump(alloc: Global, trace: &mut Bytes, round: u32) -> Result<(), OutOfMemory>
    ensures { OnOk result (trace.new ≡ trace.old ++ item_bytes (TraceItem.Pump 1 round)) }
{
    let item = TraceItem::Pump {
        unit: 1,
        moment: u64::from(round),
    };
    trace.extend(write_item(alloc, &item)?.as_slice())
}

/// Adds a Begin and a Run.
fn push_command(
    alloc: Global,
    trace: &mut Bytes,
    round: u32,
    unit: u16,
    cdb: Cdb,
    out: &[u8],
) -> Result<(), OutOfMemory>
    requires codes { has_codes cdb ≡ true }
    requires moved { moved cdb ≤ 2048 }
    requires data { length out.now ≤ data_limit }
    ensures { OnOk result
        (trace.new ≡ trace.old ++ flat_map item_bytes (rounds.command round unit cdb out.now)) }
{
    push_begin(alloc, trace, round, unit, cdb, out)?;
    push_run(alloc, trace, round)
}

/// Adds the commands that make a token on unit 0.
fn push_source(alloc: Global, trace: &mut Bytes, round: u32) -> Result<(), OutOfMemory>
    ensures { OnOk result (trace.new ≡ trace.old ++ flat_map item_bytes (rounds.making round)) }
{
    let range = source(round);
    let write = Cdb::Write {
        lba: range.lba,
        count: BLOCKS,
    };
    push_command(alloc, trace, round, 0, write, &data(round))?;
    let populate = Cdb::PopulateToken {
        id: round,
        length: 32,
    };
    push_command(alloc, trace, round, 0, populate, &populate_list(range))
}

/// Adds the command that writes with the token to unit 1, and a step of it in the background.
fn push_token_write(
    alloc: Global,
    config: &Config,
    trace: &mut Bytes,
    round: u32,
) -> Result<(), OutOfMemory>
    requires { config.now ≡ settings }
    ensures { OnOk result (trace.new ≡ trace.old ++ flat_map item_bytes (rounds.redeeming round)) }
{
    let write = Cdb::WriteUsingToken {
        id: round,
        length: 552,
    };
    let list = write_list(alloc, config, round)?;
    push_command(alloc, trace, round, 1, write, list.as_slice())?;
    push_run(alloc, trace, round)?;
    push_pump(alloc, trace, round)
}

/// Adds the commands that look at what became of it.
fn push_look(alloc: Global, trace: &mut Bytes, round: u32) -> Result<(), OutOfMemory>
    ensures { OnOk result (trace.new ≡ trace.old ++ flat_map item_bytes (rounds.looking round)) }
{
    let information = Cdb::TokenInformation {
        id: round,
        length: 1024,
    };
    push_command(alloc, trace, round, 1, information, &[])?;
    let read = Cdb::Read {
        lba: target(round).lba,
        count: BLOCKS,
    };
    push_command(alloc, trace, round, 1, read, &[])
}

/// Adds a round.
pub(crate) fn push_round(
    alloc: Global,
    config: &Config,
    trace: &mut Bytes,
    round: u32,
) -> Result<(), OutOfMemory>
    requires { config.now ≡ settings }
    ensures { OnOk result (trace.new ≡ trace.old ++ flat_map item_bytes (rounds.round_items round)) }
{
    push_source(alloc, trace, round)?;
    push_token_write(alloc, config, trace, round)?;
    push_look(alloc, trace, round)
}
