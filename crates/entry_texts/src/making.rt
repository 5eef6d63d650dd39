ghost use Rattle.std.specs.Io.KnownBytes.{IsAtEnd};

use crate::failed::Failed;
use cm_base::{OutOfMemory, Payload, Sink};
use cm_history::{Act, Actor, Entry};
use lba_ranges::BlockList;
use recorder::{Recorder, SinkRecorder, has_short_lists};
use std::alloc::Global;

/// So many mapped blocks of 512 bytes.
fn mapped(alloc: Global, blocks: u32) -> Result<BlockList, OutOfMemory> {
    let bytes = vec![in alloc; 0x5a; blocks as usize * 512]?;
    BlockList::from_payload(alloc, 512, blocks, Payload::from_vec(bytes)?)
}

/// Records so many Writes, each of so many blocks.
pub(crate) fn record_writes<S: Sink + Drop>(
    alloc: Global,
    count: u64,
    blocks: u32,
    sink: S,
) -> Result<(), Failed>
    requires { IsAtEnd (S.taken sink) }
{
    let mut recorder = SinkRecorder::new(alloc, sink);
    let mut entry = Entry {
        stamp: 0,
        unit: 0,
        actor: Actor::Nexus(1),
        seq: 0,
        moment: 0,
        act: Act::Write {
            lba: 0,
            list: mapped(alloc, blocks)?,
        },
    };
    if !has_short_lists(&entry.act) {
        return Err(Failed::LongList);
    }
    for stamp in 1..=count {
        entry.stamp = stamp;
        recorder.record(&entry)?;
    }
    Ok(())
}
