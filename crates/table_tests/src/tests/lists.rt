// Lists of blocks, as the tests make them.
ghost use Rattle.std.specs.Prelude.{◌≡◌, ◌*◌, length, IfOk};

use cm_base::{Bytes, Payload};
use lba_ranges::{BlockList, Fill, Piece};
use std::alloc::Global;
use std::test::Fail;

/// Blocks of the longest list of a test.
const MOST: u64 = 64;

/// The list is not to be as long as that.
fn too_long() -> Fail {
    Fail::new("more blocks than a test needs")
}

/// So many blocks of so many bytes.
pub(super) fn list_of(
    alloc: Global,
    count: u32,
    block_length: u32,
    bytes: &[u8],
) -> Result<BlockList, Fail>
    requires { length bytes.now ≡ count * block_length }
    ensures { IfOk result (λ list. list.block_length ≡ block_length) }
{
    let payload = Payload::copy_from_slice(alloc, bytes)?;
    Ok(BlockList::from_payload(alloc, block_length, count, payload)?)
}

/// Adds a hole of so many blocks.
pub(super) fn add_hole(list: &mut BlockList, count: u32) -> Result<(), Fail>
    ensures { list.new.block_length ≡ list.old.block_length }
{
    if list.blocks() > MOST {
        return Err(too_long());
    }
    list.push(Piece {
        count,
        fill: Fill::Hole,
    })?;
    Ok(())
}

/// Adds the blocks of another list, which have as many bytes.
pub(super) fn append(list: &mut BlockList, more: BlockList) -> Result<(), Fail>
    requires { more.block_length ≡ list.old.block_length }
    ensures { list.new.block_length ≡ list.old.block_length }
{
    if list.blocks() > MOST || more.blocks() > MOST {
        return Err(too_long());
    }
    list.append(more)?;
    Ok(())
}

/// So many blocks of a list, from a place on.
pub(super) fn part(
    alloc: Global,
    list: &BlockList,
    from: u64,
    count: u64,
) -> Result<BlockList, Fail> {
    let blocks = list.blocks();
    if from > blocks || count > blocks - from {
        return Err(Fail::new("no such part"));
    }
    Ok(list.slice(alloc, from, count)?)
}

/// The blocks have these bytes, and 0 where they are unmapped.
pub(super) fn reads(alloc: Global, list: &BlockList, bytes: &[u8]) -> Result<bool, Fail> {
    let mut read = Bytes::empty(alloc);
    list.read_into(&mut read)?;
    Ok(read.as_slice() == bytes)
}
