// What is done to the map of blocks. Room for a block is an entry without bytes.
ghost use Rattle.std.specs.Prelude.{◌≡◌, ℕ, ◌+◌, ◌<◌, ◌≤◌, ◌^◌, length, get_or, None, IsSome, IfOk, OnOk, OnErr, IfSome, IfNone, is_some, if◌then◌else◌, ◌==◌, ◌&&◌, nat_le, nat_lt, false, true, Some};
ghost use Rattle.lun_plain.specs.Plain.{stored};
ghost use Rattle.lun_plain.specs.inner.Plain.{seen, is_among};
ghost use Rattle.lba_ranges.specs.Denoted.{row, has_repeat};
ghost use Rattle.lba_ranges.specs.Writings.{paired, unmapped, after, mapped_among};

use cm_base::{OutOfMemory, Payload};
use std::collections::BTreeMap;

pub(crate) type Stored = BTreeMap<u64, Payload>;

/// Makes room for a block. What it holds is as before.
fn make_room(map: &mut Stored, block: u64) -> Result<(), OutOfMemory>
    ensures room { OnOk result (IsSome (stored map.new.entries block)) }
    ensures same { (b : ℕ) → seen (stored map.new.entries b) ≡ seen (stored map.old.entries b) }
    ensures others { (b : ℕ) → (b == block) ≡ false → stored map.new.entries b ≡ stored map.old.entries b }
    ensures kept { (b : ℕ) → IsSome (stored map.old.entries b) → IsSome (stored map.new.entries b) }
{
    map.entry(block)?.or_insert(Payload::new());
    Ok(())
}

/// Makes room for each of the blocks. At `OutOfMemory` some of them have room.
pub(crate) fn make_rooms(map: &mut Stored, blocks: &[u64]) -> Result<(), OutOfMemory>
    ensures room { OnOk result ((k : ℕ) → k < length blocks.now → IsSome (stored map.new.entries (get_or blocks.now k 0))) }
    ensures same { (b : ℕ) → seen (stored map.new.entries b) ≡ seen (stored map.old.entries b) }
    ensures others { (b : ℕ) → is_among b blocks.now ≡ false → stored map.new.entries b ≡ stored map.old.entries b }
{
    for block in blocks {
        make_room(map, *block)?;
    }
    Ok(())
}

/// Takes out room that no bytes were put into.
fn drop_room(map: &mut Stored, block: u64)
    ensures { (b : ℕ) → stored map.new.entries b ≡ (if b == block then seen (stored map.old.entries b) else stored map.old.entries b) }
{
    let is_room = match map.get(&block) {
        Some(bytes) => bytes.is_empty(),
        None => false,
    };
    if is_room {
        map.remove(&block);
    }
}

/// Takes out the rooms of these blocks that no bytes were put into.
pub(crate) fn drop_rooms(map: &mut Stored, blocks: &[u64])
    ensures { (b : ℕ) → stored map.new.entries b
        ≡ (if is_among b blocks.now then seen (stored map.old.entries b) else stored map.old.entries b) }
{
    for block in blocks {
        drop_room(map, *block);
    }
}

/// Gives a block, for which there is room, what it is to hold.
fn set(map: &mut Stored, block: u64, item: Option<Payload>)
    requires { IsSome (stored map.old.entries block) }
    ensures { (b : ℕ) → stored map.new.entries b ≡ (if block == b then item else stored map.old.entries b) }
{
    match item {
        Some(bytes) => {
            // no room is wanted
            let was: Result<_, _> = map.insert(block, bytes);
            let _ = was.unwrap();
        }
        None => {
            map.remove(&block);
        }
    }
}

/// Gives each of the blocks, for which there is room, the item at its place.
pub(crate) fn set_all(map: &mut Stored, blocks: &[u64], items: Vec<Option<Payload>>)
    requires room { (k : ℕ) → k < length blocks.now → IsSome (stored map.old.entries (get_or blocks.now k 0)) }
    requires apart { has_repeat blocks.now ≡ false }
    requires total { length blocks.now ≡ length items.items }
    ensures { (b : ℕ) → stored map.new.entries b ≡ after (paired blocks.now items.items) b (stored map.old.entries b) }
{
    let mut place = 0;
    for item in items {
        set(map, blocks[place], item);
        place += 1;
    }
}

/// The first block of a row that is stored.
pub(crate) fn first_of(map: &Stored, from: u64, to: u64) -> Option<u64>
    requires { from ≤ to }
    ensures found { IfSome result (λ block. (from ≤ block) × (block < to) × IsSome (stored map.now.entries block)) }
    ensures before { IfSome result (λ block. (b : ℕ) → from ≤ b → b < block → stored map.now.entries b ≡ None) }
    ensures none { IfNone result ((b : ℕ) → from ≤ b → b < to → stored map.now.entries b ≡ None) }
{
    match map.range(from..to).next() {
        Some((block, _)) => Some(*block),
        None => None,
    }
}

/// How many blocks of a row are stored.
pub(crate) fn stored_in(map: &Stored, lba: u64, count: u32) -> u64
    requires { lba + count < 2 ^ 64 }
    ensures { result ≡ mapped_among (stored map.now.entries) (row lba count) }
{
    map.range(lba..lba + u64::from(count)).count() as u64
}

/// Unmaps a row of blocks.
pub(crate) fn clear_row(map: &mut Stored, lba: u64, count: u32)
    requires { lba + count < 2 ^ 64 }
    ensures { (b : ℕ) → stored map.new.entries b ≡ after (unmapped (row lba count)) b (stored map.old.entries b) }
{
    let end = lba + u64::from(count);
    while let Some(block) = first_of(map, lba, end) {
        map.remove(&block);
    }
}

/// The end of the run of blocks that are stored.
pub(crate) fn end_of_run(map: &Stored, from: u64, to: u64) -> u64
    requires row { from < to }
    requires stored { IsSome (stored map.now.entries from) }
    ensures some { from < result }
    ensures within { result ≤ to }
    ensures alike { (b : ℕ) → from ≤ b → b < result → IsSome (stored map.now.entries b) }
    ensures ends { result < to → stored map.now.entries result ≡ None }
{
    let mut end = from + 1;
    while end < to && map.contains_key(&end) {
        end += 1;
    }
    end
}
