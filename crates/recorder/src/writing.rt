ghost use Rattle.std.specs.Prelude.{◌≡◌, ◌∷◌, ◌++◌, ◌≤◌, ◌<◌, ◌^◌, [], length, IsTrue, ◌↔◌, IfOk, OnOk};
ghost use Rattle.byteorder.specs.Endian.{big_bytes};
ghost use Rattle.cm_base.specs.Fields.{flag, AreBytes};
ghost use Rattle.recorder.specs.Text.{range_bytes, ranges_bytes, blocks_text, block_limit, state_code, end_bytes, act_code, act_fields, actor_bytes, behind_actor, entry_bytes, HasShortLists, FitsRange, FitRanges, FitBlocks, FitsAct, FitsActor, IsEntry};
ghost use Rattle.recorder.specs.Reading.{read_entry};
ghost use Rattle.cm_history.specs.declared.act.Act.{Act};
ghost use Rattle.cm_base.specs.declared.parsed.Parsed.TheVariants.{Whole};

use crate::groups::write_blocks;
use crate::text::Text;
use cm_base::{Bytes, OutOfMemory, set_u16, set_u32, set_u64};
use cm_history::{Act, Actor, CopyEnd, CopyState, Entry, TokenText};
use lba_ranges::{BlockList, Range, RangeList};
use std::alloc::Global;

fn write_u8(into: &mut Text, number: u8) -> Result<(), OutOfMemory>
    ensures { OnOk result (into.new ≡ into.old ++ number ∷ []) }
{
    into.extend(&[number])
}

fn write_u16(into: &mut Text, number: u16) -> Result<(), OutOfMemory>
    ensures { OnOk result (into.new ≡ into.old ++ big_bytes 2 number) }
{
    let mut bytes = [0; 2];
    set_u16(&mut bytes, 0, number);
    into.extend(&bytes)
}

fn write_u32(into: &mut Text, number: u32) -> Result<(), OutOfMemory>
    ensures { OnOk result (into.new ≡ into.old ++ big_bytes 4 number) }
{
    let mut bytes = [0; 4];
    set_u32(&mut bytes, 0, number);
    into.extend(&bytes)
}

fn write_u64(into: &mut Text, number: u64) -> Result<(), OutOfMemory>
    ensures { OnOk result (into.new ≡ into.old ++ big_bytes 8 number) }
{
    let mut bytes = [0; 8];
    set_u64(&mut bytes, 0, number);
    into.extend(&bytes)
}

/// A range: LBA, number of blocks.
fn range_text(range: Range) -> [u8; 12]
    ensures text { result ≡ range_bytes range }
    ensures fits { FitsRange range }
{
    let mut bytes = [0; 12];
    set_u64(&mut bytes, 0, range.lba);
    set_u32(&mut bytes, 8, range.count);
    bytes
}

/// Adds the number of ranges, and the ranges.
fn write_ranges(into: &mut Text, ranges: &RangeList) -> Result<(), OutOfMemory>
    ensures written { OnOk result (into.new ≡ into.old ++ ranges_bytes ranges.now) }
    ensures fits { OnOk result (FitRanges ranges.now) }
{
    write_u8(into, ranges.len() as u8)?;
    for index in 0..ranges.len() {
        into.extend(&range_text(ranges.at(index)))?;
    }
    Ok(())
}

/// Adds a LBA and a number of blocks.
fn write_extent(into: &mut Text, lba: u64, count: u32) -> Result<(), OutOfMemory>
    ensures { OnOk result (into.new ≡ into.old ++ (big_bytes 8 lba ++ big_bytes 4 count)) }
{
    into.extend(&range_text(Range { lba, count }))
}

/// Adds a LBA and the blocks from it on.
fn write_list(into: &mut Text, lba: u64, list: &BlockList) -> Result<(), OutOfMemory>
    requires { length list.now.items ≤ block_limit }
    ensures written { OnOk result (into.new ≡ into.old ++ (big_bytes 8 lba ++ blocks_text list.now)) }
    ensures fits { OnOk result (AreBytes (blocks_text list.now) → FitBlocks list.now) }
{
    write_u64(into, lba)?;
    write_blocks(into, list)
}

fn write_populate(
    into: &mut Text,
    id: u32,
    timeout: u32,
    ranges: &RangeList,
) -> Result<(), OutOfMemory>
    ensures written { OnOk result (into.new
        ≡ into.old ++ (big_bytes 4 id ++ big_bytes 4 timeout ++ ranges_bytes ranges.now)) }
    ensures fits { OnOk result (FitRanges ranges.now) }
{
    write_u32(into, id)?;
    write_u32(into, timeout)?;
    write_ranges(into, ranges)
}

fn write_redeem(into: &mut Text, text: &TokenText, target: u16) -> Result<(), OutOfMemory>
    ensures written { OnOk result (into.new ≡ into.old ++ (text.now ++ big_bytes 2 target)) }
    ensures fits { (length text.now ≡ 512) × (target < 2 ^ 16) }
{
    into.extend(text.bytes())?;
    write_u16(into, target)
}

fn write_start(
    into: &mut Text,
    id: u32,
    background: bool,
    ranges: &RangeList,
    rod: &BlockList,
) -> Result<(), OutOfMemory>
    requires { length rod.now.items ≤ block_limit }
    ensures written { OnOk result (into.new ≡ into.old
        ++ (big_bytes 4 id ++ flag background ∷ ranges_bytes ranges.now ++ blocks_text rod.now)) }
    ensures id { id < 2 ^ 32 }
    ensures ranges { OnOk result (FitRanges ranges.now) }
    ensures rod { OnOk result (AreBytes (blocks_text rod.now) → FitBlocks rod.now) }
{
    write_u32(into, id)?;
    write_u8(into, u8::from(background))?;
    write_ranges(into, ranges)?;
    write_blocks(into, rod)
}

/// The state of a copy's end.
fn state_code(state: CopyState) -> u8
    ensures { result ≡ state_code state }
{
    match state {
        CopyState::Running => 0,
        CopyState::Done => 1,
        CopyState::Failed => 2,
        CopyState::Terminated => 3,
    }
}

fn write_close(into: &mut Text, id: u8, end: CopyEnd) -> Result<(), OutOfMemory>
    ensures written { OnOk result (into.new ≡ into.old ++ id ∷ end_bytes end) }
    ensures fits { FitsAct (Act.Close id end) }
{
    let mut bytes = [0; 8];
    bytes[0] = id;
    bytes[1] = state_code(end.state);
    set_u16(&mut bytes, 2, end.segments);
    set_u32(&mut bytes, 4, end.bytes);
    into.extend(&bytes)
}

fn write_out(
    into: &mut Text,
    action: u8,
    scope: u8,
    kind: u8,
    key: u64,
    action_key: u64,
) -> Result<(), OutOfMemory>
    ensures written { OnOk result (into.new ≡ into.old ++ act_fields (Act.PrOut action scope kind key action_key)) }
    ensures fits { FitsAct (Act.PrOut action scope kind key action_key) }
{
    let mut bytes = [0; 19];
    bytes[0] = action;
    bytes[1] = scope;
    bytes[2] = kind;
    set_u64(&mut bytes, 3, key);
    set_u64(&mut bytes, 11, action_key);
    into.extend(&bytes)
}

/// The code of an act, 1 to 21.
fn act_code(act: &Act) -> u8
    ensures { result ≡ act_code act.now }
{
    match *act {
        Act::Read { .. } => 0x01,
        Act::Write { .. } => 0x02,
        Act::Unmap { .. } => 0x03,
        Act::MapStatus { .. } => 0x04,
        Act::Populate { .. } => 0x05,
        Act::Redeem { .. } => 0x06,
        Act::Delete { .. } => 0x07,
        Act::Start { .. } => 0x08,
        Act::Advance { .. } => 0x09,
        Act::Pump => 0x0a,
        Act::End { .. } => 0x0b,
        Act::Abort { .. } => 0x0c,
        Act::Report { .. } => 0x0d,
        Act::Capture { .. } => 0x0e,
        Act::Put { .. } => 0x0f,
        Act::Open { .. } => 0x10,
        Act::Close { .. } => 0x11,
        Act::Recall { .. } => 0x12,
        Act::PrOut { .. } => 0x13,
        Act::PrKeys => 0x14,
        Act::PrHolder => 0x15,
    }
}

/// Adds the fields of an act, in their order and width.
fn write_fields(into: &mut Text, act: &Act) -> Result<(), OutOfMemory>
    requires { HasShortLists act.now }
    ensures written { OnOk result (into.new ≡ into.old ++ act_fields act.now) }
    ensures fits { OnOk result (AreBytes (act_fields act.now) → FitsAct act.now) }
{
    match *act {
        Act::Read { lba, count } => write_extent(into, lba, count),
        Act::Write { lba, ref list } => write_list(into, lba, list),
        Act::Unmap { ref ranges } => write_ranges(into, ranges),
        Act::MapStatus { lba } => write_u64(into, lba),
        Act::Populate {
            id,
            timeout,
            ref ranges,
        } => write_populate(into, id, timeout, ranges),
        Act::Redeem { ref text, target } => write_redeem(into, text, target),
        Act::Delete { serial } => write_u64(into, serial),
        Act::Start {
            id,
            background,
            ref ranges,
            ref rod,
        } => write_start(into, id, background, ranges, rod.list()),
        Act::Advance { id } => write_u32(into, id),
        Act::Pump => Ok(()),
        Act::End { id } => write_u32(into, id),
        Act::Abort { id } => write_u32(into, id),
        Act::Report { id } => write_u32(into, id),
        Act::Capture { lba, count } => write_extent(into, lba, count),
        Act::Put { lba, ref list } => write_list(into, lba, list),
        Act::Open { id } => write_u8(into, id),
        Act::Close { id, result } => write_close(into, id, result),
        Act::Recall { id } => write_u8(into, id),
        Act::PrOut {
            action,
            scope,
            kind,
            key,
            action_key,
        } => write_out(into, action, scope, kind, key, action_key),
        Act::PrKeys | Act::PrHolder => Ok(()),
    }
}

/// Adds the kind of an actor, and its number in four bytes.
fn write_actor(into: &mut Text, actor: Actor) -> Result<(), OutOfMemory>
    ensures written { OnOk result (into.new ≡ into.old ++ actor_bytes actor) }
    ensures fits { FitsActor actor }
{
    let (kind, number) = match actor {
        Actor::Nexus(nexus) => (0x00, nexus),
        Actor::Pump(unit) => (0x01, u32::from(unit)),
    };
    write_u8(into, kind)?;
    write_u32(into, number)
}

/// What stands before the fields of an act: seq, moment, code.
fn act_head(seq: u64, moment: u64, code: u8) -> [u8; 17]
    ensures written { result ≡ big_bytes 8 seq ++ big_bytes 8 moment ++ code ∷ [] }
    ensures fits { (seq < 2 ^ 64) × (moment < 2 ^ 64) }
{
    let mut head = [0; 17];
    set_u64(&mut head, 0, seq);
    set_u64(&mut head, 8, moment);
    head[16] = code;
    head
}

/// Adds the number of the actor's act, the moment, and the act.
fn write_behind(into: &mut Text, entry: &Entry) -> Result<(), OutOfMemory>
    requires { HasShortLists entry.now.act }
    ensures written { OnOk result (into.new ≡ into.old ++ behind_actor entry.now) }
    ensures numbers { (entry.now.seq < 2 ^ 64) × (entry.now.moment < 2 ^ 64) }
    ensures fits { OnOk result (AreBytes (act_fields entry.now.act) → FitsAct entry.now.act) }
{
    let code = act_code(&entry.act);
    into.extend(&act_head(entry.seq, entry.moment, code))?;
    write_fields(into, &entry.act)
}

/// The text of an entry, in parts.
pub(crate) fn entry_text(alloc: Global, entry: &Entry) -> Result<Text, OutOfMemory>
    requires { HasShortLists entry.now.act }
    ensures written { IfOk result (λ text. text ≡ entry_bytes entry.now) }
    ensures fits { OnOk result (IsEntry entry.now) }
{
    let mut text = Text::empty(alloc);
    write_u64(&mut text, entry.stamp)?;
    write_u16(&mut text, entry.unit)?;
    write_actor(&mut text, entry.actor)?;
    write_behind(&mut text, entry)?;
    text.sound();
    Ok(text)
}

/// It has at most 1,048,576 blocks.
fn is_short(list: &BlockList) -> bool
    ensures { IsTrue result ↔ (length list.now.items ≤ block_limit) }
{
    list.blocks() <= 1_048_576
}

/// No list of the act's blocks has more than 1,048,576 blocks, so that its entry may be written. It takes no memory.
pub fn has_short_lists(act: &Act) -> bool
    ensures { IsTrue result ↔ HasShortLists act.now }
{
    match act {
        Act::Write { list, .. } => is_short(list),
        Act::Put { list, .. } => is_short(list),
        Act::Start { rod, .. } => is_short(rod.list()),
        _ => true,
    }
}

/// The text of an entry (own profile): stamp 8 bytes, unit 2, kind of the actor 1, its number 4, seq 8,
/// moment 8, code of the act 1, and the fields of the act. No list of its blocks has more than
/// 1,048,576 blocks.
pub fn write_entry(alloc: Global, entry: &Entry) -> Result<Bytes, OutOfMemory>
    requires { HasShortLists entry.now.act }
    ensures written { IfOk result (λ text. text ≡ entry_bytes entry.now) }
    ensures fits { IfOk result (λ text. IsEntry entry.now) }
    ensures read_back { IfOk result (λ text. read_entry text ≡ Whole entry.now (length text)) }
{
    let text = entry_text(alloc, entry)?;
    let bytes = text.gathered(alloc)?;
    Ok(bytes)
}
