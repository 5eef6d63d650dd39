// Entries of each act, written and read.
ghost use Rattle.std.specs.Prelude.{◌≡◌};

use super::acts::{CODES, act, add_text};
use cm_base::{Bytes, OutOfMemory, Parsed};
use cm_history::{Act, Actor, Entry};
use recorder::{has_short_lists, read_entry, write_entry};
use std::alloc::Global;
use std::test::Fail;

/// Stamp and unit.
const STAMP_AND_UNIT: [u8; 10] = [0x01, 0x02, 0x03, 0x04, 0x05, 0x06, 0x07, 0x08, 0x09, 0x0a];

/// The number among the actor's entries, and the moment.
const SEQ_AND_MOMENT: [u8; 16] = [
    0xb1, 0xb2, 0xb3, 0xb4, 0xb5, 0xb6, 0xb7, 0xb8, 0xc1, 0xc2, 0xc3, 0xc4, 0xc5, 0xc6, 0xc7, 0xc8,
];

/// Kind and number of a nexus.
pub(crate) const NEXUS: [u8; 5] = [0, 0xd1, 0xd2, 0xd3, 0xd4];

/// Kind and number of the pump of a unit.
pub(crate) const PUMP: [u8; 5] = [1, 0, 0, 0xd3, 0xd4];

/// Adds what stands before the act in the entries of an actor.
pub(crate) fn add_head(into: &mut Bytes, actor: &[u8; 5]) -> Result<(), Fail> {
    into.extend(&STAMP_AND_UNIT)?;
    into.extend(actor)?;
    into.extend(&SEQ_AND_MOMENT)?;
    Ok(())
}

/// The text of the entry of an actor and the act of a code.
pub(crate) fn text(alloc: Global, actor: &[u8; 5], code: u8) -> Result<Bytes, Fail> {
    let mut text = Bytes::empty(alloc);
    add_head(&mut text, actor)?;
    add_text(&mut text, code)?;
    Ok(text)
}

/// The entry of an actor and an act.
pub(crate) fn entry(actor: Actor, act: Act) -> Entry
    ensures { result.act ≡ act }
{
    Entry {
        stamp: 0x0102_0304_0506_0708,
        unit: 0x090a,
        actor,
        seq: 0xb1b2_b3b4_b5b6_b7b8,
        moment: 0xc1c2_c3c4_c5c6_c7c8,
        act,
    }
}

/// The entry is written as this text.
fn is_written(alloc: Global, entry: &Entry, text: &[u8]) -> Result<bool, OutOfMemory> {
    if !has_short_lists(&entry.act) {
        return Ok(false);
    }
    let written = write_entry(alloc, entry)?;
    Ok(written.as_slice() == text)
}

/// The bytes begin with this text, and what is read of them is the entry that is written so.
pub(crate) fn is_read(alloc: Global, bytes: &[u8], text: &[u8]) -> Result<bool, OutOfMemory> {
    match read_entry(alloc, bytes)? {
        Parsed::Whole { value, used } => {
            Ok(used == text.len() && is_written(alloc, &value, text)?)
        }
        _ => Ok(false),
    }
}

/// What is written of the entry of an actor and the act of a code.
fn written(alloc: Global, actor: Actor, code: u8) -> Result<Bytes, Fail> {
    let entry = entry(actor, act(alloc, code)?);
    Ok(write_entry(alloc, &entry)?)
}

/// An entry is written as worked out, and read from its text, whatever follows.
fn is_as_worked(alloc: Global, actor: Actor, number: &[u8; 5], code: u8) -> Result<bool, Fail> {
    let mut bytes = text(alloc, number, code)?;
    let written = written(alloc, actor, code)?;
    let written = written.as_slice();
    if bytes.as_slice() != written || !is_read(alloc, written, written)? {
        return Ok(false);
    }
    bytes.extend(&[0xff; 3])?;
    Ok(is_read(alloc, bytes.as_slice(), written)?)
}

/// The bytes are too few to tell.
pub(crate) fn is_short(alloc: Global, bytes: &[u8]) -> Result<bool, OutOfMemory> {
    Ok(matches!(read_entry(alloc, bytes)?, Parsed::Short))
}

#[test]
fn entries_of_a_nexus(rt: HostRuntime) -> Result<(), Fail> {
    for code in 1..=CODES {
        let worked = is_as_worked(rt.alloc(), Actor::Nexus(0xd1d2_d3d4), &NEXUS, code)?;
        assert!(rt; worked, "act {code}");
    }
    Ok(())
}

#[test]
fn entries_of_a_pump(rt: HostRuntime) -> Result<(), Fail> {
    for code in 1..=CODES {
        let worked = is_as_worked(rt.alloc(), Actor::Pump(0xd3d4), &PUMP, code)?;
        assert!(rt; worked, "act {code}");
    }
    Ok(())
}

/// A beginning of an entry is too little to tell, but for the whole of it.
#[test]
fn beginnings_of_entries(rt: HostRuntime) -> Result<(), Fail> {
    let alloc = rt.alloc();
    for code in 1..=CODES {
        let bytes = text(alloc, &NEXUS, code)?;
        let bytes = bytes.as_slice();
        for end in 0..bytes.len() {
            assert!(rt;
                is_short(alloc, &bytes[..end])?,
                "{end} bytes of act {code}"
            );
        }
    }
    Ok(())
}
