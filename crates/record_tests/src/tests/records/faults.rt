// Entries with a field that breaks its limit.
use super::entries::{NEXUS, PUMP, is_short, text};
use cm_base::{OutOfMemory, Parsed};
use recorder::read_entry;
use std::alloc::Global;
use std::test::Fail;

/// The field from `place` on, of `width` bytes, breaks its limit once the byte at `changed` is this one.
#[derive(Clone, Copy)]
struct Fault {
    place: usize,
    width: usize,
    changed: usize,
    byte: u8,
}

/// A field of one byte.
fn byte(place: usize, byte: u8) -> Fault {
    Fault {
        place,
        width: 1,
        changed: place,
        byte,
    }
}

/// A number of four bytes, of which one is changed.
fn number(place: usize, changed: usize, byte: u8) -> Fault {
    Fault {
        place,
        width: 4,
        changed,
        byte,
    }
}

/// The code of an act, the place of a byte in the text of a nexus's entry, and what it may not be.
const BYTES: [(u8, usize, u8); 17] = [
    // the kind of the actor
    (1, 10, 2),
    (10, 10, 0xff),
    // the code of the act
    (1, 31, 0),
    (1, 31, 22),
    (10, 31, 0xff),
    // whether an operation is in the background
    (8, 36, 2),
    // the number of ranges
    (3, 32, 65),
    (5, 40, 65),
    (8, 37, 65),
    // the kind of a group, of which the first holds bytes
    (2, 52, 2),
    (2, 61, 1),
    (2, 61, 2),
    (15, 66, 0),
    (8, 74, 0xff),
    (8, 83, 1),
    // the state of a copy's end
    (17, 33, 4),
    (17, 33, 0xff),
];

/// The code of an act, the place of the count of a group in the text of a nexus's entry, and that of its last byte,
/// which may not be 0.
const COUNTS: [(u8, usize, usize); 4] = [(2, 48, 51), (2, 57, 60), (15, 62, 65), (8, 70, 73)];

/// The text of an entry, with the byte changed.
fn broken(alloc: Global, actor: &[u8; 5], code: u8, fault: Fault) -> Result<Vec<u8>, Fail> {
    let mut bytes = text(alloc, actor, code)?.into_vec();
    if let Some(byte) = bytes.get_mut(fault.changed) {
        *byte = fault.byte;
    }
    Ok(bytes)
}

/// A fault is found in the bytes, at this place.
fn is_bad(alloc: Global, bytes: &[u8], at: usize) -> Result<bool, OutOfMemory> {
    match read_entry(alloc, bytes)? {
        Parsed::Bad { place } => Ok(place == at as u64),
        _ => Ok(false),
    }
}

/// The fault is found as soon as all of its field is there, and then whatever follows.
fn is_found(alloc: Global, bytes: &[u8], fault: Fault) -> Result<bool, OutOfMemory> {
    for end in 0..=bytes.len() {
        let front = &bytes[..end];
        let found = if end < fault.place.saturating_add(fault.width) {
            is_short(alloc, front)?
        } else {
            is_bad(alloc, front, fault.place)?
        };
        if !found {
            return Ok(false);
        }
    }
    Ok(true)
}

#[test]
fn bytes_at_fault(rt: HostRuntime) -> Result<(), Fail> {
    for (code, place, value) in BYTES {
        let fault = byte(place, value);
        let bytes = broken(rt.alloc(), &NEXUS, code, fault)?;
        assert!(rt; is_found(rt.alloc(), &bytes, fault)?, "{value} at {place}");
    }
    Ok(())
}

#[test]
fn counts_at_fault(rt: HostRuntime) -> Result<(), Fail> {
    for (code, place, changed) in COUNTS {
        let fault = number(place, changed, 0);
        let bytes = broken(rt.alloc(), &NEXUS, code, fault)?;
        assert!(rt; is_found(rt.alloc(), &bytes, fault)?, "count at {place}");
    }
    Ok(())
}

/// The number of a pump is that of a unit, of two bytes.
#[test]
fn numbers_of_pumps_at_fault(rt: HostRuntime) -> Result<(), Fail> {
    for (changed, value) in [(12, 1), (11, 0x80)] {
        let fault = number(11, changed, value);
        let bytes = broken(rt.alloc(), &PUMP, 10, fault)?;
        assert!(rt;
            is_found(rt.alloc(), &bytes, fault)?,
            "{value} at {changed}"
        );
    }
    Ok(())
}

/// Of two faults the first is told.
#[test]
fn the_first_of_two_faults(rt: HostRuntime) -> Result<(), Fail> {
    let mut bytes = broken(rt.alloc(), &NEXUS, 2, byte(61, 1))?;
    if let Some(byte) = bytes.get_mut(66) {
        *byte = 0;
    }
    assert!(rt; is_bad(rt.alloc(), &bytes, 61)?);
    Ok(())
}
