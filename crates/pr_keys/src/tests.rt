use crate::rows::{ASKED, ROWS, Row};
use crate::{
    OutList, PrRefused, PrState, holder_data, keys_data, read_out_list, sound_law, write_out_list,
};
use cm_base::{Bytes, Holder, KeyList};
use scsi_sense::Sense;
use std::alloc::Global;
use std::test::Fail;

/// The nexus that asks, and the two others of the table.
const NEXUSES: [u32; 3] = [1, 2, 3];

/// What a nexus asks, as the table spells it.
fn apply(unit: &mut PrState, nexus: u8, asked: &[u8; 5]) -> Result<(), PrRefused> {
    let [action, scope, kind, key, action_key] = *asked;
    unit.apply(
        u32::from(nexus),
        action,
        scope,
        kind,
        u64::from(key),
        u64::from(action_key),
    )
}

/// The code of a sense in the table.
fn sense_code(sense: Sense) -> u8 {
    match sense.asc() {
        0x24 => 2,
        0x26 => 3,
        _ => 4,
    }
}

/// The code of a refusal in the table.
fn refusal_code(refused: PrRefused) -> u8 {
    match refused {
        PrRefused::Conflict => 1,
        PrRefused::Refused(sense) => sense_code(sense),
        PrRefused::OutOfMemory => 5,
    }
}

/// The code of an outcome in the table.
fn outcome(done: Result<(), PrRefused>) -> u8 {
    match done {
        Ok(()) => 0,
        Err(refused) => refusal_code(refused),
    }
}

/// A number in a byte of the table.
fn byte_of(number: u64) -> u8 {
    u8::try_from(number).unwrap_or(0xff)
}

/// Two bits: whether the nexus may read, and write.
fn rights_of(unit: &PrState, nexus: u32) -> u8 {
    u8::from(unit.may(nexus, false)) | u8::from(unit.may(nexus, true)) << 1
}

/// Three pairs of bits: whether each nexus may read, and write.
fn rights(unit: &PrState) -> u8 {
    let [first, second, third] = NEXUSES;
    rights_of(unit, first) | rights_of(unit, second) << 2 | rights_of(unit, third) << 4
}

/// Adds what is told of a unit.
fn tell(unit: &PrState, told: &mut Bytes) -> Result<(), Fail> {
    let keys = unit.keys()?;
    told.push(byte_of(u64::from(unit.generation())))?;
    told.push(byte_of(keys.len() as u64))?;
    for place in 0..3 {
        let key = keys.as_slice().get(place).copied().unwrap_or(0);
        told.push(byte_of(key))?;
    }
    let (key, kind) = match unit.holder() {
        Some(holder) => (holder.key, holder.kind),
        None => (0, 0),
    };
    told.push(byte_of(key))?;
    told.push(kind)?;
    told.push(rights(unit))?;
    Ok(())
}

/// A unit after these steps.
fn unit_after(alloc: Global, steps: &[(u8, [u8; 5])]) -> Result<PrState, PrRefused> {
    let mut unit = PrState::new(alloc);
    for (nexus, asked) in steps {
        apply(&mut unit, *nexus, asked)?;
    }
    Ok(unit)
}

/// What a row tells, worked out by the crate.
fn told(alloc: Global, row: &Row) -> Result<Bytes, Fail> {
    let mut told = Bytes::empty(alloc);
    for asked in &ASKED {
        let mut unit = unit_after(alloc, row.steps)?;
        told.push(outcome(apply(&mut unit, 1, asked)))?;
        tell(&unit, &mut told)?;
    }
    Ok(told)
}

/// A digit of hex text.
fn digit(code: u8) -> u8 {
    match code {
        b'0'..=b'9' => code.wrapping_sub(b'0'),
        _ => code.wrapping_sub(b'a').wrapping_add(10),
    }
}

/// The bytes are spelled by the text.
fn are_spelled(bytes: &[u8], text: &str) -> bool {
    let text = text.as_bytes();
    text.len() == bytes.len().wrapping_mul(2)
        && text.chunks(2).zip(bytes).all(|(digits, byte)| {
            digits.iter().fold(
                0u8,
                |high, low| high.wrapping_mul(16).wrapping_add(digit(*low)),
            ) == *byte
        })
}

#[test]
fn each_action_in_each_state(rt: HostRuntime) -> Result<(), Fail> {
    for row in &ROWS {
        let bytes = told(rt.alloc(), row)?;
        assert!(rt; are_spelled(bytes.as_slice(), row.told));
    }
    Ok(())
}

/// Registers a nexus by a key of its own.
fn register(unit: &mut PrState, nexus: u32) -> Result<(), PrRefused> {
    unit.apply(nexus, 0x00, 0, 0, 0, u64::from(nexus).wrapping_add(1))
}

/// Gives a registered nexus another key.
fn change_key(unit: &mut PrState, nexus: u32, key: u64) -> Result<(), PrRefused> {
    unit.apply(nexus, 0x06, 0, 0, 0, key)
}

/// Ends all registrations, as a nexus with this key asks.
fn clear(unit: &mut PrState, nexus: u32, key: u64) -> Result<(), PrRefused> {
    unit.apply(nexus, 0x03, 0, 0, key, 0)
}

/// A unit where the nexuses 0 to 63 are registered.
fn full_unit(alloc: Global) -> Result<PrState, PrRefused> {
    let mut unit = PrState::new(alloc);
    for nexus in 0..64 {
        register(&mut unit, nexus)?;
    }
    Ok(unit)
}

/// How many nexuses are registered.
fn registered(unit: &PrState) -> Result<usize, Fail> {
    let keys = unit.keys()?;
    Ok(keys.len())
}

/// The key of the nexus that registered last.
fn last_key(unit: &PrState) -> Result<Option<u64>, Fail> {
    let keys = unit.keys()?;
    Ok(keys.as_slice().last().copied())
}

/// The sixty-fifth finds no room, and a registered nexus may still change its key.
#[test]
fn sixty_four_nexuses_register(rt: HostRuntime) -> Result<(), Fail> {
    let mut unit = full_unit(rt.alloc())?;
    assert!(rt; outcome(register(&mut unit, 64)) == 4);
    assert!(rt; registered(&unit)? == 64);
    assert!(rt; unit.generation() == 64);
    change_key(&mut unit, 63, 0xcafe)?;
    assert!(rt; last_key(&unit)? == Some(0xcafe));
    Ok(())
}

/// After a CLEAR there is room for all.
#[test]
fn cleared_unit_has_room(rt: HostRuntime) -> Result<(), Fail> {
    let mut unit = full_unit(rt.alloc())?;
    clear(&mut unit, 0, 1)?;
    assert!(rt; registered(&unit)? == 0);
    register(&mut unit, 64)?;
    Ok(())
}

/// Two keys.
const LIST: OutList = OutList {
    key: 0x1234,
    action_key: 0x5678,
};

/// The list of them, as it was worked out by hand from SPC-4.
static SPELLED: [u8; 24] = [
    0, 0, 0, 0, 0, 0, 0x12, 0x34, 0, 0, 0, 0, 0, 0, 0x56, 0x78, 0, 0, 0, 0, 0, 0, 0, 0,
];

/// The list is spelled by these bytes.
fn is_written_as(list: OutList, bytes: &[u8; 24]) -> bool {
    write_out_list(list) == *bytes
}

/// The list is what is read from these bytes.
fn is_read_from(list: OutList, bytes: &[u8]) -> bool {
    read_out_list(bytes) == Ok(list)
}

/// The bytes are refused by this sense.
fn is_refused_by(sense: Sense, bytes: &[u8]) -> bool {
    read_out_list(bytes) == Err(sense)
}

#[test]
fn list_of_the_standard(rt: HostRuntime) {
    assert!(rt; is_written_as(LIST, &SPELLED));
    assert!(rt; is_read_from(LIST, &SPELLED));
    assert!(rt; is_refused_by(Sense::parameter_list_length_error(), &SPELLED[..23]));
}

/// The reservation of the nexus with the first key.
const HELD: Holder = Holder {
    key: 0x1234,
    kind: 1,
};

/// The data as they were worked out by hand from SPC-4: of one key, and of a reservation.
static ONE_KEY: [u8; 16] = [0, 0, 0, 1, 0, 0, 0, 8, 0, 0, 0, 0, 0, 0, 0x12, 0x34];

static RESERVED: [u8; 24] = [
    0, 0, 0, 1, 0, 0, 0, 16, 0, 0, 0, 0, 0, 0, 0x12, 0x34, 0, 0, 0, 0, 0, 1, 0, 0,
];

static UNRESERVED: [u8; 8] = [0, 0, 0, 2, 0, 0, 0, 0];

/// READ KEYS tells these bytes where one nexus is registered.
fn tells_key(alloc: Global, generation: u32, key: u64, bytes: &[u8]) -> Result<bool, Fail> {
    let keys = KeyList::copy(alloc, &[key])?;
    let data = keys_data(alloc, generation, &keys)?;
    Ok(data.as_slice() == bytes)
}

/// READ RESERVATION tells these bytes.
fn tells_holder(
    alloc: Global,
    generation: u32,
    holder: Option<Holder>,
    bytes: &[u8],
) -> Result<bool, Fail> {
    let data = holder_data(alloc, generation, holder)?;
    Ok(data.as_slice() == bytes)
}

#[test]
fn data_of_the_standard(rt: HostRuntime) -> Result<(), Fail> {
    assert!(rt; tells_key(rt.alloc(), 1, 0x1234, &ONE_KEY)?);
    assert!(rt; tells_holder(rt.alloc(), 1, Some(HELD), &RESERVED)?);
    assert!(rt; tells_holder(rt.alloc(), 2, None, &UNRESERVED)?);
    Ok(())
}

/// A holder that preempts by its own key stays registered and takes the new type; its next key is told.
#[test]
fn holder_preempts_by_its_own_key(rt: HostRuntime) -> Result<(), Fail> {
    let mut unit = PrState::new(rt.alloc());
    unit.apply(7, 0x00, 0, 0, 0, 0xa1)?;
    unit.apply(7, 0x01, 0, 1, 0xa1, 0)?;
    unit.apply(7, 0x04, 0, 3, 0xa1, 0xa1)?;
    assert!(rt; unit.holder() == Some(Holder { key: 0xa1, kind: 3 }));
    unit.apply(7, 0x00, 0, 0, 0xa1, 0xe5)?;
    assert!(rt; unit.holder() == Some(Holder { key: 0xe5, kind: 3 }));
    assert!(rt; unit.keys()?.len() == 1 && unit.generation() == 3);
    assert!(rt; unit.copy()?.holder() == unit.holder());
    sound_law();
    Ok(())
}
