ghost use Rattle.std.specs.Prelude.{◌≡◌, ◌≤◌, ◌+◌, ◌*◌, length, drop, IfOk};
ghost use Rattle.cm_base.specs.declared.config.UnitConfig.{UnitConfig};
ghost use Rattle.cm_frame.specs.Grammar.{unit_bytes, header_bytes};
ghost use Rattle.cm_frame.specs.Reading.{first_broken, unit_checks, unit_in, units_in, units_fault, read_header};
ghost use Rattle.cm_frame.specs.Laws.{IfWhole};

use cm_base::{
    Bytes, Config, OutOfMemory, Parsed, UnitConfig, UnitList, get_u16, get_u24, get_u32, get_u64,
    set_u32, set_u64,
};
use std::alloc::Global;

/// The bytes that each header begins with.
const TEXT: [u8; 8] = *b"CMTRACE1";

/// Bytes before the units.
const FRONT: usize = 42;

/// Bytes that tell one unit.
const UNIT: usize = 32;

/// Reads the header at the front of some bytes (own profile): a text, a secret, the number of
/// units, and each unit in 32 bytes.
///
/// The text and the number are judged when 42 bytes are there, and the units when all of them
/// are. The place of a fault is the first byte of the first field that breaks its limit.
pub fn read_header(alloc: Global, bytes: &[u8]) -> Result<Parsed<Config>, OutOfMemory>
    ensures value { IfOk result (λ p. p ≡ read_header bytes.now) }
    ensures within { IfOk result (λ p. IfWhole p (λ config used. used ≤ length bytes.now)) }
{
    if bytes.len() < FRONT {
        return Ok(Parsed::Short);
    }
    if !bytes.starts_with(&TEXT) {
        return Ok(Parsed::Bad { place: 0 });
    }
    let count = get_u16(bytes, 40);
    if !matches!(count, 1..=16) {
        return Ok(Parsed::Bad { place: 40 });
    }
    let count = usize::from(count);
    let used = FRONT + UNIT * count;
    if bytes.len() < used {
        return Ok(Parsed::Short);
    }
    if let Some(place) = units_fault(bytes, count) {
        return Ok(Parsed::Bad { place });
    }
    let units = units_in(alloc, bytes, count)?;
    let mut secret = [0; 32];
    secret.copy_from_slice(&bytes[8..40]);
    Ok(Parsed::Whole {
        value: Config::new(secret, units),
        used,
    })
}

/// The first fault of so many units that follow the front of a header.
fn units_fault(bytes: &[u8], count: usize) -> Option<u64>
    requires few { count ≤ 16 }
    requires there { 42 + 32 * count ≤ length bytes.now }
    ensures { result ≡ units_fault count 42 (drop 42 bytes.now) }
{
    for index in 0..count {
        let place = FRONT + UNIT * index;
        if let Some(fault) = unit_fault(&bytes[place..]) {
            return Some(place as u64 + fault);
        }
    }
    None
}

/// So many units that follow the front of a header.
fn units_in(alloc: Global, bytes: &[u8], count: usize) -> Result<UnitList, OutOfMemory>
    requires few { count ≤ 16 }
    requires there { 42 + 32 * count ≤ length bytes.now }
    ensures { IfOk result (λ units. units ≡ units_in count (drop 42 bytes.now)) }
{
    let mut units = UnitList::empty(alloc);
    for index in 0..count {
        units.push(unit_in(&bytes[FRONT + UNIT * index..]))?;
    }
    Ok(units)
}

/// The place of the first field of a unit that breaks its limit.
fn unit_fault(bytes: &[u8]) -> Option<u64>
    requires { 32 ≤ length bytes.now }
    ensures { result ≡ first_broken (unit_checks bytes.now) }
{
    let unit = unit_in(bytes);
    if !matches!(unit.blocks, 1..=4_294_967_296) {
        Some(0)
    } else if !matches!(unit.block_length, 512 | 4096) {
        Some(8)
    } else if !matches!(unit.entries, 1..=1_048_576) {
        Some(12)
    } else if unit.quota > unit.blocks {
        Some(16)
    } else if !matches!(unit.payload, 1..=268_435_456) {
        Some(24)
    } else if unit.group > 15 {
        Some(28)
    } else if get_u24(bytes, 29) != 0 {
        Some(29)
    } else {
        None
    }
}

/// The unit that 32 bytes tell.
fn unit_in(bytes: &[u8]) -> UnitConfig
    requires { 32 ≤ length bytes.now }
    ensures { result ≡ unit_in bytes.now }
{
    UnitConfig {
        blocks: get_u64(bytes, 0),
        block_length: get_u32(bytes, 8),
        entries: get_u32(bytes, 12),
        quota: get_u64(bytes, 16),
        payload: get_u32(bytes, 24),
        group: bytes[28],
    }
}

/// Spells a header.
pub fn write_header(alloc: Global, config: &Config) -> Result<Bytes, OutOfMemory>
    ensures { IfOk result (λ bytes. bytes ≡ header_bytes config.now) }
{
    let mut bytes = Bytes::empty(alloc);
    bytes.extend(&TEXT)?;
    bytes.extend(config.secret())?;
    bytes.extend(&config.units().to_be_bytes())?;
    for unit in 0..config.units() {
        bytes.extend(&unit_bytes(config.unit(unit)))?;
    }
    Ok(bytes)
}

/// A unit in 32 bytes.
fn unit_bytes(unit: UnitConfig) -> [u8; 32]
    ensures { result ≡ unit_bytes unit }
{
    let mut bytes = [0; 32];
    set_u64(&mut bytes, 0, unit.blocks);
    set_u32(&mut bytes, 8, unit.block_length);
    set_u32(&mut bytes, 12, unit.entries);
    set_u64(&mut bytes, 16, unit.quota);
    set_u32(&mut bytes, 24, unit.payload);
    bytes[28] = unit.group;
    bytes
}
