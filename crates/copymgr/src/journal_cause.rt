// Why a file is no journal of a unit, as an operator has to know it.
use cm_base::{Config, OutOfMemory, Parsed, UnitConfig, get_u16};
use cm_frame::read_header;
use std::alloc::Global;
use std::fs::File;
use std::os::unix::fs::FileExt;

/// The text behind the first gate of a journal.
const TEXT: &[u8] = b"CMJOURN1";

/// Bytes before the configuration in a journal: a gate, the text, and the unit's number.
const FRONT: usize = 11;

/// Bytes that are read of a journal: its front with the longest configuration.
const LONGEST: usize = FRONT + 554;

/// What the front of a file is, beside the journal that was looked for.
#[derive(Drop)]
enum Found {
    NoJournal,
    OfUnit(u16),
    OfConfiguration(Config),
}

/// What these first bytes of a file say that it is.
fn found_in(alloc: Global, bytes: &[u8], unit: u16) -> Result<Found, OutOfMemory> {
    if bytes.len() < FRONT || !bytes[1..].starts_with(TEXT) {
        return Ok(Found::NoJournal);
    }
    let named = get_u16(bytes, 9);
    if named != unit {
        return Ok(Found::OfUnit(named));
    }
    match read_header(alloc, &bytes[FRONT..])? {
        Parsed::Whole { value, .. } => Ok(Found::OfConfiguration(value)),
        _ => Ok(Found::NoJournal),
    }
}

/// The first field in which two units differ: its name, and what it is of the one and of the other.
fn differing(one: &UnitConfig, other: &UnitConfig) -> Option<(&'static str, u64, u64)> {
    [
        ("blocks", one.blocks, other.blocks),
        (
            "bytes a block",
            u64::from(one.block_length),
            u64::from(other.block_length),
        ),
        (
            "entries of its record",
            u64::from(one.entries),
            u64::from(other.entries),
        ),
        ("blocks of its quota", one.quota, other.quota),
        (
            "bytes of its record",
            u64::from(one.payload),
            u64::from(other.payload),
        ),
        ("as its group", u64::from(one.group), u64::from(other.group)),
    ]
    .into_iter()
    .find(|(_, one, other)| one != other)
}

/// How the configuration of a journal differs from the one that was read.
fn difference(alloc: Global, theirs: &Config, ours: &Config) -> Result<String, OutOfMemory> {
    let (there, here) = (theirs.units(), ours.units());
    if there != here {
        return Ok(format!(in alloc; "its configuration has {there} units, and this one {here}")?);
    }
    for unit in 0..here {
        if let Some((name, one, other)) = differing(&theirs.unit(unit), &ours.unit(unit)) {
            return Ok(format!(in alloc; "its unit {unit} has {one} {name}, and this one {other}")?);
        }
    }
    Ok(String::from_str(alloc, "its configuration has another secret")?)
}

/// What is wrong with the front of a file.
fn told(alloc: Global, bytes: &[u8], config: &[u8], unit: u16) -> Result<String, OutOfMemory> {
    let found = found_in(alloc, bytes, unit)?;
    let ours = read_header(alloc, config)?;
    match (found, ours) {
        (Found::OfUnit(named), _) => Ok(format!(in alloc; "it is the journal of unit {named}")?),
        (Found::OfConfiguration(theirs), Parsed::Whole { value, .. }) => difference(
            alloc, &theirs, &value,
        ),
        _ => Ok(String::from_str(alloc, "it is no journal")?),
    }
}

/// Why the file of a unit in a folder is no journal of it, as one line: another file, another unit's, or another
/// configuration's, and how that differs. None where a record is bad, or where the file can't be read or memory is wanted.
pub fn journal_cause(
    host: &HostRuntime,
    alloc: Global,
    config: &[u8],
    folder: &str,
    unit: u16,
    place: u64,
) -> Option<String> {
    let path = format!(in alloc; "{folder}/journal-{unit}").ok()?;
    if place > 1 {
        return format!(in alloc; "{path}: the record at byte {place} is not good").ok();
    }
    let mut bytes = [0; LONGEST];
    let file = File::open(host, path.as_str()).ok()?;
    let count = file.read_at(&mut bytes, 0).ok()?;
    let why = told(alloc, &bytes[..count], config, unit).ok()?;
    format!(in alloc; "{path}: {why}").ok()
}
