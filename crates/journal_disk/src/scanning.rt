// The records of a file, one behind another.
ghost use Rattle.std.specs.Prelude.{◌≡◌, ◌∷◌, [], ◌≤◌, ◌<◌, ◌+◌, ◌^◌, ◌&&◌, ◌==◌, ℕ, List, Some, None, Err, Option, Bool, true, length, take, drop, IfOk, IfErr, IfSome, OnOk, OnErr};
ghost use Rattle.cm_history.specs.declared.act.Entry.{Entry};
ghost use Rattle.recorder.specs.Recording.{Rose};
ghost use Rattle.journal_disk.specs.Journal.{AreInOrder};
ghost use Rattle.journal_disk.specs.Opened.{begins_open, entry_in, may_follow, allowed, opened};
ghost use Rattle.cm_history.specs.Limits.{within_limits};
ghost use Rattle.cm_history.specs.Legal.{may_ask};
ghost use Rattle.journal_disk.specs.Disk.{OnlyReads};
ghost use Rattle.journal_disk.specs.inner.Scanning.{IfSize, IfNext, IsScanned, IsFound};
ghost use Rattle.journal_disk.specs.declared.opening.OpenFault.{OpenFault};

use crate::log::OPEN;
use crate::reading::{byte_at, number_at, read_all_at};
use crate::{Disk, DiskFailed, OpenFault};
use cm_base::{Config, OutOfMemory, Parsed};
use cm_history::{Act, Actor, Entry, History, within_limits};
use recorder::read_entry;
use std::alloc::Global;

/// An entry, and how many bytes spell it.
pub(crate) struct Next {
    entry: Entry,
    size: u64,
}

/// What was found in a file: its entries, and the place of the first gate that is not open.
pub(crate) struct Found {
    pub(crate) history: History,
    pub(crate) gate: u64,
}

/// The actor may ask the act of the unit.
fn may_ask(unit: u16, actor: Actor, act: &Act) -> bool
    ensures { result ≡ may_ask unit actor act.now }
{
    match actor {
        Actor::Pump(pump) => matches!(act, Act::Pump) && pump == unit,
        Actor::Nexus(_) => !matches!(act, Act::Pump),
    }
}

/// The entry may stand behind one of this stamp.
fn may_follow(config: &Config, unit: u16, last: u64, entry: &Entry) -> bool
    requires { unit < length config.now.units }
    ensures { result ≡ may_follow config.now unit last entry.now }
{
    entry.unit == unit
        && within_limits(config, unit, &entry.act)
        && may_ask(unit, entry.actor, &entry.act)
        && last < entry.stamp
}

/// The entry that all of the bytes spell.
fn entry_in(alloc: Global, payload: &[u8]) -> Result<Option<Entry>, OutOfMemory>
    ensures { IfOk result (λ found. found ≡ entry_in payload.now) }
{
    match read_entry(alloc, payload)? {
        Parsed::Whole { value, used } => {
            if used == payload.len() {
                Ok(Some(value))
            } else {
                Ok(None)
            }
        }
        _ => Ok(None),
    }
}

/// The entry that all of the bytes spell, if it may stand behind one of this stamp.
fn allowed_in(
    alloc: Global,
    config: &Config,
    unit: u16,
    last: u64,
    payload: &[u8],
) -> Result<Option<Entry>, OutOfMemory>
    requires { unit < length config.now.units }
    ensures found { IfOk result (λ found. found ≡ allowed (may_follow config.now unit last) (entry_in payload.now)) }
    ensures follows { IfOk result (λ found. IfSome found (λ e. may_follow config.now unit last e ≡ true)) }
{
    let Some(entry) = entry_in(alloc, payload)? else {
        return Ok(None);
    };
    if may_follow(config, unit, last, &entry) {
        Ok(Some(entry))
    } else {
        Ok(None)
    }
}

/// The length of the payload of a record behind an open gate, which has its closing gate; the file has so many bytes.
fn size_at<D: Disk>(disk: &mut D, gate: u64, size: u64) -> Result<Option<u64>, DiskFailed>
    requires size { IfSome (D.reads disk.old) (λ file. size ≡ length file) }
    requires within { gate < size }
    ensures some { (file : List ℕ) → D.reads disk.old ≡ Some file → IfOk result (IfSize file gate) }
    ensures inside { IfOk result (λ found. IfSome found (λ n. gate + 9 + n < size)) }
    ensures reads { OnlyReads D.reads D.may_leave D.moment D.left_since D.disk_faults disk.old disk.new }
    ensures failed { OnErr result (Rose (D.disk_faults disk.old) (D.disk_faults disk.new)) }
{
    let behind = size - gate - 1;
    if behind <= 8 {
        return Ok(None);
    }
    let count = number_at(disk, gate + 1)?;
    if count >= behind - 8 {
        return Ok(None);
    }
    Ok(Some(count))
}

/// So many bytes from a place on.
fn bytes_at<D: Disk>(alloc: Global, disk: &mut D, at: u64, count: u64) -> Result<Vec<u8>, OpenFault>
    requires within { IfSome (D.reads disk.old) (λ file. at + count ≤ length file) }
    requires fits { at + count < 2 ^ 64 }
    ensures told { IfOk result (λ v. IfSome (D.reads disk.old) (λ file. v.items ≡ take count (drop at file))) }
    ensures reads { OnlyReads D.reads D.may_leave D.moment D.left_since D.disk_faults disk.old disk.new }
    ensures bad { IfErr result (λ e. (place : ℕ) → e ≡ OpenFault.BadJournal place → ⊥) }
    ensures failed { IfErr result (λ e. e ≡ OpenFault.DiskFault → Rose (D.disk_faults disk.old) (D.disk_faults disk.new)) }
{
    let mut bytes = vec![in alloc; 0u8; count as usize]?;
    read_all_at(disk, at, &mut bytes)?;
    Ok(bytes)
}

/// The next record behind an open gate; the last entry before it has this stamp, and the file has so many bytes.
fn next_at<D: Disk>(
    alloc: Global,
    disk: &mut D,
    config: &Config,
    unit: u16,
    last: u64,
    gate: u64,
    size: u64,
) -> Result<Option<Next>, OpenFault>
    requires configured { unit < length config.now.units }
    requires size { IfSome (D.reads disk.old) (λ file. size ≡ length file) }
    requires within { gate < size }
    ensures reads { OnlyReads D.reads D.may_leave D.moment D.left_since D.disk_faults disk.old disk.new }
    ensures next { (file : List ℕ) → D.reads disk.old ≡ Some file → IfOk result (IfNext config.now unit last gate file) }
    ensures inside { IfOk result (λ found. IfSome found (λ n. gate + 9 + n.size < size)) }
    ensures follows { IfOk result (λ found. IfSome found (λ n. may_follow config.now unit last n.entry ≡ true)) }
    ensures bad { IfErr result (λ e. (place : ℕ) → e ≡ OpenFault.BadJournal place → ⊥) }
    ensures failed { IfErr result (λ e. e ≡ OpenFault.DiskFault → Rose (D.disk_faults disk.old) (D.disk_faults disk.new)) }
{
    let Some(count) = size_at(disk, gate, size)? else {
        return Ok(None);
    };
    let payload = bytes_at(alloc, disk, gate + 9, count)?;
    match allowed_in(alloc, config, unit, last, &payload)? {
        Some(entry) => Ok(Some(Next { entry, size: count })),
        None => Ok(None),
    }
}

/// The gate at a place is open.
fn is_open<D: Disk>(disk: &mut D, gate: u64, size: u64) -> Result<bool, DiskFailed>
    requires size { IfSome (D.reads disk.old) (λ file. size ≡ length file) }
    requires within { gate < size }
    ensures told { IfOk result (λ is. IfSome (D.reads disk.old) (λ file. is ≡ begins_open (drop gate file))) }
    ensures reads { OnlyReads D.reads D.may_leave D.moment D.left_since D.disk_faults disk.old disk.new }
    ensures failed { OnErr result (Rose (D.disk_faults disk.old) (D.disk_faults disk.new)) }
{
    Ok(byte_at(disk, gate)? == OPEN)
}

/// The entries up to the first gate that is not open. The first gate behind the front stands at `start`, and the file has
/// so many bytes.
pub(crate) fn scan<D: Disk>(
    alloc: Global,
    disk: &mut D,
    config: &Config,
    unit: u16,
    start: u64,
    size: u64,
) -> Result<Found, OpenFault>
    requires configured { unit < length config.now.units }
    requires size { IfSome (D.reads disk.old) (λ file. size ≡ length file) }
    requires within { start < size }
    ensures reads { OnlyReads D.reads D.may_leave D.moment D.left_since D.disk_faults disk.old disk.new }
    ensures inside { IfOk result (λ r. r.gate < size) }
    ensures order { IfOk result (λ r. AreInOrder config.now unit 0 r.history.entries) }
    ensures found { (file : List ℕ) → D.reads disk.old ≡ Some file → IsScanned config.now unit file start 0 []
        → IfOk result (λ r. IsFound config.now unit file r.gate r.history.entries) }
    ensures bad { (file : List ℕ) → D.reads disk.old ≡ Some file → IsScanned config.now unit file start 0 []
        → IfErr result (λ e. (place : ℕ) → e ≡ OpenFault.BadJournal place → opened config.now unit file ≡ Err place) }
    ensures failed { IfErr result (λ e. e ≡ OpenFault.DiskFault → Rose (D.disk_faults disk.old) (D.disk_faults disk.new)) }
{
    let mut history = History::empty(alloc);
    let mut gate = start;
    let mut last = 0;
    let mut opens = is_open(disk, gate, size)?;
    while opens {
        let Some(next) = next_at(alloc, disk, config, unit, last, gate, size)? else {
            return Err(OpenFault::BadJournal { place: gate + 1 });
        };
        let Next { entry, size: count } = next;
        last = entry.stamp;
        history.push(entry)?;
        gate += 9 + count;
        opens = is_open(disk, gate, size)?;
    }
    Ok(Found { history, gate })
}
