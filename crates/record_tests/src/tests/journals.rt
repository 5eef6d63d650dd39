// The bytes of a journal, a disk that fails at each call, and files that were changed.
ghost use Rattle.std.specs.Prelude.{◌≡◌, ◌<◌, length, IfOk, IfSome};
ghost use Rattle.cm_history.specs.declared.act.Act.{Act};
ghost use Rattle.cm_history.specs.declared.act.Entry.{Entry};
ghost use Rattle.recorder.specs.Text.{HasShortLists};
ghost use Rattle.journal_disk.specs.Journal.{IsGood};

use cm_base::{CallList, Config, Payload, UnitConfig, UnitList};
use cm_history::{Act, Actor, Entry, History};
use journal_disk::{Disk, Journal, MemoryDisk, OpenFault};
use lba_ranges::BlockList;
use recorder::{RecordRefused, Recorder, has_short_lists};
use std::alloc::Global;
use std::test::Fail;

/// The calls of the disk by which a journal is made new and four entries are recorded.
const CALLS: u64 = 24;

/// A new file of one unit, and a record of 44 bytes.
const NEW: usize = 86;

const RECORD: usize = 53;

/// What a file is opened as.
#[derive(Debug, Drop, Clone, Copy, PartialEq, Eq)]
enum Outcome {
    Entries(usize),
    Bad(u64),
    Failed,
}

fn one_unit(alloc: Global) -> Result<Config, Fail>
    ensures { IfOk result (λ config. length config.units ≡ 1) }
{
    one_unit_of(alloc, 7)
}

/// The unit under a secret of this byte alone.
fn one_unit_of(alloc: Global, secret: u8) -> Result<Config, Fail>
    ensures { IfOk result (λ config. length config.units ≡ 1) }
{
    let only = UnitConfig {
        blocks: 100,
        block_length: 512,
        entries: 16,
        quota: 100,
        payload: 65_536,
        group: 0,
    };
    Ok(Config::new([secret; 32], UnitList::copy(alloc, &[only])?))
}

/// An entry of a nexus.
fn entry(stamp: u64, act: Act) -> Entry
    ensures { result.act ≡ act }
{
    Entry {
        stamp,
        unit: 0,
        actor: Actor::Nexus(1),
        seq: 1,
        moment: 0,
        act,
    }
}

/// A nexus reads three blocks, which is written in 44 bytes.
fn read_of_three(stamp: u64) -> Entry
    ensures { HasShortLists result.act }
{
    entry(stamp, Act::Read { lba: 0, count: 3 })
}

/// A nexus writes a block.
fn write_of_one(alloc: Global, stamp: u64) -> Result<Entry, Fail>
    ensures { IfOk result (λ e. HasShortLists e.act) }
{
    let bytes = Payload::from_vec(vec![in alloc; 0x11; 512]?)?;
    let list = BlockList::from_payload(alloc, 512, 1, bytes)?;
    let entry = entry(stamp, Act::Write { lba: 0, list });
    if has_short_lists(&entry.act) {
        Ok(entry)
    } else {
        Err(Fail::new("a long list"))
    }
}

/// The journal of a disk, which is to be opened.
fn opened(
    alloc: Global,
    disk: MemoryDisk,
    config: &Config,
) -> Result<(Journal<MemoryDisk>, History), Fail>
    requires { length config.now.units ≡ 1 }
    ensures within { IfOk result (λ r. IfSome (⟦<MemoryDisk as Disk>⟧.reads r.0.disk) (λ bytes. r.0.gate < length bytes)) }
    ensures fits { IfOk result (λ r. (e : Entry) → ⟦<Journal<MemoryDisk> as Recorder>⟧.fits r.0 e) }
{
    match Journal::open(alloc, disk, config, 0) {
        Ok(found) => Ok(found),
        Err(_) => Err(Fail::new("not opened")),
    }
}

/// What these bytes are opened as.
fn opened_as(alloc: Global, bytes: &[u8], config: &Config) -> Result<Outcome, Fail>
    requires { length config.now.units ≡ 1 }
{
    let disk = MemoryDisk::copy(alloc, bytes, CallList::empty(alloc))?;
    match Journal::open(alloc, disk, config, 0) {
        Ok((_, history)) => Ok(Outcome::Entries(history.len())),
        Err((_, OpenFault::BadJournal { place })) => Ok(Outcome::Bad(place)),
        Err(_) => Ok(Outcome::Failed),
    }
}

/// An empty disk, whose calls of these numbers fail.
fn failing_from(alloc: Global, first: u64) -> Result<MemoryDisk, Fail> {
    let mut failing = CallList::empty(alloc);
    for call in first..64 {
        failing.push(call)?;
    }
    Ok(MemoryDisk::new(alloc, failing))
}

/// Records four entries, up to the first that is refused, and tells how many.
fn record_four(alloc: Global, journal: &mut Journal<MemoryDisk>) -> Result<usize, Fail>
    requires { IfSome (⟦<MemoryDisk as Disk>⟧.reads journal.old.disk) (λ bytes. journal.old.gate < length bytes) }
{
    for count in 0..4 {
        let entry = write_of_one(alloc, count as u64 + 1)?;
        match journal.append(&entry) {
            Ok(()) => {}
            Err(RecordRefused::Failed) => return Ok(count),
            Err(_) => return Err(Fail::new("no memory")),
        }
    }
    Ok(4)
}

/// Opens a journal and records four entries in it, on a disk whose calls fail from one on. Tells how many were recorded.
fn run(alloc: Global, config: &Config, first: u64) -> Result<(MemoryDisk, usize), Fail>
    requires { length config.now.units ≡ 1 }
{
    let disk = failing_from(alloc, first)?;
    match Journal::open(alloc, disk, config, 0) {
        Ok((mut journal, _)) => {
            let count = record_four(alloc, &mut journal)?;
            Ok((journal.into_disk(), count))
        }
        Err((disk, _)) => Ok((disk, 0)),
    }
}

/// An image of the disk is opened with so many entries, or with one more.
fn image_opens(
    alloc: Global,
    config: &Config,
    disk: &MemoryDisk,
    pick: u64,
    count: usize,
) -> Result<bool, Fail>
    requires { length config.now.units ≡ 1 }
{
    let image = disk.crash(pick)?;
    let found = opened_as(alloc, image.as_slice(), config)?;
    Ok(found == Outcome::Entries(count) || found == Outcome::Entries(count.saturating_add(1)))
}

/// An empty disk, of which nothing is bad.
fn empty_disk(alloc: Global, config: &Config) -> MemoryDisk
    ensures { IsGood ⟦<MemoryDisk as Disk>⟧.reads ⟦<MemoryDisk as Disk>⟧.may_leave config.now 0 result }
{
    let _units = config;
    MemoryDisk::new(alloc, CallList::empty(alloc))
}

/// A file of which nothing is bad is opened; the disk of its journal is given back.
fn reopened(alloc: Global, image: MemoryDisk, config: &Config) -> Result<MemoryDisk, Fail>
    requires units { length config.now.units ≡ 1 }
    requires good { IsGood ⟦<MemoryDisk as Disk>⟧.reads ⟦<MemoryDisk as Disk>⟧.may_leave config.now 0 image }
    ensures { IfOk result (λ d. IsGood ⟦<MemoryDisk as Disk>⟧.reads ⟦<MemoryDisk as Disk>⟧.may_leave config.now 0 d) }
{
    match Journal::open(alloc, image, config, 0) {
        Ok((journal, _)) => Ok(journal.into_disk()),
        Err((_, OpenFault::BadJournal { .. })) => unreachable!(),
        Err(_) => Err(Fail::new("not opened")),
    }
}

/// A crash leaves a file that is opened; the disk of its journal is given back.
fn opened_behind(
    alloc: Global,
    config: &Config,
    disk: &MemoryDisk,
    pick: u64,
) -> Result<MemoryDisk, Fail>
    requires units { length config.now.units ≡ 1 }
    requires good { IsGood ⟦<MemoryDisk as Disk>⟧.reads ⟦<MemoryDisk as Disk>⟧.may_leave config.now 0 disk.now }
    ensures { IfOk result (λ d. IsGood ⟦<MemoryDisk as Disk>⟧.reads ⟦<MemoryDisk as Disk>⟧.may_leave config.now 0 d) }
{
    let image = disk.crash(pick)?;
    reopened(alloc, image, config)
}

/// A journal of two entries.
fn two_records(alloc: Global, config: &Config) -> Result<MemoryDisk, Fail>
    requires { length config.now.units ≡ 1 }
{
    let disk = MemoryDisk::new(alloc, CallList::empty(alloc));
    let (mut journal, _) = opened(alloc, disk, config)?;
    let first = journal.append(&read_of_three(2));
    let second = journal.append(&read_of_three(3));
    if first.is_ok() && second.is_ok() {
        Ok(journal.into_disk())
    } else {
        Err(Fail::new("not recorded"))
    }
}

/// The disk of a journal that is bad at place 1, as it comes back.
fn refused_disk(alloc: Global, disk: MemoryDisk, config: &Config) -> Result<MemoryDisk, Fail>
    requires { length config.now.units ≡ 1 }
{
    match Journal::open(alloc, disk, config, 0) {
        Err((disk, OpenFault::BadJournal { place: 1 })) => Ok(disk),
        _ => Err(Fail::new("not bad at 1")),
    }
}

/// Of a journal of two entries these bytes stand at a place.
fn has(bytes: &[u8], at: usize, part: &[u8]) -> bool {
    match bytes.get(at..) {
        Some(rest) => rest.starts_with(part),
        None => false,
    }
}

#[test]
fn one_record_as_bytes(rt: HostRuntime) -> Result<(), Fail> {
    let alloc = rt.alloc();
    let config = one_unit(alloc)?;
    let disk = MemoryDisk::new(alloc, CallList::empty(alloc));
    let (mut journal, history) = opened(alloc, disk, &config)?;
    assert!(rt; history.is_empty());
    assert!(rt; journal.record(&read_of_three(2)).is_ok());
    let disk = journal.into_disk();
    let bytes = disk.as_slice();
    assert_eq!(rt; bytes.len(), 139);
    assert!(rt; has(bytes, 0, b"\xa5CMJOURN1\x00\x00CMTRACE1"));
    assert!(rt;
        has(
            bytes,
            85,
            &[0xa5, 0, 0, 0, 0, 0, 0, 0, 44, 0, 0, 0, 0, 0, 0, 0, 2]
        )
    );
    assert!(rt; has(bytes, 138, &[0]));
    Ok(())
}

/// A journal that was closed is opened with its entries.
#[test]
fn entries_are_opened_again(rt: HostRuntime) -> Result<(), Fail> {
    let config = one_unit(rt.alloc())?;
    let disk = two_records(rt.alloc(), &config)?;
    let (_, history) = opened(rt.alloc(), disk, &config)?;
    assert_eq!(rt; history.len(), 2);
    Ok(())
}

/// Whatever call fails, with all behind it: each image that a crash may leave then has the recorded entries, or one more.
#[test]
fn calls_of_the_disk_fail(rt: HostRuntime) -> Result<(), Fail> {
    let alloc = rt.alloc();
    let config = one_unit(alloc)?;
    for first in 1..42 {
        let (disk, count) = run(alloc, &config, first)?;
        assert_eq!(rt; count == 4, first > CALLS, "call {first}");
        for pick in 0..8 {
            assert!(rt;
                image_opens(alloc, &config, &disk, pick, count)?,
                "call {first}, pick {pick}"
            );
        }
    }
    Ok(())
}

/// A journal of another configuration is bad, and stays as it was.
#[test]
fn a_bad_journal_is_left(rt: HostRuntime) -> Result<(), Fail> {
    let alloc = rt.alloc();
    let config = one_unit(alloc)?;
    let disk = two_records(alloc, &config)?;
    let bytes = disk.as_slice().to_vec(alloc)?;
    let other = one_unit_of(alloc, 8)?;
    let left = refused_disk(alloc, disk, &other)?;
    assert!(rt; left.as_slice() == bytes.as_slice());
    assert!(rt; left.crash(1)?.as_slice() == bytes.as_slice());
    Ok(())
}

/// What a crash leaves of an empty disk, and of what was opened behind it, is never bad.
#[test]
fn a_crash_leaves_nothing_bad(rt: HostRuntime) -> Result<(), Fail> {
    let alloc = rt.alloc();
    let config = one_unit(alloc)?;
    let empty = empty_disk(alloc, &config);
    let first = opened_behind(alloc, &config, &empty, 1)?;
    let second = opened_behind(alloc, &config, &first, 5)?;
    let disk = opened_behind(alloc, &config, &second, 7)?;
    assert_eq!(rt; disk.as_slice().len(), NEW);
    Ok(())
}

/// What so many bytes of a journal of two entries are opened as.
fn cut(end: usize) -> Outcome {
    if end < NEW {
        Outcome::Entries(0)
    } else if end < NEW + RECORD {
        Outcome::Bad(86)
    } else if end < NEW + 2 * RECORD {
        Outcome::Bad(139)
    } else {
        Outcome::Entries(2)
    }
}

#[test]
fn files_are_cut(rt: HostRuntime) -> Result<(), Fail> {
    let alloc = rt.alloc();
    let config = one_unit(alloc)?;
    let disk = two_records(alloc, &config)?;
    let bytes = disk.as_slice();
    for end in 0..=bytes.len() {
        assert_eq!(rt;
            opened_as(alloc, &bytes[..end], &config)?,
            cut(end),
            "cut at {end}"
        );
    }
    Ok(())
}

/// What a journal of two entries is opened as of which all bits of the byte at this place are changed.
fn changed(at: usize) -> Outcome {
    match at {
        // the first gate, what stands between the gates, the second gate
        0 => Outcome::Bad(0),
        1..=84 => Outcome::Bad(1),
        85 => Outcome::Entries(0),
        // the length of the first record, its stamp, which is then the greater one, its unit, the kind of its actor
        86..=93 => Outcome::Bad(86),
        94..=101 => Outcome::Bad(139),
        102..=104 => Outcome::Bad(86),
        // its code, its number of blocks, its gate
        125 | 134..=136 => Outcome::Bad(86),
        138 => Outcome::Entries(1),
        // the second one
        139..=146 | 155..=157 | 178 | 187..=189 => Outcome::Bad(139),
        _ => Outcome::Entries(2),
    }
}

/// These bytes, with all bits of the one at a place changed.
fn with_change(alloc: Global, bytes: &[u8], at: usize) -> Result<Vec<u8>, Fail> {
    let mut file = bytes.to_vec(alloc)?;
    if let Some(byte) = file.get_mut(at) {
        *byte ^= 0xff;
    }
    Ok(file)
}

#[test]
fn bytes_are_changed(rt: HostRuntime) -> Result<(), Fail> {
    let alloc = rt.alloc();
    let config = one_unit(alloc)?;
    let disk = two_records(alloc, &config)?;
    let bytes = disk.as_slice();
    for at in 0..bytes.len() {
        let file = with_change(alloc, bytes, at)?;
        assert_eq!(rt; opened_as(alloc, &file, &config)?, changed(at), "byte {at}");
    }
    Ok(())
}
