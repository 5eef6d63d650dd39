// Journals over files of the host.
ghost use Rattle.std.specs.Prelude.{◌≡◌, ◌≤◌, length, IfOk};
ghost use Rattle.cm_history.specs.declared.act.Entry.{Entry};
ghost use Rattle.recorder.specs.Text.{HasShortLists};

use crate::journal_files::{JournalFile, journal_files};
use crate::storing::are_storing;
use crate::tests::words_of;
use cm_base::{CallList, Config, UnitConfig, UnitList};
use cm_history::{Act, Actor, Entry};
use journal_disk::{Disk, DiskFailed, Journal, MemoryDisk, OpenFault};
use std::alloc::Global;
use std::fs;
use std::test::Fail;

/// What a file is opened as.
#[derive(Debug, Drop, Clone, Copy, PartialEq, Eq)]
enum Outcome {
    Entries(usize),
    Bad(u64),
    Failed,
}

fn one_unit(alloc: Global) -> Result<Config, Fail>
    ensures { IfOk result (λ config. length config.units ≡ 1) }
{
    let only = UnitConfig {
        blocks: 100,
        block_length: 512,
        entries: 16,
        quota: 100,
        payload: 65_536,
        group: 0,
    };
    Ok(Config::new([7; 32], UnitList::copy(alloc, &[only])?))
}

/// A nexus reads three blocks, which is written in 44 bytes.
fn read_of_three(stamp: u64) -> Entry
    ensures { HasShortLists result.act }
{
    Entry {
        stamp,
        unit: 0,
        actor: Actor::Nexus(1),
        seq: 1,
        moment: 0,
        act: Act::Read { lba: 0, count: 3 },
    }
}

/// The file at a path in the folder of the tests.
fn file<'a>(rt: &'a HostRuntime, alloc: Global, path: &str) -> Result<JournalFile<'a>, Fail> {
    Ok(JournalFile::new(rt, ".", String::from_str(alloc, path)?, 0))
}

/// What the file of a disk is opened as.
fn opened_as<D: Disk + Drop>(alloc: Global, disk: D, config: &Config) -> Outcome
    requires { length config.now.units ≡ 1 }
{
    match Journal::open(alloc, disk, config, 0) {
        Ok((_, history)) => Outcome::Entries(history.len()),
        Err((_, OpenFault::BadJournal { place })) => Outcome::Bad(place),
        Err(_) => Outcome::Failed,
    }
}

/// What the file at a path is opened as.
fn opened(rt: &HostRuntime, alloc: Global, path: &str) -> Result<Outcome, Fail> {
    let config = one_unit(alloc)?;
    Ok(opened_as(alloc, file(rt, alloc, path)?, &config))
}

/// Opens the journal at a path and records a read in it, which goes well.
fn is_recorded(rt: &HostRuntime, alloc: Global, path: &str, stamp: u64) -> Result<bool, Fail> {
    let config = one_unit(alloc)?;
    match Journal::open(alloc, file(rt, alloc, path)?, &config, 0) {
        Ok((mut journal, _)) => Ok(journal.append(&read_of_three(stamp)).is_ok()),
        Err(_) => Ok(false),
    }
}

/// What these bytes are opened as where they stand in memory.
fn opened_in_memory(alloc: Global, bytes: &[u8]) -> Result<Outcome, Fail> {
    let config = one_unit(alloc)?;
    let disk = MemoryDisk::copy(alloc, bytes, CallList::empty(alloc))?;
    Ok(opened_as(alloc, disk, &config))
}

/// These bytes are opened as a file of the host just as they are in memory.
fn is_opened_alike(rt: &HostRuntime, alloc: Global, bytes: &[u8]) -> Result<bool, Fail> {
    fs::write(rt, "changed", bytes)?;
    Ok(opened(rt, alloc, "changed")? == opened_in_memory(alloc, bytes)?)
}

/// These bytes, but for the one at a place.
fn changed(alloc: Global, bytes: &[u8], at: usize) -> Result<Vec<u8>, Fail> {
    let mut changed = bytes.to_vec(alloc)?;
    if at < changed.len() {
        changed[at] ^= 0xff;
    }
    Ok(changed)
}

/// Whether these words ask for storing.
fn ask(alloc: Global, line: &[&str]) -> Result<bool, Fail> {
    let words = words_of(alloc, line)?;
    Ok(are_storing(&words))
}

#[test]
fn words_ask_for_storing(rt: HostRuntime) -> Result<(), Fail> {
    assert!(rt; ask(rt.alloc(), &["store", "A", "x", "F"])?);
    assert!(rt; !ask(rt.alloc(), &["store", "A", "1"])?);
    assert!(rt; !ask(rt.alloc(), &["serve", "A", "1", "F"])?);
    Ok(())
}

/// How many bytes a file has.
fn length_of(rt: &HostRuntime, path: &str) -> Result<usize, Fail> {
    let bytes = fs::read(rt, path)?;
    Ok(bytes.len())
}

/// A journal is made where there is none, and opened again with its entries.
#[test]
fn a_journal_stands_in_a_file(rt: HostRuntime) -> Result<(), Fail> {
    let alloc = rt.alloc();
    assert_eq!(rt; opened(&rt, alloc, "journal")?, Outcome::Entries(0));
    assert_eq!(rt; length_of(&rt, "journal")?, 86);
    assert!(rt; is_recorded(&rt, alloc, "journal", 2)?);
    assert!(rt; is_recorded(&rt, alloc, "journal", 3)?);
    assert_eq!(rt; opened(&rt, alloc, "journal")?, Outcome::Entries(2));
    Ok(())
}

/// These bytes are opened alike where they are cut at a place, and where the byte there is changed.
fn check_place(rt: &HostRuntime, alloc: Global, bytes: &[u8], at: usize) -> Result<(), Fail>
    requires { at ≤ length bytes.now }
{
    let (cut, _) = bytes.split_at(at);
    if !is_opened_alike(rt, alloc, cut)? {
        return Err(Fail::new(format_args!("cut at {at}")));
    }
    let changed = changed(alloc, bytes, at)?;
    if !is_opened_alike(rt, alloc, &changed)? {
        return Err(Fail::new(format_args!("byte {at}")));
    }
    Ok(())
}

/// Checks each place of the file at a path, and tells how many there are.
fn check_places(rt: &HostRuntime, alloc: Global, path: &str) -> Result<usize, Fail> {
    let bytes = fs::read(rt, path)?;
    for at in 0..bytes.len() {
        check_place(rt, alloc, &bytes, at)?;
    }
    Ok(bytes.len())
}

/// Wherever a journal of two entries is cut, and whichever byte is changed.
#[test]
fn files_are_opened_as_memory_is(rt: HostRuntime) -> Result<(), Fail> {
    let alloc = rt.alloc();
    assert!(rt; is_recorded(&rt, alloc, "whole", 2)?);
    assert!(rt; is_recorded(&rt, alloc, "whole", 3)?);
    assert_eq!(rt; check_places(&rt, alloc, "whole")?, 192);
    Ok(())
}

/// A file of four bytes.
fn file_of_four(rt: &HostRuntime, alloc: Global) -> Result<JournalFile<'_>, Fail> {
    let mut disk = file(rt, alloc, "disk")?;
    disk.write_at(0, b"four")?;
    Ok(disk)
}

/// Nothing comes behind the end of a file.
fn reads_end(rt: &HostRuntime, alloc: Global) -> Result<bool, Fail> {
    let mut disk = file_of_four(rt, alloc)?;
    let mut into = [0; 8];
    let last = disk.read_at(3, &mut into);
    let behind = disk.read_at(4, &mut into);
    Ok(last == Ok(1) && behind == Err(DiskFailed) && &into == b"r\0\0\0\0\0\0\0")
}

/// A file that is open is no one else's.
fn is_locked(rt: &HostRuntime, alloc: Global) -> Result<bool, Fail> {
    let mut disk = file_of_four(rt, alloc)?;
    let other = file(rt, alloc, "disk")?.size();
    Ok(disk.size() == Ok(4) && other == Err(DiskFailed))
}

/// Without a folder a call fails.
fn needs_folder(rt: &HostRuntime, alloc: Global) -> Result<bool, Fail> {
    let mut missing = JournalFile::new(rt, "missing", String::from_str(alloc, "missing/0")?, 0);
    let failed = missing.sync() == Err(DiskFailed);
    Ok(failed && missing.cause().is_some())
}

#[test]
fn calls_of_files_fail(rt: HostRuntime) -> Result<(), Fail> {
    let alloc = rt.alloc();
    assert!(rt; reads_end(&rt, alloc)?);
    assert!(rt; is_locked(&rt, alloc)?);
    assert!(rt; needs_folder(&rt, alloc)?);
    assert_eq!(rt; journal_files(&rt, alloc, "folder")?.len(), 16);
    Ok(())
}
