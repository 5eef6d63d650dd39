// Journals in a folder of the host. Of a file it tells neither what reads give nor what a crash may leave: that the host
// keeps what was synced is trusted.
ghost use Rattle.std.specs.Prelude.{◌≡◌, ◌≤◌, ◌<◌, length, None, IfOk};
ghost use Rattle.cm_base.specs.Memory.{one_more};

use crate::unkept::Unkept;
use cm_base::{OutOfMemory, Sequence};
use journal_disk::{Disk, DiskFailed};
use std::alloc::Global;
use std::fs::{File, OpenOptions, TryLockError};
use std::io;
use std::os::unix::fs::{FileExt, OpenOptionsExt};

/// Units that a machine may have.
const UNITS: u16 = 16;

/// Who may read and write a journal: its owner alone, since it has the secret of the tokens and all data.
const MODE: u32 = 0o600;

/// A file that is open, and locked so that no other program has it.
#[derive(Drop)]
struct OpenJournal {
    file: File,
    /// Its folder, until that is synced: before, a crash may leave it without the file.
    folder: Option<File>,
    /// What of it the host may have dropped.
    unkept: Unkept,
}

/// The file is not open.
fn not_open() -> io::Error {
    io::Error::from(io::ErrorKind::NotFound)
}

/// The lock of a file. Only where the host has no locks it goes without; every other error is one of the file.
fn locked(file: &File) -> io::Result<()> {
    match file.try_lock() {
        Ok(()) => Ok(()),
        Err(TryLockError::WouldBlock) => Err(io::Error::from(io::ErrorKind::WouldBlock)),
        Err(TryLockError::Error(error)) => passed_over(error),
    }
}

/// A host that has no locks is no fault.
fn passed_over(error: io::Error) -> io::Result<()> {
    match error.kind() {
        io::ErrorKind::Unsupported => Ok(()),
        _ => Err(error),
    }
}

impl OpenJournal {
    /// Opens the file at a path in a folder, which is made where it is absent, and locks it.
    fn open(files: &HostRuntime, folder: &str, path: &str) -> io::Result<OpenJournal> {
        let folder = Some(File::open(files, folder)?);
        let file = OpenOptions::new()
            .read(true)
            .write(true)
            .create(true)
            .mode(MODE)
            .open(files, path)?;
        locked(&file)?;
        Ok(OpenJournal {
            file,
            folder,
            unkept: Unkept::none(),
        })
    }

    /// Reads some bytes: at least one, unless none are asked for.
    fn read_at(&self, at: u64, into: &mut [u8]) -> io::Result<usize>
        ensures within { IfOk result (λ n. n ≤ length into.new) }
        ensures some { IfOk result (λ n. 0 < length into.old → 0 < n) }
        ensures length { length into.new ≡ length into.old }
    {
        let count = self.file.read_at(into, at)?;
        if count == 0 && !into.is_empty() {
            return Err(io::Error::from(io::ErrorKind::UnexpectedEof));
        }
        Ok(count)
    }

    /// Writes all of these bytes.
    fn write_at(&mut self, at: u64, from: &[u8]) -> io::Result<()> {
        let written = self.file.write_all_at(from, at);
        match written {
            Ok(()) => self.unkept.wrote(at, from.len() as u64),
            Err(_) => self.unkept.tried(at, from.len() as u64),
        }
        written
    }

    /// Syncs the file, and the first time that it goes well its folder too.
    fn sync_all(&mut self) -> io::Result<()> {
        self.file.sync_all()?;
        if let Some(folder) = &self.folder {
            folder.sync_all()?;
        }
        self.folder = None;
        Ok(())
    }

    /// Syncs. It fails until all is written again that a sync was to keep which failed.
    fn sync(&mut self) -> io::Result<()> {
        if let Err(error) = self.sync_all() {
            self.unkept.failed();
            return Err(error);
        }
        if !self.unkept.is_whole() {
            return Err(io::Error::from(io::ErrorKind::Other));
        }
        self.unkept.synced();
        Ok(())
    }
}

/// How the calls of a file went.
#[derive(Drop)]
struct Calls {
    /// How many failed, up to 2^64 - 1.
    faults: u64,
    /// The host's text of the first one's error.
    cause: Option<String>,
    /// A sync went well, and no call failed since the last that did.
    well: bool,
    /// Calls began to fail behind such a sync, and none went well since.
    failing: bool,
}

impl Calls {
    fn none() -> Calls
        ensures { result.faults ≡ 0 }
    {
        Calls {
            faults: 0,
            cause: None,
            well: false,
            failing: false,
        }
    }

    /// Counts a call that failed.
    fn failed(&mut self, files: &HostRuntime, unit: u16, error: &io::Error)
        ensures counted { self.new.faults ≡ one_more self.old.faults }
        ensures counts { self.old.faults ≤ self.new.faults }
    {
        if self.well {
            let _ = eprintln!(files; "copymgr: unit {unit}: journal begins to fail: {error}");
            self.failing = true;
        }
        self.well = false;
        if self.cause.is_none() {
            self.cause = format!(in files.alloc(); "{error}").ok();
        }
        self.faults = self.faults.saturating_add(1);
    }

    /// A sync went well.
    fn synced(&mut self, files: &HostRuntime, unit: u16)
        ensures faults { self.new.faults ≡ self.old.faults }
    {
        if self.failing {
            let _ = eprintln!(files; "copymgr: unit {unit}: journal goes on");
        }
        self.failing = false;
        self.well = true;
    }
}

/// The file of a unit's journal, which is opened at the first call, and made empty then where it is absent.
#[derive(Drop)]
pub struct JournalFile<'a> {
    files: &'a HostRuntime,
    folder: &'a str,
    path: String,
    unit: u16,
    /// None before the first call, and as long as opening fails.
    journal: Option<OpenJournal>,
    calls: Calls,
}

impl<'a> JournalFile<'a> {
    /// The file of this unit at this path in the folder, with no fault so far. Nothing is opened.
    pub fn new(files: &'a HostRuntime, folder: &'a str, path: String, unit: u16) -> JournalFile<'a>
        ensures reads { ⟦<JournalFile<'a> as Disk>⟧.reads result ≡ None }
        ensures faults { ⟦<JournalFile<'a> as Disk>⟧.disk_faults result ≡ 0 }
    {
        JournalFile {
            files,
            folder,
            path,
            unit,
            journal: None,
            calls: Calls::none(),
        }
    }

    /// The host's text of the first error that a call met; none where no call failed, or memory was wanted for the text.
    pub fn cause(&self) -> Option<&str> {
        match &self.calls.cause {
            Some(cause) => Some(cause.as_str()),
            None => None,
        }
    }

    /// Opens the file where it is not open.
    fn ready(&mut self) -> io::Result<()>
        ensures faults { self.new.calls ≡ self.old.calls }
    {
        if self.journal.is_none() {
            let journal = OpenJournal::open(self.files, self.folder, self.path.as_str())?;
            self.journal = Some(journal);
        }
        Ok(())
    }

    /// The number of bytes.
    fn bytes(&mut self) -> io::Result<u64>
        ensures faults { self.new.calls ≡ self.old.calls }
    {
        self.ready()?;
        match &self.journal {
            Some(journal) => Ok(journal.file.metadata()?.len()),
            None => Err(not_open()),
        }
    }

    /// How many bytes were read.
    fn read(&mut self, at: u64, into: &mut [u8]) -> io::Result<usize>
        ensures within { IfOk result (λ n. n ≤ length into.new) }
        ensures some { IfOk result (λ n. 0 < length into.old → 0 < n) }
        ensures length { length into.new ≡ length into.old }
        ensures faults { self.new.calls ≡ self.old.calls }
    {
        self.ready()?;
        match &self.journal {
            Some(journal) => journal.read_at(at, into),
            None => Err(not_open()),
        }
    }

    /// Writes all of these bytes.
    fn write(&mut self, at: u64, from: &[u8]) -> io::Result<()>
        ensures faults { self.new.calls ≡ self.old.calls }
    {
        self.ready()?;
        match &mut self.journal {
            Some(journal) => journal.write_at(at, from),
            None => Err(not_open()),
        }
    }

    /// Syncs what was written.
    fn keep(&mut self) -> io::Result<()>
        ensures faults { self.new.calls ≡ self.old.calls }
    {
        self.ready()?;
        match &mut self.journal {
            Some(journal) => journal.sync(),
            None => Err(not_open()),
        }
    }

    /// Counts a call that failed.
    fn fault(&mut self, error: &io::Error) -> DiskFailed
        ensures counted { self.new.calls.faults ≡ one_more self.old.calls.faults }
        ensures counts { self.old.calls.faults ≤ self.new.calls.faults }
    {
        self.calls.failed(self.files, self.unit, error);
        DiskFailed
    }
}

impl Disk for JournalFile<'_> {
    ghost reads = { λ _. None };

    ghost disk_faults = { λ d. d.calls.faults };

    ghost moment = { λ _. 0 };

    ghost may_leave = { λ _ _. Unit {0} };

    ghost left_since = { λ _ _ _. Unit {0} };

    ghost counts_now = { λ _ _ _ _ _. tt };

    ghost only_now = { λ _ _ _. tt };

    ghost reads_left = { λ _ _ _. tt };

    fn size(&mut self) -> Result<u64, DiskFailed> {
        match self.bytes() {
            Ok(bytes) => Ok(bytes),
            Err(error) => Err(self.fault(&error)),
        }
    }

    fn read_at(&mut self, at: u64, into: &mut [u8]) -> Result<usize, DiskFailed> {
        match self.read(at, into) {
            Ok(count) => Ok(count),
            Err(error) => Err(self.fault(&error)),
        }
    }

    fn write_at(&mut self, at: u64, from: &[u8]) -> Result<(), DiskFailed> {
        match self.write(at, from) {
            Ok(()) => Ok(()),
            Err(error) => Err(self.fault(&error)),
        }
    }

    fn sync(&mut self) -> Result<(), DiskFailed> {
        match self.keep() {
            Ok(()) => {
                self.calls.synced(self.files, self.unit);
                Ok(())
            }
            Err(error) => Err(self.fault(&error)),
        }
    }
}

/// The disks over the files `journal-0` to `journal-15` of a folder.
pub fn journal_files<'a>(
    files: &'a HostRuntime,
    alloc: Global,
    folder: &'a str,
) -> Result<Sequence<JournalFile<'a>>, OutOfMemory>
    ensures count { IfOk result (λ disks. length disks ≡ 16) }
{
    let mut disks = Sequence::empty(alloc);
    for unit in 0..UNITS {
        let path = format!(in alloc; "{folder}/journal-{unit}")?;
        disks.push(JournalFile::new(files, folder, path, unit))?;
    }
    Ok(disks)
}
