ghost use Rattle.std.specs.Prelude.{◌≡◌, ◌≤◌, ◌<◌, length, None, IfOk};
ghost use Rattle.cm_base.specs.Sides.{no_side};
ghost use Rattle.cm_history.specs.declared.act.Entry.{Entry};
ghost use Rattle.cm_history.proofs.PublicLaws.{Each};

use cm_base::{OutOfMemory, Sink, WriteFailed};
use cm_server::RecorderList;
use recorder::{Recorder, SinkRecorder};
use std::alloc::Global;
use std::fs::File;
use std::io::{self, Write};

/// Units that a machine may have.
const UNITS: u16 = 16;

/// A file of a unit, which is made, and made empty, at the first push. It tells nothing of the bytes that it took.
#[derive(Drop)]
pub struct UnitFile<'a> {
    files: &'a HostRuntime,
    path: String,
    /// None before the first push.
    file: Option<File>,
    /// The last push failed.
    is_failing: bool,
    faults: u64,
}

impl<'a> UnitFile<'a> {
    /// The file at this path, with no fault so far. Nothing is opened.
    pub fn new(files: &'a HostRuntime, path: String) -> UnitFile<'a>
        ensures taken { ⟦<UnitFile<'a> as Sink>⟧.taken result ≡ None }
        ensures faults { ⟦<UnitFile<'a> as Sink>⟧.write_faults result ≡ 0 }
    {
        UnitFile {
            files,
            path,
            file: None,
            is_failing: false,
            faults: 0,
        }
    }

    /// How many of these bytes the file took. One that takes none of some bytes has failed.
    fn write(&mut self, from: &[u8]) -> io::Result<usize>
        ensures within { IfOk result (λ n. n ≤ length from.now) }
        ensures some { IfOk result (λ n. 0 < length from.now → 0 < n) }
        ensures faults { self.new.faults ≡ self.old.faults }
    {
        if self.file.is_none() {
            self.file = Some(File::create(self.files, self.path.as_str())?);
        }
        match self.file.as_mut() {
            Some(file) => match file.write(from)? {
                0 if !from.is_empty() => Err(io::Error::from(io::ErrorKind::WriteZero)),
                count => Ok(count),
            },
            None => Err(io::Error::from(io::ErrorKind::NotFound)),
        }
    }

    /// Says on standard error that the file goes on, where it failed before.
    fn tell_going_on(&mut self)
        ensures faults { self.new.faults ≡ self.old.faults }
    {
        if self.is_failing {
            self.is_failing = false;
            let _ = eprintln!(self.files; "copymgr: {}: entries are written again", self.path);
        }
    }

    /// Says on standard error that the file begins to fail, where it did not fail before.
    fn tell_failing(&mut self, error: &io::Error)
        ensures faults { self.new.faults ≡ self.old.faults }
    {
        if !self.is_failing {
            self.is_failing = true;
            let _ = eprintln!(self.files;
                "copymgr: {}: {error}, so entries are kept in memory",
                self.path
            );
        }
    }
}

impl Sink for UnitFile<'_> {
    ghost taken = { λ _. None };

    ghost write_faults = { λ f. f.faults };

    ghost unpushed = { λ _. no_side };

    /// A file that can't be made, or that takes none of some bytes, has failed. When it begins to fail, and when it goes
    /// on again, is said on standard error.
    fn push(&mut self, from: &[u8]) -> Result<usize, WriteFailed> {
        match self.write(from) {
            Ok(count) => {
                self.tell_going_on();
                Ok(count)
            }
            Err(error) => {
                self.tell_failing(&error);
                self.faults = self.faults.saturating_add(1);
                Err(WriteFailed)
            }
        }
    }
}

/// Recorders over the files `unit-0` to `unit-15` of a folder.
pub fn unit_files<'a>(
    files: &'a HostRuntime,
    alloc: Global,
    folder: &str,
) -> Result<RecorderList<SinkRecorder<UnitFile<'a>>>, OutOfMemory>
    ensures count { IfOk result (λ list. length list ≡ 16) }
    ensures fits { IfOk result (λ list. Each (λ r. (e : Entry) → ⟦<SinkRecorder<UnitFile<'a>> as Recorder>⟧.fits r e) list) }
{
    let mut recorders = RecorderList::empty(alloc);
    for unit in 0..UNITS {
        let path = format!(in alloc; "{folder}/unit-{unit}")?;
        recorders.push(SinkRecorder::new(alloc, UnitFile::new(files, path)))?;
    }
    Ok(recorders)
}
