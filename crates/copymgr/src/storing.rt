// The word `store`: as `serve`, with the entries of the units in journals, which they go on with.
use crate::ending::Ending;
use crate::journal_cause::journal_cause;
use crate::journal_files::{JournalFile, journal_files};
use crate::report_output::ReportOutput;
use crate::serving::{CONFIGURATION, begin, text};
use crate::status::Status;
use cm_base::{StandardOutput, SystemClock, Word};
use cm_server::serve_stored;
use std::alloc::Global;
use std::io;
use std::sync::Wait;
use std::thread::Threads;

/// Whether the words are `store` and three more.
pub fn are_storing(words: &[Word]) -> bool {
    match words {
        [word, _, _, _] => word.as_slice() == b"store".as_slice(),
        _ => false,
    }
}

/// Why a call of a file failed: of the first of these files, unit by unit, of which one did.
fn disk_cause(alloc: Global, folder: &str, files: &[JournalFile<'_>]) -> Option<String> {
    for (unit, file) in files.iter().enumerate() {
        if let Some(cause) = file.cause() {
            return format!(in alloc; "{folder}/journal-{unit}: {cause}").ok();
        }
    }
    None
}

/// Serves as the words say, `store ADDRESS SESSIONS FOLDER`, units whose journals are files of the folder. It reads the
/// configuration from standard input, listens, and writes the report to standard output when all connections were served.
/// It waits for each of them to come and to end. `rt` makes the threads; files, sockets and streams are the host's.
pub fn store_words<W: Threads + Wait + Sync>(
    rt: &W,
    host: &HostRuntime,
    alloc: Global,
    words: &[Word],
) -> Ending {
    let [_, address, _, folder] = words else {
        return Ending::new(Status::Usage);
    };
    let folder = text(folder);
    let mut bytes = [0; CONFIGURATION];
    let (count, mut listener) = match begin(host, alloc, address, &mut bytes) {
        Ok(begun) => begun,
        Err(ending) => return ending,
    };
    let config = &bytes[..count];
    let mut output = ReportOutput::new(StandardOutput::new(io::writer(host)));
    let Ok(disks) = journal_files(host, alloc, folder) else {
        return Ending::new(Status::OutOfMemory);
    };
    let stored = serve_stored(
        rt,
        alloc,
        words,
        config,
        &mut listener,
        SystemClock::new(host),
        &mut output,
        disks,
    );
    let status = Status::from(stored.status);
    match status {
        Status::BadJournal { unit, place } => Ending {
            status,
            cause: journal_cause(host, alloc, config, folder, unit, place),
        },
        Status::DiskFault => Ending {
            status,
            cause: disk_cause(alloc, folder, stored.disks.as_slice()),
        },
        _ => Ending::kept(alloc, status, output.kept()),
    }
}
