// What is to be known of the folder of `serve` before its units are served.
use crate::announced::Notes;
use cm_base::OutOfMemory;
use std::alloc::Global;
use std::fs;

/// Says that a file of an earlier run will be emptied, where there is one that has bytes.
fn note_of_file(
    host: &HostRuntime,
    alloc: Global,
    path: &str,
    notes: &mut Notes,
) -> Result<(), OutOfMemory> {
    match fs::metadata(host, path) {
        Ok(found) if found.len() > 0 => {
            let bytes = found.len();
            let note = format!(in alloc;
                "{path} has {bytes} bytes of an earlier run, and is emptied when entries are written"
            )?;
            notes.push(note)?;
            Ok(())
        }
        _ => Ok(()),
    }
}

/// What is to be known of a folder to which the entries of so many units are written: that it is not there, that it is
/// none, or which of its files will be emptied.
pub fn folder_notes(
    host: &HostRuntime,
    alloc: Global,
    folder: &str,
    units: u16,
) -> Result<Notes, OutOfMemory> {
    let mut notes = Vec::new(alloc);
    match fs::metadata(host, folder) {
        Ok(found) if found.is_dir() => {
            for unit in 0..units {
                let path = format!(in alloc; "{folder}/unit-{unit}")?;
                note_of_file(host, alloc, path.as_str(), &mut notes)?;
            }
        }
        Ok(_) => notes.push(format!(in alloc; "{folder} is no folder, so no entry is written")?)?,
        Err(error) => notes.push(format!(in alloc; "{folder}: {error}, so no entry is written")?)?,
    }
    Ok(notes)
}
