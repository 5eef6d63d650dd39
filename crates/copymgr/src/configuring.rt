// The file of a configuration, as a manager is given it: a header, or a text.
ghost use Rattle.std.specs.Prelude.{◌≤◌, length, IfOk};

use crate::ending::Ending;
use crate::status::Status;
use cm_base::{Bytes, Config, OutOfMemory, UnitList};
use cm_frame::write_header;
use config_text::{ConfigFault, Told, read_file};
use std::alloc::Global;
use std::fs::File;
use std::io::{self, Read};

/// Bytes that are read of a file. A text of 16 units that says all it may has less than a tenth of them.
const LONGEST: usize = 65_536;

/// Bytes of a secret.
const SECRET: usize = 32;

/// A machine of units: its header, and how many units it has.
#[derive(Drop)]
pub struct Configuration {
    pub header: Bytes,
    pub units: u16,
}

/// How the program ends where a file can't be read.
fn unread(alloc: Global, path: &str, error: &io::Error) -> Ending {
    Ending::told(alloc, Status::ReadFault, path, error)
}

/// Reads a file into this room, as far as there is room: how many bytes were read.
fn read_into(
    host: &HostRuntime,
    alloc: Global,
    path: &str,
    room: &mut [u8],
) -> Result<usize, Ending>
    ensures { IfOk result (λ n. n ≤ length room.new) }
{
    let mut file = File::open(host, path).map_err(|error| unread(alloc, path, &error))?;
    let mut at = 0;
    while at < room.len() {
        match file.read(&mut room[at..]) {
            Ok(0) => break,
            Ok(count) => at += count,
            Err(error) => return Err(unread(alloc, path, &error)),
        }
    }
    Ok(at)
}

/// The path of a file that another one names: from that one's folder, where it does not begin at the root.
fn named_by(alloc: Global, file: &str, name: &str) -> Result<String, OutOfMemory> {
    let folder = match file.rsplit_once('/') {
        Some((folder, _)) if !name.starts_with('/') => folder,
        _ => return Ok(format!(in alloc; "{name}")?),
    };
    Ok(format!(in alloc; "{folder}/{name}")?)
}

/// The secret in a file, which has 32 bytes and no more.
fn read_secret(host: &HostRuntime, alloc: Global, path: &str) -> Result<[u8; SECRET], Ending> {
    let mut room = [0; SECRET + 1];
    let count = read_into(host, alloc, path, &mut room)?;
    <[u8; SECRET]>::try_from(&room[..count]).map_err(|_| {
        let why = "a secret has 32 bytes, and no more";
        Ending::told(alloc, Status::BadHeader(0), path, &why)
    })
}

/// The byte at which a line of a text begins, of which the first is 1.
fn place_of(text: &[u8], line: usize) -> u64 {
    let mut left = line;
    for (place, byte) in text.iter().enumerate() {
        if left <= 1 {
            return place as u64;
        }
        if *byte == b'\n' {
            left -= 1;
        }
    }
    text.len() as u64
}

/// How the program ends where a file tells no machine of units.
fn refused(alloc: Global, path: &str, bytes: &[u8], fault: ConfigFault) -> Ending {
    match fault {
        ConfigFault::OutOfMemory => Ending::new(Status::OutOfMemory),
        ConfigFault::Header { place } => Ending::new(Status::BadHeader(place)),
        ConfigFault::Text { line, .. } => {
            let status = Status::BadHeader(place_of(bytes, line));
            Ending::told(alloc, status, path, &fault)
        }
    }
}

/// The machine of units that a file tells by a header or by a text. Its secret may stand in a file of its own, whose path is
/// taken from the folder of this one.
fn told(
    host: &HostRuntime,
    alloc: Global,
    path: &str,
    bytes: &[u8],
) -> Result<Configuration, Ending> {
    let config = match read_file(alloc, bytes) {
        Ok(Told::Whole(config)) => config,
        Ok(Told::SecretIn { path: name, units }) => {
            let Ok(name) = named_by(alloc, path, &name) else {
                return Err(Ending::new(Status::OutOfMemory));
            };
            Config::new(read_secret(host, alloc, &name)?, units)
        }
        Err(fault) => return Err(refused(alloc, path, bytes, fault)),
    };
    let header = write_header(alloc, &config).map_err(|_| Ending::new(Status::OutOfMemory))?;
    Ok(Configuration {
        header,
        units: config.units(),
    })
}

/// Reads the file of a configuration.
pub fn read_configuration(
    host: &HostRuntime,
    alloc: Global,
    path: &str,
) -> Result<Configuration, Ending> {
    let Ok(mut room) = vec![in alloc; 0; LONGEST] else {
        return Err(Ending::new(Status::OutOfMemory));
    };
    let count = read_into(host, alloc, path, &mut room)?;
    told(host, alloc, path, &room[..count])
}
