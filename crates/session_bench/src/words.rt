use cm_base::{Config, OutOfMemory, Parsed};
use cm_frame::read_header;
use std::alloc::{AllocError, Global};
use std::env::{self, Args};
use std::rt::Env;
use std::{fmt, io};

/// What the words ask for.
#[derive(Drop)]
pub enum Job {
    /// One connection over the standard streams.
    Serve {
        config: Config,
        nexus: u32,
        /// When the first act is done, in seconds.
        moment: u64,
        /// From one act to the next.
        seconds: u64,
    },
    /// One connection over memory, whose time is told.
    Session {
        config: Config,
    },
    /// A replay over memory, whose time is told.
    Replay,
}

/// Why nothing was done, or nothing was told.
#[derive(Debug, Drop)]
pub enum Failed {
    Usage,
    OutOfMemory,
    System(io::Error),
}

impl fmt::Display for Failed {
    fn fmt<W: fmt::Write>(&self, f: &mut fmt::Formatter<W>) -> fmt::Result {
        match self {
            Failed::Usage => write!(
                f,
                "use serve HEADER NEXUS MOMENT SECONDS, session HEADER, or replay"
            ),
            Failed::OutOfMemory => write!(f, "{OutOfMemory}"),
            Failed::System(error) => write!(f, "{error}"),
        }
    }
}

impl From<io::Error> for Failed {
    fn from(error: io::Error) -> Failed {
        Failed::System(error)
    }
}

impl From<OutOfMemory> for Failed {
    fn from(_: OutOfMemory) -> Failed {
        Failed::OutOfMemory
    }
}

impl From<AllocError> for Failed {
    fn from(_: AllocError) -> Failed {
        Failed::OutOfMemory
    }
}

/// The configuration that a header in hexadecimal tells.
fn config_of(alloc: Global, word: &str) -> Result<Config, Failed> {
    let bytes = hex::decode(alloc, word).map_err(|_| Failed::Usage)?;
    match read_header(alloc, &bytes)? {
        Parsed::Whole { value, used } if used == bytes.len() => Ok(value),
        _ => Err(Failed::Usage),
    }
}

/// The next word.
fn next(words: &mut Args<Global>) -> Result<String, Failed> {
    words.next().ok_or(Failed::Usage)
}

/// The next word, as a number.
fn number(words: &mut Args<Global>) -> Result<u64, Failed> {
    next(words)?
        .as_str()
        .parse::<u64>()
        .map_err(|_| Failed::Usage)
}

/// What `serve` is to do.
fn serve(alloc: Global, words: &mut Args<Global>) -> Result<Job, Failed> {
    Ok(Job::Serve {
        config: config_of(alloc, next(words)?.as_str())?,
        nexus: u32::try_from(number(words)?).map_err(|_| Failed::Usage)?,
        moment: number(words)?,
        seconds: number(words)?,
    })
}

/// What the words of the command line ask for. The first is the program's name.
pub fn read_words<R: Env + Alloc<A = Global>>(rt: &R, alloc: Global) -> Result<Job, Failed> {
    let mut words = env::args(rt)?;
    words.next();
    let job = match next(&mut words)?.as_str() {
        "serve" => serve(alloc, &mut words)?,
        "session" => Job::Session {
            config: config_of(alloc, next(&mut words)?.as_str())?,
        },
        "replay" => Job::Replay,
        _ => return Err(Failed::Usage),
    };
    match words.next() {
        None => Ok(job),
        Some(_) => Err(Failed::Usage),
    }
}
