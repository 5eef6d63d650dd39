// Records entries on standard output.
//
//     entry_texts writes COUNT BLOCKS             so many Writes, each of so many blocks of 512 bytes
//     entry_texts writes COUNT BLOCKS buffered    the same, with 64 KiB of them gathered before each write
//     entry_texts copy                            the entries that standard input has
//
// bench/run-records measures the first, and tools/campaigns/written-entries asks the second.
#![tactic(auto)]

mod copying;
mod failed;
mod making;

use cm_base::StandardOutput;
use copying::copy_entries;
use failed::Failed;
use making::record_writes;
use std::alloc::Global;
use std::env::{self, Args};
use std::io::{self, BufWriter, Read, Write};
use std::process::ExitCode;

/// What the words ask for.
#[derive(Clone, Copy)]
enum Job {
    Writes {
        count: u64,
        blocks: u32,
        buffered: bool,
    },
    Copy,
}

/// What the words ask for, if they are as above. The first is the program's name.
fn read_words(mut words: Args<Global>) -> Option<Job> {
    match words.nth(1)?.as_str() {
        "writes" => {
            let count = words.next()?.parse::<u64>().ok()?;
            let blocks = words.next()?.parse::<u32>().ok()?;
            let buffered = words.next().is_some_and(|word| word.as_str() == "buffered");
            Some(Job::Writes {
                count,
                blocks,
                buffered,
            })
        }
        "copy" => Some(Job::Copy),
        _ => None,
    }
}

/// Records so many Writes, each of so many blocks, by few writes to standard output.
fn write_buffered(rt: &HostRuntime, count: u64, blocks: u32) -> Result<(), Failed> {
    let buffer = BufWriter::with_capacity(rt.alloc(), 65_536, io::writer(rt));
    let mut buffer = buffer.map_err(|_| Failed::OutOfMemory)?;
    record_writes(rt.alloc(), count, blocks, StandardOutput::new(&mut buffer))?;
    buffer.flush().map_err(|_| Failed::Write)
}

/// Records the entries that standard input has.
fn copy(rt: &HostRuntime) -> Result<(), Failed> {
    let mut bytes = Vec::new(rt.alloc());
    let read = rt.stdin().read_to_end(&mut bytes);
    read.map_err(|_| Failed::Read)?;
    copy_entries(rt.alloc(), &bytes, StandardOutput::new(io::writer(rt)))
}

fn run(rt: &HostRuntime, job: Job) -> Result<(), Failed> {
    match job {
        Job::Writes {
            count,
            blocks,
            buffered: true,
        } => write_buffered(rt, count, blocks),
        Job::Writes { count, blocks, .. } => {
            let sink = StandardOutput::new(io::writer(rt));
            record_writes(rt.alloc(), count, blocks, sink)
        }
        Job::Copy => copy(rt),
    }
}

fn main(rt: HostRuntime) -> ExitCode {
    let Some(job) = env::args(&rt).ok().and_then(read_words) else {
        let _ = eprintln!(rt; "entry_texts: use writes COUNT BLOCKS [buffered], or copy");
        return ExitCode::FAILURE;
    };
    match run(&rt, job) {
        Ok(()) => ExitCode::SUCCESS,
        Err(error) => {
            let _ = eprintln!(rt; "entry_texts: {error}");
            ExitCode::FAILURE
        }
    }
}
