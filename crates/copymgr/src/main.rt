// The program: replays a recorded trace from standard input to standard output, or a generated one, checks the replies
// that were recorded with a trace, copies blocks as a host does, or serves connections, with or without journals, or until
// it is asked to end.
#![tactic(auto)]

mod announced;
mod chained;
#[cfg(test)]
mod checks;
mod configuring;
mod ending;
mod ends;
mod folder_notes;
mod generating;
mod heard;
#[cfg(test)]
mod heard_tests;
mod hosting;
#[cfg(test)]
mod hosting_tests;
mod journal_cause;
mod journal_files;
#[cfg(test)]
mod journal_tests;
mod last_report;
mod managed;
mod managing;
mod open_links;
mod order;
mod ready;
#[cfg(test)]
mod ready_tests;
mod report_output;
mod requests;
#[cfg(test)]
mod rows;
mod serving;
#[cfg(test)]
mod serving_tests;
#[cfg(test)]
mod sessions;
mod status;
#[cfg(test)]
mod status_tests;
mod storing;
#[cfg(test)]
mod tests;
mod top;
mod unit_counts;
mod unit_files;
mod unkept;
#[cfg(test)]
mod unkept_tests;
mod watching;

use cm_base::{OutOfMemory, StandardInput, StandardOutput, Word};
use ending::Ending;
use hosting::{are_hosting, host_words};
use managing::{are_managing, manage_words};
use ready::{Empty, ReadyMemory, make_ready};
use rtrb::RingBuffer;
use serving::{are_serving, serve_words};
use status::Status;
use std::alloc::{AllocError, Global};
use std::env::{self, Args};
use std::io::{self, Input, Print};
use std::process::ExitCode;
use std::sync::Wait;
use std::thread::{self, Parker, Threads};
use storing::{are_storing, store_words};

/// The words of the command line, without the program's name.
fn words(alloc: Global, args: Args<Global>) -> Result<Vec<Word>, OutOfMemory> {
    let mut words = Vec::new(alloc);
    for arg in args.skip(1) {
        words.push(Word::from_text(alloc, arg.as_str())?)?;
    }
    Ok(words)
}

/// How the program ends where its words can't be read: for want of memory, or because one is no text.
fn unread(error: io::Error) -> Status {
    match error.kind() {
        io::ErrorKind::OutOfMemory => Status::OutOfMemory,
        _ => Status::Usage,
    }
}

/// How many data-outs there may be memory for before it is wanted.
const READY: usize = 2;

/// Does what the words say, while another thread makes memory ready. Where no thread can be made, memory
/// is taken as it is asked for.
fn work<R: Threads + Wait + Input + Print + Sync>(
    rt: &R,
    alloc: Global,
    words: &[Word],
) -> Result<Status, AllocError> {
    let (orders, mut ordered) = RingBuffer::new(alloc, READY)?;
    let (mut made, ready) = RingBuffer::with_protocol::<Global, Empty>(alloc, READY)?;
    let parker = Parker::new();
    let maker = &parker;
    let status = thread::scope(thread::scope_env(), rt, move |scope| {
        let _ = scope.spawn(move || make_ready(rt, alloc, &mut ordered, &mut made, maker));
        let mut memory = ReadyMemory::new(alloc, orders, ready, maker);
        let mut input = StandardInput::new(rt.reader());
        let mut output = StandardOutput::new(io::writer(rt));
        let status = top::top_with(alloc, &mut memory, words, &mut input, &mut output);
        memory.close();
        status
    });
    Ok(status)
}

/// Does what the command line says. Words that are no text are words that the program doesn't know.
fn run<R: Threads + Wait + Input + Print + Copy + Send + Sync + 'static>(
    rt: &R,
    host: &HostRuntime,
) -> Ending {
    let args = match env::args(host) {
        Ok(args) => args,
        Err(error) => return Ending::new(unread(error)),
    };
    match words(host.alloc(), args) {
        Ok(words) if are_hosting(&words) => host_words(host, host.alloc(), &words),
        Ok(words) if are_serving(&words) => serve_words(rt, host, host.alloc(), &words),
        Ok(words) if are_storing(&words) => store_words(rt, host, host.alloc(), &words),
        Ok(words) if are_managing(&words) => manage_words(rt, host, host.alloc(), &words),
        Ok(words) => Ending::new(work(rt, host.alloc(), &words).unwrap_or(Status::OutOfMemory)),
        Err(OutOfMemory) => Ending::new(Status::OutOfMemory),
    }
}

fn main(rt: HostRuntime) -> ExitCode {
    let ending = run(&rt, &rt);
    let status = ending.status;
    let code = status.code();
    if code != 0 {
        let _ = eprintln!(rt; "copymgr: {status}");
    }
    if let Some(cause) = &ending.cause {
        let _ = eprintln!(rt; "copymgr: {cause}");
    }
    ExitCode::from(code)
}
