// Serves one connection over the standard streams, or measures a session over memory, or a replay.
//
//     session_bench serve HEADER NEXUS MOMENT SECONDS
//     session_bench session HEADER
//     session_bench replay
//
// `serve` reads requests and writes replies; HEADER is the header of a trace in hexadecimal. The first act is done at
// MOMENT, and each next one so many SECONDS later. tools/campaigns/random-sessions compares it with a replay.
// `session` and `replay` read their whole input, which is requests or a trace, and then serve or play it over memory;
// they print how many replies there were, of how many bytes, and how long that took. bench/run-sessions runs both.
#![tactic(auto)]

mod measuring;
mod serving;
mod standard_link;
mod words;

use std::alloc::Global;
use std::io::{Input, Print};
use std::process::ExitCode;
use std::rt::Env;
use std::time::Clock;
use words::{Failed, Job};

/// The exit status of a measured run.
fn code_of(went_well: bool) -> u8 {
    u8::from(!went_well)
}

/// Does what the words say; the exit status.
fn run<R: Env + Input + Print + Clock + Alloc<A = Global>>(rt: &R) -> Result<u8, Failed> {
    let alloc = rt.alloc();
    match words::read_words(rt, alloc)? {
        Job::Serve {
            config,
            nexus,
            moment,
            seconds,
        } => {
            let end = serving::serve(rt, alloc, &config, nexus, moment, seconds)?;
            Ok(serving::code_of(end.fault))
        }
        Job::Session { config } => {
            Ok(code_of(measuring::session_over_memory(rt, alloc, &config)?))
        }
        Job::Replay => Ok(code_of(measuring::replay_over_memory(rt, alloc)?)),
    }
}

fn main(rt: HostRuntime) -> ExitCode {
    match run(&rt) {
        Ok(code) => ExitCode::from(code),
        Err(failed) => {
            let _ = eprintln!(rt; "session_bench: {failed}");
            ExitCode::from(6)
        }
    }
}
