// Takes turns in many threads, and prints how many were taken. bench/run-turns measures it.
//
//     turn_bench gate|mutex THREADS TURNS [MICROSECONDS]
//
// Each of so many threads takes so many turns, at one gate or at one mutex, and sleeps so long in each.
#![tactic(auto)]

mod gates;
mod mutexes;
mod tally;

use std::alloc::Global;
use std::env::{self, Args};
use std::process::ExitCode;
use std::time::Duration;

/// What the threads take turns at.
#[derive(Clone, Copy)]
enum Place {
    Gate,
    Mutex,
}

/// What the words ask for.
#[derive(Clone, Copy)]
struct Job {
    place: Place,
    threads: u32,
    turns: u32,
    pause: Duration,
}

/// What the words ask for, if they are as above. The first is the program's name.
fn read_words(mut words: Args<Global>) -> Option<Job> {
    let place = match words.nth(1)?.as_str() {
        "gate" => Place::Gate,
        "mutex" => Place::Mutex,
        _ => return None,
    };
    let threads = words.next()?.parse::<u32>().ok()?;
    let turns = words.next()?.parse::<u32>().ok()?;
    let pause = match words.next() {
        Some(word) => Duration::from_micros(word.parse::<u64>().ok()?),
        None => Duration::ZERO,
    };
    Some(Job {
        place,
        threads,
        turns,
        pause,
    })
}

fn main(rt: HostRuntime) -> ExitCode {
    let Some(job) = env::args(&rt).ok().and_then(read_words) else {
        let _ = eprintln!(rt; "turn_bench: use gate|mutex THREADS TURNS [MICROSECONDS]");
        return ExitCode::FAILURE;
    };
    let taken = match job.place {
        Place::Gate => gates::taken(&rt, rt.alloc(), job.threads, job.turns, job.pause),
        Place::Mutex => mutexes::taken(&rt, rt.alloc(), job.threads, job.turns, job.pause),
    };
    match taken {
        Ok(turns) => {
            let _ = println!(rt; "{turns} turns");
            ExitCode::SUCCESS
        }
        Err(error) => {
            let _ = eprintln!(rt; "turn_bench: {error}");
            ExitCode::FAILURE
        }
    }
}
