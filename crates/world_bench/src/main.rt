// Has acts done by many threads in one world. bench/run-world measures it.
//
//     world_bench blocks THREADS UNITS ACTS       each thread writes and reads a block in turn, on the unit of its number
//     world_bench mixed THREADS UNITS ACTS FEW    each thread asks random acts of all kinds of any unit
//
// Each of so many threads has a pass of its own and asks so many acts of 1 to 16 units. Of mixed acts each answer is
// compared, over the merged history, with that of a unit that is asked in one thread, and the answers to the first FEW
// entries of each unit with those of the plain model, which takes the longer the more there are. The exit status is 1
// where one differs.
#![tactic(auto)]

ghost use Rattle.std.specs.Prelude.{◌≤◌, IfSome};

mod checking;
mod failed;
mod machine;
mod threads;
mod work;

use checking::compare;
use failed::Failed;
use machine::units_of;
use nexus::World;
use std::alloc::Global;
use std::env::{self, Args};
use std::process::ExitCode;
use std::sync::Wait;
use std::thread::Threads;
use threads::{Done, ask_side_by_side};
use work::{Kind, Work};

/// What the words ask for.
#[derive(Clone, Copy)]
struct Job {
    threads: u16,
    work: Work,
    /// How many entries of each unit are compared with the plain model.
    few: u32,
}

/// What the words ask for, if they are as above. The first is the program's name.
fn read_words(mut words: Args<Global>) -> Option<Job>
    ensures units { IfSome result (λ job. (1 ≤ job.work.units) × (job.work.units ≤ 16)) }
    ensures threads { IfSome result (λ job. job.threads ≤ 65_534) }
{
    let kind = match words.nth(1)?.as_str() {
        "blocks" => Kind::Blocks,
        "mixed" => Kind::Mixed,
        _ => return None,
    };
    let threads = words.next()?.parse::<u16>().ok()?;
    let units = words.next()?.parse::<u16>().ok()?;
    let acts = words.next()?.parse::<u32>().ok()?;
    let few = match kind {
        Kind::Blocks => 0,
        Kind::Mixed => words.next()?.parse::<u32>().ok()?,
    };
    if !(1..=16).contains(&units) || threads == u16::MAX {
        return None;
    }
    let work = Work { kind, units, acts };
    Some(Job { threads, work, few })
}

/// Does what the words ask for, and tells how many entries there are in the end.
fn run<R: Wait + Threads + Sync>(rt: &R, alloc: Global, job: Job) -> Result<usize, Failed>
    requires units { (1 ≤ job.work.units) × (job.work.units ≤ 16) }
    requires threads { job.threads ≤ 65_534 }
{
    let config = units_of(alloc, job.work.units)?;
    let (world, root) = World::new(alloc, &config)?;
    let Done { root, answers } = ask_side_by_side(
        rt,
        alloc,
        &config,
        &world,
        root,
        job.work,
        0,
        job.threads,
    )?;
    let Ok(closed) = world.close(alloc, root) else {
        return Err(Failed::OutOfMemory);
    };
    if matches!(job.work.kind, Kind::Mixed) {
        compare(alloc, &config, &closed.merged, &answers, job.few)?;
    }
    Ok(closed.merged.len())
}

fn main(rt: HostRuntime) -> ExitCode {
    let Some(job) = env::args(&rt).ok().and_then(read_words) else {
        let _ = eprintln!(rt;
            "world_bench: use blocks THREADS UNITS ACTS, or mixed THREADS UNITS ACTS FEW"
        );
        return ExitCode::FAILURE;
    };
    match run(&rt, rt.alloc(), job) {
        Ok(entries) => {
            let _ = println!(rt; "{entries} entries");
            ExitCode::SUCCESS
        }
        Err(failed) => {
            let _ = eprintln!(rt; "world_bench: {failed}");
            ExitCode::FAILURE
        }
    }
}
