use crate::tally::Tally;
use cm_base::OutOfMemory;
use std::alloc::Global;
use std::sync::{Mutex, Wait};
use std::thread::{self, Threads};
use std::time::{Clock, Duration};

/// Takes so many turns, and sleeps in each.
fn take_turns<R: Wait + Clock>(rt: &R, mutex: &Mutex<Tally>, turns: u32, pause: Duration) {
    for _ in 0..turns {
        let mut tally = mutex.lock(rt);
        if !pause.is_zero() {
            thread::sleep(rt, pause);
        }
        tally.add();
    }
}

/// How many turns so many threads have taken at one mutex.
pub fn taken<R: Wait + Threads + Clock + Sync>(
    rt: &R,
    alloc: Global,
    threads: u32,
    turns: u32,
    pause: Duration,
) -> Result<u64, OutOfMemory> {
    let mutex = Mutex::new(Tally { turns: 0 });
    thread::map_indices(
        rt,
        alloc,
        threads as usize,
        &|_| take_turns(rt, &mutex, turns, pause),
    )?;
    Ok(mutex.into_inner().turns)
}
