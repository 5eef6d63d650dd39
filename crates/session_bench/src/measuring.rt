use crate::words::Failed;
use cm_base::{Bytes, CallList, Config, MemoryLink, MemorySink, MemorySource, SetClock};
use session::{UnitRuns, session};
use std::alloc::Global;
use std::io::{Input, Print, Read};
use std::time::{Clock, Duration, Instant};
use trace_replay::replay;

/// All of standard input, which is given by pulls as long as they are asked for.
fn whole_input<R: Input>(rt: &R, alloc: Global) -> Result<MemorySource, Failed> {
    let mut bytes = Vec::new(alloc);
    rt.reader().read_to_end(&mut bytes)?;
    Ok(MemorySource::new(Bytes::from_vec(bytes), usize::MAX, CallList::empty(alloc)))
}

/// A sink that takes all that is pushed.
fn whole_output(alloc: Global) -> MemorySink {
    MemorySink::new(alloc, usize::MAX, CallList::empty(alloc))
}

/// Prints how many replies there were, how many bytes they have, and how long they took.
fn tell<R: Print>(rt: &R, replies: u64, bytes: usize, took: Duration) -> Result<(), Failed> {
    let micros = took.as_micros();
    println!(rt; "{replies} replies, {bytes} bytes, {micros} microseconds")?;
    Ok(())
}

/// Serves one connection over memory. Whether its input ended between two requests.
pub fn session_over_memory<R: Input + Print + Clock>(
    rt: &R,
    alloc: Global,
    config: &Config,
) -> Result<bool, Failed> {
    let mut units = UnitRuns::new(alloc, config.copy(alloc)?, 0)?;
    let mut link = MemoryLink::new(whole_input(rt, alloc)?, whole_output(alloc));
    let started = Instant::now(rt)?;
    let end = session(alloc, config, &mut link, &mut units, &SetClock::new(0));
    let took = started.elapsed(rt)?;
    tell(rt, end.frames, link.taken().len(), took)?;
    Ok(end.fault.is_none())
}

/// Plays a trace over memory. Whether it ended between two items.
pub fn replay_over_memory<R: Input + Print + Clock>(rt: &R, alloc: Global) -> Result<bool, Failed> {
    let mut input = whole_input(rt, alloc)?;
    let mut output = whole_output(alloc);
    let started = Instant::now(rt)?;
    let played = replay(alloc, &mut input, &mut output);
    let took = started.elapsed(rt)?;
    let replies = played.map_or(0, |summary| summary.replies);
    tell(rt, replies, output.as_slice().len(), took)?;
    Ok(played.is_ok())
}
