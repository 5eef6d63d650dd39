// Sessions side by side.
ghost use Rattle.std.specs.Prelude.{false, true};

use super::memory::{listener_of_two, serve_told};
use super::*;
use std::sync::atomic::{AtomicBool, Ordering};
use std::thread::yield_now;

/// How long the first session waits for the second.
const TURNS: u32 = 10_000_000;

/// Holds the first session until the second was answered.
#[derive(Drop)]
struct UntilAnswered {
    answered: AtomicBool,
    gave_up: AtomicBool,
}

impl UntilAnswered {
    fn new() -> UntilAnswered {
        UntilAnswered {
            answered: AtomicBool::new(false),
            gave_up: AtomicBool::new(false),
        }
    }
}

impl Meet for UntilAnswered {
    ghost SAFE = { false };

    fn wait(&self, session: u32) {
        if session != 0 {
            return;
        }
        for _ in 0..TURNS {
            if self.answered.load(Ordering::SeqCst) {
                return;
            }
            yield_now();
        }
        self.gave_up.store(true, Ordering::SeqCst);
    }

    fn replies<R: Recorder + Drop>(&self, _session: u32, _pass: &Pass<R>) {}

    fn told(&self, session: u32) {
        if session == 1 {
            self.answered.store(true, Ordering::SeqCst);
        }
    }

    fn ended(&self, _session: u32, _end: SessionEnd) {}

    fn counts<R: Recorder + Drop>(&self, _unit: u16, _pass: &Pass<R>, _hold: &Hold<R>) {}

    fn uncounted(&self, _unit: u16) {}
}

#[test]
fn two_sessions_meet(rt: HostRuntime) -> Result<(), Fail> {
    let alloc = rt.alloc();
    let mut listener = listener_of_two(alloc, bytes_of(alloc, &READ)?, bytes_of(alloc, &WRITE)?)?;
    let mut output = output(alloc);
    let words = words_of(alloc, "serve A 2")?;
    let config = bytes_of(alloc, &[SMALL])?;
    let meet = UntilAnswered::new();
    let status = serve_told(
        &rt,
        alloc,
        &words,
        config.as_slice(),
        &mut listener,
        &mut output,
        &meet,
    );
    let Status::Done = status else {
        return Err("it did not end well".into());
    };
    assert!(rt; meet.answered.load(Ordering::SeqCst));
    assert!(rt; !meet.gave_up.load(Ordering::SeqCst));
    // The first session has read what the second wrote.
    assert_eq!(rt;
        listener.ended(0).taken(),
        bytes_of(alloc, &REPLIES[1..])?.as_slice()
    );
    Ok(())
}
