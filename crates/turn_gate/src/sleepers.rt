// Threads that sleep until the turn is free. It has no clause: what a gate promises holds whoever sleeps.
use std::sync::Wait;
use std::sync::atomic::Ordering::SeqCst;
use std::sync::atomic::{AtomicBool, AtomicU64};

/// The threads that sleep at a gate.
///
/// A thread announces itself, looks at the turn, and sleeps if it is taken. Who leaves sets the turn free and then calls
/// `wake`. Either that call finds the announcement, or the thread finds the turn free. A wake may reach another thread
/// than the one whose announcement it found, so each thread that wakes up announces that others may sleep.
#[derive(Drop)]
pub(crate) struct Sleepers {
    // Whether a thread may sleep, or be about to.
    announced: AtomicBool,
    // How many wakes there were. Threads sleep on it.
    wakes: AtomicU64,
}

impl Sleepers {
    pub(crate) fn none() -> Sleepers {
        Sleepers {
            announced: AtomicBool::new(false),
            wakes: AtomicU64::new(0),
        }
    }

    /// Says that this thread may sleep. The answer is for `sleep`: the lowest 32 bits of the number of wakes.
    pub(crate) fn announce(&self) -> u32 {
        let wakes = self.wakes.load(SeqCst);
        self.announced.store(true, SeqCst);
        (wakes % (1 << 32)) as u32
    }

    /// Sleeps until a wake that came after `announce`.
    pub(crate) fn sleep<R: Wait>(&self, rt: &R, wakes: u32) {
        self.wakes.park(rt, wakes);
        self.announced.store(true, SeqCst);
    }

    /// Wakes one thread, if one may sleep.
    pub(crate) fn wake(&self) {
        if self.announced.load(SeqCst) && self.announced.swap(false, SeqCst) {
            self.wakes.fetch_add(1, SeqCst);
            self.wakes.wake_one();
        }
    }
}
