ghost use Rattle.std.specs.Prelude.{◌≡◌, ℕ};

use std::marker::Model;
use std::time;

/// What tells the moment, a whole number of seconds.
pub trait Clock {
    // The moments that it may show.
    ghost shows: { Self → ℕ → Type 0 };

    /// The moment, in whole seconds.
    fn now(&self) -> u64
        ensures shown { shows self.now result };
}

/// A clock that stands at one moment.
#[derive(Drop)]
pub struct SetClock {
    moment: u64,
}

impl Model for SetClock {
    ghost use Rattle.std.specs.Prelude.{ℕ};

    ghost Value = { ℕ };

    ghost view = { λ c. c.moment };
}

impl SetClock {
    /// A clock that always shows this moment. It takes no memory.
    pub fn new(moment: u64) -> SetClock
        ensures { result ≡ moment }
    {
        SetClock { moment }
    }
}

impl Clock for SetClock {
    ghost shows = { λ c moment. moment ≡ c };

    fn now(&self) -> u64 {
        self.moment
    }
}

/// The machine's clock: seconds since 1970, and 0 where it cannot be read. It may show every moment.
#[derive(Drop)]
pub struct SystemClock<R> {
    machine: R,
}

impl<R: time::Clock> SystemClock<R> {
    /// The clock of this machine. It takes no memory.
    pub fn new(machine: R) -> SystemClock<R>
        ensures shows { (moment : ℕ) → ⟦<SystemClock<R> as Clock>⟧.shows result moment }
    {
        SystemClock { machine }
    }
}

impl<R: time::Clock> Clock for SystemClock<R> {
    ghost shows = { λ _ _. Unit {0} };

    fn now(&self) -> u64 {
        match self.machine.since_1970() {
            Ok(since) => since.as_secs(),
            Err(_) => 0,
        }
    }
}
