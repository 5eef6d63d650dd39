use crate::pumps::bell::Bell;
use std::alloc::Global;
use std::sync::{Arc, Condvar, Mutex, Wait};

/// Some of 256 places, a bit for each.
#[derive(Clone, Copy)]
pub(crate) struct PlaceSet {
    low: u128,
    high: u128,
}

impl PlaceSet {
    /// No place.
    pub(crate) fn none() -> PlaceSet {
        PlaceSet { low: 0, high: 0 }
    }

    /// This place alone.
    fn of(place: u8) -> PlaceSet {
        let bit = 1u128 << (place % 128);
        if place < 128 {
            PlaceSet { low: bit, high: 0 }
        } else {
            PlaceSet { low: 0, high: bit }
        }
    }

    /// Whether it has this place.
    pub(crate) fn has(self, place: u8) -> bool {
        let word = if place < 128 { self.low } else { self.high };
        word >> (place % 128) & 1 == 1
    }

    /// Those of both.
    pub(crate) fn and(self, other: PlaceSet) -> PlaceSet {
        PlaceSet {
            low: self.low | other.low,
            high: self.high | other.high,
        }
    }

    /// The same but for this place.
    pub(crate) fn without(self, place: u8) -> PlaceSet {
        let one = PlaceSet::of(place);
        PlaceSet {
            low: self.low & !one.low,
            high: self.high & !one.high,
        }
    }

    /// Whether it has no place.
    fn is_empty(self) -> bool {
        self.low == 0 && self.high == 0
    }
}

/// What was said on a board.
#[derive(Clone, Copy)]
struct Said {
    /// The places that were left since they were last taken.
    left: PlaceSet,
    /// How many sessions have ended in all.
    ended: u64,
    /// No more connections are wanted.
    ends: bool,
}

/// The bells of the pumps, once there are some, and whether counts were asked for before.
#[derive(Drop)]
struct Hung {
    bells: Option<Arc<Vec<Bell>, Global>>,
    asked: bool,
}

/// Asks at each bell.
fn ask_all<W: Wait>(rt: &W, bells: &[Bell]) {
    for bell in bells {
        bell.ask(rt);
    }
}

/// Where the threads of sessions say that these have ended, by their places, and whoever wants it that no more connections
/// are accepted, or that the units be counted. To say so takes no memory.
#[derive(Drop)]
pub(crate) struct Board {
    said: Mutex<Said>,
    moved: Condvar,
    hung: Mutex<Hung>,
}

impl Board {
    /// A board on which nothing was said.
    pub(crate) fn new() -> Board {
        Board {
            said: Mutex::new(Said {
                left: PlaceSet::none(),
                ended: 0,
                ends: false,
            }),
            moved: Condvar::new(),
            hung: Mutex::new(Hung {
                bells: None,
                asked: false,
            }),
        }
    }

    /// The bells of all units hang here from now on: what was asked for before is asked now.
    pub(crate) fn hang<W: Wait>(&self, rt: &W, bells: Arc<Vec<Bell>, Global>) {
        let mut hung = self.hung.lock(rt);
        if hung.asked {
            ask_all(rt, &bells);
        }
        hung.bells = Some(bells);
    }

    /// Asks each pump for the counts of its unit.
    pub(crate) fn ask_for_counts<W: Wait>(&self, rt: &W) {
        let mut hung = self.hung.lock(rt);
        hung.asked = true;
        if let Some(bells) = &hung.bells {
            ask_all(rt, bells);
        }
    }

    /// Says that the session at this place has ended.
    pub(crate) fn leave<W: Wait>(&self, rt: &W, place: u8) {
        let mut said = self.said.lock(rt);
        said.left = said.left.and(PlaceSet::of(place));
        said.ended = said.ended.saturating_add(1);
        self.moved.notify_all();
    }

    /// Says that no more connections are wanted.
    pub(crate) fn end<W: Wait>(&self, rt: &W) {
        let mut said = self.said.lock(rt);
        said.ends = true;
        self.moved.notify_all();
    }

    /// Whether that was said.
    pub(crate) fn ends<W: Wait>(&self, rt: &W) -> bool {
        self.said.lock(rt).ends
    }

    /// How many sessions have ended.
    pub(crate) fn ended<W: Wait>(&self, rt: &W) -> u64 {
        self.said.lock(rt).ended
    }

    /// Waits until another number of sessions have ended than this, or no more connections are wanted.
    pub(crate) fn wait_for_another<W: Wait>(&self, rt: &W, ended: u64) {
        let _said = self.moved.wait_while(
            rt,
            self.said.lock(rt),
            |said| said.ended == ended && !said.ends,
        );
    }

    /// The places that were left since they were last taken.
    pub(crate) fn take<W: Wait>(&self, rt: &W) -> PlaceSet {
        let mut said = self.said.lock(rt);
        let left = said.left;
        said.left = PlaceSet::none();
        left
    }

    /// Waits until some place was left that was not taken, or no more connections are wanted.
    pub(crate) fn wait<W: Wait>(&self, rt: &W) {
        let _said = self.moved.wait_while(
            rt,
            self.said.lock(rt),
            |said| said.left.is_empty() && !said.ends,
        );
    }
}
