// Places for the sessions that are open at one time.
ghost use Rattle.std.specs.Prelude.{◌≡◌, ◌≤◌, ◌<◌, ◌+◌, ◌++◌, ◌∷◌, [], length, vec_capacity, IfOk, IfSome, IfNone};
ghost use Rattle.std.specs.VecDeque.{deque_capacity};

use crate::sessions::beginning::Begun;
use crate::sessions::board::PlaceSet;
use cm_base::{Clock, Link, OutOfMemory};
use recorder::Recorder;
use std::alloc::Global;
use std::collections::VecDeque;

/// Sessions that may be open at one time.
const PLACES: usize = 256;

/// A session that was begun, at the place by which its thread says that it has ended.
#[derive(Drop)]
pub(crate) struct Placed<K: Link, R: Recorder + Drop, C: Clock> {
    pub(crate) place: u8,
    pub(crate) begun: Begun<K, R, C>,
}

/// The sessions that are open, the first to be looked at next, those of them that have left their places, and the places that
/// are free.
#[derive(Drop)]
pub(crate) struct Places<K: Link, R: Recorder + Drop, C: Clock> {
    pub(crate) sessions: VecDeque<Placed<K, R, C>>,
    left: PlaceSet,
    pub(crate) free: Vec<u8>,
    ghost few: { length sessions.items + length free.items ≤ 256 },
    ghost open_room: { 256 ≤ deque_capacity sessions },
    ghost free_room: { 256 ≤ vec_capacity free },
}

/// All places.
fn all_places(alloc: Global) -> Result<Vec<u8>, OutOfMemory>
    ensures few { IfOk result (λ v. length v.items ≤ 256) }
    ensures room { IfOk result (λ v. 256 ≤ vec_capacity v) }
{
    let mut free = Vec::with_capacity(alloc, PLACES)?;
    for place in 0..u8::MAX {
        free.push_reserved(place);
    }
    free.push_reserved(u8::MAX);
    Ok(free)
}

impl<K: Link + Drop, R: Recorder + Drop, C: Clock + Drop> Places<K, R, C> {
    /// No session is open.
    pub(crate) fn new(alloc: Global) -> Result<Places<K, R, C>, OutOfMemory>
        ensures { IfOk result (λ p. p.sessions.items ≡ []) }
    {
        let sessions = VecDeque::with_capacity(alloc, PLACES)?;
        let free = all_places(alloc)?;
        Ok(Places {
            sessions,
            left: PlaceSet::none(),
            free,
        })
    }

    /// How many sessions are open.
    pub(crate) fn count(&self) -> usize {
        self.sessions.len()
    }

    /// These places were left, too.
    pub(crate) fn note(&mut self, left: PlaceSet)
        ensures { self.new.sessions.items ≡ self.old.sessions.items }
    {
        self.left = self.left.and(left);
    }

    /// Whether this place was left.
    pub(crate) fn was_left(&self, place: u8) -> bool {
        self.left.has(place)
    }

    /// A place that is free, where there is one. It is free no more.
    pub(crate) fn place(&mut self) -> Option<u8>
        ensures same { self.new.sessions.items ≡ self.old.sessions.items }
        ensures room { IfSome result (λ _. length self.new.sessions.items + length self.new.free.items < 256) }
    {
        self.free.pop()
    }

    /// One more session is open, the last.
    pub(crate) fn add(&mut self, one: Placed<K, R, C>)
        requires room { length self.old.sessions.items + length self.old.free.items < 256 }
        ensures { self.new.sessions.items ≡ self.old.sessions.items ++ one ∷ [] }
    {
        self.sessions.push_back_reserved(one);
    }

    /// The first session that is open, which is taken out.
    pub(crate) fn first(&mut self) -> Option<Placed<K, R, C>>
        ensures some { IfSome result (λ one. self.old.sessions.items ≡ one ∷ self.new.sessions.items) }
        ensures none { IfNone result (self.new.sessions.items ≡ []) }
        ensures none_before { IfNone result (self.old.sessions.items ≡ []) }
        ensures room { IfSome result (λ _. length self.new.sessions.items + length self.new.free.items < 256) }
    {
        self.sessions.pop_front()
    }

    /// The first session that is open, which is taken out, where it has left its place.
    pub(crate) fn first_left(&mut self) -> Option<Placed<K, R, C>>
        ensures some { IfSome result (λ one. self.old.sessions.items ≡ one ∷ self.new.sessions.items) }
        ensures none { IfNone result (self.new.sessions.items ≡ self.old.sessions.items) }
        ensures room { IfSome result (λ _. length self.new.sessions.items + length self.new.free.items < 256) }
    {
        match self.sessions.front() {
            Some(one) if self.left.has(one.place) => {}
            _ => return None,
        }
        self.sessions.pop_front()
    }

    /// A place is free again.
    pub(crate) fn give_back(&mut self, place: u8)
        requires room { length self.old.sessions.items + length self.old.free.items < 256 }
        ensures { self.new.sessions.items ≡ self.old.sessions.items }
    {
        self.left = self.left.without(place);
        self.free.push_reserved(place);
    }
}
