// Sessions are joined, and their connections given back.
ghost use Rattle.std.specs.Prelude.{◌≡◌, ◌≤◌, ◌<◌, ◌-◌, ◌+◌, ◌∷◌, [], suc, length, option_map};
ghost use Rattle.cm_server.specs.declared.term.Term.{Term};
ghost use Rattle.cm_server.specs.inner.Begun.{EndsOne, GoesOn, HasCome, MayEnd};
ghost use Rattle.cm_server.specs.inner.Links.{AreOut, StayOut, link_state};

use crate::report::counts::SessionCounts;
use crate::sessions::beginning::{Begun, Ended, finish};
use crate::sessions::meet::Meet;
use crate::sessions::places::{Placed, Places};
use crate::shared::Shared;
use crate::term::Term;
use cm_base::{Clock, Link, Listener};
use nexus::Root;
use recorder::Recorder;
use std::sync::Wait;
use std::thread::Threads;

/// Joins a session, gives its connection back, and counts it.
fn end_one<
    K: Link + Send + Drop,
    L: Listener<Conn = K>,
    R: Recorder + Drop,
    C: Clock + Drop,
    G: Meet,
    W: Threads + Wait,
>(
    shared: &Shared<'_, R, C, G, W>,
    root: &mut Root<R>,
    listener: &mut L,
    begun: Begun<K, R, C>,
    counts: &mut SessionCounts,
)
    requires may { MayEnd (link_state K.left K.taken K.read_faults K.write_faults) C.shows shared.now.config shared.now.clock shared.now.world root.old begun counts.old }
    requires out { AreOut (L.out listener.old) 1 }
    ensures ended { EndsOne (link_state K.left K.taken K.read_faults K.write_faults) C.shows shared.now.config shared.now.clock begun root.old root.new
        (L.ended listener.old) (L.ended listener.new) counts.old counts.new }
    ensures out { L.out listener.new ≡ option_map (λ n. n - 1) (L.out listener.old) }
    ensures coming { L.coming listener.new ≡ L.coming listener.old }
    ensures faults { L.accept_faults listener.new ≡ L.accept_faults listener.old }
{
    let Ended { link, pass, end } = finish(shared.rt, begun);
    listener.done(link);
    shared.world.join(root, pass);
    counts.add(end);
}

/// Joins the sessions that have left their places, up to the first that has not, and frees these.
fn end_in_order<
    K: Link + Send + Drop,
    L: Listener<Conn = K>,
    R: Recorder + Drop,
    C: Clock + Drop,
    G: Meet,
    W: Threads + Wait,
>(
    shared: &Shared<'_, R, C, G, W>,
    root: &mut Root<R>,
    listener: &mut L,
    places: &mut Places<K, R, C>,
    counts: &mut SessionCounts,
)
    requires so { HasCome (link_state K.left K.taken K.read_faults K.write_faults) C.shows shared.now.config shared.now.clock shared.now.term shared.now.world root.old
        (L.ended listener.old) places.old.sessions.items counts.old }
    requires out { AreOut (L.out listener.old) (length places.old.sessions.items) }
    ensures goes_on { GoesOn (link_state K.left K.taken K.read_faults K.write_faults) C.shows shared.now.config shared.now.clock shared.now.term shared.now.world root.old root.new
        (L.ended listener.old) (L.ended listener.new) places.old.sessions.items places.new.sessions.items counts.old counts.new }
    ensures out { StayOut (L.out listener.old) (L.out listener.new) (length places.old.sessions.items) (length places.new.sessions.items) }
    ensures coming { L.coming listener.new ≡ L.coming listener.old }
    ensures faults { L.accept_faults listener.new ≡ L.accept_faults listener.old }
{
    while let Some(one) = places.first_left() {
        let Placed { place, begun } = one;
        end_one(shared, root, listener, begun, counts);
        places.give_back(place);
    }
}

/// Joins a session that was taken out of its places, and frees its own, where it has left it. Else it is open still, the
/// last.
fn end_if_left<
    K: Link + Send + Drop,
    L: Listener<Conn = K>,
    R: Recorder + Drop,
    C: Clock + Drop,
    G: Meet,
    W: Threads + Wait,
>(
    shared: &Shared<'_, R, C, G, W>,
    root: &mut Root<R>,
    listener: &mut L,
    places: &mut Places<K, R, C>,
    one: Placed<K, R, C>,
    counts: &mut SessionCounts,
)
    requires open { shared.now.term ≡ Term.Open }
    requires may { MayEnd (link_state K.left K.taken K.read_faults K.write_faults) C.shows shared.now.config shared.now.clock shared.now.world root.old one.begun counts.old }
    requires room { length places.old.sessions.items + length places.old.free.items < 256 }
    requires out { AreOut (L.out listener.old) (suc (length places.old.sessions.items)) }
    ensures goes_on { GoesOn (link_state K.left K.taken K.read_faults K.write_faults) C.shows shared.now.config shared.now.clock shared.now.term shared.now.world root.old root.new
        (L.ended listener.old) (L.ended listener.new) (one ∷ places.old.sessions.items) places.new.sessions.items counts.old counts.new }
    ensures out { StayOut (L.out listener.old) (L.out listener.new) (suc (length places.old.sessions.items)) (length places.new.sessions.items) }
    ensures coming { L.coming listener.new ≡ L.coming listener.old }
    ensures faults { L.accept_faults listener.new ≡ L.accept_faults listener.old }
{
    if !places.was_left(one.place) {
        places.add(one);
        return;
    }
    let Placed { place, begun } = one;
    end_one(shared, root, listener, begun, counts);
    places.give_back(place);
}

/// Joins all sessions that have left their places, and frees these. The others stay open, in their order.
fn end_any<
    K: Link + Send + Drop,
    L: Listener<Conn = K>,
    R: Recorder + Drop,
    C: Clock + Drop,
    G: Meet,
    W: Threads + Wait,
>(
    shared: &Shared<'_, R, C, G, W>,
    root: &mut Root<R>,
    listener: &mut L,
    places: &mut Places<K, R, C>,
    counts: &mut SessionCounts,
)
    requires open { shared.now.term ≡ Term.Open }
    requires so { HasCome (link_state K.left K.taken K.read_faults K.write_faults) C.shows shared.now.config shared.now.clock shared.now.term shared.now.world root.old
        (L.ended listener.old) places.old.sessions.items counts.old }
    requires out { AreOut (L.out listener.old) (length places.old.sessions.items) }
    ensures goes_on { GoesOn (link_state K.left K.taken K.read_faults K.write_faults) C.shows shared.now.config shared.now.clock shared.now.term shared.now.world root.old root.new
        (L.ended listener.old) (L.ended listener.new) places.old.sessions.items places.new.sessions.items counts.old counts.new }
    ensures out { StayOut (L.out listener.old) (L.out listener.new) (length places.old.sessions.items) (length places.new.sessions.items) }
    ensures coming { L.coming listener.new ≡ L.coming listener.old }
    ensures faults { L.accept_faults listener.new ≡ L.accept_faults listener.old }
{
    for _ in 0..places.count() {
        let Some(one) = places.first() else {
            return;
        };
        end_if_left(shared, root, listener, places, one, counts);
    }
}

/// Joins sessions that have left their places, and frees these.
pub(crate) fn end_left<
    K: Link + Send + Drop,
    L: Listener<Conn = K>,
    R: Recorder + Drop,
    C: Clock + Drop,
    G: Meet,
    W: Threads + Wait,
>(
    shared: &Shared<'_, R, C, G, W>,
    root: &mut Root<R>,
    listener: &mut L,
    places: &mut Places<K, R, C>,
    counts: &mut SessionCounts,
)
    requires so { HasCome (link_state K.left K.taken K.read_faults K.write_faults) C.shows shared.now.config shared.now.clock shared.now.term shared.now.world root.old
        (L.ended listener.old) places.old.sessions.items counts.old }
    requires out { AreOut (L.out listener.old) (length places.old.sessions.items) }
    ensures goes_on { GoesOn (link_state K.left K.taken K.read_faults K.write_faults) C.shows shared.now.config shared.now.clock shared.now.term shared.now.world root.old root.new
        (L.ended listener.old) (L.ended listener.new) places.old.sessions.items places.new.sessions.items counts.old counts.new }
    ensures out { StayOut (L.out listener.old) (L.out listener.new) (length places.old.sessions.items) (length places.new.sessions.items) }
    ensures coming { L.coming listener.new ≡ L.coming listener.old }
    ensures faults { L.accept_faults listener.new ≡ L.accept_faults listener.old }
{
    match shared.term {
        Term::Counted => end_in_order(shared, root, listener, places, counts),
        Term::Open => end_any(shared, root, listener, places, counts),
    }
}

/// Joins all sessions that are open, in their order.
pub(crate) fn end_all<
    K: Link + Send + Drop,
    L: Listener<Conn = K>,
    R: Recorder + Drop,
    C: Clock + Drop,
    G: Meet,
    W: Threads + Wait,
>(
    shared: &Shared<'_, R, C, G, W>,
    root: &mut Root<R>,
    listener: &mut L,
    mut places: Places<K, R, C>,
    counts: &mut SessionCounts,
)
    requires so { HasCome (link_state K.left K.taken K.read_faults K.write_faults) C.shows shared.now.config shared.now.clock shared.now.term shared.now.world root.old
        (L.ended listener.old) places.sessions.items counts.old }
    requires out { AreOut (L.out listener.old) (length places.sessions.items) }
    ensures goes_on { GoesOn (link_state K.left K.taken K.read_faults K.write_faults) C.shows shared.now.config shared.now.clock shared.now.term shared.now.world root.old root.new
        (L.ended listener.old) (L.ended listener.new) places.sessions.items [] counts.old counts.new }
    ensures out { StayOut (L.out listener.old) (L.out listener.new) (length places.sessions.items) 0 }
    ensures coming { L.coming listener.new ≡ L.coming listener.old }
    ensures faults { L.accept_faults listener.new ≡ L.accept_faults listener.old }
{
    while let Some(one) = places.first() {
        end_one(shared, root, listener, one.begun, counts);
    }
}
