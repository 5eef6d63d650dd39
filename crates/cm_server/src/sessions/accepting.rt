// Connections are accepted, and a session of each is begun.
ghost use Rattle.std.specs.Prelude.{◌≡◌, ◌≤◌, ◌<◌, ◌+◌, [], ℕ, List, suc, length, option_map, Option, None, IfOk, IfErr, IfSome, IfNone, ◌≢◌, true, OnErr};
ghost use Rattle.cm_base.specs.Listening.{Gone};
ghost use Rattle.cm_history.specs.declared.act.Actor.{Actor};
ghost use Rattle.cm_server.specs.declared.sessions.accepting.AcceptEnd.{AcceptEnd};
ghost use Rattle.cm_server.specs.declared.term.Term.{Term};
ghost use Rattle.cm_server.specs.inner.Begun.{GoesOn, HasBegun, HasCome, HasFailed, IsBegun, SoFar, WereBegun};
ghost use Rattle.cm_server.specs.inner.Counting.{AreCounts};
ghost use Rattle.cm_server.specs.inner.Links.{AreOut, StayOut, in_hand, link_state};
ghost use Rattle.cm_server.specs.inner.Passes.{IsReady};
ghost use Rattle.cm_server.specs.inner.Sessions.{Start};
ghost use Rattle.nexus.specs.Roots.{IsRootOf, WasMade};
ghost use Rattle.nexus.specs.Worlds.{IsFreePass};

use crate::report::counts::SessionCounts;
use crate::sessions::beginning::{Begun, begin};
use crate::sessions::ending::end_left;
use crate::sessions::meet::Meet;
use crate::sessions::places::{Placed, Places};
use crate::shared::Shared;
use cm_base::{AcceptFailed, Clock, Link, Listener, OutOfMemory};
use nexus::{Pass, Root};
use recorder::Recorder;
use std::sync::Wait;
use std::thread::{Scope, Threads};

/// Why no more connections are accepted.
#[derive(Clone, Copy)]
pub(crate) enum AcceptEnd {
    /// There are as many as were asked for.
    All,
    /// An accept failed.
    Failed,
    /// No more are wanted.
    Asked,
    /// Memory was wanted.
    OutOfMemory,
}

/// Why no more connections are accepted, with a link that was accepted, and of which no session was begun.
#[derive(Drop)]
pub(crate) struct Accepted<K: Link> {
    pub(crate) end: AcceptEnd,
    pub(crate) unserved: Option<K>,
}

impl<K: Link> Accepted<K> {
    /// Each link that was accepted has a session.
    fn served(end: AcceptEnd) -> Accepted<K>
        ensures { result ≡ record { end = end; unserved = None } }
    {
        Accepted {
            end,
            unserved: None,
        }
    }
}

/// A place for one more session, unless no more are wanted. While none is free it waits until a session has ended. Those
/// that have are joined.
fn free_place<
    K: Link + Send + Drop,
    L: Listener<Conn = K>,
    R: Recorder + Drop,
    C: Clock + Drop,
    G: Meet,
    W: Threads + Wait,
>(
    shared: &Shared<'_, R, C, G, W>,
    root: &mut Root<R>,
    listener: &mut L,
    places: &mut Places<K, R, C>,
    counts: &mut SessionCounts,
) -> Option<u8>
    requires so { HasCome (link_state K.left K.taken K.read_faults K.write_faults) C.shows shared.now.config shared.now.clock shared.now.term shared.now.world root.old
        (L.ended listener.old) places.old.sessions.items counts.old }
    requires out { AreOut (L.out listener.old) (length places.old.sessions.items) }
    ensures goes_on { GoesOn (link_state K.left K.taken K.read_faults K.write_faults) C.shows shared.now.config shared.now.clock shared.now.term shared.now.world root.old root.new
        (L.ended listener.old) (L.ended listener.new) places.old.sessions.items places.new.sessions.items counts.old counts.new }
    ensures room { IfSome result (λ _. length places.new.sessions.items + length places.new.free.items < 256) }
    ensures asked { IfNone result (shared.now.term ≡ Term.Open) }
    ensures out { StayOut (L.out listener.old) (L.out listener.new) (length places.old.sessions.items) (length places.new.sessions.items) }
    ensures coming { L.coming listener.new ≡ L.coming listener.old }
    ensures faults { L.accept_faults listener.new ≡ L.accept_faults listener.old }
{
    for _ in shared.rt.forever() {
        places.note(shared.board.take(shared.rt));
        end_left(shared, root, listener, places, counts);
        if shared.ends() {
            return None;
        }
        if let Some(place) = places.place() {
            return Some(place);
        }
        shared.board.wait(shared.rt);
    }
    unreachable!()
}

/// A pass for one more session, behind so many. At an open term it waits, where memory is wanted, for sessions that are
/// open to end. `OutOfMemory` leaves the root as it was.
fn next_pass<R: Recorder + Drop, C: Clock + Drop, G: Meet, W: Wait>(
    shared: &Shared<'_, R, C, G, W>,
    root: &mut Root<R>,
    begun: u32,
) -> Result<Pass<R>, OutOfMemory>
    requires root { IsRootOf shared.now.world root.old }
    requires few { root.old.made < 4_294_967_295 }
    ensures made { IfOk result (λ p. WasMade root.old root.new p (Actor.Nexus root.old.made)) }
    ensures free { IfOk result (λ p. IsFreePass shared.now.world root.old.made p) }
    ensures refused { OnErr result (root.new ≡ root.old) }
{
    for _ in shared.rt.forever() {
        let ended = shared.board.ended(shared.rt);
        if let Ok(pass) = shared.world.pass(shared.alloc, root) {
            return Ok(pass);
        }
        if !shared.waits(begun, ended) {
            return Err(OutOfMemory);
        }
    }
    unreachable!()
}

/// Accepts a connection and begins a session of it, behind so many.
fn accept_one<
    's,
    'a,
    E,
    K: Link + Send + Drop + 's,
    L: Listener<Conn = K>,
    R: Recorder + Drop + Send + Sync,
    C: Clock + Drop + Sync,
    G: Meet + Sync,
    W: Wait + Sync,
>(
    scope: &Scope<'s, E>,
    shared: &'s Shared<'a, R, C, G, W>,
    root: &mut Root<R>,
    listener: &mut L,
    number: u32,
    begun: u32,
    place: u8,
) -> Result<Begun<K, R, C>, Accepted<K>>
    requires ready { IsReady shared.now.world root.old }
    requires safe { G.SAFE ≡ true → R.EAGER ≡ true }
    requires number { root.old.made ≡ number }
    requires few { number < 4_294_967_295 }
    ensures begun { IfOk result (λ b. (s : Start)
        × IsBegun (link_state K.left K.taken K.read_faults K.write_faults) C.shows shared.now.config shared.now.clock s b
        × HasBegun shared.now.world number root.old root.new (L.coming listener.old) (L.coming listener.new) s) }
    ensures refused { IfErr result (λ e. root.new ≡ root.old) }
    ensures out { IfOk result (λ b. L.out listener.new ≡ option_map suc (L.out listener.old)) }
    ensures stays { IfErr result (λ e. L.out listener.new ≡ option_map (λ n. n + in_hand e.unserved) (L.out listener.old)) }
    ensures coming { IfErr result (λ e. e.end ≢ AcceptEnd.OutOfMemory → L.coming listener.new ≡ L.coming listener.old) }
    ensures unserved { IfErr result (λ e. e.end ≢ AcceptEnd.OutOfMemory → e.unserved ≡ None) }
    ensures ended { L.ended listener.new ≡ L.ended listener.old }
    ensures sound { IfOk result (λ b. L.accept_faults listener.new ≡ L.accept_faults listener.old) }
    ensures failed { IfErr result (λ e. HasFailed e.end (L.accept_faults listener.old) (L.accept_faults listener.new)) }
    ensures more { IfErr result (λ e. e.end ≢ AcceptEnd.All) }
    ensures asked { IfErr result (λ e. e.end ≡ AcceptEnd.Asked → shared.now.term ≡ Term.Open) }
{
    let link = match listener.accept() {
        Ok(link) => link,
        Err(AcceptFailed) if shared.ends() => return Err(Accepted::served(AcceptEnd::Asked)),
        Err(AcceptFailed) => return Err(Accepted::served(AcceptEnd::Failed)),
    };
    match next_pass(shared, root, begun) {
        Ok(pass) => Ok(begin(scope, shared, link, pass, number, place)),
        Err(OutOfMemory) => Err(Accepted {
            end: AcceptEnd::OutOfMemory,
            unserved: Some(link),
        }),
    }
}

/// Accepts so many connections, and begins a session of each, the first of the nexus of this number. Sessions that have
/// ended meanwhile are joined before the next one is accepted.
pub(crate) fn accept_all<
    's,
    'a,
    E,
    K: Link + Send + Drop + 's,
    L: Listener<Conn = K>,
    R: Recorder + Drop + Send + Sync,
    C: Clock + Drop + Sync,
    G: Meet + Sync,
    W: Threads + Wait + Sync,
>(
    scope: &Scope<'s, E>,
    shared: &'s Shared<'a, R, C, G, W>,
    root: &mut Root<R>,
    listener: &mut L,
    first: u32,
    count: u32,
    places: &mut Places<K, R, C>,
    counts: &mut SessionCounts,
) -> Accepted<K>
    requires ready { IsReady shared.now.world root.old }
    requires safe { G.SAFE ≡ true → R.EAGER ≡ true }
    requires first { root.old.made ≡ first }
    requires few { first + count ≤ 4_294_967_295 }
    requires none { places.old.sessions.items ≡ [] }
    requires counts { AreCounts [] counts.old }
    ensures begun { (number : ℕ) × (rest : Option (List (List ℕ))) × WereBegun shared.now.term result.end count number
        × (result.end ≢ AcceptEnd.OutOfMemory → rest ≡ L.coming listener.new)
        × SoFar (link_state K.left K.taken K.read_faults K.write_faults) C.shows shared.now.config shared.now.clock shared.now.term shared.now.world first root.old root.new
        (L.coming listener.old) rest (L.ended listener.old) (L.ended listener.new) places.new.sessions.items counts.new number }
    ensures unserved { result.end ≢ AcceptEnd.OutOfMemory → result.unserved ≡ None }
    ensures out { L.out listener.new ≡ option_map (λ n. n + (length places.new.sessions.items + in_hand result.unserved)) (L.out listener.old) }
    ensures failed { HasFailed result.end (L.accept_faults listener.old) (L.accept_faults listener.new) }
{
    for index in 0..count {
        let Some(place) = free_place(shared, root, listener, places, counts) else {
            return Accepted::served(AcceptEnd::Asked);
        };
        match accept_one(scope, shared, root, listener, first + index, index, place) {
            Ok(begun) => places.add(Placed { place, begun }),
            Err(end) => return end,
        }
    }
    Accepted::served(AcceptEnd::All)
}
