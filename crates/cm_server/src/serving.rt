// A world is served: its connections, and what goes on in the background, until nothing is left to do.
ghost use Rattle.std.specs.Prelude.{◌≡◌, ◌≤◌, ◌+◌, [], List, length, true, IfNone, IfOk};
ghost use Rattle.session.specs.declared.end.SessionEnd.{SessionEnd};
ghost use Rattle.unit_gate.specs.Recorded.{facts};
ghost use Rattle.cm_server.specs.Recorders.{AreBack};
ghost use Rattle.cm_server.specs.declared.sessions.accepting.AcceptEnd.{AcceptEnd};
ghost use Rattle.cm_server.specs.inner.Begun.{HasFailed};
ghost use Rattle.cm_server.specs.inner.Left.{IsClosed};
ghost use Rattle.cm_server.specs.inner.Links.{AreOut, StayOut, in_hand};
ghost use Rattle.cm_server.specs.inner.Opened.{IsOpened, OpenedUnit, recorders_of};
ghost use Rattle.cm_server.specs.inner.Passes.{HasMoved, IsReady};
ghost use Rattle.cm_server.specs.inner.Recording.{finals};
ghost use Rattle.cm_server.specs.inner.Running.{HasRan, HaveTalked, UnlessWanted};
ghost use Rattle.cm_server.specs.inner.Serving.{HasServed, HasSettled};

use crate::pumps::bell::Bell;
use crate::pumps::last::pump_all_out;
use crate::pumps::workers::{Worker, start_all, stop_all};
use crate::report::counts::SessionCounts;
use crate::sessions::accepting::{AcceptEnd, Accepted, accept_all};
use crate::sessions::board::Board;
use crate::sessions::ending::end_all;
use crate::sessions::meet::Meet;
use crate::sessions::places::Places;
use crate::shared::Shared;
use crate::term::Term;
use cm_base::{Clock, Config, Link, Listener, OutOfMemory};
use nexus::{Root, World};
use recorder::Recorder;
use std::alloc::Global;
use std::collections::VecDeque;
use std::sync::{Arc, Wait};
use std::thread::{self, Scope, Threads};
use unit_gate::ClosedUnit;

/// How the sessions of a world ended, and why there were no more. At `OutOfMemory` there may have been some, of which
/// nothing is told.
#[derive(Clone, Copy)]
pub(crate) struct Ran {
    pub(crate) counts: SessionCounts,
    pub(crate) end: AcceptEnd,
}

impl Ran {
    /// Memory was wanted before a connection was accepted.
    fn wanted() -> Ran
        ensures { result.end ≡ AcceptEnd.OutOfMemory }
    {
        Ran {
            counts: SessionCounts::none(),
            end: AcceptEnd::OutOfMemory,
        }
    }
}

/// What is left of a world that was served.
#[derive(Drop)]
pub(crate) struct Left<R> {
    pub(crate) ran: Ran,
    pub(crate) units: Vec<ClosedUnit<R>>,
}

/// Closes a link of which no session was begun, and gives it back.
fn give_unserved<K: Link + Drop, L: Listener<Conn = K>>(listener: &mut L, unserved: Option<K>)
    requires out { AreOut (L.out listener.old) (in_hand unserved) }
    ensures same { IfNone unserved (listener.new ≡ listener.old) }
    ensures out { StayOut (L.out listener.old) (L.out listener.new) (in_hand unserved) 0 }
    ensures faults { L.accept_faults listener.new ≡ L.accept_faults listener.old }
{
    if let Some(mut link) = unserved {
        link.close();
        listener.done(link);
    }
}

/// Serves connections beside the pumps.
fn run_sessions<
    's,
    'a,
    E,
    K: Link + Send + Drop + 's,
    L: Listener<Conn = K>,
    R: Recorder + Drop + Send + Sync,
    C: Clock + Drop + Sync,
    G: Meet + Sync,
    W: Threads + Wait + Sync,
>(
    scope: &Scope<'s, E>,
    shared: &'s Shared<'a, R, C, G, W>,
    root: &mut Root<R>,
    listener: &mut L,
    count: u32,
) -> Ran
    requires ready { IsReady shared.now.world root.old }
    requires safe { G.SAFE ≡ true → R.EAGER ≡ true }
    requires numbers { root.old.made + count ≤ 4_294_967_295 }
    ensures talked { UnlessWanted result.end ((ends : List SessionEnd) × HasRan shared.now.term result count ends
        × HaveTalked shared.now.term shared.now.world (C.shows shared.now.clock) root.old.made root.old root.new (L.coming listener.old) (L.coming listener.new) (L.ended listener.old) (L.ended listener.new) ends) }
    ensures moved { HasMoved shared.now.world root.old root.new }
    ensures failed { HasFailed result.end (L.accept_faults listener.old) (L.accept_faults listener.new) }
    ensures links { L.out listener.new ≡ L.out listener.old }
{
    let Ok(mut places) = Places::new(shared.alloc) else {
        return Ran::wanted();
    };
    let mut counts = SessionCounts::none();
    let first = root.next_nexus();
    let Accepted { end, unserved } = accept_all(
        scope,
        shared,
        root,
        listener,
        first,
        count,
        &mut places,
        &mut counts,
    );
    end_all(shared, root, listener, places, &mut counts);
    give_unserved(listener, unserved);
    Ran { counts, end }
}

/// Starts the pumps, serves connections, and stops the pumps. Without memory for the pumps no connection is served.
fn run_all<
    's,
    'a,
    E,
    K: Link + Send + Drop + 's,
    L: Listener<Conn = K>,
    R: Recorder + Drop + Send + Sync,
    C: Clock + Drop + Sync,
    G: Meet + Sync,
    W: Threads + Wait + Sync,
>(
    scope: &Scope<'s, E>,
    shared: &'s Shared<'a, R, C, G, W>,
    root: &mut Root<R>,
    listener: &mut L,
    count: u32,
) -> Ran
    requires ready { IsReady shared.now.world root.old }
    requires alone { root.old.out ≡ [] }
    requires safe { G.SAFE ≡ true → R.EAGER ≡ true }
    requires numbers { root.old.made + count ≤ 4_294_967_295 }
    ensures served { UnlessWanted result.end ((ends : List SessionEnd) × HasRan shared.now.term result count ends
        × HasServed shared.now.term shared.now.world (C.shows shared.now.clock) root.old.made root.old root.new (L.coming listener.old) (L.coming listener.new) (L.ended listener.old) (L.ended listener.new) ends) }
    ensures moved { HasMoved shared.now.world root.old root.new }
    ensures failed { HasFailed result.end (L.accept_faults listener.old) (L.accept_faults listener.new) }
    ensures links { L.out listener.new ≡ L.out listener.old }
{
    let units = usize::from(shared.config.units());
    let Ok(mut workers) = VecDeque::with_capacity(shared.alloc, units) else {
        return Ran::wanted();
    };
    let ran = match start_all(scope, shared, root, &mut workers) {
        Ok(()) => run_sessions(scope, shared, root, listener, count),
        Err(OutOfMemory) => Ran::wanted(),
    };
    stop_all(shared, root, workers);
    ran
}

/// Serves connections in a scope of threads. The listener and the root go through the scope and come back, since no
/// clause of a scope's closure can say what became of a `&mut` that it captured. What comes back beside them owns no
/// memory, or a caller would not know how they end.
fn run_scoped<
    'l,
    'a,
    K: Link + Send + Drop,
    L: Listener<Conn = K>,
    R: Recorder + Drop + Send + Sync,
    C: Clock + Drop + Sync,
    G: Meet + Sync,
    W: Threads + Wait + Sync,
>(
    shared: &Shared<'a, R, C, G, W>,
    root: &'l mut Root<R>,
    listener: &'l mut L,
    count: u32,
) -> (&'l mut L, &'l mut Root<R>, Ran)
    requires ready { IsReady shared.now.world root.now }
    requires alone { root.now.out ≡ [] }
    requires safe { G.SAFE ≡ true → R.EAGER ≡ true }
    requires numbers { root.now.made + count ≤ 4_294_967_295 }
    ensures listener { result.0.ghost_name ≡ listener.entry.ghost_name }
    ensures root { result.1.ghost_name ≡ root.entry.ghost_name }
    ensures served { UnlessWanted result.2.end ((ends : List SessionEnd) × HasRan shared.now.term result.2 count ends
        × HasServed shared.now.term shared.now.world (C.shows shared.now.clock) root.entry.now.made root.entry.now result.1.now (L.coming listener.entry.now) (L.coming result.0.now) (L.ended listener.entry.now) (L.ended result.0.now) ends) }
    ensures moved { HasMoved shared.now.world root.entry.now result.1.now }
    ensures failed { HasFailed result.2.end (L.accept_faults listener.entry.now) (L.accept_faults result.0.now) }
    ensures links { L.out result.0.now ≡ L.out listener.entry.now }
{
    thread::scope(
        thread::scope_env(),
        shared.rt,
        move |scope| -> (&mut L, &mut Root<R>, Ran)
            requires ready { IsReady shared.now.world root.now }
            requires alone { root.now.out ≡ [] }
            requires safe { G.SAFE ≡ true → R.EAGER ≡ true }
            requires numbers { root.now.made + count ≤ 4_294_967_295 }
            ensures listener { result.0.ghost_name ≡ listener.entry.ghost_name }
            ensures root { result.1.ghost_name ≡ root.entry.ghost_name }
            ensures served { UnlessWanted result.2.end ((ends : List SessionEnd) × HasRan shared.entry.now.term result.2 count ends
                × HasServed shared.entry.now.term shared.entry.now.world (C.shows shared.entry.now.clock) root.entry.now.made root.entry.now result.1.now (L.coming listener.entry.now) (L.coming result.0.now) (L.ended listener.entry.now) (L.ended result.0.now) ends) }
            ensures moved { HasMoved shared.entry.now.world root.entry.now result.1.now }
            ensures failed { HasFailed result.2.end (L.accept_faults listener.entry.now) (L.accept_faults result.0.now) }
            ensures links { L.out result.0.now ≡ L.out listener.entry.now }
        {
            let ran = run_all(scope, shared, root, listener, count);
            (listener, root, ran)
        },
    )
}

/// Serves connections beside the pumps, each in a thread of its own.
fn run_threads<
    K: Link + Send + Drop,
    L: Listener<Conn = K>,
    R: Recorder + Drop + Send + Sync,
    C: Clock + Drop + Sync,
    G: Meet + Sync,
    W: Threads + Wait + Sync,
>(shared: &Shared<'_, R, C, G, W>, root: &mut Root<R>, listener: &mut L, count: u32) -> Ran
    requires ready { IsReady shared.now.world root.old }
    requires alone { root.old.out ≡ [] }
    requires safe { G.SAFE ≡ true → R.EAGER ≡ true }
    requires numbers { root.old.made + count ≤ 4_294_967_295 }
    ensures served { UnlessWanted result.end ((ends : List SessionEnd) × HasRan shared.now.term result count ends
        × HasServed shared.now.term shared.now.world (C.shows shared.now.clock) root.old.made root.old root.new (L.coming listener.old) (L.coming listener.new) (L.ended listener.old) (L.ended listener.new) ends) }
    ensures moved { HasMoved shared.now.world root.old root.new }
    ensures failed { HasFailed result.end (L.accept_faults listener.old) (L.accept_faults listener.new) }
    ensures links { L.out listener.new ≡ L.out listener.old }
{
    let (_, _, ran) = run_scoped(shared, root, listener, count);
    ran
}

/// A bell for each of so many units, which was rung or not.
fn bells(alloc: Global, count: u16, rung: bool) -> Result<Vec<Bell>, OutOfMemory>
    ensures { IfOk result (λ bells. length bells.items ≡ count) }
{
    let mut bells = Vec::new(alloc);
    for _ in 0..count {
        bells.push(Bell::new(rung))?;
    }
    Ok(bells)
}

/// The bells of all units, which hang at the board too.
fn hung_bells<W: Wait>(
    rt: &W,
    alloc: Global,
    count: u16,
    manner: Manner<'_>,
) -> Result<Arc<Vec<Bell>, Global>, OutOfMemory>
    ensures { IfOk result (λ bells. length bells.value.items ≡ count) }
{
    let bells = Arc::new(alloc, bells(alloc, count, manner.goes_on)?)?;
    manner.board.hang(rt, bells.clone()?);
    Ok(bells)
}

/// Ends what runs in the background, unless memory was wanted before, and tells how serving ends then.
fn settle<R: Recorder + Drop, C: Clock + Drop, G: Meet, W: Wait>(
    shared: &Shared<'_, R, C, G, W>,
    root: &mut Root<R>,
    ran: Ran,
) -> Ran
    requires ready { IsReady shared.now.world root.old }
    requires alone { root.old.out ≡ [] }
    ensures settled { UnlessWanted result.end ((result ≡ ran) × HasSettled shared.now.world (C.shows shared.now.clock) root.old root.new) }
    ensures moved { HasMoved shared.now.world root.old root.new }
{
    if let AcceptEnd::OutOfMemory = ran.end {
        return ran;
    }
    match pump_all_out(shared, root) {
        Ok(()) => ran,
        Err(OutOfMemory) => Ran {
            counts: ran.counts,
            end: AcceptEnd::OutOfMemory,
        },
    }
}

/// How a world is served.
#[derive(Clone, Copy)]
pub(crate) struct Manner<'a> {
    pub(crate) term: Term,
    /// The world goes on with histories, so that operations may run.
    pub(crate) goes_on: bool,
    pub(crate) board: &'a Board,
}

/// Serves connections of a world, at most so many, each in a thread of its own, and beside them pumps what goes on in the
/// background, until nothing goes on any more. Where the world goes on with histories, each pump begins at once. Where
/// memory is wanted serving ends early; the world is ended and its units come back anyway.
pub(crate) fn serve_world<
    K: Link + Send + Drop,
    L: Listener<Conn = K>,
    R: Recorder + Drop + Send + Sync,
    C: Clock + Drop + Sync,
    G: Meet + Sync,
    W: Threads + Wait + Sync,
>(
    rt: &W,
    alloc: Global,
    config: Config,
    world: World<R>,
    root: Root<R>,
    count: u32,
    listener: &mut L,
    clock: C,
    meet: &G,
    manner: Manner<'_>,
) -> Left<R>
    requires opened { (units : List OpenedUnit) × IsOpened config units world root }
    requires numbers { root.made + count ≤ 4_294_967_295 }
    requires safe { G.SAFE ≡ true → R.EAGER ≡ true }
    ensures served { (units : List OpenedUnit) → IsOpened config units world root
        → UnlessWanted result.ran.end ((ends : List SessionEnd) × HasRan manner.entry.term result.ran count ends
        × IsClosed manner.entry.term (facts R.recorded R.record_faults R.absent R.front) R.fits config units root.made (C.shows clock) (L.coming listener.old)
        (L.coming listener.new) (L.ended listener.old) (L.ended listener.new) ends result.units.items) }
    ensures failed { UnlessWanted result.ran.end (HasFailed result.ran.end (L.accept_faults listener.old) (L.accept_faults listener.new)) }
    ensures back { (units : List OpenedUnit) → IsOpened config units world root
        → AreBack (recorders_of units) (finals (facts R.recorded R.record_faults R.absent R.front) result.units.items) }
    ensures links { L.out listener.new ≡ L.out listener.old }
{
    let mut root = root;
    let Ok(bells) = hung_bells(rt, alloc, config.units(), manner) else {
        return Left {
            ran: Ran::wanted(),
            units: world.end(root),
        };
    };
    let shared = Shared {
        rt,
        alloc,
        config,
        world,
        bells: &bells,
        board: manner.board,
        term: manner.term,
        clock,
        meet,
    };
    let ran = run_threads(&shared, &mut root, listener, count);
    let ran = settle(&shared, &mut root, ran);
    let Shared { world, .. } = shared;
    Left {
        ran,
        units: world.end(root),
    }
}
