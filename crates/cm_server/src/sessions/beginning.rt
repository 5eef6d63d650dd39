// One session: how it is begun, and what comes back of it.
ghost use Rattle.std.specs.Prelude.{◌≡◌, Some, true};
ghost use Rattle.cm_base.specs.Configuration.{Configuration};
ghost use Rattle.cm_history.specs.declared.act.Actor.{Actor};
ghost use Rattle.cm_server.specs.inner.Begun.{HasEnded, IsBegun, session_of};
ghost use Rattle.cm_server.specs.inner.Links.{link_state};
ghost use Rattle.cm_server.specs.inner.Passes.{IsFree};
ghost use Rattle.cm_server.specs.inner.Sessions.{Start};

use crate::by_pass::{ByPass, Origin, Safety};
use crate::sessions::meet::{Meet, Met};
use crate::shared::Shared;
use cm_base::{Clock, Link};
use nexus::Pass;
use recorder::Recorder;
use session::{SessionEnd, session};
use std::marker::{Brand, PhantomData};
use std::snapshot::Snapshot;
use std::sync::Wait;
use std::thread::{Promise, PromisedHandle, Scope, Threads};

/// What a session hands back. Its connection is closed.
#[derive(Drop)]
pub(crate) struct Ended<K: Link, R: Recorder + Drop> {
    pub(crate) link: K,
    pub(crate) pass: Pass<R>,
    pub(crate) end: SessionEnd,
}

/// What is remembered of a session while its thread runs.
#[derive(Drop)]
pub(crate) struct SessionOf<K: Link, R: Recorder + Drop, C: Clock> {
    link: Snapshot<K>,
    pass: Snapshot<Pass<R>>,
    clock: Snapshot<C>,
    number: u32,
}

impl<K: Link, R: Recorder + Drop, C: Clock> Promise<Ended<K, R>> for SessionOf<K, R, C> {
    ghost use Rattle.cm_server.specs.inner.Begun.{HasEnded, session_of};
    ghost use Rattle.cm_server.specs.inner.Links.{link_state};

    ghost kept_by = { λ p r. HasEnded p.pass.value.config (C.shows p.clock.value)
        (session_of p.number (link_state K.left K.taken K.read_faults K.write_faults p.link.value) p.pass.value
        (link_state K.left K.taken K.read_faults K.write_faults r.link) r.pass r.end) };
}

/// A session that was begun: in a thread of its own, or, where none could be made, at once.
#[derive(Drop)]
pub(crate) enum Begun<K: Link, R: Recorder + Drop, C: Clock> {
    Runs(PromisedHandle<Ended<K, R>, SessionOf<K, R, C>>),
    Done(Ended<K, R>),
}

/// Serves one connection by a pass of its own, until its input ends. What was held for it is given up then, whatever
/// becomes of the other sessions.
fn talk<B: Origin, K: Link + Drop, R: Recorder + Drop, C: Clock + Drop, G: Meet, W: Wait>(
    shared: &Shared<'_, R, C, G, W>,
    link: K,
    pass: Pass<R>,
    number: u32,
) -> Ended<K, R>
    requires first { B.first ≡ Some pass }
    requires safe { G.SAFE ≡ true → R.EAGER ≡ true }
    requires free { IsFree shared.now.world pass }
    requires actor { pass.ticket.actor ≡ Actor.Nexus number }
    ensures { HasEnded shared.now.config (C.shows shared.now.clock)
        (session_of number (link_state K.left K.taken K.read_faults K.write_faults link) pass
        (link_state K.left K.taken K.read_faults K.write_faults result.link) result.pass result.end) }
{
    let mut link = Met::new(link, shared.meet, number);
    let mut actor: ByPass<'_, B, R, G, W> = ByPass {
        rt: shared.rt,
        meet: shared.meet,
        world: &shared.world,
        bells: shared.bells,
        number,
        pass,
        safety: Safety {
            recorder: PhantomData,
            meet: PhantomData,
        },
        began: PhantomData,
    };
    let end = session(
        shared.alloc,
        &shared.config,
        &mut link,
        &mut actor,
        &shared.clock,
    );
    link.close();
    let ByPass { pass, .. } = actor;
    Ended {
        link: link.into_link(),
        pass,
        end,
    }
}

/// Serves one connection by a pass of its own, and then says that the session at this place has ended.
fn run<K: Link + Drop, R: Recorder + Drop, C: Clock + Drop, G: Meet, W: Wait>(
    shared: &Shared<'_, R, C, G, W>,
    link: K,
    pass: Pass<R>,
    number: u32,
    place: u8,
) -> Ended<K, R>
    requires safe { G.SAFE ≡ true → R.EAGER ≡ true }
    requires free { IsFree shared.now.world pass }
    requires actor { pass.ticket.actor ≡ Actor.Nexus number }
    ensures { HasEnded shared.now.config (C.shows shared.now.clock)
        (session_of number (link_state K.left K.taken K.read_faults K.write_faults link) pass
        (link_state K.left K.taken K.read_faults K.write_faults result.link) result.pass result.end) }
{
    let ended = talk::<Brand, K, R, C, G, W>(shared, link, pass, number);
    shared.meet.ended(number, ended.end);
    shared.board.leave(shared.rt, place);
    ended
}

/// Begins a session.
pub(crate) fn begin<
    's,
    'a,
    E,
    K: Link + Send + Drop + 's,
    R: Recorder + Drop + Send + Sync,
    C: Clock + Drop + Sync,
    G: Meet + Sync,
    W: Wait + Sync,
>(
    scope: &Scope<'s, E>,
    shared: &'s Shared<'a, R, C, G, W>,
    link: K,
    pass: Pass<R>,
    number: u32,
    place: u8,
) -> Begun<K, R, C>
    requires safe { G.SAFE ≡ true → R.EAGER ≡ true }
    requires free { IsFree shared.now.world pass }
    requires actor { pass.ticket.actor ≡ Actor.Nexus number }
    ensures { IsBegun (link_state K.left K.taken K.read_faults K.write_faults) C.shows shared.now.config shared.now.clock
        (record { nexus = number; link = link_state K.left K.taken K.read_faults K.write_faults link; pass = pass }) result }
{
    let fact = SessionOf {
        link: Snapshot::of(&link),
        pass: Snapshot::of(&pass),
        clock: Snapshot::of(&shared.clock),
        number,
    };
    let session = move || -> Ended<K, R>
        requires safe { G.SAFE ≡ true → R.EAGER ≡ true }
        requires free { IsFree shared.now.world pass }
        requires actor { pass.ticket.actor ≡ Actor.Nexus number }
        ensures { HasEnded shared.entry.now.config (C.shows shared.entry.now.clock)
            (session_of number (link_state K.left K.taken K.read_faults K.write_faults link) pass
            (link_state K.left K.taken K.read_faults K.write_faults result.link) result.pass result.end) }
    { run(shared, link, pass, number, place) };
    match scope.spawn_with(fact, session) {
        Ok(child) => Begun::Runs(child),
        Err(refused) => Begun::Done((refused.value)()),
    }
}

/// What comes back of a session that was begun.
pub(crate) fn finish<K: Link, R: Recorder + Drop, C: Clock, W: Threads>(
    rt: &W,
    begun: Begun<K, R, C>,
) -> Ended<K, R>
    ensures { (config : Configuration) (clock : C) (start : Start)
        → IsBegun (link_state K.left K.taken K.read_faults K.write_faults) C.shows config clock start begun
        → HasEnded config (C.shows clock) (session_of start.nexus start.link start.pass (link_state K.left K.taken K.read_faults K.write_faults result.link) result.pass result.end) }
{
    match begun {
        Begun::Runs(child) => child.join(rt),
        Begun::Done(ended) => ended,
    }
}
