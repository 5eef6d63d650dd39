// Links in memory, of which the listener tells: what each took is what the clauses of serving say of it.
ghost use Rattle.std.specs.Prelude.{◌≡◌, ◌<◌, ◌∷◌, [], length, map, IfOk, false};
ghost use Rattle.cm_base.specs.Memory.{IsFresh, coming_of, gone_of};
ghost use Rattle.cm_server.specs.declared.status.Status.{Status};
ghost use Rattle.server_tests.specs.inner.Links.{AreFirstAnswered};

use super::*;
use cm_base::{LinkList, MemoryListener};

/// A link that gives these bytes, on which nothing was done yet.
fn link_of(alloc: Global, bytes: Bytes) -> MemoryLink
    ensures fresh { IsFresh result }
    ensures gives { result.input.left ≡ bytes }
{
    let source = MemorySource::new(bytes, 4096, none(alloc));
    let sink = MemorySink::new(alloc, 4096, none(alloc));
    MemoryLink::new(source, sink)
}

/// A listener of one link, which gives these bytes.
fn listener_of_one(alloc: Global, bytes: Bytes) -> Result<MemoryListener, Fail>
    ensures coming { IfOk result (λ l. coming_of l.waiting ≡ bytes ∷ []) }
    ensures none { IfOk result (λ l. l.gone ≡ []) }
{
    let mut links = LinkList::empty(alloc);
    links.push(link_of(alloc, bytes))?;
    Ok(MemoryListener::new(alloc, links, none(alloc))?)
}

/// A listener of two links, which give these bytes.
pub(super) fn listener_of_two(
    alloc: Global,
    first: Bytes,
    second: Bytes,
) -> Result<MemoryListener, Fail>
    ensures coming { IfOk result (λ l. coming_of l.waiting ≡ first ∷ second ∷ []) }
    ensures none { IfOk result (λ l. l.gone ≡ []) }
{
    let mut links = LinkList::empty(alloc);
    links.push(link_of(alloc, first))?;
    links.push(link_of(alloc, second))?;
    Ok(MemoryListener::new(alloc, links, none(alloc))?)
}

/// Serves what comes to a listener that tells of its links. At `Done` the first of them were answered, and given back in
/// their order: each took the replies of the requests in the bytes that it gave.
pub(super) fn serve_told<G: Meet + Sync, W: Threads + Wait + Sync>(
    rt: &W,
    alloc: Global,
    words: &[Word],
    config: &[u8],
    listener: &mut MemoryListener,
    output: &mut MemorySink,
    meet: &G,
) -> Status
    requires { G.SAFE ≡ false }
    ensures answered { result ≡ Status.Done → listener.old.gone ≡ []
        → AreFirstAnswered (coming_of listener.old.waiting) (map gone_of listener.new.gone) }
    ensures some { result ≡ Status.Done → listener.old.gone ≡ [] → 0 < length listener.new.gone }
{
    let clock = SetClock::new(0);
    serve_at(rt, alloc, words, config, listener, clock, output, meet)
}

/// Holds no session.
#[derive(Drop)]
struct Alone;

impl Meet for Alone {
    ghost SAFE = { false };

    fn wait(&self, _session: u32) {}

    fn replies<R: Recorder + Drop>(&self, _session: u32, _pass: &Pass<R>) {}

    fn told(&self, _session: u32) {}

    fn ended(&self, _session: u32, _end: SessionEnd) {}

    fn counts<R: Recorder + Drop>(&self, _unit: u16, _pass: &Pass<R>, _hold: &Hold<R>) {}

    fn uncounted(&self, _unit: u16) {}
}

#[test]
fn one_link_is_served(rt: HostRuntime) -> Result<(), Fail> {
    let alloc = rt.alloc();
    let mut listener = listener_of_one(alloc, both(alloc)?)?;
    let mut output = output(alloc);
    let words = words_of(alloc, "serve A 1")?;
    let config = bytes_of(alloc, &[SMALL])?;
    let status = serve_told(
        &rt,
        alloc,
        &words,
        config.as_slice(),
        &mut listener,
        &mut output,
        &Alone,
    );
    let report =
        "sessions 1\nfaults 0\nmemory 0\ncommands 2\nunit 0 steps 3 live 0 mapped 2\ntotal 3\n";
    let Status::Done = status else {
        return Err("it did not end well".into());
    };
    assert_eq!(rt; output.as_slice(), report.as_bytes());
    assert_eq!(rt;
        listener.ended(0).taken(),
        bytes_of(alloc, &REPLIES)?.as_slice()
    );
    Ok(())
}
