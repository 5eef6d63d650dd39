// Units that forget: each entry is given up as soon as it was made, so that a unit's memory is that of its state.
ghost use Rattle.std.specs.Prelude.{◌≡◌, ◌≤◌, [], ℕ, List, Ok, Err, length, IfOk};
ghost use Rattle.cm_base.specs.Configuration.{Configuration};
ghost use Rattle.cm_base.specs.Outside.{Faulted};
ghost use Rattle.cm_history.specs.Legal.{IsLegal};
ghost use Rattle.cmd_program.specs.Judging.{step};
ghost use Rattle.cm_server.specs.Headers.{read_config};
ghost use Rattle.cm_server.specs.Recorders.{GivesUpAll};
ghost use Rattle.cm_server.specs.Served.{WasServed};
ghost use Rattle.cm_server.specs.Serving.{IsBadAt, IfOfStore, IfUnserved, IfUnreported, IfReported, Reports};
ghost use Rattle.cm_server.specs.Words.{AreManageWords};
ghost use Rattle.cm_server.specs.declared.status.Status.{Status};
ghost use Rattle.cm_server.specs.declared.term.Term.{Term};

use crate::asking::configuration::configuration;
use crate::asking::words::ask_to_manage;
use crate::served::tell;
use crate::serving::{Manner, serve_world};
use crate::sessions::board::Board;
use crate::sessions::meet::Meet;
use crate::status::Status;
use crate::term::Term;
use cm_base::{Clock, Config, Listener, OutOfMemory, Sink, Word};
use cm_history::Entry;
use nexus::World;
use recorder::{RecordRefused, Recorder};
use std::alloc::Global;
use std::sync::Wait;
use std::thread::Threads;

/// Connections that a manager may accept: as many as there may be numbers of nexuses.
const MOST_MANAGED: u32 = 4_294_967_038;

/// A recorder that keeps nothing: it takes every entry, as soon as it was made, and lets it go.
#[derive(Drop)]
pub(crate) struct Forgetting;

impl Recorder for Forgetting {
    ghost use Rattle.std.specs.Prelude.{None, true, false};

    const EAGER: bool = true;

    ghost EAGER = { true };

    ghost recorded = { λ _. None };

    ghost record_faults = { λ _. 0 };

    ghost absent = { λ _. false };

    ghost fits = { λ _ _. Unit {0} };

    fn record(&mut self, _entry: &Entry) -> Result<(), RecordRefused> {
        Ok(())
    }
}

/// What a manager is asked while it runs (own profile).
#[derive(Drop)]
pub struct Requests {
    board: Board,
}

impl Requests {
    /// Nothing is asked.
    pub fn new() -> Requests {
        Requests {
            board: Board::new(),
        }
    }

    /// Asks for the end: no more connections are accepted, and the manager ends when those that are open have. A manager that
    /// waits for a place sees it at once, and one that waits for a connection when its accept has failed.
    pub fn ask_for_end<W: Wait>(&self, rt: &W) {
        self.board.end(rt);
    }

    /// Asks for the counts of all units. Whoever watches is told those of each in a turn of its own, or that there are none.
    pub fn ask_for_counts<W: Wait>(&self, rt: &W) {
        self.board.ask_for_counts(rt);
    }

    /// How many sessions of the manager have ended.
    pub fn ended<W: Wait>(&self, rt: &W) -> u64 {
        self.board.ended(rt)
    }

    /// Waits until another number of sessions have ended than this, or the end is asked for.
    pub fn wait_for_another<W: Wait>(&self, rt: &W, ended: u64) {
        self.board.wait_for_another(rt, ended);
    }

    /// Whether the end was asked for.
    pub fn is_end_asked<W: Wait>(&self, rt: &W) -> bool {
        self.board.ends(rt)
    }
}

/// So many of them.
fn recorders(alloc: Global, count: u16) -> Result<Vec<Forgetting>, OutOfMemory>
    ensures { IfOk result (λ all. length all.items ≡ count) }
{
    let mut all = Vec::new(alloc);
    for _ in 0..count {
        all.push(Forgetting)?;
    }
    Ok(all)
}

/// Serves connections of a new world of this configuration, whose units forget, and tells of it.
fn manage_world<
    L: Listener,
    C: Clock + Drop + Sync,
    O: Sink,
    G: Meet + Sync,
    W: Threads + Wait + Sync,
>(
    rt: &W,
    alloc: Global,
    config: Config,
    listener: &mut L,
    clock: C,
    output: &mut O,
    requests: &Requests,
    meet: &G,
) -> Status
    ensures served { IfUnserved result ⊥ }
    ensures unpushed { IfUnreported result (output.new ≡ output.old) }
    ensures links { L.out listener.new ≡ L.out listener.old }
    ensures accept { result ≡ Status.AcceptFault → Faulted (L.accept_faults listener.old) (L.accept_faults listener.new) }
    ensures write { result ≡ Status.WriteFault → Faulted (O.write_faults output.old) (O.write_faults output.new) }
    ensures managed { IfReported result (WasServed step config (IsLegal config) GivesUpAll Term.Open [] 0 (C.shows clock)
        (L.coming listener.old) (L.coming listener.new) (L.ended listener.old) (L.ended listener.new)
        (Reports Term.Open result 4_294_967_038 config (O.taken output.old) (O.taken output.new))) }
{
    let Ok(recorders) = recorders(alloc, config.units()) else {
        return Status::OutOfMemory;
    };
    let Ok((world, root)) = World::with(alloc, &config, recorders) else {
        return Status::OutOfMemory;
    };
    let manner = Manner {
        term: Term::Open,
        goes_on: false,
        board: &requests.board,
    };
    let left = serve_world(
        rt,
        alloc,
        config,
        world,
        root,
        MOST_MANAGED,
        listener,
        clock,
        meet,
        manner,
    );
    tell(alloc, &left, None, output)
}

/// Serves as [`serve`] does where the words are `manage ADDRESS FILE`, until `requests` asks for the end, or 4,294,967,038
/// connections have come: one after the other, at most 256 at a time. A link is given back when its session has ended. Units
/// forget: `TASK SET FULL` comes only where a record has no room though all entries before were given up.
///
/// [`serve`]: crate::serve
pub fn manage<
    L: Listener,
    C: Clock + Drop + Sync,
    O: Sink,
    G: Meet + Sync,
    W: Threads + Wait + Sync,
>(
    rt: &W,
    alloc: Global,
    words: &[Word],
    config: &[u8],
    listener: &mut L,
    clock: C,
    output: &mut O,
    requests: &Requests,
    meet: &G,
) -> Status
    ensures usage { result ≡ Status.Usage → AreManageWords words.now → ⊥ }
    ensures asked { (AreManageWords words.now → ⊥) → result ≡ Status.Usage }
    ensures bad { (place : ℕ) → AreManageWords words.now → read_config config.now ≡ Err place → IsBadAt place result }
    ensures header { (place : ℕ) → result ≡ Status.BadHeader place → read_config config.now ≡ Err place }
    ensures fresh { IfOfStore result ⊥ }
    ensures unserved { IfUnserved result (listener.new ≡ listener.old) }
    ensures unpushed { IfUnreported result (output.new ≡ output.old) }
    ensures links { L.out listener.new ≡ L.out listener.old }
    ensures accept { result ≡ Status.AcceptFault → Faulted (L.accept_faults listener.old) (L.accept_faults listener.new) }
    ensures write { result ≡ Status.WriteFault → Faulted (O.write_faults output.old) (O.write_faults output.new) }
    ensures served { IfReported result (AreManageWords words.now × ((c : Configuration) × (read_config config.now ≡ Ok c)
        × WasServed step c (IsLegal c) GivesUpAll Term.Open [] 0 (C.shows clock) (L.coming listener.old) (L.coming listener.new) (L.ended listener.old) (L.ended listener.new)
        (Reports Term.Open result 4_294_967_038 c (O.taken output.old) (O.taken output.new)))) }
{
    if !ask_to_manage(words) {
        return Status::Usage;
    }
    let config = match configuration(alloc, config) {
        Ok(config) => config,
        Err(fault) => return Status::from(fault),
    };
    manage_world(rt, alloc, config, listener, clock, output, requests, meet)
}
