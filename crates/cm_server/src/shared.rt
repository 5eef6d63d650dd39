ghost use Rattle.std.specs.Prelude.{◌≡◌, length, true};
ghost use Rattle.cm_server.specs.declared.term.Term.{Term};

use crate::pumps::bell::Bell;
use crate::sessions::board::Board;
use crate::sessions::meet::Meet;
use crate::term::Term;
use cm_base::{Clock, Config};
use nexus::World;
use recorder::Recorder;
use std::alloc::Global;
use std::sync::Wait;

/// What the threads of one serving share.
#[derive(Drop)]
pub(crate) struct Shared<'a, R: Recorder + Drop, C: Clock + Drop, G: Meet, W: Wait> {
    pub(crate) rt: &'a W,
    pub(crate) alloc: Global,
    pub(crate) config: Config,
    pub(crate) world: World<R>,
    /// One of each unit's pump.
    pub(crate) bells: &'a [Bell],
    /// Where sessions say that they have ended.
    pub(crate) board: &'a Board,
    pub(crate) term: Term,
    pub(crate) clock: C,
    pub(crate) meet: &'a G,
    ghost same: { world.config ≡ config },
    ghost one_each: { length bells.now ≡ length config.units },
}

impl<R: Recorder + Drop, C: Clock + Drop, G: Meet, W: Wait> Shared<'_, R, C, G, W> {
    /// Whether no more connections are wanted.
    pub(crate) fn ends(&self) -> bool
        ensures { result ≡ true → self.now.term ≡ Term.Open }
    {
        match self.term {
            Term::Counted => false,
            Term::Open => self.board.ends(self.rt),
        }
    }

    /// Waits for what the end of a session gives back, where one is open of so many that were begun, `ended` of which had
    /// ended: whether it waited. Nobody waits where as many connections are served as were asked for, or no more are wanted.
    pub(crate) fn waits(&self, begun: u32, ended: u64) -> bool {
        if let Term::Counted = self.term {
            return false;
        }
        if ended >= u64::from(begun) || self.board.ends(self.rt) {
            return false;
        }
        self.board.wait_for_another(self.rt, ended);
        true
    }
}
