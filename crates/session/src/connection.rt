ghost use Rattle.std.specs.Prelude.{◌≡◌, ◌≤◌, List};
ghost use Rattle.cmd_program.specs.Running.{Call};
ghost use Rattle.cmd_program.specs.Judging.{step};
ghost use Rattle.cm_frame.specs.Framing.{frames_limit};
ghost use Rattle.session.specs.Spoken.{Spoken, IsCounted, AreSettlesCounted};

use crate::end::SessionEnd;
use crate::talks::Talk;
use cm_base::{Clock, Config, Link};
use cmd_program::{Runs, short_law};
use std::alloc::Global;

/// Serves one connection until its input ends: runs the command of each request at moments that the
/// clock shows, and pushes its reply once what the command did is settled.
pub fn session<K: Link, R: Runs, C: Clock>(
    alloc: Global,
    config: &Config,
    link: &mut K,
    actor: &mut R,
    clock: &C,
) -> SessionEnd
    requires config { R.config actor.old ≡ config.now }
    ensures spoken { (calls : List Call) → R.StandsFor actor.old calls
        → Spoken step config.now (R.number actor.old) (C.shows clock.now) (R.StandsFor actor.new) (R.Settled actor.new) calls (K.left link.old) (K.left link.new) (K.taken link.old) (K.taken link.new) result }
    ensures counted { IsCounted (K.read_faults link.old) (K.read_faults link.new) (K.write_faults link.old) (K.write_faults link.new) result.fault }
    ensures settles { AreSettlesCounted (R.unsettled actor.old) (R.unsettled actor.new) result.fault }
    ensures limit { result.frames ≤ frames_limit }
    ensures config { R.config actor.new ≡ R.config actor.old }
    ensures number { R.number actor.new ≡ R.number actor.old }
{
    short_law(config);
    let mut talk = Talk::new(alloc);
    let fault = talk.all(config, link, actor, clock).err();
    SessionEnd {
        frames: talk.frames,
        fault,
    }
}
