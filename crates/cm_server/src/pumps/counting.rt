ghost use Rattle.std.specs.Prelude.{◌<◌, length};
ghost use Rattle.cm_server.specs.inner.Pumping.{IsPump};

use crate::sessions::meet::Meet;
use crate::shared::Shared;
use cm_base::Clock;
use nexus::Pass;
use recorder::Recorder;
use std::sync::Wait;

/// Has a unit counted by whoever watches, in a turn of its pump. It takes no memory.
pub(crate) fn count<R: Recorder + Drop, C: Clock + Drop, G: Meet, W: Wait>(
    shared: &Shared<'_, R, C, G, W>,
    pass: &mut Pass<R>,
    unit: u16,
)
    requires pump { IsPump shared.now.world (C.shows shared.now.clock) unit pass.old }
    requires configured { unit < length shared.now.config.units }
    ensures { IsPump shared.now.world (C.shows shared.now.clock) unit pass.new }
{
    let hold = shared.world.hold_waiting(shared.rt, pass, unit);
    shared.meet.counts(unit, pass, &hold);
    shared.world.release(pass, hold);
}
