ghost use Rattle.std.specs.Prelude.{◌≡◌, [], List, IfOk, IfErr};
ghost use Rattle.cm_history.specs.declared.act.Entry.{Entry};
ghost use Rattle.cm_frame.specs.declared.frame.Request.{Request};
ghost use Rattle.cmd_machine.specs.Rest.{StandsFor, IsSoundAt};
ghost use Rattle.any_cmds.specs.Meaning.{by_any, IsSoundAny};
ghost use Rattle.odx_host.specs.declared.port.PortFault.{PortFault};
ghost use Rattle.odx_host.specs.Units.{host, AreAfter, AreOf};
ghost use Rattle.odx_host.specs.inner.Acting.{Stand, MayRun, HasRun};

use crate::port::{Port, PortFault};
use crate::units::{NEXUS, Units};
use any_cmds::{AnyCommand, begin_any};
use cm_base::{Config, OutOfMemory};
use cm_frame::{Reply, Request};
use cmd_program::{Step, short_law};
use std::alloc::Global;
use std::marker::Model;

/// Acts that one command may ask for.
const ACTS: u32 = 1154;

/// An equal request.
fn copy_of(request: &Request) -> Result<Request, OutOfMemory>
    ensures { IfOk result (λ copy. copy ≡ request.now) }
{
    Ok(Request {
        unit: request.unit,
        cdb: request.cdb,
        out: request.out.clone()?,
    })
}

/// Runs a command to its reply. Where memory is wanted it stays under way.
fn run(
    alloc: Global,
    config: &Config,
    units: &mut Units,
    command: &mut AnyCommand,
) -> Result<Reply, PortFault>
    requires sound { IsSoundAt IsSoundAny config.now command.old }
    requires begun { MayRun config.now units.old command.old }
    ensures ran { (history : List Entry) (request : Request) → AreAfter config.now history units.old
        → StandsFor by_any config.now command.old host request []
        → HasRun config.now history units.new (record { request = request; answer = result }) }
    ensures memory { IfErr result (λ fault. fault ≡ PortFault.OutOfMemory) }
{
    short_law(config);
    let mut left = ACTS;
    'acts: loop {
        match command.step(alloc, config)? {
            Step::Done(reply) => return Ok(reply),
            Step::Do { unit, act } => {
                left -= 1;
                let outcome = units.act(unit, act)?;
                command.note(config, outcome);
            }
        }
    }
}

/// The reply to a request. Where memory is wanted its command is not begun, or stays under way.
fn answer(
    alloc: Global,
    config: &Config,
    units: &mut Units,
    request: &Request,
) -> Result<Reply, PortFault>
    requires { Stand config.now units.old }
    ensures ran { (history : List Entry) → AreAfter config.now history units.old
        → HasRun config.now history units.new (record { request = request.now; answer = result }) }
    ensures memory { IfErr result (λ fault. fault ≡ PortFault.OutOfMemory) }
{
    let asked = copy_of(request)?;
    let mut command = begin_any(alloc, config, NEXUS, asked)?;
    run(alloc, config, units, &mut command)
}

/// The units of a configuration as a port, all in one thread and at moment 0 (own profile). The host is their nexus 0.
/// Behind each request the pump of each unit works as often as is told at the beginning.
#[derive(Drop)]
pub struct UnitPort {
    alloc: Global,
    config: Config,
    units: Units,
    pumps: u32,
}

impl Model for UnitPort {
    ghost use Rattle.odx_host.specs.Units.{UnitsBehind};
    ghost use Rattle.odx_host.specs.inner.Acting.{Stand};

    ghost Value = { UnitsBehind };

    ghost view = { λ p. record { config = p.config; units = p.units; pumps = p.pumps } };

    ghost invariant = { λ p. Stand p.config p.units };
}

impl UnitPort {
    /// Units of which nothing was asked yet.
    pub fn new(alloc: Global, config: &Config, pumps: u32) -> Result<UnitPort, OutOfMemory>
        ensures config { IfOk result (λ p. p.config ≡ config.now) }
        ensures pumps { IfOk result (λ p. p.pumps ≡ pumps) }
        ensures first { IfOk result (λ p. AreOf p (record { config = config.now; nexus = host; history = [] })) }
    {
        let units = Units::new(alloc, config)?;
        Ok(UnitPort {
            alloc,
            config: config.copy(alloc)?,
            units,
            pumps,
        })
    }
}

impl Port for UnitPort {
    ghost use Rattle.odx_host.specs.Units.{AreOf, LedTo, led-none, led-append, legal-of};

    ghost Talks = { LedTo };

    ghost IsIn = { AreOf };

    /// It has no fault but `OutOfMemory`, at which the command was not begun, stays under way, or was run and not all
    /// pumps have worked.
    fn ask(&mut self, request: &Request) -> Result<Reply, PortFault> {
        let reply = answer(self.alloc, &self.config, &mut self.units, request)?;
        self.units.pump_all(&self.config, self.pumps)?;
        Ok(reply)
    }

    ghost silent = { led-none };

    ghost goes_on = { led-append };

    ghost legal = { legal-of };
}
