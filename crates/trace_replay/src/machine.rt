ghost use Rattle.std.specs.Prelude.{◌≡◌, ℕ, length, IfOk};
ghost use Rattle.cm_base.specs.Configuration.{Configuration};
ghost use Rattle.trace_replay.specs.ReplayState.{ReplayState, at_first};
ghost use Rattle.trace_replay.specs.inner.Machines.{IsStanding, IsEffect, Stands, effect_of};

use crate::nexus::Nexus;
use crate::units::Units;
use cm_base::{Config, OutOfMemory};
use cm_frame::{Reply, Request, TraceItem};
use std::alloc::Global;
use std::collections::BTreeMap;

/// The units and the initiators of a trace.
#[derive(Drop)]
pub(crate) struct Machine {
    alloc: Global,
    config: Config,
    units: Units,
    nexuses: BTreeMap<u32, Nexus>,
}

/// What an item does.
#[derive(Drop)]
pub(crate) enum Effect {
    /// It may not stand here, and nothing is done.
    Unfit,
    /// There is no reply to it.
    Quiet,
    Answers { initiator: u32, reply: Reply },
}

impl Effect {
    fn of(initiator: u32, reply: Option<Reply>) -> Effect
        ensures { result ≡ effect_of initiator reply }
    {
        match reply {
            Some(reply) => Effect::Answers { initiator, reply },
            None => Effect::Quiet,
        }
    }
}

impl Machine {
    pub(crate) fn new(alloc: Global, config: Config) -> Result<Machine, OutOfMemory>
        ensures { IfOk result (IsStanding config at_first) }
    {
        let units = Units::new(alloc, &config)?;
        Ok(Machine {
            alloc,
            config,
            units,
            nexuses: BTreeMap::new(alloc),
        })
    }

    /// How many acts were done.
    pub(crate) fn steps(&self) -> u64
        ensures { (config : Configuration) (s : ReplayState) → IsStanding config s self.now
            → result ≡ length s.entries }
    {
        self.units.stamp()
    }

    /// Plays an item. `OutOfMemory` leaves the machine of no use.
    pub(crate) fn play(&mut self, item: TraceItem) -> Result<Effect, OutOfMemory>
        requires { Stands self.old }
        ensures { (config : Configuration) (s : ReplayState) → IsStanding config s self.old
            → IfOk result (λ effect. IsEffect config s item effect self.new) }
    {
        match item {
            TraceItem::Begin {
                initiator,
                moment: _,
                request,
            } => self.begin(initiator, request),
            TraceItem::Run { initiator, moment } => self.run(initiator, moment),
            TraceItem::Pump { unit, moment } => self.pump(unit, moment),
        }
    }

    fn begin(&mut self, initiator: u32, request: Request) -> Result<Effect, OutOfMemory>
        requires { Stands self.old }
        ensures { (config : Configuration) (s : ReplayState) (moment : ℕ) → IsStanding config s self.old
            → IfOk result (λ effect. IsEffect config s (TraceItem.Begin initiator moment request) effect self.new) }
    {
        let nexus = self.nexuses.entry(initiator)?.or_insert(Nexus::idle());
        if nexus.waits() {
            return Ok(Effect::Unfit);
        }
        let reply = nexus.begin(self.alloc, &self.config, initiator, request);
        Ok(Effect::of(initiator, reply))
    }

    fn run(&mut self, initiator: u32, moment: u64) -> Result<Effect, OutOfMemory>
        requires { Stands self.old }
        ensures { (config : Configuration) (s : ReplayState) → IsStanding config s self.old
            → IfOk result (λ effect. IsEffect config s (TraceItem.Run initiator moment) effect self.new) }
    {
        let Some(nexus) = self.nexuses.get_mut(&initiator) else {
            return Ok(Effect::Unfit);
        };
        let Some(waiting) = nexus.take_waiting() else {
            return Ok(Effect::Unfit);
        };
        let reply = nexus.run(
            self.alloc,
            &self.config,
            &mut self.units,
            initiator,
            moment,
            waiting,
        )?;
        Ok(Effect::of(initiator, reply))
    }

    fn pump(&mut self, unit: u16, moment: u64) -> Result<Effect, OutOfMemory>
        requires { Stands self.old }
        ensures { (config : Configuration) (s : ReplayState) → IsStanding config s self.old
            → IfOk result (λ effect. IsEffect config s (TraceItem.Pump unit moment) effect self.new) }
    {
        if !self.config.is_configured(unit) {
            return Ok(Effect::Unfit);
        }
        self.units.pump(unit, moment)?;
        Ok(Effect::Quiet)
    }
}
