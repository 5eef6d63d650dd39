ghost use Rattle.std.specs.Prelude.{◌≡◌, [], List, IfOk, OnOk};
ghost use Rattle.cm_base.specs.Configuration.{Configuration};
ghost use Rattle.cm_history.specs.declared.act.Entry.{Entry};
ghost use Rattle.cm_history.specs.Forms.{HasForm};
ghost use Rattle.trace_replay.specs.inner.Machines.{HaveDone, HaveCounted, DoesAct, MayDo, MayPump};
ghost use Rattle.trace_replay.specs.ReplayState.{entries_after};

use cm_base::{Config, OutOfMemory};
use cm_history::{Act, ActRefused, Actor, Answer};
use std::alloc::Global;
use unit_core::Unit;

/// The units, how many entries the pump of each has made, and the latest stamp of them all.
#[derive(Drop)]
pub(crate) struct Units {
    units: Vec<Unit>,
    pumps: Vec<u64>,
    stamp: u64,
}

impl Units {
    pub(crate) fn new(alloc: Global, config: &Config) -> Result<Units, OutOfMemory>
        ensures { IfOk result (λ units. HaveCounted config.now [] units) }
    {
        let count = config.units();
        let mut units = Vec::new(alloc);
        for unit in 0..count {
            units.push(Unit::new(alloc, config, unit)?)?;
        }
        let pumps = vec![in alloc; 0u64; usize::from(count)]?;
        Ok(Units {
            units,
            pumps,
            stamp: 0,
        })
    }

    /// How many acts were done.
    pub(crate) fn stamp(&self) -> u64
        ensures { result ≡ self.now.stamp }
    {
        self.stamp
    }

    /// Does an act of an actor with so many entries, behind all others. A refusal changes nothing.
    fn ask(
        &mut self,
        unit: u16,
        actor: Actor,
        seq: u64,
        moment: u64,
        act: Act,
    ) -> Result<Answer, ActRefused>
        requires { MayDo self.old unit actor act }
        ensures done { (config : Configuration) (entries : List Entry) → HaveDone config entries self.old
            → DoesAct (λ es. HaveDone config es self.new) config entries unit actor seq moment act result }
        ensures form { (config : Configuration) (entries : List Entry) → HaveDone config entries self.old
            → IfOk result (λ a. HasForm config unit act a) }
        ensures pumps { self.new.pumps ≡ self.old.pumps }
    {
        let answer = self.units[usize::from(unit)].act(actor, seq, self.stamp, moment, act)?;
        self.stamp += 1;
        Ok(answer)
    }

    /// Does an act of a nexus with so many entries, behind all others. A refusal changes nothing.
    pub(crate) fn act(
        &mut self,
        unit: u16,
        nexus: u32,
        seq: u64,
        moment: u64,
        act: Act,
    ) -> Result<Answer, ActRefused>
        requires { MayDo self.old unit (Actor.Nexus nexus) act }
        ensures done { (config : Configuration) (entries : List Entry) → HaveCounted config entries self.old
            → DoesAct (λ es. HaveCounted config es self.new) config entries unit (Actor.Nexus nexus) seq moment act result }
        ensures form { (config : Configuration) (entries : List Entry) → HaveCounted config entries self.old
            → IfOk result (λ a. HasForm config unit act a) }
    {
        self.ask(unit, Actor::Nexus(nexus), seq, moment, act)
    }

    /// Lets the pump of a unit work once. Where the unit's record has no room nothing is done.
    pub(crate) fn pump(&mut self, unit: u16, moment: u64) -> Result<(), OutOfMemory>
        requires { MayPump self.old unit }
        ensures { (config : Configuration) (entries : List Entry) → HaveCounted config entries self.old
            → OnOk result (HaveCounted config (entries_after config entries (Actor.Pump unit) unit moment Act.Pump) self.new) }
    {
        let place = usize::from(unit);
        let seq = self.pumps[place];
        match self.ask(unit, Actor::Pump(unit), seq, moment, Act::Pump) {
            Ok(_) => {
                self.pumps[place] = seq + 1;
                Ok(())
            }
            Err(ActRefused::Full) => Ok(()),
            Err(ActRefused::OutOfMemory) => Err(OutOfMemory),
        }
    }
}
