ghost use Rattle.std.specs.Prelude.{◌≡◌, [], List, IfOk};
ghost use Rattle.cm_base.specs.Configuration.{Configuration};
ghost use Rattle.cm_history.specs.declared.act.Entry.{Entry};
ghost use Rattle.cmd_program.specs.Meaning.{IsOutcomeOf};
ghost use Rattle.odx_host.specs.Units.{AreAfter};
ghost use Rattle.odx_host.specs.inner.Acting.{MayDo, MayPump, HasDone, HasGoneOn};

use cm_base::{Config, OutOfMemory};
use cm_history::{Act, ActRefused, Actor};
use cmd_program::Outcome;
use std::alloc::Global;
use std::marker::Model;
use unit_core::Unit;

/// The number of the nexus.
pub(crate) const NEXUS: u32 = 0;

/// Units of which one nexus and the units' own pumps have acts done, at moment 0.
#[derive(Drop)]
pub(crate) struct Units {
    units: Vec<Unit>,
    /// How many entries each unit's pump made.
    pumped: Vec<u64>,
    /// How many the nexus made, and the stamp of the last.
    asked: u64,
    stamp: u64,
}

impl Model for Units {
    ghost use Rattle.std.specs.Prelude.{map};
    ghost use Rattle.unit_core.specs.Unfolded.{unfolded};
    ghost use Rattle.session.specs.Keeping.{KeepAll};
    ghost use Rattle.odx_host.specs.Units.{UnitsAt};

    ghost Value = { UnitsAt };

    ghost view = { λ r. record {
      units = map unfolded r.units.items;
      pumped = r.pumped.items;
      asked = r.asked;
      stamp = r.stamp;
    } };

    ghost invariant = { λ r. KeepAll r.units.items };
}

impl Units {
    /// Units of which nothing was asked yet.
    pub(crate) fn new(alloc: Global, config: &Config) -> Result<Units, OutOfMemory>
        ensures { IfOk result (AreAfter config.now []) }
    {
        let count = config.units();
        let mut units = Vec::new(alloc);
        for unit in 0..count {
            units.push(Unit::new(alloc, config, unit)?)?;
        }
        let pumped = vec![in alloc; 0u64; usize::from(count)]?;
        Ok(Units {
            units,
            pumped,
            asked: 0,
            stamp: 0,
        })
    }

    /// Does an act of the nexus. Where memory is wanted nothing is done.
    pub(crate) fn act(&mut self, unit: u16, act: Act) -> Result<Outcome, OutOfMemory>
        requires { MayDo self.old unit act }
        ensures done { (config : Configuration) (history : List Entry) → AreAfter config history self.old
            → HasDone config history unit act result self.new }
        ensures form { (config : Configuration) (history : List Entry) → AreAfter config history self.old
            → IfOk result (IsOutcomeOf config unit act) }
    {
        let asked = &mut self.units[usize::from(unit)];
        let latest = self.stamp.max(asked.last_stamp());
        match asked.act(Actor::Nexus(NEXUS), self.asked, self.stamp, 0, act) {
            Ok(answer) => {
                self.stamp = latest + 1;
                self.asked += 1;
                Ok(Outcome::Answered(answer))
            }
            Err(ActRefused::Full) => Ok(Outcome::Full),
            Err(ActRefused::OutOfMemory) => Err(OutOfMemory),
        }
    }

    /// Lets the pump of a unit work once. Where its record has no room nothing is done.
    fn pump(&mut self, unit: u16) -> Result<(), OutOfMemory>
        requires { MayPump self.old unit }
        ensures { (config : Configuration) (history : List Entry) → AreAfter config history self.old
            → HasGoneOn config history self.new }
    {
        let place = usize::from(unit);
        let seq = self.pumped[place];
        let pumped = &mut self.units[place];
        let stamp = pumped.last_stamp();
        match pumped.act(Actor::Pump(unit), seq, stamp, 0, Act::Pump) {
            Ok(_) => {
                self.pumped[place] = seq + 1;
                Ok(())
            }
            Err(ActRefused::Full) => Ok(()),
            Err(ActRefused::OutOfMemory) => Err(OutOfMemory),
        }
    }

    /// Lets the pump of a unit work so many times.
    fn pump_unit(&mut self, unit: u16, times: u32) -> Result<(), OutOfMemory>
        requires { MayPump self.old unit }
        ensures { (config : Configuration) (history : List Entry) → AreAfter config history self.old
            → HasGoneOn config history self.new }
    {
        'pumps: for _ in 0..times {
            self.pump(unit)?;
        }
        Ok(())
    }

    /// Lets each unit's pump work so many times.
    pub(crate) fn pump_all(&mut self, config: &Config, times: u32) -> Result<(), OutOfMemory>
        requires { (history : List Entry) × AreAfter config.now history self.old }
        ensures { (history : List Entry) → AreAfter config.now history self.old → HasGoneOn config.now history self.new }
    {
        'units: for unit in 0..config.units() {
            self.pump_unit(unit, times)?;
        }
        Ok(())
    }
}
