ghost use Rattle.std.specs.Prelude.{◌≡◌, [], IfOk};
ghost use Rattle.session.specs.Places.{IsFirst};

use cm_base::{Config, OutOfMemory};
use cm_history::{Act, ActRefused, Actor, Answer};
use cmd_program::{Runs, Unsettled};
use std::alloc::Global;
use std::marker::Model;
use unit_core::Unit;

/// The units of a configuration, of which one nexus has acts done, one after the other.
#[derive(Drop)]
pub struct UnitRuns {
    config: Config,
    nexus: u32,
    units: Vec<Unit>,
    stamp: u64,
    seq: u64,
}

impl Model for UnitRuns {
    ghost use Rattle.std.specs.Prelude.{◌≤◌, map};
    ghost use Rattle.unit_core.specs.Unfolded.{unfolded};
    ghost use Rattle.session.specs.Places.{Place, AreUnitsOf};
    ghost use Rattle.session.specs.Keeping.{KeepAll};

    ghost Value = { Place };

    ghost view = { λ r. record {
      config = r.config;
      nexus = r.nexus;
      units = map unfolded r.units.items;
      stamp = r.stamp;
      seq = r.seq;
    } };

    ghost invariant = { λ r. AreUnitsOf r.config (map unfolded r.units.items) × KeepAll r.units.items × (r.seq ≤ r.stamp) };
}

impl UnitRuns {
    /// Units of which nothing was asked yet, for the nexus of this number.
    pub fn new(alloc: Global, config: Config, nexus: u32) -> Result<UnitRuns, OutOfMemory>
        ensures first { IfOk result IsFirst }
        ensures config { IfOk result (λ r. r.config ≡ config) }
        ensures nexus { IfOk result (λ r. r.nexus ≡ nexus) }
        ensures none { IfOk result (λ r. ⟦<UnitRuns as Runs>⟧.StandsFor r []) }
    {
        let mut units = Vec::new(alloc);
        for unit in 0..config.units() {
            units.push(Unit::new(alloc, &config, unit)?)?;
        }
        Ok(UnitRuns {
            config,
            nexus,
            units,
            stamp: 0,
            seq: 0,
        })
    }
}

impl Runs for UnitRuns {
    ghost use Rattle.session.specs.Places.{StandsFor};

    ghost config = { λ r. r.config };

    ghost number = { λ r. r.nexus };

    ghost StandsFor = { StandsFor };

    // Its units lie in memory alone, and nothing of them is to outlive it.
    ghost Settled = { λ _. Unit {0} };

    ghost unsettled = { λ _. 0 };

    fn nexus(&self) -> u32 {
        self.nexus
    }

    fn run(&mut self, unit: u16, moment: u64, act: Act) -> Result<Answer, ActRefused> {
        let asked = &mut self.units[usize::from(unit)];
        let latest = self.stamp.max(asked.last_stamp());
        let answer = asked.act(Actor::Nexus(self.nexus), self.seq, self.stamp, moment, act)?;
        self.stamp = latest + 1;
        self.seq += 1;
        Ok(answer)
    }

    fn settle(&mut self) -> Result<(), Unsettled> {
        Ok(())
    }
}
