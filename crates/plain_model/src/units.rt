ghost use Rattle.std.specs.Prelude.{◌≡◌, ◌<◌, ◌+◌, ◌++◌, ◌∷◌, [], length, count_by, true, IfOk, OnOk, OnErr};
ghost use Rattle.cm_base.specs.Units.{unit_of};
ghost use Rattle.cm_history.specs.declared.act.Entry.{Entry};
ghost use Rattle.cm_history.specs.Deeds.{same_actor};
ghost use Rattle.cm_history.specs.Forms.{HasForm};
ghost use Rattle.cm_history.specs.History.{answer, past_of};
ghost use Rattle.cm_history.specs.Limits.{within_limits};
ghost use Rattle.cm_history.specs.Room.{is_full};

use crate::acts::{self, same_actor};
use crate::unit::PlainUnit;
use cm_base::{Config, OutOfMemory};
use cm_history::{Act, Actor, Answer, Entry};
use std::alloc::Global;
use std::marker::Model;

/// Units that answer the slow plain way: each keeps all that it has done, and goes through it for each answer.
/// Contracts see the configuration and the entries of all units, the oldest first.
#[derive(Drop)]
pub struct PlainUnits {
    config: Config,
    entries: Vec<Entry>,
    units: Vec<PlainUnit>,
}

impl Model for PlainUnits {
    ghost use Rattle.plain_model.specs.Holds.{PlayedUnits};
    ghost use Rattle.plain_model.specs.inner.Pasts.{HavePlayed};

    ghost Value = { PlayedUnits };

    ghost view = { λ u. record { config = u.config; entries = u.entries.items } };

    ghost invariant = { λ u. HavePlayed u.config u.entries.items u.units.items };
}

impl PlainUnits {
    /// Units that have done nothing.
    pub fn new(alloc: Global, config: Config) -> Result<PlainUnits, OutOfMemory>
        ensures { IfOk result (λ units. units ≡ record { config = config; entries = [] }) }
    {
        let count = usize::from(config.units());
        let mut units = Vec::new(alloc);
        while units.len() < count {
            units.push(PlainUnit::new(alloc))?;
        }
        Ok(PlainUnits {
            config,
            entries: Vec::new(alloc),
            units,
        })
    }

    /// The units that there are.
    pub fn config(&self) -> &Config
        ensures { result.now ≡ self.now.config }
    {
        &self.config
    }

    /// The unit's record has no room for one more act of an actor: of stamps, of entries or of bytes. The act is within
    /// its limits.
    pub fn is_full(&self, unit: u16, actor: Actor, act: &Act) -> bool
        requires configured { unit < length self.now.config.units }
        requires limits { within_limits self.now.config unit act.now ≡ true }
        ensures { result ≡ is_full (unit_of self.now.config unit) 0 (past_of self.now.config unit self.now.entries) actor (length self.now.entries) act.now }
    {
        let told = self.config.unit(unit);
        self.units[usize::from(unit)].is_full(told, actor, self.entries.len() as u64, act)
    }

    /// What a unit answers to an act that is within its limits.
    pub fn answer(
        &self,
        alloc: Global,
        unit: u16,
        actor: Actor,
        moment: u64,
        act: &Act,
    ) -> Result<Answer, OutOfMemory>
        requires configured { unit < length self.now.config.units }
        requires limits { within_limits self.now.config unit act.now ≡ true }
        ensures value { IfOk result (λ a. a ≡ answer self.now.config self.now.entries unit actor moment act.now) }
        ensures form { IfOk result (λ a. HasForm self.now.config unit act.now a) }
    {
        let _ = self.config.unit(unit);
        let played = &self.units[usize::from(unit)];
        played.answer(alloc, &self.config, unit, actor, moment, act)
    }

    /// How many entries an actor has made.
    fn made_by(&self, actor: Actor) -> u64
        ensures { result ≡ count_by (λ (e : Entry). same_actor e.actor actor) self.now.entries }
    {
        let mut made = 0;
        for entry in &self.entries {
            if same_actor(entry.actor, actor) {
                made += 1;
            }
        }
        made
    }

    /// The entry that an act of an actor becomes, behind all others and with the next stamp.
    fn next_entry(&self, unit: u16, actor: Actor, moment: u64, act: Act) -> Entry
        ensures { result ≡ record {
          stamp = length self.now.entries + 1;
          unit = unit;
          actor = actor;
          seq = count_by (λ (e : Entry). same_actor e.actor actor) self.now.entries;
          moment = moment;
          act = act;
        } }
    {
        Entry {
            stamp: self.entries.len() as u64 + 1,
            unit,
            actor,
            seq: self.made_by(actor),
            moment,
            act,
        }
    }

    /// Adds an act of an actor behind all entries, with the next stamp. The act is within its limits. At `OutOfMemory`
    /// nothing changes.
    pub fn add(
        &mut self,
        alloc: Global,
        unit: u16,
        actor: Actor,
        moment: u64,
        act: Act,
    ) -> Result<(), OutOfMemory>
        requires configured { unit < length self.old.config.units }
        requires limits { within_limits self.old.config unit act ≡ true }
        ensures config { self.new.config ≡ self.old.config }
        ensures ok { OnOk result (self.new.entries ≡ self.old.entries ++ (record {
          stamp = length self.old.entries + 1;
          unit = unit;
          actor = actor;
          seq = count_by (λ (e : Entry). same_actor e.actor actor) self.old.entries;
          moment = moment;
          act = act;
        }) ∷ []) }
        ensures err { OnErr result (self.new ≡ self.old) }
    {
        let _ = self.config.unit(unit);
        acts::blocks_brought(&act);
        self.entries.reserve(1)?;
        let next = self.next_entry(unit, actor, moment, act);
        let place = usize::from(unit);
        self.units[place].add(alloc, &self.config, unit, &next)?;
        self.entries.push_reserved(next);
        Ok(())
    }
}
