// Whether the record of a unit has room for one more act.
ghost use Rattle.std.specs.Prelude.{◌≡◌, ◌≤◌, ◌<◌, ◌+◌, ◌^◌, length, is_some, true, false, List};
ghost use Rattle.cm_history.specs.declared.act.Actor.{Actor};
ghost use Rattle.cm_history.specs.Limits.{within_limits};
ghost use Rattle.cm_history.specs.Legal.{may_ask};
ghost use Rattle.cm_history.specs.Operations.{Form, OfToken, OfCopy, would_serve};
ghost use Rattle.cm_history.specs.Room.{bytes_in, need};
ghost use Rattle.cm_history.specs.declared.act.Entry.{Entry};
ghost use Rattle.cm_history.specs.History.{past_of};
ghost use Rattle.unit_core.specs.UnitState.{Stands};
ghost use Rattle.unit_core.specs.Acting.{is_full_at, serves_operation};
ghost use Rattle.unit_core.specs.Keys.{number_of, key_of};

use crate::inner::{Core, Reached};
use crate::sharing::SharedVersions;
use crate::unit::UnitOver;
use cm_history::{Act, Actor, pieces, standing_law};
use copy_jobs::Key;
use lba_ranges::Pins;

/// The bytes of a Write, and none of another act.
pub(crate) fn bytes_in(act: &Act) -> u64
    requires { bytes_in act.now < 2 ^ 64 }
    ensures { result ≡ bytes_in act.now }
{
    match act {
        Act::Write { list, .. } => list.blocks() * u64::from(list.block_length()),
        _ => 0,
    }
}

/// The number of the one who asks.
fn number_of(actor: Actor) -> u32
    ensures { result ≡ number_of actor }
{
    match actor {
        Actor::Nexus(nexus) => nexus,
        Actor::Pump(unit) => u32::from(unit),
    }
}

/// The key of a token operation.
pub(crate) fn token_key(actor: Actor, id: u32) -> Key
    ensures { result ≡ key_of actor OfToken id }
{
    Key {
        actor: number_of(actor),
        copy: false,
        id,
    }
}

/// The key of a copy.
pub(crate) fn copy_key(actor: Actor, id: u8) -> Key
    ensures { result ≡ key_of actor OfCopy id }
{
    Key {
        actor: number_of(actor),
        copy: true,
        id: u32::from(id),
    }
}

impl<B: Pins + Drop> Core<B>
where
    B::Pin: Drop,
{
    /// The act serves an operation that runs.
    pub(crate) fn serves(&self, actor: Actor, act: &Act) -> bool
        requires known { ⟦<Core<B> as Reached>⟧.IsReached self.now }
        requires asked { may_ask self.now.unit actor act.now ≡ true }
        ensures { (h : List Entry) → ⟦<Core<B> as Reached>⟧.IsAfter self.now h
            → result ≡ is_some (would_serve (past_of self.now.config self.now.unit h) actor act.now) }
    {
        let jobs = &self.tables.jobs;
        match act {
            Act::Advance { id } | Act::End { id } => jobs.waits(Some(token_key(actor, *id))),
            Act::Pump => jobs.waits(None),
            Act::Abort { id } => jobs.runs_in_background(token_key(actor, *id)),
            Act::Close { id, .. } => jobs.runs(copy_key(actor, *id)),
            _ => false,
        }
    }

    /// How many entries the act takes, with those that it keeps free.
    pub(crate) fn need(&self, actor: Actor, act: &Act) -> u64
        requires known { ⟦<Core<B> as Reached>⟧.IsReached self.now }
        requires limits { within_limits self.now.config self.now.unit act.now ≡ true }
        requires asked { may_ask self.now.unit actor act.now ≡ true }
        ensures need { (h : List Entry) → ⟦<Core<B> as Reached>⟧.IsAfter self.now h
            → result ≡ need (past_of self.now.config self.now.unit h) actor act.now }
        ensures few { result ≤ 1026 }
    {
        match act {
            Act::Start { rod, .. } => 2 + pieces(rod.list().blocks()),
            Act::Open { .. } => 2,
            _ if self.serves(actor, act) => 0,
            _ => 1,
        }
    }
}

impl<B: SharedVersions + Drop> UnitOver<B>
where
    B::Pin: Drop,
{
    /// The record has no room for one more act: of stamps, of entries or of bytes. It takes no memory.
    pub fn is_full(&self, actor: Actor, stamp: u64, act: &Act) -> bool
        requires limits { within_limits self.now.config self.now.unit act.now ≡ true }
        requires asked { may_ask self.now.unit actor act.now ≡ true }
        ensures { (h : List Entry) → Stands self.now h → result ≡ is_full_at self.now h actor stamp act.now }
    {
        standing_law(&self.core.config, self.core.unit);
        let unit = self.core.config.unit(self.core.unit);
        if stamp.max(self.core.last_stamp) == u64::MAX {
            return true;
        }
        let kept = self.history.len() as u64 + self.core.tables.jobs.reserved();
        if kept + self.core.need(actor, act) > u64::from(unit.entries) {
            return true;
        }
        self.payload + bytes_in(act) > u64::from(unit.payload)
    }

    /// The act serves an operation that runs, for which an entry is kept free. It takes no memory.
    pub fn serves(&self, actor: Actor, act: &Act) -> bool
        requires { may_ask self.now.unit actor act.now ≡ true }
        ensures { (h : List Entry) → Stands self.now h → result ≡ serves_operation self.now h actor act.now }
    {
        standing_law(&self.core.config, self.core.unit);
        self.core.serves(actor, act)
    }
}
