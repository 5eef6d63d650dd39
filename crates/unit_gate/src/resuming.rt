// A unit goes on with a history whose entries were recorded before.
ghost use Rattle.std.specs.Prelude.{◌≡◌, ◌≢◌, ◌<◌, ◌+◌, ◌-◌, ◌^◌, ◌++◌, ◌∷◌, [], ℕ, List, None, Some, length, IfOk, IfErr, IfSome, OnOk, true, false};
ghost use Rattle.cm_history.specs.declared.act.Entry.{Entry};
ghost use Rattle.cm_history.specs.Legal.{may_ask};
ghost use Rattle.cm_history.specs.Limits.{within_limits};
ghost use Rattle.unit_core.specs.Unended.{unended_at};
ghost use Rattle.unit_core.specs.UnitState.{Stands};
ghost use Rattle.unit_gate.specs.Opening.{IsGiven, has_late_number, is_bad_behind, bad_entry, opening_entries};
ghost use Rattle.unit_gate.specs.declared.resuming.ResumeRefused.{ResumeRefused};

use cm_base::{Config, OutOfMemory};
use cm_history::{Act, ActRefused, Actor, CopyEnd, CopyState, Entry, History};
use copy_jobs::Key;
use recorder::{RecordRefused, Recorder};
use std::alloc::Global;
use unit_core::{FoldEnd, Unit};

/// The greatest number that a nexus of a history may have: 257 more are left behind it.
const LAST_NUMBER: u32 = 4_294_967_038;

/// Why a unit does not go on with a history.
#[derive(Debug, Drop, Clone, Copy, PartialEq, Eq)]
pub enum ResumeRefused {
    /// Memory was wanted and not had.
    OutOfMemory,
    /// This entry of the unit's history, counted from 0, is refused: the number of its nexus is above 4,294,967,038, or the
    /// unit's record has no room for it, though all earlier ones were recorded and dropped.
    BadHistory { unit: u16, entry: u64 },
}

impl From<OutOfMemory> for ResumeRefused {
    ghost use Rattle.unit_gate.specs.declared.resuming.ResumeRefused.{ResumeRefused};

    ghost from_gives = { λ _ e. e ≡ ResumeRefused.OutOfMemory };

    fn from(_: OutOfMemory) -> ResumeRefused {
        ResumeRefused::OutOfMemory
    }
}

/// What takes entries that were recorded before.
#[derive(Drop)]
struct RecordedBefore;

impl Recorder for RecordedBefore {
    ghost use Rattle.std.specs.Prelude.{None, false};

    const EAGER: bool = false;

    ghost EAGER = { false };

    ghost recorded = { λ _. None };

    ghost record_faults = { λ _. 0 };

    ghost absent = { λ _. false };

    ghost fits = { λ _ _. Unit {0} };

    fn record(&mut self, _entry: &Entry) -> Result<(), RecordRefused> {
        Ok(())
    }
}

/// The actor is a nexus whose number is too great.
fn has_late_number(actor: Actor) -> bool
    ensures { result ≡ has_late_number actor }
{
    match actor {
        Actor::Nexus(number) => number > LAST_NUMBER,
        Actor::Pump(_) => false,
    }
}

/// Drops the kept entries, which were recorded before.
fn drop_kept(told: &mut Unit) -> Result<(), OutOfMemory>
    ensures stands { (h : List Entry) → Stands told.old h → Stands told.new h }
    ensures none { OnOk result (told.new.kept ≡ []) }
    ensures config { told.new.config ≡ told.old.config }
    ensures unit { told.new.unit ≡ told.old.unit }
    ensures image { told.new.image ≡ told.old.image }
{
    match told.fold(&mut RecordedBefore) {
        FoldEnd::All => Ok(()),
        _ => Err(OutOfMemory),
    }
}

/// Has the act of an entry done again, at its place behind those that the unit stands for, all of which were dropped. At Ok
/// it stands for the entry too, which was dropped as well.
fn replay_one(told: &mut Unit, entry: Entry, place: u64) -> Result<(), ResumeRefused>
    requires unit { entry.unit ≡ told.old.unit }
    requires limits { within_limits told.old.config told.old.unit entry.act ≡ true }
    requires asked { may_ask told.old.unit entry.actor entry.act ≡ true }
    requires above { told.old.image.last_stamp < entry.stamp }
    requires none { told.old.kept ≡ [] }
    ensures stands { OnOk result ((h : List Entry) → Stands told.old h → Stands told.new (h ++ entry ∷ [])) }
    ensures none { OnOk result (told.new.kept ≡ []) }
    ensures config { OnOk result (told.new.config ≡ told.old.config) }
    ensures its_unit { OnOk result (told.new.unit ≡ told.old.unit) }
    ensures good { OnOk result ((h : List Entry) → Stands told.old h → is_bad_behind told.old.config told.old.unit h entry ≡ false) }
    ensures bad { IfErr result (λ e. e ≢ ResumeRefused.OutOfMemory
        → (e ≡ ResumeRefused.BadHistory told.old.unit place)
        × ((h : List Entry) → Stands told.old h → is_bad_behind told.old.config told.old.unit h entry ≡ true)) }
{
    let Entry {
        stamp,
        unit,
        actor,
        seq,
        moment,
        act,
    } = entry;
    if has_late_number(actor) {
        return Err(ResumeRefused::BadHistory { unit, entry: place });
    }
    match told.act(actor, seq, stamp - 1, moment, act) {
        Ok(_) => {}
        Err(ActRefused::OutOfMemory) => return Err(ResumeRefused::OutOfMemory),
        Err(ActRefused::Full) => return Err(ResumeRefused::BadHistory { unit, entry: place }),
    }
    drop_kept(told)?;
    Ok(())
}

/// A unit that stands for a history, all of whose entries were recorded before and are dropped.
fn replay(
    alloc: Global,
    config: &Config,
    unit: u16,
    history: &History,
) -> Result<Unit, ResumeRefused>
    requires configured { unit < length config.now.units }
    requires given { IsGiven config.now unit history.now.entries }
    ensures stands { IfOk result (λ u. Stands u history.now.entries) }
    ensures none { IfOk result (λ u. u.kept ≡ []) }
    ensures config { IfOk result (λ u. u.config ≡ config.now) }
    ensures its_unit { IfOk result (λ u. u.unit ≡ unit) }
    ensures good { OnOk result (bad_entry config.now unit history.now.entries ≡ None) }
    ensures bad { IfErr result (λ e. e ≢ ResumeRefused.OutOfMemory
        → (n : ℕ) × (e ≡ ResumeRefused.BadHistory unit n) × (bad_entry config.now unit history.now.entries ≡ Some n)) }
{
    let mut told = Unit::new(alloc, config, unit)?;
    for place in 0..history.len() {
        let entry = history.at(place).copy(alloc)?;
        replay_one(&mut told, entry, place as u64)?;
    }
    Ok(told)
}

/// Ends an operation, of which this is the key, for its initiator, at the unit's moment. It takes no memory.
fn end_one(told: &mut Unit, key: Key)
    requires first { (h : List Entry) → Stands told.old h → unended_at told.old h ≡ Some key }
    requires byte { key.copy ≡ true → key.id < 2 ^ 8 }
    requires stamps { told.old.image.last_stamp < 2 ^ 64 - 1 }
    requires some { (h : List Entry) × Stands told.old h }
    ensures stands { (h : List Entry) → Stands told.old h → (x : List Entry) × Stands told.new x
        × (opening_entries told.old.config told.old.unit x ≡ opening_entries told.old.config told.old.unit h) }
    ensures later { told.old.image.last_stamp < told.new.image.last_stamp }
    ensures folded { told.new.folded ≡ told.old.folded }
    ensures config { told.new.config ≡ told.old.config }
    ensures unit { told.new.unit ≡ told.old.unit }
{
    let actor = Actor::Nexus(key.actor);
    let moment = told.moment();
    if key.copy {
        let end = CopyEnd {
            state: CopyState::Terminated,
            segments: 0,
            bytes: 0,
        };
        let _ = told.close_copy(actor, 0, 0, moment, key.id as u8, end);
    } else {
        let _ = told.end(actor, 0, 0, moment, key.id);
    }
}

/// Ends each operation that its initiator has still to end, as long as there are stamps. It takes no memory.
fn end_all(told: &mut Unit)
    requires some { (h : List Entry) × Stands told.old h }
    ensures stands { (h : List Entry) → Stands told.old h → Stands told.new (opening_entries told.old.config told.old.unit h) }
    ensures folded { told.new.folded ≡ told.old.folded }
    ensures config { told.new.config ≡ told.old.config }
    ensures unit { told.new.unit ≡ told.old.unit }
{
    while told.last_stamp() < u64::MAX {
        let Some(key) = told.unended() else {
            return;
        };
        end_one(told, key);
    }
}

/// A unit that goes on with a history: it answers as after it, and after the ends of the operations that their initiators
/// had still to end, which alone it keeps. The history's entries were recorded before. `BadHistory` comes exactly where an
/// entry is refused, with the first.
pub fn resume(
    alloc: Global,
    config: &Config,
    unit: u16,
    history: &History,
) -> Result<Unit, ResumeRefused>
    requires configured { unit < length config.now.units }
    requires given { IsGiven config.now unit history.now.entries }
    ensures stands { IfOk result (λ u. Stands u (opening_entries config.now unit history.now.entries)) }
    ensures folded { IfOk result (λ u. u.folded ≡ length history.now.entries) }
    ensures config { IfOk result (λ u. u.config ≡ config.now) }
    ensures its_unit { IfOk result (λ u. u.unit ≡ unit) }
    ensures good { OnOk result (bad_entry config.now unit history.now.entries ≡ None) }
    ensures bad { IfErr result (λ e. e ≢ ResumeRefused.OutOfMemory
        → (n : ℕ) × (e ≡ ResumeRefused.BadHistory unit n) × (bad_entry config.now unit history.now.entries ≡ Some n)) }
{
    let mut told = replay(alloc, config, unit, history)?;
    end_all(&mut told);
    Ok(told)
}
