// A unit's journal on a disk in memory, and what the unit goes on with.
ghost use Rattle.std.specs.Prelude.{◌≡◌, ◌≤◌, ◌<◌, Some, length, map, IfOk, IfSome};
ghost use Rattle.cm_history.specs.declared.act.Entry.{Entry};
ghost use Rattle.cm_history.proofs.PublicLaws.{Each};
ghost use Rattle.journal_disk.specs.Journal.{AreInOrder};
ghost use Rattle.nexus.specs.Opening.{AreStored, stored};
ghost use Rattle.unit_gate.specs.Recorded.{facts};

use cm_base::{CallList, Config, UnitConfig, UnitList};
use cm_history::{Act, Actor, Entry, History};
use journal_disk::{Disk, Journal, MemoryDisk};
use nexus::Store;
use recorder::{Recorder, has_short_lists};
use std::alloc::Global;
use std::test::Fail;

pub(crate) type MemoryJournal = Journal<MemoryDisk>;

/// A machine of one unit of 100 blocks of 512 bytes, whose record has so many entries.
pub(crate) fn one_unit(alloc: Global, entries: u32) -> Result<Config, Fail>
    requires { (1 ≤ entries) × (entries ≤ 100) }
    ensures { IfOk result (λ config. length config.units ≡ 1) }
{
    let mut units = UnitList::empty(alloc);
    units.push(UnitConfig {
        blocks: 100,
        block_length: 512,
        entries,
        quota: 100,
        payload: 65_536,
        group: 0,
    })?;
    Ok(Config::new([7; 32], units))
}

/// A disk on which nothing was written.
pub(crate) fn new_disk(alloc: Global) -> MemoryDisk {
    MemoryDisk::new(alloc, CallList::empty(alloc))
}

/// The unit's journal on a disk, and its entries.
fn opened(
    alloc: Global,
    config: &Config,
    disk: MemoryDisk,
) -> Result<(MemoryJournal, History), Fail>
    requires one { length config.now.units ≡ 1 }
    ensures order { IfOk result (λ r. AreInOrder config.now 0 0 r.1.entries) }
    ensures recorded { IfOk result (λ r. ⟦<Journal<MemoryDisk> as Recorder>⟧.recorded r.0 ≡ Some r.1.entries) }
    ensures fits { IfOk result (λ r. (e : Entry) → ⟦<Journal<MemoryDisk> as Recorder>⟧.fits r.0 e) }
    ensures within { IfOk result (λ r. IfSome (⟦<MemoryDisk as Disk>⟧.reads r.0.disk) (λ bytes. r.0.gate < length bytes)) }
{
    match Journal::open(alloc, disk, config, 0) {
        Ok(found) => Ok(found),
        Err(_) => Err("the journal was not opened".into()),
    }
}

/// How many entries the journal on a disk has.
pub(crate) fn entries_on(alloc: Global, config: &Config, disk: MemoryDisk) -> Result<usize, Fail>
    requires { length config.now.units ≡ 1 }
{
    let (_, history) = opened(alloc, config, disk)?;
    Ok(history.len())
}

/// A disk in whose journal one act of nexus 0 is recorded.
pub(crate) fn disk_with(alloc: Global, config: &Config, act: Act) -> Result<MemoryDisk, Fail>
    requires { length config.now.units ≡ 1 }
{
    if !has_short_lists(&act) {
        return Err("a long list".into());
    }
    let (mut journal, _) = opened(alloc, config, new_disk(alloc))?;
    let entry = Entry {
        stamp: 1,
        unit: 0,
        actor: Actor::Nexus(0),
        seq: 0,
        moment: 0,
        act,
    };
    match journal.append(&entry) {
        Ok(()) => Ok(journal.into_disk()),
        Err(_) => Err("the entry was not recorded".into()),
    }
}

/// What the unit goes on with: the journal on a disk, and its entries.
pub(crate) fn stores_on(
    alloc: Global,
    config: &Config,
    disk: MemoryDisk,
) -> Result<Vec<Store<MemoryJournal>>, Fail>
    requires one { length config.now.units ≡ 1 }
    ensures long { IfOk result (λ l. length l.items ≡ 1) }
    ensures stored { IfOk result (λ l. AreStored config.now 0 (map (stored (facts ⟦<Journal<MemoryDisk> as Recorder>⟧.recorded
        ⟦<Journal<MemoryDisk> as Recorder>⟧.record_faults ⟦<Journal<MemoryDisk> as Recorder>⟧.absent ⟦<Journal<MemoryDisk> as Recorder>⟧.front)) l.items)) }
    ensures fits { IfOk result (λ l. Each (λ s. (e : Entry) → ⟦<Journal<MemoryDisk> as Recorder>⟧.fits s.recorder e) l.items) }
{
    let (recorder, history) = opened(alloc, config, disk)?;
    let mut stores = Vec::new(alloc);
    stores.push(Store { history, recorder })?;
    Ok(stores)
}
