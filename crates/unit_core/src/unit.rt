ghost use Rattle.std.specs.Prelude.{◌≡◌, ℕ, List, ◌+◌, ◌-◌, ◌<◌, ◌≤◌, ◌^◌, ◌++◌, ◌∷◌, [], length, max, IfOk, IfErr, OnOk, OnErr, true, false};
ghost use Rattle.cm_base.specs.Units.{unit_of};
ghost use Rattle.cm_history.specs.declared.act.Act.{Act};
ghost use Rattle.cm_history.specs.declared.act.Entry.{Entry};
ghost use Rattle.cm_history.specs.declared.answer.Answer.{Answer};
ghost use Rattle.cm_history.specs.declared.refused.ActRefused.{ActRefused};
ghost use Rattle.cm_history.specs.Limits.{within_limits};
ghost use Rattle.cm_history.specs.Legal.{may_ask};
ghost use Rattle.cm_history.specs.Deeds.{last_stamp};
ghost use Rattle.cm_history.specs.Blocks.{mapped};
ghost use Rattle.cm_history.specs.History.{on, answer};
ghost use Rattle.cm_history.specs.Forms.{HasForm};
ghost use Rattle.cm_history.specs.Tokens.{Token, rod};
ghost use Rattle.unit_core.specs.UnitState.{UnitState, Stands};
ghost use Rattle.unit_core.specs.Versions.{needed};
ghost use Rattle.unit_core.specs.Acting.{past, moment_at, is_full_at, entry_at, serves_operation, ends_operation_at, MayRedeem};

use crate::inner::Core;
use crate::room::bytes_in;
use crate::sharing::SharedVersions;
use crate::tables::Tables;
use cm_base::{Config, OutOfMemory};
use cm_history::{Act, ActRefused, Actor, Answer, Entry, History, standing_law};
use lun_versions::VersionUnit;
use std::alloc::Global;
use std::marker::Model;

/// One unit over blocks of some kind. Contracts see its configuration and its number, the entries that it keeps, how
/// many older ones were recorded elsewhere and dropped, and all that its answers depend on. It answers as after each
/// list of entries for which it stands.
#[derive(Drop)]
pub struct UnitOver<B: SharedVersions + Drop>
where
    B::Pin: Drop,
{
    pub(crate) core: Core<B>,
    pub(crate) history: History,
    pub(crate) folded: u64,
    /// The bytes of the Writes in the record.
    pub(crate) payload: u64,
}

/// One unit.
pub type Unit = UnitOver<VersionUnit>;

impl<B: SharedVersions + Drop> Model for UnitOver<B>
where
    B::Pin: Drop,
{
    ghost use Rattle.std.specs.Prelude.{List, None, ◌+◌, length};
    ghost use Rattle.cm_history.specs.declared.act.Entry.{Entry};
    ghost use Rattle.unit_core.specs.UnitState.{UnitState};
    ghost use Rattle.unit_core.specs.inner.Shown.{image_shown};
    ghost use Rattle.unit_core.specs.inner.Seen.{AreWriters, shares_shown};
    ghost use Rattle.unit_core.specs.inner.Agreeing.{TablesAgree, RecordAgrees};
    ghost use Rattle.unit_core.specs.Versions.{writer_seen, shares_table};
    ghost use Rattle.cm_history.specs.History.{past_of};
    ghost use Rattle.rod_store.specs.Pinning.{rods_of, holder, ArePinned};

    ghost Value = { UnitState };

    ghost view = { λ u. record {
      config = u.core.config;
      unit = u.core.unit;
      kept = u.history.entries;
      folded = u.folded;
      image = image_shown u.core.moment u.core.last_stamp (u.folded + length u.history.entries)
          (B.blocks u.core.tables.blocks) (B.holds u.core.tables.blocks)
          (rods_of B.number (B.block_length u.core.tables.blocks) (B.shown u.core.tables.blocks) u.core.tables.tokens).tokens u.core.tables.jobs u.core.tables.reservations;
      shares = shares_table (B.blocks u.core.tables.blocks) (length u.core.tables.tokens.tokens)
          (shares_shown B.number (B.shares u.core.tables.blocks) u.core.tables.tokens.tokens);
    } };

    // a list of entries that makes the unit as it is
    ghost invariant = { λ u. (whole : List Entry)
        × TablesAgree u.core.config u.core.unit
        (B.blocks u.core.tables.blocks) (B.block_length u.core.tables.blocks) (B.holds u.core.tables.blocks)
        (rods_of B.number (B.block_length u.core.tables.blocks) (B.shown u.core.tables.blocks) u.core.tables.tokens)
        u.core.tables.jobs u.core.tables.reservations u.core.last_stamp u.core.moment whole
        × RecordAgrees u.core.config u.core.unit u.history.entries u.folded u.history.spare u.payload whole
        × ArePinned B.number (B.blocks u.core.tables.blocks) (B.pinned u.core.tables.blocks) (holder None u.core.tables.tokens.tokens)
        × AreWriters B.number (B.written_by u.core.tables.blocks) u.core.tables.tokens.tokens (writer_seen (past_of u.core.config u.core.unit whole)) };
}

impl<B: SharedVersions + Drop> UnitOver<B>
where
    B::Pin: Drop,
{
    /// A unit that nothing was asked of yet.
    pub fn new(alloc: Global, config: &Config, unit: u16) -> Result<UnitOver<B>, OutOfMemory>
        requires { unit < length config.now.units }
        ensures config { IfOk result (λ u. u.config ≡ config.now) }
        ensures unit { IfOk result (λ u. u.unit ≡ unit) }
        ensures stands { IfOk result (λ u. Stands u []) }
        ensures kept { IfOk result (λ u. u.kept ≡ []) }
        ensures folded { IfOk result (λ u. u.folded ≡ 0) }
    {
        let own = config.copy(alloc)?;
        let tables = Tables::new(alloc, config, unit)?;
        Ok(UnitOver {
            core: Core {
                alloc,
                config: own,
                unit,
                tables,
                last_stamp: 0,
                moment: 0,
            },
            history: History::empty(alloc),
            folded: 0,
            payload: 0,
        })
    }

    /// Does an act, and keeps it as one more entry of each list for which the unit stands. `stamp` is the caller's last
    /// stamp, `seq` the number of acts that the actor has done, and `moment` is in seconds. After either refusal the unit
    /// is as before. An act that serves a running operation finds its entry kept free, one that ends an operation takes
    /// no memory, and a live token that may be used at the target is never refused.
    pub fn act(
        &mut self,
        actor: Actor,
        seq: u64,
        stamp: u64,
        moment: u64,
        act: Act,
    ) -> Result<Answer, ActRefused>
        requires limits { within_limits self.old.config self.old.unit act ≡ true }
        requires asked { may_ask self.old.unit actor act ≡ true }
        ensures answer { IfOk result (λ a. (h : List Entry) → Stands self.old h
            → a ≡ answer self.old.config h self.old.unit actor moment act) }
        ensures form { IfOk result (λ a. HasForm self.old.config self.old.unit act a) }
        ensures stands { OnOk result ((h : List Entry) → Stands self.old h
            → Stands self.new (h ++ entry_at self.old actor seq stamp moment act ∷ [])) }
        ensures kept { OnOk result (self.new.kept ≡ self.old.kept ++ entry_at self.old actor seq stamp moment act ∷ []) }
        ensures room { OnOk result ((h : List Entry) → Stands self.old h → is_full_at self.old h actor stamp act ≡ false) }
        ensures full { IfErr result (λ e. e ≡ ActRefused.Full
            → (h : List Entry) → Stands self.old h → is_full_at self.old h actor stamp act ≡ true) }
        ensures serves { IfErr result (λ e. e ≡ ActRefused.Full
            → (h : List Entry) → Stands self.old h → serves_operation self.old h actor act ≡ true
            → max stamp self.old.image.last_stamp ≡ 2 ^ 64 - 1) }
        ensures redeems { IfOk result (λ a. (h : List Entry) → Stands self.old h
            → (text : List ℕ) (target : ℕ) (t : Token) → act ≡ Act.Redeem text target
            → MayRedeem self.old h moment text target t → a ≡ Answer.Rod (rod (unit_of self.old.config self.old.unit) t)) }
        ensures refused { OnErr result (self.new ≡ self.old) }
        ensures ends { IfErr result (λ e. e ≡ ActRefused.OutOfMemory
            → (h : List Entry) → Stands self.old h → ends_operation_at self.old h actor act ≡ false) }
        ensures folded { self.new.folded ≡ self.old.folded }
        ensures config { self.new.config ≡ self.old.config }
        ensures unit { self.new.unit ≡ self.old.unit }
    {
        standing_law(&self.core.config, self.core.unit);
        if self.is_full(actor, stamp, &act) {
            return Err(ActRefused::Full);
        }
        let unit = self.core.unit;
        let stamp = stamp.max(self.core.last_stamp) + 1;
        let history = &mut self.history;
        let answer = self.core.perform(history, actor, stamp, moment, &act)?;
        self.payload += bytes_in(&act);
        self.history.append(Entry {
            stamp,
            unit,
            actor,
            seq,
            moment,
            act,
        });
        Ok(answer)
    }

    /// The stamp of the latest entry, and 0 where there is none. It takes no memory.
    pub fn last_stamp(&self) -> u64
        ensures shown { result ≡ self.now.image.last_stamp }
        ensures told { (h : List Entry) → Stands self.now h → result ≡ last_stamp (past self.now h) }
    {
        self.core.last_stamp
    }

    /// The greatest moment of the entries so far, in seconds, and 0 where there is none. It takes no memory.
    pub fn moment(&self) -> u64
        ensures shown { result ≡ self.now.image.moment }
        ensures told { (h : List Entry) → Stands self.now h → result ≡ moment_at self.now h }
    {
        self.core.moment
    }

    /// How many entries the record has. It takes no memory.
    pub fn kept(&self) -> u64
        ensures { result ≡ length self.now.kept }
    {
        self.history.len() as u64
    }

    /// How many blocks are mapped, at most the unit's quota. It takes no memory.
    pub fn mapped(&self) -> u64
        ensures mapped { (h : List Entry) → Stands self.now h
            → result ≡ mapped (unit_of self.now.config self.now.unit) (past self.now h) }
        ensures quota { result ≤ (unit_of self.now.config self.now.unit).quota }
    {
        standing_law(&self.core.config, self.core.unit);
        self.core.tables.blocks.mapped()
    }

    /// How many versions of blocks are kept, in blocks: those that are current or that a live token shows, each once. What
    /// a running operation is still to write is not among them. It takes no memory.
    pub fn stored(&self) -> u64
        ensures { (h : List Entry) → Stands self.now h → result ≡ length (needed (unit_of self.now.config self.now.unit) (past self.now h)) }
    {
        self.core.tables.blocks.stored()
    }

    /// The kept entries, all of them the unit's own. It takes no memory.
    pub fn history(&self) -> &History
        ensures record { result.now.entries ≡ self.now.kept }
        ensures own { on self.now.unit self.now.kept ≡ self.now.kept }
    {
        &self.history
    }

    /// The kept entries of a unit that is done with. It takes no memory.
    pub fn into_history(self) -> History
        ensures record { result.entries ≡ self.kept }
        ensures own { on self.unit self.kept ≡ self.kept }
    {
        let UnitOver {
            core: _,
            history,
            folded: _,
            payload: _,
        } = self;
        history
    }
}
