// Random histories of two units, whose answers are compared with those of the plain model, and whose stored versions are
// compared with a plain count.
ghost use Rattle.std.specs.Prelude.{◌≡◌, ◌<◌, ◌≤◌, ◌^◌, ◌++◌, ◌∷◌, [], length, IfOk, OnOk, true};
ghost use Rattle.cm_history.specs.Legal.{may_ask};
ghost use Rattle.cm_history.specs.Limits.{within_limits};
ghost use Rattle.plain_model.specs.Holds.{AreWithin};
ghost use Rattle.unit_tests.specs.inner.Players.{IsPlayer};

use super::needed::Needed;
use cm_base::{CallList, Config, OutOfMemory, UnitConfig, UnitList};
use cm_history::{Act, ActRefused, Actor, Answer, Entry, History, within_limits};
use plain_model::plain_answer;
use random_acts::{Numbers, Style, is_same, random_act};
use recorder::MemoryRecorder;
use std::alloc::Global;
use std::marker::Model;
use std::test::Fail;
use unit_core::Unit;

/// Acts of a history.
const ACTS: u32 = 40;

/// Two units of so many blocks of 512 bytes, of which a quota may be mapped, with room for so many entries and bytes.
fn machine(
    alloc: Global,
    blocks: u64,
    quota: u64,
    entries: u32,
    payload: u32,
) -> Result<Config, Fail>
    requires blocks { 1 ≤ blocks }
    requires few { blocks ≤ 2 ^ 32 }
    requires quota { quota ≤ blocks }
    requires entries { (1 ≤ entries) × (entries ≤ 4096) }
    requires payload { (1 ≤ payload) × (payload ≤ 1_048_576) }
    ensures { IfOk result (λ config. length config.units ≡ 2) }
{
    let unit = UnitConfig {
        blocks,
        block_length: 512,
        entries,
        quota,
        payload,
        group: 0,
    };
    let mut units = UnitList::empty(alloc);
    units.push(unit)?;
    units.push(unit)?;
    Ok(Config::new([7; 32], units))
}

/// Whether the act was answered so.
fn is_answered_so(told: Result<Answer, ActRefused>, plain: Answer) -> bool {
    match told {
        Ok(answer) => is_same(&answer, &plain),
        Err(ActRefused::Full | ActRefused::OutOfMemory) => false,
    }
}

/// Makes room for an act in the record, whose entries are recorded elsewhere where it is full. Whether there is room then.
fn makes_room(unit: &mut Unit, recorder: &mut MemoryRecorder, next: &Entry) -> bool
    requires limits { within_limits unit.old.config unit.old.unit next.now.act ≡ true }
    requires asked { may_ask unit.old.unit next.now.actor next.now.act ≡ true }
    ensures config { unit.new.config ≡ unit.old.config }
    ensures unit { unit.new.unit ≡ unit.old.unit }
{
    if !unit.is_full(next.actor, 0, &next.act) {
        return true;
    }
    unit.fold(recorder);
    !unit.is_full(next.actor, 0, &next.act)
}

/// Adds an entry to those that were asked for.
fn add(alloc: Global, asked: &mut History, next: &Entry) -> Result<(), Fail>
    ensures { OnOk result (asked.new.entries ≡ asked.old.entries ++ next.now ∷ []) }
{
    asked.reserve(1)?;
    let entry = next.copy(alloc)?;
    asked.append(entry);
    Ok(())
}

/// The plain model's answer to an act, by all that was asked before.
fn plain_of(
    alloc: Global,
    config: &Config,
    asked: &History,
    next: &Entry,
) -> Result<Answer, OutOfMemory>
    requires configured { next.now.unit < length config.now.units }
    requires within { AreWithin config.now next.now.unit asked.now.entries }
    requires limits { within_limits config.now next.now.unit next.now.act ≡ true }
{
    plain_answer(
        alloc,
        config,
        asked,
        next.unit,
        next.actor,
        next.moment,
        &next.act,
    )
}

/// A unit stores so many versions as are needed.
fn stores_the_needed(alloc: Global, unit: &Unit, needed: &Needed) -> Result<bool, OutOfMemory> {
    Ok(unit.stored() == needed.count(alloc)?)
}

/// A unit that plays a history: with what it was asked for so far, and the versions that are needed.
#[derive(Drop)]
struct Player {
    unit: Unit,
    asked: History,
    needed: Needed,
}

impl Model for Player {
    ghost use Rattle.unit_tests.specs.inner.Players.{Played};

    ghost Value = { Played };

    ghost view = { λ p. record { config = p.unit.config; unit = p.unit.unit; entries = p.asked.entries } };
}

impl Player {
    fn new(alloc: Global, config: &Config, number: u16) -> Result<Player, Fail>
        requires { number < length config.now.units }
        ensures { IfOk result (λ p. IsPlayer config.now number p) }
    {
        let needed = Needed::new(alloc, config.unit(number).blocks)?;
        let unit = Unit::new(alloc, config, number)?;
        Ok(Player {
            unit,
            asked: History::empty(alloc),
            needed,
        })
    }

    /// Notes an act that is asked for, and answers it as the plain model does, which goes through all that was asked
    /// before.
    fn note(&mut self, alloc: Global, config: &Config, next: &Entry) -> Result<Answer, Fail>
        requires player { IsPlayer config.now next.now.unit self.old }
        requires configured { next.now.unit < length config.now.units }
        requires limits { within_limits config.now next.now.unit next.now.act ≡ true }
        ensures { OnOk result (IsPlayer config.now next.now.unit self.new) }
    {
        let plain = plain_of(alloc, config, &self.asked, next)?;
        add(alloc, &mut self.asked, next)?;
        self.needed.note(alloc, next, &plain)?;
        Ok(plain)
    }

    /// The act is within its limits, and the operations that run leave room for it.
    fn has_room(&mut self, config: &Config, recorder: &mut MemoryRecorder, next: &Entry) -> bool
        requires player { IsPlayer config.now next.now.unit self.old }
        requires configured { next.now.unit < length config.now.units }
        requires may { may_ask next.now.unit next.now.actor next.now.act ≡ true }
        ensures limits { result ≡ true → within_limits config.now next.now.unit next.now.act ≡ true }
        ensures player { IsPlayer config.now next.now.unit self.new }
    {
        within_limits(config, next.unit, &next.act) && makes_room(&mut self.unit, recorder, next)
    }

    /// Does an act. Whether it is answered as by the plain model, and the unit then stores so many versions as are
    /// needed.
    fn act(&mut self, alloc: Global, config: &Config, next: Entry) -> Result<bool, Fail>
        requires player { IsPlayer config.now next.unit self.old }
        requires configured { next.unit < length config.now.units }
        requires may { may_ask next.unit next.actor next.act ≡ true }
        requires limits { within_limits config.now next.unit next.act ≡ true }
        ensures { OnOk result (IsPlayer config.now next.unit self.new) }
    {
        let plain = self.note(alloc, config, &next)?;
        let told = self
            .unit
            .act(next.actor, next.seq, 0, next.moment, next.act);
        let is_same = is_answered_so(told, plain);
        let is_stored = stores_the_needed(alloc, &self.unit, &self.needed)?;
        Ok(is_same && is_stored)
    }

    /// Asks for an act. Whether it is answered as by the plain model, and the unit then stores so many versions as are
    /// needed. An act beyond its limits is not asked, nor one for which the operations that run leave no room.
    fn ask(
        &mut self,
        alloc: Global,
        config: &Config,
        recorder: &mut MemoryRecorder,
        next: Entry,
    ) -> Result<bool, Fail>
        requires player { IsPlayer config.now next.unit self.old }
        requires configured { next.unit < length config.now.units }
        requires may { may_ask next.unit next.actor next.act ≡ true }
        ensures { OnOk result (IsPlayer config.now next.unit self.new) }
    {
        if self.has_room(config, recorder, &next) {
            return self.act(alloc, config, next);
        }
        Ok(true)
    }
}

/// An entry, of which neither stamp nor place matters to what is answered.
fn entry(unit: u16, actor: Actor, moment: u64, act: Act) -> Entry
    ensures { result ≡ record { stamp = 0; unit = unit; actor = actor; seq = 0; moment = moment; act = act } }
{
    Entry {
        stamp: 0,
        unit,
        actor,
        seq: 0,
        moment,
        act,
    }
}

/// What is asked next: a pump's act, or one of two initiators.
fn next_entry(
    alloc: Global,
    config: &Config,
    number: u16,
    style: Style,
    numbers: &mut Numbers,
) -> Result<Entry, Fail>
    requires { number < length config.now.units }
    ensures unit { IfOk result (λ e. e.unit ≡ number) }
    ensures may { IfOk result (λ e. may_ask number e.actor e.act ≡ true) }
{
    let moment = u64::from(numbers.below(60));
    if numbers.below(10) == 0 {
        return Ok(entry(number, Actor::Pump(number), moment, Act::Pump));
    }
    let actor = Actor::Nexus(numbers.below(2));
    let act = random_act(alloc, config, number, style, numbers)?;
    Ok(entry(number, actor, moment, act))
}

impl Player {
    /// Plays a random history, whose entries go to a recorder where the record is full. Whether each answer was that of
    /// the plain model, and as many versions were stored as were needed.
    fn play(
        &mut self,
        alloc: Global,
        config: &Config,
        number: u16,
        style: Style,
        numbers: &mut Numbers,
        recorder: &mut MemoryRecorder,
    ) -> Result<bool, Fail>
        requires player { IsPlayer config.now number self.old }
        requires configured { number < length config.now.units }
    {
        for _ in 0..ACTS {
            let next = next_entry(alloc, config, number, style, numbers)?;
            if !self.ask(alloc, config, recorder, next)? {
                return Ok(false);
            }
        }
        Ok(true)
    }

    /// Plays a random history. Whether it is as by the plain model, and no entry is lost.
    fn play_and_look(
        &mut self,
        alloc: Global,
        config: &Config,
        number: u16,
        style: Style,
        numbers: &mut Numbers,
        recorder: &mut MemoryRecorder,
    ) -> Result<bool, Fail>
        requires player { IsPlayer config.now number self.old }
        requires configured { number < length config.now.units }
    {
        let is_plain = self.play(alloc, config, number, style, numbers, recorder)?;
        Ok(is_plain && self.lost_none(recorder))
    }

    /// Each entry that was asked for is in the record or with the recorder.
    fn lost_none(&self, recorder: &MemoryRecorder) -> bool {
        let folded = self.unit.folded();
        let all = folded.saturating_add(self.unit.kept());
        folded == recorder.entries().len() as u64 && all == self.asked.len() as u64
    }
}

/// Plays a random history on a new unit. Whether it is as by the plain model, and no entry is lost.
fn history_is_as_plain(
    alloc: Global,
    config: &Config,
    number: u16,
    style: Style,
    numbers: &mut Numbers,
    recorder: &mut MemoryRecorder,
) -> Result<bool, Fail>
    requires { number < length config.now.units }
{
    let mut player = Player::new(alloc, config, number)?;
    player.play_and_look(alloc, config, number, style, numbers, recorder)
}

/// Plays a random history on a new unit, whose record has room for it. Whether it is as by the plain model.
fn ample_history(
    alloc: Global,
    config: &Config,
    number: u16,
    style: Style,
    numbers: &mut Numbers,
) -> Result<bool, Fail>
    requires { number < length config.now.units }
{
    let mut recorder = MemoryRecorder::new(alloc, CallList::empty(alloc));
    let same = history_is_as_plain(alloc, config, number, style, numbers, &mut recorder)?;
    Ok(same && recorder.entries().is_empty())
}

#[test]
fn random_histories(rt: HostRuntime) -> Result<(), Fail> {
    let alloc = rt.alloc();
    let config = machine(alloc, 40, 25, 4096, 1_048_576)?;
    for seed in 0..4 {
        let mut numbers = Numbers::new(seed);
        for number in 0..2 {
            let same = ample_history(alloc, &config, number, Style::Mixed, &mut numbers)?;
            assert!(rt; same, "unit {number} of seed {seed}");
        }
    }
    Ok(())
}

/// Operations of several pieces, some of which the quota stops.
#[test]
fn histories_of_long_operations(rt: HostRuntime) -> Result<(), Fail> {
    let alloc = rt.alloc();
    let config = machine(alloc, 1100, 3, 4096, 1_048_576)?;
    for seed in 0..4 {
        let mut numbers = Numbers::new(seed);
        let same = ample_history(alloc, &config, 0, Style::Long, &mut numbers)?;
        assert!(rt; same, "seed {seed}");
    }
    Ok(())
}

/// Plays histories on a unit of a small record. Whether each answer was that of the plain model, which goes through all
/// entries, and the record was full in one of them.
fn folded_histories(alloc: Global, config: &Config, style: Style) -> Result<bool, Fail>
    requires { 1 ≤ length config.now.units }
{
    let mut was_full = false;
    for seed in 0..6 {
        let mut numbers = Numbers::new(seed);
        let mut recorder = MemoryRecorder::new(alloc, CallList::empty(alloc));
        if !history_is_as_plain(alloc, config, 0, style, &mut numbers, &mut recorder)? {
            return Ok(false);
        }
        was_full = was_full || !recorder.entries().is_empty();
    }
    Ok(was_full)
}

/// Blocks that are overwritten while tokens show them.
#[test]
fn histories_of_shown_blocks(rt: HostRuntime) -> Result<(), Fail> {
    let alloc = rt.alloc();
    let config = machine(alloc, 40, 25, 16, 1_048_576)?;
    assert!(rt; folded_histories(alloc, &config, Style::Shown)?);
    Ok(())
}

/// Two initiators that register, reserve the unit and preempt each other, beside acts of all kinds.
#[test]
fn histories_of_reservations(rt: HostRuntime) -> Result<(), Fail> {
    let alloc = rt.alloc();
    let config = machine(alloc, 40, 25, 16, 1_048_576)?;
    assert!(rt; folded_histories(alloc, &config, Style::Reserved)?);
    Ok(())
}

/// A record that is full by its entries.
#[test]
fn histories_whose_entries_are_folded(rt: HostRuntime) -> Result<(), Fail> {
    let alloc = rt.alloc();
    let config = machine(alloc, 40, 25, 16, 1_048_576)?;
    assert!(rt; folded_histories(alloc, &config, Style::Mixed)?);
    Ok(())
}

/// A record that is full by the bytes of its Writes.
#[test]
fn histories_whose_payload_is_folded(rt: HostRuntime) -> Result<(), Fail> {
    let alloc = rt.alloc();
    let config = machine(alloc, 40, 25, 4096, 2048)?;
    assert!(rt; folded_histories(alloc, &config, Style::Mixed)?);
    Ok(())
}

/// Operations of several pieces, whose first entries are folded.
#[test]
fn histories_of_long_operations_that_are_folded(rt: HostRuntime) -> Result<(), Fail> {
    let alloc = rt.alloc();
    let config = machine(alloc, 1100, 3, 24, 1_048_576)?;
    assert!(rt; folded_histories(alloc, &config, Style::Long)?);
    Ok(())
}
