// Answers beside those of a unit that is asked in one thread, and beside those of the plain model, unit by unit.
ghost use Rattle.std.specs.Prelude.{◌≡◌, ◌<◌, length, true};
ghost use Rattle.cm_history.specs.Legal.{may_ask};

use crate::failed::Failed;
use cm_base::{Config, OutOfMemory};
use cm_history::{Act, Actor, Answer, Entry, History, within_limits};
use plain_model::PlainUnits;
use random_acts::is_same;
use std::alloc::Global;
use unit_core::Unit;

/// The answer that was given to an entry: the answers of a nexus stand in the order of its entries, the last nexus's first.
fn given<'a>(answers: &'a [Vec<Answer>], entry: &Entry) -> Option<&'a Answer> {
    let Actor::Nexus(number) = entry.actor else {
        return None;
    };
    let own = answers.iter().rev().nth(number as usize)?;
    own.get(entry.seq as usize)
}

/// Whether a nexus asked, and may ask this.
fn is_of_nexus(entry: &Entry) -> bool
    ensures { result ≡ true → may_ask entry.now.unit entry.now.actor entry.now.act ≡ true }
{
    match (&entry.actor, &entry.act) {
        (Actor::Nexus(_), Act::Pump) => false,
        (Actor::Nexus(_), _) => true,
        (Actor::Pump(_), _) => false,
    }
}

/// Whether an entry was answered as by the plain model, which has done the unit's entries before it, and does it now.
fn is_as_plain(
    alloc: Global,
    plain: &mut PlainUnits,
    entry: &Entry,
    answers: &[Vec<Answer>],
) -> Result<bool, OutOfMemory>
    requires { entry.now.unit < length plain.old.config.units }
    ensures { plain.new.config ≡ plain.old.config }
{
    if !within_limits(plain.config(), entry.unit, &entry.act) {
        return Ok(false);
    }
    let wanted = plain.answer(alloc, entry.unit, entry.actor, entry.moment, &entry.act)?;
    let copy = entry.copy(alloc)?;
    plain.add(alloc, copy.unit, copy.actor, copy.moment, copy.act)?;
    Ok(matches!(given(answers, entry), Some(answer) if is_same(answer, &wanted)))
}

/// Whether an entry was answered as by a unit that is asked in one thread, and has the stamp that it gives. It has done the
/// unit's entries before this one, and does it now.
fn is_as_alone(
    alloc: Global,
    config: &Config,
    unit: &mut Unit,
    entry: &Entry,
    answers: &[Vec<Answer>],
) -> Result<bool, OutOfMemory>
    requires config { unit.old.config ≡ config.now }
    requires unit { unit.old.unit ≡ entry.now.unit }
    requires configured { entry.now.unit < length config.now.units }
    ensures config { unit.new.config ≡ unit.old.config }
    ensures unit { unit.new.unit ≡ unit.old.unit }
{
    if !within_limits(config, entry.unit, &entry.act) || !is_of_nexus(entry) {
        return Ok(false);
    }
    let copy = entry.copy(alloc)?;
    let stamp = copy.stamp.saturating_sub(1);
    let Ok(wanted) = unit.act(copy.actor, copy.seq, stamp, copy.moment, copy.act) else {
        return Ok(false);
    };
    Ok(
        unit.last_stamp() == entry.stamp
            && matches!(given(answers, entry), Some(answer) if is_same(answer, &wanted)),
    )
}

/// The first of so many entries of a unit that was answered otherwise than by the plain model, by its place in the merged
/// history, from 0.
fn differs_from_plain(
    alloc: Global,
    config: &Config,
    unit: u16,
    merged: &History,
    answers: &[Vec<Answer>],
    few: u32,
) -> Result<Option<usize>, OutOfMemory>
    requires { unit < length config.now.units }
{
    let mut plain = PlainUnits::new(alloc, config.copy(alloc)?)?;
    let mut left = few;
    for place in 0..merged.len() {
        let entry = merged.at(place);
        if entry.unit == unit && left > 0 {
            left -= 1;
            if !is_as_plain(alloc, &mut plain, entry, answers)? {
                return Ok(Some(place));
            }
        }
    }
    Ok(None)
}

/// The first entry of a unit that was answered otherwise than by a unit that is asked in one thread.
fn differs_from_alone(
    alloc: Global,
    config: &Config,
    number: u16,
    merged: &History,
    answers: &[Vec<Answer>],
) -> Result<Option<usize>, OutOfMemory>
    requires { number < length config.now.units }
{
    let mut unit = Unit::new(alloc, config, number)?;
    for place in 0..merged.len() {
        let entry = merged.at(place);
        if entry.unit == number && !is_as_alone(alloc, config, &mut unit, entry, answers)? {
            return Ok(Some(place));
        }
    }
    Ok(None)
}

/// Compares each answer with that of a unit that is asked in one thread, and those to the first `few` entries of each unit
/// with the plain model's too.
pub fn compare(
    alloc: Global,
    config: &Config,
    merged: &History,
    answers: &[Vec<Answer>],
    few: u32,
) -> Result<(), Failed> {
    for unit in 0..config.units() {
        if let Some(place) = differs_from_alone(alloc, config, unit, merged, answers)? {
            return Err(Failed::DiffersAlone(place));
        }
        if let Some(place) = differs_from_plain(alloc, config, unit, merged, answers, few)? {
            return Err(Failed::Differs(place));
        }
    }
    Ok(())
}
