ghost use Rattle.std.specs.Prelude.{◌≡◌, ◌<◌, length, true, IfOk};
ghost use Rattle.cm_base.specs.Units.{unit_of};
ghost use Rattle.cm_history.specs.Answers.{answer_after};
ghost use Rattle.cm_history.specs.History.{answer};
ghost use Rattle.cm_history.specs.Limits.{within_limits};
ghost use Rattle.plain_model.specs.Holds.{AreWithin};
ghost use Rattle.plain_model.specs.inner.Holds.{IsSizedPast};
ghost use Rattle.plain_model.specs.inner.Pasts.{IsPlayed};

use crate::acts;
use crate::unit::PlainUnit;
use cm_base::{Config, OutOfMemory};
use cm_history::{Act, Actor, Answer, History};
use std::alloc::Global;

impl PlainUnit {
    /// What an act is answered.
    pub(crate) fn answer(
        &self,
        alloc: Global,
        config: &Config,
        number: u16,
        actor: Actor,
        moment: u64,
        act: &Act,
    ) -> Result<Answer, OutOfMemory>
        requires configured { number < length config.now.units }
        requires limits { within_limits config.now number act.now ≡ true }
        requires sized { IsSizedPast (unit_of config.now number).block_length self.now }
        ensures { IfOk result (λ a. a ≡ answer_after config.now number self.now actor moment act.now) }
    {
        let outcome = self.outcome(alloc, config, number, actor, moment, act)?;
        Ok(outcome.answer)
    }
}

/// The unit after its entries of a history.
fn played(
    alloc: Global,
    config: &Config,
    history: &History,
    number: u16,
) -> Result<PlainUnit, OutOfMemory>
    requires configured { number < length config.now.units }
    requires within { AreWithin config.now number history.now.entries }
    ensures { IfOk result (IsPlayed config.now number history.now.entries) }
{
    let _ = config.unit(number);
    let mut unit = PlainUnit::new(alloc);
    for index in 0..history.len() {
        let entry = history.at(index);
        if entry.unit == number {
            acts::blocks_brought(&entry.act);
            unit.add(alloc, config, number, entry)?;
        }
    }
    Ok(unit)
}

/// What a unit answers to an act after a history: the slow plain way, by going through the whole history. The unit's
/// entries and the act are within their limits.
pub fn plain_answer(
    alloc: Global,
    config: &Config,
    history: &History,
    unit: u16,
    actor: Actor,
    moment: u64,
    act: &Act,
) -> Result<Answer, OutOfMemory>
    requires configured { unit < length config.now.units }
    requires history { AreWithin config.now unit history.now.entries }
    requires act { within_limits config.now unit act.now ≡ true }
    ensures { IfOk result (λ a. a ≡ answer config.now history.now.entries unit actor moment act.now) }
{
    let played = played(alloc, config, history, unit)?;
    played.answer(alloc, config, unit, actor, moment, act)
}
