// What acts make of the reservations of a unit, and what a PrOut is answered.
ghost use Rattle.std.specs.Prelude.{◌≡◌, IfOk};
ghost use Rattle.cm_history.specs.Reserving.{reserved_by};
ghost use Rattle.plain_model.specs.inner.Reservations.{answer_of_out};

use cm_base::OutOfMemory;
use cm_history::{Act, Actor, Answer, Entry, reserve};
use pr_keys::PrState;

/// The reservations after one more entry.
pub(crate) fn reservations_after(
    reservations: &PrState,
    entry: &Entry,
) -> Result<PrState, OutOfMemory>
    ensures { IfOk result (λ r. r ≡ reserved_by reservations.now entry.now.actor entry.now.act) }
{
    match entry.act {
        Act::PrOut {
            action,
            scope,
            kind,
            key,
            action_key,
        } => {
            let actor = entry.actor;
            let done = reserve(reservations, actor, action, scope, kind, key, action_key)?;
            Ok(done.reservations)
        }
        _ => reservations.copy(),
    }
}

/// What a PrOut is answered; another act is done.
pub(crate) fn answer_out(
    reservations: &PrState,
    actor: Actor,
    act: &Act,
) -> Result<Answer, OutOfMemory>
    ensures { IfOk result (λ a. a ≡ answer_of_out reservations.now actor act.now) }
{
    match act {
        Act::PrOut {
            action,
            scope,
            kind,
            key,
            action_key,
        } => {
            let done = reserve(
                reservations,
                actor,
                *action,
                *scope,
                *kind,
                *key,
                *action_key,
            )?;
            Ok(done.answer)
        }
        _ => Ok(Answer::Done),
    }
}
