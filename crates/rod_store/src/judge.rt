// What a redeem is answered.
ghost use Rattle.std.specs.Prelude.{◌≡◌, ◌<◌, ◌^◌, length, IfOk, IfErr, Ok, Err, Some, true};
ghost use Rattle.cm_base.specs.Units.{unit_of};
ghost use Rattle.cm_history.specs.Redeeming.{are_alike};
ghost use Rattle.rod_token.specs.TokenText.{is_named, serial_of};
ghost use Rattle.rod_store.specs.Judging.{judged_state, judged_token};

use crate::kept::{Kept, TokenState};
use cm_base::Config;
use rod_token::TokenKind;
use scsi_sense::Sense;

/// The serial that a text names which has the form of the unit's tokens.
pub(crate) fn serial_of(unit: u16, text: &[u8; 512]) -> u64
    requires { is_named unit text.now ≡ true }
    ensures { result ≡ serial_of text.now }
{
    let _ = unit;
    match rod_token::classify(text) {
        TokenKind::Names { serial, .. } => serial,
        _ => unreachable!(),
    }
}

/// Tokens of the one unit may be used at the other.
fn are_alike(config: &Config, unit: u16, target: u16) -> bool
    requires unit { unit < length config.now.units }
    requires target { target < length config.now.units }
    ensures { result ≡ are_alike (unit_of config.now unit) (unit_of config.now target) }
{
    let unit = config.unit(unit);
    let target = config.unit(target);
    unit.group == target.group && unit.block_length == target.block_length
}

/// What stands for the token at the moment.
fn judge_state<K>(state: &TokenState<K>, moment: u64) -> Result<&K, Sense>
    ensures ok { IfOk result (λ value. judged_state moment state.now ≡ Ok value.now) }
    ensures err { IfErr result (λ sense. judged_state moment state.now ≡ Err sense) }
{
    if state.is_over(moment) {
        return Err(Sense::token_expired());
    }
    match state {
        TokenState::Live { value, .. } => Ok(value),
        TokenState::Expired => Err(Sense::token_expired()),
        TokenState::Evicted => Err(Sense::token_cancelled()),
        TokenState::Deleted => Err(Sense::token_deleted()),
    }
}

/// The value of the unit's token at the target, or the first refusal that holds.
pub(crate) fn judge<'a, K>(
    config: &Config,
    unit: u16,
    moment: u64,
    text: &[u8; 512],
    target: u16,
    token: &'a Kept<K>,
) -> Result<&'a K, Sense>
    requires unit { unit < length config.now.units }
    requires target { target < length config.now.units }
    requires serial { token.now.serial < 2 ^ 48 }
    ensures ok { IfOk result (λ value. judged_token config.now unit moment text.now target (Some token.now) ≡ Ok value.now) }
    ensures err { IfErr result (λ sense. judged_token config.now unit moment text.now target (Some token.now) ≡ Err sense) }
{
    if !are_alike(config, unit, target) {
        return Err(Sense::remote_token_usage_not_supported());
    }
    if *text != rod_token::text(config, unit, token.serial, token.blocks) {
        return Err(Sense::token_corrupt());
    }
    judge_state(&token.state, moment)
}
