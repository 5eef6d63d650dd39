ghost use Rattle.std.specs.Prelude.{◌≡◌, ◌≤◌, ◌⊎◌, ℕ, Some, None, Option, IfOk, IfErr};
ghost use Rattle.cm_base.specs.Configuration.{IsUnit};
ghost use Rattle.cm_base.specs.declared.config.UnitConfig.{UnitConfig};
ghost use Rattle.config_text.specs.Meaning.{number, number_or, SaysUnit};
ghost use Rattle.toml.specs.View.{view, table_view};

use crate::fault::UnitFault;
use crate::key::UnitKey;
use crate::table::{has_only_unit_keys, member};
use cm_base::UnitConfig;
use toml::{Table, Value};

const BLOCKS_LIMIT: u64 = 4_294_967_296;

const ENTRIES_LIMIT: u64 = 1_048_576;

const PAYLOAD_LIMIT: u64 = 268_435_456;

const GROUP_LIMIT: u64 = 15;

/// The number that a value is.
fn number_in(value: &Value, key: UnitKey) -> Result<u64, UnitFault>
    ensures told { IfOk result (λ n. number_or None (Some (view value.now)) ≡ Some n) }
    ensures refused { IfErr result (λ _. number_or None (Some (view value.now)) ≡ None) }
{
    match value.as_integer() {
        Some(number) if number >= 0 => Ok(number as u64),
        Some(_) => Err(UnitFault::OutOfRange(key)),
        None => Err(UnitFault::NotNumber(key)),
    }
}

/// The number at a key, or else its default.
fn number(unit: &Table, key: UnitKey, default: Option<u64>) -> Result<u64, UnitFault>
    ensures told { IfOk result (λ n. number key default (table_view unit.now) ≡ Some n) }
    ensures refused { IfErr result (λ _. number key default (table_view unit.now) ≡ None) }
{
    match member(unit, key.name()) {
        Some(value) => number_in(value, key),
        None => match default {
            Some(number) => Ok(number),
            None => Err(UnitFault::NoBlocks),
        },
    }
}

/// The number at a key, or else its default, within a range.
fn number_within(
    unit: &Table,
    key: UnitKey,
    default: Option<u64>,
    least: u64,
    most: u64,
) -> Result<u64, UnitFault>
    ensures told { IfOk result (λ n. number key default (table_view unit.now) ≡ Some n) }
    ensures within { IfOk result (λ n. (least ≤ n) × (n ≤ most)) }
    ensures refused { IfErr result (λ _. (n : ℕ) → number key default (table_view unit.now) ≡ Some n → ¬ ((least ≤ n) × (n ≤ most))) }
{
    let number = number(unit, key, default)?;
    if number < least || number > most {
        return Err(UnitFault::OutOfRange(key));
    }
    Ok(number)
}

/// The bytes of a unit's blocks.
fn block_length(unit: &Table) -> Result<u32, UnitFault>
    ensures told { IfOk result (λ n. number UnitKey.BlockLength (Some 512) (table_view unit.now) ≡ Some n) }
    ensures limits { IfOk result (λ n. (n ≡ 512) ⊎ (n ≡ 4096)) }
    ensures refused { IfErr result (λ _. (n : ℕ) → number UnitKey.BlockLength (Some 512) (table_view unit.now) ≡ Some n → ¬ ((n ≡ 512) ⊎ (n ≡ 4096))) }
{
    match number(unit, UnitKey::BlockLength, Some(512))? {
        512 => Ok(512),
        4096 => Ok(4096),
        _ => Err(UnitFault::OutOfRange(UnitKey::BlockLength)),
    }
}

/// The unit that a table says.
pub(crate) fn unit_in(unit: &Table) -> Result<UnitConfig, UnitFault>
    ensures told { IfOk result (SaysUnit (table_view unit.now)) }
    ensures limits { IfOk result IsUnit }
    ensures refused { IfErr result (λ _. (u : UnitConfig) → SaysUnit (table_view unit.now) u → ¬ IsUnit u) }
{
    if !has_only_unit_keys(unit) {
        return Err(UnitFault::UnknownKey);
    }
    let block_length = block_length(unit)?;
    let entries = number_within(
        unit,
        UnitKey::Entries,
        Some(ENTRIES_LIMIT),
        1,
        ENTRIES_LIMIT,
    )?;
    let payload = number_within(
        unit,
        UnitKey::Payload,
        Some(PAYLOAD_LIMIT),
        1,
        PAYLOAD_LIMIT,
    )?;
    let group = number_within(unit, UnitKey::Group, Some(0), 0, GROUP_LIMIT)?;
    let blocks = number_within(unit, UnitKey::Blocks, None, 1, BLOCKS_LIMIT)?;
    let quota = number_within(unit, UnitKey::Quota, Some(blocks), 0, blocks)?;
    Ok(UnitConfig {
        blocks,
        block_length,
        entries: entries as u32,
        quota,
        payload: payload as u32,
        group: group as u8,
    })
}
