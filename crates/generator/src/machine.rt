ghost use Rattle.std.specs.Prelude.{◌≡◌, IfOk};
ghost use Rattle.generator.specs.Settings as setting;

use cm_base::{Config, OutOfMemory, UnitConfig, UnitList};
use std::alloc::Global;

/// The key of the tokens' nonces.
const SECRET: [u8; 32] = [
    0x00, 0x01, 0x02, 0x03, 0x04, 0x05, 0x06, 0x07, 0x08, 0x09, 0x0a, 0x0b, 0x0c, 0x0d, 0x0e, 0x0f,
    0x10, 0x11, 0x12, 0x13, 0x14, 0x15, 0x16, 0x17, 0x18, 0x19, 0x1a, 0x1b, 0x1c, 0x1d, 0x1e, 0x1f,
];

/// A unit of 512 MiB with the largest record.
const UNIT: UnitConfig = UnitConfig {
    blocks: 1_048_576,
    block_length: 512,
    entries: 1_048_576,
    quota: 1_048_576,
    payload: 268_435_456,
    group: 0,
};

/// The two units that a generated trace plays on.
pub(crate) fn settings(alloc: Global) -> Result<Config, OutOfMemory>
    ensures { IfOk result (λ config. config ≡ setting.settings) }
{
    let mut units = UnitList::empty(alloc);
    units.push(UNIT)?;
    units.push(UNIT)?;
    Ok(Config::new(SECRET, units))
}
