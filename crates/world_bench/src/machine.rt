ghost use Rattle.std.specs.Prelude.{◌≡◌, ◌≤◌, length, IfOk};
ghost use Rattle.cm_base.specs.Configuration.{IsUnit};

use cm_base::{Config, OutOfMemory, UnitConfig, UnitList};
use std::alloc::Global;

/// Blocks of 512 bytes of each unit.
pub const BLOCKS: u64 = 40;

/// A unit of 40 blocks of 512 bytes, with the longest record there is.
fn unit() -> UnitConfig
    ensures { IsUnit result }
{
    UnitConfig {
        blocks: BLOCKS,
        block_length: 512,
        entries: 1_048_576,
        quota: BLOCKS,
        payload: 268_435_456,
        group: 0,
    }
}

/// So many of these units.
pub fn units_of(alloc: Global, count: u16) -> Result<Config, OutOfMemory>
    requires { (1 ≤ count) × (count ≤ 16) }
    ensures { IfOk result (λ config. length config.units ≡ count) }
{
    let mut units = UnitList::empty(alloc);
    for _ in 0..count {
        units.push(unit())?;
    }
    Ok(Config::new([7; 32], units))
}
