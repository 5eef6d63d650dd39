// What the tests of one unit begin with.
ghost use Rattle.std.specs.Prelude.{◌≡◌, ◌≤◌, IfOk, length};

use cm_base::{Config, UnitConfig, UnitList};
use std::alloc::Global;
use std::test::Fail;

/// A machine of one unit of 4096 blocks of 512 bytes.
pub(super) fn machine(alloc: Global, entries: u32, payload: u32) -> Result<Config, Fail>
    requires entries { (1 ≤ entries) × (entries ≤ 1024) }
    requires payload { (1 ≤ payload) × (payload ≤ 4_194_304) }
    ensures { IfOk result (λ config. length config.units ≡ 1) }
{
    let mut units = UnitList::empty(alloc);
    units.push(UnitConfig {
        blocks: 4096,
        block_length: 512,
        entries,
        quota: 4096,
        payload,
        group: 0,
    })?;
    Ok(Config::new([0; 32], units))
}
