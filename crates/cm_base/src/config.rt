ghost use Rattle.std.specs.Prelude.{◌≡◌, ◌<◌, ◌≤◌, length, slice_get, Some, IsTrue, IfOk};
ghost use Rattle.cm_base.specs.Configuration.{IsUnit, AreUnits, Configuration};
ghost use Rattle.cm_base.specs.Units.{unit_of, is_configured};

use crate::out_of_memory::OutOfMemory;
use crate::sequence::Sequence;
use std::alloc::Global;
use std::marker::Model;

/// What a header says of one unit.
#[derive(Drop, Clone, Copy)]
pub struct UnitConfig {
    /// Blocks, 1 to 4,294,967,296.
    pub blocks: u64,
    /// Bytes of a block, 512 or 4096.
    pub block_length: u32,
    /// Entries of the unit's record, 1 to 1,048,576.
    pub entries: u32,
    /// Blocks that may be mapped, 0 to `blocks`.
    pub quota: u64,
    /// Bytes of the Writes in the unit's record, 1 to 268,435,456.
    pub payload: u32,
    /// Tokens may be used between units of one group, 0 to 15.
    pub group: u8,
}

pub type UnitList = Sequence<UnitConfig>;

/// Numbers of calls.
pub type CallList = Sequence<u64>;

/// What a machine of units is told: 1 to 16 units, each within the limits of its fields.
#[derive(Drop)]
pub struct Config {
    secret: [u8; 32],
    units: UnitList,
}

impl Model for Config {
    ghost use Rattle.cm_base.specs.Configuration.{Configuration, AreUnits};

    ghost Value = { Configuration };

    ghost view = { λ c. record { secret = c.secret; units = c.units } };

    ghost invariant = { λ c. AreUnits c.units };
}

impl Config {
    /// A machine of these units. It takes no memory.
    pub fn new(secret: [u8; 32], units: UnitList) -> Config
        requires { AreUnits units }
        ensures { result ≡ record { secret = secret; units = units } }
    {
        Config { secret, units }
    }

    /// An equal configuration.
    pub fn copy(&self, alloc: Global) -> Result<Config, OutOfMemory>
        ensures { IfOk result (λ copy. copy ≡ self.now) }
    {
        let units = Sequence::copy(alloc, self.units.as_slice())?;
        Ok(Config {
            secret: self.secret,
            units,
        })
    }

    /// The key of the tokens' nonces.
    pub fn secret(&self) -> &[u8; 32]
        ensures { result.now ≡ self.now.secret }
    {
        &self.secret
    }

    /// How many units there are, 1 to 16.
    pub fn units(&self) -> u16
        ensures count { result ≡ length self.now.units }
        ensures limits { AreUnits self.now.units }
    {
        self.units.len() as u16
    }

    /// There is a unit of this number.
    pub fn is_configured(&self, unit: u16) -> bool
        ensures { result ≡ is_configured self.now unit }
    {
        usize::from(unit) < self.units.len()
    }

    /// What is told of a unit that is configured.
    pub fn unit(&self, unit: u16) -> UnitConfig
        requires { unit < length self.now.units }
        ensures told { result ≡ unit_of self.now unit }
        ensures limits { IsUnit result }
    {
        *self.units.at(usize::from(unit))
    }
}
