use crate::key::UnitKey;
use cm_base::OutOfMemory;
use thiserror::Error;

/// What is wrong with the table of a unit.
#[derive(Debug, Clone, Copy, PartialEq, Eq, Error)]
pub enum UnitFault {
    #[error("a unit is a table, which begins with [[unit]]")]
    NotTable,
    #[error("a unit has no such key; it has blocks, block_length, entries, quota, payload and group")]
    UnknownKey,
    #[error("a unit says its blocks")]
    NoBlocks,
    #[error("{0}, a number without quotation marks")]
    NotNumber(UnitKey),
    #[error("{0}")]
    OutOfRange(UnitKey),
}

/// What is wrong with a text.
#[derive(Debug, Clone, Copy, PartialEq, Eq, Error)]
pub enum TextFault {
    /// It is not in UTF-8, or is no TOML.
    #[error("{}", .0.message())]
    NotToml(toml::de::Error),
    #[error("a text has no such key; it has secret or secret_file, and tables [[unit]]")]
    UnknownKey,
    #[error("neither secret nor secret_file stands in the text")]
    NoSecret,
    #[error("of secret and secret_file the text has one")]
    TwoSecrets,
    #[error("secret is a string of 64 hexadecimal digits")]
    BadSecret,
    #[error("secret_file is a string, the path of a file")]
    BadPath,
    #[error("no [[unit]] stands in the text")]
    NoUnits,
    #[error("unit is a list of tables, each of which begins with [[unit]]")]
    NotUnits,
    #[error("there are more than 16 units")]
    ManyUnits,
    /// The first unit is 0.
    #[error("unit {unit}: {fault}")]
    Unit { unit: usize, fault: UnitFault },
}

/// Why a file tells no machine of units.
#[derive(Debug, Clone, Copy, PartialEq, Eq, Error)]
pub enum ConfigFault {
    /// Memory was wanted and not had.
    #[error("memory was wanted and not had")]
    OutOfMemory,
    /// What is wrong with a text, and at which of its lines, of which the first is 1. Where something is missing it is
    /// the first line by whose end it can be told.
    #[error("line {line}: {fault}")]
    Text { line: usize, fault: TextFault },
    /// Where a header has a fault, is not whole or is over.
    #[error("byte {place} is wrong in the header, missing, or behind it")]
    Header { place: u64 },
}

impl From<OutOfMemory> for ConfigFault {
    ghost use Rattle.std.specs.Prelude.{◌≡◌};
    ghost use Rattle.config_text.specs.declared.fault.ConfigFault.{ConfigFault};

    ghost from_gives = { λ _ e. e ≡ ConfigFault.OutOfMemory };

    fn from(_: OutOfMemory) -> ConfigFault {
        ConfigFault::OutOfMemory
    }
}
