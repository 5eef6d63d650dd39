ghost use Rattle.std.specs.Prelude.{◌≡◌};
ghost use Rattle.config_text.specs.Meaning.{name_of};

use std::fmt;

/// A key of a unit's table.
#[derive(Debug, Clone, Copy, PartialEq, Eq)]
pub enum UnitKey {
    Blocks,
    BlockLength,
    Entries,
    Quota,
    Payload,
    Group,
}

impl UnitKey {
    /// As the text spells it.
    pub fn name(self) -> &'static str
        ensures { result.now ≡ name_of self }
    {
        match self {
            UnitKey::Blocks => "blocks",
            UnitKey::BlockLength => "block_length",
            UnitKey::Entries => "entries",
            UnitKey::Quota => "quota",
            UnitKey::Payload => "payload",
            UnitKey::Group => "group",
        }
    }

    /// Its numbers, for people.
    fn range(self) -> &'static str {
        match self {
            UnitKey::Blocks => "1 to 4294967296",
            UnitKey::BlockLength => "512 or 4096",
            UnitKey::Entries => "1 to 1048576",
            UnitKey::Quota => "0 to the unit's blocks",
            UnitKey::Payload => "1 to 268435456",
            UnitKey::Group => "0 to 15",
        }
    }
}

/// The key and its numbers.
impl fmt::Display for UnitKey {
    fn fmt<W: fmt::Write>(&self, f: &mut fmt::Formatter<W>) -> fmt::Result {
        let (name, range) = (self.name(), self.range());
        write!(f, "{name} is {range}")
    }
}
