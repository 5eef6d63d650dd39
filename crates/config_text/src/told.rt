use cm_base::{Config, UnitList};

/// What a file tells of a machine of units.
#[derive(Drop)]
pub enum Told {
    /// All of it.
    Whole(Config),
    /// The units, and the path of a file whose 32 bytes are the secret.
    SecretIn { path: String, units: UnitList },
}
