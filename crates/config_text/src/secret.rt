ghost use Rattle.std.specs.Prelude.{◌≡◌, Some, None, Ok, Option, option_map, IfOk, IfErr};
ghost use Rattle.config_text.specs.Meaning.{spelled, these};
ghost use Rattle.config_text.specs.inner.Parts.{secret_at, secret_view};
ghost use Rattle.hex.specs.Hex.{decode_sized};
ghost use Rattle.toml.specs.View.{table_view};

use crate::fault::TextFault;
use crate::table::member;
use toml::Table;

/// The secret, or the path of its file.
#[derive(Clone, Copy)]
pub(crate) enum SecretText<'a> {
    These([u8; 32]),
    In(&'a str),
}

/// The bytes that 64 digits spell.
fn spelled(digits: &str) -> Option<[u8; 32]>
    ensures { option_map these result ≡ spelled (decode_sized digits.now 32) }
{
    let mut secret = [0; 32];
    match hex::decode_to_slice(digits, &mut secret) {
        Ok(()) => Some(secret),
        Err(_) => None,
    }
}

/// The secret of a text, if it tells one.
pub(crate) fn secret_in(text: &Table) -> Result<Option<SecretText<'_>>, TextFault>
    ensures told { IfOk result (λ secret. option_map secret_view secret ≡ secret_at (table_view text.now)) }
    ensures refused { IfErr result (λ _. secret_at (table_view text.now) ≡ None) }
{
    match (member(text, "secret"), member(text, "secret_file")) {
        (None, None) => Ok(None),
        (Some(_), Some(_)) => Err(TextFault::TwoSecrets),
        (Some(digits), None) => match digits.as_str().and_then(spelled) {
            Some(secret) => Ok(Some(SecretText::These(secret))),
            None => Err(TextFault::BadSecret),
        },
        (None, Some(path)) => match path.as_str() {
            Some(path) => Ok(Some(SecretText::In(path))),
            None => Err(TextFault::BadPath),
        },
    }
}
