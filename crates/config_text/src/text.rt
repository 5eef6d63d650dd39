ghost use Rattle.std.specs.Prelude.{◌≡◌, string_bytes, IfOk, IfErr};
ghost use Rattle.config_text.specs.Meaning.{Says, Means};
ghost use Rattle.config_text.specs.Files.{UnlessMemory, IsAtLine};
ghost use Rattle.config_text.specs.Lines.{IsLine};
ghost use Rattle.config_text.specs.declared.refused.Refused.{Refused};
ghost use Rattle.config_text.specs.inner.Parts.{IfFault};
ghost use Rattle.config_text.specs.declared.told.Told.{Told};
ghost use Rattle.toml.specs.View.{table_view};

use crate::fault::{ConfigFault, TextFault};
use crate::line::line_at;
use crate::refused::Refused;
use crate::secret::{SecretText, secret_in};
use crate::table::has_only_keys;
use crate::told::Told;
use crate::units::units_in;
use cm_base::{Config, OutOfMemory};
use std::alloc::Global;
use toml::Table;

/// What the table of a text says.
fn said_by(alloc: Global, text: &Table) -> Result<Told, Refused>
    ensures says { IfOk result (Says (table_view text.now)) }
    ensures refused { IfErr result (λ why. IfFault why ((told : Told) → ¬ Says (table_view text.now) told)) }
{
    if !has_only_keys(text) {
        return Err(Refused::Fault(TextFault::UnknownKey));
    }
    let secret = secret_in(text).map_err(Refused::Fault)?;
    let units = units_in(alloc, text)?;
    match secret {
        Some(SecretText::These(secret)) => Ok(Told::Whole(Config::new(secret, units))),
        Some(SecretText::In(path)) => Ok(Told::SecretIn {
            path: copied(alloc, path)?,
            units,
        }),
        None => Err(Refused::Fault(TextFault::NoSecret)),
    }
}

fn copied(alloc: Global, path: &str) -> Result<String, Refused>
    ensures same { IfOk result (λ s. string_bytes s ≡ path.now) }
    ensures refused { IfErr result (λ why. why ≡ Refused.OutOfMemory) }
{
    match String::from_str(alloc, path) {
        Ok(copy) => Ok(copy),
        Err(_) => Err(Refused::OutOfMemory),
    }
}

/// What the bytes of a text mean.
fn meant_by(alloc: Global, bytes: &[u8]) -> Result<Told, Refused>
    ensures means { IfOk result (Means bytes.now) }
    ensures refused { IfErr result (λ why. IfFault why ((told : Told) → ¬ Means bytes.now told)) }
{
    match toml::table_from_slice(alloc, bytes) {
        Ok(text) => said_by(alloc, &text),
        Err(error) if error.is_memory() => Err(Refused::OutOfMemory),
        Err(error) => Err(Refused::Fault(TextFault::NotToml(error))),
    }
}

/// Some lines alone have this fault.
fn has_fault(alloc: Global, lines: &[u8], fault: TextFault) -> Result<bool, OutOfMemory> {
    match meant_by(alloc, lines) {
        Err(Refused::OutOfMemory) => Err(OutOfMemory),
        Err(Refused::Fault(found)) => Ok(found == fault),
        Ok(_) => Ok(false),
    }
}

/// The first line of a text by whose end it has a fault, or else its last line.
fn first_with(alloc: Global, text: &[u8], fault: TextFault) -> Result<usize, OutOfMemory>
    ensures { IfOk result (IsLine text.now) }
{
    let mut line = 1;
    for index in 0..text.len() {
        if text[index] == b'\n' {
            if has_fault(alloc, &text[..=index], fault)? {
                return Ok(line);
            }
            line += 1;
        }
    }
    Ok(line)
}

/// The line of a fault. What is missing from the whole text is told at its first.
fn line_of(alloc: Global, text: &[u8], fault: TextFault) -> Result<usize, OutOfMemory>
    ensures { IfOk result (IsLine text.now) }
{
    match fault {
        TextFault::NotToml(error) => Ok(line_at(text, error.span().map_or(0, |span| span.start))),
        TextFault::NoSecret | TextFault::NoUnits => Ok(1),
        _ => first_with(alloc, text, fault),
    }
}

/// Reads the text of a machine of units, which is TOML. Any bytes may be given.
///
/// To find the line of a fault the text is read once for each of its lines.
pub fn read_text(alloc: Global, bytes: &[u8]) -> Result<Told, ConfigFault>
    ensures means { IfOk result (Means bytes.now) }
    ensures refused { IfErr result (λ fault. UnlessMemory fault ((told : Told) → ¬ Means bytes.now told)) }
    ensures line { IfErr result (IsAtLine bytes.now) }
{
    match meant_by(alloc, bytes) {
        Ok(told) => Ok(told),
        Err(Refused::OutOfMemory) => Err(ConfigFault::OutOfMemory),
        Err(Refused::Fault(fault)) => {
            let line = line_of(alloc, bytes, fault)?;
            Err(ConfigFault::Text { line, fault })
        }
    }
}
