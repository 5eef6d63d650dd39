ghost use Rattle.std.specs.Prelude.{IfOk, IfErr};
ghost use Rattle.config_text.specs.Files.{IsTold, IsAtLine, UnlessMemory};
ghost use Rattle.config_text.specs.declared.told.Told.{Told};

use crate::fault::ConfigFault;
use crate::text::read_text;
use crate::told::Told;
use cm_base::Parsed;
use cm_frame::read_header;
use std::alloc::Global;

/// The first byte of each header.
const HEADER: u8 = b'C';

/// Reads what a file tells of a machine of units: a header, or where its first byte is no header's, a text.
pub fn read_file(alloc: Global, bytes: &[u8]) -> Result<Told, ConfigFault>
    ensures told { IfOk result (IsTold bytes.now) }
    ensures refused { IfErr result (λ fault. UnlessMemory fault ((told : Told) → ¬ IsTold bytes.now told)) }
    ensures line { IfErr result (IsAtLine bytes.now) }
{
    if bytes.first() != Some(&HEADER) {
        return read_text(alloc, bytes);
    }
    match read_header(alloc, bytes)? {
        Parsed::Whole { value, used } if used == bytes.len() => Ok(Told::Whole(value)),
        Parsed::Whole { used, .. } => Err(ConfigFault::Header { place: used as u64 }),
        Parsed::Bad { place } => Err(ConfigFault::Header { place }),
        Parsed::Short => Err(ConfigFault::Header {
            place: bytes.len() as u64,
        }),
    }
}
