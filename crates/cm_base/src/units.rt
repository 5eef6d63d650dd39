ghost use Rattle.std.specs.Prelude.{◌≡◌, ◌<◌, length};
ghost use Rattle.cm_base.specs.Units.{unit_name, unit_descriptor};

use crate::config::Config;
use crate::fields::{set_u16, set_u32};

/// The name of a unit: eight bytes, by which its designator tells it from the others (SPC-4, NAA
/// designator format; locally assigned).
pub fn unit_name(unit: u16) -> [u8; 8]
    ensures { result ≡ unit_name unit }
{
    let mut name = [0x30, 0, 0, 0, 0, 0, 0, 0];
    set_u16(&mut name, 6, unit);
    name
}

/// The descriptor by which a copy names a unit (SPC-4, Identification Descriptor CSCD descriptor):
/// a block device with its name and its block length in bytes.
pub fn unit_descriptor(config: &Config, unit: u16) -> [u8; 32]
    requires { unit < length config.now.units }
    ensures { result ≡ unit_descriptor config.now unit }
{
    let mut descriptor = [0; 32];
    descriptor[..8].copy_from_slice(&[0xe4, 0, 0, 0, 1, 3, 0, 8]);
    descriptor[8..16].copy_from_slice(&unit_name(unit));
    set_u32(&mut descriptor, 28, config.unit(unit).block_length);
    descriptor
}
