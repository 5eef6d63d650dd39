ghost use Rattle.std.specs.Prelude.{◌≡◌, ◌<◌, ◌≤◌, length, IfOk};
ghost use Rattle.scsi_inquiry.specs.UnitData.{capacity10, capacity16, report_luns};

use cm_base::{Bytes, Config, OutOfMemory, set_u32, set_u64};
use std::alloc::Global;

/// LBPME and LBPRZ of READ CAPACITY (16): the unit is thin, and unmapped blocks read as zeros.
const THIN: u8 = 0xc0;

/// The data of a READ CAPACITY (10) (SBC-3): the last block, and the bytes of a block.
pub fn read_capacity10(config: &Config, unit: u16) -> [u8; 8]
    requires { unit < length config.now.units }
    ensures { result ≡ capacity10 config.now unit }
{
    let told = config.unit(unit);
    let mut data = [0; 8];
    set_u32(&mut data, 0, (told.blocks - 1) as u32);
    set_u32(&mut data, 4, told.block_length);
    data
}

/// The data of a READ CAPACITY (16) (SBC-3).
pub fn read_capacity16(config: &Config, unit: u16) -> [u8; 32]
    requires { unit < length config.now.units }
    ensures { result ≡ capacity16 config.now unit }
{
    let told = config.unit(unit);
    let mut data = [0; 32];
    set_u64(&mut data, 0, told.blocks - 1);
    set_u32(&mut data, 8, told.block_length);
    data[14] = THIN;
    data
}

/// The data of a REPORT LUNS (SPC-4): a LUN of eight bytes for each unit, by its number.
pub fn report_luns(alloc: Global, config: &Config) -> Result<Bytes, OutOfMemory>
    ensures told { IfOk result (λ bytes. bytes ≡ report_luns config.now) }
    ensures few { IfOk result (λ bytes. length bytes ≤ 136) }
{
    let units = config.units();
    let mut head = [0; 8];
    set_u32(&mut head, 0, 8 * u32::from(units));
    let mut data = Bytes::copy(alloc, &head)?;
    for unit in 0..units {
        data.extend(&[0, unit as u8, 0, 0, 0, 0, 0, 0])?;
    }
    Ok(data)
}
