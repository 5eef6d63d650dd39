ghost use Rattle.std.specs.Prelude.{◌≡◌};
ghost use Rattle.scsi_inquiry.specs.UnitData.{copy_parameters};

use cm_base::{set_u16, set_u32};

/// The data of a RECEIVE COPY OPERATING PARAMETERS (SPC-4): 16 CSCD descriptors and 64 segments in
/// 2304 bytes, segments of 65,535 blocks of 4096 bytes, 64 copies at once, and granularities as
/// powers of two.
pub fn copy_parameters() -> [u8; 46]
    ensures { result ≡ copy_parameters }
{
    let mut data = [0; 46];
    set_u32(&mut data, 0, 42);
    data[4] = 0x01;
    set_u16(&mut data, 8, 16);
    set_u16(&mut data, 10, 64);
    set_u32(&mut data, 12, 2304);
    set_u32(&mut data, 16, 268_431_360);
    set_u16(&mut data, 34, 64);
    data[36] = 64;
    data[37] = 9;
    data[43..].copy_from_slice(&[2, 0x02, 0xe4]);
    data
}
