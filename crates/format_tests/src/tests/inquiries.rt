// The data of INQUIRY, READ CAPACITY, REPORT LUNS and RECEIVE COPY OPERATING PARAMETERS.
ghost use Rattle.std.specs.Prelude.{◌≡◌, length, IfOk};
ghost use Rattle.cm_base.specs.Configuration.{IsUnit};

use cm_base::{Config, OutOfMemory, Sequence, UnitConfig};
use scsi_inquiry::{copy_parameters, read_capacity10, read_capacity16, report_luns, standard, vpd};
use std::alloc::Global;

/// The largest unit.
fn largest() -> UnitConfig
    ensures { IsUnit result }
{
    UnitConfig {
        blocks: 4_294_967_296,
        block_length: 4096,
        entries: 1,
        quota: 0,
        payload: 1,
        group: 0,
    }
}

/// The page of unit 0102h is these bytes.
fn is_page(alloc: Global, page: u8, wanted: &[u8]) -> Result<bool, OutOfMemory> {
    match vpd(alloc, 0x0102, page)? {
        Some(bytes) => Ok(bytes.as_slice() == wanted),
        None => Ok(false),
    }
}

/// Each page of INQUIRY by SPC-4 and SBC-3.
#[test]
fn pages_of_the_standards(rt: HostRuntime) -> Result<(), OutOfMemory> {
    let alloc = rt.alloc();
    let told = b"\0\0\x06\x02\x1f\x08\0\0COPYMGR ROD TOKEN UNIT  0001".as_slice();
    assert!(rt; standard().as_slice() == told);
    let pages: [(u8, &[u8]); 5] = [
        (0x00, b"\0\x00\0\x05\x00\x83\x8f\xb0\xb2"),
        (0x83, b"\0\x83\0\x0c\x01\x03\0\x08\x30\0\0\0\0\0\x01\x02"),
        (
            0x8f,
            b"\0\x8f\0\x24\0\0\0\x20\0\0\0\0\0\0\0\x40\0\0\x0e\x10\0\0\x01\x2c\0\0\0\0\0\x10\0\0\0\0\0\0\0\x10\0\0",
        ),
        (
            0xb0,
            b"\0\xb0\0\x3c\0\0\0\0\0\0\x08\0\0\0\0\0\0\0\0\0\xff\xff\xff\xff\0\0\0\x40\0\0\0\0\0\0\0\0\0\0\0\0\0\0\0\0\0\0\0\0\0\0\0\0\0\0\0\0\0\0\0\0\0\0\0\0",
        ),
        (0xb2, b"\0\xb2\0\x04\0\x84\x02\0"),
    ];
    for (page, wanted) in pages {
        assert!(rt; is_page(alloc, page, wanted)?, "page {page}");
    }
    assert!(rt; vpd(alloc, 0, 0x80)?.is_none());
    Ok(())
}

/// A machine of the largest unit alone.
fn one_unit(alloc: Global) -> Result<Config, OutOfMemory>
    ensures { IfOk result (λ config. length config.units ≡ 1) }
{
    let units = Sequence::from_vec(vec![in alloc; largest()]?);
    Ok(Config::new([0; 32], units))
}

/// The first bytes of READ CAPACITY (16) of the largest unit.
const CAPACITY: [u8; 16] = *b"\0\0\0\0\xff\xff\xff\xff\0\0\x10\0\0\0\xc0\0";

/// The list of one unit.
const ONE_UNIT: [u8; 16] = *b"\0\0\0\x08\0\0\0\0\0\0\0\0\0\0\0\0";

/// Both forms of READ CAPACITY tell the largest unit.
fn is_told(config: &Config) -> bool
    requires { length config.now.units ≡ 1 }
{
    read_capacity10(config, 0) == *b"\xff\xff\xff\xff\0\0\x10\0"
        && read_capacity16(config, 0).starts_with(&CAPACITY)
}

/// REPORT LUNS tells one unit.
fn is_listed(alloc: Global, config: &Config) -> Result<bool, OutOfMemory>
    requires { length config.now.units ≡ 1 }
{
    let list = report_luns(alloc, config)?;
    Ok(list.as_slice() == ONE_UNIT.as_slice())
}

/// The data of a machine of one unit.
#[test]
fn data_of_one_unit(rt: HostRuntime) -> Result<(), OutOfMemory> {
    let config = one_unit(rt.alloc())?;
    assert!(rt; is_told(&config));
    assert!(rt; is_listed(rt.alloc(), &config)?);
    Ok(())
}

/// RECEIVE COPY OPERATING PARAMETERS by SPC-4.
#[test]
fn copy_parameters_of_the_standard(rt: HostRuntime) {
    let wanted =
        b"\0\0\0\x2a\x01\0\0\0\0\x10\0\x40\0\0\x09\0\x0f\xff\xf0\0\0\0\0\0\0\0\0\0\0\0\0\0\0\0\0\x40\x40\x09\0\0\0\0\0\x02\x02\xe4";
    assert_eq!(rt; copy_parameters().as_slice(), wanted.as_slice());
}
