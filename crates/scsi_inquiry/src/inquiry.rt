ghost use Rattle.std.specs.Prelude.{◌≡◌, ◌<◌, ◌^◌, ◌++◌, ◌∷◌, length, Some, IfOk};
ghost use Rattle.byteorder.specs.Endian.{big_bytes};
ghost use Rattle.scsi_inquiry.specs.UnitData.{standard, identification, copy_limits, block_limits, vpd};

use cm_base::{Bytes, OutOfMemory, set_u16, set_u32, set_u64};
use std::alloc::Global;

const VENDOR: &[u8; 8] = b"COPYMGR ";

const PRODUCT: &[u8; 16] = b"ROD TOKEN UNIT  ";

const REVISION: &[u8; 4] = b"0001";

/// Vital product data pages (SPC-4; B0h and B2h SBC-3).
const SUPPORTED_PAGES: u8 = 0x00;

const DEVICE_IDENTIFICATION: u8 = 0x83;

const THIRD_PARTY_COPY: u8 = 0x8f;

const BLOCK_LIMITS: u8 = 0xb0;

const LOGICAL_BLOCK_PROVISIONING: u8 = 0xb2;

/// The pages that there are.
const PAGES: [u8; 5] = [
    SUPPORTED_PAGES,
    DEVICE_IDENTIFICATION,
    THIRD_PARTY_COPY,
    BLOCK_LIMITS,
    LOGICAL_BLOCK_PROVISIONING,
];

/// LBPU and LBPRZ, thin: the unit unmaps blocks, which read as zeros.
const PROVISIONING: [u8; 4] = [0x00, 0x84, 0x02, 0x00];

/// Standard INQUIRY data (SPC-4, Standard INQUIRY data): a disk by SPC-4 that takes third-party
/// copies.
pub fn standard() -> [u8; 36]
    ensures { result ≡ standard }
{
    let mut data = [0; 36];
    data[2] = 0x06;
    data[3] = 0x02;
    data[4] = 0x1f;
    data[5] = 0x08;
    data[8..16].copy_from_slice(VENDOR);
    data[16..32].copy_from_slice(PRODUCT);
    data[32..].copy_from_slice(REVISION);
    data
}

/// A binary NAA designator of eight bytes: the name of the unit, locally assigned.
fn identification(unit: u16) -> [u8; 12]
    ensures { result ≡ identification unit }
{
    let mut content = [0; 12];
    content[..5].copy_from_slice(&[0x01, 0x03, 0x00, 0x08, 0x30]);
    set_u16(&mut content, 10, unit);
    content
}

/// One block device ROD token limits descriptor.
fn copy_limits() -> [u8; 36]
    ensures { result ≡ copy_limits }
{
    let mut content = [0; 36];
    set_u16(&mut content, 2, 0x0020);
    set_u16(&mut content, 10, 64);
    set_u32(&mut content, 12, 3600);
    set_u32(&mut content, 16, 300);
    set_u64(&mut content, 20, 1_048_576);
    set_u64(&mut content, 28, 1_048_576);
    content
}

fn block_limits() -> [u8; 60]
    ensures { result ≡ block_limits }
{
    let mut content = [0; 60];
    set_u32(&mut content, 4, 2048);
    set_u32(&mut content, 16, u32::MAX);
    set_u32(&mut content, 20, 64);
    content
}

/// A page of this content.
fn page_of(alloc: Global, page: u8, content: &[u8]) -> Result<Option<Bytes>, OutOfMemory>
    requires { length content.now < 2 ^ 16 }
    ensures { IfOk result (λ bytes. bytes ≡ Some (0x00 ∷ page ∷ big_bytes 2 (length content.now) ++ content.now)) }
{
    let mut head = [0x00, page, 0, 0];
    set_u16(&mut head, 2, content.len() as u16);
    let mut data = Bytes::copy(alloc, &head)?;
    data.extend(content)?;
    Ok(Some(data))
}

/// A vital product data page; `None` exactly where there is no page of this code: others than 00h,
/// 83h, 8Fh, B0h and B2h.
pub fn vpd(alloc: Global, unit: u16, page: u8) -> Result<Option<Bytes>, OutOfMemory>
    ensures { IfOk result (λ bytes. bytes ≡ vpd unit page) }
{
    match page {
        SUPPORTED_PAGES => page_of(alloc, page, &PAGES),
        DEVICE_IDENTIFICATION => page_of(alloc, page, &identification(unit)),
        THIRD_PARTY_COPY => page_of(alloc, page, &copy_limits()),
        BLOCK_LIMITS => page_of(alloc, page, &block_limits()),
        LOGICAL_BLOCK_PROVISIONING => page_of(alloc, page, &PROVISIONING),
        _ => Ok(None),
    }
}
