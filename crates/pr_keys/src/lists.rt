// The parameter list of PERSISTENT RESERVE OUT, and the data of PERSISTENT RESERVE IN (SPC-4).
ghost use Rattle.std.specs.Prelude.{◌≡◌, ◌≤◌, ◌++◌, ◌∷◌, length, Ok, IfOk};
ghost use Rattle.byteorder.specs.Endian.{big_bytes};
ghost use Rattle.cm_base.specs.Fields.{zeros};
ghost use Rattle.pr_keys.specs.Actions.{most_registrants};
ghost use Rattle.pr_keys.specs.Bytes.{out_list_read, out_list_written, keys_bytes, holder_bytes};

use cm_base::{Bytes, Holder, KeyList, OutOfMemory, get_u64, set_u32, set_u64};
use scsi_sense::Sense;
use std::alloc::Global;

/// What a PERSISTENT RESERVE OUT brings.
#[derive(Debug, Drop, Clone, Copy, PartialEq, Eq)]
pub struct OutList {
    /// RESERVATION KEY: under which the nexus is registered.
    pub key: u64,
    /// SERVICE ACTION RESERVATION KEY: the new key of a REGISTER, or the one that a PREEMPT ends.
    pub action_key: u64,
}

/// Reads the parameter list of a PERSISTENT RESERVE OUT. It is refused with PARAMETER LIST LENGTH
/// ERROR exactly where it has not 24 bytes; what stands behind the keys is ignored.
pub fn read_out_list(list: &[u8]) -> Result<OutList, Sense>
    ensures { result ≡ out_list_read list.now }
{
    if list.len() != 24 {
        return Err(Sense::parameter_list_length_error());
    }
    Ok(OutList {
        key: get_u64(list, 0),
        action_key: get_u64(list, 8),
    })
}

/// Spells the parameter list of a PERSISTENT RESERVE OUT.
pub fn write_out_list(list: OutList) -> [u8; 24]
    ensures written { result ≡ out_list_written list }
    ensures read_back { out_list_read result ≡ Ok list }
{
    let mut bytes = [0; 24];
    set_u64(&mut bytes, 0, list.key);
    set_u64(&mut bytes, 8, list.action_key);
    bytes
}

/// PRGENERATION, and the number of bytes that follow.
fn head(generation: u32, length: u32) -> [u8; 8]
    ensures { result ≡ big_bytes 4 generation ++ big_bytes 4 length }
{
    let mut bytes = [0; 8];
    set_u32(&mut bytes, 0, generation);
    set_u32(&mut bytes, 4, length);
    bytes
}

/// The data of a READ KEYS: PRGENERATION and at most 64 keys.
pub fn keys_data(alloc: Global, generation: u32, keys: &KeyList) -> Result<Bytes, OutOfMemory>
    requires { length keys.now ≤ most_registrants }
    ensures { IfOk result (λ bytes. bytes ≡ keys_bytes generation keys.now) }
{
    let mut bytes = Bytes::copy(alloc, &head(generation, 8 * keys.len() as u32))?;
    for key in keys.as_slice() {
        let mut spelled = [0; 8];
        set_u64(&mut spelled, 0, *key);
        bytes.extend(&spelled)?;
    }
    Ok(bytes)
}

/// A reservation: the key of its holder, and its scope and type.
fn descriptor(holder: Holder) -> [u8; 16]
    ensures { result ≡ big_bytes 8 holder.key ++ zeros 5 ++ holder.kind ∷ zeros 2 }
{
    let mut bytes = [0; 16];
    set_u64(&mut bytes, 0, holder.key);
    bytes[13] = holder.kind;
    bytes
}

/// The data of a READ RESERVATION: PRGENERATION, and the reservation, if one stands.
pub fn holder_data(
    alloc: Global,
    generation: u32,
    holder: Option<Holder>,
) -> Result<Bytes, OutOfMemory>
    ensures { IfOk result (λ bytes. bytes ≡ holder_bytes generation holder) }
{
    match holder {
        Some(holder) => {
            let mut bytes = Bytes::copy(alloc, &head(generation, 16))?;
            bytes.extend(&descriptor(holder))?;
            Ok(bytes)
        }
        None => Bytes::copy(alloc, &head(generation, 0)),
    }
}
