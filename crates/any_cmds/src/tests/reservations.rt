ghost use Rattle.std.specs.Prelude.{◌<◌};

use super::outcomes::Came;
use super::script::{cut, plays, tells};
use super::seen::{GOOD, Seen};
use cm_base::Payload;
use pr_keys::{OutList, write_out_list};
use scsi_cdb::{Cdb, encode};
use scsi_sense::Sense;
use std::alloc::Global;
use std::test::Fail;

/// The parameter list of a REGISTER of the key 1234h.
fn list(alloc: Global) -> Result<Payload, Fail> {
    let list = OutList {
        key: 0,
        action_key: 0x1234,
    };
    Ok(Payload::copy_from_slice(alloc, &write_out_list(list))?)
}

/// REGISTER, with a type, which is not looked at, asks for its act, of which that came, and ends so.
fn registers(alloc: Global, came: Came, end: Seen) -> Result<bool, Fail> {
    let register = encode(&Cdb::PersistentOut {
        action: 0,
        scope: 0,
        kind: 3,
        length: 24,
    });
    let asked = Seen::PrOut {
        action: 0,
        scope: 0,
        kind: 3,
        key: 0,
        action_key: 0x1234,
    };
    plays(alloc, register, list(alloc)?, &[(asked, came)], end)
}

/// PERSISTENT RESERVE OUT ends as its act is answered.
#[test]
fn a_service_action_is_asked(rt: HostRuntime) -> Result<(), Fail> {
    let crowded = Seen::Check {
        key: 0x05,
        asc: 0x55,
        ascq: 0x03,
    };
    let ends = [
        (Came::Done, GOOD),
        (Came::Conflict, Seen::Conflict),
        (Came::Refused(Sense::new(0x05, 0x55, 0x03)), crowded),
        (Came::Full, Seen::Full),
        (Came::NoMemory, Seen::Busy),
    ];
    for (came, end) in ends {
        assert!(rt; registers(rt.alloc(), came, end)?);
    }
    Ok(())
}

/// 25 zeros.
static ZEROS: [u8; 25] = [0; 25];

/// A list of so many bytes, which its CDB says has this length, is refused.
fn is_refused(alloc: Global, length: u32, list: &'static [u8]) -> Result<bool, Fail> {
    let register = encode(&Cdb::PersistentOut {
        action: 0,
        scope: 0,
        kind: 0,
        length,
    });
    let refused = Seen::Check {
        key: 0x05,
        asc: 0x1a,
        ascq: 0x00,
    };
    plays(
        alloc,
        register,
        Payload::copy_from_slice(alloc, list)?,
        &[],
        refused,
    )
}

/// A list has 24 bytes.
#[test]
fn a_list_of_another_length_is_refused(rt: HostRuntime) -> Result<(), Fail> {
    for (length, bytes) in [(23, 23), (24, 23), (25, 25), (0, 0)] {
        assert!(rt;
            is_refused(rt.alloc(), length, &ZEROS[..bytes])?,
            "{length} {bytes}"
        );
    }
    Ok(())
}

/// PERSISTENT RESERVE IN of this service action.
fn reserve_in(action: u8, length: u16) -> [u8; 16]
    requires { action < 2 }
{
    encode(&Cdb::PersistentIn { action, length })
}

const KEYS: Seen = Seen::PrKeys { unit: 1 };

const HOLDER: Seen = Seen::PrHolder { unit: 1 };

/// READ KEYS with this allocation length tells of one key.
fn tells_keys(alloc: Global, length: u16) -> Result<bool, Fail> {
    let whole = b"\0\0\0\x01\0\0\0\x08\0\0\0\0\0\0\x12\x34";
    let bytes = cut(whole, u32::from(length));
    tells(alloc, reserve_in(0, length), (KEYS, Came::Keys), bytes)
}

/// READ RESERVATION with this allocation length tells of the holder.
fn tells_holder(alloc: Global, length: u16) -> Result<bool, Fail> {
    let whole = b"\0\0\0\x01\0\0\0\x10\0\0\0\0\0\0\x12\x34\0\0\0\0\0\x01\0\0";
    let bytes = cut(whole, u32::from(length));
    tells(alloc, reserve_in(1, length), (HOLDER, Came::Holder), bytes)
}

/// READ KEYS and READ RESERVATION, cut at the allocation length.
#[test]
fn reservations_are_told(rt: HostRuntime) -> Result<(), Fail> {
    for length in [0, 8, 15, 16, 24, 64] {
        assert!(rt; tells_keys(rt.alloc(), length)?, "{length}");
        assert!(rt; tells_holder(rt.alloc(), length)?, "{length}");
    }
    Ok(())
}

/// The unit has no reservation.
#[test]
fn no_reservation_is_told(rt: HostRuntime) -> Result<(), Fail> {
    let bytes = b"\0\0\0\x01\0\0\0\0";
    assert!(rt; tells(rt.alloc(), reserve_in(1, 64), (HOLDER, Came::Unheld), bytes)?);
    Ok(())
}

/// PERSISTENT RESERVE IN of this service action asks for its act, of which that came, and ends so.
fn gives_up(alloc: Global, action: u8, asked: Seen, came: Came, end: Seen) -> Result<bool, Fail>
    requires { action < 2 }
{
    let cdb = reserve_in(action, 64);
    plays(alloc, cdb, Payload::new(), &[(asked, came)], end)
}

/// PERSISTENT RESERVE IN gives up where there is no room or no memory.
#[test]
fn nothing_is_told(rt: HostRuntime) -> Result<(), Fail> {
    assert!(rt; gives_up(rt.alloc(), 0, KEYS, Came::Full, Seen::Full)?);
    assert!(rt; gives_up(rt.alloc(), 0, KEYS, Came::NoMemory, Seen::Busy)?);
    assert!(rt; gives_up(rt.alloc(), 1, HOLDER, Came::Full, Seen::Full)?);
    assert!(rt; gives_up(rt.alloc(), 1, HOLDER, Came::NoMemory, Seen::Busy)?);
    Ok(())
}
