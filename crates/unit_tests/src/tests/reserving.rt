// Reservations, beside the acts that they bar and those that they leave.
use super::acts::Asked;
use super::asking::Told;
use super::playing::{Step, play_ample};
use cm_base::ReservationAction;
use std::test::Fail;
use unit_core::FoldEnd;

/// A nexus registers the key 1234h.
fn register(nexus: u32) -> Step {
    let asked = Asked::Reserve {
        action: ReservationAction::Register,
        kind: 0,
        key: 0,
        action_key: 0x1234,
    };
    Step::By(nexus, asked)
}

/// A nexus of the key 1234h does this with a reservation of this type.
fn with_key(nexus: u32, action: ReservationAction, kind: u8) -> Step {
    let asked = Asked::Reserve {
        action,
        kind,
        key: 0x1234,
        action_key: 0,
    };
    Step::By(nexus, asked)
}

/// A nexus of the key 1234h makes a reservation of this type.
fn reserve(nexus: u32, kind: u8) -> Step {
    with_key(nexus, ReservationAction::Reserve, kind)
}

/// A nexus of the key 1234h gives a reservation of this type back.
fn release(nexus: u32, kind: u8) -> Step {
    with_key(nexus, ReservationAction::Release, kind)
}

/// A nexus makes a token of the first block.
fn populate(nexus: u32) -> Step {
    let asked = Asked::Populate {
        id: 1,
        timeout: 60,
        lba: 0,
        count: 1,
    };
    Step::By(nexus, asked)
}

/// A nexus begins to write so many blocks in the background, from this one on.
fn start(nexus: u32, lba: u64, count: u32) -> Step {
    let asked = Asked::Start {
        background: true,
        byte: 0x66,
        lba,
        count,
    };
    Step::By(nexus, asked)
}

/// A write-exclusive reservation leaves the reads of others, and bars their writes.
#[test]
fn a_reservation_bars_the_writes_of_others(rt: HostRuntime) -> Result<(), Fail> {
    play_ample(
        rt.alloc(),
        &[
            (register(1), Told::Done),
            (reserve(1, 1), Told::Done),
            (Step::By(2, Asked::Read(7)), Told::Blocks(0, 0)),
            (Step::By(2, Asked::Write(0x44, 7, 1)), Told::Conflict),
            (Step::By(2, Asked::ReadKeys), Told::Keys(1, Some(0x1234))),
            (
                Step::By(2, Asked::ReadHolder),
                Told::Holder(1, Some((0x1234, 1))),
            ),
            (release(1, 1), Told::Done),
            (Step::By(2, Asked::Write(0x44, 7, 1)), Told::Done),
            (Step::Ask(Asked::Read(7)), Told::Blocks(0x44, 0)),
        ],
    )
}

/// An exclusive-access reservation bars another nexus from each act on blocks. The record has those that were barred too.
#[test]
fn a_reservation_bars_each_act_on_blocks(rt: HostRuntime) -> Result<(), Fail> {
    play_ample(
        rt.alloc(),
        &[
            (register(1), Told::Done),
            (reserve(1, 3), Told::Done),
            (Step::By(2, Asked::Read(0)), Told::Conflict),
            (Step::By(2, Asked::Capture(0)), Told::Conflict),
            (Step::By(2, Asked::MapStatus(0)), Told::Conflict),
            (populate(2), Told::Conflict),
            (Step::By(2, Asked::Write(0x44, 0, 1)), Told::Conflict),
            (Step::By(2, Asked::Put(0x55, 1)), Told::Conflict),
            (Step::By(2, Asked::Unmap(1)), Told::Conflict),
            (start(2, 2, 1), Told::Conflict),
            (Step::Kept, Told::Count(10)),
            (Step::Live, Told::Count(0)),
            (Step::Mapped, Told::Count(0)),
        ],
    )
}

/// It bars its holder from none.
#[test]
fn a_reservation_bars_its_holder_from_no_act(rt: HostRuntime) -> Result<(), Fail> {
    play_ample(
        rt.alloc(),
        &[
            (register(1), Told::Done),
            (reserve(1, 3), Told::Done),
            (Step::By(1, Asked::Read(0)), Told::Blocks(0, 0)),
            (Step::By(1, Asked::Capture(0)), Told::Blocks(0, 0)),
            (Step::By(1, Asked::MapStatus(0)), Told::Other),
            (populate(1), Told::Made(0)),
            (Step::By(1, Asked::Write(0x44, 0, 1)), Told::Done),
            (Step::By(1, Asked::Put(0x55, 1)), Told::Done),
            (Step::By(1, Asked::Unmap(1)), Told::Done),
            (start(1, 2, 1), Told::Running(0)),
            (Step::Kept, Told::Count(10)),
        ],
    )
}

/// A write that was begun goes on beside a reservation, which still stands when its entries are dropped.
#[test]
fn a_reservation_lets_an_operation_go_on(rt: HostRuntime) -> Result<(), Fail> {
    play_ample(
        rt.alloc(),
        &[
            (start(1, 0, 2048), Told::Running(0)),
            (register(2), Told::Done),
            (reserve(2, 3), Told::Done),
            (Step::Fold, Told::Folded(FoldEnd::All, 0, 3)),
            (Step::Pump, Told::Running(1024)),
            (Step::Ask(Asked::Report(2)), Told::Running(1024)),
            (Step::Ask(Asked::Read(0)), Told::Conflict),
        ],
    )
}
