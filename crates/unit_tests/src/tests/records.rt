// Records that are full, and a record that is handed out.
use super::acts::Asked;
use super::asking::Told;
use super::playing::{Room, Step, handed_out, play};
use std::test::Fail;

/// A background write keeps its entries free: others find the record full, and the pump does not.
#[test]
fn a_record_is_full_in_entries(rt: HostRuntime) -> Result<(), Fail> {
    play(
        rt.alloc(),
        Room {
            entries: 6,
            quota: 4096,
            payload: 4096,
        },
        &[],
        &[
            (Step::Ask(Asked::Write(0x11, 0, 1)), Told::Done),
            (
                Step::Ask(Asked::Populate {
                    id: 0,
                    timeout: 300,
                    lba: 0,
                    count: 1,
                }),
                Told::Made(0),
            ),
            (Step::Ask(Asked::Redeem(0)), Told::Rod(0x11)),
            (
                Step::Ask(Asked::Start {
                    background: true,
                    byte: 0x33,
                    lba: 0,
                    count: 1,
                }),
                Told::Running(0),
            ),
            (Step::Ask(Asked::Write(0x44, 0, 1)), Told::Full),
            (Step::Pump, Told::Ended(1)),
            (Step::Ask(Asked::Report(2)), Told::Ended(1)),
            (Step::Ask(Asked::Read(0)), Told::Full),
            (Step::Kept, Told::Count(6)),
        ],
    )
}

/// The bytes of writes fill the record's payload; a read still finds room.
#[test]
fn a_record_is_full_in_payload(rt: HostRuntime) -> Result<(), Fail> {
    play(
        rt.alloc(),
        Room {
            entries: 6,
            quota: 4096,
            payload: 1024,
        },
        &[],
        &[
            (Step::Ask(Asked::Write(0x22, 0, 2)), Told::Done),
            (Step::Ask(Asked::Write(0x33, 0, 1)), Told::Full),
            (Step::Ask(Asked::Read(0)), Told::Blocks(0x22, 0x22)),
            (Step::Kept, Told::Count(2)),
        ],
    )
}

/// A record of one entry, and one act more.
const TWO_READS: [(Step, Told); 3] = [
    (Step::Ask(Asked::Read(0)), Told::Blocks(0, 0)),
    (Step::Ask(Asked::Read(0)), Told::Full),
    (Step::LastStamp, Told::Count(1)),
];

const ONE_ENTRY: Room = Room {
    entries: 1,
    quota: 4096,
    payload: 4096,
};

/// A record of one entry keeps one act, and hands it out.
#[test]
fn a_record_is_handed_out(rt: HostRuntime) -> Result<(), Fail> {
    play(rt.alloc(), ONE_ENTRY, &[], &TWO_READS)?;
    assert!(rt; handed_out(rt.alloc(), ONE_ENTRY, &TWO_READS)? == 1);
    Ok(())
}
