// Operations, from their beginning to their end.
use super::acts::Asked;
use super::asking::Told;
use super::playing::{Room, Step, play, play_ample};
use std::test::Fail;

/// The second piece would go over the quota: none of it is written, and the operation has failed.
#[test]
fn a_write_meets_the_quota(rt: HostRuntime) -> Result<(), Fail> {
    play(
        rt.alloc(),
        Room {
            entries: 16,
            quota: 1024,
            payload: 4096,
        },
        &[],
        &[
            (
                Step::Ask(Asked::Start {
                    background: false,
                    byte: 0x33,
                    lba: 0,
                    count: 2048,
                }),
                Told::Running(0),
            ),
            (Step::Ask(Asked::Advance), Told::Running(1024)),
            (
                Step::Ask(Asked::Advance),
                Told::Stopped(1024, 0x07, 0x27, 0x07),
            ),
            (Step::Ask(Asked::Advance), Told::Refused(0x05, 0x24, 0x00)),
            (Step::Ask(Asked::Read(1023)), Told::Blocks(0x33, 0)),
            (Step::Mapped, Told::Count(1024)),
        ],
    )
}

/// An operation that was ended or aborted writes nothing more.
#[test]
fn operations_are_ended(rt: HostRuntime) -> Result<(), Fail> {
    play_ample(
        rt.alloc(),
        &[
            (
                Step::Ask(Asked::Start {
                    background: false,
                    byte: 0x33,
                    lba: 0,
                    count: 1,
                }),
                Told::Running(0),
            ),
            (Step::End, Told::Ended(0)),
            (
                Step::Ask(Asked::Start {
                    background: true,
                    byte: 0x33,
                    lba: 0,
                    count: 1,
                }),
                Told::Running(0),
            ),
            (Step::Abort, Told::Done),
            (Step::Pump, Told::Idle),
            (Step::Ask(Asked::Read(0)), Told::Blocks(0, 0)),
            (Step::Runs(false, 2), Told::Runs(false)),
        ],
    )
}

/// A copy runs from its opening to its close.
#[test]
fn a_copy_is_closed(rt: HostRuntime) -> Result<(), Fail> {
    play_ample(
        rt.alloc(),
        &[
            (Step::Ask(Asked::Open), Told::Done),
            (Step::Runs(true, 3), Told::Runs(true)),
            (Step::Close, Told::Done),
            (Step::Runs(true, 3), Told::Runs(false)),
        ],
    )
}

/// An initiator has to end its copy, and not what the pump writes.
#[test]
fn a_copy_is_unended(rt: HostRuntime) -> Result<(), Fail> {
    play_ample(
        rt.alloc(),
        &[
            (
                Step::Ask(Asked::Start {
                    background: true,
                    byte: 0x33,
                    lba: 0,
                    count: 1,
                }),
                Told::Running(0),
            ),
            (Step::Unended, Told::Unended(None)),
            (Step::Ask(Asked::Open), Told::Done),
            (Step::Unended, Told::Unended(Some((1, true, 3)))),
            (Step::Close, Told::Done),
            (Step::Unended, Told::Unended(None)),
        ],
    )
}
