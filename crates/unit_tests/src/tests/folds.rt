// Entries that are recorded and dropped.
use super::acts::Asked;
use super::asking::Told;
use super::playing::{AMPLE, Room, Step, play, play_ample};
use std::test::Fail;
use unit_core::FoldEnd;

/// A full record has room once its entries are recorded, and the unit answers as after all of them.
#[test]
fn a_full_record_is_folded(rt: HostRuntime) -> Result<(), Fail> {
    play(
        rt.alloc(),
        Room {
            entries: 2,
            quota: 4096,
            payload: 4096,
        },
        &[],
        &[
            (Step::Ask(Asked::Write(0x22, 0, 2)), Told::Done),
            (Step::Ask(Asked::Write(0x44, 1, 1)), Told::Done),
            (Step::Ask(Asked::Read(0)), Told::Full),
            (Step::Fold, Told::Folded(FoldEnd::All, 0, 2)),
            (Step::Ask(Asked::Read(0)), Told::Blocks(0x22, 0x44)),
            (Step::Ask(Asked::Read(1)), Told::Blocks(0x44, 0)),
            (Step::Ask(Asked::Read(1)), Told::Full),
            (Step::Kept, Told::Count(2)),
            (Step::Dropped, Told::Count(2)),
            (Step::Recorded, Told::Count(2)),
        ],
    )
}

/// An operation goes on and ends, and a token is redeemed, whose entries were dropped.
#[test]
fn a_fold_leaves_what_was_begun(rt: HostRuntime) -> Result<(), Fail> {
    play_ample(
        rt.alloc(),
        &[
            (
                Step::At(
                    100,
                    Asked::Populate {
                        id: 5,
                        timeout: 10,
                        lba: 5,
                        count: 1,
                    },
                ),
                Told::Made(0),
            ),
            (
                Step::Ask(Asked::Start {
                    background: false,
                    byte: 0x33,
                    lba: 0,
                    count: 2048,
                }),
                Told::Running(0),
            ),
            (Step::Fold, Told::Folded(FoldEnd::All, 0, 2)),
            (Step::Ask(Asked::Advance), Told::Running(1024)),
            (Step::End, Told::Ended(1024)),
            (Step::At(105, Asked::Redeem(0)), Told::Rod(0)),
        ],
    )
}

/// A fold stops at the entry that the recorder refuses; the next goes on there.
#[test]
fn a_fold_stops_at_a_failure(rt: HostRuntime) -> Result<(), Fail> {
    play(
        rt.alloc(),
        AMPLE,
        &[2],
        &[
            (Step::Ask(Asked::Read(0)), Told::Blocks(0, 0)),
            (Step::Ask(Asked::Read(1)), Told::Blocks(0, 0)),
            (Step::Fold, Told::Folded(FoldEnd::Failed, 1, 1)),
            (Step::Fold, Told::Folded(FoldEnd::All, 0, 2)),
            (Step::Recorded, Told::Count(2)),
        ],
    )
}

/// Where there is no recorder each entry is kept.
#[test]
fn nothing_is_folded_without_a_recorder(rt: HostRuntime) -> Result<(), Fail> {
    play_ample(
        rt.alloc(),
        &[
            (Step::Ask(Asked::Read(0)), Told::Blocks(0, 0)),
            (Step::FoldNowhere, Told::Folded(FoldEnd::Absent, 1, 0)),
        ],
    )
}
