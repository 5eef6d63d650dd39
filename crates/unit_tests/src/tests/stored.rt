// How many versions of blocks a unit keeps, act by act.
use super::acts::Asked;
use super::asking::Told;
use super::playing::{Step, play_ample};
use std::test::Fail;

/// A version goes where no token shows it and the block was written again.
#[test]
fn versions_are_kept_while_a_token_shows_them(rt: HostRuntime) -> Result<(), Fail> {
    play_ample(
        rt.alloc(),
        &[
            (Step::Ask(Asked::Write(0x11, 0, 2)), Told::Done),
            (Step::Stored, Told::Count(2)),
            (
                Step::Ask(Asked::Populate {
                    id: 1,
                    timeout: 100,
                    lba: 0,
                    count: 2,
                }),
                Told::Made(0),
            ),
            (Step::Stored, Told::Count(2)),
            (Step::Ask(Asked::Write(0x22, 0, 1)), Told::Done),
            (Step::Stored, Told::Count(3)),
            (Step::Ask(Asked::Unmap(1)), Told::Done),
            (Step::Stored, Told::Count(3)),
            (Step::StartRedeemed, Told::Running(0)),
            (Step::Stored, Told::Count(3)),
            (Step::Ask(Asked::Advance), Told::Ended(2)),
            (Step::Stored, Told::Count(5)),
            (Step::Ask(Asked::Delete(0)), Told::Done),
            (Step::Stored, Told::Count(3)),
        ],
    )
}

/// The same bytes written again are another version, and a token that is over shows none.
#[test]
fn equal_bytes_are_two_versions(rt: HostRuntime) -> Result<(), Fail> {
    play_ample(
        rt.alloc(),
        &[
            (Step::Ask(Asked::Write(0x11, 5, 1)), Told::Done),
            (Step::Stored, Told::Count(1)),
            (
                Step::At(
                    100,
                    Asked::Populate {
                        id: 5,
                        timeout: 10,
                        lba: 5,
                        count: 1,
                    },
                ),
                Told::Made(0),
            ),
            (Step::Stored, Told::Count(1)),
            (Step::Ask(Asked::Write(0x11, 5, 1)), Told::Done),
            (Step::Stored, Told::Count(2)),
            (
                Step::At(121, Asked::Redeem(0)),
                Told::Refused(0x05, 0x23, 0x07),
            ),
            (Step::Stored, Told::Count(1)),
        ],
    )
}

/// Tokens of blocks that nobody wrote, or of the same blocks, keep nothing more.
#[test]
fn tokens_share_versions(rt: HostRuntime) -> Result<(), Fail> {
    play_ample(
        rt.alloc(),
        &[
            (Step::Ask(Asked::Write(0x11, 0, 4)), Told::Done),
            (Step::Fill(64), Told::Done),
            (Step::Fill(8), Told::Done),
            (Step::Live, Told::Count(64)),
            (Step::Stored, Told::Count(4)),
        ],
    )
}

/// Sixty-four tokens of a full unit, each of another state of its blocks, keep its blocks and one version for each block
/// that was written behind a token.
#[test]
fn sixty_four_tokens_of_a_full_unit(rt: HostRuntime) -> Result<(), Fail> {
    play_ample(
        rt.alloc(),
        &[
            (Step::Ask(Asked::Write(0x11, 0, 2048)), Told::Done),
            (Step::Ask(Asked::Write(0x11, 2048, 2048)), Told::Done),
            (Step::Stored, Told::Count(4096)),
            (Step::Freeze, Told::Done),
            (Step::Live, Told::Count(64)),
            (Step::Stored, Told::Count(4159)),
        ],
    )
}
