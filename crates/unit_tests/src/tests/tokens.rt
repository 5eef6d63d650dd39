// Tokens that expire and are evicted, and records that are dropped.
use super::acts::Asked;
use super::asking::Told;
use super::playing::{Step, play_ample};
use std::test::Fail;

/// A token is over ten seconds after its last use, and stays so whatever the moment.
#[test]
fn a_token_expires(rt: HostRuntime) -> Result<(), Fail> {
    play_ample(
        rt.alloc(),
        &[
            (
                Step::At(
                    100,
                    Asked::Populate {
                        id: 5,
                        timeout: 10,
                        lba: 5,
                        count: 1,
                    },
                ),
                Told::Made(0),
            ),
            (Step::At(110, Asked::Redeem(0)), Told::Rod(0)),
            (
                Step::At(121, Asked::Redeem(0)),
                Told::Refused(0x05, 0x23, 0x07),
            ),
            (
                Step::At(50, Asked::Redeem(0)),
                Told::Refused(0x05, 0x23, 0x07),
            ),
            (Step::Live, Told::Count(0)),
        ],
    )
}

/// Where 64 tokens are live, one more takes the place of the one that was used least lately.
#[test]
fn the_token_used_least_lately_is_evicted(rt: HostRuntime) -> Result<(), Fail> {
    play_ample(
        rt.alloc(),
        &[
            (Step::Fill(64), Told::Done),
            (Step::At(164, Asked::Redeem(0)), Told::Rod(0)),
            (
                Step::At(
                    165,
                    Asked::Populate {
                        id: 64,
                        timeout: 300,
                        lba: 64,
                        count: 1,
                    },
                ),
                Told::Made(64),
            ),
            (
                Step::At(166, Asked::Redeem(1)),
                Told::Refused(0x05, 0x23, 0x08),
            ),
            (Step::At(166, Asked::Redeem(0)), Told::Rod(0)),
            (Step::Live, Told::Count(64)),
        ],
    )
}

/// The 257th record drops the first.
#[test]
fn the_257th_record_drops_the_first(rt: HostRuntime) -> Result<(), Fail> {
    play_ample(
        rt.alloc(),
        &[
            (Step::Fill(256), Told::Done),
            (Step::Ask(Asked::Report(0)), Told::Ended(1)),
            (
                Step::At(
                    400,
                    Asked::Populate {
                        id: 256,
                        timeout: 300,
                        lba: 256,
                        count: 1,
                    },
                ),
                Told::Made(256),
            ),
            (Step::Ask(Asked::Report(0)), Told::Refused(0x05, 0x24, 0x00)),
            (Step::Ask(Asked::Report(1)), Told::Ended(1)),
            (Step::Kept, Told::Count(260)),
        ],
    )
}
