// What has to be written again behind a sync that failed.
use crate::unkept::Unkept;
use std::test::Fail;

/// What is wanted of a file: nothing, a write of so many bytes from a place on, or a sync that fails.
enum Step {
    Wrote(u64, u64),
    Tried(u64, u64),
    Failed,
    Synced,
}

/// All is whole behind these steps.
fn is_whole(steps: &[Step]) -> bool {
    let mut unkept = Unkept::none();
    for step in steps {
        match step {
            Step::Wrote(from, count) => unkept.wrote(*from, *count),
            Step::Tried(from, count) => unkept.tried(*from, *count),
            Step::Failed => unkept.failed(),
            Step::Synced => unkept.synced(),
        }
    }
    unkept.is_whole()
}

/// A sync that failed loses what was written since the last good one, until that is written again whole.
#[test]
fn lost_bytes_are_written_again(rt: HostRuntime) -> Result<(), Fail> {
    assert!(rt; is_whole(&[Step::Wrote(0, 9)]));
    assert!(rt; is_whole(&[Step::Wrote(0, 9), Step::Synced, Step::Failed]));
    assert!(rt; !is_whole(&[Step::Wrote(0, 9), Step::Failed]));
    assert!(rt; !is_whole(&[Step::Tried(0, 9), Step::Failed]));
    assert!(rt; is_whole(&[Step::Wrote(3, 9), Step::Failed, Step::Wrote(0, 12)]));
    Ok(())
}

/// A part does not do, nor does a write that failed; parts one behind the other do, from either end.
#[test]
fn parts_are_written_again(rt: HostRuntime) -> Result<(), Fail> {
    assert!(rt; !is_whole(&[Step::Wrote(3, 9), Step::Failed, Step::Wrote(0, 11)]));
    assert!(rt; !is_whole(&[Step::Wrote(3, 9), Step::Failed, Step::Tried(0, 12)]));
    assert!(rt;
        is_whole(&[
            Step::Wrote(3, 9),
            Step::Failed,
            Step::Wrote(3, 4),
            Step::Wrote(7, 5)
        ])
    );
    assert!(rt;
        is_whole(&[
            Step::Wrote(3, 9),
            Step::Failed,
            Step::Wrote(7, 5),
            Step::Wrote(3, 4)
        ])
    );
    assert!(rt; !is_whole(&[Step::Wrote(3, 9), Step::Failed, Step::Wrote(5, 4)]));
    Ok(())
}
