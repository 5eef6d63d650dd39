// The exit status and the line of each end.

use crate::status::Status;
use std::test::Fail;

/// The ends of traces and of serving.
#[test]
fn statuses(rt: HostRuntime) -> Result<(), Fail> {
    let all = [
        (Status::Done, 0, "done"),
        (Status::ReadFault, 1, "read failed"),
        (Status::WriteFault, 2, "write failed"),
        (Status::OutOfMemory, 3, "out of memory"),
        (Status::Torn(74), 4, "input ends inside the part at byte 74"),
        (Status::BadHeader(8), 5, "bad header at byte 8"),
        (
            Status::Usage,
            6,
            "use replay, check, copy [ADDRESS], gen N, store ADDRESS SESSIONS FOLDER, \
             or serve ADDRESS SESSIONS [FOLDER]",
        ),
        (Status::BadRecord(109), 7, "bad record at byte 109"),
        (Status::Records, 8, "too many records"),
        (Status::AcceptFault, 9, "accept failed"),
        (Status::Differs(1555), 10, "replies differ at byte 1555"),
    ];
    for (status, code, line) in all {
        assert!(rt; status.code() == code);
        let told = status.to_string(rt.alloc())?;
        assert!(rt; told.as_str() == line);
    }
    Ok(())
}

/// The ends of journals and of a host's copies.
#[test]
fn statuses_of_journals_and_of_copies(rt: HostRuntime) -> Result<(), Fail> {
    let bad_journal = Status::BadJournal { unit: 3, place: 86 };
    let bad_history = Status::BadHistory { unit: 3, entry: 7 };
    let all = [
        (bad_journal, 11, "bad journal of unit 3 at byte 86"),
        (Status::DiskFault, 12, "disk failed"),
        (Status::Refused(2), 13, "refused at step 2"),
        (Status::CopyFailed(2), 14, "copy failed at step 2"),
        (Status::Polls(2), 15, "still running at step 2"),
        (Status::BadData(1), 16, "bad data at step 1"),
        (Status::Ended, 17, "replies ended"),
        (Status::BadReply, 18, "bad reply"),
        (bad_history, 19, "bad history of unit 3 at entry 7"),
    ];
    for (status, code, line) in all {
        assert!(rt; status.code() == code);
        let told = status.to_string(rt.alloc())?;
        assert!(rt; told.as_str() == line);
    }
    Ok(())
}
