// The text of each fault.

use crate::fault::ReplayFault;
use std::test::Fail;

/// A fault tells what failed, and where it is of the bytes, at which.
#[test]
fn faults_have_a_text(rt: HostRuntime) -> Result<(), Fail> {
    let all = [
        (ReplayFault::ReadFault, "read failed"),
        (ReplayFault::WriteFault, "write failed"),
        (ReplayFault::OutOfMemory, "out of memory"),
        (
            ReplayFault::Torn { place: 74 },
            "input ends inside the part at byte 74",
        ),
        (ReplayFault::BadHeader { place: 8 }, "bad header at byte 8"),
        (
            ReplayFault::BadRecord { place: 109 },
            "bad record at byte 109",
        ),
        (ReplayFault::Records, "too many records"),
    ];
    for (fault, text) in all {
        let told = fault.to_string(rt.alloc())?;
        assert!(rt; told.as_str() == text);
    }
    Ok(())
}
