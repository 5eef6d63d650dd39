// Checks of a worked trace whose pulls fail. The built program is asked the others, by the tests of the tools.
use crate::rows::{Row, first_path, named};
use crate::status::Status;
use crate::tests::{Failing, bytes_of, ran};
use cm_base::{Bytes, MemorySink};
use std::alloc::Global;
use std::test::Fail;

/// The input of a check.
fn input_of(alloc: Global, trace: &[u8], records: &[u8]) -> Result<Bytes, Fail> {
    let mut input = Bytes::empty(alloc);
    input.extend(&(trace.len() as u64).to_be_bytes())?;
    input.extend(trace)?;
    input.extend(records)?;
    Ok(input)
}

/// How a check of a row with its replies ends, and what it writes.
fn checked(alloc: Global, row: &Row, failing: Failing) -> Result<(Status, MemorySink), Fail> {
    let trace = bytes_of(alloc, row.trace)?;
    let replies = bytes_of(alloc, row.replies)?;
    let input = input_of(alloc, trace.as_slice(), replies.as_slice())?;
    ran(alloc, &["check"], input, 4096, failing)
}

/// The worked replies are right; and a pull that fails, at the length or behind it, ends the check, and nothing is written.
#[test]
fn failed_pulls_end_a_check(rt: HostRuntime) -> Result<(), Fail> {
    let alloc = rt.alloc();
    let row = named(first_path::rows(), "write then read")?;
    let (status, output) = checked(alloc, row, Failing::nothing())?;
    assert!(rt; status == Status::Done && output.as_slice() == b"yes\n".as_slice());
    for pull in [1, 2] {
        let (status, output) = checked(alloc, row, Failing::pull(pull))?;
        assert!(rt;
            status == Status::ReadFault && output.as_slice().is_empty(),
            "{pull}"
        );
    }
    Ok(())
}
