// A job and its replies from a source, and its requests to a sink.
use crate::tests::made::{JOB, begun, bytes_of, joined, source_of, written};
use crate::{Copied, StreamFault, copy_over};
use cm_base::{Bytes, CallList, MemorySink};
use std::alloc::Global;
use std::test::Fail;

/// The requests of the job: a POPULATE TOKEN and its status, and a write with the token and its status.
const REQUESTS: [&str; 3] = [
    "00000030000083100000000000000001000000300000002e02000000012c0080000000000020000000000000000000000008\
0000000000000000000000640000000800000000000000000000840700000001000000000000040000000000022800018311\
000000000000000200000228000002260300000000000000000000000000",
    "77*512",
    "00000000000000100000000000000032000000100000000000000000000184070000000200000000000004000000",
];

/// How a copy of this input ends, whose calls of these numbers fail, and what it pushed.
fn copied(
    alloc: Global,
    input: Bytes,
    pulls: &[u64],
    pushes: &[u64],
) -> Result<(Result<Copied, StreamFault>, MemorySink), Fail> {
    let mut source = source_of(alloc, input, pulls)?;
    let mut sink = MemorySink::new(alloc, 4096, CallList::copy(alloc, pushes)?);
    let end = copy_over(alloc, &mut source, &mut sink);
    Ok((end, sink))
}

/// The job, and the replies to all of its requests.
fn whole(alloc: Global) -> Result<Bytes, Fail> {
    let job = bytes_of(alloc, &[JOB])?;
    joined(alloc, &[job, begun(alloc)?, written(alloc, "01", "10")?])
}

#[test]
fn a_job_is_copied(rt: HostRuntime) -> Result<(), Fail> {
    let alloc = rt.alloc();
    let (end, sink) = copied(alloc, whole(alloc)?, &[], &[])?;
    let wanted = bytes_of(alloc, &REQUESTS)?;
    assert!(rt;
        end == Ok(Copied {
            populates: 1,
            writes: 1
        })
    );
    assert!(rt; sink.as_slice() == wanted.as_slice());
    Ok(())
}

/// How a copy of these bytes ends, which pushes nothing.
fn ended_quietly(alloc: Global, input: &str) -> Result<Result<Copied, StreamFault>, Fail> {
    let (end, sink) = copied(alloc, bytes_of(alloc, &[input])?, &[], &[])?;
    if !sink.as_slice().is_empty() {
        return Err(Fail::from("something was pushed"));
    }
    Ok(end)
}

/// A job without extents, its first 15 bytes, and one that does not poll.
#[test]
fn jobs_are_judged(rt: HostRuntime) -> Result<(), Fail> {
    let alloc = rt.alloc();
    let none = Copied {
        populates: 0,
        writes: 0,
    };
    for (input, end) in [
        ("00000001000000010000000000000000", Ok(none)),
        ("000000010000000100000000000000", Err(StreamFault::Torn)),
        (
            "00000001000000000000000000000000",
            Err(StreamFault::BadJob { place: 4 }),
        ),
    ] {
        assert!(rt; ended_quietly(alloc, input)? == end, "{input}");
    }
    Ok(())
}

/// How many bytes were pushed where these calls fail, and how the copy ended.
fn failed(
    alloc: Global,
    pulls: &[u64],
    pushes: &[u64],
) -> Result<(Result<Copied, StreamFault>, usize), Fail> {
    let (end, sink) = copied(alloc, whole(alloc)?, pulls, pushes)?;
    Ok((end, sink.as_slice().len()))
}

/// A pull of the job, a pull of the first reply, and the second push.
#[test]
fn streams_fail(rt: HostRuntime) -> Result<(), Fail> {
    let alloc = rt.alloc();
    assert!(rt; failed(alloc, &[3], &[])? == (Err(StreamFault::ReadFault), 0));
    assert!(rt; failed(alloc, &[12], &[])? == (Err(StreamFault::ReadFault), 70));
    assert!(rt; failed(alloc, &[], &[2])? == (Err(StreamFault::WriteFault), 70));
    Ok(())
}

/// How a copy ends with these bytes behind its job.
fn ended_behind_job(alloc: Global, behind: &str) -> Result<Result<Copied, StreamFault>, Fail> {
    let (end, _) = copied(alloc, bytes_of(alloc, &[JOB, behind])?, &[], &[])?;
    Ok(end)
}

/// A reply that is cut, and one whose status there is not.
#[test]
fn replies_are_judged(rt: HostRuntime) -> Result<(), Fail> {
    let alloc = rt.alloc();
    assert!(rt; ended_behind_job(alloc, "0000000000")? == Err(StreamFault::Ended));
    assert!(rt; ended_behind_job(alloc, "010000000000")? == Err(StreamFault::BadReply));
    Ok(())
}
