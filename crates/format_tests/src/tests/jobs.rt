// Jobs of a host copier, and their plans.
use cm_base::{Bytes, Parsed};
use copy_plan::{CutList, ExtentList, Job, JobFault, plan, read_job, write_job};
use lba_ranges::Range;
use std::alloc::Global;
use std::test::Fail;

/// So many extents of so many blocks each, with a block between any two.
fn spaced(alloc: Global, extents: u32, count: u32) -> Result<ExtentList, Fail> {
    let mut list = ExtentList::empty(alloc);
    for index in 0..extents {
        let lba = u64::from(index) * (u64::from(count) + 1);
        list.push(Range { lba, count })?;
    }
    Ok(list)
}

/// The extents of some pairs of a first block and a number of blocks.
fn list_of(alloc: Global, extents: &[(u64, u32)]) -> Result<ExtentList, Fail> {
    let mut list = ExtentList::empty(alloc);
    for &(lba, count) in extents {
        list.push(Range { lba, count })?;
    }
    Ok(list)
}

/// The job that copies some extents to the same blocks of another unit.
fn job_of(alloc: Global, extents: ExtentList) -> Result<Job, Fail> {
    let to = ExtentList::copy(alloc, extents.as_slice())?;
    match Job::new(alloc, 0, 1, 7, extents, to) {
        Ok(job) => Ok(job),
        Err(_) => Err(Fail::from("no job")),
    }
}

/// The ends of the parts of such a copy.
fn ends_of(alloc: Global, extents: ExtentList) -> Result<CutList, Fail> {
    let job = job_of(alloc, extents)?;
    Ok(plan(alloc, &job)?)
}

#[test]
fn parts_end_where_64_extents_or_a_token_end(rt: HostRuntime) -> Result<(), Fail> {
    let alloc = rt.alloc();
    let mut extents = spaced(alloc, 64, 1)?;
    extents.push(Range {
        lba: 1_000,
        count: 2_000_000,
    })?;
    extents.push(Range {
        lba: 500,
        count: 100,
    })?;
    let ends = ends_of(alloc, extents)?;
    assert!(rt; ends.as_slice() == [64, 1_048_640, 2_000_164].as_slice());
    Ok(())
}

/// How a job is read: its bytes, or the place of its fault.
#[derive(Debug, Clone, Copy, PartialEq, Eq)]
enum Ending {
    Whole(usize),
    Short,
    Bad(u64),
}

fn ending_of(alloc: Global, bytes: &[u8]) -> Result<Ending, Fail> {
    Ok(match read_job(alloc, bytes)? {
        Parsed::Whole { used, .. } => Ending::Whole(used),
        Parsed::Short => Ending::Short,
        Parsed::Bad { place } => Ending::Bad(place),
    })
}

/// The bytes of a job whose numbers of extents are told as they are.
fn spelled(
    alloc: Global,
    polls: u32,
    from: &[(u64, u32)],
    to: &[(u64, u32)],
) -> Result<Bytes, Fail> {
    let mut bytes = Bytes::empty(alloc);
    spell_front(&mut bytes, polls, [from.len(), to.len()])?;
    spell_extents(&mut bytes, from)?;
    spell_extents(&mut bytes, to)?;
    Ok(bytes)
}

/// Adds the numbers of the units and the polls, and how many extents there are.
fn spell_front(bytes: &mut Bytes, polls: u32, extents: [usize; 2]) -> Result<(), Fail> {
    bytes.extend(&[0, 2, 0, 3])?;
    bytes.extend(&polls.to_be_bytes())?;
    for count in extents {
        bytes.extend(&(count as u64).to_be_bytes()[4..])?;
    }
    Ok(())
}

/// Adds the bytes of extents.
fn spell_extents(bytes: &mut Bytes, extents: &[(u64, u32)]) -> Result<(), Fail> {
    for (lba, count) in extents {
        bytes.extend(&lba.to_be_bytes())?;
        bytes.extend(&count.to_be_bytes())?;
    }
    Ok(())
}

/// How a job of these extents is read.
fn read(alloc: Global, from: &[(u64, u32)], to: &[(u64, u32)]) -> Result<Ending, Fail> {
    let bytes = spelled(alloc, 5, from, to)?;
    ending_of(alloc, bytes.as_slice())
}

#[test]
fn a_front_is_judged_when_it_is_whole(rt: HostRuntime) -> Result<(), Fail> {
    let fronts: [(&[u8], Ending); 7] = [
        (b"\0\0\0\x01\0\0\0\x01\0\0\0\0\0\0\0\0", Ending::Whole(16)),
        (b"\0\0\0\x01\0\0\0\x01\0\0\0\0\0\0\0", Ending::Short),
        // No polls, 65,537 sources, 65,537 targets, 65,536 of both.
        (
            b"\0\0\0\x01\0\0\0\0\0\x01\0\x01\0\x01\0\x01",
            Ending::Bad(4),
        ),
        (b"\0\0\0\x01\0\0\0\0\0\x01\0\x01\0\x01\0", Ending::Short),
        (
            b"\0\0\0\x01\0\0\0\x01\0\x01\0\x01\0\x01\0\x01",
            Ending::Bad(8),
        ),
        (
            b"\0\0\0\x01\0\0\0\x01\0\x01\0\0\0\x01\0\x01",
            Ending::Bad(12),
        ),
        (b"\0\0\0\x01\0\0\0\x01\0\x01\0\0\0\x01\0\0", Ending::Short),
    ];
    for (front, ending) in fronts {
        assert!(rt; ending_of(rt.alloc(), front)? == ending);
    }
    Ok(())
}

#[test]
fn extents_are_judged_when_all_are_there(rt: HostRuntime) -> Result<(), Fail> {
    type Extents = &'static [(u64, u32)];
    let jobs: [(Extents, Extents, Ending); 7] = [
        (&[(0, 8), (100, 8)], &[(50, 16)], Ending::Whole(52)),
        (&[(0, 8), (100, 0)], &[(50, 8)], Ending::Bad(28)),
        (&[(0, 8)], &[(50, 7), (u64::MAX, 1)], Ending::Whole(52)),
        (&[(0, 9)], &[(50, 7), (u64::MAX, 2)], Ending::Bad(40)),
        (&[(8, 8), (20, 2), (0, 9)], &[(50, 19)], Ending::Bad(0)),
        (&[(0, 19)], &[(50, 9), (58, 10)], Ending::Bad(0)),
        (&[(0, 8)], &[(50, 9)], Ending::Bad(0)),
    ];
    for (from, to, ending) in jobs {
        assert!(rt; read(rt.alloc(), from, to)? == ending);
    }
    Ok(())
}

/// The last byte is missing behind an extent of no block.
#[test]
fn a_fault_waits_for_the_last_byte(rt: HostRuntime) -> Result<(), Fail> {
    let bytes = spelled(rt.alloc(), 5, &[(0, 8), (100, 0)], &[(50, 8)])?;
    let ending = match bytes.as_slice() {
        [front @ .., 8] => ending_of(rt.alloc(), front)?,
        _ => Ending::Bad(0),
    };
    assert!(rt; ending == Ending::Short);
    Ok(())
}

#[test]
fn a_job_has_at_most_as_many_blocks_as_a_unit(rt: HostRuntime) -> Result<(), Fail> {
    let alloc = rt.alloc();
    let half = 1 << 31;
    let most = [(0, half), (1 << 40, half)];
    assert!(rt; read(alloc, &most, &most)? == Ending::Whole(64));
    let more = [(0, half), (1 << 40, half + 1)];
    assert!(rt; read(alloc, &more, &more)? == Ending::Bad(0));
    Ok(())
}

/// The job that these bytes spell.
fn job_in(alloc: Global, bytes: &[u8]) -> Result<Job, Fail> {
    match read_job(alloc, bytes)? {
        Parsed::Whole { value, .. } => Ok(value),
        _ => Err(Fail::from("no job")),
    }
}

/// The job copies 16 blocks in two extents of unit 2 to one extent of unit 3, and polls nine times.
fn is_as_spelled(job: &Job) -> bool {
    let units = job.source() == 2 && job.target() == 3;
    let extents = job.from().len() == 2 && job.to().len() == 1;
    units && extents && job.blocks() == 16 && job.polls() == 9
}

/// The job is written in these bytes.
fn is_written_as(alloc: Global, job: &Job, bytes: &[u8]) -> Result<bool, Fail> {
    let written = write_job(alloc, job)?;
    Ok(written.as_slice() == bytes)
}

#[test]
fn a_job_is_read_and_written(rt: HostRuntime) -> Result<(), Fail> {
    let alloc = rt.alloc();
    let bytes = spelled(alloc, 9, &[(0, 8), (100, 8)], &[(50, 16)])?;
    let job = job_in(alloc, bytes.as_slice())?;
    assert!(rt; is_as_spelled(&job) && is_written_as(alloc, &job, bytes.as_slice())?);
    Ok(())
}

/// Why a job of these extents is none.
fn fault_of(
    alloc: Global,
    polls: u32,
    from: &[(u64, u32)],
    to: &[(u64, u32)],
) -> Result<Option<JobFault>, Fail> {
    let from = list_of(alloc, from)?;
    Ok(Job::new(alloc, 0, 1, polls, from, list_of(alloc, to)?).err())
}

#[test]
fn a_job_is_refused_for_its_first_fault(rt: HostRuntime) -> Result<(), Fail> {
    let alloc = rt.alloc();
    assert!(rt; fault_of(alloc, 0, &[(0, 0)], &[])? == Some(JobFault::NoPolls));
    let bad = Some(JobFault::BadExtent { index: 2 });
    assert!(rt; fault_of(alloc, 1, &[(0, 9), (0, 9)], &[(u64::MAX, 2)])? == bad);
    assert!(rt; fault_of(alloc, 1, &[(0, 9), (8, 9)], &[])? == Some(JobFault::SharedBlock));
    assert!(rt; fault_of(alloc, 1, &[(0, 9)], &[(0, 8)])? == Some(JobFault::BadTotals));
    assert!(rt; fault_of(alloc, 1, &[(0, 9)], &[(0, 9)])?.is_none());
    Ok(())
}

#[test]
fn a_fault_has_a_text(rt: HostRuntime) -> Result<(), Fail> {
    let fault = JobFault::BadExtent { index: 3 };
    let text = format!(in rt.alloc(); "{fault}; {}", JobFault::SharedBlock)?;
    assert!(rt; text.as_str() == "extent 3 is empty or too far; two extents share a block");
    Ok(())
}
