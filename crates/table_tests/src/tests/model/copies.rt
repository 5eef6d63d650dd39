// Answers that are copied. Acts and entries are copied wherever entries are recorded in memory.
use super::*;
use cm_base::KeyList;
use lba_ranges::{MapRun, StatusList};

/// A rod of four blocks.
fn rod(alloc: Global) -> Result<Answer, Fail> {
    Ok(Answer::Rod(holes(alloc, 512, 4)?))
}

/// One run.
fn runs(alloc: Global) -> Result<Answer, Fail> {
    let run = MapRun {
        lba: 5,
        count: 2,
        mapped: true,
    };
    Ok(Answer::Status(StatusList::copy(alloc, &[run])?))
}

/// Two keys.
fn keys(alloc: Global) -> Result<Answer, Fail> {
    let keys = KeyList::copy(alloc, &[0xa1, 0xb2])?;
    Ok(Answer::Keys {
        generation: 3,
        keys,
    })
}

/// How many blocks, runs or keys an answer has.
fn size_of(answer: &Answer) -> u64 {
    match answer {
        Answer::Rod(list) => list.blocks(),
        Answer::Status(list) => list.len() as u64,
        Answer::Keys { keys, .. } => keys.len() as u64,
        _ => 0,
    }
}

/// How many a copy of the answer has.
fn copied(alloc: Global, answer: &Answer) -> Result<u64, Fail> {
    let copy = answer.copy(alloc)?;
    Ok(size_of(&copy))
}

#[test]
fn answers_are_copied(rt: HostRuntime) -> Result<(), Fail> {
    let alloc = rt.alloc();
    assert!(rt; copied(alloc, &rod(alloc)?)? == 4);
    assert!(rt; copied(alloc, &runs(alloc)?)? == 1);
    assert!(rt; copied(alloc, &keys(alloc)?)? == 2);
    Ok(())
}
