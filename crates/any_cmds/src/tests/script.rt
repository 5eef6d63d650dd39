// What a command does in turn, by what comes of its acts.
use super::driving::steps;
use super::outcomes::{Came, outcome_of};
use super::seen::{Seen, seen_of};
use cm_base::{Config, Payload, UnitConfig, UnitList};
use cm_frame::{Reply, Request};
use cmd_program::Step;
use std::alloc::Global;
use std::test::Fail;

/// Two units of 4096 blocks of 512 bytes.
fn two_units(alloc: Global) -> Result<Config, Fail> {
    let unit = UnitConfig {
        blocks: 4096,
        block_length: 512,
        entries: 16,
        quota: 4096,
        payload: 65_536,
        group: 0,
    };
    let units = UnitList::copy(alloc, &[unit, unit])?;
    Ok(Config::new([7; 32], units))
}

/// The steps of a command, of whose acts that came, and its step behind them.
fn played(
    alloc: Global,
    config: &Config,
    request: Request,
    script: &[(Seen, Came)],
) -> Result<Vec<Step>, Fail> {
    let mut outcomes = Vec::new(alloc);
    for row in script {
        outcomes.push(outcome_of(alloc, row.1)?)?;
    }
    steps(alloc, config, request, outcomes)
}

/// The steps are those of the script, and then the last.
fn are_played(steps: &[Step], script: &[(Seen, Came)], last: Seen) -> bool {
    for (place, step) in steps.iter().enumerate() {
        let wanted = match script.get(place) {
            Some(row) => row.0,
            None => last,
        };
        if seen_of(step) != wanted {
            return false;
        }
    }
    true
}

/// The step is GOOD with these bytes.
fn is_good(step: &Step, bytes: &[u8]) -> bool {
    match step {
        Step::Done(Reply::Good(data)) => data.as_slice() == bytes,
        _ => false,
    }
}

/// A command does these things in turn, of which that came, and then the last.
pub(super) fn does(
    alloc: Global,
    config: &Config,
    request: Request,
    script: &[(Seen, Came)],
    last: Seen,
) -> Result<bool, Fail> {
    let steps = played(alloc, config, request, script)?;
    Ok(are_played(steps.as_slice(), script, last))
}

/// A command does these things in turn, of which that came, and is then GOOD with these bytes.
pub(super) fn answers(
    alloc: Global,
    config: &Config,
    request: Request,
    script: &[(Seen, Came)],
    bytes: &[u8],
) -> Result<bool, Fail> {
    let steps = played(alloc, config, request, script)?;
    let last = Seen::Good { bytes: bytes.len() };
    let is_told = matches!(steps.last(), Some(step) if is_good(step, bytes));
    Ok(is_told && are_played(steps.as_slice(), script, last))
}

/// A command of unit 1 does these things in turn, of which that came, and then the last.
pub(super) fn plays(
    alloc: Global,
    cdb: [u8; 16],
    out: Payload,
    script: &[(Seen, Came)],
    last: Seen,
) -> Result<bool, Fail> {
    let config = two_units(alloc)?;
    does(alloc, &config, Request { unit: 1, cdb, out }, script, last)
}

/// A command of unit 1 asks this, of which that came, and then it is GOOD with these bytes.
pub(super) fn tells(
    alloc: Global,
    cdb: [u8; 16],
    asked: (Seen, Came),
    bytes: &[u8],
) -> Result<bool, Fail> {
    let config = two_units(alloc)?;
    let out = Payload::new();
    answers(
        alloc,
        &config,
        Request { unit: 1, cdb, out },
        &[asked],
        bytes,
    )
}

/// The bytes, cut at the allocation length.
pub(super) fn cut(bytes: &[u8], length: u32) -> &[u8] {
    &bytes[..bytes.len().min(length as usize)]
}
