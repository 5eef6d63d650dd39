// What comes of the acts of a command.
use cm_base::{Holder, KeyList, Payload};
use cm_history::{Answer, CopyEnd, CopyState, OpReport, OpState};
use cmd_program::Outcome;
use lba_ranges::{BlockList, Fill, MapRun, Piece, StatusList};
use scsi_sense::Sense;
use std::alloc::Global;
use std::test::Fail;

/// What comes of an act.
#[derive(Drop, Clone, Copy)]
pub(super) enum Came {
    Done,
    Made,
    /// The blocks of a token: so many, of which only the fifth is mapped.
    Rod { blocks: u32 },
    Progress(OpState),
    /// Of a POPULATE TOKEN of three blocks.
    Report,
    /// So many blocks, of which only that behind the first 1024 is mapped.
    Blocks { count: u32 },
    /// Two blocks, of which only the first is mapped.
    HalfMapped,
    /// Two mapped blocks from LBA 7 on, and 91 unmapped ones behind them.
    Runs,
    /// The copy of two segments, 769,024 bytes, is done.
    Copied,
    /// Generation 1, and the key 1234h.
    Keys,
    /// Generation 1, and a reservation of type 1 whose holder has the key 1234h.
    Holder,
    /// Generation 1, and no reservation.
    Unheld,
    Conflict,
    Refused(Sense),
    Full,
    NoMemory,
}

/// The bytes of a block.
pub(super) const BLOCK: [u8; 512] = [0x5a; 512];

/// So many blocks, of which only that behind these first ones is mapped.
fn blocks(alloc: Global, first: u32, count: u32) -> Result<BlockList, Fail> {
    let mut list = BlockList::empty(alloc, 512);
    list.push(Piece {
        count: count.min(first),
        fill: Fill::Hole,
    })?;
    if count > first {
        list.push(Piece {
            count: 1,
            fill: Fill::Bytes(Payload::copy_from_slice(alloc, &BLOCK)?),
        })?;
        list.push(Piece {
            count: count - first - 1,
            fill: Fill::Hole,
        })?;
    }
    Ok(list)
}

/// Two blocks of 512 bytes, of which the second is unmapped.
fn half_mapped(alloc: Global) -> Result<BlockList, Fail> {
    let mut list = BlockList::empty(alloc, 512);
    list.push(Piece {
        count: 1,
        fill: Fill::Bytes(Payload::copy_from_slice(alloc, &BLOCK)?),
    })?;
    list.push(Piece {
        count: 1,
        fill: Fill::Hole,
    })?;
    Ok(list)
}

/// Two mapped blocks from LBA 7 on, and 91 unmapped ones behind them.
fn runs(alloc: Global) -> Result<StatusList, Fail> {
    let mapped = MapRun {
        lba: 7,
        count: 2,
        mapped: true,
    };
    let unmapped = MapRun {
        lba: 9,
        count: 91,
        mapped: false,
    };
    Ok(StatusList::copy(alloc, &[mapped, unmapped])?)
}

/// The report on a POPULATE TOKEN of three blocks.
fn report() -> OpReport {
    OpReport {
        populate: true,
        background: false,
        state: OpState::Done,
        count: 3,
        serial: Some(5),
    }
}

/// The end of a copy of two segments.
fn copied() -> CopyEnd {
    CopyEnd {
        state: CopyState::Done,
        segments: 2,
        bytes: 769_024,
    }
}

/// Generation 1, and this holder of a reservation.
fn held_by(holder: Option<Holder>) -> Answer {
    Answer::Holder {
        generation: 1,
        holder,
    }
}

/// What an act is answered, where it is.
fn answer_of(alloc: Global, came: Came) -> Result<Answer, Fail> {
    match came {
        Came::Done => Ok(Answer::Done),
        Came::Made => Ok(Answer::Made { serial: 5 }),
        Came::Rod { blocks: count } => Ok(Answer::Rod(blocks(alloc, 4, count)?)),
        Came::Progress(state) => Ok(Answer::Progress { state, count: 0 }),
        Came::Report => Ok(Answer::Report(report())),
        Came::Blocks { count } => Ok(Answer::Blocks(blocks(alloc, 1024, count)?)),
        Came::HalfMapped => Ok(Answer::Blocks(half_mapped(alloc)?)),
        Came::Runs => Ok(Answer::Status(runs(alloc)?)),
        Came::Copied => Ok(Answer::Copy(copied())),
        Came::Keys => Ok(Answer::Keys {
            generation: 1,
            keys: KeyList::copy(alloc, &[0x1234])?,
        }),
        Came::Holder => Ok(held_by(Some(Holder {
            key: 0x1234,
            kind: 1,
        }))),
        Came::Unheld => Ok(held_by(None)),
        Came::Conflict => Ok(Answer::Conflict),
        Came::Refused(sense) => Ok(Answer::Refused(sense)),
        Came::Full | Came::NoMemory => Err(Fail::new("the act is not answered")),
    }
}

/// The outcome of an act.
pub(super) fn outcome_of(alloc: Global, came: Came) -> Result<Outcome, Fail> {
    match came {
        Came::Full => Ok(Outcome::Full),
        Came::NoMemory => Ok(Outcome::NoMemory),
        _ => Ok(Outcome::Answered(answer_of(alloc, came)?)),
    }
}
