// Answers are compared; what they hold is compared block by block.
use cm_history::{Answer, CopyState, OpState};
use lba_ranges::BlockList;
use scsi_sense::Sense;

/// The same blocks, of the same length.
fn same_blocks(a: &BlockList, b: &BlockList) -> bool {
    if a.blocks() != b.blocks() || a.block_length() != b.block_length() {
        return false;
    }
    for block in 0..a.blocks() {
        if a.held(block) != b.held(block) {
            return false;
        }
    }
    true
}

/// The same sense.
fn same_sense(a: &Sense, b: &Sense) -> bool {
    (a.key(), a.asc(), a.ascq()) == (b.key(), b.asc(), b.ascq())
}

/// The same state of an operation.
fn same_state(a: &OpState, b: &OpState) -> bool {
    match (a, b) {
        (OpState::Running, OpState::Running)
        | (OpState::Done, OpState::Done)
        | (OpState::Terminated, OpState::Terminated) => true,
        (OpState::Failed(a), OpState::Failed(b)) => same_sense(a, b),
        _ => false,
    }
}

/// The same state of a copy.
fn same_copy_state(a: CopyState, b: CopyState) -> bool {
    matches!(
        (a, b),
        (CopyState::Running, CopyState::Running)
            | (CopyState::Done, CopyState::Done)
            | (CopyState::Failed, CopyState::Failed)
            | (CopyState::Terminated, CopyState::Terminated)
    )
}

/// Whether two answers without blocks are the same.
fn same_word(a: &Answer, b: &Answer) -> bool {
    match (a, b) {
        (Answer::Done, Answer::Done)
        | (Answer::Idle, Answer::Idle)
        | (Answer::Conflict, Answer::Conflict) => true,
        (Answer::Made { serial: a }, Answer::Made { serial: b }) => a == b,
        (Answer::Refused(a), Answer::Refused(b)) => same_sense(a, b),
        (Answer::Progress { state: a, count: m }, Answer::Progress { state: b, count: n }) => {
            m == n && same_state(a, b)
        }
        _ => false,
    }
}

/// Whether two reports, of an operation or of a copy, are the same.
fn same_report(a: &Answer, b: &Answer) -> bool {
    match (a, b) {
        (Answer::Report(a), Answer::Report(b)) => {
            (a.populate, a.background, a.count, a.serial)
                == (b.populate, b.background, b.count, b.serial)
                && same_state(&a.state, &b.state)
        }
        (Answer::Copy(a), Answer::Copy(b)) => {
            (a.segments, a.bytes) == (b.segments, b.bytes) && same_copy_state(a.state, b.state)
        }
        _ => false,
    }
}

/// Whether two answers on reservations are the same.
fn same_reservation(a: &Answer, b: &Answer) -> bool {
    match (a, b) {
        (
            Answer::Keys {
                generation: a,
                keys: of_a,
            },
            Answer::Keys {
                generation: b,
                keys: of_b,
            },
        ) => a == b && of_a.as_slice() == of_b.as_slice(),
        (
            Answer::Holder {
                generation: a,
                holder: of_a,
            },
            Answer::Holder {
                generation: b,
                holder: of_b,
            },
        ) => a == b && of_a == of_b,
        _ => false,
    }
}

/// Whether two answers are the same.
pub fn is_same(a: &Answer, b: &Answer) -> bool {
    match (a, b) {
        (Answer::Blocks(a), Answer::Blocks(b)) | (Answer::Rod(a), Answer::Rod(b)) => {
            same_blocks(a, b)
        }
        (Answer::Status(a), Answer::Status(b)) => {
            a.len() == b.len()
                && a.as_slice().iter().zip(b.as_slice()).all(|(a, b)| {
                    (a.lba, a.count, a.mapped) == (b.lba, b.count, b.mapped)
                })
        }
        _ => same_word(a, b) || same_report(a, b) || same_reservation(a, b),
    }
}
