// What a command does, in short.
use super::outcomes::BLOCK;
use cm_frame::Reply;
use cm_history::{Act, CopyState};
use cmd_program::Step;
use lba_ranges::{Range, RangeList};

/// How a closed record says that its copy ended.
#[derive(Drop, Clone, Copy, PartialEq, Eq)]
pub(super) enum End {
    Running,
    Done,
    Failed,
    Terminated,
}

/// What a command does.
#[derive(Drop, Clone, Copy, PartialEq, Eq)]
pub(super) enum Seen {
    Populate {
        id: u32,
        timeout: u32,
        blocks: u64,
    },
    Redeem {
        unit: u16,
        target: u16,
    },
    Start {
        background: bool,
        blocks: u64,
        mapped: bool,
    },
    Advance {
        id: u32,
    },
    End {
        id: u32,
    },
    Delete {
        unit: u16,
        serial: u64,
    },
    Abort {
        id: u32,
    },
    Report {
        id: u32,
    },
    Open {
        unit: u16,
        id: u8,
    },
    Capture {
        unit: u16,
        lba: u64,
        count: u32,
    },
    Put {
        unit: u16,
        lba: u64,
        blocks: u64,
        mapped: bool,
    },
    Close {
        end: End,
        segments: u16,
        bytes: u32,
    },
    Recall {
        unit: u16,
        id: u8,
    },
    PrOut {
        action: u8,
        scope: u8,
        kind: u8,
        key: u64,
        action_key: u64,
    },
    PrKeys {
        unit: u16,
    },
    PrHolder {
        unit: u16,
    },
    Read {
        unit: u16,
        lba: u64,
        count: u32,
    },
    /// So many blocks, of which the first has these bytes or others.
    Write {
        unit: u16,
        lba: u64,
        blocks: u64,
        of_block: bool,
    },
    /// So many ranges, of which this is the first.
    Unmap {
        unit: u16,
        ranges: usize,
        first: Option<(u64, u32)>,
    },
    MapStatus {
        unit: u16,
        lba: u64,
    },
    OtherAct,
    Good {
        bytes: usize,
    },
    Check {
        key: u8,
        asc: u8,
        ascq: u8,
    },
    Conflict,
    Full,
    Busy,
}

/// GOOD without data.
pub(super) const GOOD: Seen = Seen::Good { bytes: 0 };

/// How a copy ended.
fn end_of(state: CopyState) -> End {
    match state {
        CopyState::Running => End::Running,
        CopyState::Done => End::Done,
        CopyState::Failed => End::Failed,
        CopyState::Terminated => End::Terminated,
    }
}

/// The first of the ranges.
fn first_of(ranges: &RangeList) -> Option<(u64, u32)> {
    if ranges.len() == 0 {
        return None;
    }
    let Range { lba, count } = ranges.at(0);
    Some((lba, count))
}

/// What a command of a single act asks for.
fn seen_plain_act(unit: u16, act: &Act) -> Seen {
    match act {
        Act::Read { lba, count } => Seen::Read {
            unit,
            lba: *lba,
            count: *count,
        },
        Act::Write { lba, list } => Seen::Write {
            unit,
            lba: *lba,
            blocks: list.blocks(),
            of_block: list.held(0) == Some(BLOCK.as_slice()),
        },
        Act::Unmap { ranges } => Seen::Unmap {
            unit,
            ranges: ranges.len(),
            first: first_of(ranges),
        },
        Act::MapStatus { lba } => Seen::MapStatus { unit, lba: *lba },
        _ => Seen::OtherAct,
    }
}

/// What a command with tokens asks for, and else what a command of a single act does.
fn seen_token_act(unit: u16, act: &Act) -> Seen {
    match act {
        Act::Populate {
            id,
            timeout,
            ranges,
        } => Seen::Populate {
            id: *id,
            timeout: *timeout,
            blocks: ranges.total(),
        },
        Act::Redeem { target, .. } => Seen::Redeem {
            unit,
            target: *target,
        },
        Act::Start {
            background,
            rod,
            ..
        } => Seen::Start {
            background: *background,
            blocks: rod.list().blocks(),
            mapped: rod.list().held(0).is_some(),
        },
        Act::Advance { id } => Seen::Advance { id: *id },
        Act::End { id } => Seen::End { id: *id },
        Act::Delete { serial } => Seen::Delete {
            unit,
            serial: *serial,
        },
        Act::Abort { id } => Seen::Abort { id: *id },
        Act::Report { id } => Seen::Report { id: *id },
        other => seen_plain_act(unit, other),
    }
}

/// What a command on reservations asks for, and else what a command with tokens does.
fn seen_reservation_act(unit: u16, act: &Act) -> Seen {
    match act {
        Act::PrOut {
            action,
            scope,
            kind,
            key,
            action_key,
        } => Seen::PrOut {
            action: *action,
            scope: *scope,
            kind: *kind,
            key: *key,
            action_key: *action_key,
        },
        Act::PrKeys => Seen::PrKeys { unit },
        Act::PrHolder => Seen::PrHolder { unit },
        other => seen_token_act(unit, other),
    }
}

/// What a copy of segments asks for, and else what another command does.
fn seen_act(unit: u16, act: &Act) -> Seen {
    match act {
        Act::Open { id } => Seen::Open { unit, id: *id },
        Act::Capture { lba, count } => Seen::Capture {
            unit,
            lba: *lba,
            count: *count,
        },
        Act::Put { lba, list } => Seen::Put {
            unit,
            lba: *lba,
            blocks: list.blocks(),
            mapped: list.held(0).is_some(),
        },
        Act::Close { id: 3, result } => Seen::Close {
            end: end_of(result.state),
            segments: result.segments,
            bytes: result.bytes,
        },
        Act::Recall { id } => Seen::Recall { unit, id: *id },
        other => seen_reservation_act(unit, other),
    }
}

/// What a reply is.
fn seen_reply(reply: &Reply) -> Seen {
    match reply {
        Reply::Good(data) => Seen::Good { bytes: data.len() },
        Reply::Check(sense) => Seen::Check {
            key: sense.key(),
            asc: sense.asc(),
            ascq: sense.ascq(),
        },
        Reply::Conflict => Seen::Conflict,
        Reply::Full => Seen::Full,
        Reply::Busy => Seen::Busy,
    }
}

/// What the step of a command does.
pub(super) fn seen_of(step: &Step) -> Seen {
    match step {
        Step::Do { unit, act } => seen_act(*unit, act),
        Step::Done(reply) => seen_reply(reply),
    }
}
