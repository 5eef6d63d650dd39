// What may be asked of a unit.
ghost use Rattle.std.specs.Prelude.{◌≡◌, length};

use super::*;
use cm_history::{CopyEnd, CopyState, TokenText, within_limits};

/// An act, in short.
#[derive(Clone, Copy)]
enum Asked {
    /// So many blocks.
    Read(u32),
    /// So many blocks.
    Capture(u32),
    Close(CopyState),
    Pump,
    Out {
        action: u8,
        scope: u8,
        kind: u8,
    },
    /// By the first token of unit 0, or by a text that no unit made.
    Redeem {
        is_token: bool,
        target: u16,
    },
    /// Of so many unmapped blocks.
    Put {
        block_length: u32,
        count: u32,
    },
    /// Of one block, mapped or not.
    Write {
        is_mapped: bool,
    },
    /// Of blocks 0 and 1, and of two others from `second` on.
    Populate {
        second: u64,
        timeout: u32,
    },
    /// Of so many unmapped blocks to blocks 0 and 1, and to two others from `second` on.
    Start {
        second: u64,
        block_length: u32,
        count: u32,
    },
}

/// A copy's end in a state.
fn close(state: CopyState) -> Act {
    let result = CopyEnd {
        state,
        segments: 0,
        bytes: 0,
    };
    Act::Close { id: 1, result }
}

/// The text of the first token of unit 0, without its nonce; or one that no unit made.
fn text_of(is_token: bool) -> [u8; 512] {
    let mut text = [0; 512];
    if is_token {
        text[1] = 0x80;
        text[6] = 0x01;
        text[7] = 0xf8;
    }
    text
}

/// One block, mapped or not.
fn one_block(alloc: Global, is_mapped: bool) -> Result<BlockList, Fail> {
    if is_mapped {
        mapped_block(alloc)
    } else {
        holes(alloc, 512, 1)
    }
}

/// An act that has a list of blocks or of ranges.
fn with_list(alloc: Global, asked: Asked) -> Result<Act, Fail> {
    match asked {
        Asked::Put {
            block_length,
            count,
        } => Ok(Act::Put {
            lba: 0,
            list: holes(alloc, block_length, count)?,
        }),
        Asked::Write { is_mapped } => Ok(Act::Write {
            lba: 9,
            list: one_block(alloc, is_mapped)?,
        }),
        Asked::Populate { second, timeout } => Ok(Act::Populate {
            id: 1,
            timeout,
            ranges: ranges(alloc, 0, second)?,
        }),
        Asked::Start {
            second,
            block_length,
            count,
        } => start(
            alloc,
            ranges(alloc, 0, second)?,
            holes(alloc, block_length, count)?,
        ),
        _ => Err(Fail::new("an act without a list")),
    }
}

/// The act.
fn act_of(alloc: Global, asked: Asked) -> Result<Act, Fail> {
    match asked {
        Asked::Read(count) => Ok(Act::Read { lba: 9, count }),
        Asked::Capture(count) => Ok(Act::Capture { lba: 0, count }),
        Asked::Close(state) => Ok(close(state)),
        Asked::Pump => Ok(Act::Pump),
        Asked::Out {
            action,
            scope,
            kind,
        } => Ok(Act::PrOut {
            action,
            scope,
            kind,
            key: 1,
            action_key: 2,
        }),
        Asked::Redeem { is_token, target } => Ok(Act::Redeem {
            text: TokenText::new(alloc, &text_of(is_token))?,
            target,
        }),
        _ => with_list(alloc, asked),
    }
}

/// The act may be asked of unit 0.
fn is_allowed(alloc: Global, config: &Config, asked: Asked) -> Result<bool, Fail>
    requires { length config.now.units ≡ 1 }
{
    let act = act_of(alloc, asked)?;
    Ok(within_limits(config, 0, &act))
}

/// Each act may be asked of unit 0, or may not, as told.
fn are_allowed(alloc: Global, asked: &[(Asked, bool)]) -> Result<bool, Fail> {
    let config = one_unit(alloc)?;
    for row in asked {
        if is_allowed(alloc, &config, row.0)? != row.1 {
            return Ok(false);
        }
    }
    Ok(true)
}

fn out(action: u8, scope: u8, kind: u8) -> Asked {
    Asked::Out {
        action,
        scope,
        kind,
    }
}

/// Numbers, states and codes; a service action that is not known, and fields of four bits.
#[test]
fn fields_have_limits(rt: HostRuntime) -> Result<(), Fail> {
    let asked = [
        (Asked::Read(2048), true),
        (Asked::Read(2049), false),
        (Asked::Capture(65_535), true),
        (Asked::Capture(65_536), false),
        (Asked::Close(CopyState::Done), true),
        (Asked::Close(CopyState::Running), false),
        (Asked::Pump, true),
        (out(0x06, 15, 15), true),
        (out(0x05, 0, 1), false),
        (out(0x01, 16, 1), false),
        (out(0x01, 0, 16), false),
    ];
    assert!(rt; are_allowed(rt.alloc(), &asked)?);
    Ok(())
}

fn redeem(is_token: bool, target: u16) -> Asked {
    Asked::Redeem { is_token, target }
}

fn put(block_length: u32, count: u32) -> Asked {
    Asked::Put {
        block_length,
        count,
    }
}

fn populate(second: u64, timeout: u32) -> Asked {
    Asked::Populate { second, timeout }
}

fn started(second: u64, block_length: u32, count: u32) -> Asked {
    Asked::Start {
        second,
        block_length,
        count,
    }
}

/// Texts of tokens, lists of blocks and ranges.
#[test]
fn lists_have_limits(rt: HostRuntime) -> Result<(), Fail> {
    let asked = [
        (redeem(true, 0), true),
        (redeem(true, 1), false),
        (redeem(false, 0), false),
        (put(512, 1024), true),
        (put(512, 1025), false),
        (put(4096, 1), false),
        (Asked::Write { is_mapped: false }, false),
        (Asked::Write { is_mapped: true }, true),
        (populate(2, 1), true),
        (populate(2, 3600), true),
        (populate(2, 0), false),
        (populate(2, 3601), false),
        (populate(1, 1), false),
        (started(2, 512, 4), true),
        (started(2, 512, 3), false),
        (started(1, 512, 4), false),
        (started(2, 4096, 4), false),
    ];
    assert!(rt; are_allowed(rt.alloc(), &asked)?);
    Ok(())
}
