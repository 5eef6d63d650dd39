// Copies over a port that says what it was told to say.
use crate::tests::made::{GOOD, begun, bytes_of, job, joined, token, written};
use crate::{Copied, CopyFault, Port, PortFault, StreamFault, copy};
use cm_base::{Bytes, Parsed};
use cm_frame::{Reply, Request, read_reply};
use std::alloc::Global;
use std::test::Fail;

/// A port that gives the replies that some bytes spell, and then fails.
#[derive(Drop)]
struct Script {
    alloc: Global,
    replies: Bytes,
    /// Bytes of the replies that were given.
    given: usize,
    last: PortFault,
}

impl Port for Script {
    ghost Talks = { λ p talk q. Unit {0} };

    ghost IsIn = { λ p w. ⊥ };

    fn ask(&mut self, _request: &Request) -> Result<Reply, PortFault> {
        let left = self.replies.as_slice().get(self.given..).unwrap_or(&[]);
        match read_reply(self.alloc, left)? {
            Parsed::Whole { value, used } => {
                self.given = self.given.saturating_add(used);
                Ok(value)
            }
            Parsed::Short | Parsed::Bad { .. } => Err(self.last),
        }
    }

    ghost silent = { λ p. tt };

    ghost goes_on = { λ p q r xs ys first later. tt };

    ghost legal = { λ p w is. absurd is };
}

const BUSY: &str = "080000000000";

const FULL: &str = "280000000000";

/// How the copy ends where the port gives these replies, and then fails so.
fn copied(
    alloc: Global,
    replies: Bytes,
    last: PortFault,
) -> Result<Result<Copied, CopyFault>, Fail> {
    let mut port = Script {
        alloc,
        replies,
        given: 0,
        last,
    };
    Ok(copy(alloc, &job(alloc)?, &mut port))
}

/// How it ends, without a reply or a status that it holds; where the replies are at their end, the port has ended.
fn ended(alloc: Global, replies: Bytes) -> Result<Result<Copied, StreamFault>, Fail> {
    match copied(alloc, replies, PortFault::Ended)? {
        Ok(copied) => Ok(Ok(copied)),
        Err(fault) => Ok(Err(StreamFault::from(fault))),
    }
}

/// How it ends where this is told of its POPULATE TOKEN.
fn ended_at_token(alloc: Global, told: Bytes) -> Result<Result<Copied, StreamFault>, Fail> {
    let good = bytes_of(alloc, &[GOOD])?;
    ended(alloc, joined(alloc, &[good, told])?)
}

/// How it ends where this is told of its write.
fn ended_at_write(alloc: Global, told: Bytes) -> Result<Result<Copied, StreamFault>, Fail> {
    ended(alloc, joined(alloc, &[begun(alloc)?, told])?)
}

const WHOLE: Copied = Copied {
    populates: 1,
    writes: 1,
};

#[test]
fn all_is_told(rt: HostRuntime) -> Result<(), Fail> {
    let told = written(rt.alloc(), "01", "10")?;
    assert!(rt; ended_at_write(rt.alloc(), told)? == Ok(WHOLE));
    Ok(())
}

/// How it ends where two replies tell that the write still runs, and a third tells this.
fn ended_at_third(alloc: Global, status: &str) -> Result<Result<Copied, StreamFault>, Fail> {
    let first = written(alloc, "12", "08")?;
    let second = written(alloc, "12", "0c")?;
    let third = written(alloc, status, "10")?;
    ended_at_write(alloc, joined(alloc, &[first, second, third])?)
}

#[test]
fn three_polls(rt: HostRuntime) -> Result<(), Fail> {
    assert!(rt; ended_at_third(rt.alloc(), "01")? == Ok(WHOLE));
    let polls = StreamFault::Polls { step: 2 };
    assert!(rt; ended_at_third(rt.alloc(), "12")? == Err(polls));
    Ok(())
}

/// Where a step is refused: the POPULATE TOKEN and its status are the first, and the write and its status the second.
#[test]
fn refusals(rt: HostRuntime) -> Result<(), Fail> {
    let alloc = rt.alloc();
    let first = Err(StreamFault::Refused { step: 1 });
    let second = Err(StreamFault::Refused { step: 2 });
    assert!(rt; ended(alloc, bytes_of(alloc, &[BUSY])?)? == first);
    assert!(rt; ended_at_token(alloc, bytes_of(alloc, &[FULL])?)? == first);
    let good = bytes_of(alloc, &[GOOD])?;
    let told = token(alloc, "01", "10")?;
    let full = bytes_of(alloc, &[FULL])?;
    assert!(rt; ended(alloc, joined(alloc, &[good, told, full])?)? == second);
    assert!(rt; ended_at_write(alloc, bytes_of(alloc, &[BUSY])?)? == second);
    Ok(())
}

/// Whether a reply is CHECK CONDITION with this sense.
fn is_check(reply: &Reply, sense: &[u8; 18]) -> bool {
    match reply {
        Reply::Check(found) => found.to_bytes() == *sense,
        _ => false,
    }
}

/// Whether the refusal that came of this reply has it, with this sense.
fn is_refused_with(alloc: Global, reply: Bytes, sense: &[u8; 18]) -> Result<bool, Fail> {
    match copied(alloc, reply, PortFault::Ended)? {
        Err(CopyFault::Refused { step: 1, reply }) => Ok(is_check(&reply, sense)),
        _ => Ok(false),
    }
}

/// LOGICAL BLOCK ADDRESS OUT OF RANGE.
#[test]
fn a_refusal_is_handed_on(rt: HostRuntime) -> Result<(), Fail> {
    let alloc = rt.alloc();
    let reply = bytes_of(
        alloc,
        &["021200000000", "70000500000000", "0a00000000210000000000"],
    )?;
    let sense = [
        0x70, 0, 0x05, 0, 0, 0, 0, 0x0a, 0, 0, 0, 0, 0x21, 0, 0, 0, 0, 0,
    ];
    assert!(rt; is_refused_with(alloc, reply, &sense)?);
    Ok(())
}

#[test]
fn faults_of_the_port(rt: HostRuntime) -> Result<(), Fail> {
    let alloc = rt.alloc();
    for last in [
        PortFault::ReadFault,
        PortFault::WriteFault,
        PortFault::Ended,
        PortFault::BadReply,
    ] {
        match copied(alloc, begun(alloc)?, last)? {
            Err(CopyFault::Port(fault)) => assert!(rt; fault == last),
            _ => assert!(rt; false, "it ended otherwise"),
        }
    }
    match copied(alloc, begun(alloc)?, PortFault::OutOfMemory)? {
        Err(CopyFault::OutOfMemory) => {}
        _ => assert!(rt; false, "it ended otherwise"),
    }
    Ok(())
}

/// The POPULATE TOKEN still runs, or was terminated; it has another count; it is told as a write; and its data are none.
#[test]
fn bad_data_of_a_token(rt: HostRuntime) -> Result<(), Fail> {
    let alloc = rt.alloc();
    for (status, count) in [("12", "10"), ("60", "10"), ("01", "0f")] {
        let told = token(alloc, status, count)?;
        assert!(rt;
            ended_at_token(alloc, told)? == Err(StreamFault::BadData { step: 1 }),
            "{status}"
        );
    }
    let told = written(alloc, "01", "10")?;
    assert!(rt; ended_at_token(alloc, told)? == Err(StreamFault::BadData { step: 1 }));
    let told = bytes_of(alloc, &["000000000226", "00*550"])?;
    assert!(rt; ended_at_token(alloc, told)? == Err(StreamFault::BadData { step: 1 }));
    let told = bytes_of(alloc, &[GOOD])?;
    assert!(rt; ended_at_token(alloc, told)? == Err(StreamFault::BadData { step: 1 }));
    Ok(())
}

/// The write runs in the foreground; it is done, of another count; it failed, without a sense; and it has a token, which
/// is judged before its status.
#[test]
fn bad_data_of_a_write(rt: HostRuntime) -> Result<(), Fail> {
    let alloc = rt.alloc();
    for (status, count) in [("11", "08"), ("01", "0f"), ("02", "08")] {
        let told = written(alloc, status, count)?;
        assert!(rt;
            ended_at_write(alloc, told)? == Err(StreamFault::BadData { step: 2 }),
            "{status}"
        );
    }
    for (status, count) in [("01", "10"), ("12", "08"), ("60", "08")] {
        let told = token(alloc, status, count)?;
        assert!(rt;
            ended_at_write(alloc, told)? == Err(StreamFault::BadData { step: 2 }),
            "{status}"
        );
    }
    Ok(())
}

/// The status with which a write failed.
fn failed_as(alloc: Global, told: Bytes) -> Result<Option<u8>, Fail> {
    match copied(
        alloc,
        joined(alloc, &[begun(alloc)?, told])?,
        PortFault::Ended,
    )? {
        Err(CopyFault::Failed { step: 2, status }) => Ok(Some(status)),
        _ => Ok(None),
    }
}

/// The quota stopped the write, or it was terminated.
#[test]
fn failed_writes(rt: HostRuntime) -> Result<(), Fail> {
    let alloc = rt.alloc();
    let stopped = bytes_of(
        alloc,
        &[
            "000000000036000000321102000000000000021212f1",
            "00*7",
            "08",
            "00*8",
            "70000700000000",
            "0a00000000270700000000",
            "00*4",
        ],
    )?;
    assert!(rt; failed_as(alloc, stopped)? == Some(0x02));
    assert!(rt; failed_as(alloc, written(alloc, "60", "08")?)? == Some(0x60));
    Ok(())
}
