// One connection over units in one thread.
ghost use Rattle.std.specs.Prelude.{◌<◌};

use crate::rows::sessions::{TWO_UNITS, WorkedSession, sessions};
use crate::tests::{Failing, bytes_of, sink_of, source_of};
use cm_base::{Bytes, Config, MemoryLink, SetClock};
use cm_frame::{Parsed, read_header};
use session::{SessionEnd, SessionFault, UnitRuns, session};
use std::alloc::Global;
use std::test::Fail;

/// WRITE (16) of two blocks, and READ (16) of three.
const REQUESTS: &str = "0000040000008a000000000000000000000000020000 11*512 22*512 \
    00000000000088000000000000000000000000030000";

const REPLIES: &str = "000000000000 000000000600 11*512 22*512 00*512";

/// Bytes of the first request, and of both.
const FIRST: usize = 1046;

const BOTH: usize = 1068;

/// One unit of 100 blocks of 4096 bytes.
const LONG_BLOCKS: &str =
    "434d545241434531000102030405060708090a0b0c0d0e0f101112131415161718191a1b1c1d1e1f0001\
0000000000000064000010000000100000000000000000641000000000000000";

/// READ (16) of 20 blocks.
const LONG_READ: &str = "00000000000088000000000000000000000000140000";

/// The configuration that a header spells.
fn config_of(alloc: Global, header: &str) -> Result<Config, Fail> {
    let bytes = bytes_of(alloc, header)?;
    match read_header(alloc, bytes.as_slice())? {
        Parsed::Whole { value, .. } => Ok(value),
        Parsed::Short | Parsed::Bad { .. } => Err(Fail::from("no header")),
    }
}

/// Serves a connection over the units of a configuration.
fn serve_units(alloc: Global, config: &Config, link: &mut MemoryLink) -> Result<SessionEnd, Fail> {
    let mut units = UnitRuns::new(alloc, config.copy(alloc)?, 0)?;
    Ok(session(alloc, config, link, &mut units, &SetClock::new(0)))
}

/// Serves a connection over the units that a header spells.
fn serve(alloc: Global, header: &str, link: &mut MemoryLink) -> Result<SessionEnd, Fail> {
    let config = config_of(alloc, header)?;
    serve_units(alloc, &config, link)
}

/// How many bytes a pull of a connection gives, and how many a push takes.
#[derive(Clone, Copy)]
struct Steps {
    pull: usize,
    push: usize,
}

/// A connection that brings these bytes.
fn link_of(alloc: Global, bytes: Bytes, steps: Steps, failing: Failing) -> Result<MemoryLink, Fail>
    requires pulls { 0 < steps.pull }
    requires pushes { 0 < steps.push }
{
    let source = source_of(alloc, bytes, steps.pull, failing)?;
    Ok(MemoryLink::new(source, sink_of(alloc, steps.push, failing)?))
}

/// A connection that brings the bytes of a text.
fn link_of_text(
    alloc: Global,
    text: &str,
    step: usize,
    failing: Failing,
) -> Result<MemoryLink, Fail>
    requires { 0 < step }
{
    let steps = Steps {
        pull: step,
        push: step,
    };
    link_of(alloc, bytes_of(alloc, text)?, steps, failing)
}

/// The two requests and their replies.
#[derive(Drop)]
struct Worked {
    requests: Bytes,
    replies: Bytes,
}

/// How a session ends, and how many bytes of the replies are taken.
#[derive(Clone, Copy)]
struct Wanted {
    frames: u64,
    fault: Option<SessionFault>,
    taken: usize,
}

impl Worked {
    fn new(alloc: Global) -> Result<Worked, Fail> {
        Ok(Worked {
            requests: bytes_of(alloc, REQUESTS)?,
            replies: bytes_of(alloc, REPLIES)?,
        })
    }

    /// A connection that brings so many bytes of the requests is served as wanted.
    fn is_served(
        &self,
        alloc: Global,
        given: usize,
        steps: Steps,
        failing: Failing,
        wanted: Wanted,
    ) -> Result<bool, Fail>
        requires pulls { 0 < steps.pull }
        requires pushes { 0 < steps.push }
    {
        let given = self.requests.as_slice().get(..given).unwrap_or(&[]);
        let mut link = link_of(alloc, Bytes::copy(alloc, given)?, steps, failing)?;
        let end = serve(alloc, "HEADER", &mut link)?;
        let all_taken = self.replies.as_slice().get(..wanted.taken) == Some(link.taken());
        Ok(end.frames == wanted.frames && end.fault == wanted.fault && all_taken)
    }
}

/// A connection that gives so many bytes of the requests, by pulls and pushes of so many, is served as wanted.
fn is_served(
    alloc: Global,
    given: usize,
    step: usize,
    failing: Failing,
    wanted: Wanted,
) -> Result<bool, Fail>
    requires { 0 < step }
{
    let steps = Steps {
        pull: step,
        push: step,
    };
    let worked = Worked::new(alloc)?;
    worked.is_served(alloc, given, steps, failing, wanted)
}

/// A connection of which no call fails.
fn is_served_whole(alloc: Global, given: usize, step: usize, wanted: Wanted) -> Result<bool, Fail>
    requires { 0 < step }
{
    is_served(alloc, given, step, Failing::nothing(), wanted)
}

#[test]
fn one_session_over_two_requests(rt: HostRuntime) -> Result<(), Fail> {
    let wanted = Wanted {
        frames: 2,
        fault: None,
        taken: 1548,
    };
    for step in [1, 7, 4096] {
        assert!(rt;
            is_served_whole(rt.alloc(), BOTH, step, wanted)?,
            "by {step}"
        );
    }
    Ok(())
}

#[test]
fn a_session_ends_between_two_requests(rt: HostRuntime) -> Result<(), Fail> {
    let wanted = Wanted {
        frames: 1,
        fault: None,
        taken: 6,
    };
    for step in [1, 7, 4096] {
        assert!(rt;
            is_served_whole(rt.alloc(), FIRST, step, wanted)?,
            "by {step}"
        );
    }
    Ok(())
}

#[test]
fn a_session_is_cut_inside_the_second_request(rt: HostRuntime) -> Result<(), Fail> {
    let wanted = Wanted {
        frames: 1,
        fault: Some(SessionFault::Torn),
        taken: 6,
    };
    for given in FIRST + 1..BOTH {
        assert!(rt;
            is_served_whole(rt.alloc(), given, 7, wanted)?,
            "after {given}"
        );
    }
    Ok(())
}

/// The two requests are served as wanted where behind them stands the length of a third one's data.
fn is_served_before_length(alloc: Global, length: u32, wanted: Wanted) -> Result<bool, Fail> {
    let mut worked = Worked::new(alloc)?;
    worked.requests.extend(&length.to_be_bytes())?;
    let steps = Steps { pull: 7, push: 7 };
    worked.is_served(alloc, BOTH + 4, steps, Failing::nothing(), wanted)
}

#[test]
fn a_session_meets_too_much_data(rt: HostRuntime) -> Result<(), Fail> {
    let wanted = Wanted {
        frames: 2,
        fault: Some(SessionFault::BadFrame),
        taken: 1548,
    };
    assert!(rt; is_served_before_length(rt.alloc(), 8_388_609, wanted)?);
    Ok(())
}

/// How a session ends at a pull that fails when so many bytes were pulled: the requests that are whole are
/// answered, and no others.
fn after_pulls(pulled: usize) -> Wanted {
    let (frames, taken) = match pulled {
        ..FIRST => (0, 0),
        FIRST..BOTH => (1, 6),
        _ => (2, 1548),
    };
    Wanted {
        frames,
        fault: Some(SessionFault::ReadFault),
        taken,
    }
}

/// Each of so many pulls fails once, the last of which would have told the end. Few pushes take the replies.
fn is_served_at_each_pull(alloc: Global, step: usize, pulls: usize) -> Result<bool, Fail>
    requires { 0 < step }
{
    let steps = Steps {
        pull: step,
        push: 4096,
    };
    let worked = Worked::new(alloc)?;
    for before in 0..pulls {
        let wanted = after_pulls(step.saturating_mul(before).min(BOTH));
        let failing = Failing::pull(before as u64 + 1);
        if !worked.is_served(alloc, BOTH, steps, failing, wanted)? {
            return Ok(false);
        }
    }
    Ok(true)
}

#[test]
fn each_pull_of_a_session_fails(rt: HostRuntime) -> Result<(), Fail> {
    let alloc = rt.alloc();
    assert!(rt; is_served_at_each_pull(alloc, 1, 1069)?);
    assert!(rt; is_served_at_each_pull(alloc, 7, 154)?);
    assert!(rt; is_served_at_each_pull(alloc, 4096, 2)?);
    Ok(())
}

/// How a session ends at a push that fails when so many bytes were pushed, which are what was taken.
fn after_pushes(taken: usize) -> Wanted {
    Wanted {
        frames: u64::from(taken >= 6),
        fault: Some(SessionFault::WriteFault),
        taken,
    }
}

/// Each push fails once: so many of the first reply, which has 6 bytes, and so many of the second. Few pulls
/// bring the requests.
fn is_served_at_each_push(
    alloc: Global,
    step: usize,
    first: usize,
    second: usize,
) -> Result<bool, Fail>
    requires { 0 < step }
{
    let steps = Steps {
        pull: 4096,
        push: step,
    };
    let worked = Worked::new(alloc)?;
    for before in 0..first.saturating_add(second) {
        let taken = if before < first {
            step.saturating_mul(before)
        } else {
            step.saturating_mul(before - first).saturating_add(6)
        };
        let failing = Failing::push(before as u64 + 1);
        if !worked.is_served(alloc, BOTH, steps, failing, after_pushes(taken))? {
            return Ok(false);
        }
    }
    Ok(true)
}

#[test]
fn each_push_of_a_session_fails(rt: HostRuntime) -> Result<(), Fail> {
    let alloc = rt.alloc();
    assert!(rt; is_served_at_each_push(alloc, 1, 6, 1542)?);
    assert!(rt; is_served_at_each_push(alloc, 7, 1, 221)?);
    assert!(rt; is_served_at_each_push(alloc, 4096, 1, 1)?);
    Ok(())
}

/// One pull behind those of the whole input, and one push behind those of all replies, would fail: none is
/// asked for.
#[test]
fn a_session_pulls_and_pushes_no_more(rt: HostRuntime) -> Result<(), Fail> {
    let wanted = Wanted {
        frames: 2,
        fault: None,
        taken: 1548,
    };
    for (step, pull, push) in [(1, 1070, 1549), (7, 155, 223), (4096, 3, 3)] {
        let failing = Failing {
            pull: Some(pull),
            push: Some(push),
        };
        assert!(rt;
            is_served(rt.alloc(), BOTH, step, failing, wanted)?,
            "by {step}"
        );
    }
    Ok(())
}

/// A worked session is served by pulls and pushes of so many bytes, and replied as was worked out.
fn is_as_worked(alloc: Global, worked: &WorkedSession, step: usize) -> Result<bool, Fail>
    requires { 0 < step }
{
    let mut link = link_of_text(alloc, worked.requests, step, Failing::nothing())?;
    let end = serve(alloc, TWO_UNITS, &mut link)?;
    let replies = bytes_of(alloc, worked.replies)?;
    Ok(end.fault.is_none() && link.taken() == replies.as_slice())
}

fn check_session(alloc: Global, worked: &WorkedSession, step: usize) -> Result<(), Fail>
    requires { 0 < step }
{
    if is_as_worked(alloc, worked, step)? {
        Ok(())
    } else {
        Err(Fail::new(format_args!("{} by {step}", worked.name)))
    }
}

fn check_sessions(alloc: Global, sessions: &[WorkedSession], step: usize) -> Result<(), Fail>
    requires { 0 < step }
{
    for worked in sessions {
        check_session(alloc, worked, step)?;
    }
    Ok(())
}

/// Sessions of every command.
#[test]
fn worked_sessions(rt: HostRuntime) -> Result<(), Fail> {
    for step in [1, 7, 4096] {
        check_sessions(rt.alloc(), sessions(), step)?;
    }
    Ok(())
}

/// A long reply is the whole of what is taken, and the session ends behind it.
fn is_long_reply(alloc: Global) -> Result<bool, Fail> {
    let mut link = link_of_text(alloc, LONG_READ, 100_000, Failing::nothing())?;
    let end = serve(alloc, LONG_BLOCKS, &mut link)?;
    let reply = bytes_of(alloc, "000000014000 00*81920")?;
    Ok(end.frames == 1 && end.fault.is_none() && link.taken() == reply.as_slice())
}

/// A long reply is pushed from where its data stands, behind its head.
#[test]
fn a_session_replies_with_long_data(rt: HostRuntime) -> Result<(), Fail> {
    assert!(rt; is_long_reply(rt.alloc())?);
    Ok(())
}

/// How the session ends whose second push fails, and how many bytes are taken.
fn ends_at_data(alloc: Global) -> Result<(SessionEnd, usize), Fail> {
    let mut link = link_of_text(alloc, LONG_READ, 100_000, Failing::push(2))?;
    let end = serve(alloc, LONG_BLOCKS, &mut link)?;
    Ok((end, link.taken().len()))
}

/// The push of long data, behind that of the head, may fail.
#[test]
fn a_push_of_long_data_fails(rt: HostRuntime) -> Result<(), Fail> {
    let (end, taken) = ends_at_data(rt.alloc())?;
    assert!(rt; end.frames == 0 && end.fault == Some(SessionFault::WriteFault));
    assert_eq!(rt; taken, 6);
    Ok(())
}
