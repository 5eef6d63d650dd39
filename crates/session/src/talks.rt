ghost use Rattle.std.specs.Prelude.{◌≡◌, ◌≤◌, ◌<◌, ◌-◌, ◌+◌, ◌++◌, ℕ, List, Option, [], IfOk, IfErr, OnOk, OnErr, true};
ghost use Rattle.std.specs.Io.KnownBytes.{Appends};
ghost use Rattle.cm_base.specs.Outside.{Faulted};
ghost use Rattle.cm_frame.specs.declared.frame.Request.{Request};
ghost use Rattle.cm_frame.specs.Grammar.{reply_bytes};
ghost use Rattle.cmd_program.specs.Meaning.{IsOfLength};
ghost use Rattle.cmd_program.specs.Running.{Call};
ghost use Rattle.cmd_program.specs.Judging.{step};
ghost use Rattle.cm_base.specs.Sides.{IsCut};
ghost use Rattle.cm_frame.specs.Framing.{frames_limit};
ghost use Rattle.session.specs.Spoken.{Spoken};
ghost use Rattle.cmd_program.specs.Short.{AreShort};
ghost use Rattle.session.specs.inner.Talking.{IsHeard, IsHeardTo, Hears, IsAt, HasTurned, IsCountedBy, IsSettledBy, ended, fault_of, IsWriteEnd, end_of};

use crate::driver::answer;
use crate::end::SessionFault;
use cm_base::{Clock, Config, FillFailed, Link, OutOfMemory, Sink, WriteFailed, push_all};
use cm_frame::{Framed, Framer, Reply, Request, reply_head, stays_judged_law, write_reply};
use cmd_program::{Runs, Unsettled};
use std::alloc::Global;

/// Requests that one connection may have.
const FRAMES: u64 = 4_294_967_295;

/// Data that is so long is pushed from where it stands; shorter data goes out in one push with its head.
const LONG: usize = 65_536;

impl From<OutOfMemory> for SessionFault {
    ghost use Rattle.session.specs.declared.end.SessionFault.{SessionFault};

    ghost from_gives = { λ _ e. e ≡ SessionFault.OutOfMemory };

    fn from(_: OutOfMemory) -> SessionFault {
        SessionFault::OutOfMemory
    }
}

impl From<WriteFailed> for SessionFault {
    ghost use Rattle.session.specs.declared.end.SessionFault.{SessionFault};

    ghost from_gives = { λ _ e. e ≡ SessionFault.WriteFault };

    fn from(_: WriteFailed) -> SessionFault {
        SessionFault::WriteFault
    }
}

impl From<FillFailed> for SessionFault {
    ghost use Rattle.session.specs.Talking.{fault_from};

    ghost from_gives = { λ f e. e ≡ fault_from f };

    fn from(failed: FillFailed) -> SessionFault {
        match failed {
            FillFailed::Read => SessionFault::ReadFault,
            FillFailed::OutOfMemory => SessionFault::OutOfMemory,
        }
    }
}

impl From<Unsettled> for SessionFault {
    ghost use Rattle.session.specs.declared.end.SessionFault.{SessionFault};

    ghost from_gives = { λ _ e. e ≡ SessionFault.Unsettled };

    fn from(_: Unsettled) -> SessionFault {
        SessionFault::Unsettled
    }
}

/// A connection that is being served.
#[derive(Drop)]
pub(crate) struct Talk {
    alloc: Global,
    /// Bytes that were pulled and not used yet.
    input: Framer,
    /// Replies that were pushed whole.
    pub(crate) frames: u64,
}

/// Pushes these bytes and then those. A fault leaves a beginning of them all, and not all.
fn push_both<K: Sink>(link: &mut K, front: &[u8], behind: &[u8]) -> Result<(), WriteFailed>
    ensures grown { OnOk result (Appends (K.taken link.old) (K.taken link.new) (front.now ++ behind.now)) }
    ensures sound { OnOk result (K.write_faults link.new ≡ K.write_faults link.old) }
    ensures begun { OnErr result ((pushed : List ℕ) × IsCut pushed (front.now ++ behind.now)
        × Appends (K.taken link.old) (K.taken link.new) pushed) }
    ensures faulted { OnErr result (Faulted (K.write_faults link.old) (K.write_faults link.new)) }
    ensures apart { K.unpushed link.new ≡ K.unpushed link.old }
{
    push_all(link, front)?;
    push_all(link, behind)
}

/// Pushes a reply that is gathered first. A fault leaves a beginning of it, and not all.
fn push_gathered<K: Sink>(alloc: Global, link: &mut K, reply: &Reply) -> Result<(), SessionFault>
    requires { IsOfLength reply.now }
    ensures ok { OnOk result (Appends (K.taken link.old) (K.taken link.new) (reply_bytes reply.now)) }
    ensures begun { OnErr result ((front : List ℕ) × IsCut front (reply_bytes reply.now)
        × Appends (K.taken link.old) (K.taken link.new) front) }
    ensures memory { IfErr result IsWriteEnd }
    ensures counted { (reads : ℕ) → IsCountedBy reads reads (K.write_faults link.old) (K.write_faults link.new) result }
    ensures apart { K.unpushed link.new ≡ K.unpushed link.old }
{
    let bytes = write_reply(alloc, reply)?;
    push_all(link, bytes.as_slice())?;
    Ok(())
}

/// Pushes a reply of a nexus, all of whose commands are settled. A fault leaves a beginning of it, and not all.
fn reply<K: Sink, R: Runs>(
    alloc: Global,
    link: &mut K,
    _actor: &R,
    reply: &Reply,
) -> Result<(), SessionFault>
    requires fits { IsOfLength reply.now }
    requires settled { R.Settled _actor.now }
    ensures ok { OnOk result (Appends (K.taken link.old) (K.taken link.new) (reply_bytes reply.now)) }
    ensures begun { OnErr result ((front : List ℕ) × IsCut front (reply_bytes reply.now)
        × Appends (K.taken link.old) (K.taken link.new) front) }
    ensures memory { IfErr result IsWriteEnd }
    ensures counted { (reads : ℕ) → IsCountedBy reads reads (K.write_faults link.old) (K.write_faults link.new) result }
    ensures apart { K.unpushed link.new ≡ K.unpushed link.old }
{
    match reply {
        Reply::Good(data) if data.len() >= LONG => {
            push_both(link, &reply_head(reply), data.as_slice())?;
            Ok(())
        }
        _ => push_gathered(alloc, link, reply),
    }
}

impl Talk {
    /// A connection of which nothing was pulled yet.
    pub(crate) fn new(alloc: Global) -> Talk
        ensures frames { result.frames ≡ 0 }
        ensures input { result.input ≡ [] }
    {
        Talk {
            alloc,
            input: Framer::new(alloc),
            frames: 0,
        }
    }

    /// Pulls until the next request is whole. There is none where the input ends between two requests.
    fn next<K: Link>(&mut self, link: &mut K) -> Result<Option<Request>, SessionFault>
        requires { self.old.frames < frames_limit }
        ensures heard { (left : Option (List ℕ)) (requests : List Request)
            → IsHeard left (K.left link.old) requests (frames_limit - self.old.frames) self.old.input
            → Hears left (K.left link.new) requests (frames_limit - self.old.frames) self.new.input result }
        ensures counted { (writes : ℕ) → IsCountedBy (K.read_faults link.old) (K.read_faults link.new) writes writes result }
        ensures unsettled { (n : ℕ) → IsSettledBy n n result }
        ensures frames { self.new.frames ≡ self.old.frames }
        ensures apart { K.unpulled link.new ≡ K.unpulled link.old }
    {
        stays_judged_law();
        'pulls: loop {
            match self.input.take()? {
                Framed::Request(request) => return Ok(Some(request)),
                Framed::Bad => return Err(SessionFault::BadFrame),
                Framed::NotYet => {}
            }
            if self.input.fill(link)? == 0 {
                return self.at_end();
            }
        }
    }

    /// At the end of the input: between two requests, or inside one.
    fn at_end(&self) -> Result<Option<Request>, SessionFault>
        ensures { result ≡ end_of self.now.input }
    {
        if self.input.is_empty() {
            Ok(None)
        } else {
            Err(SessionFault::Torn)
        }
    }

    /// Behind the last request that is allowed no byte may follow.
    fn end<K: Link>(&mut self, link: &mut K) -> Result<(), SessionFault>
        requires { self.old.frames ≡ frames_limit }
        ensures heard { (left : Option (List ℕ)) (requests : List Request)
            → IsHeard left (K.left link.old) requests 0 self.old.input
            → IsHeardTo left (K.left link.new) requests (fault_of result) }
        ensures counted { (writes : ℕ) → IsCountedBy (K.read_faults link.old) (K.read_faults link.new) writes writes result }
        ensures unsettled { (n : ℕ) → IsSettledBy n n result }
        ensures frames { self.new.frames ≡ self.old.frames }
        ensures apart { K.unpulled link.new ≡ K.unpulled link.old }
    {
        if self.input.is_empty() && self.input.fill(link)? == 0 {
            return Ok(());
        }
        Err(SessionFault::Frames)
    }

    /// Answers the next request. Whether there was one.
    fn turn<K: Link, R: Runs, C: Clock>(
        &mut self,
        config: &Config,
        link: &mut K,
        actor: &mut R,
        clock: &C,
    ) -> Result<bool, SessionFault>
        requires frames { self.old.frames < frames_limit }
        requires config { R.config actor.old ≡ config.now }
        requires short { AreShort config.now }
        ensures turned { (calls : List Call) (left taken : Option (List ℕ))
            → IsAt config.now (R.number actor.old) (C.shows clock.now) (R.StandsFor actor.old) (R.Settled actor.old) calls left (K.left link.old) taken (K.taken link.old) self.old.frames self.old.input
            → HasTurned config.now (R.number actor.old) (C.shows clock.now) (R.StandsFor actor.new) (R.Settled actor.new) calls left (K.left link.new) taken (K.taken link.new) self.new.frames self.new.input result }
        ensures counted { IsCountedBy (K.read_faults link.old) (K.read_faults link.new) (K.write_faults link.old) (K.write_faults link.new) result }
        ensures settles { IsSettledBy (R.unsettled actor.old) (R.unsettled actor.new) result }
        ensures frames { IfOk result (λ more. more ≡ true → self.new.frames ≡ self.old.frames + 1) }
        ensures limit { self.new.frames ≤ frames_limit }
        ensures config { R.config actor.new ≡ R.config actor.old }
        ensures number { R.number actor.new ≡ R.number actor.old }
    {
        let Some(request) = self.next(link)? else {
            return Ok(false);
        };
        let told = answer(self.alloc, config, request, actor, clock);
        actor.settle()?;
        reply(self.alloc, link, actor, &told)?;
        self.frames += 1;
        Ok(true)
    }

    /// Answers all requests that come.
    pub(crate) fn all<K: Link, R: Runs, C: Clock>(
        &mut self,
        config: &Config,
        link: &mut K,
        actor: &mut R,
        clock: &C,
    ) -> Result<(), SessionFault>
        requires frames { self.old.frames ≤ frames_limit }
        requires config { R.config actor.old ≡ config.now }
        requires short { AreShort config.now }
        ensures spoken { (calls : List Call) (left taken : Option (List ℕ))
            → IsAt config.now (R.number actor.old) (C.shows clock.now) (R.StandsFor actor.old) (R.Settled actor.old) calls left (K.left link.old) taken (K.taken link.old) self.old.frames self.old.input
            → Spoken step config.now (R.number actor.old) (C.shows clock.now) (R.StandsFor actor.new) (R.Settled actor.new) calls left (K.left link.new) taken (K.taken link.new) (ended self.new.frames (fault_of result)) }
        ensures counted { IsCountedBy (K.read_faults link.old) (K.read_faults link.new) (K.write_faults link.old) (K.write_faults link.new) result }
        ensures settles { IsSettledBy (R.unsettled actor.old) (R.unsettled actor.new) result }
        ensures limit { self.new.frames ≤ frames_limit }
        ensures config { R.config actor.new ≡ R.config actor.old }
        ensures number { R.number actor.new ≡ R.number actor.old }
    {
        'turns: while self.frames < FRAMES {
            if !self.turn(config, link, actor, clock)? {
                return Ok(());
            }
        }
        self.end(link)
    }
}
