ghost use Rattle.std.specs.Prelude.{◌≡◌};
ghost use Rattle.cmd_program.specs.Meaning.{IsOfLength};
ghost use Rattle.trace_replay.specs.ReplayState.{at_first};
ghost use Rattle.trace_replay.specs.Played.{summary_of};
ghost use Rattle.trace_replay.specs.inner.Counting.{HasRoom, with_item, with_reply};

use cm_frame::Reply;

/// What a replay did, in numbers.
#[derive(Debug, Drop, Clone, Copy)]
pub struct Summary {
    /// Items that were played.
    pub records: u64,
    /// Replies that were written.
    pub replies: u64,
    /// Replies GOOD.
    pub good: u64,
    /// Replies CHECK CONDITION.
    pub check: u64,
    /// Replies BUSY: memory was wanted.
    pub busy: u64,
    /// Replies TASK SET FULL: a unit's record had no room.
    pub full: u64,
    /// Acts that were done.
    pub steps: u64,
    /// Bytes that were written.
    pub bytes: u64,
}

/// Bytes of a reply before its sense and its data, with those that name its initiator.
const HEAD: u64 = 10;

/// Bytes of a sense.
const SENSE: u64 = 18;

impl Summary {
    /// Nothing was done.
    pub(crate) fn none() -> Summary
        ensures { result ≡ summary_of at_first }
    {
        Summary {
            records: 0,
            replies: 0,
            good: 0,
            check: 0,
            busy: 0,
            full: 0,
            steps: 0,
            bytes: 0,
        }
    }

    /// Counts an item, after which there were so many acts.
    pub(crate) fn count_item(&mut self, steps: u64)
        requires { HasRoom self.old }
        ensures { self.new ≡ with_item self.old steps }
    {
        self.records += 1;
        self.steps = steps;
    }

    /// Counts a reply.
    pub(crate) fn count_reply(&mut self, reply: &Reply)
        requires room { HasRoom self.old }
        requires length { IsOfLength reply.now }
        ensures { self.new ≡ with_reply self.old reply.now }
    {
        self.replies += 1;
        self.bytes += HEAD;
        match reply {
            Reply::Good(data) => {
                self.good += 1;
                self.bytes += data.len() as u64;
            }
            Reply::Check(_) => {
                self.check += 1;
                self.bytes += SENSE;
            }
            Reply::Conflict => {}
            Reply::Busy => self.busy += 1,
            Reply::Full => self.full += 1,
        }
    }
}
