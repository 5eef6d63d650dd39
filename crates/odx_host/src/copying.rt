ghost use Rattle.std.specs.Prelude.{◌≡◌, ◌+◌, ◌-◌, ◌<◌, ◌≤◌, ◌^◌, ◌==◌, List, length, None, IfOk, IfErr, OnOk};
ghost use Rattle.lba_ranges.specs.Denoted.{total};
ghost use Rattle.block_params.specs.RangesRead.{range_fault};
ghost use Rattle.cm_frame.specs.Grammar.{data_limit};
ghost use Rattle.copy_plan.specs.Jobs.{AreExtents};
ghost use Rattle.copy_plan.specs.Plans.{longest_run};
ghost use Rattle.odx_host.specs.Talk.{Talked};
ghost use Rattle.odx_host.specs.Requests.{status_request, write_list};
ghost use Rattle.odx_host.specs.Parts.{HasPlanned, part_at, place_behind};
ghost use Rattle.odx_host.specs.Rule.{next_step, one_write, rule};
ghost use Rattle.odx_host.specs.Ruled.{IsRuled};
ghost use Rattle.odx_host.specs.Copies.{LeadsDone};
ghost use Rattle.odx_host.specs.inner.Steps.{Talking, HasAsked, HasPopulated, HasPolled, HasWritten, HasWrittenAll, HasCopiedPart, writes_to_come, behind_write};

use crate::fault::{Copied, CopyFault};
use crate::port::Port;
use crate::requests::{populate_request, status_request, write_request};
use crate::told::{is_done, token_of};
use block_params::WriteList;
use cm_base::Payload;
use cm_frame::{Reply, Request};
use copy_plan::{ExtentCursor, Job};
use lba_ranges::RangeList;
use std::alloc::Global;

/// The blocks of one POPULATE TOKEN.
const PART_LIMIT: u64 = 1_048_576;

/// Asks a request, and goes on with the data of a GOOD.
fn ask_good<P: Port>(port: &mut P, step: u32, request: &Request) -> Result<Payload, CopyFault>
    requires { length request.now.out ≤ data_limit }
    ensures { Talking (λ talk. P.Talks port.old talk port.new) (P.IsIn port.old) (P.IsIn port.new)
        (λ talk. HasAsked request.now step talk result) }
{
    match port.ask(request)? {
        Reply::Good(data) => Ok(data),
        reply => Err(CopyFault::Refused { step, reply }),
    }
}

/// Asks how an operation stands.
fn ask_status<P: Port>(
    alloc: Global,
    port: &mut P,
    unit: u16,
    step: u32,
) -> Result<Payload, CopyFault>
    ensures { Talking (λ talk. P.Talks port.old talk port.new) (P.IsIn port.old) (P.IsIn port.new)
        (λ talk. HasAsked (status_request unit step) step talk result) }
{
    let request = status_request(alloc, unit, step)?;
    ask_good(port, step, &request)
}

/// Makes a token of some blocks.
fn populate<P: Port>(
    alloc: Global,
    port: &mut P,
    unit: u16,
    step: u32,
    ranges: RangeList,
) -> Result<[u8; 512], CopyFault>
    requires list { range_fault ranges ≡ None }
    requires few { length ranges ≤ 64 }
    ensures { Talking (λ talk. P.Talks port.old talk port.new) (P.IsIn port.old) (P.IsIn port.new)
        (λ talk. HasPopulated unit step ranges talk result) }
{
    let blocks = ranges.total();
    let request = populate_request(alloc, unit, step, ranges)?;
    ask_good(port, step, &request)?;
    let told = ask_status(alloc, port, unit, step)?;
    token_of(step, blocks, told.as_slice())
}

/// Asks how a write stands until it is done, so many times at most.
fn wait<P: Port>(
    alloc: Global,
    port: &mut P,
    unit: u16,
    step: u32,
    blocks: u64,
    polls: u32,
) -> Result<(), CopyFault>
    ensures { Talking (λ talk. P.Talks port.old talk port.new) (P.IsIn port.old) (P.IsIn port.new)
        (λ talk. HasPolled unit step blocks polls talk result) }
{
    'polls: for _ in 0..polls {
        let told = ask_status(alloc, port, unit, step)?;
        if is_done(step, blocks, told.as_slice())? {
            return Ok(());
        }
    }
    Err(CopyFault::Polls { step })
}

/// A copy that is under way.
#[derive(Drop)]
struct Host<'a> {
    alloc: Global,
    job: &'a Job,
    /// The blocks of the next token.
    from: ExtentCursor<'a>,
    /// The blocks of the next write.
    to: ExtentCursor<'a>,
    copied: Copied,
}

impl<'a> Host<'a> {
    /// A copy of which nothing was asked yet.
    fn new(alloc: Global, job: &'a Job) -> Host<'a>
        ensures job { result.job.now ≡ job.now }
        ensures from { result.from ≡ record { extents = job.now.from; place = 0 } }
        ensures to { result.to ≡ record { extents = job.now.to; place = 0 } }
        ensures copied { result.copied ≡ record { populates = 0; writes = 0 } }
        ensures sources { AreExtents job.now.from }
        ensures targets { AreExtents job.now.to }
        ensures unit { job.now.source < 2 ^ 16 }
    {
        let _source = job.source();
        Host {
            alloc,
            job,
            from: ExtentCursor::new(job.from()),
            to: ExtentCursor::new(job.to()),
            copied: Copied {
                populates: 0,
                writes: 0,
            },
        }
    }

    /// The identifier of the next POPULATE TOKEN or WRITE USING TOKEN.
    fn next_step(&self) -> u32
        requires { next_step self.now.copied < 2 ^ 32 }
        ensures { result ≡ next_step self.now.copied }
    {
        self.copied.populates + self.copied.writes + 1
    }

    /// The list of the next write of a token whose blocks are those from `first` to `last`.
    fn next_list(
        &mut self,
        token: &[u8; 512],
        first: u64,
        last: u64,
    ) -> Result<WriteList, CopyFault>
        requires targets { AreExtents self.old.to.extents }
        requires begun { first ≤ self.old.to.place }
        requires some { self.old.to.place < last }
        requires few { last ≤ first + 1_048_576 }
        ensures list { IfOk result (λ list. list ≡ write_list token.now (self.old.to.place - first) (behind_write self.old.to.extents self.old.to.place last == last)
            (longest_run self.old.to.extents self.old.to.place (last - self.old.to.place))) }
        ensures passed { OnOk result (self.new ≡ record self.old { to = record self.old.to { place = behind_write self.old.to.extents self.old.to.place last } }) }
        ensures legal { IfOk result (λ list. range_fault list.ranges ≡ None) }
        ensures memory { IfErr result (λ fault. fault ≡ CopyFault.OutOfMemory) }
    {
        let place = self.to.place();
        let ranges = self.to.next_ranges(self.alloc, last - place)?;
        Ok(WriteList {
            immed: true,
            delete: self.to.place() == last,
            offset: place - first,
            token: *token,
            ranges,
        })
    }

    /// Writes the next blocks of a token, as many as one command can name.
    fn write<P: Port>(
        &mut self,
        port: &mut P,
        token: &[u8; 512],
        first: u64,
        last: u64,
    ) -> Result<(), CopyFault>
        requires to { self.old.to.extents ≡ self.old.job.now.to }
        requires targets { AreExtents self.old.to.extents }
        requires begun { first ≤ self.old.to.place }
        requires some { self.old.to.place < last }
        requires few { last ≤ first + 1_048_576 }
        requires within { last ≤ total self.old.to.extents }
        requires step { next_step self.old.copied < 2 ^ 32 }
        ensures written { Talking (λ talk. P.Talks port.old talk port.new) (P.IsIn port.old) (P.IsIn port.new)
            (λ talk. HasWritten self.old.job.now token.now self.old.copied first last self.old.to.place talk result) }
        ensures after { OnOk result (self.new ≡ record self.old {
          to = record self.old.to { place = behind_write self.old.to.extents self.old.to.place last };
          copied = one_write self.old.copied;
        }) }
    {
        let step = self.next_step();
        let list = self.next_list(token, first, last)?;
        let unit = self.job.target();
        let request = write_request(self.alloc, unit, step, &list)?;
        ask_good(port, step, &request)?;
        wait(
            self.alloc,
            port,
            unit,
            step,
            list.ranges.total(),
            self.job.polls(),
        )?;
        self.copied.writes += 1;
        Ok(())
    }

    /// Writes all blocks of a token, which are those from `first` to `last`.
    fn write_all<P: Port>(
        &mut self,
        port: &mut P,
        token: &[u8; 512],
        first: u64,
        last: u64,
    ) -> Result<(), CopyFault>
        requires to { self.old.to.extents ≡ self.old.job.now.to }
        requires targets { AreExtents self.old.to.extents }
        requires begun { self.old.to.place ≡ first }
        requires few { last ≤ first + 1_048_576 }
        requires within { last ≤ total self.old.to.extents }
        requires rising { first ≤ last }
        requires steps { next_step self.old.copied + length (writes_to_come self.old.to.extents first last) ≤ 2 ^ 32 }
        ensures written { Talking (λ talk. P.Talks port.old talk port.new) (P.IsIn port.old) (P.IsIn port.new)
            (λ talk. HasWrittenAll self.old.job.now token.now self.old.copied first last self.new.copied talk result) }
        ensures after { OnOk result (self.new ≡ record self.old { to = record self.old.to { place = last }; copied = self.new.copied }) }
        ensures steps { OnOk result (next_step self.new.copied ≡ next_step self.old.copied + length (writes_to_come self.old.to.extents first last)) }
    {
        'writes: while self.to.place() < last {
            self.write(port, token, first, last)?;
        }
        Ok(())
    }

    /// Copies the blocks of the next token.
    fn copy_part<P: Port>(&mut self, port: &mut P) -> Result<(), CopyFault>
        requires from { self.old.from.extents ≡ self.old.job.now.from }
        requires to { self.old.to.extents ≡ self.old.job.now.to }
        requires sources { AreExtents self.old.from.extents }
        requires targets { AreExtents self.old.to.extents }
        requires place { self.old.to.place ≡ self.old.from.place }
        requires same { total self.old.to.extents ≡ total self.old.from.extents }
        requires some { self.old.from.place < total self.old.from.extents }
        requires steps { next_step self.old.copied + length (part_at self.old.job.now self.old.from.place).writes < 2 ^ 32 }
        ensures copied { Talking (λ talk. P.Talks port.old talk port.new) (P.IsIn port.old) (P.IsIn port.new)
            (λ talk. HasCopiedPart self.old.job.now self.old.copied self.old.from.place self.new.copied talk result) }
        ensures after { OnOk result (self.new ≡ record self.old {
          from = record self.old.from { place = place_behind self.old.job.now self.old.from.place };
          to = record self.old.to { place = place_behind self.old.job.now self.old.from.place };
          copied = self.new.copied;
        }) }
        ensures steps { OnOk result (next_step self.new.copied
            ≡ next_step self.old.copied + 1 + length (part_at self.old.job.now self.old.from.place).writes) }
    {
        let first = self.from.place();
        let ranges = self.from.next_ranges(self.alloc, PART_LIMIT)?;
        let last = self.from.place();
        let step = self.next_step();
        let token = populate(self.alloc, port, self.job.source(), step, ranges)?;
        self.copied.populates += 1;
        self.write_all(port, &token, first, last)
    }
}

/// Copies the blocks of a job by tokens (own profile, as a host does that follows SPC-4 and SBC-3).
///
/// The blocks that are read are cut into parts by the plan of the job. For each part a POPULATE TOKEN of its ranges is
/// asked at the source, with a timeout of 300 seconds, and a RECEIVE ROD TOKEN INFORMATION for its token; and then at
/// the target one WRITE USING TOKEN in the background after the other, each of as many blocks as 64 extents allow, of
/// which the last deletes the token. After each write RECEIVE ROD TOKEN INFORMATIONs are asked until it runs no more.
pub fn copy<P: Port>(alloc: Global, job: &Job, port: &mut P) -> Result<Copied, CopyFault>
    ensures ruled { (talk : List Talked) × IsRuled (rule job.now) talk result
        × P.Talks port.old talk port.new × LeadsDone job.now result (P.IsIn port.old) talk (P.IsIn port.new) }
    ensures planned { IfOk result (λ copied. HasPlanned job.now copied.populates) }
{
    let mut host = Host::new(alloc, job);
    let blocks = job.blocks();
    'parts: while host.from.place() < blocks {
        host.copy_part(port)?;
    }
    Ok(host.copied)
}
