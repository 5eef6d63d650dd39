ghost use Rattle.std.specs.Prelude.{◌≡◌, ◌<◌, ◌≤◌, ◌++◌, ◌∷◌, ◌^◌, [], length, map, filter, find, not, ◌&&◌, true, IfOk, OnOk, if◌then◌else◌};
ghost use Rattle.cm_history.specs.Tokens.{is_populate};
ghost use Rattle.cm_history.specs.Operations.{Operation, has_key, written, count, list_of, state, result_of, is_running, is_running_state, fits, next_piece, operation_after, made_operation, makes_operation, has_ended, same_key, without_first_ended, with_room, keep};
ghost use Rattle.cm_history.specs.Answers.{serial_made, report_of};
ghost use Rattle.cm_history.specs.Room.{still_needed};
ghost use Rattle.plain_model.specs.inner.Forms.{as_form};
ghost use Rattle.plain_model.specs.inner.Holds.{IsSoundAct, IsSoundOperation, AllSound};

use crate::acts::{self, PlainForm};
use crate::deeds::{PlainDeed, PlainPast};
use crate::refusals;
use crate::writings::PlainWritings;
use cm_base::OutOfMemory;
use cm_history::{Act, Actor, Answer, CopyEnd, CopyState, OpReport, OpState, PIECE_BLOCKS, pieces};
use std::alloc::Global;
use std::marker::Model;

/// Records of operations that a unit keeps.
const KEPT_RECORDS: usize = 256;

/// An operation: the deed that made it, and those that served it.
#[derive(Drop)]
pub(crate) struct PlainOperation {
    made: PlainDeed,
    servers: PlainPast,
}

impl Model for PlainOperation {
    ghost use Rattle.cm_history.specs.Operations.{Operation};
    ghost use Rattle.plain_model.specs.inner.Holds.{IsSoundOperation};

    ghost Value = { Operation };

    ghost view = { λ o. record { made = o.made; servers = o.servers } };

    ghost invariant = { λ o. IsSoundOperation (record { made = o.made; servers = o.servers }) };
}

/// The serial of a Populate.
fn serial_made(answer: &Answer) -> Option<u64>
    ensures { result ≡ serial_made answer.now }
{
    match answer {
        Answer::Made { serial } => Some(*serial),
        _ => None,
    }
}

impl PlainOperation {
    /// An operation that no deed served yet.
    pub(crate) fn new(alloc: Global, made: &PlainDeed) -> Result<PlainOperation, OutOfMemory>
        requires { IsSoundOperation (made_operation made.now) }
        ensures { IfOk result (λ o. o ≡ made_operation made.now) }
    {
        Ok(PlainOperation {
            made: made.copy()?,
            servers: PlainPast::new(alloc),
        })
    }

    fn act(&self) -> &Act
        ensures act { result.now ≡ self.now.made.entry.act }
        ensures sound { IsSoundAct result.now }
    {
        &self.made.entry().act
    }

    /// The place of the deed that made it.
    pub(crate) fn place(&self) -> u64
        ensures { result ≡ self.now.made.place }
    {
        self.made.place()
    }

    pub(crate) fn has_key(&self, actor: Actor, form: PlainForm, id: u32) -> bool
        ensures { result ≡ has_key actor (as_form form) id self.now }
    {
        acts::same_actor(self.made.entry().actor, actor)
            && acts::same_form(acts::form_of(self.act()), form)
            && acts::id_of(self.act()) == id
    }

    /// The other has its key.
    fn same_key(&self, other: &PlainOperation) -> bool
        ensures { result ≡ same_key self.now other.now }
    {
        let actor = self.made.entry().actor;
        other.has_key(actor, acts::form_of(self.act()), acts::id_of(self.act()))
    }

    /// How many blocks it has written.
    fn written(&self) -> usize
        ensures written { result ≡ length (written self.now) }
        ensures begun { result ≤ length (list_of self.now.made.entry.act) }
        ensures few { result ≤ 1_048_576 }
    {
        self.servers.written()
    }

    /// How many blocks it is to write in all.
    pub(crate) fn blocks(&self) -> u64
        ensures blocks { result ≡ length (list_of self.now.made.entry.act) }
        ensures few { result ≤ 1_048_576 }
    {
        match self.act() {
            Act::Start { ranges, rod, .. } => ranges.total().min(rod.list().blocks()),
            _ => 0,
        }
    }

    /// How many blocks it has written, and of a Populate how many its token has.
    pub(crate) fn count(&self) -> u32
        ensures count { result ≡ count self.now }
        ensures few { result ≤ 1_048_576 }
    {
        match self.act() {
            Act::Populate { ranges, .. } => ranges.total() as u32,
            _ => self.written() as u32,
        }
    }

    fn state(&self) -> OpState
        ensures { result ≡ state self.now }
    {
        if !matches!(self.act(), Act::Start { .. }) {
            return OpState::Done;
        }
        if self.servers.was_stopped() {
            return OpState::Failed(refusals::quota_sense());
        }
        if self.servers.was_ended() {
            return OpState::Terminated;
        }
        if self.written() as u64 == self.blocks() {
            OpState::Done
        } else {
            OpState::Running
        }
    }

    /// The result of a copy.
    pub(crate) fn result(&self) -> CopyEnd
        ensures { result ≡ result_of self.now.servers }
    {
        self.servers.result()
    }

    pub(crate) fn is_running(&self) -> bool
        ensures { result ≡ is_running self.now }
    {
        match acts::form_of(self.act()) {
            PlainForm::OfCopy => matches!(self.result().state, CopyState::Running),
            PlainForm::OfToken => matches!(self.state(), OpState::Running),
        }
    }

    /// The entries that it may still need, while it runs.
    pub(crate) fn reserved(&self) -> u64
        ensures { result ≡ still_needed (length self.now.servers) self.now.made.entry.act }
    {
        match self.act() {
            Act::Start { rod, .. } => {
                (pieces(rod.list().blocks()) + 1).saturating_sub(self.servers.len() as u64)
            }
            Act::Open { .. } => 1,
            _ => 0,
        }
    }

    /// The act is for this operation, if it runs.
    pub(crate) fn fits(&self, actor: Actor, act: &Act) -> bool
        ensures { result ≡ fits actor act.now self.now }
    {
        match act {
            Act::Advance { id } | Act::End { id } => {
                self.has_key(actor, PlainForm::OfToken, *id) && acts::is_foreground(self.act())
            }
            Act::Abort { id } => {
                self.has_key(actor, PlainForm::OfToken, *id) && acts::is_background(self.act())
            }
            Act::Close { id, result: _ } => {
                self.has_key(actor, PlainForm::OfCopy, u32::from(*id))
            }
            Act::Pump => acts::is_background(self.act()),
            _ => false,
        }
    }

    /// The next piece: 1024 blocks, or all that are left.
    pub(crate) fn next_piece(&self, alloc: Global) -> Result<PlainWritings, OutOfMemory>
        ensures piece { IfOk result (λ piece. piece ≡ next_piece self.now) }
        ensures few { IfOk result (λ piece. length piece ≤ 1024) }
    {
        let list = match self.act() {
            Act::Start { ranges, rod, .. } => PlainWritings::paired(alloc, ranges, rod.list())?,
            _ => PlainWritings::new(alloc),
        };
        list.part(alloc, self.written(), PIECE_BLOCKS as usize)
    }

    pub(crate) fn report(&self) -> OpReport
        ensures { result ≡ report_of self.now }
    {
        OpReport {
            populate: acts::is_populate(self.act()),
            background: acts::is_background(self.act()),
            state: self.state(),
            count: self.count(),
            serial: serial_made(self.made.answer()),
        }
    }

    fn copy(&self, alloc: Global) -> Result<PlainOperation, OutOfMemory>
        ensures { IfOk result (λ copy. copy ≡ self.now) }
    {
        let made = self.made.copy()?;
        let servers = self.servers.copy(alloc)?;
        Ok(PlainOperation { made, servers })
    }

    /// Adds a deed to those that served it.
    fn serve(&mut self, deed: &PlainDeed) -> Result<(), OutOfMemory>
        requires { IsSoundOperation (record self.old { servers = deed.now ∷ self.old.servers }) }
        ensures { OnOk result (self.new ≡ record self.old { servers = deed.now ∷ self.old.servers }) }
    {
        self.servers.push(deed)
    }

    /// The operation after one more deed.
    fn after(&self, alloc: Global, deed: &PlainDeed) -> Result<PlainOperation, OutOfMemory>
        requires { IsSoundOperation (operation_after deed.now self.now) }
        ensures { IfOk result (λ o. o ≡ operation_after deed.now self.now) }
    {
        let mut operation = self.copy(alloc)?;
        if deed.served() == Some(self.place()) {
            operation.serve(deed)?;
        }
        Ok(operation)
    }
}

/// The deed makes an operation.
fn makes_operation(deed: &PlainDeed) -> bool
    ensures { result ≡ makes_operation deed.now }
{
    acts::is_making(&deed.entry().act) && deed.is_answered()
}

/// Each operation after one more deed.
fn served(
    alloc: Global,
    operations: &[PlainOperation],
    deed: &PlainDeed,
) -> Result<Vec<PlainOperation>, OutOfMemory>
    requires { AllSound (map (operation_after deed.now) operations.now) }
    ensures { IfOk result (λ next. next.items ≡ map (operation_after deed.now) operations.now) }
{
    let mut next = Vec::new(alloc);
    for operation in operations {
        next.push(operation.after(alloc, deed)?)?;
    }
    Ok(next)
}

/// The operations after one more deed.
pub(crate) fn operations_after(
    alloc: Global,
    operations: &[PlainOperation],
    deed: &PlainDeed,
) -> Result<Vec<PlainOperation>, OutOfMemory>
    requires kept { AllSound (map (operation_after deed.now) operations.now) }
    requires made { makes_operation deed.now ≡ true → IsSoundOperation (made_operation deed.now) }
    ensures { IfOk result (λ next. next.items ≡ map (operation_after deed.now) operations.now
        ++ (if makes_operation deed.now then made_operation deed.now ∷ [] else [])) }
{
    let mut next = served(alloc, operations, deed)?;
    if makes_operation(deed) {
        next.push(PlainOperation::new(alloc, deed)?)?;
    }
    Ok(next)
}

/// The records without those of the operation's key that have ended.
fn others(
    alloc: Global,
    records: &[PlainOperation],
    made: &PlainOperation,
) -> Result<Vec<PlainOperation>, OutOfMemory>
    ensures { IfOk result (λ next. next.items ≡ filter (λ r. not (has_ended r && same_key made.now r)) records.now) }
{
    let mut next = Vec::new(alloc);
    for record in records {
        let replaced = !record.is_running() && made.same_key(record);
        if !replaced {
            next.push(record.copy(alloc)?)?;
        }
    }
    Ok(next)
}

/// The records without the first that has ended.
fn without_first_ended(
    alloc: Global,
    records: &[PlainOperation],
) -> Result<Vec<PlainOperation>, OutOfMemory>
    ensures { IfOk result (λ next. next.items ≡ without_first_ended records.now) }
{
    let mut next = Vec::new(alloc);
    let mut dropped = false;
    for record in records {
        if dropped || record.is_running() {
            next.push(record.copy(alloc)?)?;
        } else {
            dropped = true;
        }
    }
    Ok(next)
}

/// The records, without the first that has ended where there are as many as may be kept.
fn with_room(
    alloc: Global,
    records: Vec<PlainOperation>,
) -> Result<Vec<PlainOperation>, OutOfMemory>
    ensures { IfOk result (λ next. next.items ≡ with_room records.items) }
{
    if records.len() == KEPT_RECORDS {
        without_first_ended(alloc, &records)
    } else {
        Ok(records)
    }
}

/// The records that stay beside a new one: those that it doesn't replace, with room for it.
fn beside(
    alloc: Global,
    records: &[PlainOperation],
    made: &PlainOperation,
) -> Result<Vec<PlainOperation>, OutOfMemory>
    ensures { IfOk result (λ next. next.items ≡ with_room (filter (λ r. not (has_ended r && same_key made.now r)) records.now)) }
{
    let others = others(alloc, records, made)?;
    with_room(alloc, others)
}

/// The records that are kept after one more deed.
pub(crate) fn kept_after(
    alloc: Global,
    records: &[PlainOperation],
    deed: &PlainDeed,
) -> Result<Vec<PlainOperation>, OutOfMemory>
    requires kept { AllSound (map (operation_after deed.now) records.now) }
    requires made { makes_operation deed.now ≡ true → IsSoundOperation (made_operation deed.now) }
    ensures { IfOk result (λ next. next.items
        ≡ (if makes_operation deed.now then keep records.now (made_operation deed.now) else map (operation_after deed.now) records.now)) }
{
    if !makes_operation(deed) {
        return served(alloc, records, deed);
    }
    let made = PlainOperation::new(alloc, deed)?;
    let mut next = beside(alloc, records, &made)?;
    next.push(made)?;
    Ok(next)
}
