// A table of operations, step by step.
ghost use Rattle.std.specs.Prelude.{◌≡◌, true, false};

use copy_jobs::{JobTable, Key};
use std::alloc::Global;
use std::test::Fail;

/// What begins.
#[derive(Clone, Copy)]
pub(crate) enum Begun {
    /// The making of a token of so many blocks, which is done at once.
    Token { id: u32, serial: u64, blocks: u32 },
    /// Such makings of the identifiers below this one, which all are told as begun.
    Tokens { below: u32 },
    /// Copies of the identifiers below this one.
    Copies { below: u32 },
}

/// What the table is asked.
#[derive(Clone, Copy)]
pub(crate) enum Asked {
    Operation { id: u32 },
    CopyRuns { id: u32 },
    Running,
    Reserved,
    IsCrowded,
}

/// What is done with the table.
#[derive(Clone, Copy)]
pub(crate) enum Step {
    Begin(Begun),
    Ask(Asked),
}

/// What it tells.
#[derive(Clone, Copy, PartialEq, Eq)]
pub(crate) enum Told {
    /// Whether it is so, or whether it was done.
    Is(bool),
    Count(u64),
    /// Nothing of the key is kept.
    Nothing,
    /// The token that an operation made.
    Made { serial: u64, blocks: u32 },
}

/// A token operation of initiator 7.
fn token(id: u32) -> Key
    ensures { result.copy ≡ false }
{
    Key {
        actor: 7,
        copy: false,
        id,
    }
}

/// A copy of initiator 7.
fn copy(id: u32) -> Key
    ensures copy { result.copy ≡ true }
    ensures id { result.id ≡ id }
{
    Key {
        actor: 7,
        copy: true,
        id,
    }
}

/// Keeps that a token was made of so many blocks. Whether no operation of the key ran.
fn make(table: &mut JobTable, id: u32, serial: u64, blocks: u32) -> Result<bool, Fail> {
    let key = token(id);
    if table.runs(key) {
        return Ok(false);
    }
    table.made(key, serial, blocks)?;
    Ok(true)
}

fn make_all(table: &mut JobTable, below: u32) -> Result<bool, Fail> {
    let mut made = true;
    for id in 0..below {
        made &= make(table, id, 9, 1)?;
    }
    Ok(made)
}

/// Opens a copy. Whether there was room, and none of the key ran.
fn open(table: &mut JobTable, id: u32) -> Result<bool, Fail> {
    let key = copy(id);
    if id > 255 || table.runs(key) || table.is_crowded() {
        return Ok(false);
    }
    table.open(key)?;
    Ok(true)
}

fn open_all(table: &mut JobTable, below: u32) -> Result<bool, Fail> {
    let mut opened = true;
    for id in 0..below {
        opened &= open(table, id)?;
    }
    Ok(opened)
}

fn begin(table: &mut JobTable, begun: Begun) -> Result<bool, Fail> {
    match begun {
        Begun::Token { id, serial, blocks } => make(table, id, serial, blocks),
        Begun::Tokens { below } => make_all(table, below),
        Begun::Copies { below } => open_all(table, below),
    }
}

/// The token that an operation made.
fn told_of(table: &JobTable, key: Key) -> Told
    requires { key.copy ≡ false }
{
    match table.report(key) {
        Some(report) => match report.serial {
            Some(serial) => Told::Made {
                serial,
                blocks: report.count,
            },
            None => Told::Nothing,
        },
        None => Told::Nothing,
    }
}

fn ask(table: &JobTable, asked: Asked) -> Told {
    match asked {
        Asked::Operation { id } => told_of(table, token(id)),
        Asked::CopyRuns { id } => Told::Is(table.runs(copy(id))),
        Asked::Running => Told::Count(u64::from(table.running())),
        Asked::Reserved => Told::Count(table.reserved()),
        Asked::IsCrowded => Told::Is(table.is_crowded()),
    }
}

/// The table takes a step, and tells what comes of it.
fn tell(table: &mut JobTable, step: Step) -> Result<Told, Fail> {
    match step {
        Step::Begin(begun) => Ok(Told::Is(begin(table, begun)?)),
        Step::Ask(asked) => Ok(ask(table, asked)),
    }
}

/// A table without operations, at these steps in turn, tells this.
pub(crate) fn tells(alloc: Global, steps: &[(Step, Told)]) -> Result<bool, Fail> {
    let mut table = JobTable::new(alloc)?;
    for row in steps {
        if tell(&mut table, row.0)? != row.1 {
            return Ok(false);
        }
    }
    Ok(true)
}
