// What one thread asks.
ghost use Rattle.std.specs.Prelude.{◌<◌, ◌≤◌, length, IfOk};
ghost use Rattle.random_acts.specs.Asked.{IsOfNexus};

use crate::machine::BLOCKS;
use cm_base::{Config, OutOfMemory, Payload};
use cm_history::Act;
use lba_ranges::BlockList;
use random_acts::{Numbers, Style, random_act};
use std::alloc::Global;

/// Of what kind the acts are.
#[derive(Drop, Clone, Copy)]
pub enum Kind {
    /// A write and a read of one block in turn.
    Blocks,
    /// All kinds.
    Mixed,
}

/// What each thread asks.
#[derive(Drop, Clone, Copy)]
pub struct Work {
    pub kind: Kind,
    pub units: u16,
    pub acts: u32,
}

impl Work {
    /// The unit of the next act: that of the thread's number, or of mixed acts any.
    pub fn unit(&self, number: u32, numbers: &mut Numbers) -> u16
        requires { 1 ≤ self.now.units }
        ensures { result < self.now.units }
    {
        let units = u32::from(self.units);
        match self.kind {
            Kind::Blocks => (number % units) as u16,
            Kind::Mixed => numbers.below(units) as u16,
        }
    }
}

/// A write of one block where `index` is even, and a read of that block where it is odd.
fn block_act(alloc: Global, index: u32) -> Result<Act, OutOfMemory>
    ensures { IfOk result IsOfNexus }
{
    let lba = u64::from(index / 2) % BLOCKS;
    if index % 2 == 1 {
        return Ok(Act::Read { lba, count: 1 });
    }
    let bytes = Payload::copy_from_slice(alloc, &[0x5a; 512])?;
    let list = BlockList::from_payload(alloc, 512, 1, bytes)?;
    Ok(Act::Write { lba, list })
}

/// What a thread asks next of a unit.
pub fn next_act(
    alloc: Global,
    config: &Config,
    unit: u16,
    kind: Kind,
    index: u32,
    numbers: &mut Numbers,
) -> Result<Act, OutOfMemory>
    requires { unit < length config.now.units }
    ensures { IfOk result IsOfNexus }
{
    match kind {
        Kind::Blocks => block_act(alloc, index),
        Kind::Mixed => random_act(alloc, config, unit, Style::Mixed, numbers),
    }
}
