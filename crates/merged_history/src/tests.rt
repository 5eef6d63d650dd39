ghost use Rattle.std.specs.Prelude.{◌≡◌, ◌<◌, [], ◌∷◌, IfOk};
ghost use Rattle.merged_history.specs.Passes.{AreFrom};

use crate::merge;
use crate::register::Register;
use cm_base::OutOfMemory;
use cm_history::{Act, Actor, Entry, History};
use std::alloc::Global;
use std::test::Fail;

// A Read of one block.
fn read(stamp: u64, unit: u16) -> Entry
    ensures stamp { result.stamp ≡ stamp }
    ensures unit { result.unit ≡ unit }
{
    Entry {
        stamp,
        unit,
        actor: Actor::Nexus(0),
        seq: 0,
        moment: 0,
        act: Act::Read { lba: 0, count: 1 },
    }
}

// A history of two Reads on a unit, with these stamps.
fn two_reads(alloc: Global, unit: u16, first: u64, second: u64) -> Result<History, OutOfMemory>
    requires some { 0 < first }
    requires later { first < second }
    ensures { IfOk result (λ h. AreFrom unit (h.entries ∷ [])) }
{
    let mut history = History::empty(alloc);
    history.push(read(first, unit))?;
    history.push(read(second, unit))?;
    Ok(history)
}

#[test]
fn histories_are_merged_by_stamp_and_then_by_unit(rt: HostRuntime) -> Result<(), Fail> {
    let alloc = rt.alloc();
    let units = [two_reads(alloc, 0, 1, 4)?, two_reads(alloc, 1, 2, 4)?];
    let merged = merge(alloc, &units)?;
    let mut order = Vec::new(alloc);
    for index in 0..merged.len() {
        let entry = merged.at(index);
        order.push((entry.unit, entry.stamp))?;
    }
    let wanted = [(0, 1), (1, 2), (0, 4), (1, 4)];
    assert_eq!(rt; order.as_slice(), wanted.as_slice());
    Ok(())
}

// A register, two passes at it, of which the later one is joined first. There is memory for it.
#[test]
fn passes_are_joined_in_another_order_than_made(rt: HostRuntime) -> Result<(), Fail> {
    let (register, mut root) = Register::new(rt.alloc())?;
    let first = register.split(&mut root, Actor::Nexus(0));
    let second = register.split(&mut root, Actor::Pump(0));
    register.join(&mut root, second, &());
    register.join(&mut root, first, &());
    Ok(())
}
