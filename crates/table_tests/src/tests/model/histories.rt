// Histories, and the laws that hold of them.
ghost use Rattle.std.specs.Prelude.{◌≡◌, length, IfOk};

use super::*;
use cm_history::{
    Actor, Entry, History, count_law, fold_law, kind_law, locality_law, refused_law,
    reservation_law, standing_law, token_law, write_law,
};

/// A Read that initiator 1 asks of unit 0, and nothing else.
fn one_read(alloc: Global) -> Result<History, Fail>
    ensures { IfOk result (λ history. length history.entries ≡ 1) }
{
    let mut history = History::empty(alloc);
    history.reserve(1)?;
    history.append(Entry {
        stamp: 0,
        unit: 0,
        actor: Actor::Nexus(1),
        seq: 0,
        moment: 0,
        act: Act::Read { lba: 0, count: 1 },
    });
    Ok(history)
}

/// The laws of each unit hold of the history.
fn laws_of_a_unit(config: &Config, history: &History, unit: u16) {
    locality_law(config, history, unit);
    kind_law(config, history, unit);
    refused_law(config, history, unit);
    reservation_law(config, history, unit);
    standing_law(config, unit);
}

/// The laws of tokens and of writes hold of the first entry.
fn laws_of_the_first_entry(config: &Config, history: &History) {
    token_law(config, history, 0);
    count_law(config, history, 0, 1);
    write_law(config, history, 0);
}

/// Both are answered alike, as they are one history.
fn laws_of_one_history(config: &Config, history: &History) {
    fold_law(config, history, history, 0, Actor::Nexus(1), 0, &Act::Pump);
}

/// The laws hold of histories that there are, also of one that is not legal: its two entries have one stamp.
#[test]
fn laws_can_be_called(rt: HostRuntime) -> Result<(), Fail> {
    let config = one_unit(rt.alloc())?;
    let history = two_reads(rt.alloc())?;
    laws_of_a_unit(&config, &history, 0);
    laws_of_the_first_entry(&config, &history);
    laws_of_one_history(&config, &history);
    assert!(rt; history.len() == 2);
    Ok(())
}

/// A history of two Reads, whose second one has number 1.
fn two_reads(alloc: Global) -> Result<History, Fail>
    ensures { IfOk result (λ history. length history.entries ≡ 2) }
{
    let mut history = one_read(alloc)?;
    let mut next = history.at(0).copy(alloc)?;
    next.seq = 1;
    history.push(next)?;
    Ok(history)
}
