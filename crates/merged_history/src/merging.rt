ghost use Rattle.std.specs.Prelude.{◌≡◌, List, Option, Some, slice_get, length, map, IfOk, suc, ◌<◌};
ghost use Rattle.std.specs.Option.{option_copied};
ghost use Rattle.cm_history.specs.declared.act.Entry.{Entry};
ghost use Rattle.merged_history.specs.Merged.{is_earlier, merged};
ghost use Rattle.merged_history.specs.inner.Merging.{precedes, IsNext};
ghost use Rattle.merged_history.specs.Passes.{AreFrom};

use cm_base::OutOfMemory;
use cm_history::{Entry, History};
use std::alloc::Global;

/// What keeps the history of a unit.
pub trait Kept {
    ghost entries: { Self → List Entry };

    /// The entries, the oldest first. It takes no memory.
    fn history(&self) -> &History
        ensures { result.now.entries ≡ entries self.now };
}

impl Kept for History {
    ghost entries = { λ h. h.entries };

    fn history(&self) -> &History {
        self
    }
}

/// By stamp, and at one stamp by unit.
fn is_earlier(a: &Entry, b: &Entry) -> bool
    ensures { result ≡ is_earlier a.now b.now }
{
    a.stamp < b.stamp || a.stamp == b.stamp && a.unit <= b.unit
}

fn precedes(entry: &Entry, first: Option<&Entry>) -> bool
    ensures { result ≡ precedes entry.now (option_copied first.entry) }
{
    match first {
        Some(first) => is_earlier(entry, first),
        None => true,
    }
}

/// The entry at a place, where there is one.
fn head<T: Kept>(unit: &T, at: usize) -> Option<&Entry>
    ensures { option_copied result ≡ slice_get (T.entries unit.now) at }
{
    let history = unit.history();
    if at < history.len() {
        Some(history.at(at))
    } else {
        None
    }
}

/// The unit with the first of the entries that are left, where there is one.
fn next_unit<T: Kept>(units: &[T], at: &[usize]) -> Option<usize>
    requires { length at.now ≡ length units.now }
    ensures { IsNext (map T.entries units.now) at.now (length units.now) result }
{
    let mut best = 0;
    let mut first: Option<&Entry> = None;
    for unit in 0..units.len() {
        if let Some(entry) = head(&units[unit], at[unit]) {
            if precedes(entry, first) {
                best = unit;
                first = Some(entry);
            }
        }
    }
    match first {
        Some(_) => Some(best),
        None => None,
    }
}

/// A copy of the entry at a place, and the next place.
fn taken<T: Kept>(alloc: Global, unit: &T, at: usize) -> Result<(Entry, usize), OutOfMemory>
    requires { at < length (T.entries unit.now) }
    ensures entry { IfOk result (λ t. slice_get (T.entries unit.now) at ≡ Some t.0) }
    ensures next { IfOk result (λ t. t.1 ≡ suc at) }
{
    let history = unit.history();
    let _count = history.len();
    let entry = history.at(at).copy(alloc)?;
    Ok((entry, at + 1))
}

/// The merged history of some units, each entry of which is a copy.
pub fn merge<T: Kept>(alloc: Global, units: &[T]) -> Result<History, OutOfMemory>
    requires { AreFrom 0 (map T.entries units.now) }
    ensures { IfOk result (λ h. h.entries ≡ merged (map T.entries units.now)) }
{
    let mut at = vec![in alloc; 0usize; units.len()]?;
    let mut merged = History::empty(alloc);
    while let Some(unit) = next_unit(units, at.as_slice()) {
        let (entry, next) = taken(alloc, &units[unit], at[unit])?;
        merged.reserve(1)?;
        merged.append(entry);
        at[unit] = next;
    }
    Ok(merged)
}
