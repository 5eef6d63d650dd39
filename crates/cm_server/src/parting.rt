// Lists of which the first items are the units', and the others are spare.
ghost use Rattle.std.specs.Prelude.{◌≡◌, ◌≤◌, ◌+◌, ◌++◌, [], length, vec_capacity, IfOk, IfErr};

use std::alloc::Global;

/// The items of the units, those behind them, and room for all of them again.
pub(crate) struct Parted<T> {
    pub(crate) first: Vec<T>,
    pub(crate) spare: Vec<T>,
    pub(crate) back: Vec<T>,
}

/// Parts a list behind so many items. Where memory is wanted the list comes back.
pub(crate) fn part<T: Drop>(alloc: Global, items: Vec<T>, count: u16) -> Result<Parted<T>, Vec<T>>
    requires few { count ≤ length items.items }
    ensures all { IfOk result (λ p. items.items ≡ p.first.items ++ p.spare.items) }
    ensures count { IfOk result (λ p. length p.first.items ≡ count) }
    ensures none { IfOk result (λ p. p.back.items ≡ []) }
    ensures room { IfOk result (λ p. length items.items ≤ vec_capacity p.back) }
    ensures same { IfErr result (λ all. all.items ≡ items.items) }
{
    let mut first = items;
    let Ok(back) = Vec::with_capacity(alloc, first.len()) else {
        return Err(first);
    };
    match first.split_off(usize::from(count)) {
        Ok(spare) => Ok(Parted { first, spare, back }),
        Err(_) => Err(first),
    }
}

/// The items that came back, and the spare ones behind them.
pub(crate) fn whole<T: Drop>(back: Vec<T>, spare: Vec<T>) -> Vec<T>
    requires room { length back.items + length spare.items ≤ vec_capacity back }
    ensures { result.items ≡ back.items ++ spare.items }
{
    let mut back = back;
    let mut spare = spare;
    let Ok(()) = back.append(&mut spare) else {
        unreachable!()
    };
    back
}
