// Walks over the live tokens, by their serials.
ghost use Rattle.std.specs.Prelude.{◌≡◌, ◌≤◌, ◌==◌, ℕ, length, filter, not, false, vec_capacity};
ghost use Rattle.std.specs.List.{list_any};
ghost use Rattle.rod_store.specs.Kept.{IsPlaced, live, first, is_over_at};
ghost use Rattle.rod_store.specs.inner.Store.{serials, serial_in, is_used_before_at, AreApart, IsOldest};

use crate::kept::Kept;

/// The serial of the first token that is over at the moment.
pub(crate) fn first_over<K>(tokens: &[Kept<K>], live_serials: &[u64], moment: u64) -> Option<u64>
    requires placed { IsPlaced 0 tokens.now }
    requires live_serials { live_serials.now ≡ serials (live tokens.now) }
    ensures { result ≡ serial_in (first (is_over_at moment) tokens.now) }
{
    for serial in live_serials {
        if tokens[*serial as usize].state.is_over(moment) {
            return Some(*serial);
        }
    }
    None
}

/// The greatest moment at which no token is over.
pub(crate) fn least_end<K>(tokens: &[Kept<K>], live_serials: &[u64]) -> u64
    requires placed { IsPlaced 0 tokens.now }
    requires live_serials { live_serials.now ≡ serials (live tokens.now) }
    ensures { list_any (is_over_at result) tokens.now ≡ false }
{
    let mut least = u64::MAX;
    for serial in live_serials {
        least = tokens[*serial as usize].state.end_until(least);
    }
    least
}

/// The serial of the live token that was used least lately, by a look at each.
fn oldest_of_all<K>(tokens: &[Kept<K>], live_serials: &[u64]) -> u64
    requires placed { IsPlaced 0 tokens.now }
    requires live_serials { live_serials.now ≡ serials (live tokens.now) }
    requires some { 1 ≤ length live_serials.now }
    ensures { IsOldest tokens.now result }
{
    let mut oldest = live_serials[0];
    for serial in live_serials {
        if tokens[*serial as usize].is_older(&tokens[oldest as usize]) {
            oldest = *serial;
        }
    }
    oldest
}

/// The serial of the live token that was used least lately. None was used last before `least_use`, so where the first
/// was used at that moment, the others need no look.
pub(crate) fn oldest<K>(tokens: &[Kept<K>], live_serials: &[u64], least_use: u64) -> u64
    requires placed { IsPlaced 0 tokens.now }
    requires live_serials { live_serials.now ≡ serials (live tokens.now) }
    requires some { 1 ≤ length live_serials.now }
    requires least_use { list_any (is_used_before_at least_use) tokens.now ≡ false }
    ensures { IsOldest tokens.now result }
{
    let first = live_serials[0];
    if tokens[first as usize].state.used_last() <= least_use {
        return first;
    }
    oldest_of_all(tokens, live_serials)
}

/// Takes a serial out. The room stays. Mostly the one that was made first goes, and the others need not be looked at.
pub(crate) fn forget(live_serials: &mut Vec<u64>, serial: u64)
    requires { AreApart live_serials.old.items }
    ensures serials { live_serials.new.items ≡ filter (λ other. not (other == serial)) live_serials.old.items }
    ensures room { vec_capacity live_serials.new ≡ vec_capacity live_serials.old }
{
    if live_serials.first() == Some(&serial) {
        live_serials.remove(0);
    } else {
        live_serials.retain(|other| *other != serial);
    }
}
