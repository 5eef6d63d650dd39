ghost use Rattle.std.specs.Prelude.{◌≡◌, ◌≤◌, false};
ghost use Rattle.rod_store.specs.Kept.{is_over, is_older, used_last, with_use};
ghost use Rattle.rod_store.specs.inner.Store.{is_used_before};

/// Where a token stands. The first end stays.
#[derive(Drop)]
pub enum TokenState<K> {
    /// In seconds: how long it lives after it was used last, and when that was. The value is what
    /// the token stands for.
    Live {
        timeout: u32,
        last_use: u64,
        value: K,
    },
    Expired,
    /// It made room for another.
    Evicted,
    Deleted,
}

/// A token that the unit made, of so many blocks.
#[derive(Drop)]
pub struct Kept<K> {
    pub serial: u64,
    pub blocks: u32,
    pub state: TokenState<K>,
}

impl<K> TokenState<K> {
    /// Its time is over at this moment.
    pub(crate) fn is_over(&self, now: u64) -> bool
        ensures { result ≡ is_over now self.now }
    {
        match self {
            TokenState::Live {
                timeout,
                last_use,
                ..
            } => last_use.saturating_add(u64::from(*timeout)) < now,
            _ => false,
        }
    }

    /// When it was used last, if it is live.
    pub(crate) fn used_last(&self) -> u64
        ensures { result ≡ used_last self.now }
    {
        match self {
            TokenState::Live { last_use, .. } => *last_use,
            _ => 0,
        }
    }

    /// The greatest moment, up to `most`, at which its time is not over.
    pub(crate) fn end_until(&self, most: u64) -> u64
        ensures until { result ≤ most }
        ensures within { is_over result self.now ≡ false }
    {
        match self {
            TokenState::Live {
                timeout,
                last_use,
                ..
            } => most.min(last_use.saturating_add(u64::from(*timeout))),
            _ => most,
        }
    }

    /// The greatest moment, up to `most`, before which it was not used last.
    pub(crate) fn use_until(&self, most: u64) -> u64
        ensures until { result ≤ most }
        ensures within { is_used_before result self.now ≡ false }
    {
        match self {
            TokenState::Live { last_use, .. } => most.min(*last_use),
            _ => most,
        }
    }

    /// Notes a use at the moment, if it is live.
    pub(crate) fn note_use(&mut self, moment: u64)
        ensures { self.new ≡ with_use moment self.old }
    {
        if let TokenState::Live { last_use, .. } = self {
            *last_use = moment;
        }
    }
}

impl<K> Kept<K> {
    /// It was used before the other, or at the same moment and made before it.
    pub(crate) fn is_older(&self, other: &Kept<K>) -> bool
        ensures { result ≡ is_older self.now other.now }
    {
        let used = self.state.used_last();
        let other_used = other.state.used_last();
        used < other_used || (used == other_used && self.serial <= other.serial)
    }
}
