// What of a file the host may have dropped. A sync that failed tells nothing of what it was to keep, and neither does one
// that goes well behind it: the host may have marked those bytes as kept, and have them no more after a power cut.
ghost use Rattle.std.specs.Prelude.{◌≡◌, ◌≤◌, ◌<◌, ◌+◌, ◌-◌, ◌^◌, ℕ, true};
ghost use Rattle.copymgr.specs.Unkept.{Among};

/// Bytes of a file, one behind the other: those from a place on, and before another.
#[derive(Drop, Clone, Copy)]
pub struct Span {
    pub from: u64,
    pub end: u64,
}

impl Span {
    /// No bytes.
    fn none() -> Span
        ensures { (place : ℕ) → Among result place → ⊥ }
    {
        Span { from: 0, end: 0 }
    }

    /// So many bytes from a place on, as far as places go.
    fn at(from: u64, count: u64) -> Span
        ensures all { (place : ℕ) → from ≤ place → place < from + count → place < 2 ^ 64 - 1 → Among result place }
        ensures only { (place : ℕ) → Among result place → (from ≤ place) × (place < from + count) }
    {
        Span {
            from,
            end: from.saturating_add(count),
        }
    }

    /// The least bytes in a row that have both.
    fn with(self, other: Span) -> Span
        ensures first { (place : ℕ) → Among self place → Among result place }
        ensures second { (place : ℕ) → Among other place → Among result place }
    {
        if self.from >= self.end {
            return other;
        }
        if other.from >= other.end {
            return self;
        }
        Span {
            from: self.from.min(other.from),
            end: self.end.max(other.end),
        }
    }

    /// What is left where others are taken off one of its ends, or all of it: nothing where they have it all. Where they are
    /// in its middle it stays whole.
    fn without(self, other: Span) -> Span
        ensures left { (place : ℕ) → Among self place → (Among other place → ⊥) → Among result place }
        ensures all { other.from ≤ self.from → self.end ≤ other.end → (place : ℕ) → Among result place → ⊥ }
    {
        if other.from <= self.from && self.from < other.end {
            return Span {
                from: other.end.min(self.end),
                end: self.end,
            };
        }
        if other.from < self.end && self.end <= other.end {
            return Span {
                from: self.from,
                end: other.from.max(self.from),
            };
        }
        self
    }
}

/// What was written to a file since its last good sync, and what of that a failed sync was to keep.
#[derive(Drop)]
pub struct Unkept {
    pub written: Span,
    pub lost: Span,
}

impl Unkept {
    /// Nothing was written.
    pub fn none() -> Unkept
        ensures written { (place : ℕ) → Among result.written place → ⊥ }
        ensures lost { (place : ℕ) → Among result.lost place → ⊥ }
    {
        Unkept {
            written: Span::none(),
            lost: Span::none(),
        }
    }

    /// So many bytes were written from a place on.
    pub fn wrote(&mut self, from: u64, count: u64)
        ensures noted { (place : ℕ) → from ≤ place → place < from + count → place < 2 ^ 64 - 1 → Among self.new.written place }
        ensures kept { (place : ℕ) → Among self.old.written place → Among self.new.written place }
        ensures lost { (place : ℕ) → Among self.old.lost place → (from ≤ place → place < from + count → ⊥) → Among self.new.lost place }
    {
        let span = Span::at(from, count);
        self.lost = self.lost.without(span);
        self.written = self.written.with(span);
    }

    /// Some of so many bytes from a place on may have been written.
    pub fn tried(&mut self, from: u64, count: u64)
        ensures noted { (place : ℕ) → from ≤ place → place < from + count → place < 2 ^ 64 - 1 → Among self.new.written place }
        ensures kept { (place : ℕ) → Among self.old.written place → Among self.new.written place }
        ensures lost { self.new.lost ≡ self.old.lost }
    {
        self.written = self.written.with(Span::at(from, count));
    }

    /// A sync failed: all that was written has to be written again.
    pub fn failed(&mut self)
        ensures written { (place : ℕ) → Among self.old.written place → Among self.new.lost place }
        ensures lost { (place : ℕ) → Among self.old.lost place → Among self.new.lost place }
    {
        self.lost = self.lost.with(self.written);
    }

    /// All that failed syncs were to keep was written again.
    pub fn is_whole(&self) -> bool
        ensures { result ≡ true → (place : ℕ) → Among self.now.lost place → ⊥ }
    {
        self.lost.from >= self.lost.end
    }

    /// A sync went well, and nothing was lost before.
    pub fn synced(&mut self)
        ensures written { (place : ℕ) → Among self.new.written place → ⊥ }
        ensures lost { self.new.lost ≡ self.old.lost }
    {
        self.written = Span::none();
    }
}
