ghost use Rattle.std.specs.Prelude.{◌≡◌, ◌≤◌, ◌<◌, length, take, false, IfOk, OnOk, OnErr};
ghost use Rattle.std.specs.Io.KnownBytes.{Consumes, Keeps, IsAtEnd};
ghost use Rattle.cm_base.specs.Outside.{StaysTold};
ghost use Rattle.cm_base.specs.Sides.{no_side};
ghost use Rattle.copymgr.specs.Chained.{left_of, joined};

use cm_base::{ReadFailed, Source};

/// A source to its end, and then another one. The first is not asked again once it has ended.
#[derive(Drop)]
pub struct Chained<A, B> {
    first: A,
    second: B,
    /// The first has ended.
    ended: bool,
    faults: u64,
}

impl<A: Source, B: Source> Chained<A, B> {
    /// Two sources, one behind the other, with no fault so far.
    pub fn new(first: A, second: B) -> Chained<A, B>
        ensures left { ⟦<Chained<A, B> as Source>⟧.left result ≡ joined (A.left first) (B.left second) }
        ensures faults { ⟦<Chained<A, B> as Source>⟧.read_faults result ≡ 0 }
    {
        Chained {
            first,
            second,
            ended: false,
            faults: 0,
        }
    }

    /// The source behind the first.
    pub fn second(&self) -> &B {
        &self.second
    }

    /// What a pull gives, without a count of its faults.
    fn next(&mut self, into: &mut [u8]) -> Result<usize, ReadFailed>
        ensures within { IfOk result (λ n. n ≤ length into.new) }
        ensures taken { IfOk result (λ n. Consumes
            (joined (left_of self.old.ended (A.left self.old.first)) (B.left self.old.second))
            (joined (left_of self.new.ended (A.left self.new.first)) (B.left self.new.second)) (take n into.new)) }
        ensures ended { IfOk result (λ n. n ≡ 0 → 0 < length into.new
            → IsAtEnd (joined (left_of self.new.ended (A.left self.new.first)) (B.left self.new.second))) }
        ensures kept { OnErr result (Keeps
            (joined (left_of self.old.ended (A.left self.old.first)) (B.left self.old.second))
            (joined (left_of self.new.ended (A.left self.new.first)) (B.left self.new.second))) }
        ensures told { StaysTold
            (joined (left_of self.old.ended (A.left self.old.first)) (B.left self.old.second))
            (joined (left_of self.new.ended (A.left self.new.first)) (B.left self.new.second)) }
        ensures faults { self.new.faults ≡ self.old.faults }
    {
        if !self.ended {
            let count = self.first.pull(into)?;
            if count > 0 || into.is_empty() {
                return Ok(count);
            }
            self.ended = true;
        }
        self.second.pull(into)
    }
}

impl<A: Source, B: Source> Source for Chained<A, B> {
    ghost left = { λ s. joined (left_of s.ended (A.left s.first)) (B.left s.second) };

    ghost read_faults = { λ s. s.faults };

    ghost unpulled = { λ _. no_side };

    fn pull(&mut self, into: &mut [u8]) -> Result<usize, ReadFailed> {
        match self.next(into) {
            Ok(count) => Ok(count),
            Err(ReadFailed) => {
                self.faults = self.faults.saturating_add(1);
                Err(ReadFailed)
            }
        }
    }
}
