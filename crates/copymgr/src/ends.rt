ghost use Rattle.std.specs.Prelude.{◌≡◌, ◌≤◌, length, drop, Some, None};
ghost use Rattle.cm_base.specs.Sides.{no_side};

use cm_base::{Bytes, ReadFailed, Sink, Source, WriteFailed};
use std::marker::Model;

/// A source of bytes that are at hand. It never fails.
#[derive(Drop)]
pub struct AtHand {
    bytes: Bytes,
    at: usize,
}

impl Model for AtHand {
    ghost use Rattle.std.specs.Prelude.{◌≤◌, length, drop};
    ghost use Rattle.copymgr.specs.AtHand.{Left};

    ghost Value = { Left };

    ghost view = { λ s. record { left = drop s.at s.bytes } };

    ghost invariant = { λ s. s.at ≤ length s.bytes };
}

impl AtHand {
    /// A source that gives these bytes, and then ends.
    pub fn new(bytes: Bytes) -> AtHand
        ensures { ⟦<AtHand as Source>⟧.left result ≡ Some bytes }
    {
        AtHand { bytes, at: 0 }
    }
}

impl Source for AtHand {
    ghost left = { λ s. Some s.left };

    ghost read_faults = { λ _. 0 };

    ghost unpulled = { λ _. no_side };

    fn pull(&mut self, into: &mut [u8]) -> Result<usize, ReadFailed> {
        let count = into.len().min(self.bytes.len() - self.at);
        let next = &self.bytes.as_slice()[self.at..self.at + count];
        into[..count].copy_from_slice(next);
        self.at += count;
        Ok(count)
    }
}

/// A sink that drops all that it takes. It never fails.
#[derive(Drop)]
pub struct Dropped;

impl Sink for Dropped {
    ghost taken = { λ _. None };

    ghost write_faults = { λ _. 0 };

    ghost unpushed = { λ _. no_side };

    fn push(&mut self, from: &[u8]) -> Result<usize, WriteFailed> {
        Ok(from.len())
    }
}
