ghost use Rattle.std.specs.Prelude.{◌≡◌, ◌<◌, ◌≤◌, [], min, take, drop, length, is_err, IfOk, OnErr, Some};
ghost use Rattle.cm_base.specs.Memory.{Input, is_listed, after_pull, after_failed_pull};
ghost use Rattle.cm_base.specs.Outside.{Faulted};
ghost use Rattle.cm_base.specs.Sides.{no_side};

use crate::config::CallList;
use crate::sequence::Bytes;
use crate::source::{ReadFailed, Source};
use std::marker::Model;

/// A source over bytes in memory, which gives few bytes at a time and fails at chosen pulls.
#[derive(Drop)]
pub struct MemorySource {
    bytes: Bytes,
    at: usize,
    step: usize,
    failing: CallList,
    calls: u64,
    faults: u64,
}

impl Model for MemorySource {
    ghost use Rattle.std.specs.Prelude.{◌≤◌, length, drop};
    ghost use Rattle.cm_base.specs.Memory.{Input};

    ghost Value = { Input };

    ghost view = { λ s. record {
      left = drop s.at s.bytes;
      step = s.step;
      failing = s.failing;
      calls = s.calls;
      faults = s.faults;
    } };

    ghost invariant = { λ s. (s.at ≤ length s.bytes) × (1 ≤ s.step) };
}

impl MemorySource {
    /// A source of these bytes. A pull gives at most `step` of them, and fails where its number,
    /// from 1, is listed. It takes no memory.
    pub fn new(bytes: Bytes, step: usize, failing: CallList) -> MemorySource
        requires { 1 ≤ step }
        ensures made { result
            ≡ record { left = bytes; step = step; failing = failing; calls = 0; faults = 0 } }
        ensures left { ⟦<MemorySource as Source>⟧.left result ≡ Some bytes }
        ensures faults { ⟦<MemorySource as Source>⟧.read_faults result ≡ 0 }
    {
        MemorySource {
            bytes,
            at: 0,
            step,
            failing,
            calls: 0,
            faults: 0,
        }
    }
}

impl Source for MemorySource {
    ghost left = { λ s. Some s.left };

    ghost read_faults = { λ s. s.faults };

    ghost unpulled = { λ _. no_side };

    fn pull(&mut self, into: &mut [u8]) -> Result<usize, ReadFailed>
        ensures listed { is_err result ≡ is_listed self.old.failing self.old.calls }
        ensures count { IfOk result
            (λ n. n ≡ min (min (length into.old) self.old.step) (length self.old.left)) }
        ensures given { IfOk result (λ n. (take n into.new ≡ take n self.old.left)
            × (self.new ≡ after_pull n self.old)) }
        ensures ended { IfOk result (λ n. n ≡ 0 → 0 < length into.new → self.new.left ≡ []) }
        ensures failed { OnErr result (self.new ≡ after_failed_pull self.old) }
        ensures faulted { OnErr result (Faulted self.old.faults self.new.faults) }
    {
        self.calls = self.calls.saturating_add(1);
        if self.failing.as_slice().contains(&self.calls) {
            self.faults = self.faults.saturating_add(1);
            return Err(ReadFailed);
        }
        let count = into.len().min(self.step).min(self.bytes.len() - self.at);
        let next = &self.bytes.as_slice()[self.at..self.at + count];
        into[..count].copy_from_slice(next);
        self.at += count;
        Ok(count)
    }
}
