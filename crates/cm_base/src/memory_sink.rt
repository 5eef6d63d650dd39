ghost use Rattle.std.specs.Prelude.{◌≡◌, ◌<◌, ◌≤◌, [], ◌++◌, min, take, length, IsTrue, IsErr, IfOk, OnErr, Some};
ghost use Rattle.cm_base.specs.Memory.{Output, is_listed, after_push, after_failed_push};
ghost use Rattle.cm_base.specs.Outside.{Faulted};
ghost use Rattle.cm_base.specs.Sides.{no_side};

use crate::config::CallList;
use crate::sequence::Bytes;
use crate::sink::{Sink, WriteFailed};
use std::alloc::Global;
use std::marker::Model;

/// A sink that keeps its bytes in memory, takes few at a time and fails at chosen pushes.
#[derive(Drop)]
pub struct MemorySink {
    bytes: Bytes,
    step: usize,
    failing: CallList,
    calls: u64,
    faults: u64,
}

impl Model for MemorySink {
    ghost use Rattle.std.specs.Prelude.{◌≤◌};
    ghost use Rattle.cm_base.specs.Memory.{Output};

    ghost Value = { Output };

    ghost view = { λ s. record {
      taken = s.bytes;
      step = s.step;
      failing = s.failing;
      calls = s.calls;
      faults = s.faults;
    } };

    ghost invariant = { λ s. 1 ≤ s.step };
}

impl MemorySink {
    /// A sink that took nothing yet. A push takes at most `step` bytes, and fails where its
    /// number, from 1, is listed, or where memory is wanted and not had. It takes no memory.
    pub fn new(alloc: Global, step: usize, failing: CallList) -> MemorySink
        requires { 1 ≤ step }
        ensures made { result
            ≡ record { taken = []; step = step; failing = failing; calls = 0; faults = 0 } }
        ensures taken { ⟦<MemorySink as Sink>⟧.taken result ≡ Some [] }
        ensures faults { ⟦<MemorySink as Sink>⟧.write_faults result ≡ 0 }
    {
        MemorySink {
            bytes: Bytes::empty(alloc),
            step,
            failing,
            calls: 0,
            faults: 0,
        }
    }

    /// What was taken so far.
    pub fn as_slice(&self) -> &[u8]
        ensures { ⟦<MemorySink as Sink>⟧.taken self.now ≡ Some result.now }
    {
        self.bytes.as_slice()
    }
}

impl Sink for MemorySink {
    ghost taken = { λ s. Some s.taken };

    ghost write_faults = { λ s. s.faults };

    ghost unpushed = { λ _. no_side };

    fn push(&mut self, from: &[u8]) -> Result<usize, WriteFailed>
        ensures listed { IsTrue (is_listed self.old.failing self.old.calls) → IsErr result }
        ensures count { IfOk result (λ n. n ≡ min (length from.now) self.old.step) }
        ensures some { IfOk result (λ n. 0 < length from.now → 0 < n) }
        ensures grown { IfOk result (λ n. self.new ≡ after_push (take n from.now) self.old) }
        ensures failed { OnErr result (self.new ≡ after_failed_push self.old) }
        ensures faulted { OnErr result (Faulted self.old.faults self.new.faults) }
    {
        self.calls = self.calls.saturating_add(1);
        let count = from.len().min(self.step);
        if self.failing.as_slice().contains(&self.calls)
            || self.bytes.extend(&from[..count]).is_err()
        {
            self.faults = self.faults.saturating_add(1);
            return Err(WriteFailed);
        }
        Ok(count)
    }
}
