ghost use Rattle.std.specs.Prelude.{◌≡◌, ◌<◌, [], min, take, length, is_err, IsTrue, IsErr, IfOk, OnErr, Some, refl};
ghost use Rattle.cm_base.specs.Memory.{Ends, is_listed, after_pull, after_failed_pull, after_push, after_failed_push};
ghost use Rattle.cm_base.specs.Outside.{Faulted};

use crate::link::Link;
use crate::memory_sink::MemorySink;
use crate::memory_source::MemorySource;
use crate::sequence::Sequence;
use crate::sink::{Sink, WriteFailed};
use crate::source::{ReadFailed, Source};
use std::marker::Model;

/// A connection in memory: a source of what it has to give, and a sink of what it takes.
#[derive(Drop)]
pub struct MemoryLink {
    source: MemorySource,
    sink: MemorySink,
}

pub type LinkList = Sequence<MemoryLink>;

impl Model for MemoryLink {
    ghost use Rattle.cm_base.specs.Memory.{Ends};

    ghost Value = { Ends };

    ghost view = { λ k. record { input = k.source; output = k.sink } };
}

impl MemoryLink {
    /// The connection of these two. It takes no memory.
    pub fn new(source: MemorySource, sink: MemorySink) -> MemoryLink
        ensures made { result ≡ record { input = source; output = sink } }
        ensures left { ⟦<MemoryLink as Source>⟧.left result ≡ Some source.left }
        ensures taken { ⟦<MemoryLink as Sink>⟧.taken result ≡ Some sink.taken }
    {
        MemoryLink { source, sink }
    }

    /// What was taken so far. It takes no memory.
    pub fn taken(&self) -> &[u8]
        ensures { ⟦<MemoryLink as Sink>⟧.taken self.now ≡ Some result.now }
    {
        self.sink.as_slice()
    }
}

impl Source for MemoryLink {
    ghost left = { λ k. Some k.input.left };

    ghost read_faults = { λ k. k.input.faults };

    ghost unpulled = { λ k. record { bytes = Some k.output.taken; faults = k.output.faults } };

    fn pull(&mut self, into: &mut [u8]) -> Result<usize, ReadFailed>
        ensures listed { is_err result ≡ is_listed self.old.input.failing self.old.input.calls }
        ensures count { IfOk result
            (λ n. n ≡ min (min (length into.old) self.old.input.step) (length self.old.input.left)) }
        ensures given { IfOk result (λ n. (take n into.new ≡ take n self.old.input.left)
            × (self.new ≡ record self.old { input = after_pull n self.old.input })) }
        ensures ended { IfOk result (λ n. n ≡ 0 → 0 < length into.new → self.new.input.left ≡ []) }
        ensures failed { OnErr result (self.new
            ≡ record self.old { input = after_failed_pull self.old.input }) }
        ensures faulted { OnErr result (Faulted self.old.input.faults self.new.input.faults) }
    {
        self.source.pull(into)
    }
}

impl Sink for MemoryLink {
    ghost taken = { λ k. Some k.output.taken };

    ghost write_faults = { λ k. k.output.faults };

    ghost unpushed = { λ k. record { bytes = Some k.input.left; faults = k.input.faults } };

    fn push(&mut self, from: &[u8]) -> Result<usize, WriteFailed>
        ensures listed { IsTrue (is_listed self.old.output.failing self.old.output.calls) → IsErr result }
        ensures count { IfOk result (λ n. n ≡ min (length from.now) self.old.output.step) }
        ensures some { IfOk result (λ n. 0 < length from.now → 0 < n) }
        ensures grown { IfOk result (λ n. self.new
            ≡ record self.old { output = after_push (take n from.now) self.old.output }) }
        ensures failed { OnErr result (self.new
            ≡ record self.old { output = after_failed_push self.old.output }) }
        ensures faulted { OnErr result (Faulted self.old.output.faults self.new.output.faults) }
    {
        self.sink.push(from)
    }
}

impl Link for MemoryLink {
    ghost pulls_apart = { λ k. refl };

    ghost pushes_apart = { λ k. refl };

    /// A link in memory is kept whole, with what it took.
    fn close(&mut self)
        ensures { self.new ≡ self.old }
    {}
}
