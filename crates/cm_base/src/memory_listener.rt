ghost use Rattle.std.specs.Prelude.{◌≡◌, ◌==◌, ◌||◌, ◌+◌, ◌-◌, ◌<◌, ◌∷◌, ◌++◌, [], length, map, slice_get, All, Some, suc, is_err, IfOk, OnOk, OnErr, refl};
ghost use Rattle.cm_base.specs.Listening.{HandsOut};
ghost use Rattle.cm_base.specs.Memory.{Ends, Listening, IsFresh, coming_of, gone_of, one_more, is_listed};
ghost use Rattle.cm_base.specs.Outside.{Faulted};

use crate::config::CallList;
use crate::listener::{AcceptFailed, Listener};
use crate::memory_link::{LinkList, MemoryLink};
use crate::out_of_memory::OutOfMemory;
use crate::room::SequenceRoom;
use std::alloc::Global;
use std::collections::VecDeque;
use std::marker::Model;

/// A listener that hands out links in memory, in order, and fails at chosen accepts.
#[derive(Drop)]
pub struct MemoryListener {
    waiting: VecDeque<MemoryLink>,
    /// The links that were given back, with room for all that were not.
    gone: SequenceRoom<MemoryLink>,
    /// Links in all.
    links: usize,
    failing: CallList,
    calls: u64,
    faults: u64,
}

impl Model for MemoryListener {
    ghost use Rattle.std.specs.Prelude.{◌+◌, ◌-◌, ◌≤◌, length, All};
    ghost use Rattle.cm_base.specs.Memory.{Listening, IsFresh};

    ghost Value = { Listening };

    ghost view = { λ l. record {
      waiting = l.waiting.items;
      gone = l.gone.items;
      out = l.links - (length l.waiting.items + length l.gone.items);
      failing = l.failing;
      calls = l.calls;
      faults = l.faults;
    } };

    ghost invariant = { λ l. All IsFresh l.waiting.items × (length l.waiting.items + length l.gone.items ≤ l.links)
        × (l.links ≤ length l.gone.items + l.gone.spare) };
}

impl MemoryListener {
    /// A listener for these links, on which nothing was done yet. An accept fails where its number,
    /// from 1, is listed, and where no link is left.
    ///
    /// It takes memory for the links that are given back; nothing else does.
    pub fn new(
        alloc: Global,
        links: LinkList,
        failing: CallList,
    ) -> Result<MemoryListener, OutOfMemory>
        requires { All IsFresh links }
        ensures { IfOk result (λ l. l
            ≡ record { waiting = links; gone = []; out = 0; failing = failing; calls = 0; faults = 0 }) }
    {
        let count = links.len();
        let mut gone = SequenceRoom::empty(alloc);
        gone.reserve(count as u64)?;
        Ok(MemoryListener {
            waiting: VecDeque::from_vec(links.into_vec()),
            gone,
            links: count,
            failing,
            calls: 0,
            faults: 0,
        })
    }

    /// A link that was given back; the first is at 0. It takes no memory.
    pub fn ended(&self, index: usize) -> &MemoryLink
        requires { index < length self.now.gone }
        ensures { slice_get self.now.gone index ≡ Some result.now }
    {
        self.gone.at(index)
    }

    /// Counts a fault.
    fn fail(&mut self) -> AcceptFailed
        ensures { self.new ≡ record self.old { faults = one_more self.old.faults } }
    {
        self.faults = self.faults.saturating_add(1);
        AcceptFailed
    }
}

impl Listener for MemoryListener {
    type Conn = MemoryLink;

    ghost coming = { λ l. Some (coming_of l.waiting) };

    ghost out = { λ l. Some l.out };

    ghost ended = { λ l. Some (map gone_of l.gone) };

    ghost accept_faults = { λ l. l.faults };

    fn accept(&mut self) -> Result<MemoryLink, AcceptFailed>
        ensures failing { is_err result ≡ (is_listed self.old.failing self.old.calls || (length self.old.waiting == 0)) }
        ensures given { IfOk result (λ link. self.old.waiting ≡ link ∷ self.new.waiting) }
        ensures fresh { IfOk result IsFresh }
        ensures first { IfOk result (λ link.
            HandsOut (Some (coming_of self.old.waiting)) (Some (coming_of self.new.waiting)) (Some link.input.left)) }
        ensures accepted { OnOk result (self.new ≡ record self.old { waiting = self.new.waiting; out = suc self.old.out; calls = one_more self.old.calls }) }
        ensures failed { OnErr result (self.new ≡ record self.old { calls = one_more self.old.calls; faults = one_more self.old.faults }) }
        ensures faulted { OnErr result (Faulted self.old.faults self.new.faults) }
    {
        self.calls = self.calls.saturating_add(1);
        if self.failing.as_slice().contains(&self.calls) {
            return Err(self.fail());
        }
        match self.waiting.pop_front() {
            Some(link) => Ok(link),
            None => Err(self.fail()),
        }
    }

    fn done(&mut self, link: MemoryLink)
        requires { 0 < self.old.out }
        ensures ended { map gone_of self.new.gone ≡ map gone_of self.old.gone ++ gone_of link ∷ [] }
        ensures taken { self.new ≡ record self.old { gone = self.old.gone ++ link ∷ []; out = self.old.out - 1 } }
    {
        self.gone.append(link);
    }

    ghost told_together = { λ l. refl };
}
