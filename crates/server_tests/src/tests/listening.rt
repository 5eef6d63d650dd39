// A listener for tests, whose links can be looked at when they were given back. It tells nothing of them.
ghost use Rattle.std.specs.Prelude.{None, refl};

use super::*;
use cm_base::{AcceptFailed, Listener};
use std::collections::VecDeque;

/// What a link will give, and which of its pulls fail.
#[derive(Drop)]
struct Coming {
    bytes: Bytes,
    failing: CallList,
}

#[derive(Drop)]
pub struct TestListener {
    alloc: Global,
    coming: VecDeque<Coming>,
    ended: Vec<MemoryLink>,
    faults: u64,
}

impl TestListener {
    /// A listener to which nothing comes.
    pub fn new(alloc: Global) -> TestListener {
        TestListener {
            alloc,
            coming: VecDeque::new(alloc),
            ended: Vec::new(alloc),
            faults: 0,
        }
    }

    /// One more link comes, which gives these bytes, and of whose pulls those listed fail.
    pub fn add(&mut self, bytes: Bytes, failing: CallList) -> Result<(), Fail> {
        self.coming.push_back(Coming { bytes, failing })?;
        Ok(())
    }

    /// What a link took that was given back.
    pub fn taken(&self, index: usize) -> &[u8] {
        match self.ended.get(index) {
            Some(link) => link.taken(),
            None => b"",
        }
    }
}

impl Listener for TestListener {
    type Conn = MemoryLink;

    ghost coming = { λ _. None };

    ghost out = { λ _. None };

    ghost ended = { λ _. None };

    ghost accept_faults = { λ l. l.faults };

    fn accept(&mut self) -> Result<MemoryLink, AcceptFailed> {
        match self.coming.pop_front() {
            Some(Coming { bytes, failing }) => {
                let source = MemorySource::new(bytes, 4096, failing);
                let sink = MemorySink::new(self.alloc, 4096, CallList::empty(self.alloc));
                Ok(MemoryLink::new(source, sink))
            }
            None => {
                self.faults = self.faults.saturating_add(1);
                Err(AcceptFailed)
            }
        }
    }

    fn done(&mut self, link: MemoryLink) {
        let _ = self.ended.push(link);
    }

    ghost told_together = { λ l. refl };
}
