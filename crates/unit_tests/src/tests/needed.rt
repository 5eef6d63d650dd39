// How many versions of a unit's blocks are needed after each act, counted block by block: those that are current, and
// those that live tokens show.
use cm_base::OutOfMemory;
use cm_history::{Act, Actor, Answer, Entry, OpState};
use lba_ranges::{BlockList, RangeList};
use rod_token::{TokenKind, classify};
use std::alloc::Global;

/// A live token. Fewer than 64 are made in a history, so none makes room for another.
#[derive(Drop)]
struct Shown {
    serial: u64,
    timeout: u64,
    last_use: u64,
    /// Of each block the number of the act that wrote what is shown, or `None` where nothing is.
    writers: Vec<Option<u32>>,
}

/// A block that is written, and whether it is mapped then.
#[derive(Drop, Clone, Copy)]
struct Target {
    block: u64,
    is_mapped: bool,
}

/// Whose operation it is: of an initiator by its list identifier.
#[derive(Drop, Clone, Copy)]
struct Key {
    nexus: u32,
    id: u32,
}

/// A token write that runs, and how many of its blocks are written.
#[derive(Drop)]
struct Running {
    key: Key,
    is_background: bool,
    targets: Vec<Target>,
    written: usize,
}

/// Adds the blocks of a range.
fn push_row(blocks: &mut Vec<u64>, lba: u64, count: u64) -> Result<(), OutOfMemory> {
    for index in 0..count {
        blocks.push(lba.saturating_add(index))?;
    }
    Ok(())
}

/// The blocks of ranges, in their order.
fn blocks_of(alloc: Global, ranges: &RangeList) -> Result<Vec<u64>, OutOfMemory> {
    let mut blocks = Vec::new(alloc);
    for index in 0..ranges.len() {
        let range = ranges.at(index);
        push_row(&mut blocks, range.lba, u64::from(range.count))?;
    }
    Ok(blocks)
}

/// These blocks, each with what is written to it.
fn targets_of(alloc: Global, blocks: &[u64], list: &BlockList) -> Result<Vec<Target>, OutOfMemory> {
    let mut targets = Vec::new(alloc);
    for (place, block) in blocks.iter().enumerate() {
        targets.push(Target {
            block: *block,
            is_mapped: list.held(place as u64).is_some(),
        })?;
    }
    Ok(targets)
}

/// The versions of the blocks of one unit.
#[derive(Drop)]
pub(crate) struct Needed {
    /// Of each block the number of the act that last wrote it, or `None` where it is unmapped.
    current: Vec<Option<u32>>,
    tokens: Vec<Shown>,
    running: Vec<Running>,
    moment: u64,
    /// How many acts there were.
    acts: u32,
}

impl Needed {
    /// So many blocks, all unmapped.
    pub(crate) fn new(alloc: Global, blocks: u64) -> Result<Needed, OutOfMemory> {
        let mut current = Vec::new(alloc);
        for _ in 0..blocks {
            current.push(None)?;
        }
        Ok(Needed {
            current,
            tokens: Vec::new(alloc),
            running: Vec::new(alloc),
            moment: 0,
            acts: 0,
        })
    }

    /// These blocks are written or unmapped by the act.
    fn put(&mut self, targets: &[Target]) {
        for target in targets {
            if let Some(writer) = self.current.get_mut(target.block as usize) {
                *writer = if target.is_mapped {
                    Some(self.acts)
                } else {
                    None
                };
            }
        }
    }

    /// The blocks from an address on are written.
    fn write(&mut self, alloc: Global, lba: u64, list: &BlockList) -> Result<(), OutOfMemory> {
        let mut blocks = Vec::new(alloc);
        push_row(&mut blocks, lba, list.blocks())?;
        self.put(&targets_of(alloc, &blocks, list)?);
        Ok(())
    }

    /// The blocks are unmapped.
    fn unmap(&mut self, alloc: Global, ranges: &RangeList) -> Result<(), OutOfMemory> {
        let blocks = blocks_of(alloc, ranges)?;
        let none = BlockList::empty(alloc, 512);
        self.put(&targets_of(alloc, &blocks, &none)?);
        Ok(())
    }

    /// A token is made, which shows these blocks as they stand.
    fn freeze(
        &mut self,
        alloc: Global,
        serial: u64,
        timeout: u32,
        ranges: &RangeList,
    ) -> Result<(), OutOfMemory> {
        let blocks = blocks_of(alloc, ranges)?;
        let mut writers = Vec::new(alloc);
        for (block, writer) in self.current.iter().enumerate() {
            let is_shown = blocks.iter().any(|shown| *shown == block as u64);
            writers.push(if is_shown { *writer } else { None })?;
        }
        self.tokens.push(Shown {
            serial,
            timeout: u64::from(timeout),
            last_use: self.moment,
            writers,
        })?;
        Ok(())
    }

    /// The token that the text names is used.
    fn redeem(&mut self, text: &[u8; 512]) {
        let TokenKind::Names { serial: used, .. } = classify(text) else {
            return;
        };
        for token in self.tokens.iter_mut() {
            if token.serial == used {
                token.last_use = self.moment;
            }
        }
    }

    /// The place of the token write that an act serves: of the initiator's by this identifier, or by a pump the one in
    /// the background that was begun first.
    fn served(&self, actor: Actor, id: u32) -> Option<usize> {
        match actor {
            Actor::Nexus(nexus) => self.running.iter().position(|it| {
                !it.is_background && it.key.nexus == nexus && it.key.id == id
            }),
            Actor::Pump(_) => self.running.iter().position(|it| it.is_background),
        }
    }

    /// A token write has so many blocks written.
    fn advance(&mut self, alloc: Global, place: usize, count: u32) -> Result<(), OutOfMemory> {
        let mut piece = Vec::new(alloc);
        if let Some(operation) = self.running.get_mut(place) {
            for target in operation.targets.iter().skip(operation.written) {
                piece.push(*target)?;
            }
            piece.truncate((count as usize).saturating_sub(operation.written));
            operation.written = count as usize;
        }
        self.put(&piece);
        Ok(())
    }

    /// The initiator's token writes by this identifier are over.
    fn end(&mut self, actor: Actor, id: u32) {
        if let Actor::Nexus(nexus) = actor {
            self.running
                .retain(|it| it.key.nexus != nexus || it.key.id != id);
        }
    }

    /// An act that was answered Done.
    fn note_done(&mut self, alloc: Global, entry: &Entry) -> Result<(), OutOfMemory> {
        match &entry.act {
            Act::Write { lba, list } | Act::Put { lba, list } => self.write(alloc, *lba, list),
            Act::Unmap { ranges } => self.unmap(alloc, ranges),
            Act::Delete { serial } => {
                let deleted = *serial;
                self.tokens.retain(|token| token.serial != deleted);
                Ok(())
            }
            Act::Abort { id } => {
                self.end(entry.actor, *id);
                Ok(())
            }
            _ => Ok(()),
        }
    }

    /// A token write begins.
    fn start(
        &mut self,
        alloc: Global,
        key: Key,
        is_background: bool,
        ranges: &RangeList,
        rod: &BlockList,
    ) -> Result<(), OutOfMemory> {
        let blocks = blocks_of(alloc, ranges)?;
        let targets = targets_of(alloc, &blocks, rod)?;
        self.running.push(Running {
            key,
            is_background,
            targets,
            written: 0,
        })?;
        Ok(())
    }

    /// An act that was answered by how far a token write has come, which runs on or is over.
    fn note_progress(
        &mut self,
        alloc: Global,
        entry: &Entry,
        count: u32,
        runs: bool,
    ) -> Result<(), OutOfMemory> {
        let id = match (&entry.act, entry.actor) {
            (
                Act::Start {
                    id,
                    background,
                    ranges,
                    rod,
                },
                Actor::Nexus(nexus),
            ) => {
                let key = Key { nexus, id: *id };
                return self.start(alloc, key, *background, ranges, rod.list());
            }
            (Act::Advance { id } | Act::End { id }, _) => *id,
            _ => 0,
        };
        let Some(place) = self.served(entry.actor, id) else {
            return Ok(());
        };
        self.advance(alloc, place, count)?;
        if !runs && place < self.running.len() {
            self.running.remove(place);
        }
        Ok(())
    }

    /// An act of the unit, and what it was answered.
    pub(crate) fn note(
        &mut self,
        alloc: Global,
        entry: &Entry,
        answer: &Answer,
    ) -> Result<(), OutOfMemory> {
        self.acts = self.acts.saturating_add(1);
        self.moment = self.moment.max(entry.moment);
        let moment = self.moment;
        self.tokens.retain(|token| moment <= token.last_use.saturating_add(token.timeout));
        match answer {
            Answer::Done => self.note_done(alloc, entry),
            Answer::Progress { state, count } => {
                self.note_progress(alloc, entry, *count, matches!(state, OpState::Running))
            }
            Answer::Made { serial } => {
                if let Act::Populate {
                    timeout,
                    ranges,
                    ..
                } = &entry.act
                {
                    self.freeze(alloc, *serial, *timeout, ranges)?;
                }
                Ok(())
            }
            Answer::Rod(_) => {
                if let Act::Redeem { text, .. } = &entry.act {
                    self.redeem(text.bytes());
                }
                Ok(())
            }
            _ => Ok(()),
        }
    }

    /// How many versions of a block are needed, of which this is current.
    fn versions(
        &self,
        alloc: Global,
        block: usize,
        current: Option<u32>,
    ) -> Result<usize, OutOfMemory> {
        let mut writers = Vec::new(alloc);
        if let Some(writer) = current {
            writers.push(writer)?;
        }
        for token in &self.tokens {
            if let Some(Some(writer)) = token.writers.get(block) {
                if !writers.contains(writer) {
                    writers.push(*writer)?;
                }
            }
        }
        Ok(writers.len())
    }

    /// How many versions are needed.
    pub(crate) fn count(&self, alloc: Global) -> Result<u64, OutOfMemory> {
        let mut all = 0u64;
        for (block, current) in self.current.iter().enumerate() {
            all = all.saturating_add(self.versions(alloc, block, *current)? as u64);
        }
        Ok(all)
    }
}
