ghost use Rattle.std.specs.Prelude.{◌≡◌, ◌==◌, ◌+◌, ◌<◌, ◌≤◌, ◌^◌, ◌++◌, [], length, slice_range, take, Some, IfOk, IfErr, IfSome, IsOk};
ghost use Rattle.std.specs.Range.Bound.{start_index, end_index};

use crate::out_of_memory::OutOfMemory;
use crate::part::Part;
use std::alloc::{AllocError, AllocFailed, Global};
use std::marker::Model;
use std::ops::RangeBounds;
use std::slice;

/// Bytes that never change: a part of a block that others share. Cloning and slicing copy none of
/// them. Contracts see the bytes alone; none speaks of the hint, which all parts of a block have in
/// common.
#[derive(Drop)]
pub struct Payload {
    part: Option<Part>,
}

impl Model for Payload {
    ghost use Rattle.std.specs.Prelude.{List, ℕ};
    ghost use Rattle.cm_base.specs.inner.Parts.{bytes_or_none};

    ghost Value = { List ℕ };

    ghost view = { λ p. bytes_or_none p.part };
}

impl Payload {
    /// No bytes. It takes no memory.
    pub fn new() -> Payload
        ensures { result ≡ [] }
    {
        Payload { part: None }
    }

    /// A block of its own with a copy of the bytes.
    pub fn copy_from_slice(alloc: Global, bytes: &[u8]) -> Result<Payload, OutOfMemory>
        ensures { IfOk result (λ p. p ≡ bytes.now) }
    {
        Ok(Payload::from_vec(Vec::from_slice(alloc, bytes)?)?)
    }

    /// The bytes of a vector, which becomes the block. It copies none. At `Err` the vector is handed
    /// back.
    pub fn from_vec(bytes: Vec<u8>) -> Result<Payload, AllocFailed<Vec<u8>>>
        ensures ok { IfOk result (λ p. p ≡ bytes.items) }
        ensures value_returned { IfErr result (λ e. e.value.items ≡ bytes.items) }
    {
        let part = Part::of_vec(bytes)?;
        Ok(Payload { part: Some(part) })
    }

    /// How many bytes.
    pub fn len(&self) -> usize
        ensures value { result ≡ length self.now }
        ensures bound { result < 2 ^ 63 }
    {
        match &self.part {
            Some(part) => part.len(),
            None => 0,
        }
    }

    /// There is no byte.
    pub fn is_empty(&self) -> bool
        ensures { result ≡ (length self.now == 0) }
    {
        self.len() == 0
    }

    /// The bytes.
    pub fn as_slice(&self) -> &[u8]
        ensures { result.now ≡ self.now }
    {
        match &self.part {
            Some(part) => part.as_slice(),
            None => &[],
        }
    }

    fn cut(&self, from: usize, to: usize) -> Result<Payload, AllocError>
        requires order { from < to }
        requires within { to ≤ length self.now }
        ensures { IfOk result (λ b. b ≡ slice_range self.now from to) }
    {
        match &self.part {
            Some(part) => {
                let part = part.part(from, to)?;
                Ok(Payload { part: Some(part) })
            }
            None => Ok(Payload::new()),
        }
    }

    /// Some of the bytes, as a part of the same block. At `Err` the block has too many parts.
    pub fn slice<R: RangeBounds<usize>>(&self, range: R) -> Result<Payload, AllocError>
        requires known { R.has_bounds range }
        requires start_le_end { start_index (R.start_bound range) ≤ end_index (R.end_bound range) (length self.now) }
        requires in_bounds { end_index (R.end_bound range) (length self.now) ≤ length self.now }
        ensures ok { IfOk result (λ b. b ≡ slice_range self.now (start_index (R.start_bound range)) (end_index (R.end_bound range) (length self.now))) }
        ensures empty { start_index (R.start_bound range) ≡ end_index (R.end_bound range) (length self.now) → IsOk result }
    {
        let part = slice::range(range, ..self.len());
        if part.start == part.end {
            return Ok(Payload::new());
        }
        self.cut(part.start, part.end)
    }

    /// Lets go of all but the first `len` bytes.
    pub fn truncate(&mut self, len: usize)
        ensures { self.new ≡ take len self.old }
    {
        if let Some(part) = &mut self.part {
            part.truncate(len);
        }
    }

    /// The bytes of both, one behind the other, where they lie so in one block; `None` where they do
    /// not. It compares the blocks.
    pub fn joined(&self, next: &Payload) -> Result<Option<Payload>, AllocError>
        ensures { IfOk result (λ found. IfSome found (λ both. both ≡ self.now ++ next.now)) }
    {
        let (Some(first), Some(second)) = (&self.part, &next.part) else {
            return Ok(None);
        };
        match first.joined(second)? {
            Some(part) => Ok(Some(Payload { part: Some(part) })),
            None => Ok(None),
        }
    }

    /// The byte of `whole` at which these bytes stand, if they lie there in the same place of their
    /// block; `None` where they do not. It compares the bytes.
    pub fn place_in(&self, whole: &Payload) -> Option<usize>
        ensures within { IfSome result (λ at. at + length self.now ≤ length whole.now) }
        ensures same { IfSome result (λ at. slice_range whole.now at (at + length self.now) ≡ self.now) }
    {
        let (Some(part), Some(all)) = (&self.part, &whole.part) else {
            return None;
        };
        part.place_in(all)
    }

    /// The hint of the block: any number, of which no contract says anything. `u64::MAX` where none
    /// was given.
    pub fn hint(&self) -> u64 {
        match &self.part {
            Some(part) => part.hint(),
            None => u64::MAX,
        }
    }

    /// Gives the block another hint, which all its parts have from then on.
    pub fn set_hint(&self, hint: u64) {
        if let Some(part) = &self.part {
            part.set_hint(hint);
        }
    }
}

impl Clone for Payload {
    ghost is_clone = { λ b copy. copy ≡ b };

    fn clone(&self) -> Result<Payload, AllocError> {
        match &self.part {
            Some(part) => {
                let part = part.same()?;
                Ok(Payload { part: Some(part) })
            }
            None => Ok(Payload::new()),
        }
    }
}
