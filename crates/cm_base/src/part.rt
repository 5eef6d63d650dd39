ghost use Rattle.std.specs.Prelude.{◌≡◌, ◌+◌, ◌-◌, ◌<◌, ◌≤◌, ◌^◌, ◌++◌, true, length, slice_range, take, IfOk, IfErr, IfSome};

use std::alloc::{AllocError, AllocFailed};
use std::marker::Model;
use std::sync::Arc;
use std::sync::atomic::{AtomicU64, Ordering};

/// Bytes that parts share, and the hint that these have in common.
#[derive(Drop)]
struct Block {
    bytes: Vec<u8>,
    hint: AtomicU64,
}

/// Some of the bytes of a block: those from `from` up to `to`.
#[derive(Drop)]
pub(crate) struct Part {
    block: Arc<Block>,
    from: usize,
    to: usize,
}

impl Model for Part {
    ghost use Rattle.std.specs.Prelude.{List, ℕ, ◌≤◌, ◌<◌, ◌^◌, slice_range, length};

    ghost Value = { List ℕ };

    ghost view = { λ p. slice_range p.block.value.bytes.items p.from p.to };

    ghost invariant = { λ p. (p.from ≤ p.to) × (p.to ≤ length p.block.value.bytes.items) × (length p.block.value.bytes.items < 2 ^ 63) };
}

/// The two are the same bytes. At `false` nothing is known.
fn are_same(a: &[u8], b: &[u8]) -> bool
    ensures { result ≡ true → a.now ≡ b.now }
{
    a == b
}

impl Part {
    /// All of a block that a vector becomes.
    pub(crate) fn of_vec(bytes: Vec<u8>) -> Result<Part, AllocFailed<Vec<u8>>>
        ensures ok { IfOk result (λ p. p ≡ bytes.items) }
        ensures value_returned { IfErr result (λ e. e.value.items ≡ bytes.items) }
    {
        let to = bytes.len();
        if to >= 0x7fff_ffff_ffff_ffff {
            return Err(AllocFailed { value: bytes });
        }
        let alloc = *bytes.allocator();
        let hint = AtomicU64::new(u64::MAX);
        match Arc::new(alloc, Block { bytes, hint }) {
            Ok(block) => Ok(Part { block, from: 0, to }),
            Err(failed) => Err(AllocFailed {
                value: failed.value.bytes,
            }),
        }
    }

    pub(crate) fn len(&self) -> usize
        ensures value { result ≡ length self.now }
        ensures bound { result < 2 ^ 63 }
    {
        self.to - self.from
    }

    pub(crate) fn as_slice(&self) -> &[u8]
        ensures { result.now ≡ self.now }
    {
        &self.block.bytes.as_slice()[self.from..self.to]
    }

    /// The same bytes of the same block.
    pub(crate) fn same(&self) -> Result<Part, AllocError>
        ensures { IfOk result (λ b. b ≡ self.now) }
    {
        let block = Arc::try_clone(&self.block)?;
        Ok(Part {
            block,
            from: self.from,
            to: self.to,
        })
    }

    /// Some of the bytes, of the same block.
    pub(crate) fn part(&self, from: usize, to: usize) -> Result<Part, AllocError>
        requires order { from ≤ to }
        requires within { to ≤ length self.now }
        ensures { IfOk result (λ b. b ≡ slice_range self.now from to) }
    {
        let block = Arc::try_clone(&self.block)?;
        Ok(Part {
            block,
            from: self.from + from,
            to: self.from + to,
        })
    }

    pub(crate) fn truncate(&mut self, len: usize)
        ensures { self.new ≡ take len self.old }
    {
        if len < self.to - self.from {
            self.to = self.from + len;
        }
    }

    /// The bytes of both, one behind the other, where they lie so in one block.
    pub(crate) fn joined(&self, next: &Part) -> Result<Option<Part>, AllocError>
        ensures { IfOk result (λ found. IfSome found (λ both. both ≡ self.now ++ next.now)) }
    {
        if self.to != next.from {
            return Ok(None);
        }
        if !are_same(self.block.bytes.as_slice(), next.block.bytes.as_slice()) {
            return Ok(None);
        }
        let block = Arc::try_clone(&self.block)?;
        Ok(Some(Part {
            block,
            from: self.from,
            to: next.to,
        }))
    }

    /// The byte of `whole` at which these bytes stand, if both have one place in like blocks.
    pub(crate) fn place_in(&self, whole: &Part) -> Option<usize>
        ensures within { IfSome result (λ at. at + length self.now ≤ length whole.now) }
        ensures same { IfSome result (λ at. slice_range whole.now at (at + length self.now) ≡ self.now) }
    {
        if self.from < whole.from || whole.to < self.to {
            return None;
        }
        let at = self.from - whole.from;
        let count = self.len();
        let _all = whole.len();
        if are_same(&whole.as_slice()[at..at + count], self.as_slice()) {
            Some(at)
        } else {
            None
        }
    }

    pub(crate) fn hint(&self) -> u64 {
        self.block.hint.load(Ordering::SeqCst)
    }

    pub(crate) fn set_hint(&self, hint: u64) {
        self.block.hint.store(hint, Ordering::SeqCst);
    }
}
