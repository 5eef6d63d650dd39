ghost use Rattle.std.specs.Prelude.{◌≡◌, ◌==◌, ◌<◌, ◌≤◌, ◌+◌, ◌-◌, ◌++◌, ◌∷◌, [], length, slice_get, OnOk, OnErr, IfSome, IfNone};

use crate::out_of_memory::OutOfMemory;
use std::alloc::Global;
use std::marker::Model;

/// A list with its room. Contracts see its items, and how many more have room.
#[derive(Drop)]
pub struct SequenceRoom<T> {
    items: Vec<T>,
    spare: u64,
}

impl<T> Model for SequenceRoom<T> {
    ghost use Rattle.std.specs.Prelude.{◌≤◌, ◌+◌, vec_len, vec_capacity};
    ghost use Rattle.cm_base.specs.Roomy.{Roomy};

    ghost Value = { Roomy T };

    ghost view = { λ r. record { items = r.items.items; spare = r.spare } };

    ghost invariant = { λ r. vec_len r.items + r.spare ≤ vec_capacity r.items };
}

impl<T> SequenceRoom<T> {
    /// No items, and room for none. It takes no memory.
    pub fn empty(alloc: Global) -> SequenceRoom<T>
        ensures { result ≡ record { items = []; spare = 0 } }
    {
        SequenceRoom::from_vec(Vec::new(alloc))
    }

    /// A vector's items, and room for no more. It takes no memory.
    pub fn from_vec(items: Vec<T>) -> SequenceRoom<T>
        ensures { result ≡ record { items = items.items; spare = 0 } }
    {
        SequenceRoom { items, spare: 0 }
    }

    /// The vector of the items. It takes no memory.
    pub fn into_vec(self) -> Vec<T>
        ensures { result.items ≡ self.items }
    {
        let SequenceRoom { items, .. } = self;
        items
    }

    /// How many items there are. It takes no memory.
    pub fn len(&self) -> usize
        ensures { result ≡ length self.now.items }
    {
        self.items.len()
    }

    /// There is no item. It takes no memory.
    pub fn is_empty(&self) -> bool
        ensures { result ≡ (length self.now.items == 0) }
    {
        self.items.is_empty()
    }

    /// How many more items have room. It takes no memory.
    pub fn spare(&self) -> u64
        ensures { result ≡ self.now.spare }
    {
        self.spare
    }

    /// All items, in order. It takes no memory.
    pub fn as_slice(&self) -> &[T]
        ensures { result.now ≡ self.now.items }
    {
        self.items.as_slice()
    }

    /// The item at this place; the first is at 0. It takes no memory.
    pub fn at(&self, index: usize) -> &T
        requires { index < length self.now.items }
        ensures { slice_get self.now.items index ≡ Some result.now }
    {
        &self.items[index]
    }

    /// Makes room for so many more items; where there is so much room it takes no memory. At `OutOfMemory`
    /// the room is as before.
    pub fn reserve(&mut self, more: u64) -> Result<(), OutOfMemory>
        ensures same { self.new.items ≡ self.old.items }
        ensures room { OnOk result (more ≤ self.new.spare) }
        ensures kept { self.old.spare ≤ self.new.spare }
        ensures err { OnErr result (self.new ≡ self.old) }
        ensures needed { OnErr result (self.old.spare < more) }
    {
        if more <= self.spare {
            return Ok(());
        }
        self.items.reserve(more as usize)?;
        self.spare = more;
        Ok(())
    }

    /// Adds an item at the end, for which there is room. It takes no memory.
    pub fn append(&mut self, item: T)
    where
        T: Drop,
        requires { 0 < self.old.spare }
        ensures added { self.new.items ≡ self.old.items ++ item ∷ [] }
        ensures room { self.new.spare + 1 ≡ self.old.spare }
    {
        self.items.push(item).unwrap();
        self.spare -= 1;
    }

    /// Adds an item at the end. At `OutOfMemory` nothing changes.
    pub fn push(&mut self, item: T) -> Result<(), OutOfMemory>
    where
        T: Drop,
        ensures ok { OnOk result (self.new.items ≡ self.old.items ++ item ∷ []) }
        ensures room { OnOk result (self.new.spare ≡ self.old.spare - 1) }
        ensures err { OnErr result (self.new ≡ self.old) }
        ensures needed { OnErr result (self.old.spare ≡ 0) }
    {
        self.items.push(item)?;
        self.spare = self.spare.saturating_sub(1);
        Ok(())
    }

    /// Takes the last item out; `None` exactly where there is none. It takes no memory.
    pub fn pop(&mut self) -> Option<T>
        ensures last { IfSome result (λ item. self.old.items ≡ self.new.items ++ item ∷ []) }
        ensures empty { IfNone result ((self.old.items ≡ []) × (self.new.items ≡ [])) }
        ensures room { self.new.spare ≡ self.old.spare }
    {
        self.items.pop()
    }
}

impl<T: Copy> SequenceRoom<T> {
    /// Adds these items at the end; there is room for no more then. At `OutOfMemory` nothing changes.
    pub fn extend(&mut self, from: &[T]) -> Result<(), OutOfMemory>
        ensures ok { OnOk result (self.new.items ≡ self.old.items ++ from.now) }
        ensures room { OnOk result (self.new.spare ≡ 0) }
        ensures err { OnErr result (self.new ≡ self.old) }
    {
        self.items.extend_from_slice(from)?;
        self.spare = 0;
        Ok(())
    }
}
