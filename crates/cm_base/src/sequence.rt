ghost use Rattle.std.specs.Prelude.{◌≡◌, ◌==◌, ◌<◌, ◌≤◌, ◌++◌, ◌∷◌, [], length, slice_get, IfOk, OnOk, OnErr, IfSome, IfNone};
ghost use Rattle.std.specs.Borrow.{sem};
ghost use Rattle.cm_base.specs.Lending.{LendsRoom};

use crate::out_of_memory::OutOfMemory;
use crate::room::SequenceRoom;
use std::alloc::Global;
use std::marker::Model;

/// A list that grows at its end. Contracts see the list of its items.
#[derive(Drop)]
pub struct Sequence<T> {
    room: SequenceRoom<T>,
}

/// Bytes that are still being gathered.
pub type Bytes = Sequence<u8>;

impl<T> Model for Sequence<T> {
    ghost use Rattle.std.specs.Prelude.{List};

    ghost Value = { List T };

    ghost view = { λ s. s.room.items };
}

impl<T> Sequence<T> {
    /// The list without items. It takes no memory.
    pub fn empty(alloc: Global) -> Sequence<T>
        ensures { result ≡ [] }
    {
        Sequence {
            room: SequenceRoom::empty(alloc),
        }
    }

    /// The list of a vector's items. It takes no memory.
    pub fn from_vec(items: Vec<T>) -> Sequence<T>
        ensures { result ≡ items.items }
    {
        Sequence {
            room: SequenceRoom::from_vec(items),
        }
    }

    /// The vector of the list's items. It takes no memory.
    pub fn into_vec(self) -> Vec<T>
        ensures { result.items ≡ self }
    {
        let Sequence { room } = self;
        room.into_vec()
    }

    /// How many items there are. It takes no memory.
    pub fn len(&self) -> usize
        ensures { result ≡ length self.now }
    {
        self.room.len()
    }

    /// There is no item. It takes no memory.
    pub fn is_empty(&self) -> bool
        ensures { result ≡ (length self.now == 0) }
    {
        self.room.is_empty()
    }

    /// All items, in order. It takes no memory.
    pub fn as_slice(&self) -> &[T]
        ensures { result.now ≡ self.now }
    {
        self.room.as_slice()
    }

    /// The item at this place; the first is at 0. It takes no memory.
    pub fn at(&self, index: usize) -> &T
        requires { index < length self.now }
        ensures { slice_get self.now index ≡ Some result.now }
    {
        self.room.at(index)
    }

    /// Makes room for so many more items, and lends the list with its room. At `OutOfMemory` the list is
    /// as before.
    pub fn reserve(&mut self, more: u64) -> Result<&mut SequenceRoom<T>, OutOfMemory>
        ensures* lent { sem 𝓛 (LendsRoom T.row self.entry result) }
        ensures same { IfOk result (λ room. room.now.items ≡ self.old) }
        ensures room { IfOk result (λ room. more ≤ room.now.spare) }
    {
        let room = &mut self.room;
        room.reserve(more)?;
        Ok(room)
    }

    /// Adds an item at the end. At `OutOfMemory` the list is as before.
    pub fn push(&mut self, item: T) -> Result<(), OutOfMemory>
    where
        T: Drop,
        ensures ok { OnOk result (self.new ≡ self.old ++ item ∷ []) }
        ensures err { OnErr result (self.new ≡ self.old) }
    {
        self.room.push(item)
    }

    /// Takes the last item out; `None` exactly where the list is empty. It takes no memory.
    pub fn pop(&mut self) -> Option<T>
        ensures last { IfSome result (λ item. self.old ≡ self.new ++ item ∷ []) }
        ensures empty { IfNone result ((self.old ≡ []) × (self.new ≡ [])) }
    {
        self.room.pop()
    }
}

impl<T: Copy> Sequence<T> {
    /// The list of these items.
    pub fn copy(alloc: Global, from: &[T]) -> Result<Sequence<T>, OutOfMemory>
        ensures { IfOk result (λ list. list ≡ from.now) }
    {
        let mut list = Sequence::empty(alloc);
        list.extend(from)?;
        Ok(list)
    }

    /// Adds these items at the end. At `OutOfMemory` the list is as before.
    pub fn extend(&mut self, from: &[T]) -> Result<(), OutOfMemory>
        ensures ok { OnOk result (self.new ≡ self.old ++ from.now) }
        ensures err { OnErr result (self.new ≡ self.old) }
    {
        self.room.extend(from)
    }
}
