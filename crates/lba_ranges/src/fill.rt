ghost use Rattle.std.specs.Prelude.{◌≡◌, ◌+◌, ◌*◌, ◌<◌, ◌≤◌, ◌^◌, ◌++◌, List, ℕ, length, slice_range, IfOk, OnOk, OnErr, is_some};
ghost use Rattle.std.specs.Option.{option_copied};
ghost use Rattle.std.specs.List.{list_all, count_by};
ghost use Rattle.lba_ranges.specs.HeldBlocks.{filled, IsFull, held_at, items_bytes};
ghost use Rattle.cm_base.specs.Fields.{zeros};

use cm_base::{Bytes, OutOfMemory, Payload};

/// What a run of blocks holds.
#[derive(Drop)]
pub enum Fill {
    Hole,
    Bytes(Payload),
}

/// A run of blocks.
#[derive(Drop)]
pub struct Piece {
    pub count: u32,
    pub fill: Fill,
}

/// Adds zeros to the end. At `OutOfMemory` some of them may have been added.
fn extend_zeros(into: &mut Bytes, count: usize) -> Result<(), OutOfMemory>
    ensures ok { OnOk result (into.new ≡ into.old ++ zeros count) }
    ensures err { OnErr result ((part : List ℕ) × (into.new ≡ into.old ++ part)) }
{
    let zeros = [0; 4096];
    let mut left = count;
    while left > 0 {
        let some = left.min(zeros.len());
        into.extend(&zeros[..some])?;
        left -= some;
    }
    Ok(())
}

impl Piece {
    /// The bytes of the block at this place of the run, or `None` where it is unmapped.
    /// `size` is the bytes of a block. It takes no memory.
    pub fn held(&self, size: u32, index: u32) -> Option<&[u8]>
        requires full { IsFull size self.now.count self.now.fill }
        requires within { index < self.now.count }
        ensures { option_copied result ≡ held_at (filled size self.now.count self.now.fill) index }
    {
        match &self.fill {
            Fill::Hole => None,
            Fill::Bytes(bytes) => {
                let from = index as usize * size as usize;
                Some(&bytes.as_slice()[from..from + size as usize])
            }
        }
    }

    /// What a block holds, which shares the run's bytes.
    fn item(&self, size: u32, index: u32) -> Result<Option<Payload>, OutOfMemory>
        requires full { IsFull size self.now.count self.now.fill }
        requires within { index < self.now.count }
        ensures { IfOk result (λ item. item ≡ held_at (filled size self.now.count self.now.fill) index) }
    {
        match &self.fill {
            Fill::Hole => Ok(None),
            Fill::Bytes(bytes) => {
                let from = index as usize * size as usize;
                Ok(Some(bytes.slice(from..from + size as usize)?))
            }
        }
    }

    /// Adds what each block holds to the end.
    pub(crate) fn push_items(
        &self,
        size: u32,
        items: &mut Vec<Option<Payload>>,
    ) -> Result<(), OutOfMemory>
        requires { IsFull size self.now.count self.now.fill }
        ensures { OnOk result (items.new.items ≡ items.old.items ++ filled size self.now.count self.now.fill) }
    {
        for index in 0..self.count {
            items.push(self.item(size, index)?)?;
        }
        Ok(())
    }

    /// Adds the bytes of the blocks to the end; an unmapped block's are zeros.
    pub(crate) fn read_into(&self, size: u32, into: &mut Bytes) -> Result<(), OutOfMemory>
        requires { IsFull size self.now.count self.now.fill }
        ensures ok { OnOk result (into.new ≡ into.old ++ items_bytes size (filled size self.now.count self.now.fill)) }
        ensures err { OnErr result ((part : List ℕ) × (into.new ≡ into.old ++ part)) }
    {
        match &self.fill {
            Fill::Hole => extend_zeros(into, self.count as usize * size as usize),
            Fill::Bytes(bytes) => into.extend(bytes.as_slice()),
        }
    }

    /// Each block of the run is mapped.
    pub(crate) fn is_mapped(&self, size: u32) -> bool
        ensures { result ≡ list_all is_some (filled size self.now.count self.now.fill) }
    {
        match &self.fill {
            Fill::Hole => self.count == 0,
            Fill::Bytes(_) => true,
        }
    }

    /// How many blocks of the run are mapped.
    pub(crate) fn mapped(&self) -> u32
        ensures { (size : ℕ) → result ≡ count_by is_some (filled size self.now.count self.now.fill) }
    {
        match &self.fill {
            Fill::Hole => 0,
            Fill::Bytes(_) => self.count,
        }
    }

    /// Some blocks of the run, which share its bytes. `size` is the bytes of a block.
    pub fn part(&self, size: u32, from: u32, count: u32) -> Result<Piece, OutOfMemory>
        requires full { IsFull size self.now.count self.now.fill }
        requires within { from + count ≤ self.now.count }
        ensures count { IfOk result (λ p. p.count ≡ count) }
        ensures full { IfOk result (λ p. IsFull size p.count p.fill) }
        ensures blocks { IfOk result (λ p. filled size p.count p.fill
            ≡ slice_range (filled size self.now.count self.now.fill) from (from + count)) }
    {
        let fill = match &self.fill {
            Fill::Hole => Fill::Hole,
            Fill::Bytes(bytes) => {
                let start = from as usize * size as usize;
                let end = (from + count) as usize * size as usize;
                Fill::Bytes(bytes.slice(start..end)?)
            }
        };
        Ok(Piece { count, fill })
    }
}
