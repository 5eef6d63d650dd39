// What a file is, before its records are looked at.
ghost use Rattle.std.specs.Prelude.{◌≡◌, ◌∷◌, ◌++◌, [], ◌≤◌, ◌<◌, ◌+◌, ◌-◌, ◌^◌, ◌==◌, ◌&&◌, ◌||◌, not, nat_lt, ℕ, List, Some, Err, Bool, true, length, take, IfOk, IfErr, IfSome, OnOk, OnErr, bytes_eq};
ghost use Rattle.recorder.specs.Recording.{Rose};
ghost use Rattle.cm_base.specs.Configuration.{Configuration};
ghost use Rattle.journal_disk.specs.Opened.{front_bytes, mark_bytes, begins_open, opened};
ghost use Rattle.journal_disk.specs.Disk.{OnlyReads};
ghost use Rattle.journal_disk.specs.inner.Scanning.{IsOfShape, IsSafeShape};
ghost use Rattle.journal_disk.specs.declared.opening.OpenFault.{OpenFault};

use crate::log::{OPEN, SHUT};
use crate::reading::{byte_at, read_all_at};
use crate::{Disk, DiskFailed, OpenFault};
use cm_base::{Config, OutOfMemory};
use cm_frame::write_header;
use std::alloc::Global;

const TEXT: [u8; 8] = *b"CMJOURN1";

/// What a file is.
pub(crate) enum Shape {
    // It is made new, and first its gate is closed, or it is closed already.
    Unmade { closes: bool },
    // Its front is that of a journal of the unit; it has so many bytes.
    Made { size: u64 },
}

/// All that a new file has, its first gate open.
pub(crate) fn new_file(alloc: Global, config: &Config, unit: u16) -> Result<Vec<u8>, OutOfMemory>
    ensures told { IfOk result (λ file. file.items ≡ front_bytes config.now unit ++ (0 ∷ [])) }
    ensures few { IfOk result (λ file. length file.items < 2 ^ 63) }
{
    let header = write_header(alloc, config)?;
    let mut file = Vec::new(alloc);
    file.push(OPEN)?;
    file.extend_from_slice(&TEXT)?;
    file.extend_from_slice(&unit.to_be_bytes())?;
    file.extend_from_slice(header.as_slice())?;
    file.push(SHUT)?;
    Ok(file)
}

/// The first gate is there and open.
fn begins_open<D: Disk>(disk: &mut D, size: u64) -> Result<bool, DiskFailed>
    requires size { IfSome (D.reads disk.old) (λ file. size ≡ length file) }
    ensures told { IfOk result (λ is. IfSome (D.reads disk.old) (λ file. is ≡ begins_open file)) }
    ensures reads { OnlyReads D.reads D.may_leave D.moment D.left_since D.disk_faults disk.old disk.new }
    ensures failed { OnErr result (Rose (D.disk_faults disk.old) (D.disk_faults disk.new)) }
{
    if size == 0 {
        return Ok(false);
    }
    Ok(byte_at(disk, 0)? == OPEN)
}

/// The file begins with these bytes.
fn begins_with<D: Disk>(alloc: Global, disk: &mut D, front: &[u8]) -> Result<bool, OpenFault>
    requires within { IfSome (D.reads disk.old) (λ file. length front.now ≤ length file) }
    ensures told { IfOk result (λ is. IfSome (D.reads disk.old) (λ file. is ≡ bytes_eq (take (length front.now) file) front.now)) }
    ensures reads { OnlyReads D.reads D.may_leave D.moment D.left_since D.disk_faults disk.old disk.new }
    ensures bad { IfErr result (λ e. (place : ℕ) → e ≡ OpenFault.BadJournal place → ⊥) }
    ensures failed { IfErr result (λ e. e ≡ OpenFault.DiskFault → Rose (D.disk_faults disk.old) (D.disk_faults disk.new)) }
{
    let mut found = vec![in alloc; 0u8; front.len()]?;
    read_all_at(disk, 0, &mut found)?;
    Ok(found.as_slice() == front)
}

/// What stands before the second gate of a new file, which is its last byte.
fn front_of(new: &[u8]) -> &[u8]
    requires { 1 ≤ length new.now }
    ensures { result.now ≡ take (length new.now - 1) new.now }
{
    &new[..new.len() - 1]
}

/// A file of so many bytes, where a new one has these, is not finished.
fn is_unmade(size: u64, whole: u64, is_open: bool) -> bool
    ensures { result ≡ (nat_lt size whole || ((size == whole) && not is_open)) }
{
    size < whole || size == whole && !is_open
}

/// The first gate is to be closed before the rest is written.
fn closes_first(size: u64, is_open: bool) -> bool
    ensures { result ≡ ((size == 0) || is_open) }
{
    size == 0 || is_open
}

/// What the file is, or the place at which it is bad. The bytes are all that a new file has.
pub(crate) fn judge<D: Disk>(alloc: Global, disk: &mut D, new: &[u8]) -> Result<Shape, OpenFault>
    requires some { 1 ≤ length new.now }
    ensures safe { IfOk result (IsSafeShape (D.reads disk.old) (length new.now - 1)) }
    ensures reads { OnlyReads D.reads D.may_leave D.moment D.left_since D.disk_faults disk.old disk.new }
    ensures shape { (config : Configuration) (unit : ℕ) (file : List ℕ) → new.now ≡ front_bytes config unit ++ (0 ∷ []) → D.reads disk.old ≡ Some file
        → IfOk result (IsOfShape config unit file) }
    ensures bad { (config : Configuration) (unit : ℕ) (file : List ℕ) → new.now ≡ front_bytes config unit ++ (0 ∷ []) → D.reads disk.old ≡ Some file
        → IfErr result (λ e. (place : ℕ) → e ≡ OpenFault.BadJournal place → opened config unit file ≡ Err place) }
    ensures failed { IfErr result (λ e. e ≡ OpenFault.DiskFault → Rose (D.disk_faults disk.old) (D.disk_faults disk.new)) }
{
    let size = disk.size()?;
    let is_open = begins_open(disk, size)?;
    let whole = new.len() as u64;
    if is_unmade(size, whole, is_open) {
        let closes = closes_first(size, is_open);
        return Ok(Shape::Unmade { closes });
    }
    if !is_open {
        return Err(OpenFault::BadJournal { place: 0 });
    }
    if !begins_with(alloc, disk, front_of(new))? {
        return Err(OpenFault::BadJournal { place: 1 });
    }
    Ok(Shape::Made { size })
}
