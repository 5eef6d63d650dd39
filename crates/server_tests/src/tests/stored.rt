// Entries that are kept in journals.
ghost use Rattle.std.specs.Prelude.{◌≡◌, length, IfOk};

use super::*;
use journal_disk::{Disk, MemoryDisk};

/// The bytes of the first disk of several.
fn first_of(disks: &DiskList<MemoryDisk>) -> &[u8] {
    match disks.as_slice() {
        [first, ..] => first.as_slice(),
        [] => &[],
    }
}

/// 16 disks, of which the first has these bytes, and fails at these calls.
fn disks(alloc: Global, bytes: &[u8], failing: &[u64]) -> Result<DiskList<MemoryDisk>, Fail>
    ensures count { IfOk result (λ list. length list ≡ 16) }
{
    let mut disks = DiskList::empty(alloc);
    for unit in 0..16u32 {
        let disk = match unit {
            0 => MemoryDisk::copy(alloc, bytes, CallList::copy(alloc, failing)?)?,
            _ => MemoryDisk::new(alloc, none(alloc)),
        };
        disks.push(disk)?;
    }
    Ok(disks)
}

/// Serves one link that gives these pieces, over a unit that goes on with what the first disk has.
fn stored<W: Threads + Wait + Sync>(
    rt: &W,
    alloc: Global,
    config: &str,
    pieces: &[&str],
    disks: DiskList<MemoryDisk>,
    output: &mut MemorySink,
) -> Result<(Stored<MemoryDisk>, TestListener), Fail>
    requires count { length disks ≡ 16 }
{
    let mut listener = one_link(alloc, bytes_of(alloc, pieces)?)?;
    let words = words_of(alloc, "store A 1 F")?;
    let config = bytes_of(alloc, &[config])?;
    let clock = SetClock::new(0);
    let stored = serve_stored(
        rt,
        alloc,
        &words,
        config.as_slice(),
        &mut listener,
        clock,
        output,
        disks,
    );
    Ok((stored, listener))
}

/// What was written before is read after.
#[test]
fn a_stored_world_goes_on(rt: HostRuntime) -> Result<(), Fail> {
    let alloc = rt.alloc();
    let mut first = output(alloc);
    let (before, _) = stored(
        &rt,
        alloc,
        SMALL,
        &WRITE,
        disks(alloc, &[], &[])?,
        &mut first,
    )?;
    let report =
        "sessions 1\nfaults 0\nmemory 0\ncommands 1\nunit 0 steps 3 live 0 mapped 2\ntotal 3\nkept 0\n";
    assert_eq!(rt; before.status, Status::Done);
    assert_eq!(rt; first.as_slice(), report.as_bytes());
    let again = disks(alloc, first_of(&before.disks), &[])?;
    let mut second = output(alloc);
    let (after, listener) = stored(&rt, alloc, SMALL, &READ, again, &mut second)?;
    let report =
        "sessions 1\nfaults 0\nmemory 0\ncommands 1\nunit 0 steps 6 live 0 mapped 2\ntotal 6\nkept 0\n";
    assert_eq!(rt; after.status, Status::Done);
    assert_eq!(rt; second.as_slice(), report.as_bytes());
    assert_eq!(rt;
        listener.taken(0),
        bytes_of(alloc, &REPLIES[1..])?.as_slice()
    );
    Ok(())
}

/// Whether nothing is served over these disks, of which all come back, and serving ends so.
fn is_refused<W: Threads + Wait + Sync>(
    rt: &W,
    alloc: Global,
    disks: DiskList<MemoryDisk>,
    status: Status,
) -> Result<bool, Fail>
    requires count { length disks ≡ 16 }
{
    let mut output = output(alloc);
    let (stored, _) = stored(rt, alloc, SMALL, &READ, disks, &mut output)?;
    Ok(stored.status == status && stored.disks.len() == 16 && output.as_slice().is_empty())
}

/// A journal with a byte that none has there, and a disk that fails.
#[test]
fn a_journal_is_refused(rt: HostRuntime) -> Result<(), Fail> {
    let alloc = rt.alloc();
    let empty = disks(alloc, &[], &[])?;
    let (good, _) = stored(&rt, alloc, SMALL, &WRITE, empty, &mut output(alloc))?;
    let mut changed = first_of(&good.disks).to_vec(alloc)?;
    if changed.len() > 1 {
        changed[1] = b'X';
    }
    let bad = disks(alloc, &changed, &[])?;
    let status = Status::BadJournal { unit: 0, place: 1 };
    assert!(rt; is_refused(&rt, alloc, bad, status)?);
    let failing = disks(alloc, &[], &[1])?;
    assert!(rt; is_refused(&rt, alloc, failing, Status::DiskFault)?);
    Ok(())
}
