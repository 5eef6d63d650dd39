ghost use Rattle.std.specs.Prelude.{◌≡◌};
ghost use Rattle.cm_history.specs.declared.act.Act.{Act};

mod acts;
mod entries;
mod faults;
mod sinking;

use cm_base::CallList;
use cm_history::{Act, Actor, Entry};
use entries::is_read;
use recorder::{MemoryRecorder, NoRecorder, RecordRefused, Recorder, write_entry};
use std::test::Fail;

/// The second entry of a unit: the nexus of number 1 reads three blocks.
fn read_of_three() -> Entry
    ensures { result.act ≡ Act.Read 0 3 }
{
    Entry {
        stamp: 2,
        unit: 0,
        actor: Actor::Nexus(1),
        seq: 1,
        moment: 0,
        act: Act::Read { lba: 0, count: 3 },
    }
}

/// The 44 bytes were worked out by hand from docs/formats.md, and are read as the entry.
#[test]
fn a_read_as_bytes(rt: HostRuntime) -> Result<(), Fail> {
    let entry = read_of_three();
    let text = write_entry(rt.alloc(), &entry)?;
    let bytes = [
        0, 0, 0, 0, 0, 0, 0, 2, 0, 0, 0, 0, 0, 0, 1, 0, 0, 0, 0, 0, 0, 0, 1, 0, 0, 0, 0, 0, 0, 0,
        0, 1, 0, 0, 0, 0, 0, 0, 0, 0, 0, 0, 0, 3,
    ];
    assert_eq!(rt; bytes.len(), 44);
    assert_eq!(rt; text.as_slice(), bytes.as_slice());
    assert!(rt; is_read(rt.alloc(), &bytes, &bytes)?);
    Ok(())
}

/// The second call fails, and the entry is recorded by the third.
#[test]
fn a_record_fails(rt: HostRuntime) -> Result<(), Fail> {
    let failing = CallList::copy(rt.alloc(), &[2])?;
    let mut recorder = MemoryRecorder::new(rt.alloc(), failing);
    let entry = read_of_three();
    assert!(rt; recorder.record(&entry).is_ok());
    assert!(rt; matches!(recorder.record(&entry), Err(RecordRefused::Failed)));
    assert_eq!(rt; recorder.entries().len(), 1);
    assert!(rt; recorder.record(&entry).is_ok());
    assert_eq!(rt; recorder.entries().len(), 2);
    Ok(())
}

#[test]
fn no_recorder_records(rt: HostRuntime) -> Result<(), Fail> {
    let refused = NoRecorder.record(&read_of_three());
    assert!(rt; matches!(refused, Err(RecordRefused::Absent)));
    Ok(())
}
