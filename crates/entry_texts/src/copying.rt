ghost use Rattle.std.specs.Prelude.{◌<◌, length, IfOk, OnOk};
ghost use Rattle.std.specs.Io.KnownBytes.{IsAtEnd};
ghost use Rattle.cm_history.specs.declared.act.Entry.{Entry};

use crate::failed::Failed;
use cm_base::{Parsed, Sink};
use recorder::{Recorder, SinkRecorder, has_short_lists, read_entry};
use std::alloc::Global;

/// Records the first entry of these bytes, and gives the bytes behind it.
fn copy_first<'a, S: Sink + Drop>(
    alloc: Global,
    bytes: &'a [u8],
    recorder: &mut SinkRecorder<S>,
) -> Result<&'a [u8], Failed>
    requires { (e : Entry) → ⟦<SinkRecorder<S> as Recorder>⟧.fits recorder.old e }
    ensures less { IfOk result (λ rest. length rest.now < length bytes.now) }
    ensures any { OnOk result ((e : Entry) → ⟦<SinkRecorder<S> as Recorder>⟧.fits recorder.new e) }
{
    let Parsed::Whole { value, used } = read_entry(alloc, bytes)? else {
        return Err(Failed::NoEntry(bytes.len()));
    };
    if used == 0 || used > bytes.len() {
        return Err(Failed::NoEntry(bytes.len()));
    }
    if !has_short_lists(&value.act) {
        return Err(Failed::LongList);
    }
    recorder.record(&value)?;
    Ok(&bytes[used..])
}

/// Records the entries that these bytes have, one behind the other.
pub(crate) fn copy_entries<S: Sink + Drop>(
    alloc: Global,
    bytes: &[u8],
    sink: S,
) -> Result<(), Failed>
    requires { IsAtEnd (S.taken sink) }
{
    let mut recorder = SinkRecorder::new(alloc, sink);
    let mut rest = bytes;
    while !rest.is_empty() {
        rest = copy_first(alloc, rest, &mut recorder)?;
    }
    Ok(())
}
