ghost use Rattle.std.specs.Prelude.{◌≡◌, ◌++◌, [], ℕ, List, Option, drop, OnOk, OnErr, IfErr, MatchResult};
ghost use Rattle.cm_frame.specs.Grammar.{reply_bytes};
ghost use Rattle.cmd_program.specs.Meaning.{IsOfLength};
ghost use Rattle.trace_replay.specs.Played.{addressed_bytes};
ghost use Rattle.trace_replay.specs.inner.Writing.{IsWritten, IsBegun, Writes, IsCountedBy};

use crate::fault::ReplayFault;
use cm_base::{OutputBuffer, Sink, push_all};
use cm_frame::{Reply, reply_head};

/// From so many bytes on, data is pushed from where it stands, and replies that were gathered are
/// pushed.
const CHUNK: usize = 65_536;

/// Pushes all bytes that wait.
pub(crate) fn flush<O: Sink>(waits: &mut OutputBuffer, output: &mut O) -> Result<(), ReplayFault>
    ensures written { (taken : Option (List ℕ)) (bytes : List ℕ)
        → IsWritten taken (O.taken output.old) waits.old bytes
        → MatchResult result (λ _. IsWritten taken (O.taken output.new) waits.new bytes × (waits.new ≡ []))
        (λ e. IsBegun taken (O.taken output.new) bytes × (e ≡ ReplayFault.WriteFault)) }
    ensures counted { (reads : ℕ)
        → IsCountedBy reads reads (O.write_faults output.old) (O.write_faults output.new) result }
{
    waits.flush(output)?;
    Ok(())
}

/// Adds bytes to those that wait.
fn gather(waits: &mut OutputBuffer, bytes: &[u8]) -> Result<(), ReplayFault>
    ensures ok { OnOk result (waits.new ≡ waits.old ++ bytes.now) }
    ensures err { OnErr result (waits.new ≡ waits.old) }
    ensures memory { IfErr result (λ e. e ≡ ReplayFault.OutOfMemory) }
{
    waits.write(bytes)?;
    Ok(())
}

/// Writes data: a long one straight from where it stands.
fn write_data<O: Sink>(
    waits: &mut OutputBuffer,
    output: &mut O,
    part: &[u8],
) -> Result<(), ReplayFault>
    ensures written { (taken : Option (List ℕ)) (bytes : List ℕ)
        → IsWritten taken (O.taken output.old) waits.old bytes
        → Writes taken (O.taken output.new) waits.new (bytes ++ part.now) result }
    ensures counted { (reads : ℕ)
        → IsCountedBy reads reads (O.write_faults output.old) (O.write_faults output.new) result }
{
    if part.len() < CHUNK {
        return gather(waits, part);
    }
    flush(waits, output)?;
    push_all(output, part)?;
    Ok(())
}

/// Writes what comes behind the head of a reply.
fn write_tail<O: Sink>(
    waits: &mut OutputBuffer,
    output: &mut O,
    reply: &Reply,
) -> Result<(), ReplayFault>
    ensures written { (taken : Option (List ℕ)) (bytes : List ℕ)
        → IsWritten taken (O.taken output.old) waits.old bytes
        → Writes taken (O.taken output.new) waits.new (bytes ++ drop 6 (reply_bytes reply.now)) result }
    ensures counted { (reads : ℕ)
        → IsCountedBy reads reads (O.write_faults output.old) (O.write_faults output.new) result }
{
    match reply {
        Reply::Good(data) => write_data(waits, output, data.as_slice()),
        Reply::Check(sense) => gather(waits, &sense.to_bytes()),
        Reply::Conflict | Reply::Busy | Reply::Full => Ok(()),
    }
}

/// Pushes the bytes that wait, where they are many.
fn flush_long<O: Sink>(waits: &mut OutputBuffer, output: &mut O) -> Result<(), ReplayFault>
    ensures written { (taken : Option (List ℕ)) (bytes : List ℕ)
        → IsWritten taken (O.taken output.old) waits.old bytes
        → Writes taken (O.taken output.new) waits.new bytes result }
    ensures counted { (reads : ℕ)
        → IsCountedBy reads reads (O.write_faults output.old) (O.write_faults output.new) result }
{
    if waits.len() < CHUNK {
        return Ok(());
    }
    flush(waits, output)
}

/// Writes a reply for an initiator.
pub(crate) fn write_reply<O: Sink>(
    waits: &mut OutputBuffer,
    output: &mut O,
    initiator: u32,
    reply: &Reply,
) -> Result<(), ReplayFault>
    requires { IsOfLength reply.now }
    ensures written { (taken : Option (List ℕ)) (bytes : List ℕ)
        → IsWritten taken (O.taken output.old) waits.old bytes
        → Writes taken (O.taken output.new) waits.new
        (bytes ++ addressed_bytes (record { initiator = initiator; reply = reply.now })) result }
    ensures counted { (reads : ℕ)
        → IsCountedBy reads reads (O.write_faults output.old) (O.write_faults output.new) result }
{
    gather(waits, &initiator.to_be_bytes())?;
    gather(waits, &reply_head(reply))?;
    write_tail(waits, output, reply)?;
    flush_long(waits, output)
}
