ghost use Rattle.std.specs.Prelude.{◌<◌, ℕ, List, Option, length, MatchResult, OnOk};
ghost use Rattle.std.specs.Io.KnownBytes.{Consumes, IsAtEnd};
ghost use Rattle.trace_check.specs.inner.Pulls.{HasFailed, IsFillCounted};

use cm_base::{InputBuffer, Source};
use trace_replay::ReplayFault;

/// Pulls until so many bytes wait, or the input is at its end.
pub(crate) fn fill_to<I: Source>(
    waits: &mut InputBuffer,
    input: &mut I,
    count: usize,
) -> Result<(), ReplayFault>
    ensures pulled { (left : Option (List ℕ)) → Consumes left (I.left input.old) waits.old
        → MatchResult result (λ _. Consumes left (I.left input.new) waits.new) (HasFailed left (I.left input.new)) }
    ensures counted { IsFillCounted (I.read_faults input.old) (I.read_faults input.new) result }
    ensures told { OnOk result (length waits.new < count → IsAtEnd (I.left input.new)) }
{
    while waits.as_slice().len() < count {
        if waits.fill(input)? == 0 {
            return Ok(());
        }
    }
    Ok(())
}

/// Pulls all that the source has left.
pub(crate) fn fill_to_end<I: Source>(
    waits: &mut InputBuffer,
    input: &mut I,
) -> Result<(), ReplayFault>
    ensures pulled { (left : Option (List ℕ)) → Consumes left (I.left input.old) waits.old
        → MatchResult result (λ _. Consumes left (I.left input.new) waits.new) (HasFailed left (I.left input.new)) }
    ensures counted { IsFillCounted (I.read_faults input.old) (I.read_faults input.new) result }
    ensures ended { OnOk result (IsAtEnd (I.left input.new)) }
{
    fill_to(waits, input, usize::MAX)?;
    let _all = waits.as_slice().len();
    Ok(())
}
