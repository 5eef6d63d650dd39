ghost use Rattle.std.specs.Prelude.{◌≡◌};
ghost use Rattle.scsi_sense.specs.Codes.{lba_out_of_range, space_allocation_failed, operation_in_progress, insufficient_resources, invalid_field_in_cdb};

use cm_history::Answer;
use scsi_sense::Sense;

/// Answers by which acts are refused, by the names of SPC-4, Additional sense codes.

/// LOGICAL BLOCK ADDRESS OUT OF RANGE: the blocks do not all lie in the unit.
pub(crate) fn lba_out_of_range() -> Answer
    ensures { result ≡ Answer.Refused lba_out_of_range }
{
    Answer::Refused(Sense::lba_out_of_range())
}

/// SPACE ALLOCATION FAILED WRITE PROTECT: more blocks would be mapped than the quota.
pub(crate) fn space_allocation_failed() -> Answer
    ensures { result ≡ Answer.Refused space_allocation_failed }
{
    Answer::Refused(Sense::space_allocation_failed())
}

/// OPERATION IN PROGRESS: an operation of the key runs.
pub(crate) fn operation_in_progress() -> Answer
    ensures { result ≡ Answer.Refused operation_in_progress }
{
    Answer::Refused(Sense::operation_in_progress())
}

/// INSUFFICIENT RESOURCES: too many operations run, or no serial is left.
pub(crate) fn insufficient_resources() -> Answer
    ensures { result ≡ Answer.Refused insufficient_resources }
{
    Answer::Refused(Sense::insufficient_resources())
}

/// INVALID FIELD IN CDB: there is no such operation.
pub(crate) fn no_such_operation() -> Answer
    ensures { result ≡ Answer.Refused invalid_field_in_cdb }
{
    Answer::Refused(Sense::invalid_field_in_cdb())
}
