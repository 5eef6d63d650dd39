// Senses by which acts are refused, by the names of SPC-4 (Additional sense codes).
ghost use Rattle.std.specs.Prelude.{◌≡◌};
ghost use Rattle.cm_history.specs.declared.answer.Answer.{Answer};
ghost use Rattle.scsi_sense.specs.Codes.{lba_out_of_range, space_allocation_failed, operation_in_progress, insufficient_resources, invalid_field_in_cdb, token_unknown, remote_token_usage_not_supported, token_corrupt, token_deleted, token_cancelled, token_expired};

use cm_history::Answer;
use scsi_sense::Sense;

/// LOGICAL BLOCK ADDRESS OUT OF RANGE.
pub(crate) fn out_of_range() -> Answer
    ensures { result ≡ Answer.Refused lba_out_of_range }
{
    Answer::Refused(Sense::new(0x05, 0x21, 0x00))
}

/// SPACE ALLOCATION FAILED WRITE PROTECT, as a sense.
pub(crate) fn quota_sense() -> Sense
    ensures { result ≡ space_allocation_failed }
{
    Sense::new(0x07, 0x27, 0x07)
}

/// SPACE ALLOCATION FAILED WRITE PROTECT.
pub(crate) fn over_quota() -> Answer
    ensures { result ≡ Answer.Refused space_allocation_failed }
{
    Answer::Refused(quota_sense())
}

/// OPERATION IN PROGRESS.
pub(crate) fn in_use() -> Answer
    ensures { result ≡ Answer.Refused operation_in_progress }
{
    Answer::Refused(Sense::new(0x05, 0x00, 0x16))
}

/// INSUFFICIENT RESOURCES.
pub(crate) fn too_many() -> Answer
    ensures { result ≡ Answer.Refused insufficient_resources }
{
    Answer::Refused(Sense::new(0x05, 0x55, 0x03))
}

/// INVALID FIELD IN CDB.
pub(crate) fn no_such_operation() -> Answer
    ensures { result ≡ Answer.Refused invalid_field_in_cdb }
{
    Answer::Refused(Sense::new(0x05, 0x24, 0x00))
}

/// INVALID TOKEN OPERATION, TOKEN UNKNOWN.
pub(crate) fn not_made() -> Answer
    ensures { result ≡ Answer.Refused token_unknown }
{
    Answer::Refused(Sense::new(0x05, 0x23, 0x04))
}

/// INVALID TOKEN OPERATION, REMOTE TOKEN USAGE NOT SUPPORTED.
pub(crate) fn wrong_unit() -> Answer
    ensures { result ≡ Answer.Refused remote_token_usage_not_supported }
{
    Answer::Refused(Sense::new(0x05, 0x23, 0x02))
}

/// INVALID TOKEN OPERATION, TOKEN CORRUPT.
pub(crate) fn altered() -> Answer
    ensures { result ≡ Answer.Refused token_corrupt }
{
    Answer::Refused(Sense::new(0x05, 0x23, 0x05))
}

/// INVALID TOKEN OPERATION, TOKEN DELETED.
pub(crate) fn deleted() -> Answer
    ensures { result ≡ Answer.Refused token_deleted }
{
    Answer::Refused(Sense::new(0x05, 0x23, 0x09))
}

/// INVALID TOKEN OPERATION, TOKEN CANCELLED.
pub(crate) fn evicted() -> Answer
    ensures { result ≡ Answer.Refused token_cancelled }
{
    Answer::Refused(Sense::new(0x05, 0x23, 0x08))
}

/// INVALID TOKEN OPERATION, TOKEN EXPIRED.
pub(crate) fn expired() -> Answer
    ensures { result ≡ Answer.Refused token_expired }
{
    Answer::Refused(Sense::new(0x05, 0x23, 0x07))
}
