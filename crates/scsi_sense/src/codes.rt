ghost use Rattle.std.specs.Prelude.{◌≡◌};
ghost use Rattle.scsi_sense.specs.Codes.{no_additional_sense, parameter_list_length_error, invalid_operation_code, invalid_field_in_cdb, logical_unit_not_supported, invalid_field_in_parameter_list, too_many_target_descriptors, unsupported_target_descriptor_type, too_many_segment_descriptors, unsupported_segment_descriptor_type, inline_data_length_exceeded, lba_out_of_range, space_allocation_failed, operation_in_progress, insufficient_resources, unsupported_token_type, remote_token_usage_not_supported, token_unknown, token_corrupt, token_expired, token_cancelled, token_deleted, invalid_token_length, copy_aborted, copy_target_device_not_reachable, incorrect_copy_target_device_type, copy_lba_out_of_range};

use crate::sense::Sense;

/// Sense keys (SPC-4, Sense key descriptions).
const NO_SENSE: u8 = 0x00;

const ILLEGAL_REQUEST: u8 = 0x05;

const DATA_PROTECT: u8 = 0x07;

const COPY_ABORTED: u8 = 0x0a;

/// Senses by the names of SPC-4, Additional sense codes.
impl Sense {
    /// NO ADDITIONAL SENSE INFORMATION: nothing is to be told.
    pub fn no_additional_sense() -> Sense
        ensures { result ≡ no_additional_sense }
    {
        Sense::new(NO_SENSE, 0x00, 0x00)
    }

    /// PARAMETER LIST LENGTH ERROR: a parameter list has too few bytes.
    pub fn parameter_list_length_error() -> Sense
        ensures { result ≡ parameter_list_length_error }
    {
        Sense::new(ILLEGAL_REQUEST, 0x1a, 0x00)
    }

    /// INVALID COMMAND OPERATION CODE: the operation code or the service action is not known.
    pub fn invalid_operation_code() -> Sense
        ensures { result ≡ invalid_operation_code }
    {
        Sense::new(ILLEGAL_REQUEST, 0x20, 0x00)
    }

    /// INVALID FIELD IN CDB.
    pub fn invalid_field_in_cdb() -> Sense
        ensures { result ≡ invalid_field_in_cdb }
    {
        Sense::new(ILLEGAL_REQUEST, 0x24, 0x00)
    }

    /// LOGICAL UNIT NOT SUPPORTED: the addressed unit is not configured.
    pub fn logical_unit_not_supported() -> Sense
        ensures { result ≡ logical_unit_not_supported }
    {
        Sense::new(ILLEGAL_REQUEST, 0x25, 0x00)
    }

    /// INVALID FIELD IN PARAMETER LIST.
    pub fn invalid_field_in_parameter_list() -> Sense
        ensures { result ≡ invalid_field_in_parameter_list }
    {
        Sense::new(ILLEGAL_REQUEST, 0x26, 0x00)
    }

    /// TOO MANY TARGET DESCRIPTORS: more CSCD descriptors than are taken.
    pub fn too_many_target_descriptors() -> Sense
        ensures { result ≡ too_many_target_descriptors }
    {
        Sense::new(ILLEGAL_REQUEST, 0x26, 0x06)
    }

    /// UNSUPPORTED TARGET DESCRIPTOR TYPE CODE: a CSCD descriptor of another type than E4h.
    pub fn unsupported_target_descriptor_type() -> Sense
        ensures { result ≡ unsupported_target_descriptor_type }
    {
        Sense::new(ILLEGAL_REQUEST, 0x26, 0x07)
    }

    /// TOO MANY SEGMENT DESCRIPTORS: more segment descriptors than are taken.
    pub fn too_many_segment_descriptors() -> Sense
        ensures { result ≡ too_many_segment_descriptors }
    {
        Sense::new(ILLEGAL_REQUEST, 0x26, 0x08)
    }

    /// UNSUPPORTED SEGMENT DESCRIPTOR TYPE CODE: a segment descriptor of another type than 02h.
    pub fn unsupported_segment_descriptor_type() -> Sense
        ensures { result ≡ unsupported_segment_descriptor_type }
    {
        Sense::new(ILLEGAL_REQUEST, 0x26, 0x09)
    }

    /// INLINE DATA LENGTH EXCEEDED: there is inline data, of which none is taken.
    pub fn inline_data_length_exceeded() -> Sense
        ensures { result ≡ inline_data_length_exceeded }
    {
        Sense::new(ILLEGAL_REQUEST, 0x26, 0x0b)
    }

    /// LOGICAL BLOCK ADDRESS OUT OF RANGE: the blocks do not all lie in the unit.
    pub fn lba_out_of_range() -> Sense
        ensures { result ≡ lba_out_of_range }
    {
        Sense::new(ILLEGAL_REQUEST, 0x21, 0x00)
    }

    /// SPACE ALLOCATION FAILED WRITE PROTECT: more blocks would be mapped than the quota.
    pub fn space_allocation_failed() -> Sense
        ensures { result ≡ space_allocation_failed }
    {
        Sense::new(DATA_PROTECT, 0x27, 0x07)
    }

    /// OPERATION IN PROGRESS: an operation of the same list identifier runs.
    pub fn operation_in_progress() -> Sense
        ensures { result ≡ operation_in_progress }
    {
        Sense::new(ILLEGAL_REQUEST, 0x00, 0x16)
    }

    /// INSUFFICIENT RESOURCES: too many operations run, or no serial is left.
    pub fn insufficient_resources() -> Sense
        ensures { result ≡ insufficient_resources }
    {
        Sense::new(ILLEGAL_REQUEST, 0x55, 0x03)
    }

    /// INVALID TOKEN OPERATION, UNSUPPORTED TOKEN TYPE.
    pub fn unsupported_token_type() -> Sense
        ensures { result ≡ unsupported_token_type }
    {
        Sense::new(ILLEGAL_REQUEST, 0x23, 0x01)
    }

    /// INVALID TOKEN OPERATION, REMOTE TOKEN USAGE NOT SUPPORTED: the token may not be used at that unit.
    pub fn remote_token_usage_not_supported() -> Sense
        ensures { result ≡ remote_token_usage_not_supported }
    {
        Sense::new(ILLEGAL_REQUEST, 0x23, 0x02)
    }

    /// INVALID TOKEN OPERATION, TOKEN UNKNOWN: no unit made the token.
    pub fn token_unknown() -> Sense
        ensures { result ≡ token_unknown }
    {
        Sense::new(ILLEGAL_REQUEST, 0x23, 0x04)
    }

    /// INVALID TOKEN OPERATION, TOKEN CORRUPT: the text is not that of the token.
    pub fn token_corrupt() -> Sense
        ensures { result ≡ token_corrupt }
    {
        Sense::new(ILLEGAL_REQUEST, 0x23, 0x05)
    }

    /// INVALID TOKEN OPERATION, TOKEN EXPIRED: the token's time is over.
    pub fn token_expired() -> Sense
        ensures { result ≡ token_expired }
    {
        Sense::new(ILLEGAL_REQUEST, 0x23, 0x07)
    }

    /// INVALID TOKEN OPERATION, TOKEN CANCELLED: the token made room for another.
    pub fn token_cancelled() -> Sense
        ensures { result ≡ token_cancelled }
    {
        Sense::new(ILLEGAL_REQUEST, 0x23, 0x08)
    }

    /// INVALID TOKEN OPERATION, TOKEN DELETED: a host deleted the token.
    pub fn token_deleted() -> Sense
        ensures { result ≡ token_deleted }
    {
        Sense::new(ILLEGAL_REQUEST, 0x23, 0x09)
    }

    /// INVALID TOKEN OPERATION, INVALID TOKEN LENGTH.
    pub fn invalid_token_length() -> Sense
        ensures { result ≡ invalid_token_length }
    {
        Sense::new(ILLEGAL_REQUEST, 0x23, 0x0a)
    }

    /// COPY ABORTED with no additional sense information: a copy stopped that should have gone on.
    pub fn copy_aborted() -> Sense
        ensures { result ≡ copy_aborted }
    {
        Sense::new(COPY_ABORTED, 0x00, 0x00)
    }

    /// COPY TARGET DEVICE NOT REACHABLE: a CSCD descriptor names no configured unit.
    pub fn copy_target_device_not_reachable() -> Sense
        ensures { result ≡ copy_target_device_not_reachable }
    {
        Sense::new(COPY_ABORTED, 0x0d, 0x02)
    }

    /// INCORRECT COPY TARGET DEVICE TYPE: a CSCD descriptor of another device type than that of a
    /// disk.
    pub fn incorrect_copy_target_device_type() -> Sense
        ensures { result ≡ incorrect_copy_target_device_type }
    {
        Sense::new(COPY_ABORTED, 0x0d, 0x03)
    }

    /// COPY ABORTED, LOGICAL BLOCK ADDRESS OUT OF RANGE: a segment reaches past the end of its
    /// unit.
    pub fn copy_lba_out_of_range() -> Sense
        ensures { result ≡ copy_lba_out_of_range }
    {
        Sense::new(COPY_ABORTED, 0x21, 0x00)
    }
}
