ghost use Rattle.std.specs.Prelude.{◌≡◌, ◌≢◌, ◌==◌, ◌++◌, ◌≤◌, ℕ, List, Option, not, is_some, IfSome, IfNone};
ghost use Rattle.scsi_sense.specs.SenseCode.{SenseCode};
ghost use Rattle.scsi_sense.specs.SenseBytes.{sense_bytes};
ghost use Rattle.copy_status.specs.declared.operation.OperationStatus.{OperationStatus};
ghost use Rattle.copy_status.specs.CopyStatus.{CopyStatus, IsStatus, status_code, sense_of};
ghost use Rattle.copy_status.specs.StatusBytes.{header_bytes, sense_data, token_part, information_bytes, IsToken, IsTokenOf};

use crate::fields::{MAX_COUNT, StatusFields};
use crate::operation::OperationStatus;
use crate::writing::{NO_TOKEN, POPULATE_TOKEN, TOKEN_HEAD, header};
use cm_base::{get_u32, get_u64};
use scsi_sense::Sense;

/// The status of this code and sense, where there is one.
fn status_of(code: u8, sense: Option<Sense>) -> Option<OperationStatus>
    ensures found { IfSome result (λ s. (status_code s ≡ code) × (sense_of s ≡ sense)) }
    ensures none { IfNone result ((s : OperationStatus) → status_code s ≡ code → sense_of s ≢ sense) }
{
    match (code, sense) {
        (0x01, None) => Some(OperationStatus::Completed),
        (0x02, Some(sense)) => Some(OperationStatus::Failed(sense)),
        (0x11, None) => Some(OperationStatus::Foreground),
        (0x12, None) => Some(OperationStatus::Background),
        (0x60, None) => Some(OperationStatus::Terminated),
        _ => None,
    }
}

/// The sense at the front of some bytes, where its length says that there is one, and what follows.
fn split_sense(length: u8, bytes: &[u8]) -> Option<(Option<Sense>, &[u8])>
    ensures cut { IfSome result (λ cut. bytes.now ≡ sense_data cut.0 ++ cut.1.now) }
    ensures marked { IfSome result (λ cut. is_some cut.0 ≡ not (length == 0)) }
    ensures wanted { IfNone result (length ≢ 0) }
    ensures none { IfNone result ((sense : SenseCode) (more : List ℕ)
        → sense.key ≤ 15 → bytes.now ≢ sense_bytes sense ++ more) }
{
    if length == 0 {
        return Some((None, bytes));
    }
    let (sense, rest) = bytes.split_first_chunk::<18>()?;
    Some((Some(Sense::from_bytes(sense)?), rest))
}

/// The token of a token part, or that it has none.
fn read_token(bytes: &[u8]) -> Option<Option<[u8; 512]>>
    ensures spelled { IfSome result (λ token. bytes.now ≡ token_part token) }
    ensures none { IfNone result ((token : Option (List ℕ)) → IsToken token → bytes.now ≢ token_part token) }
{
    if bytes == NO_TOKEN.as_slice() {
        return Some(None);
    }
    let (head, token) = bytes.split_first_chunk::<6>()?;
    if *head != TOKEN_HEAD {
        return None;
    }
    Some(Some(*token.as_array::<512>()?))
}

/// What the header tells, if the bytes are one, of an operation of this sense.
fn read_header(bytes: &[u8; 32], sense: Option<Sense>, available: u32) -> Option<StatusFields>
    ensures spelled { IfSome result (λ fields. bytes.now ≡ header_bytes fields available) }
    ensures failed { IfSome result (λ fields. fields.sense ≡ sense) }
    ensures few { IfSome result (λ fields. fields.count ≤ 1_048_576) }
    ensures none { IfNone result ((fields : CopyStatus) → IsStatus fields
        → fields.sense ≡ sense → bytes.now ≢ header_bytes fields available) }
{
    let count = get_u64(bytes, 16);
    if count > MAX_COUNT {
        return None;
    }
    let Some(status) = status_of(bytes[5], sense) else {
        return None;
    };
    let fields = StatusFields::new(bytes[4] == POPULATE_TOKEN, status, count);
    (*bytes == header(&fields, available)).then_some(fields)
}

/// The status and the token of a RECEIVE ROD TOKEN INFORMATION: what `token_information` wrote as
/// these bytes, if there is such a status.
pub fn read_token_information(bytes: &[u8]) -> Option<(StatusFields, Option<[u8; 512]>)>
    ensures spelled { IfSome result (λ told. bytes.now ≡ information_bytes told.0 told.1) }
    ensures token { IfSome result (λ told. IsTokenOf told.0 told.1) }
    ensures same { IfSome result (λ told. (fields : CopyStatus) (token : Option (List ℕ))
        → IsStatus fields → bytes.now ≡ information_bytes fields token → (told.0 ≡ fields) × (told.1 ≡ token)) }
    ensures none { IfNone result ((fields : CopyStatus) (token : Option (List ℕ))
        → IsStatus fields → IsTokenOf fields token → bytes.now ≢ information_bytes fields token) }
{
    let Some((head, rest)) = bytes.split_first_chunk::<32>() else {
        return None;
    };
    let Some((sense, rest)) = split_sense(head[13], rest) else {
        return None;
    };
    let Some(token) = read_token(rest) else {
        return None;
    };
    let Some(fields) = read_header(head, sense, (bytes.len() - 4) as u32) else {
        return None;
    };
    if token.is_some() != fields.populate() {
        return None;
    }
    Some((fields, token))
}
