ghost use Rattle.std.specs.Prelude.{◌≡◌, ◌≤◌, IsTrue, IfSome};
ghost use Rattle.std.specs.Option.{option_map};
ghost use Rattle.copy_status.specs.CopyStatus.{IsStatus};
ghost use Rattle.odx_host.specs.StatusRead.{information_read};
ghost use Rattle.odx_host.specs.Rule.{token_of, is_done};
ghost use Rattle.odx_host.specs.inner.Told.{information_of};

use crate::fault::CopyFault;
use copy_status::{StatusFields, read_token_information};
use scsi_sense::Sense;

/// COPY OPERATION STATUS (SPC-4).
const COMPLETED: u8 = 0x01;

const FAILED: u8 = 0x02;

const FOREGROUND: u8 = 0x11;

const BACKGROUND: u8 = 0x12;

/// One of the five statuses, with a sense exactly where the operation failed.
fn is_status(fields: &StatusFields) -> bool
    ensures holds { IsTrue result }
    ensures status { IsStatus fields.now }
{
    let status = fields.status();
    let sense = fields.sense();
    let runs = status == FOREGROUND || status == BACKGROUND;
    fields.running() == runs
        && sense.is_some() == (status == FAILED)
        && key_of(sense) <= 15
        && fields.count() <= 1_048_576
}

/// SENSE KEY, and 0 where there is no sense.
fn key_of(sense: Option<Sense>) -> u8
    ensures small { result ≤ 15 }
    ensures key { IfSome sense (λ s. s.key ≤ 15) }
{
    match sense {
        Some(sense) => sense.key(),
        None => 0,
    }
}

/// What is told of an operation, with the token that it made.
fn information(bytes: &[u8]) -> Option<(StatusFields, Option<[u8; 512]>)>
    ensures { option_map information_of result ≡ information_read bytes.now }
{
    let (fields, token) = read_token_information(bytes)?;
    let holds = is_status(&fields);
    prove!(holds);
    Some((fields, token))
}

/// The token of a POPULATE TOKEN, which is told as done, with all its blocks.
pub(crate) fn token_of(step: u32, blocks: u64, bytes: &[u8]) -> Result<[u8; 512], CopyFault>
    ensures { result ≡ token_of step blocks (information_read bytes.now) }
{
    match information(bytes) {
        Some((fields, Some(token))) if fields.status() == COMPLETED && fields.count() == blocks => {
            Ok(token)
        }
        _ => Err(CopyFault::BadData { step }),
    }
}

/// Whether a write is told as done, with all its blocks; else it still runs.
pub(crate) fn is_done(step: u32, blocks: u64, bytes: &[u8]) -> Result<bool, CopyFault>
    ensures { result ≡ is_done step blocks (information_read bytes.now) }
{
    let Some((fields, None)) = information(bytes) else {
        return Err(CopyFault::BadData { step });
    };
    match fields.status() {
        FOREGROUND => Err(CopyFault::BadData { step }),
        BACKGROUND => Ok(false),
        COMPLETED if fields.count() == blocks => Ok(true),
        COMPLETED => Err(CopyFault::BadData { step }),
        status => Err(CopyFault::Failed { step, status }),
    }
}
