// What acts have to do with operations and tokens.
ghost use Rattle.std.specs.Prelude.{◌≡◌};
ghost use Rattle.rod_token.specs.TokenText.{serial_of};
ghost use Rattle.cm_history.specs.Deeds.{same_actor};
ghost use Rattle.cm_history.specs.Tokens.{is_populate, is_delete_of, is_redeem_of};
ghost use Rattle.cm_history.specs.Operations.{same_form, is_making, form_of, id_of, is_foreground, is_background};
ghost use Rattle.cm_history.specs.Room.{is_write, bytes_in};
ghost use Rattle.plain_model.specs.inner.Amounts.{capped};
ghost use Rattle.plain_model.specs.inner.Forms.{as_form};
ghost use Rattle.plain_model.specs.inner.Holds.{IsSizedAct};

use cm_base::{get_u16, get_u32};
use cm_history::{Act, Actor};

/// Whether an operation is of a token or of a copy.
#[derive(Drop, Clone, Copy)]
pub(crate) enum PlainForm {
    OfToken,
    OfCopy,
}

pub(crate) fn same_form(a: PlainForm, b: PlainForm) -> bool
    ensures { result ≡ same_form (as_form a) (as_form b) }
{
    matches!(
        (a, b),
        (PlainForm::OfToken, PlainForm::OfToken) | (PlainForm::OfCopy, PlainForm::OfCopy)
    )
}

pub(crate) fn same_actor(a: Actor, b: Actor) -> bool
    ensures { result ≡ same_actor a b }
{
    match (a, b) {
        (Actor::Nexus(a), Actor::Nexus(b)) => a == b,
        (Actor::Pump(a), Actor::Pump(b)) => a == b,
        _ => false,
    }
}

/// The act makes an operation.
pub(crate) fn is_making(act: &Act) -> bool
    ensures { result ≡ is_making act.now }
{
    matches!(
        act,
        Act::Populate { .. } | Act::Start { .. } | Act::Open { .. }
    )
}

pub(crate) fn form_of(act: &Act) -> PlainForm
    ensures { as_form result ≡ form_of act.now }
{
    match act {
        Act::Open { .. } => PlainForm::OfCopy,
        _ => PlainForm::OfToken,
    }
}

/// The list identifier of an act that makes an operation.
pub(crate) fn id_of(act: &Act) -> u32
    ensures { result ≡ id_of act.now }
{
    match act {
        Act::Populate { id, .. } => *id,
        Act::Start { id, .. } => *id,
        Act::Open { id } => u32::from(*id),
        _ => 0,
    }
}

/// A Start whose pieces the initiator asks for.
pub(crate) fn is_foreground(act: &Act) -> bool
    ensures { result ≡ is_foreground act.now }
{
    match act {
        Act::Start { background, .. } => !*background,
        _ => false,
    }
}

/// A Start whose pieces the pump writes.
pub(crate) fn is_background(act: &Act) -> bool
    ensures { result ≡ is_background act.now }
{
    match act {
        Act::Start { background, .. } => *background,
        _ => false,
    }
}

pub(crate) fn is_populate(act: &Act) -> bool
    ensures { result ≡ is_populate act.now }
{
    matches!(act, Act::Populate { .. })
}

/// The act deletes the token of this serial.
pub(crate) fn is_delete_of(serial: u64, act: &Act) -> bool
    ensures { result ≡ is_delete_of serial act.now }
{
    match act {
        Act::Delete { serial: named } => *named == serial,
        _ => false,
    }
}

/// The serial that a text names, in bytes 10 to 15 (own profile).
pub(crate) fn serial_of(text: &[u8; 512]) -> u64
    ensures { result ≡ serial_of text.now }
{
    (u64::from(get_u16(text, 10)) << 32) + u64::from(get_u32(text, 12))
}

/// The act redeems the token of this serial.
pub(crate) fn is_redeem_of(serial: u64, act: &Act) -> bool
    ensures { result ≡ is_redeem_of serial act.now }
{
    match act {
        Act::Redeem { text, target: _ } => serial_of(text.bytes()) == serial,
        _ => false,
    }
}

/// How many blocks an act brings, each of which has its block length.
pub(crate) fn blocks_brought(act: &Act) -> u64
    ensures { IsSizedAct act.now }
{
    match act {
        Act::Write { list, .. } | Act::Put { list, .. } => list.blocks(),
        Act::Start { rod, .. } => rod.list().blocks(),
        _ => 0,
    }
}

/// The act is a Write.
pub(crate) fn is_write(act: &Act) -> bool
    ensures { result ≡ is_write act.now }
{
    matches!(act, Act::Write { .. })
}

/// The bytes of a Write, and none of another act.
pub(crate) fn bytes_in(act: &Act) -> u64
    ensures { result ≡ capped (bytes_in act.now) }
{
    match act {
        Act::Write { list, .. } => list.blocks().saturating_mul(u64::from(list.block_length())),
        _ => 0,
    }
}
