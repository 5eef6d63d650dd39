ghost use Rattle.std.specs.Prelude.{◌≡◌};
ghost use Rattle.rod_token.specs.TokenText.{classify, serial_of};

use cm_base::{get_u16, get_u32};

/// The ROD type of a token that stands for zeros (SBC-3, block device zero ROD token).
const ZERO_TYPE: u32 = 0xffff_0001;

/// The ROD type of a token of this copy manager (SPC-4, point in time copy, default).
const POINT_IN_TIME: u32 = 0x0080_0000;

/// The ROD token length field of a token of 512 bytes.
const TOKEN_LENGTH: u16 = 0x01f8;

/// What a text of 512 bytes says that it is.
#[derive(Debug, Drop, Clone, Copy)]
pub enum TokenKind {
    /// The token length field is not that of 512 bytes.
    BadLength,
    /// The token stands for zeros; no other byte is looked at.
    Zero,
    /// The ROD type is none of this copy manager's.
    BadType,
    /// A token that names the unit that made it and its serial, below 2^48 (own profile).
    Names { unit: u16, serial: u64 },
}

/// The first of the four that holds. It takes no memory.
pub fn classify(token: &[u8; 512]) -> TokenKind
    ensures { result ≡ classify token.now }
{
    if get_u16(token, 6) != TOKEN_LENGTH {
        return TokenKind::BadLength;
    }
    match get_u32(token, 0) {
        ZERO_TYPE => TokenKind::Zero,
        POINT_IN_TIME => TokenKind::Names {
            unit: get_u16(token, 8),
            serial: serial(token),
        },
        _ => TokenKind::BadType,
    }
}

/// The serial in bytes 10 to 15.
fn serial(token: &[u8; 512]) -> u64
    ensures { result ≡ serial_of token.now }
{
    (u64::from(get_u16(token, 10)) << 32) + u64::from(get_u32(token, 12))
}
