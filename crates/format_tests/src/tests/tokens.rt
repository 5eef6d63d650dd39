// The text of a token.
ghost use Rattle.std.specs.Prelude.{◌≡◌, length, IfOk};

use cm_base::{Config, UnitConfig, UnitList};
use rod_token::{TokenKind, classify, text};
use std::test::Fail;

/// A machine of one unit of 1,048,576 blocks of 512 bytes, with this secret.
fn one_unit(rt: &HostRuntime, secret: [u8; 32]) -> Result<Config, Fail>
    ensures { IfOk result (λ config. length config.units ≡ 1) }
{
    let only = UnitConfig {
        blocks: 1_048_576,
        block_length: 512,
        entries: 1_048_576,
        quota: 1_048_576,
        payload: 268_435_456,
        group: 0,
    };
    Ok(Config::new(secret, UnitList::copy(rt.alloc(), &[only])?))
}

/// The token of the first serial of unit 0, which stands for one block of 512 bytes, where the
/// secret is the bytes 00h to 1Fh.
#[test]
fn text_of_one_block(rt: HostRuntime) -> Result<(), Fail> {
    let secret = [
        0, 1, 2, 3, 4, 5, 6, 7, 8, 9, 10, 11, 12, 13, 14, 15, 16, 17, 18, 19, 20, 21, 22, 23, 24,
        25, 26, 27, 28, 29, 30, 31,
    ];
    let token = text(&one_unit(&rt, secret)?, 0, 0, 1);
    let front = [
        0x00, 0x80, 0x00, 0x00, 0x00, 0x00, 0x01, 0xf8, 0x00, 0x00, 0x00, 0x00, 0x00, 0x00, 0x00,
        0x00, 0xe4, 0x00, 0x00, 0x00, 0x01, 0x03, 0x00, 0x08, 0x30, 0x00, 0x00, 0x00, 0x00, 0x00,
        0x00, 0x00, 0x00, 0x00, 0x00, 0x00, 0x00, 0x00, 0x00, 0x00, 0x00, 0x00, 0x00, 0x00, 0x00,
        0x00, 0x02, 0x00, 0x00, 0x00, 0x00, 0x00, 0x00, 0x00, 0x00, 0x00, 0x00, 0x00, 0x00, 0x00,
        0x00, 0x00, 0x02, 0x00,
    ];
    let nonce = [
        0x7d, 0x2b, 0xfd, 0x39, 0x6a, 0x19, 0xc5, 0xd9, 0x77, 0x03, 0xbd, 0x8d, 0x49, 0x4a, 0xdc,
        0xb8, 0x6f, 0xd8, 0x35, 0x8a, 0xcc, 0x6a, 0xde, 0xbc, 0x4c, 0x7d, 0xcc, 0xb2, 0x92, 0x24,
        0xea, 0xd8,
    ];
    assert!(rt; &token[..64] == front.as_slice());
    assert!(rt; &token[64..96] == nonce.as_slice());
    assert!(rt; token[96..].iter().all(|byte| *byte == 0));
    assert!(rt; matches!(classify(&token), TokenKind::Names { unit: 0, serial: 0 }));
    Ok(())
}

/// What a text says that it is, by its length and type.
#[test]
fn kinds(rt: HostRuntime) {
    let mut token = [0xff; 512];
    assert!(rt; matches!(classify(&token), TokenKind::BadLength));
    token = [0; 512];
    assert!(rt; matches!(classify(&token), TokenKind::BadLength));
    token[6..8].copy_from_slice(&[0x01, 0xf8]);
    assert!(rt; matches!(classify(&token), TokenKind::BadType));
    token = [0xff; 512];
    token[2..4].copy_from_slice(&[0x00, 0x01]);
    token[6..8].copy_from_slice(&[0x01, 0xf8]);
    assert!(rt; matches!(classify(&token), TokenKind::Zero));
}
