ghost use Rattle.std.specs.Prelude.{◌≡◌, ◌+◌, ◌<◌, ◌≤◌, ◌^◌, ◌++◌, length, take, drop};
ghost use Rattle.rod_token.specs.TokenText.{token_text, nonce};
ghost use Rattle.cm_base.specs.Units.{unit_descriptor};

use cm_base::{Config, set_u32, unit_descriptor};
use rand_chacha::ChaCha20Rng;
use rand_core::SeedableRng;
use rand_core::utils::NextWord;

/// Writes bytes from a place on, and changes no other byte.
fn set_bytes(into: &mut [u8], at: usize, from: &[u8])
    requires { at + length from.now ≤ length into.old }
    ensures { into.new ≡ take at into.old ++ from.now ++ drop (at + length from.now) into.old }
{
    into[at..at + from.len()].copy_from_slice(from);
}

/// The nonce of a serial: eight words of the ChaCha20 stream whose key is the secret and whose
/// number is the unit's.
fn nonce(config: &Config, unit: u16, serial: u64) -> [u8; 32]
    requires { serial < 2 ^ 48 }
    ensures { result ≡ nonce config.now unit serial }
{
    let mut generator = ChaCha20Rng::from_seed(*config.secret());
    generator.set_stream(u64::from(unit));
    generator.set_word_pos(8 * u128::from(serial));
    let mut bytes = [0u8; 32];
    for index in 0..8 {
        let word = generator.next_word();
        set_u32(&mut bytes, 4 * index, word);
    }
    bytes
}

/// The text of the token of a unit's serial that stands for so many blocks (SPC-4, ROD token
/// format; bytes from 8 on are this product's own profile). It takes no memory.
pub fn text(config: &Config, unit: u16, serial: u64, blocks: u32) -> [u8; 512]
    requires configured { unit < length config.now.units }
    requires made { serial < 2 ^ 48 }
    ensures { result ≡ token_text config.now unit serial blocks }
{
    let bytes = u128::from(blocks) * u128::from(config.unit(unit).block_length);
    let mut text = [0u8; 512];
    set_bytes(
        &mut text,
        0,
        &[0x00, 0x80, 0x00, 0x00, 0x00, 0x00, 0x01, 0xf8],
    );
    set_bytes(&mut text, 8, &unit.to_be_bytes());
    set_bytes(&mut text, 10, &serial.to_be_bytes()[2..]);
    set_bytes(&mut text, 16, &unit_descriptor(config, unit));
    set_bytes(&mut text, 48, &bytes.to_be_bytes());
    set_bytes(&mut text, 64, &nonce(config, unit, serial));
    text
}
