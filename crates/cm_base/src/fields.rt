ghost use Rattle.std.specs.Prelude.{◌≡◌, ◌+◌, ◌≤◌, ◌<◌, ◌^◌, ◌++◌, length, take, drop};
ghost use Rattle.byteorder.specs.Endian.{big_from, big_bytes};

use byteorder::{BigEndian, ByteOrder};

/// The number in two bytes from a place on.
pub fn get_u16(from: &[u8], at: usize) -> u16
    requires { at + 2 ≤ length from.now }
    ensures { result ≡ big_from at 2 from.now }
{
    BigEndian::read_u16(&from[at..])
}

/// The number in three bytes from a place on.
pub fn get_u24(from: &[u8], at: usize) -> u32
    requires { at + 3 ≤ length from.now }
    ensures { result ≡ big_from at 3 from.now }
{
    BigEndian::read_u24(&from[at..])
}

/// The number in four bytes from a place on.
pub fn get_u32(from: &[u8], at: usize) -> u32
    requires { at + 4 ≤ length from.now }
    ensures { result ≡ big_from at 4 from.now }
{
    BigEndian::read_u32(&from[at..])
}

/// The number in eight bytes from a place on.
pub fn get_u64(from: &[u8], at: usize) -> u64
    requires { at + 8 ≤ length from.now }
    ensures { result ≡ big_from at 8 from.now }
{
    BigEndian::read_u64(&from[at..])
}

/// Writes the number to two bytes from a place on, and changes no other byte.
pub fn set_u16(into: &mut [u8], at: usize, value: u16)
    requires { at + 2 ≤ length into.old }
    ensures { into.new ≡ take at into.old ++ big_bytes 2 value ++ drop (at + 2) into.old }
{
    BigEndian::write_u16(&mut into[at..], value);
}

/// Writes the number to four bytes from a place on, and changes no other byte.
pub fn set_u32(into: &mut [u8], at: usize, value: u32)
    requires { at + 4 ≤ length into.old }
    ensures { into.new ≡ take at into.old ++ big_bytes 4 value ++ drop (at + 4) into.old }
{
    BigEndian::write_u32(&mut into[at..], value);
}

/// Writes the number to eight bytes from a place on, and changes no other byte.
pub fn set_u64(into: &mut [u8], at: usize, value: u64)
    requires { at + 8 ≤ length into.old }
    ensures { into.new ≡ take at into.old ++ big_bytes 8 value ++ drop (at + 8) into.old }
{
    BigEndian::write_u64(&mut into[at..], value);
}
