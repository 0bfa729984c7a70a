ghost use Rattle.std.specs.Prelude.{◌≡◌};
ghost use Rattle.dj_cursor.specs.trusted.Spelling.{u2, u4, u8};

use byteorder::{BigEndian, ByteOrder};

/// The bytes of a field of two bytes (u2 of JVMS chapter 4).
pub fn u2_bytes(number: u16) -> [u8; 2]
    ensures { result ≡ u2 number }
{
    let mut bytes = [0; 2];
    BigEndian::write_u16(&mut bytes, number);
    bytes
}

/// The bytes of a field of four bytes (u4).
pub fn u4_bytes(number: u32) -> [u8; 4]
    ensures { result ≡ u4 number }
{
    let mut bytes = [0; 4];
    BigEndian::write_u32(&mut bytes, number);
    bytes
}

/// The bytes of a field of eight bytes: a long or a double (JVMS 4.4.5).
pub fn u8_bytes(number: u64) -> [u8; 8]
    ensures { result ≡ u8 number }
{
    let mut bytes = [0; 8];
    BigEndian::write_u64(&mut bytes, number);
    bytes
}
