ghost use Rattle.std.specs.Prelude.{◌≡◌, ◌++◌, OnOk};
ghost use Rattle.dj_cursor.specs.trusted.Spelling.{u1, u2, u4, u8, s4, s8};

use crate::error::WriteError;
use dj_cursor::{u2_bytes, u4_bytes, u8_bytes};

/// Appends a byte.
pub(crate) fn put_u1(out: &mut Vec<u8>, n: u8) -> Result<(), WriteError>
    ensures { OnOk result (out.new.items ≡ out.old.items ++ u1 n) }
{
    out.push(n)?;
    Ok(())
}

/// Appends a number of two bytes.
pub(crate) fn put_u2(out: &mut Vec<u8>, n: u16) -> Result<(), WriteError>
    ensures { OnOk result (out.new.items ≡ out.old.items ++ u2 n) }
{
    out.extend_from_slice(&u2_bytes(n))?;
    Ok(())
}

/// Appends a number of four bytes.
pub(crate) fn put_u4(out: &mut Vec<u8>, n: u32) -> Result<(), WriteError>
    ensures { OnOk result (out.new.items ≡ out.old.items ++ u4 n) }
{
    out.extend_from_slice(&u4_bytes(n))?;
    Ok(())
}

/// Appends a number of eight bytes.
pub(crate) fn put_u8(out: &mut Vec<u8>, n: u64) -> Result<(), WriteError>
    ensures { OnOk result (out.new.items ≡ out.old.items ++ u8 n) }
{
    out.extend_from_slice(&u8_bytes(n))?;
    Ok(())
}

/// Appends a signed number of four bytes.
pub(crate) fn put_s4(out: &mut Vec<u8>, n: i32) -> Result<(), WriteError>
    ensures { OnOk result (out.new.items ≡ out.old.items ++ s4 n) }
{
    put_u4(out, n.cast_unsigned())
}

/// Appends a signed number of eight bytes.
pub(crate) fn put_s8(out: &mut Vec<u8>, n: i64) -> Result<(), WriteError>
    ensures { OnOk result (out.new.items ≡ out.old.items ++ s8 n) }
{
    put_u8(out, n.cast_unsigned())
}

/// Appends the low two bytes of a length. That of a table or a text in a class file has no more.
pub(crate) fn put_length2(out: &mut Vec<u8>, len: usize) -> Result<(), WriteError>
    ensures { OnOk result (out.new.items ≡ out.old.items ++ u2 len) }
{
    put_u2(out, (len & 0xffff) as u16)
}

/// Appends the low four bytes of a length. That of a body in a class file has no more.
pub(crate) fn put_length4(out: &mut Vec<u8>, len: usize) -> Result<(), WriteError>
    ensures { OnOk result (out.new.items ≡ out.old.items ++ u4 len) }
{
    put_u4(out, (len & 0xffff_ffff) as u32)
}

/// Appends bytes.
pub(crate) fn put_bytes(out: &mut Vec<u8>, bytes: &[u8]) -> Result<(), WriteError>
    ensures { OnOk result (out.new.items ≡ out.old.items ++ bytes.now) }
{
    out.extend_from_slice(bytes)?;
    Ok(())
}
