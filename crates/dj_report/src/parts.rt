// Each function appends a part that lines share.
ghost use Rattle.std.specs.Prelude.{◌≡◌, ◌<◌, ◌++◌, OnOk};
ghost use Rattle.std.specs.Fmt.{decimal};
ghost use Rattle.dj_report.specs.trusted.Parts.{escaped_byte, escaped, hex_digit};

use crate::bytes::ReportError;
use itoa::Buffer;

fn hex_digit_of(d: u8) -> u8
    requires { d < 16 }
    ensures { result ≡ hex_digit d }
{
    if d < 10 { b'0' + d } else { b'A' - 10 + d }
}

fn put_escaped_byte(out: &mut Vec<u8>, byte: u8) -> Result<(), ReportError>
    ensures { OnOk result (out.new.items ≡ out.old.items ++ escaped_byte byte) }
{
    if (33..=126).contains(&byte) && byte != b'%' {
        out.push(byte)?;
    } else {
        out.push(b'%')?;
        out.push(hex_digit_of(byte / 16))?;
        out.push(hex_digit_of(byte % 16))?;
    }
    Ok(())
}

/// Appends bytes of a path, a class name or a member.
pub fn put_escaped(out: &mut Vec<u8>, text: &[u8]) -> Result<(), ReportError>
    ensures { OnOk result (out.new.items ≡ out.old.items ++ escaped text.now) }
{
    for byte in text {
        put_escaped_byte(out, *byte)?;
    }
    Ok(())
}

/// Appends a number.
pub fn put_decimal(out: &mut Vec<u8>, n: u64) -> Result<(), ReportError>
    ensures { OnOk result (out.new.items ≡ out.old.items ++ decimal n) }
{
    let mut buffer = Buffer::new();
    out.extend_from_slice(buffer.format(n).as_bytes())?;
    Ok(())
}
