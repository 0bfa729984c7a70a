ghost use Rattle.std.specs.Prelude.{◌≡◌, ◌++◌, ℕ, List, codes, IfOk};
ghost use Rattle.std.specs.Char.Utf16.{utf16_lossy_chars};
ghost use Rattle.std.specs.Str.{encode_utf8_all};
ghost use Rattle.dj_names.specs.trusted.ModifiedUtf8.{SpellsUnits};
ghost use Rattle.dj_shape.specs.Rules.{IsPathOf};

use dj_names::{Name, TextError, units_of};
use std::alloc::{AllocError, Global};

/// The two one after the other.
pub fn joined(alloc: Global, prefix: &[u8], back: &[u8]) -> Result<Name, AllocError>
    ensures { IfOk result (λ text. text ≡ prefix.now ++ back.now) }
{
    let mut text = Name::from_slice(alloc, prefix)?;
    text.extend(back)?;
    Ok(text)
}

// The characters that units spell, and .class
fn units_path(alloc: Global, units: &[u16]) -> Result<Name, AllocError>
    ensures { IfOk result (λ path. path ≡ encode_utf8_all (utf16_lossy_chars units.now) ++ codes ".class") }
{
    let text = String::from_utf16_lossy(alloc, units)?;
    joined(alloc, text.as_bytes(), b".class")
}

/// The path of the file of the class of this name.
pub fn class_path(alloc: Global, name: &[u8]) -> Result<Name, AllocError>
    requires { (units : List ℕ) × SpellsUnits name.now units }
    ensures { IfOk result (λ path. IsPathOf path name.now) }
{
    // There is no memory for a longer name.
    let Ok(_) = u32::try_from(name.len()) else {
        return Err(AllocError);
    };
    match units_of(alloc, name) {
        Ok(units) => units_path(alloc, units.as_slice()),
        Err(TextError::NotModifiedUtf8(_)) => unreachable!(),
        Err(TextError::Memory) => Err(AllocError),
    }
}
