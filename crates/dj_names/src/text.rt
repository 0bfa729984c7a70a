ghost use Rattle.std.specs.Prelude.{◌≡◌, ℕ, ◌^◌, ◌<◌, ◌↔◌, List, length, IsTrue, IfOk, IsErrOf};
ghost use Rattle.dj_names.specs.trusted.ModifiedUtf8.{SpellsUnits, IsModifiedUtf8};
ghost use Rattle.dj_names.specs.ModifiedUtf8.{BreaksAt};
ghost use Rattle.dj_names.specs.Tests.{modified_utf8_test};

use crate::lists::Units;
use crate::unit::unit_at;
use std::alloc::{AllocError, Global};
use thiserror::Error;

/// Why a text has no units.
#[derive(Clone, Copy, Debug, PartialEq, Eq, Error)]
pub enum TextError {
    /// The bytes at this place spell no unit.
    #[error("byte {0} is no modified UTF-8")]
    NotModifiedUtf8(u32),
    #[error("out of memory")]
    Memory,
}

impl From<AllocError> for TextError {
    ghost use Rattle.dj_names.specs.declared.text.TextError.TheVariants.{Memory};

    ghost from_gives = { λ _ e. e ≡ Memory };

    fn from(_error: AllocError) -> TextError {
        TextError::Memory
    }
}

/// Whether the text is modified UTF-8 (JVMS 4.4.7).
pub fn is_modified_utf8(text: &[u8]) -> bool
    ensures means { IsTrue result ↔ IsModifiedUtf8 text.now }
    ensures computes { result ≡ modified_utf8_test text.now }
{
    spells_units(text)
}

fn spells_units(text: &[u8]) -> bool
    ensures { IsTrue result ↔ IsModifiedUtf8 text.now }
{
    let mut rest = text;
    while !rest.is_empty() {
        match unit_at(rest) {
            Some((_, after)) => rest = after,
            None => return false,
        }
    }
    true
}

/// The units that the text spells (JVMS 4.4.7).
pub fn units_of(alloc: Global, text: &[u8]) -> Result<Units, TextError>
    requires { length text.now < 2 ^ 32 }
    ensures ok { IfOk result (λ units. SpellsUnits text.now units) }
    ensures broken { (place : ℕ) → IsErrOf result (TextError.NotModifiedUtf8 place) → BreaksAt text.now place }
{
    let mut units = Units::new(alloc);
    let mut rest = text;
    while !rest.is_empty() {
        match unit_at(rest) {
            Some((unit, after)) => {
                units.push(unit)?;
                rest = after;
            }
            None => return Err(TextError::NotModifiedUtf8((text.len() - rest.len()) as u32)),
        }
    }
    Ok(units)
}

/// A text spells one list of units only.
pub fn one_spelling()
    ensures { (text units others : List ℕ) → SpellsUnits text units → SpellsUnits text others → units ≡ others }
{}
