//! The texts of strings.
ghost use Rattle.std.specs.Prelude.{◌≡◌, true, is_some, IfOk};
ghost use Rattle.dj_names.specs.trusted.ModifiedUtf8.{units_text};
ghost use Rattle.dj_asm_tokens.specs.trusted.Words.{string_units};
ghost use Rattle.dj_asm_tokens.specs.Views.{opened_units, string_units_of};

use crate::string::{StringStep, string_step};
use crate::text::push_unit;
use crate::token::Quoted;
use dj_names::Name;
use std::alloc::{AllocError, Global};

impl Quoted<'_> {
    /// The text that the string's units are, in modified UTF-8.
    pub fn text(self, alloc: Global) -> Result<Name, AllocError>
        ensures { IfOk result (λ name. name ≡ units_text (string_units_of self.entry)) }
    {
        string_text(alloc, self.bytes)
    }
}

/// The text of the units before the quote that closes the string.
fn string_text(alloc: Global, bytes: &[u8]) -> Result<Name, AllocError>
    requires { is_some (string_units 0 bytes.now) ≡ true }
    ensures { IfOk result (λ name. name ≡ units_text (opened_units (string_units 0 bytes.now))) }
{
    let mut text = Name::new(alloc);
    let mut rest = bytes;
    while let StringStep::Unit(unit, after) = string_step(rest) {
        push_unit(&mut text, unit)?;
        rest = after;
    }
    Ok(text)
}
