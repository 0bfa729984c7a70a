ghost use Rattle.std.specs.Prelude.{◌≡◌, ◌+◌, ◌≤◌, length, option_map, IfSome};
ghost use Rattle.dj_asm_tokens.specs.trusted.Words.{string_units};
ghost use Rattle.dj_asm_tokens.specs.Strings.{string_step, byte_step, backslash_step, IsShorter};
ghost use Rattle.dj_asm_tokens.specs.Views.{step_view};

use crate::bytes::{escape_at, is_plain};

/// What a string's bytes begin with.
#[derive(Clone, Copy)]
pub(crate) enum StringStep<'t> {
    /// The quote that closes it, and the bytes after that.
    Closed(&'t [u8]),
    /// A unit, and the bytes after it.
    Unit(u16, &'t [u8]),
    /// Bytes that no string has.
    Broken,
}

/// What a string's bytes begin with, after its opening quote.
#[tactic(auto, unfolding(crate::specs::Strings::string_step))]
pub(crate) fn string_step(bytes: &[u8]) -> StringStep<'_>
    ensures step { step_view result ≡ string_step bytes.now }
    ensures shorter { IsShorter (length bytes.now) (step_view result) }
{
    match bytes {
        [] => StringStep::Broken,
        [first, after @ ..] => {
            if *first == b'"' {
                return StringStep::Closed(after);
            }
            match escape_at(bytes) {
                Some(unit) => StringStep::Unit(unit, &after[5..]),
                None => byte_step(*first, after),
            }
        }
    }
}

#[tactic(auto, unfolding(crate::specs::Strings::byte_step))]
fn byte_step(first: u8, after: &[u8]) -> StringStep<'_>
    ensures step { step_view result ≡ byte_step first after.now }
    ensures shorter { IsShorter (length after.now + 1) (step_view result) }
{
    if first == b'\\' {
        backslash_step(after)
    } else if is_plain(first) {
        StringStep::Unit(first as u16, after)
    } else {
        StringStep::Broken
    }
}

/// The quote or backslash after a backslash.
#[tactic(auto, unfolding(crate::specs::Strings::backslash_step))]
fn backslash_step(bytes: &[u8]) -> StringStep<'_>
    ensures step { step_view result ≡ backslash_step bytes.now }
    ensures shorter { IsShorter (length bytes.now + 1) (step_view result) }
{
    match bytes {
        [] => StringStep::Broken,
        [first, after @ ..] => {
            if *first == b'"' || *first == b'\\' {
                StringStep::Unit(*first as u16, after)
            } else {
                StringStep::Broken
            }
        }
    }
}

/// The bytes after the quote that closes the string.
#[tactic(auto, using(crate::proofs::UnitLaws::string_closed, crate::proofs::UnitLaws::string_broken, crate::proofs::UnitLaws::quote_after_unit))]
pub(crate) fn after_string(bytes: &[u8]) -> Option<&[u8]>
    ensures closed { option_map (λ x. x.now) result ≡ option_map (λ x. x.1) (string_units 0 bytes.now) }
    ensures within { IfSome result (λ x. length x.now ≤ length bytes.now) }
{
    let mut rest = bytes;
    loop {
        match string_step(rest) {
            StringStep::Closed(after) => return Some(after),
            StringStep::Unit(_, after) => rest = after,
            StringStep::Broken => return None,
        }
    }
}
