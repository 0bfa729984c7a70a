ghost use Rattle.std.specs.Prelude.{◌≡◌, ◌<◌, ◌≤◌, ◌∷◌, [], length, drop, option_map};
ghost use Rattle.dj_asm_tokens.specs.trusted.Words.{word_units};
ghost use Rattle.dj_asm_tokens.specs.WordReading.{label_in};
ghost use Rattle.dj_asm_tokens.specs.Colons.{ends_colon};

use crate::bytes::escape_at;

/// The bytes of the label that a word defines: those before the colon that ends it.
#[tactic(auto, using(crate::proofs::LabelWords::ends_after, crate::proofs::LabelWords::no_units))]
pub fn label_of(bytes: &[u8]) -> Option<&[u8]>
    ensures { option_map (λ x. word_units 0 x.now) result ≡ label_in (word_units 0 bytes.now) }
{
    let mut at = 0;
    while at < bytes.len() {
        let (unit, size) = first_unit(&bytes[at..]);
        if at + size == bytes.len() {
            return before_colon(bytes, at, unit);
        }
        at += size;
    }
    None
}

/// What comes before the last unit, where that is a colon and not alone.
#[tactic(auto, using(crate::proofs::LabelWords::no_colon, crate::proofs::LabelWords::colon_alone, crate::proofs::LabelWords::label_before))]
fn before_colon(bytes: &[u8], at: usize, unit: u16) -> Option<&[u8]>
    requires within { at < length bytes.now }
    requires last { word_units 0 (drop at bytes.now) ≡ unit ∷ [] }
    requires ends { ends_colon (word_units 0 (drop at bytes.now)) ≡ ends_colon (word_units 0 bytes.now) }
    ensures { option_map (λ x. word_units 0 x.now) result ≡ label_in (word_units 0 bytes.now) }
{
    if unit != 58 {
        return None;
    }
    if at == 0 {
        return None;
    }
    Some(&bytes[..at])
}

/// The first unit of a word's bytes, and how many bytes it takes.
#[tactic(auto, unfolding(crate::specs::trusted::Words::word_units), using(crate::proofs::UnitLaws::word_steps))]
fn first_unit(bytes: &[u8]) -> (u16, usize)
    requires { 0 < length bytes.now }
    ensures unit { word_units 0 bytes.now ≡ result.0 ∷ word_units 0 (drop result.1 bytes.now) }
    ensures some { 0 < result.1 }
    ensures within { result.1 ≤ length bytes.now }
{
    match escape_at(bytes) {
        Some(unit) => (unit, 6),
        None => (bytes[0] as u16, 1),
    }
}
