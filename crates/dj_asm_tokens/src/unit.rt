ghost use Rattle.std.specs.Prelude.{◌≡◌, ◌≤◌, ◌<◌, ◌∷◌, [], None, length, MatchOption, IfSome};
ghost use Rattle.dj_asm_tokens.specs.trusted.Words.{word_units};

use crate::bytes::escape_at;

/// The first unit of a word's bytes, and the bytes after it.
#[tactic(auto, unfolding(crate::specs::trusted::Words::word_units), using(crate::proofs::UnitLaws::word_steps))]
pub fn unit_at(bytes: &[u8]) -> Option<(u16, &[u8])>
    ensures units { MatchOption result (word_units 0 bytes.now ≡ []) (λ x. word_units 0 bytes.now ≡ x.0 ∷ word_units 0 x.1.now) }
    ensures shorter { IfSome result (λ x. length x.1.now < length bytes.now) }
{
    match bytes {
        [] => None,
        [first, after @ ..] => match escape_at(bytes) {
            Some(unit) => Some((unit, &after[5..])),
            None => Some((*first as u16, after)),
        },
    }
}
