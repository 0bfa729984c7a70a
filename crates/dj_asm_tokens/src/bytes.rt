ghost use Rattle.std.specs.Prelude.{◌≡◌, ◌≤◌, ◌∷◌, [], true, false, length, MatchOption, IfSome};
ghost use Rattle.std.specs.Char.{digit_value, is_digit};
ghost use Rattle.std.specs.List.{list_all};
ghost use Rattle.std.specs.Str.Parse.{digits_value};
ghost use Rattle.dj_asm_tokens.specs.trusted.Words.{is_blank, is_plain, begins_escape, escaped_unit};

/// Whether a byte is a space or a tab.
pub(crate) fn is_blank(byte: u8) -> bool
    ensures { result ≡ is_blank byte }
{
    byte == b' ' || byte == b'\t'
}

/// Whether a byte is a space, or a printing one of ASCII.
pub(crate) fn is_plain(byte: u8) -> bool
    ensures { result ≡ is_plain byte }
{
    32 <= byte && byte <= 126
}

/// The value of a digit or a letter, from 0 for `0` to 35 for `Z` and `z`, and 36 for any other unit.
pub(crate) fn digit_value(unit: u16) -> u16
    ensures { result ≡ digit_value unit }
{
    match unit {
        48..=57 => unit - 48,
        65..=90 => unit - 55,
        97..=122 => unit - 87,
        _ => 36,
    }
}

/// The unit of the escape that comes first, where one does.
pub(crate) fn escape_at(bytes: &[u8]) -> Option<u16>
    ensures unit { MatchOption result (begins_escape bytes.now ≡ false) (λ u. (begins_escape bytes.now ≡ true) × (u ≡ escaped_unit bytes.now)) }
    ensures long { IfSome result (λ u. 6 ≤ length bytes.now) }
{
    match bytes {
        [b'\\', b'u', a, b, c, d, ..] => four_digits(*a, *b, *c, *d),
        _ => None,
    }
}

/// The unit that four hexadecimal digits write.
fn four_digits(a: u8, b: u8, c: u8, d: u8) -> Option<u16>
    ensures { let digits = a ∷ b ∷ c ∷ d ∷ [] in
        let good = list_all (λ x. is_digit x 16) digits in
        MatchOption result (good ≡ false) (λ u. (good ≡ true) × (u ≡ digits_value 16 digits)) }
{
    let a = digit_value(a as u16);
    let b = digit_value(b as u16);
    let c = digit_value(c as u16);
    let d = digit_value(d as u16);
    if a < 16 && b < 16 && c < 16 && d < 16 {
        Some(((a * 16 + b) * 16 + c) * 16 + d)
    } else {
        None
    }
}
