ghost use Rattle.std.specs.Prelude.{◌≡◌, ◌≢◌, ◌∷◌, false, pos, neg_ℤ, slice_index, MatchOption};
ghost use Rattle.dj_asm_tokens.specs.trusted.Words.{word_units};
ghost use Rattle.dj_asm_tokens.specs.WordReading.{number_in};
ghost use Rattle.dj_asm_tokens.specs.Numbers.{flags_in, flags_from, digits_from, number_within, within};
ghost use Rattle.dj_asm_tokens.specs.NumberViews.{number_view};

use crate::bytes::digit_value;
use crate::unit::unit_at;

/// What a word is as a number in a field.
#[derive(Clone, Copy)]
pub enum Number {
    /// The number that it writes.
    Value(i64),
    /// A number outside the field.
    Outside,
    /// It writes no number.
    NoNumber,
}

/// The flags that a word writes, by one to four hexadecimal digits.
#[tactic(auto, using(crate::proofs::DigitLaws::flags_are))]
pub fn flags_of(bytes: &[u8]) -> Option<u16>
    ensures { result ≡ flags_in (word_units 0 bytes.now) }
{
    flags_read(bytes)
}

#[tactic(auto, unfolding(crate::specs::Numbers::flags_from))]
fn flags_read(bytes: &[u8]) -> Option<u16>
    ensures { result ≡ flags_from 0 0 (word_units 0 bytes.now) }
{
    let mut count: u16 = 0;
    let mut flags: u16 = 0;
    let mut rest = bytes;
    while let Some((unit, after)) = unit_at(rest) {
        let digit = digit_value(unit);
        if 4 <= count || 16 <= digit {
            return None;
        }
        flags = flags * 16 + digit;
        count += 1;
        rest = after;
    }
    if count == 0 { None } else { Some(flags) }
}

/// The number of a field from `low` to `high` that a word writes, by decimal digits and a minus or none.
#[tactic(auto, using(crate::proofs::DigitLaws::minus_read, crate::proofs::DigitLaws::minus_none, crate::proofs::DigitLaws::plain_read, crate::proofs::DigitLaws::plain_none))]
pub fn number_of(bytes: &[u8], low: i64, high: i64) -> Number
    ensures { number_view result ≡ number_within low high (number_in (word_units 0 bytes.now)) }
{
    match after_minus(bytes) {
        Some(after) => match size_of(after) {
            Some(size) => minus(size, low, high),
            None => Number::NoNumber,
        },
        None => match size_of(bytes) {
            Some(size) => plain(size, low, high),
            None => Number::NoNumber,
        },
    }
}

/// The bytes after a minus, where they begin with one.
fn after_minus(bytes: &[u8]) -> Option<&[u8]>
    ensures { MatchOption result (slice_index (word_units 0 bytes.now) 0 ≢ 45) (λ x. word_units 0 bytes.now ≡ 45 ∷ word_units 0 x.now) }
{
    match unit_at(bytes) {
        Some((unit, after)) => { if unit == 45 { Some(after) } else { None } }
        None => None,
    }
}

/// The number that decimal digits write, or the largest of its type where that is less.
#[tactic(auto, unfolding(crate::specs::Numbers::digits_from))]
fn size_of(bytes: &[u8]) -> Option<u64>
    ensures { result ≡ digits_from false 0 (word_units 0 bytes.now) }
{
    let mut some = false;
    let mut size: u64 = 0;
    let mut rest = bytes;
    while let Some((unit, after)) = unit_at(rest) {
        let digit = digit_value(unit);
        if 10 <= digit {
            return None;
        }
        some = true;
        size = size.saturating_mul(10).saturating_add(digit as u64);
        rest = after;
    }
    if some { Some(size) } else { None }
}

/// A number of this size, in a field.
fn plain(size: u64, low: i64, high: i64) -> Number
    ensures { number_view result ≡ within low high (pos size) }
{
    if size < 1 << 63 {
        in_field(size as i64, low, high)
    } else {
        Number::Outside
    }
}

/// The number of this size below 0, in a field.
fn minus(size: u64, low: i64, high: i64) -> Number
    ensures { number_view result ≡ within low high (neg_ℤ (pos size)) }
{
    if size < 1 << 63 {
        in_field(-(size as i64), low, high)
    } else if size == 1 << 63 {
        in_field(i64::MIN, low, high)
    } else {
        Number::Outside
    }
}

fn in_field(number: i64, low: i64, high: i64) -> Number
    ensures { number_view result ≡ within low high number }
{
    if low <= number && number <= high {
        Number::Value(number)
    } else {
        Number::Outside
    }
}
