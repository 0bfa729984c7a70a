ghost use Rattle.std.specs.Prelude.{◌≡◌, true, false, map, length, take, drop, bytes_eq, MatchOption};
ghost use Rattle.dj_asm_tokens.specs.trusted.Words.{word_units};
ghost use Rattle.dj_asm_tokens.specs.WordReading.{row_of};
ghost use Rattle.dj_asm_tokens.specs.Tables.{row_view};

use crate::unit::unit_at;

/// Whether a word's units are those of a text.
pub fn spells(bytes: &[u8], text: &[u8]) -> bool
    ensures { result ≡ bytes_eq text.now (word_units 0 bytes.now) }
{
    let mut rest = bytes;
    let mut left = text;
    while let [first, more @ ..] = left {
        match unit_at(rest) {
            Some((unit, after)) => {
                if unit != *first as u16 {
                    return false;
                }
                rest = after;
                left = more;
            }
            None => return false,
        }
    }
    match unit_at(rest) {
        Some(_) => false,
        None => true,
    }
}

/// How many units a word has.
pub(crate) fn unit_count(bytes: &[u8]) -> usize
    ensures { result ≡ length (word_units 0 bytes.now) }
{
    let mut count = 0;
    let mut rest = bytes;
    while let Some((_, after)) = unit_at(rest) {
        count += 1;
        rest = after;
    }
    count
}

/// What a table has at a word.
pub fn row_at<K: Copy>(rows: &[(&'static [u8], K)], bytes: &[u8]) -> Option<K>
    ensures { result ≡ row_of (map row_view rows.now) (word_units 0 bytes.now) }
{
    for row in rows {
        if spells(bytes, row.0) {
            return Some(row.1);
        }
    }
    None
}

/// The bytes of a word after a text.
pub fn after_prefix<'t>(bytes: &'t [u8], text: &[u8]) -> Option<&'t [u8]>
    ensures { MatchOption result (bytes_eq (take (length text.now) (word_units 0 bytes.now)) text.now ≡ false)
        (λ x. (bytes_eq (take (length text.now) (word_units 0 bytes.now)) text.now ≡ true)
        × (word_units 0 x.now ≡ drop (length text.now) (word_units 0 bytes.now))) }
{
    let mut rest = bytes;
    let mut left = text;
    while let [first, more @ ..] = left {
        match unit_at(rest) {
            Some((unit, after)) => {
                if unit != *first as u16 {
                    return None;
                }
                rest = after;
                left = more;
            }
            None => return None,
        }
    }
    Some(rest)
}
