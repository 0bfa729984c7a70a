ghost use Rattle.std.specs.Prelude.{◌≡◌, ◌≤◌, ◌<◌, ℕ, List, length, option_map, IsTrue, IfSome};
ghost use Rattle.dj_names.specs.trusted.UnitReading.{unit_read, long_read, two_read, three_read, is_tail};

/// The first unit, and the bytes after its spelling.
#[inline]
#[tactic(auto, unfolding(crate::specs::trusted::UnitReading::unit_read))]
pub fn unit_at(bytes: &[u8]) -> Option<(u16, &[u8])>
    ensures reads { option_map (λ x. (x.0, x.1.now)) result ≡ unit_read bytes.now }
    ensures shorter { IfSome result (λ x. length x.1.now < length bytes.now) }
{
    match bytes {
        [] => None,
        [first, after @ ..] => {
            if 1 <= *first && *first < 128 {
                Some((*first as u16, after))
            } else {
                long_unit(*first, after)
            }
        }
    }
}

#[tactic(auto, unfolding(crate::specs::trusted::UnitReading::long_read))]
fn long_unit(first: u8, bytes: &[u8]) -> Option<(u16, &[u8])>
    ensures reads { option_map (λ x. (x.0, x.1.now)) result ≡ long_read first bytes.now }
    ensures shorter { IfSome result (λ x. length x.1.now ≤ length bytes.now) }
{
    match bytes {
        [] => None,
        [second, after @ ..] => {
            if !tails(*second) || first < 192 {
                return None;
            }
            if first < 224 {
                two_bytes(first, *second, after)
            } else {
                three_bytes(first, *second, after)
            }
        }
    }
}

/// Whether a byte may be a spelling's second or third.
fn tails(byte: u8) -> bool
    ensures { result ≡ is_tail byte }
{
    128 <= byte && byte < 192
}

#[tactic(auto, unfolding(crate::specs::trusted::UnitReading::two_read))]
fn two_bytes(first: u8, second: u8, after: &[u8]) -> Option<(u16, &[u8])>
    requires first { 192 ≤ first }
    requires second { IsTrue (is_tail second) }
    ensures reads { option_map (λ x. (x.0, x.1.now)) result ≡ two_read first second after.now }
    ensures shorter { IfSome result (λ x. length x.1.now ≤ length after.now) }
{
    let unit = (first as u16 - 192) * 64 + (second as u16 - 128);
    if unit == 0 || 128 <= unit {
        Some((unit, after))
    } else {
        None
    }
}

#[tactic(auto, unfolding(crate::specs::trusted::UnitReading::three_read))]
fn three_bytes(first: u8, second: u8, bytes: &[u8]) -> Option<(u16, &[u8])>
    requires first { 224 ≤ first }
    requires second { IsTrue (is_tail second) }
    ensures reads { option_map (λ x. (x.0, x.1.now)) result ≡ three_read first second bytes.now }
    ensures shorter { IfSome result (λ x. length x.1.now ≤ length bytes.now) }
{
    match bytes {
        [] => None,
        [third, after @ ..] => {
            if !tails(*third) || 240 <= first {
                return None;
            }
            let unit = (first as u16 - 224) * 4096
                + (second as u16 - 128) * 64
                + (*third as u16 - 128);
            if 2048 <= unit {
                Some((unit, after))
            } else {
                None
            }
        }
    }
}
