ghost use Rattle.std.specs.Prelude.{◌≡◌, ℕ, ◌+◌, ◌-◌, ◌*◌, ◌<◌, ◌≤◌, ◌^◌, true, length, nat_eq, if◌then◌else◌};
ghost use Rattle.dj_resolution.specs.Bits.{IsHighest, IsHighestIn, in_bits, in_both};

/// Whether the number is among those of the bits.
pub fn has_bit(words: &[u64], number: u32) -> bool
    requires { number < length words.now * 64 }
    ensures { result ≡ in_bits words.now number }
{
    words[number as usize / 64] >> (number % 64) & 1 == 1
}

/// The same, where there may be fewer bits: a number past them isn't among them.
pub fn may_have_bit(words: &[u64], number: u32) -> bool
    ensures { result ≡ in_bits words.now number }
{
    if number as usize / 64 < words.len() {
        has_bit(words, number)
    } else {
        false
    }
}

/// The number is among those of the bits from now on.
pub fn put_bit(words: &mut [u64], number: u32)
    requires { number < length words.old * 64 }
    ensures bits { (z : ℕ) → in_bits words.new z ≡ (if nat_eq number z then true else in_bits words.old z) }
    ensures count { length words.new ≡ length words.old }
{
    words[number as usize / 64] |= 1 << (number % 64);
}

/// Whether the numbers of the others are among those of the bits.
pub fn has_bits(words: &[u64], others: &[u64]) -> bool
    requires { length others.now ≤ length words.now }
    ensures { result ≡ true → (z : ℕ) → in_bits others.now z ≡ true → in_bits words.now z ≡ true }
{
    for (at, other) in others.iter().enumerate() {
        if words[at] & *other != *other {
            return false;
        }
    }
    true
}

// Whether the number is among those of both.
fn is_in_both(words: &[u64], others: &[u64], number: u32) -> bool
    ensures { result ≡ in_both words.now others.now number }
{
    may_have_bit(words, number) && may_have_bit(others, number)
}

// A number that stands in the word of this place, counted from its highest.
fn number_at(at: usize, back: u32) -> u32
    requires few { at < 2 ^ 26 }
    requires back { back < 64 }
    ensures { result ≡ at * 64 + (63 - back) }
{
    at as u32 * 64 + (63 - back)
}

// The highest number that stands in the word of this place and is among those of both.
fn common_in(words: &[u64], others: &[u64], at: usize) -> Option<u32>
    requires few { length words.now ≤ 2 ^ 26 }
    requires words { at < length words.now }
    ensures { IsHighestIn words.now others.now at result }
{
    if at >= others.len() {
        return None;
    }
    if words[at] & others[at] == 0 {
        return None;
    }
    for back in 0..64 {
        let number = number_at(at, back);
        if is_in_both(words, others, number) {
            return Some(number);
        }
    }
    None
}

/// The highest number that is among those of both.
pub fn highest_common(words: &[u64], others: &[u64]) -> Option<u32>
    requires { length words.now ≤ 2 ^ 26 }
    ensures { IsHighest words.now others.now result }
{
    let count = words.len();
    for back in 0..count {
        if let Some(number) = common_in(words, others, count - 1 - back) {
            return Some(number);
        }
    }
    None
}
