//! Numbers in words.

ghost use Rattle.std.specs.Prelude.{◌≡◌, ◌≤◌, Some, None, length, if◌then◌else◌};
ghost use Rattle.std.specs.Char.{is_ascii_digit};
ghost use Rattle.std.specs.List.{list_all};
ghost use Rattle.dj_command_line.specs.trusted.Words.{decimal_value, number_between};
ghost use Rattle.dj_command_line.specs.WordsApp.{number_or};
ghost use Rattle.dj_command_line.specs.Views.{text_given};

/// The number that the digits write; none where one of them is no ASCII digit.
fn decimal(digits: &[u8]) -> Option<u64>
    requires few { length digits.now ≤ 10 }
    ensures { result ≡ if list_all is_ascii_digit digits.now then Some (decimal_value digits.now) else None }
{
    let mut value = 0u64;
    for digit in digits {
        if !digit.is_ascii_digit() {
            return None;
        }
        value = value * 10 + u64::from(*digit - b'0');
    }
    Some(value)
}

/// The number that the text writes in one to ten digits, where it is at most `most`.
fn number(text: &str, most: u64) -> Option<u64>
    ensures { result ≡ number_between 0 most text.now }
{
    let digits = text.as_bytes();
    if digits.is_empty() || digits.len() > 10 {
        return None;
    }
    let value = decimal(digits)?;
    if value <= most { Some(value) } else { None }
}

/// The number of an option, or the default where the option isn't given.
pub fn number_or(given: Option<&str>, most: u64, default: u64) -> Option<u64>
    ensures { result ≡ number_or most default (text_given given.entry) }
{
    match given {
        Some(text) => number(text, most),
        None => Some(default),
    }
}
