ghost use Rattle.std.specs.Prelude.{◌≡◌, IfOk};
ghost use Rattle.dj_member_index.specs.DirectoryRows.{number_in, AreDifferent, IsNumbered};

use std::alloc::AllocError;
use std::collections::BTreeMap;

/// The number of a text, if it has one.
pub fn number_in(numbers: &BTreeMap<&[u8], u32>, text: &[u8]) -> Option<u32>
    ensures { result ≡ number_in numbers.now text.now }
{
    numbers.get(text).copied()
}

/// The number of a text: the one that it has, or else the least that none has, which it gets.
pub fn number_text<'a>(
    numbers: &mut BTreeMap<&'a [u8], u32>,
    text: &'a [u8],
) -> Result<u32, AllocError>
    requires { AreDifferent numbers.old }
    ensures { IfOk result (IsNumbered numbers.old numbers.new text.now) }
{
    if let Some(number) = number_in(numbers, text) {
        return Ok(number);
    }
    let Ok(number) = u32::try_from(numbers.len()) else {
        return Err(AllocError);
    };
    numbers.insert(text, number)?;
    Ok(number)
}
