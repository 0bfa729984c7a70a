ghost use Rattle.std.specs.Prelude.{◌≡◌, pos};
ghost use Rattle.dj_asm_source.specs.LineReading.{number};
ghost use Rattle.dj_asm_source.specs.Reading.{is_between, is_signed};
ghost use Rattle.dj_asm_source.specs.LineReading.{slot_fits, increment_fits};
ghost use Rattle.dj_asm_tokens.specs.Views.{left_of};
ghost use Rattle.dj_asm_source.specs.Stops.{GivesRead};

use crate::reader::{NumberField, Stop, number};
use dj_asm_tokens::LineTokens;

/// A number of 8 bits without sign.
pub(crate) fn number_u8<'t>(at: LineTokens<'t>) -> Result<(u8, LineTokens<'t>), Stop>
    ensures { GivesRead (λ x. pos x.0) (λ x. left_of x.1) result (number (is_between 0 255) (left_of at.entry)) }
{
    let (value, at) = number(at, NumberField::U8)?;
    Ok((value as u8, at))
}

/// A number of 16 bits without sign.
pub(crate) fn number_u16<'t>(at: LineTokens<'t>) -> Result<(u16, LineTokens<'t>), Stop>
    ensures { GivesRead (λ x. pos x.0) (λ x. left_of x.1) result (number (is_between 0 65535) (left_of at.entry)) }
{
    let (value, at) = number(at, NumberField::U16)?;
    Ok((value as u16, at))
}

/// A number of 8 bits with sign.
pub(crate) fn number_i8<'t>(at: LineTokens<'t>) -> Result<(i8, LineTokens<'t>), Stop>
    ensures { GivesRead (λ x. x.0) (λ x. left_of x.1) result (number (is_signed 7) (left_of at.entry)) }
{
    let (value, at) = number(at, NumberField::I8)?;
    Ok((value as i8, at))
}

/// A number of 16 bits with sign.
pub(crate) fn number_i16<'t>(at: LineTokens<'t>) -> Result<(i16, LineTokens<'t>), Stop>
    ensures { GivesRead (λ x. x.0) (λ x. left_of x.1) result (number (is_signed 15) (left_of at.entry)) }
{
    let (value, at) = number(at, NumberField::I16)?;
    Ok((value as i16, at))
}

/// A number of 32 bits with sign.
pub(crate) fn number_i32<'t>(at: LineTokens<'t>) -> Result<(i32, LineTokens<'t>), Stop>
    ensures { GivesRead (λ x. x.0) (λ x. left_of x.1) result (number (is_signed 31) (left_of at.entry)) }
{
    let (value, at) = number(at, NumberField::I32)?;
    Ok((value as i32, at))
}

/// A number of 64 bits with sign.
pub(crate) fn number_i64<'t>(at: LineTokens<'t>) -> Result<(i64, LineTokens<'t>), Stop>
    ensures { GivesRead (λ x. x.0) (λ x. left_of x.1) result (number (is_signed 63) (left_of at.entry)) }
{
    let (value, at) = number(at, NumberField::I64)?;
    Ok((value, at))
}

/// How many locals a frame chops.
pub(crate) fn chopped<'t>(at: LineTokens<'t>) -> Result<(u8, LineTokens<'t>), Stop>
    ensures { GivesRead (λ x. pos x.0) (λ x. left_of x.1) result (number (is_between 1 3) (left_of at.entry)) }
{
    let (value, at) = number(at, NumberField::Chop)?;
    Ok((value as u8, at))
}

/// A local variable.
pub(crate) fn slot<'t>(at: LineTokens<'t>, wide: bool) -> Result<(u16, LineTokens<'t>), Stop>
    ensures { GivesRead (λ x. pos x.0) (λ x. left_of x.1) result (number (slot_fits wide) (left_of at.entry)) }
{
    if wide {
        number_u16(at)
    } else {
        let (value, at) = number_u8(at)?;
        Ok((value as u16, at))
    }
}

/// By how much a local variable grows.
pub(crate) fn increment<'t>(at: LineTokens<'t>, wide: bool) -> Result<(i16, LineTokens<'t>), Stop>
    ensures { GivesRead (λ x. x.0) (λ x. left_of x.1) result (number (increment_fits wide) (left_of at.entry)) }
{
    if wide {
        number_i16(at)
    } else {
        let (value, at) = number_i8(at)?;
        Ok((value as i16, at))
    }
}
