ghost use Rattle.std.specs.Prelude.{◌≡◌, ◌≤ℤ◌, ⊤, pos, IfOk};
ghost use Rattle.dj_asm_source.specs.Reading.{one, any_size};
ghost use Rattle.dj_asm_source.specs.LineReading.{line_end, flags, number, label, string, keyword, name, base};
ghost use Rattle.dj_asm_tokens.specs.Views.{units_of, string_units_of, left_of};
ghost use Rattle.dj_asm_tokens.specs.Texts.{text_view, test_of};
ghost use Rattle.dj_asm_source.specs.Stops.{GivesRead, IsSpot, field_fits, lowest, highest};

use dj_asm_tokens::{
    LineTokens, NameKind, Number, Placed, Quoted, Text, Token, Word, base_of, flags_of, is_of_kind,
    number_of, spells, text_of,
};
use std::alloc::{AllocError, Global};

/// Why a line is not read.
#[derive(Clone, Copy)]
pub(crate) enum Stop {
    /// The token that begins here isn't allowed here.
    Wrong { line: u32, column: u32 },
    /// The number in this line is outside its field.
    Large { line: u32 },
    /// A token is missing.
    Missing,
    /// There is not enough memory.
    Memory,
}

/// A field of a line that holds a number.
#[derive(Clone, Copy)]
pub(crate) enum NumberField {
    /// A number of 8 bits without sign.
    U8,
    /// A number of 16 bits without sign.
    U16,
    /// A number of 8 bits with sign.
    I8,
    /// A number of 16 bits with sign.
    I16,
    /// A number of 32 bits with sign.
    I32,
    /// A number of 64 bits with sign.
    I64,
    /// How many locals a frame chops.
    Chop,
}

/// A word, and where it is.
#[derive(Clone, Copy)]
pub(crate) struct Spot<'t> {
    pub line: u32,
    pub column: u32,
    pub word: Word<'t>,
    pub rest: LineTokens<'t>,
}

/// The next token, which has to be a word.
pub(crate) fn word_at<'t>(at: LineTokens<'t>) -> Result<Spot<'t>, Stop>
    ensures { IsSpot (left_of at.entry) result }
{
    match at.next() {
        None => Err(Stop::Missing),
        Some((placed, rest)) => match placed.token {
            Token::Word(word) => Ok(Spot {
                line: placed.line,
                column: placed.column,
                word,
                rest,
            }),
            Token::Quoted(_) | Token::Bad | Token::LineEnd => Err(Stop::Wrong {
                line: placed.line,
                column: placed.column,
            }),
        },
    }
}

/// The end of the line.
pub(crate) fn line_end<'t>(at: LineTokens<'t>) -> Result<LineTokens<'t>, Stop>
    ensures { GivesRead (λ x. tt) (λ x. left_of x) result (line_end (left_of at.entry)) }
{
    match at.next() {
        None => Err(Stop::Missing),
        Some((placed, rest)) => match placed.token {
            Token::LineEnd => Ok(rest),
            Token::Word(_) | Token::Quoted(_) | Token::Bad => Err(Stop::Wrong {
                line: placed.line,
                column: placed.column,
            }),
        },
    }
}

/// A string.
pub(crate) fn string<'t>(at: LineTokens<'t>) -> Result<(Quoted<'t>, LineTokens<'t>), Stop>
    ensures { GivesRead (λ x. string_units_of x.0) (λ x. left_of x.1) result (string (left_of at.entry)) }
{
    match at.next() {
        None => Err(Stop::Missing),
        Some((placed, rest)) => match placed.token {
            Token::Quoted(string) => Ok((string, rest)),
            Token::Word(_) | Token::LineEnd | Token::Bad => Err(Stop::Wrong {
                line: placed.line,
                column: placed.column,
            }),
        },
    }
}

/// A label that is named.
pub(crate) fn label<'t>(at: LineTokens<'t>) -> Result<(Word<'t>, LineTokens<'t>), Stop>
    ensures { GivesRead (λ x. units_of x.0) (λ x. left_of x.1) result (label (left_of at.entry)) }
{
    let spot = word_at(at)?;
    Ok((spot.word, spot.rest))
}

/// Access flags.
pub(crate) fn flags<'t>(at: LineTokens<'t>) -> Result<(u16, LineTokens<'t>), Stop>
    ensures { GivesRead (λ x. x.0) (λ x. left_of x.1) result (flags (left_of at.entry)) }
{
    let spot = word_at(at)?;
    match flags_of(spot.word.bytes) {
        Some(flags) => Ok((flags, spot.rest)),
        None => Err(Stop::Wrong {
            line: spot.line,
            column: spot.column,
        }),
    }
}

impl From<AllocError> for Stop {
    ghost use Rattle.dj_asm_source.specs.declared.reader.Stop.TheVariants.{Memory};

    ghost from_gives = { λ _ e. e ≡ Memory };

    fn from(_error: AllocError) -> Stop {
        Stop::Memory
    }
}

/// The least and the greatest number of a field.
fn bounds(field: NumberField) -> (i64, i64)
    ensures low { result.0 ≡ lowest field }
    ensures high { result.1 ≡ highest field }
{
    match field {
        NumberField::U8 => (0, 255),
        NumberField::U16 => (0, 65_535),
        NumberField::I8 => (-128, 127),
        NumberField::I16 => (-32_768, 32_767),
        NumberField::I32 => (-2_147_483_648, 2_147_483_647),
        NumberField::I64 => (i64::MIN, i64::MAX),
        NumberField::Chop => (1, 3),
    }
}

/// A number that its field holds.
pub(crate) fn number<'t>(
    at: LineTokens<'t>,
    field: NumberField,
) -> Result<(i64, LineTokens<'t>), Stop>
    ensures read { GivesRead (λ x. x.0) (λ x. left_of x.1) result (number (field_fits field) (left_of at.entry)) }
    ensures low { IfOk result (λ x. lowest field ≤ℤ x.0) }
    ensures high { IfOk result (λ x. x.0 ≤ℤ highest field) }
{
    let spot = word_at(at)?;
    let (low, high) = bounds(field);
    match number_of(spot.word.bytes, low, high) {
        Number::Value(value) => Ok((value, spot.rest)),
        Number::Outside => Err(Stop::Large { line: spot.line }),
        Number::NoNumber => Err(Stop::Wrong {
            line: spot.line,
            column: spot.column,
        }),
    }
}

/// A name of this kind.
pub(crate) fn name<'t>(
    alloc: Global,
    at: LineTokens<'t>,
    kind: NameKind,
) -> Result<(Text<'t>, LineTokens<'t>), Stop>
    ensures { GivesRead (λ x. text_view x.0) (λ x. left_of x.1) result (name (test_of kind) (left_of at.entry)) }
{
    let spot = word_at(at)?;
    let text = text_of(alloc, spot.word.bytes)?;
    if is_of_kind(kind, text.as_slice()) {
        Ok((text, spot.rest))
    } else {
        Err(Stop::Wrong {
            line: spot.line,
            column: spot.column,
        })
    }
}

/// This word and no other.
pub(crate) fn keyword<'t>(at: LineTokens<'t>, word: &[u8]) -> Result<LineTokens<'t>, Stop>
    ensures { GivesRead (λ x. tt) (λ x. left_of x) result (keyword word.now (left_of at.entry)) }
{
    let spot = word_at(at)?;
    if spells(spot.word.bytes, word) {
        Ok(spot.rest)
    } else {
        Err(Stop::Wrong {
            line: spot.line,
            column: spot.column,
        })
    }
}

/// The type of an array's elements, where that is a base type.
pub(crate) fn base<'t>(at: LineTokens<'t>) -> Result<(u8, LineTokens<'t>), Stop>
    ensures { GivesRead (λ x. x.0) (λ x. left_of x.1) result (base (left_of at.entry)) }
{
    let spot = word_at(at)?;
    match base_of(spot.word.bytes) {
        Some(base) => Ok((base, spot.rest)),
        None => Err(Stop::Wrong {
            line: spot.line,
            column: spot.column,
        }),
    }
}
