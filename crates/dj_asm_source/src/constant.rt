ghost use Rattle.std.specs.Prelude.{◌≡◌, ◌∷◌, [], codes};
ghost use Rattle.std.specs.Option.{option_map};
ghost use Rattle.dj_asm_tokens.specs.trusted.Words.{word_units};
ghost use Rattle.dj_asm_tokens.specs.WordReading.{row_of};
ghost use Rattle.dj_asm_source.specs.LineReading.{value, value_after, literal, literal_after, IntWord, LongWord, StringWord, IntLiteralWord, StringLiteralWord, ClassLiteralWord};
ghost use Rattle.dj_asm_tokens.specs.Views.{left_of};
ghost use Rattle.dj_asm_source.specs.StartViews.{value_word_view, literal_word_view};
ghost use Rattle.dj_asm_source.specs.TypeViews.{value_view, literal_view};
ghost use Rattle.dj_asm_source.specs.Stops.{GivesRead};

use crate::fields::{number_i32, number_i64};
use crate::reader::{Stop, line_end, name, string, word_at};
use crate::syntax::{Literal, Value};
use dj_asm_tokens::{LineTokens, NameKind, Token, spells};
use std::alloc::Global;

/// The word before a field's constant.
#[derive(Clone, Copy)]
pub(crate) enum ValueWord {
    Int,
    Long,
    String,
}

fn value_word(bytes: &[u8]) -> Option<ValueWord>
    ensures { option_map value_word_view result ≡ row_of ((codes "int", IntWord) ∷ (codes "long", LongWord) ∷ (codes "string", StringWord) ∷ []) (word_units 0 bytes.now) }
{
    if spells(bytes, b"int") {
        Some(ValueWord::Int)
    } else if spells(bytes, b"long") {
        Some(ValueWord::Long)
    } else if spells(bytes, b"string") {
        Some(ValueWord::String)
    } else {
        None
    }
}

/// The constant of a field, where the line has one, and the line's end.
pub(crate) fn value<'t>(at: LineTokens<'t>) -> Result<(Option<Value<'t>>, LineTokens<'t>), Stop>
    ensures { GivesRead (λ x. option_map value_view x.0) (λ x. left_of x.1) result (value (left_of at.entry)) }
{
    match at.next() {
        None => Err(Stop::Missing),
        Some((placed, rest)) => match placed.token {
            Token::LineEnd => Ok((None, rest)),
            Token::Word(word) => match value_word(word.bytes) {
                Some(start) => value_after(start, rest),
                None => Err(Stop::Wrong {
                    line: placed.line,
                    column: placed.column,
                }),
            },
            Token::Quoted(_) | Token::Bad => Err(Stop::Wrong {
                line: placed.line,
                column: placed.column,
            }),
        },
    }
}

/// The constant after its word.
fn value_after<'t>(
    start: ValueWord,
    at: LineTokens<'t>,
) -> Result<(Option<Value<'t>>, LineTokens<'t>), Stop>
    ensures { GivesRead (λ x. option_map value_view x.0) (λ x. left_of x.1) result (value_after (value_word_view start) (left_of at.entry)) }
{
    match start {
        ValueWord::Int => {
            let (number, at) = number_i32(at)?;
            let at = line_end(at)?;
            Ok((Some(Value::Int(number)), at))
        }
        ValueWord::Long => {
            let (number, at) = number_i64(at)?;
            let at = line_end(at)?;
            Ok((Some(Value::Long(number)), at))
        }
        ValueWord::String => {
            let (text, at) = string(at)?;
            let at = line_end(at)?;
            Ok((Some(Value::String(text)), at))
        }
    }
}

/// The word before what ldc pushes.
#[derive(Clone, Copy)]
pub(crate) enum LiteralWord {
    Int,
    String,
    Class,
}

fn literal_word(bytes: &[u8]) -> Option<LiteralWord>
    ensures { option_map literal_word_view result ≡ row_of ((codes "int", IntLiteralWord) ∷ (codes "string", StringLiteralWord) ∷ (codes "class", ClassLiteralWord) ∷ []) (word_units 0 bytes.now) }
{
    if spells(bytes, b"int") {
        Some(LiteralWord::Int)
    } else if spells(bytes, b"string") {
        Some(LiteralWord::String)
    } else if spells(bytes, b"class") {
        Some(LiteralWord::Class)
    } else {
        None
    }
}

/// What ldc pushes, and the line's end.
pub(crate) fn literal<'t>(
    alloc: Global,
    at: LineTokens<'t>,
) -> Result<(Literal<'t>, LineTokens<'t>), Stop>
    ensures { GivesRead (λ x. literal_view x.0) (λ x. left_of x.1) result (literal (left_of at.entry)) }
{
    let spot = word_at(at)?;
    match literal_word(spot.word.bytes) {
        Some(start) => literal_after(alloc, start, spot.rest),
        None => Err(Stop::Wrong {
            line: spot.line,
            column: spot.column,
        }),
    }
}

/// What ldc pushes, after its word.
fn literal_after<'t>(
    alloc: Global,
    start: LiteralWord,
    at: LineTokens<'t>,
) -> Result<(Literal<'t>, LineTokens<'t>), Stop>
    ensures { GivesRead (λ x. literal_view x.0) (λ x. left_of x.1) result (literal_after (literal_word_view start) (left_of at.entry)) }
{
    match start {
        LiteralWord::Int => {
            let (number, at) = number_i32(at)?;
            let at = line_end(at)?;
            Ok((Literal::Int(number), at))
        }
        LiteralWord::String => {
            let (text, at) = string(at)?;
            let at = line_end(at)?;
            Ok((Literal::String(text), at))
        }
        LiteralWord::Class => {
            let (name, at) = name(alloc, at, NameKind::ClassOrArray)?;
            let at = line_end(at)?;
            Ok((Literal::Class(name), at))
        }
    }
}
