ghost use Rattle.std.specs.Prelude.{◌≡◌, ◌++◌, true, false, MatchOption, IfOk, codes};
ghost use Rattle.std.specs.Option.{option_map};
ghost use Rattle.dj_names.specs.trusted.ModifiedUtf8.{units_text};
ghost use Rattle.dj_asm_tokens.specs.trusted.Words.{word_units};
ghost use Rattle.dj_asm_source.specs.trusted.Lines.{Object, New};
ghost use Rattle.dj_asm_tokens.specs.WordReading.{tested, class_text_test, is_some_label};
ghost use Rattle.dj_asm_source.specs.Reading.{is_simple_type, type_in};
ghost use Rattle.dj_asm_source.specs.LineReading.{frame_type, caught};
ghost use Rattle.dj_asm_tokens.specs.Views.{left_of};
ghost use Rattle.dj_asm_tokens.specs.Texts.{text_view};
ghost use Rattle.dj_asm_source.specs.TypeViews.{simple_word, type_view};
ghost use Rattle.dj_asm_source.specs.Stops.{GivesRead};

use crate::reader::{Stop, word_at};
use crate::syntax::{FrameType, SimpleType};
use dj_asm_tokens::{
    LineTokens, NameKind, Text, Word, after_prefix, is_of_kind, row_at, spells, text_of, unit_at,
};
use std::alloc::{AllocError, Global};

static SIMPLE_TYPES: [(&'static [u8], SimpleType); 7] = [
    (b"top", SimpleType::Top),
    (b"int", SimpleType::Int),
    (b"float", SimpleType::Float),
    (b"double", SimpleType::Double),
    (b"long", SimpleType::Long),
    (b"null", SimpleType::Null),
    (b"this", SimpleType::This),
];

/// The type that a word alone names.
fn simple_type(bytes: &[u8]) -> Option<SimpleType>
    ensures { MatchOption result (is_simple_type (word_units 0 bytes.now) ≡ false)
        (λ ty. (is_simple_type (word_units 0 bytes.now) ≡ true) × (word_units 0 bytes.now ≡ simple_word ty)) }
{
    row_at(&SIMPLE_TYPES, bytes)
}

/// The type that a word names.
fn type_of(alloc: Global, bytes: &[u8]) -> Result<Option<FrameType<'_>>, AllocError>
    ensures { IfOk result (λ ty. option_map type_view ty ≡ type_in (word_units 0 bytes.now)) }
{
    if let Some(simple) = simple_type(bytes) {
        return Ok(Some(FrameType::Simple(simple)));
    }
    if let Some(rest) = after_prefix(bytes, b"ref:") {
        return object_type(alloc, rest);
    }
    match after_prefix(bytes, b"new:") {
        Some(rest) => Ok(new_type(rest)),
        None => Ok(None),
    }
}

/// The type after `ref:`.
fn object_type(alloc: Global, bytes: &[u8]) -> Result<Option<FrameType<'_>>, AllocError>
    ensures { IfOk result (λ ty. option_map type_view ty ≡ option_map (λ name. Object name) (tested class_text_test (units_text (word_units 0 bytes.now)))) }
{
    let name = text_of(alloc, bytes)?;
    if is_of_kind(NameKind::ClassOrArray, name.as_slice()) {
        Ok(Some(FrameType::Object(name)))
    } else {
        Ok(None)
    }
}

/// The type after `new:`.
fn new_type(bytes: &[u8]) -> Option<FrameType<'_>>
    ensures { option_map type_view result ≡ option_map (λ label. New label) (tested is_some_label (word_units 0 bytes.now)) }
{
    match unit_at(bytes) {
        Some(_) => Some(FrameType::New(Word { bytes })),
        None => None,
    }
}

/// A type of a frame.
pub(crate) fn frame_type<'t>(
    alloc: Global,
    at: LineTokens<'t>,
) -> Result<(FrameType<'t>, LineTokens<'t>), Stop>
    ensures { GivesRead (λ x. type_view x.0) (λ x. left_of x.1) result (frame_type (left_of at.entry)) }
{
    let spot = word_at(at)?;
    match type_of(alloc, spot.word.bytes)? {
        None => Err(Stop::Wrong {
            line: spot.line,
            column: spot.column,
        }),
        Some(ty) => Ok((ty, spot.rest)),
    }
}

/// The class that a handler catches, or none for any.
pub(crate) fn caught<'t>(
    alloc: Global,
    at: LineTokens<'t>,
) -> Result<(Option<Text<'t>>, LineTokens<'t>), Stop>
    ensures { GivesRead (λ x. option_map text_view x.0) (λ x. left_of x.1) result (caught (left_of at.entry)) }
{
    let spot = word_at(at)?;
    if spells(spot.word.bytes, b"any") {
        return Ok((None, spot.rest));
    }
    let name = text_of(alloc, spot.word.bytes)?;
    if is_of_kind(NameKind::ClassOrArray, name.as_slice()) {
        Ok((Some(name), spot.rest))
    } else {
        Err(Stop::Wrong {
            line: spot.line,
            column: spot.column,
        })
    }
}
