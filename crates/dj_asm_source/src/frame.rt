ghost use Rattle.std.specs.Prelude.{◌≡◌, ◌∷◌, ◌++◌, [], codes};
ghost use Rattle.std.specs.Option.{option_map};
ghost use Rattle.dj_asm_tokens.specs.trusted.Words.{word_units};
ghost use Rattle.dj_asm_tokens.specs.WordReading.{row_of};
ghost use Rattle.dj_asm_source.specs.Reading.{read_map};
ghost use Rattle.dj_asm_source.specs.LineReading.{SameWord, StackWord, ChopWord, AppendWord, FullWord, types_up_to, types_until, frame_after, frame};
ghost use Rattle.dj_asm_tokens.specs.Views.{token_view, left_of};
ghost use Rattle.dj_asm_source.specs.LineViews.{frame_view};
ghost use Rattle.dj_asm_source.specs.StartViews.{frame_word_view, ends_types, AfterEnd};
ghost use Rattle.dj_asm_source.specs.Stops.{GivesRead};

use crate::fields::chopped;
use crate::frame_type::frame_type;
use crate::frame_types::FrameTypes;
use crate::reader::{Stop, line_end, word_at};
use crate::syntax::Frame;
use dj_asm_tokens::{LineTokens, Token, spells};
use std::alloc::Global;

/// The word that a frame begins with.
#[derive(Clone, Copy)]
pub(crate) enum FrameWord {
    Same,
    Stack1,
    Chop,
    Append,
    Full,
}

/// What ends a list of types.
#[derive(Clone, Copy)]
pub(crate) enum TypesEnd {
    /// The word `/`.
    Slash,
    /// The end of the line.
    LineEnd,
}

fn frame_word(bytes: &[u8]) -> Option<FrameWord>
    ensures { option_map frame_word_view result ≡ row_of ((codes "same", SameWord) ∷ (codes "stack1", StackWord) ∷ (codes "chop", ChopWord) ∷ (codes "append", AppendWord) ∷ (codes "full", FullWord) ∷ []) (word_units 0 bytes.now) }
{
    if spells(bytes, b"same") {
        Some(FrameWord::Same)
    } else if spells(bytes, b"stack1") {
        Some(FrameWord::Stack1)
    } else if spells(bytes, b"chop") {
        Some(FrameWord::Chop)
    } else if spells(bytes, b"append") {
        Some(FrameWord::Append)
    } else if spells(bytes, b"full") {
        Some(FrameWord::Full)
    } else {
        None
    }
}

/// A frame, and the line's end.
pub(crate) fn frame<'t>(
    alloc: Global,
    at: LineTokens<'t>,
) -> Result<(Frame<'t>, LineTokens<'t>), Stop>
    ensures { GivesRead (λ x. frame_view x.0) (λ x. left_of x.1) result (frame (left_of at.entry)) }
{
    let spot = word_at(at)?;
    match frame_word(spot.word.bytes) {
        Some(start) => frame_after(alloc, start, spot.rest),
        None => Err(Stop::Wrong {
            line: spot.line,
            column: spot.column,
        }),
    }
}

/// A frame after its word.
fn frame_after<'t>(
    alloc: Global,
    start: FrameWord,
    at: LineTokens<'t>,
) -> Result<(Frame<'t>, LineTokens<'t>), Stop>
    ensures { GivesRead (λ x. frame_view x.0) (λ x. left_of x.1) result (frame_after (frame_word_view start) (left_of at.entry)) }
{
    match start {
        FrameWord::Same => {
            let at = line_end(at)?;
            Ok((Frame::Same, at))
        }
        FrameWord::Stack1 => {
            let (ty, at) = frame_type(alloc, at)?;
            let at = line_end(at)?;
            Ok((Frame::Stack1(ty), at))
        }
        FrameWord::Chop => {
            let (count, at) = chopped(at)?;
            let at = line_end(at)?;
            Ok((Frame::Chop(count), at))
        }
        FrameWord::Append => append(alloc, at),
        FrameWord::Full => full(alloc, at),
    }
}

/// One to three types.
fn append<'t>(alloc: Global, at: LineTokens<'t>) -> Result<(Frame<'t>, LineTokens<'t>), Stop>
    ensures { GivesRead (λ x. frame_view x.0) (λ x. left_of x.1) result (frame_after AppendWord (left_of at.entry)) }
{
    let (first, at) = frame_type(alloc, at)?;
    let mut types = FrameTypes::new(alloc);
    types.push(first)?;
    let (types, at) = two_more(alloc, types, at)?;
    Ok((Frame::Append(types), at))
}

/// At most two types more, to the line's end.
#[tactic(auto, using(crate::proofs::TypeLists::up_to_end))]
fn two_more<'t>(
    alloc: Global,
    types: FrameTypes<'t>,
    at: LineTokens<'t>,
) -> Result<(FrameTypes<'t>, LineTokens<'t>), Stop>
    ensures { GivesRead (λ x. x.0) (λ x. left_of x.1) result (read_map (λ more. types.entry ++ more) (types_up_to 2 (left_of at.entry))) }
{
    if let Some(rest) = after_end(TypesEnd::LineEnd, at) {
        return Ok((types, rest));
    }
    let (second, at) = frame_type(alloc, at)?;
    let mut types = types;
    types.push(second)?;
    one_more(alloc, types, at)
}

/// At most one type more, to the line's end.
#[tactic(auto, using(crate::proofs::TypeLists::up_to_end))]
fn one_more<'t>(
    alloc: Global,
    types: FrameTypes<'t>,
    at: LineTokens<'t>,
) -> Result<(FrameTypes<'t>, LineTokens<'t>), Stop>
    ensures { GivesRead (λ x. x.0) (λ x. left_of x.1) result (read_map (λ more. types.entry ++ more) (types_up_to 1 (left_of at.entry))) }
{
    if let Some(rest) = after_end(TypesEnd::LineEnd, at) {
        return Ok((types, rest));
    }
    let (third, at) = frame_type(alloc, at)?;
    let mut types = types;
    types.push(third)?;
    no_more(types, at)
}

/// The line's end, after these types.
#[tactic(auto, unfolding(crate::specs::LineReading::types_up_to), using(crate::proofs::TypeLists::up_to_none, crate::proofs::TypeLists::up_to_none_stop))]
fn no_more<'t>(
    types: FrameTypes<'t>,
    at: LineTokens<'t>,
) -> Result<(FrameTypes<'t>, LineTokens<'t>), Stop>
    ensures { GivesRead (λ x. x.0) (λ x. left_of x.1) result (read_map (λ more. types.entry ++ more) (types_up_to 0 (left_of at.entry))) }
{
    let at = line_end(at)?;
    Ok((types, at))
}

/// The locals and the operands.
fn full<'t>(alloc: Global, at: LineTokens<'t>) -> Result<(Frame<'t>, LineTokens<'t>), Stop>
    ensures { GivesRead (λ x. frame_view x.0) (λ x. left_of x.1) result (frame_after FullWord (left_of at.entry)) }
{
    let (locals, at) = types_until(alloc, TypesEnd::Slash, at)?;
    let (stack, at) = types_until(alloc, TypesEnd::LineEnd, at)?;
    Ok((Frame::Full { locals, stack }, at))
}

/// Types up to what ends them.
#[tactic(auto, using(crate::proofs::TypeLists::until_end, crate::proofs::TypeLists::until_more, crate::proofs::TypeLists::until_stop))]
fn types_until<'t>(
    alloc: Global,
    end: TypesEnd,
    at: LineTokens<'t>,
) -> Result<(FrameTypes<'t>, LineTokens<'t>), Stop>
    ensures { GivesRead (λ x. x.0) (λ x. left_of x.1) result (types_until (ends_types end) (left_of at.entry)) }
{
    let mut types = FrameTypes::new(alloc);
    let mut at = at;
    loop {
        if let Some(rest) = after_end(end, at) {
            return Ok((types, rest));
        }
        let (ty, rest) = frame_type(alloc, at)?;
        types.push(ty)?;
        at = rest;
    }
}

/// The tokens after the one that ends the types, where that comes first.
fn after_end<'t>(end: TypesEnd, at: LineTokens<'t>) -> Option<LineTokens<'t>>
    ensures { AfterEnd (ends_types end) (left_of at.entry) (option_map (λ x. left_of x) result) }
{
    match at.next() {
        None => None,
        Some((placed, rest)) => {
            if ends(end, placed.token) {
                Some(rest)
            } else {
                None
            }
        }
    }
}

/// Whether a token ends the types.
fn ends(end: TypesEnd, token: Token<'_>) -> bool
    ensures { result ≡ ends_types end (token_view token.entry) }
{
    match (end, token) {
        (TypesEnd::Slash, Token::Word(word)) => spells(word.bytes, b"/"),
        (TypesEnd::LineEnd, Token::LineEnd) => true,
        _ => false,
    }
}
