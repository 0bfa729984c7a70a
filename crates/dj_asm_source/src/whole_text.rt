//! A whole text is read.
ghost use Rattle.std.specs.Prelude.{◌+◌, ◌^◌, ◌<◌, ◌≤◌, length, List, ℕ, IfOk, IfErr};
ghost use Rattle.dj_asm_source.specs.SourceLines.{AreLinesOf, IsFirstFault};
ghost use Rattle.dj_asm_source.specs.Readings.{IsReading, AreAllRead, IsReadFault, GoesOn};

use crate::error::AsmError;
use crate::source_lines::SourceLines;
use crate::unread::{Row, Unread};
use dj_asm_tokens::{LineTokens, line_at};
use std::alloc::Global;

/// The lines of a text.
///
/// # Errors
///
/// The first fault of the text's words, else of its labels.
#[tactic(auto, using(crate::proofs::ReadingLaws::lines_of_source, crate::proofs::ReadingLaws::few_lines, crate::proofs::ReadingLaws::read_fault, crate::proofs::ReadingLaws::label_fault))]
pub fn read_source<'t>(alloc: Global, text: &'t [u8]) -> Result<SourceLines<'t>, AsmError>
    requires { length text.now ≤ 4294967294 }
    ensures read { IfOk result (AreLinesOf text.now) }
    ensures few { IfOk result (λ read. length read.lines < 2 ^ 32) }
    ensures refused { IfErr result (IsFirstFault text.now) }
{
    let read = all_lines(alloc, text)?;
    match read.label_fault(alloc)? {
        Some(fault) => Err(fault),
        None => Ok(read),
    }
}

/// The lines of a text, whatever labels they use.
fn all_lines<'t>(alloc: Global, text: &'t [u8]) -> Result<SourceLines<'t>, AsmError>
    requires { length text.now ≤ 4294967294 }
    ensures read { IfOk result (AreAllRead text.now) }
    ensures refused { IfErr result (IsReadFault text.now) }
{
    let mut read = SourceLines::with_room(alloc, lines_with_words(text))?;
    let mut unread = Unread::new(text);
    while put_row(alloc, &mut unread, &mut read)? {}
    Ok(read)
}

/// Appends what the next line means. Whether there may be more lines.
#[tactic(auto, using(crate::proofs::ReadingLaws::goes_on_said, crate::proofs::ReadingLaws::goes_on_blank, crate::proofs::ReadingLaws::ends, crate::proofs::ReadingLaws::stops))]
fn put_row<'t>(
    alloc: Global,
    unread: &mut Unread<'t>,
    read: &mut SourceLines<'t>,
) -> Result<bool, AsmError>
    ensures { (text : List ℕ) → IsReading text read.old unread.old → GoesOn text read.new unread.old unread.new result }
{
    match unread.row(alloc)? {
        Row::Said(number, line) => {
            read.push(number, line)?;
            Ok(true)
        }
        Row::Blank => Ok(true),
        Row::End => Ok(false),
    }
}

/// How many lines of a text have words.
fn lines_with_words(text: &[u8]) -> usize
    requires { length text.now ≤ 4294967294 }
    ensures { result ≤ length text.now }
{
    let mut count = 0;
    let mut rest = text;
    while let Some((bytes, after)) = line_at(rest) {
        if LineTokens::first(1, bytes).is_some() {
            count += 1;
        }
        rest = after;
    }
    count
}
