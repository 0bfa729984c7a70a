//! The first line of a source that is too large for a class file for another reason than its entries.
ghost use Rattle.std.specs.Prelude.{◌≡◌, ◌<◌, ◌^◌, ℕ, length, map, IfOk};
ghost use Rattle.dj_asm_source.specs.LineViews.{line_view};
ghost use Rattle.dj_asm_source.specs.LabelReading.{sections_of};
ghost use Rattle.dj_asm_source.specs.trusted.Sources.{Source};
ghost use Rattle.dj_asm.specs.Assembling.{IsJudged, IsFirstBeside};
ghost use Rattle.dj_asm.specs.Judging.{IsFirstOf, earliest, past_table, is_large_in, in_sections, is_judged};

use crate::counted::{Kind, first_past};
use crate::proper::first_alone;
use crate::reach::first_wide_line;
use dj_asm_pool::PoolBuilder;
use dj_asm_source::{Line, section_size};
use std::alloc::{AllocError, Global};

/// The lesser place, where there is one.
fn earliest(first: Option<usize>, second: Option<usize>) -> Option<usize>
    ensures { result ≡ earliest first second }
{
    match (first, second) {
        (Some(a), Some(b)) => Some(if b < a { b } else { a }),
        (Some(a), None) => Some(a),
        (None, second) => second,
    }
}

/// The first line that is an interface, a field or a method too many.
#[tactic(auto, using(crate::proofs::JudgedFirst::earliest_is))]
fn first_past_table(lines: &[Line<'_>]) -> Option<usize>
    ensures { IsFirstOf (past_table (map line_view lines.now)) (length lines.now) result }
{
    let interface = first_past(Kind::Interface, lines);
    let field = first_past(Kind::Field, lines);
    let method = first_past(Kind::Method, lines);
    earliest(interface, earliest(field, method))
}

/// The first line of a section with a range too many, a far jump or the end of long code.
#[tactic(auto, using(crate::proofs::JudgedFirst::earliest_is))]
fn first_large_in(alloc: Global, lines: &[Line<'_>]) -> Result<Option<usize>, AllocError>
    requires { length lines.now < 2 ^ 32 }
    ensures { IfOk result (λ first. IsFirstOf (is_large_in (map line_view lines.now)) (length lines.now) first) }
{
    let range = first_past(Kind::Catch, lines);
    let wide = first_wide_line(alloc, lines)?;
    Ok(earliest(range, wide))
}

/// The first line with a range too many, a far jump or the end of long code.
#[tactic(auto, using(crate::proofs::JudgedSections::none_in_all, crate::proofs::JudgedSections::at_beginning))]
fn first_in_sections(alloc: Global, lines: &[Line<'_>]) -> Result<Option<usize>, AllocError>
    requires { length lines.now < 2 ^ 32 }
    ensures { IfOk result (λ first. IsFirstOf (in_sections (sections_of (map line_view lines.now))) (length lines.now) first) }
{
    let mut before = 0;
    while before < lines.len() {
        let rest = &lines[before..];
        let size = section_size(rest);
        match first_large_in(alloc, &rest[..size])? {
            Some(place) => return Ok(Some(before + place)),
            None => before += size,
        }
    }
    Ok(None)
}

/// The first line that is judged too large.
#[tactic(auto, using(crate::proofs::JudgedFirst::earliest_is))]
fn first_judged(
    alloc: Global,
    lines: &[Line<'_>],
    pool: &PoolBuilder,
) -> Result<Option<usize>, AllocError>
    requires { length lines.now < 2 ^ 32 }
    ensures { IfOk result (λ first. IsFirstOf (is_judged pool.now (map line_view lines.now)) (length lines.now) first) }
{
    let table = first_past_table(lines);
    let alone = first_alone(alloc, lines, pool)?;
    let section = first_in_sections(alloc, lines)?;
    Ok(earliest(table, earliest(alone, section)))
}

/// The first line that is too large, lines whose entries have no room not counted.
pub(crate) fn first_large(
    alloc: Global,
    lines: &[Line<'_>],
    pool: &PoolBuilder,
) -> Result<Option<usize>, AllocError>
    requires { length lines.now < 2 ^ 32 }
    ensures { IfOk result (λ first. (s : Source) → IsJudged s (map line_view lines.now) pool.now → IsFirstBeside s first) }
{
    first_judged(alloc, lines, pool)
}
