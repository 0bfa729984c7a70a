//! The pool of a source's lines.
ghost use Rattle.std.specs.Prelude.{◌≡◌, ◌+◌, ◌<◌, ◌^◌, length, map, IfOk};
ghost use Rattle.std.specs.List.{enumerate_from};
ghost use Rattle.dj_asm_source.specs.LineViews.{line_view};
ghost use Rattle.dj_asm_source.specs.trusted.Sources.{Source, lines_of};
ghost use Rattle.dj_asm_pool.specs.trusted.Needs.{needs, needs_at, method_needs};
ghost use Rattle.dj_asm_pool.specs.PoolNeeds.{PutsNeeds, IsPoolOf};
ghost use Rattle.dj_asm_pool.specs.Walking.{kind_entries, code_needs, noted, Walks};

use crate::lines::{need_catch, need_head};
use crate::operations::{need_frame_line, need_instruction, need_stack_map_line};
use crate::pool::PoolBuilder;
use dj_asm_source::{Line, section_size};
use std::alloc::{AllocError, Global};

/// What is put of a line: each kind of need is put for all lines of a method before the next kind.
#[derive(Clone, Copy)]
pub(crate) enum Kind {
    Head,
    Instruction,
    Catch,
    StackMap,
    Frame,
}

/// Puts what a line needs of this kind, and returns whether all has room.
fn need_kind(
    pool: &mut PoolBuilder,
    alloc: Global,
    kind: Kind,
    line: &Line<'_>,
) -> Result<bool, AllocError>
    ensures { IfOk result (λ room. PutsNeeds pool.old (kind_entries kind (line_view line.now)) pool.new room) }
{
    match kind {
        Kind::Head => need_head(pool, alloc, line),
        Kind::Instruction => need_instruction(pool, alloc, line),
        Kind::Catch => need_catch(pool, alloc, line),
        Kind::StackMap => need_stack_map_line(pool, alloc, line),
        Kind::Frame => need_frame_line(pool, alloc, line),
    }
}

/// The first place of a need without room, with one place more.
fn noted(lacking: Option<usize>, place: usize, room: bool) -> Option<usize>
    ensures { result ≡ noted lacking place room }
{
    if room {
        return lacking;
    }
    match lacking {
        None => Some(place),
        Some(earlier) => {
            if place < earlier {
                Some(place)
            } else {
                Some(earlier)
            }
        }
    }
}

/// Puts what the line at a place needs of this kind, and returns the first place of a need without room.
#[tactic(auto, using(crate::proofs::Walking::line_walks))]
fn walk_line(
    pool: &mut PoolBuilder,
    alloc: Global,
    kind: Kind,
    place: usize,
    line: &Line<'_>,
    lacking: Option<usize>,
) -> Result<Option<usize>, AllocError>
    ensures { IfOk result (λ first. Walks pool.old lacking (needs_at place (kind_entries kind (line_view line.now))) pool.new first) }
{
    let room = need_kind(pool, alloc, kind, line)?;
    Ok(noted(lacking, place, room))
}

/// Puts what lines from a place on need of this kind.
fn walk_kind(
    pool: &mut PoolBuilder,
    alloc: Global,
    kind: Kind,
    before: usize,
    lines: &[Line<'_>],
    lacking: Option<usize>,
) -> Result<Option<usize>, AllocError>
    requires { before + length lines.now < 2 ^ 32 }
    ensures { IfOk result (λ first. Walks pool.old lacking (needs (kind_entries kind) (enumerate_from before (map line_view lines.now))) pool.new first) }
{
    let mut first = lacking;
    for index in 0..lines.len() {
        let next = walk_line(pool, alloc, kind, before + index, &lines[index], first)?;
        first = next;
    }
    Ok(first)
}

/// Puts what lines from a place on need, except for their frames.
fn walk_code(
    pool: &mut PoolBuilder,
    alloc: Global,
    before: usize,
    lines: &[Line<'_>],
    lacking: Option<usize>,
) -> Result<Option<usize>, AllocError>
    requires { before + length lines.now < 2 ^ 32 }
    ensures { IfOk result (λ first. Walks pool.old lacking (code_needs (enumerate_from before (map line_view lines.now))) pool.new first) }
{
    let first = walk_kind(pool, alloc, Kind::Head, before, lines, lacking)?;
    let second = walk_kind(pool, alloc, Kind::Instruction, before, lines, first)?;
    walk_kind(pool, alloc, Kind::Catch, before, lines, second)
}

/// Puts what the lines of a section need; the section begins at a place.
fn walk_section(
    pool: &mut PoolBuilder,
    alloc: Global,
    before: usize,
    lines: &[Line<'_>],
    lacking: Option<usize>,
) -> Result<Option<usize>, AllocError>
    requires { before + length lines.now < 2 ^ 32 }
    ensures { IfOk result (λ first. Walks pool.old lacking (method_needs (enumerate_from before (map line_view lines.now))) pool.new first) }
{
    let first = walk_code(pool, alloc, before, lines, lacking)?;
    let second = walk_kind(pool, alloc, Kind::StackMap, before, lines, first)?;
    walk_kind(pool, alloc, Kind::Frame, before, lines, second)
}

/// The pool of the lines of a text, and the first of them that needs an entry without room.
pub fn pool_of(
    alloc: Global,
    lines: &[Line<'_>],
) -> Result<(PoolBuilder, Option<usize>), AllocError>
    requires { length lines.now < 2 ^ 32 }
    ensures { IfOk result (λ x. (s : Source) → map line_view lines.now ≡ lines_of s → IsPoolOf s x.0 x.1) }
{
    let mut pool = PoolBuilder::new(alloc);
    let mut first = None;
    let mut before = 0;
    while before < lines.len() {
        let rest = &lines[before..];
        let size = section_size(rest);
        let next = walk_section(&mut pool, alloc, before, &rest[..size], first)?;
        first = next;
        before += size;
    }
    Ok((pool, first))
}
