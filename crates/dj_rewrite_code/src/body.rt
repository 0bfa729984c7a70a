//! The body of a rewritten Code attribute.
ghost use Rattle.std.specs.Prelude.{◌≡◌, ◌+◌, ◌<◌, ◌^◌, length, map, filter, codes, IfOk, IfErr};
ghost use Rattle.dj_labels.specs.Labels.{IsWellFormed};
ghost use Rattle.dj_class.specs.CodeViews.{code_of};
ghost use Rattle.dj_class.specs.trusted.Code.{code_info_bytes};
ghost use Rattle.dj_early_rules.specs.trusted.Attributes.{is_named};
ghost use Rattle.dj_program.specs.Views.{parts_of};
ghost use Rattle.dj_image.specs.Imaged.{program_of};
ghost use Rattle.dj_emit.specs.Filed.{CanBeGrouped, groups_in};
ghost use Rattle.dj_frames.specs.Moves.{moved_frame};
ghost use Rattle.dj_frames.specs.trusted.Written.{stack_map_bytes};
ghost use Rattle.dj_rewritten.specs.Files.{frames_in};
ghost use Rattle.dj_rewrite_code.specs.Answers.{CanMove, CanRewrite, WritesCode};
ghost use Rattle.dj_rewrite_code.specs.Steps.{AnswersStack, AnswersGrouped, AnswersLaid, respelled};

use crate::attributes::{attributes_named, with_bodies};
use crate::error::CodeError;
use crate::maps::moved_map;
use dj_class::CodeView;
use dj_emit::{EmitError, Grouped, groups_in_file};
use dj_image::Image;
use dj_labels::Labelled;
use dj_layout::{Laid, LayError, lay_out};
use dj_names::Bytes;
use dj_ops::Frames;
use dj_pool::Pool;
use dj_program::MethodCode;
use dj_write::write_code;
use std::alloc::{AllocError, Global};

// What is inserted needs two places more at most.
fn more_stack(max_stack: u16) -> Result<u16, CodeError>
    ensures { AnswersStack max_stack result }
{
    match max_stack.checked_add(2) {
        Some(more) => Ok(more),
        None => Err(CodeError::TooLarge),
    }
}

// The code in groups.
fn grouped(
    alloc: Global,
    image: &Image,
    pool: &Pool<'_>,
    first: u16,
    code: &Labelled,
) -> Result<Grouped, CodeError>
    requires first { first + 25 < 2 ^ 16 }
    requires code { CanBeGrouped (program_of image.now) pool.now code.now }
    ensures { AnswersGrouped first (groups_in (program_of image.now) pool.now code.now) code.now result }
{
    match groups_in_file(alloc, image, pool, code, first) {
        Ok(Some(made)) => Ok(made),
        Ok(None) => Err(CodeError::TooLarge),
        Err(EmitError::BigObject(_)) => Err(CodeError::TooLarge),
        Err(EmitError::Memory) => Err(CodeError::Memory),
    }
}

// The code as bytes.
fn laid_out(alloc: Global, code: &Labelled) -> Result<Laid, CodeError>
    requires { IsWellFormed code.now }
    ensures { AnswersLaid code.now result }
{
    match lay_out(alloc, code) {
        Ok(laid) => Ok(laid),
        Err(LayError::Memory) => Err(CodeError::Memory),
        Err(_) => Err(CodeError::TooLarge),
    }
}

// The attribute's body: of its attributes the stack maps are kept, with another body.
fn spelled(
    alloc: Global,
    pool: &Pool<'_>,
    view: &CodeView<'_>,
    max_stack: u16,
    laid: Laid,
    map: &[u8],
) -> Result<Bytes, AllocError>
    ensures { IfOk result (λ bytes. bytes ≡ code_info_bytes (respelled pool.now (code_of view.now) max_stack laid map.now)) }
{
    let maps = attributes_named(alloc, pool, b"StackMapTable", view.attributes.as_slice())?;
    let attributes = with_bodies(alloc, maps.as_slice(), map)?;
    let Laid { code, table, .. } = laid;
    let new = CodeView {
        max_stack,
        max_locals: view.max_locals,
        code: code.as_slice(),
        table,
        attributes,
    };
    write_code(alloc, &new).or(Err(AllocError))
}

// The body of the stack map.
fn map_of(
    alloc: Global,
    frames: &Option<Frames>,
    grouped: &Grouped,
    addresses: &[u32],
) -> Result<Bytes, AllocError>
    requires { CanMove grouped.now addresses.now (frames_in frames.now) }
    ensures { IfOk result (λ body. body ≡ stack_map_bytes addresses.now (map (moved_frame grouped.now.start grouped.now.own) (frames_in frames.now))) }
{
    match frames {
        Some(frames) => moved_map(alloc, frames, grouped, addresses),
        None => moved_map(alloc, &Frames::new(alloc), grouped, addresses),
    }
}

/// The body of the rewritten Code attribute that has this one's parts, with indexes of a pool that has the accounter's constants from `first` on.
pub(crate) fn rewrite_body(
    alloc: Global,
    image: &Image,
    pool: &Pool<'_>,
    first: u16,
    view: &CodeView<'_>,
    code: &MethodCode,
) -> Result<Bytes, CodeError>
    requires { CanRewrite (program_of image.now) pool.now first (code_of view.now) (parts_of code.now) }
    ensures { WritesCode (program_of image.now) pool.now first (code_of view.now) (parts_of code.now) result }
{
    let max_stack = more_stack(code.max_stack)?;
    let grouped = grouped(alloc, image, pool, first, &code.code)?;
    let laid = laid_out(alloc, &grouped.code)?;
    let map = map_of(alloc, &code.frames, &grouped, laid.starts.as_slice())?;
    Ok(spelled(alloc, pool, view, max_stack, laid, map.as_slice())?)
}
