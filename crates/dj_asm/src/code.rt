//! The body of a method's Code attribute.
ghost use Rattle.std.specs.Prelude.{◌≡◌, ◌<◌, ◌^◌, ℕ, List, pos, length, map, IfOk};
ghost use Rattle.dj_class.specs.trusted.Code.{CodeInfo, code_info_bytes};
ghost use Rattle.dj_frames.specs.StackMaps.{AreWellFormed};
ghost use Rattle.dj_frames.specs.trusted.Written.{stack_map_bytes};
ghost use Rattle.dj_asm_source.specs.trusted.Lines as lines;
ghost use Rattle.dj_asm_source.specs.LineViews.{line_view};
ghost use Rattle.dj_asm_pool.specs.Pooling.{found_index};
ghost use Rattle.dj_asm.specs.trusted.Codes.{frames_in, stack_map_of};
ghost use Rattle.dj_asm.specs.trusted.Files.{places_of};
ghost use Rattle.dj_asm.specs.CodeBodies.{CanBeCode, IsLaidFor, IsCodeBody};

use crate::frames::frames_of;
use crate::instrs::instrs_of;
use crate::ranges::ranges_of;
use dj_asm_pool::PoolBuilder;
use dj_asm_source::{Line, MethodLabels};
use dj_class::{Attribute, Attributes, CodeView};
use dj_frames::write_frames;
use dj_labels::Labelled;
use dj_layout::{Laid, lay_out};
use dj_names::Bytes;
use dj_ops::Frames;
use dj_write::write_code;
use std::alloc::{AllocError, Global};

/// The attribute of frames with this body, where there are frames.
fn attributes_of<'m>(
    alloc: Global,
    pool: &PoolBuilder,
    frames: &Frames,
    map: &'m [u8],
) -> Result<Attributes<'m>, AllocError>
    ensures { IfOk result (λ attributes. (starts : List ℕ) (body : List lines.Line) → map.now ≡ stack_map_bytes starts frames.now → attributes ≡ stack_map_of (places_of (found_index pool.now) body) starts frames.now) }
{
    let mut attributes = Attributes::new(alloc);
    if !frames.as_slice().is_empty() {
        attributes.push(Attribute {
            name: pool.utf8_index(b"StackMapTable"),
            body: map,
        })?;
    }
    Ok(attributes)
}

/// The bytes of the attribute's body with these parts.
fn spelled(
    alloc: Global,
    max_stack: u16,
    max_locals: u16,
    laid: Laid,
    attributes: Attributes<'_>,
) -> Result<Bytes, AllocError>
    ensures { IfOk result (λ bytes. bytes ≡ code_info_bytes (record { max_stack = max_stack; max_locals = max_locals; code = laid.code; table = laid.table; attributes = attributes.entry })) }
{
    let Laid {
        code,
        starts: _,
        table,
    } = laid;
    let view = CodeView {
        max_stack,
        max_locals,
        code: code.as_slice(),
        table,
        attributes,
    };
    write_code(alloc, &view).or(Err(AllocError))
}

/// The bytes of the attribute's body with these frames.
fn with_frames(
    alloc: Global,
    max_stack: u16,
    max_locals: u16,
    laid: Laid,
    frames: &Frames,
    pool: &PoolBuilder,
) -> Result<Bytes, AllocError>
    requires { AreWellFormed laid.starts frames.now }
    ensures { IfOk result (λ bytes. (body : List lines.Line) → bytes ≡ code_info_bytes (record { max_stack = max_stack; max_locals = max_locals; code = laid.code; table = laid.table; attributes = stack_map_of (places_of (found_index pool.now) body) laid.starts frames.now })) }
{
    let map = write_frames(alloc, frames, laid.starts.as_slice()).or(Err(AllocError))?;
    let attributes = attributes_of(alloc, pool, frames, map.as_slice())?;
    spelled(alloc, max_stack, max_locals, laid, attributes)
}

/// The instructions and ranges of a method's lines, laid out.
#[tactic(auto, using(crate::proofs::MethodCode::proper_lines, crate::proofs::MethodCode::lines_well_formed))]
fn laid_of(
    alloc: Global,
    lines: &[Line<'_>],
    labels: &MethodLabels<'_, '_>,
    pool: &PoolBuilder,
) -> Result<Laid, AllocError>
    requires can { CanBeCode pool.now (map line_view lines.now) }
    requires labels { labels.now ≡ map line_view lines.now }
    ensures { IfOk result (IsLaidFor (places_of (found_index pool.now) labels.now) (map line_view lines.now)) }
{
    let code = instrs_of(alloc, lines, labels, pool)?;
    let ranges = ranges_of(alloc, lines, labels, pool)?;
    let labelled = Labelled { code, ranges };
    // Code that fits is refused only for want of memory.
    lay_out(alloc, &labelled).or(Err(AllocError))
}

/// The body of the Code attribute, by the labels of the lines.
#[tactic(auto, using(crate::proofs::MethodCode::lines_frames, crate::proofs::MethodCode::code_is))]
fn body_of(
    alloc: Global,
    lines: &[Line<'_>],
    labels: &MethodLabels<'_, '_>,
    max_stack: u16,
    max_locals: u16,
    pool: &PoolBuilder,
) -> Result<Bytes, AllocError>
    requires few { length lines.now < 2 ^ 32 }
    requires can { CanBeCode pool.now (map line_view lines.now) }
    requires labels { labels.now ≡ map line_view lines.now }
    ensures { IfOk result (λ bytes. IsCodeBody (found_index pool.now) (pos max_stack) (pos max_locals) (map line_view lines.now) bytes) }
{
    let laid = laid_of(alloc, lines, labels, pool)?;
    let frames = frames_of(alloc, lines, labels, pool)?;
    with_frames(alloc, max_stack, max_locals, laid, &frames, pool)
}

/// The body of the Code attribute of a method with these lines (JVMS 4.7.3), and with this many places for operands and local variables.
pub(crate) fn code_body(
    alloc: Global,
    lines: &[Line<'_>],
    max_stack: u16,
    max_locals: u16,
    pool: &PoolBuilder,
) -> Result<Bytes, AllocError>
    requires few { length lines.now < 2 ^ 32 }
    requires can { CanBeCode pool.now (map line_view lines.now) }
    ensures { IfOk result (λ bytes. IsCodeBody (found_index pool.now) (pos max_stack) (pos max_locals) (map line_view lines.now) bytes) }
{
    let labels = MethodLabels::of(alloc, lines)?;
    body_of(alloc, lines, &labels, max_stack, max_locals, pool)
}
