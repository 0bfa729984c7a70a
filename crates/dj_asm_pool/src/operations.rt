//! What instructions and frames need of the pool.
ghost use Rattle.std.specs.Prelude.{◌++◌, map, IfOk};
ghost use Rattle.std.specs.List.{flat_map};
ghost use Rattle.dj_asm_source.specs.OperationViews.{operation_view};
ghost use Rattle.dj_asm_source.specs.LineViews.{frame_view, line_view};
ghost use Rattle.dj_asm_source.specs.TypeViews.{type_view};
ghost use Rattle.dj_asm_pool.specs.trusted.Needs.{operation_entries, type_entries, types_entries, instruction_entries, stack_map_entries, frame_entries};
ghost use Rattle.dj_asm_pool.specs.PoolNeeds.{PutsNeeds};

use crate::needs::{both, need_class, need_dynamic, need_long, need_member};
use crate::pool::PoolBuilder;
use crate::types::{need_literal, need_stack_map, need_type, need_types};
use dj_asm_source::{Frame, FrameType, Line, Operation};
use std::alloc::{AllocError, Global};

/// Puts what an instruction needs.
fn need_operation(
    pool: &mut PoolBuilder,
    alloc: Global,
    operation: &Operation<'_>,
) -> Result<bool, AllocError>
    ensures { IfOk result (λ room. PutsNeeds pool.old (operation_entries (operation_view operation.now)) pool.new room) }
{
    match operation {
        Operation::Load { literal, .. } => need_literal(pool, alloc, literal),
        Operation::LoadLong(n) => need_long(pool, *n),
        Operation::Member {
            op,
            class,
            name,
            desc,
            interface,
        } => need_member(
            pool,
            alloc,
            *op,
            class.as_slice(),
            name.as_slice(),
            desc.as_slice(),
            *interface,
        ),
        Operation::Dynamic { index, name, desc } => {
            need_dynamic(pool, alloc, *index, name.as_slice(), desc.as_slice())
        }
        Operation::ClassOf { class, .. } => need_class(pool, alloc, class.as_slice()),
        Operation::Multi { desc, .. } => need_class(pool, alloc, desc.as_slice()),
        Operation::Plain { .. }
        | Operation::Push { .. }
        | Operation::Local { .. }
        | Operation::Increment { .. }
        | Operation::Jump { .. }
        | Operation::Table { .. }
        | Operation::Lookup { .. }
        | Operation::Array { .. } => Ok(true),
    }
}

/// Puts what the instruction of a line needs, and returns whether all has room.
pub(crate) fn need_instruction(
    pool: &mut PoolBuilder,
    alloc: Global,
    line: &Line<'_>,
) -> Result<bool, AllocError>
    ensures { IfOk result (λ room. PutsNeeds pool.old (instruction_entries (line_view line.now)) pool.new room) }
{
    match line {
        Line::Does(operation) => need_operation(pool, alloc, operation),
        Line::Class { .. }
        | Line::Version { .. }
        | Line::Super(_)
        | Line::Implements(_)
        | Line::Field { .. }
        | Line::Abstract { .. }
        | Line::Method { .. }
        | Line::Stack(_)
        | Line::Locals(_)
        | Line::Label(_)
        | Line::Catch { .. }
        | Line::Frame(_)
        | Line::End => Ok(true),
    }
}

/// Puts what two lists of types need.
fn need_both_types(
    pool: &mut PoolBuilder,
    alloc: Global,
    locals: &[FrameType<'_>],
    stack: &[FrameType<'_>],
) -> Result<bool, AllocError>
    ensures { IfOk result (λ room. PutsNeeds pool.old (flat_map type_entries (map type_view locals.now) ++ flat_map type_entries (map type_view stack.now)) pool.new room) }
{
    let first = need_types(pool, alloc, locals)?;
    let second = need_types(pool, alloc, stack)?;
    Ok(both(first, second))
}

/// Puts what a frame needs.
fn need_frame(pool: &mut PoolBuilder, alloc: Global, frame: &Frame<'_>) -> Result<bool, AllocError>
    ensures { IfOk result (λ room. PutsNeeds pool.old (types_entries (frame_view frame.now)) pool.new room) }
{
    match frame {
        Frame::Same | Frame::Chop(_) => Ok(true),
        Frame::Stack1(ty) => need_type(pool, alloc, ty),
        Frame::Append(types) => need_types(pool, alloc, types.as_slice()),
        Frame::Full { locals, stack } => {
            need_both_types(pool, alloc, locals.as_slice(), stack.as_slice())
        }
    }
}

/// Puts what the frame of a line needs, and returns whether all has room.
pub(crate) fn need_frame_line(
    pool: &mut PoolBuilder,
    alloc: Global,
    line: &Line<'_>,
) -> Result<bool, AllocError>
    ensures { IfOk result (λ room. PutsNeeds pool.old (frame_entries (line_view line.now)) pool.new room) }
{
    match line {
        Line::Frame(frame) => need_frame(pool, alloc, frame),
        Line::Class { .. }
        | Line::Version { .. }
        | Line::Super(_)
        | Line::Implements(_)
        | Line::Field { .. }
        | Line::Abstract { .. }
        | Line::Method { .. }
        | Line::Stack(_)
        | Line::Locals(_)
        | Line::Label(_)
        | Line::Catch { .. }
        | Line::Does(_)
        | Line::End => Ok(true),
    }
}

/// Puts the name of the attribute of frames where the line is one, and returns whether it has room.
pub(crate) fn need_stack_map_line(
    pool: &mut PoolBuilder,
    alloc: Global,
    line: &Line<'_>,
) -> Result<bool, AllocError>
    ensures { IfOk result (λ room. PutsNeeds pool.old (stack_map_entries (line_view line.now)) pool.new room) }
{
    match line {
        Line::Frame(_) => need_stack_map(pool, alloc),
        Line::Class { .. }
        | Line::Version { .. }
        | Line::Super(_)
        | Line::Implements(_)
        | Line::Field { .. }
        | Line::Abstract { .. }
        | Line::Method { .. }
        | Line::Stack(_)
        | Line::Locals(_)
        | Line::Label(_)
        | Line::Catch { .. }
        | Line::Does(_)
        | Line::End => Ok(true),
    }
}
