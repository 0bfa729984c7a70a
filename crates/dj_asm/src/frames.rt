//! The frames of a method's lines.
ghost use Rattle.std.specs.Prelude.{◌≡◌, ◌<◌, ◌^◌, ◌+◌, ◌++◌, List, length, map, IfOk};
ghost use Rattle.dj_ops.specs.declared.frames.VType.TheVariants as types;
ghost use Rattle.dj_asm_source.specs.trusted.Labels.{is_instruction};
ghost use Rattle.dj_asm_source.specs.TypeViews.{simple_word, type_view};
ghost use Rattle.dj_asm_source.specs.LineViews.{frame_view, line_view};
ghost use Rattle.dj_asm_source.specs.LabelReading.{number_after};
ghost use Rattle.dj_asm_pool.specs.Pooling.{found_index};
ghost use Rattle.dj_asm.specs.trusted.Codes.{simple_type, type_of, form_of, frames_in};
ghost use Rattle.dj_asm.specs.trusted.Files.{places_of};
ghost use Rattle.dj_asm.specs.CodeBodies.{framed};

use dj_asm_pool::PoolBuilder;
use dj_asm_source::{Frame, FrameType, Line, MethodLabels, SimpleType, is_instruction};
use dj_ops::{Form, Frame as OpsFrame, Frames, VType, VTypes};
use std::alloc::{AllocError, Global};

/// The type that a word names.
fn simple_type(simple: SimpleType) -> VType
    ensures { result ≡ simple_type (simple_word simple) }
{
    match simple {
        SimpleType::Top => VType::Top,
        SimpleType::Int => VType::Integer,
        SimpleType::Float => VType::Float,
        SimpleType::Double => VType::Double,
        SimpleType::Long => VType::Long,
        SimpleType::Null => VType::Null,
        SimpleType::This => VType::UninitializedThis,
    }
}

/// A type of a frame.
fn type_of(labels: &MethodLabels<'_, '_>, pool: &PoolBuilder, ty: &FrameType<'_>) -> VType
    ensures { result ≡ type_of (places_of (found_index pool.now) labels.now) (type_view ty.now) }
{
    match ty {
        FrameType::Simple(simple) => simple_type(*simple),
        FrameType::Object(name) => VType::Object(pool.class_index(name.as_slice())),
        FrameType::New(label) => VType::Uninitialized(labels.number(*label)),
    }
}

/// The types of a frame.
fn types_of(
    alloc: Global,
    labels: &MethodLabels<'_, '_>,
    pool: &PoolBuilder,
    list: &[FrameType<'_>],
) -> Result<VTypes, AllocError>
    ensures { IfOk result (λ types. types ≡ map (type_of (places_of (found_index pool.now) labels.now)) (map type_view list.now)) }
{
    let mut types = VTypes::new(alloc);
    for ty in list {
        types.push(type_of(labels, pool, ty))?;
    }
    Ok(types)
}

/// The form of a frame.
fn form_of(
    alloc: Global,
    labels: &MethodLabels<'_, '_>,
    pool: &PoolBuilder,
    frame: &Frame<'_>,
) -> Result<Form, AllocError>
    ensures { IfOk result (λ form. form ≡ form_of (places_of (found_index pool.now) labels.now) (frame_view frame.now)) }
{
    match frame {
        Frame::Same => Ok(Form::Same),
        Frame::Stack1(ty) => Ok(Form::Stack1(type_of(labels, pool, ty))),
        Frame::Chop(count) => Ok(Form::Chop(*count)),
        Frame::Append(types) => {
            let types = types_of(alloc, labels, pool, types.as_slice())?;
            Ok(Form::Append(types))
        }
        Frame::Full { locals, stack } => {
            let locals = types_of(alloc, labels, pool, locals.as_slice())?;
            let stack = types_of(alloc, labels, pool, stack.as_slice())?;
            Ok(Form::Full(locals, stack))
        }
    }
}

/// Appends the frame of a line, where it has one, after this many instructions.
fn push_line(
    frames: &mut Frames,
    alloc: Global,
    labels: &MethodLabels<'_, '_>,
    pool: &PoolBuilder,
    number: u32,
    line: &Line<'_>,
) -> Result<(), AllocError>
    ensures { IfOk result (λ x. frames.new ≡ frames.old ++ framed (places_of (found_index pool.now) labels.now) number (line_view line.now)) }
{
    match line {
        Line::Frame(frame) => {
            let form = form_of(alloc, labels, pool, frame)?;
            frames.push(OpsFrame { at: number, form })
        }
        Line::Class { .. }
        | Line::Version { .. }
        | Line::Super(_)
        | Line::Implements(_)
        | Line::Field { .. }
        | Line::Abstract { .. }
        | Line::Method { .. }
        | Line::Stack(_)
        | Line::Locals(_)
        | Line::Label(_)
        | Line::Catch { .. }
        | Line::Does(_)
        | Line::End => Ok(()),
    }
}

/// How many instructions there are with a line.
fn number_after(line: &Line<'_>, number: u32) -> u32
    requires { number + 1 < 2 ^ 32 }
    ensures { result ≡ number_after (line_view line.now) number }
{
    if is_instruction(line) {
        number + 1
    } else {
        number
    }
}

/// The frames of lines: a frame is that of the next instruction.
#[tactic(auto, using(crate::proofs::ProperCode::frames_more, crate::proofs::ProperCode::frames_all))]
pub(crate) fn frames_of(
    alloc: Global,
    lines: &[Line<'_>],
    labels: &MethodLabels<'_, '_>,
    pool: &PoolBuilder,
) -> Result<Frames, AllocError>
    requires { length lines.now < 2 ^ 32 }
    ensures { IfOk result (λ frames. frames ≡ frames_in (places_of (found_index pool.now) labels.now) 0 (map line_view lines.now)) }
{
    let mut frames = Frames::new(alloc);
    let mut number = 0;
    for line in lines {
        push_line(&mut frames, alloc, labels, pool, number, line)?;
        number = number_after(line, number);
    }
    Ok(frames)
}
