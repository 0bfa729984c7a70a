//! The bodies of the attributes of fields and methods, one for each.
ghost use Rattle.std.specs.Prelude.{◌≡◌, ◌<◌, ◌^◌, pos, option_map, [], ◌∷◌, ◌++◌, length, map, IfOk, OnOk};
ghost use Rattle.std.specs.List.{flat_map};
ghost use Rattle.dj_cursor.specs.trusted.Spelling.{u2};
ghost use Rattle.dj_asm_source.specs.LineViews.{line_view};
ghost use Rattle.dj_asm_source.specs.TypeViews.{value_view};
ghost use Rattle.dj_asm_pool.specs.trusted.Needs.{value_entry};
ghost use Rattle.dj_asm_pool.specs.Pooling.{found_index};
ghost use Rattle.dj_asm.specs.Filing.{constant_bodies, stack_at, locals_at, first_reported, begins_code, IsBody, MayHaveBody, MayHaveBodies, AreBodies};

use crate::code::code_body;
use dj_asm_pool::PoolBuilder;
use dj_asm_source::{Line, Value, section_size};
use dj_cursor::u2_bytes;
use dj_names::Bytes;
use std::alloc::{AllocError, Global};

/// The body of a ConstantValue (JVMS 4.7.2): the index of the constant.
fn constant_body(alloc: Global, pool: &PoolBuilder, value: Value<'_>) -> Result<Bytes, AllocError>
    ensures { IfOk result (λ bytes. bytes ≡ u2 (found_index pool.now (value_entry (value_view value.entry)))) }
{
    let index = pool.value_index(alloc, value)?;
    Bytes::from_slice(alloc, &u2_bytes(index))
}

/// Appends the body of a field's attribute, or none, where the line is a field's.
fn push_constant(
    alloc: Global,
    bodies: &mut Vec<Bytes>,
    pool: &PoolBuilder,
    line: &Line<'_>,
) -> Result<(), AllocError>
    ensures { OnOk result (bodies.new.items ≡ bodies.old.items ++ constant_bodies (found_index pool.now) (line_view line.now)) }
{
    match line {
        Line::Field {
            value: Some(value),
            ..
        } => {
            let body = constant_body(alloc, pool, *value)?;
            bodies.push(body)?;
            Ok(())
        }
        Line::Field { value: None, .. } => {
            bodies.push(Bytes::new(alloc))?;
            Ok(())
        }
        Line::Class { .. }
        | Line::Version { .. }
        | Line::Super(_)
        | Line::Implements(_)
        | Line::Abstract { .. }
        | Line::Method { .. }
        | Line::Stack(_)
        | Line::Locals(_)
        | Line::Label(_)
        | Line::Catch { .. }
        | Line::Frame(_)
        | Line::Does(_)
        | Line::End => Ok(()),
    }
}

/// The bodies of the fields' attributes, by the lines before the methods.
pub(crate) fn constants_of(
    alloc: Global,
    pool: &PoolBuilder,
    lines: &[Line<'_>],
) -> Result<Vec<Bytes>, AllocError>
    ensures { IfOk result (λ bodies. bodies.items ≡ flat_map (constant_bodies (found_index pool.now)) (map line_view lines.now)) }
{
    let mut bodies = Vec::new(alloc);
    for line in lines {
        push_constant(alloc, &mut bodies, pool, line)?;
    }
    Ok(bodies)
}

/// Whether a method with code begins with the first of the lines.
fn begins_code(lines: &[Line<'_>]) -> bool
    ensures { result ≡ begins_code (map line_view lines.now) }
{
    match lines {
        [first, ..] => begins_method_with_code(first),
        [] => false,
    }
}

/// Whether a method with code begins with the line.
fn begins_method_with_code(line: &Line<'_>) -> bool
    ensures { result ≡ begins_code (line_view line.now ∷ []) }
{
    match line {
        Line::Method { .. } => true,
        Line::Class { .. }
        | Line::Version { .. }
        | Line::Super(_)
        | Line::Implements(_)
        | Line::Field { .. }
        | Line::Abstract { .. }
        | Line::Stack(_)
        | Line::Locals(_)
        | Line::Label(_)
        | Line::Catch { .. }
        | Line::Frame(_)
        | Line::Does(_)
        | Line::End => false,
    }
}

/// The number of a `.stack`.
fn stack_at(line: &Line<'_>) -> Option<u16>
    ensures { option_map pos result ≡ stack_at (line_view line.now) }
{
    match line {
        Line::Stack(n) => Some(*n),
        Line::Class { .. }
        | Line::Version { .. }
        | Line::Super(_)
        | Line::Implements(_)
        | Line::Field { .. }
        | Line::Abstract { .. }
        | Line::Method { .. }
        | Line::Locals(_)
        | Line::Label(_)
        | Line::Catch { .. }
        | Line::Frame(_)
        | Line::Does(_)
        | Line::End => None,
    }
}

/// The number of the first `.stack`, or 0.
#[tactic(auto, using(crate::proofs::FileSteps::reported_here, crate::proofs::FileSteps::reported_later, crate::proofs::FileSteps::reported_never))]
fn stack_of(lines: &[Line<'_>]) -> u16
    ensures { pos result ≡ first_reported stack_at (map line_view lines.now) }
{
    for line in lines {
        if let Some(n) = stack_at(line) {
            return n;
        }
    }
    0
}

/// The number of a `.locals`.
fn locals_at(line: &Line<'_>) -> Option<u16>
    ensures { option_map pos result ≡ locals_at (line_view line.now) }
{
    match line {
        Line::Locals(n) => Some(*n),
        Line::Class { .. }
        | Line::Version { .. }
        | Line::Super(_)
        | Line::Implements(_)
        | Line::Field { .. }
        | Line::Abstract { .. }
        | Line::Method { .. }
        | Line::Stack(_)
        | Line::Label(_)
        | Line::Catch { .. }
        | Line::Frame(_)
        | Line::Does(_)
        | Line::End => None,
    }
}

/// The number of the first `.locals`, or 0.
#[tactic(auto, using(crate::proofs::FileSteps::reported_here, crate::proofs::FileSteps::reported_later, crate::proofs::FileSteps::reported_never))]
fn locals_of(lines: &[Line<'_>]) -> u16
    ensures { pos result ≡ first_reported locals_at (map line_view lines.now) }
{
    for line in lines {
        if let Some(n) = locals_at(line) {
            return n;
        }
    }
    0
}

/// The body of the Code attribute of a method's lines, or none.
fn method_body(alloc: Global, lines: &[Line<'_>], pool: &PoolBuilder) -> Result<Bytes, AllocError>
    requires few { length lines.now < 2 ^ 32 }
    requires may { MayHaveBody pool.now (map line_view lines.now) }
    ensures { IfOk result (λ bytes. IsBody pool.now (map line_view lines.now) bytes) }
{
    if begins_code(lines) {
        code_body(alloc, lines, stack_of(lines), locals_of(lines), pool)
    } else {
        Ok(Bytes::new(alloc))
    }
}

/// The bodies of the methods' attributes, by the lines of the methods.
pub(crate) fn bodies_of(
    alloc: Global,
    lines: &[Line<'_>],
    pool: &PoolBuilder,
) -> Result<Vec<Bytes>, AllocError>
    requires few { length lines.now < 2 ^ 32 }
    requires may { MayHaveBodies pool.now (map line_view lines.now) }
    ensures { IfOk result (λ bodies. AreBodies pool.now (map line_view lines.now) bodies.items) }
{
    let mut bodies = Vec::new(alloc);
    let mut before = 0;
    while before < lines.len() {
        let rest = &lines[before..];
        let size = section_size(rest);
        let body = method_body(alloc, &rest[..size], pool)?;
        bodies.push(body)?;
        before += size;
    }
    Ok(bodies)
}
