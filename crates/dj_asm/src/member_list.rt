//! The fields and methods of a class file (JVMS 4.5 and 4.6).
ghost use Rattle.std.specs.Prelude.{◌≡◌, [], ◌∷◌, ◌++◌, map, IfOk, OnOk};
ghost use Rattle.dj_asm_tokens.specs.Texts.{text_view};
ghost use Rattle.dj_asm_source.specs.LineViews.{line_view};
ghost use Rattle.dj_asm_pool.specs.Pooling.{found_index};
ghost use Rattle.dj_asm.specs.Filing.{member_with, one_attribute, attributes_at, members_at, members_in, begins_member, first_body, other_bodies, bodies_after};

use dj_asm_pool::PoolBuilder;
use dj_asm_source::{Line, Text};
use dj_class::{Attribute, Attributes, MemberView, Members};
use dj_names::Bytes;
use std::alloc::{AllocError, Global};

/// Appends a field or a method.
fn push_member<'b>(
    members: &mut Members<'b>,
    pool: &PoolBuilder,
    flags: u16,
    name: &Text<'_>,
    desc: &Text<'_>,
    attributes: Attributes<'b>,
) -> Result<(), AllocError>
    ensures { OnOk result (members.new ≡ members.old ++ member_with (found_index pool.now) flags (text_view name.now) (text_view desc.now) attributes.entry ∷ []) }
{
    let member = MemberView {
        flags,
        name: pool.utf8_index(name.as_slice()),
        desc: pool.utf8_index(desc.as_slice()),
        attributes,
    };
    members.push(member)
}

/// One attribute.
fn one_attribute<'b>(alloc: Global, name: u16, body: &'b [u8]) -> Result<Attributes<'b>, AllocError>
    ensures { IfOk result (λ attributes. attributes ≡ one_attribute name body.now) }
{
    let mut attributes = Attributes::new(alloc);
    attributes.push(Attribute { name, body })?;
    Ok(attributes)
}

/// The attributes of the field or method that begins with the line.
fn attributes_at<'b>(
    alloc: Global,
    attribute: u16,
    body: &'b [u8],
    line: &Line<'_>,
) -> Result<Attributes<'b>, AllocError>
    ensures { IfOk result (λ attributes. attributes ≡ attributes_at attribute body.now (line_view line.now)) }
{
    match line {
        Line::Field { value: Some(_), .. } | Line::Method { .. } => {
            one_attribute(alloc, attribute, body)
        }
        Line::Field { value: None, .. }
        | Line::Abstract { .. }
        | Line::Class { .. }
        | Line::Version { .. }
        | Line::Super(_)
        | Line::Implements(_)
        | Line::Stack(_)
        | Line::Locals(_)
        | Line::Label(_)
        | Line::Catch { .. }
        | Line::Frame(_)
        | Line::Does(_)
        | Line::End => Ok(Attributes::new(alloc)),
    }
}

/// Appends the field or method that begins with the line.
fn push_line<'b>(
    members: &mut Members<'b>,
    alloc: Global,
    pool: &PoolBuilder,
    attribute: u16,
    body: &'b [u8],
    line: &Line<'_>,
) -> Result<(), AllocError>
    ensures { OnOk result (members.new ≡ members.old ++ members_at (found_index pool.now) attribute body.now (line_view line.now)) }
{
    let attributes = attributes_at(alloc, attribute, body, line)?;
    match line {
        Line::Field {
            flags,
            name,
            desc,
            ..
        } => push_member(members, pool, *flags, name, desc, attributes),
        Line::Abstract { flags, name, desc } => {
            push_member(members, pool, *flags, name, desc, attributes)
        }
        Line::Method { flags, name, desc } => {
            push_member(members, pool, *flags, name, desc, attributes)
        }
        Line::Class { .. }
        | Line::Version { .. }
        | Line::Super(_)
        | Line::Implements(_)
        | Line::Stack(_)
        | Line::Locals(_)
        | Line::Label(_)
        | Line::Catch { .. }
        | Line::Frame(_)
        | Line::Does(_)
        | Line::End => Ok(()),
    }
}

/// Whether a field or a method begins with the line.
fn begins_member(line: &Line<'_>) -> bool
    ensures { result ≡ begins_member (line_view line.now) }
{
    match line {
        Line::Field { .. } | Line::Abstract { .. } | Line::Method { .. } => true,
        Line::Class { .. }
        | Line::Version { .. }
        | Line::Super(_)
        | Line::Implements(_)
        | Line::Stack(_)
        | Line::Locals(_)
        | Line::Label(_)
        | Line::Catch { .. }
        | Line::Frame(_)
        | Line::Does(_)
        | Line::End => false,
    }
}

/// The first body, or none.
fn first_body(bodies: &[Bytes]) -> &[u8]
    ensures { result.now ≡ first_body bodies.now }
{
    match bodies {
        [first, ..] => first.as_slice(),
        [] => &[],
    }
}

/// The bodies after the first.
fn other_bodies(bodies: &[Bytes]) -> &[Bytes]
    ensures { result.now ≡ other_bodies bodies.now }
{
    match bodies {
        [_, others @ ..] => others,
        [] => bodies,
    }
}

/// The bodies of the lines after this one.
fn bodies_after<'b>(line: &Line<'_>, bodies: &'b [Bytes]) -> &'b [Bytes]
    ensures { result.now ≡ bodies_after (line_view line.now) bodies.now }
{
    if begins_member(line) {
        other_bodies(bodies)
    } else {
        bodies
    }
}

/// The fields or methods of the lines, where their attributes have this name and these bodies.
#[tactic(auto, using(crate::proofs::FileSteps::members_end))]
pub(crate) fn members_of<'b>(
    alloc: Global,
    pool: &PoolBuilder,
    attribute: u16,
    bodies: &'b [Bytes],
    lines: &[Line<'_>],
) -> Result<Members<'b>, AllocError>
    ensures { IfOk result (λ members. members ≡ members_in (found_index pool.now) attribute bodies.now (map line_view lines.now)) }
{
    let mut members = Members::new(alloc);
    let mut rest = bodies;
    for line in lines {
        push_line(&mut members, alloc, pool, attribute, first_body(rest), line)?;
        rest = bodies_after(line, rest);
    }
    Ok(members)
}
