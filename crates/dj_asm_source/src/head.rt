ghost use Rattle.std.specs.Prelude.{◌≡◌};
ghost use Rattle.dj_asm_source.specs.LineReading.{line_after, ClassLine, VersionLine, SuperLine, ImplementsLine, FieldLine, AbstractLine, MethodLine, StackLine, LocalsLine, EndLine};
ghost use Rattle.dj_asm_tokens.specs.Views.{left_of};
ghost use Rattle.dj_asm_source.specs.Stops.{GivesRead};
ghost use Rattle.dj_asm_source.specs.LineViews.{line_view};

use crate::constant::value;
use crate::fields::number_u16;
use crate::reader::{Stop, flags, line_end, name};
use crate::syntax::Line;
use dj_asm_tokens::{LineTokens, NameKind};
use std::alloc::Global;

/// After `.class`.
pub(crate) fn class_line<'t>(
    alloc: Global,
    at: LineTokens<'t>,
) -> Result<(Line<'t>, LineTokens<'t>), Stop>
    ensures { GivesRead (λ x. line_view x.0) (λ x. left_of x.1) result (line_after ClassLine (left_of at.entry)) }
{
    let (flags, at) = flags(at)?;
    let (name, at) = name(alloc, at, NameKind::Class)?;
    let at = line_end(at)?;
    Ok((Line::Class { flags, name }, at))
}

/// After `.version`.
pub(crate) fn version_line<'t>(at: LineTokens<'t>) -> Result<(Line<'t>, LineTokens<'t>), Stop>
    ensures { GivesRead (λ x. line_view x.0) (λ x. left_of x.1) result (line_after VersionLine (left_of at.entry)) }
{
    let (major, at) = number_u16(at)?;
    let (minor, at) = number_u16(at)?;
    let at = line_end(at)?;
    Ok((Line::Version { major, minor }, at))
}

/// After `.super`.
pub(crate) fn super_line<'t>(
    alloc: Global,
    at: LineTokens<'t>,
) -> Result<(Line<'t>, LineTokens<'t>), Stop>
    ensures { GivesRead (λ x. line_view x.0) (λ x. left_of x.1) result (line_after SuperLine (left_of at.entry)) }
{
    let (name, at) = name(alloc, at, NameKind::Class)?;
    let at = line_end(at)?;
    Ok((Line::Super(name), at))
}

/// After `.implements`.
pub(crate) fn implements_line<'t>(
    alloc: Global,
    at: LineTokens<'t>,
) -> Result<(Line<'t>, LineTokens<'t>), Stop>
    ensures { GivesRead (λ x. line_view x.0) (λ x. left_of x.1) result (line_after ImplementsLine (left_of at.entry)) }
{
    let (name, at) = name(alloc, at, NameKind::Class)?;
    let at = line_end(at)?;
    Ok((Line::Implements(name), at))
}

/// After `.field`.
pub(crate) fn field_line<'t>(
    alloc: Global,
    at: LineTokens<'t>,
) -> Result<(Line<'t>, LineTokens<'t>), Stop>
    ensures { GivesRead (λ x. line_view x.0) (λ x. left_of x.1) result (line_after FieldLine (left_of at.entry)) }
{
    let (flags, at) = flags(at)?;
    let (title, at) = name(alloc, at, NameKind::Field)?;
    let (desc, at) = name(alloc, at, NameKind::FieldDescriptor)?;
    let (value, at) = value(at)?;
    Ok((
        Line::Field {
            flags,
            name: title,
            desc,
            value,
        },
        at,
    ))
}

/// After `.abstract`.
pub(crate) fn abstract_line<'t>(
    alloc: Global,
    at: LineTokens<'t>,
) -> Result<(Line<'t>, LineTokens<'t>), Stop>
    ensures { GivesRead (λ x. line_view x.0) (λ x. left_of x.1) result (line_after AbstractLine (left_of at.entry)) }
{
    let (flags, at) = flags(at)?;
    let (title, at) = name(alloc, at, NameKind::Method)?;
    let (desc, at) = name(alloc, at, NameKind::MethodDescriptor)?;
    let at = line_end(at)?;
    Ok((
        Line::Abstract {
            flags,
            name: title,
            desc,
        },
        at,
    ))
}

/// After `.method`.
pub(crate) fn method_line<'t>(
    alloc: Global,
    at: LineTokens<'t>,
) -> Result<(Line<'t>, LineTokens<'t>), Stop>
    ensures { GivesRead (λ x. line_view x.0) (λ x. left_of x.1) result (line_after MethodLine (left_of at.entry)) }
{
    let (flags, at) = flags(at)?;
    let (title, at) = name(alloc, at, NameKind::Method)?;
    let (desc, at) = name(alloc, at, NameKind::MethodDescriptor)?;
    let at = line_end(at)?;
    Ok((
        Line::Method {
            flags,
            name: title,
            desc,
        },
        at,
    ))
}

/// After `.stack`.
pub(crate) fn stack_line<'t>(at: LineTokens<'t>) -> Result<(Line<'t>, LineTokens<'t>), Stop>
    ensures { GivesRead (λ x. line_view x.0) (λ x. left_of x.1) result (line_after StackLine (left_of at.entry)) }
{
    let (count, at) = number_u16(at)?;
    let at = line_end(at)?;
    Ok((Line::Stack(count), at))
}

/// After `.locals`.
pub(crate) fn locals_line<'t>(at: LineTokens<'t>) -> Result<(Line<'t>, LineTokens<'t>), Stop>
    ensures { GivesRead (λ x. line_view x.0) (λ x. left_of x.1) result (line_after LocalsLine (left_of at.entry)) }
{
    let (count, at) = number_u16(at)?;
    let at = line_end(at)?;
    Ok((Line::Locals(count), at))
}

/// After `.end`.
pub(crate) fn end_line<'t>(at: LineTokens<'t>) -> Result<(Line<'t>, LineTokens<'t>), Stop>
    ensures { GivesRead (λ x. line_view x.0) (λ x. left_of x.1) result (line_after EndLine (left_of at.entry)) }
{
    let at = line_end(at)?;
    Ok((Line::End, at))
}
