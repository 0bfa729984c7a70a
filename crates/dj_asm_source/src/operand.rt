ghost use Rattle.std.specs.Prelude.{◌≡◌, ℤ, pos};
ghost use Rattle.dj_asm_source.specs.LineReading.{plain, slot, increment, load, load_long, jump, field_use, method_use, open_method_use, member, dynamic, class_of, array, multi, interface_end};
ghost use Rattle.dj_asm_source.specs.LineReading.{push};
ghost use Rattle.dj_asm_source.specs.Reading.{is_signed};
ghost use Rattle.dj_asm_tokens.specs.Views.{left_of};
ghost use Rattle.dj_asm_source.specs.OperationViews.{operation_view};
ghost use Rattle.dj_asm_source.specs.Stops.{GivesRead};

use crate::constant::literal;
use crate::fields::{increment, number_i8, number_i16, number_i64, number_u8, number_u16, slot};
use crate::reader::{Stop, base, keyword, label, line_end, name};
use crate::syntax::Operation;
use dj_asm_tokens::{LineTokens, NameKind, Token, spells};
use std::alloc::Global;

/// An instruction without operands.
pub(crate) fn plain<'t>(op: u8, at: LineTokens<'t>) -> Result<(Operation<'t>, LineTokens<'t>), Stop>
    ensures { GivesRead (λ x. operation_view x.0) (λ x. left_of x.1) result (plain op (left_of at.entry)) }
{
    let at = line_end(at)?;
    Ok((Operation::Plain { op }, at))
}

/// A byte that is pushed.
pub(crate) fn push_byte<'t>(
    op: u8,
    at: LineTokens<'t>,
) -> Result<(Operation<'t>, LineTokens<'t>), Stop>
    ensures { GivesRead (λ x. operation_view x.0) (λ x. left_of x.1) result (push op (is_signed 7) (left_of at.entry)) }
{
    let (value, at) = number_i8(at)?;
    let at = line_end(at)?;
    Ok((
        Operation::Push {
            op,
            value: value as i16,
        },
        at,
    ))
}

/// Two bytes that are pushed.
pub(crate) fn push_short<'t>(
    op: u8,
    at: LineTokens<'t>,
) -> Result<(Operation<'t>, LineTokens<'t>), Stop>
    ensures { GivesRead (λ x. operation_view x.0) (λ x. left_of x.1) result (push op (is_signed 15) (left_of at.entry)) }
{
    let (value, at) = number_i16(at)?;
    let at = line_end(at)?;
    Ok((Operation::Push { op, value }, at))
}

/// A local variable.
pub(crate) fn local<'t>(
    wide: bool,
    op: u8,
    at: LineTokens<'t>,
) -> Result<(Operation<'t>, LineTokens<'t>), Stop>
    ensures { GivesRead (λ x. operation_view x.0) (λ x. left_of x.1) result (slot wide op (left_of at.entry)) }
{
    let (slot, at) = slot(at, wide)?;
    let at = line_end(at)?;
    Ok((Operation::Local { wide, op, slot }, at))
}

/// A local variable that grows.
pub(crate) fn grown<'t>(
    wide: bool,
    at: LineTokens<'t>,
) -> Result<(Operation<'t>, LineTokens<'t>), Stop>
    ensures { GivesRead (λ x. operation_view x.0) (λ x. left_of x.1) result (increment wide (left_of at.entry)) }
{
    let (slot, at) = slot(at, wide)?;
    let (by, at) = increment(at, wide)?;
    let at = line_end(at)?;
    Ok((Operation::Increment { wide, slot, by }, at))
}

/// What ldc pushes.
pub(crate) fn load<'t>(
    alloc: Global,
    op: u8,
    at: LineTokens<'t>,
) -> Result<(Operation<'t>, LineTokens<'t>), Stop>
    ensures { GivesRead (λ x. operation_view x.0) (λ x. left_of x.1) result (load op (left_of at.entry)) }
{
    let (literal, at) = literal(alloc, at)?;
    Ok((Operation::Load { op, literal }, at))
}

/// What ldc2_w pushes.
pub(crate) fn load_long<'t>(at: LineTokens<'t>) -> Result<(Operation<'t>, LineTokens<'t>), Stop>
    ensures { GivesRead (λ x. operation_view x.0) (λ x. left_of x.1) result (load_long (left_of at.entry)) }
{
    let at = keyword(at, b"long")?;
    let (number, at) = number_i64(at)?;
    let at = line_end(at)?;
    Ok((Operation::LoadLong(number), at))
}

/// The target of a jump.
pub(crate) fn jump<'t>(op: u8, at: LineTokens<'t>) -> Result<(Operation<'t>, LineTokens<'t>), Stop>
    ensures { GivesRead (λ x. operation_view x.0) (λ x. left_of x.1) result (jump op (left_of at.entry)) }
{
    let (target, at) = label(at)?;
    let at = line_end(at)?;
    Ok((Operation::Jump { op, target }, at))
}

/// A field.
pub(crate) fn field<'t>(
    alloc: Global,
    op: u8,
    at: LineTokens<'t>,
) -> Result<(Operation<'t>, LineTokens<'t>), Stop>
    ensures { GivesRead (λ x. operation_view x.0) (λ x. left_of x.1) result (field_use op (left_of at.entry)) }
{
    let (class, at) = name(alloc, at, NameKind::ClassOrArray)?;
    let (title, at) = name(alloc, at, NameKind::Field)?;
    let (desc, at) = name(alloc, at, NameKind::FieldDescriptor)?;
    let at = line_end(at)?;
    Ok((
        Operation::Member {
            op,
            class,
            name: title,
            desc,
            interface: false,
        },
        at,
    ))
}

/// A method.
pub(crate) fn method<'t>(
    alloc: Global,
    op: u8,
    at: LineTokens<'t>,
) -> Result<(Operation<'t>, LineTokens<'t>), Stop>
    ensures { GivesRead (λ x. operation_view x.0) (λ x. left_of x.1) result (method_use op (left_of at.entry)) }
{
    let (class, at) = name(alloc, at, NameKind::ClassOrArray)?;
    let (title, at) = name(alloc, at, NameKind::Method)?;
    let (desc, at) = name(alloc, at, NameKind::MethodDescriptor)?;
    let at = line_end(at)?;
    Ok((
        Operation::Member {
            op,
            class,
            name: title,
            desc,
            interface: false,
        },
        at,
    ))
}

/// A method of a class or, with `interface` after it, of an interface.
pub(crate) fn open_method<'t>(
    alloc: Global,
    op: u8,
    at: LineTokens<'t>,
) -> Result<(Operation<'t>, LineTokens<'t>), Stop>
    ensures { GivesRead (λ x. operation_view x.0) (λ x. left_of x.1) result (open_method_use op (left_of at.entry)) }
{
    let (class, at) = name(alloc, at, NameKind::ClassOrArray)?;
    let (title, at) = name(alloc, at, NameKind::Method)?;
    let (desc, at) = name(alloc, at, NameKind::MethodDescriptor)?;
    let (interface, at) = interface_end(at)?;
    Ok((
        Operation::Member {
            op,
            class,
            name: title,
            desc,
            interface,
        },
        at,
    ))
}

/// Whether `interface` comes next, and then the line's end.
fn interface_end<'t>(at: LineTokens<'t>) -> Result<(bool, LineTokens<'t>), Stop>
    ensures { GivesRead (λ x. x.0) (λ x. left_of x.1) result (interface_end (left_of at.entry)) }
{
    match at.next() {
        None => Err(Stop::Missing),
        Some((placed, rest)) => match placed.token {
            Token::LineEnd => Ok((false, rest)),
            Token::Word(word) if spells(word.bytes, b"interface") => {
                let at = line_end(rest)?;
                Ok((true, at))
            }
            Token::Word(_) | Token::Quoted(_) | Token::Bad => Err(Stop::Wrong {
                line: placed.line,
                column: placed.column,
            }),
        },
    }
}

/// A field or a method.
pub(crate) fn member<'t>(
    alloc: Global,
    op: u8,
    at: LineTokens<'t>,
) -> Result<(Operation<'t>, LineTokens<'t>), Stop>
    ensures { GivesRead (λ x. operation_view x.0) (λ x. left_of x.1) result (member op (left_of at.entry)) }
{
    if op <= 181 {
        field(alloc, op, at)
    } else if op == 183 || op == 184 {
        open_method(alloc, op, at)
    } else {
        method(alloc, op, at)
    }
}

/// A call site.
pub(crate) fn dynamic<'t>(
    alloc: Global,
    at: LineTokens<'t>,
) -> Result<(Operation<'t>, LineTokens<'t>), Stop>
    ensures { GivesRead (λ x. operation_view x.0) (λ x. left_of x.1) result (dynamic (left_of at.entry)) }
{
    let (index, at) = number_u16(at)?;
    let (title, at) = name(alloc, at, NameKind::Method)?;
    let (desc, at) = name(alloc, at, NameKind::MethodDescriptor)?;
    let at = line_end(at)?;
    Ok((
        Operation::Dynamic {
            index,
            name: title,
            desc,
        },
        at,
    ))
}

/// A class.
pub(crate) fn class_of<'t>(
    alloc: Global,
    op: u8,
    at: LineTokens<'t>,
) -> Result<(Operation<'t>, LineTokens<'t>), Stop>
    ensures { GivesRead (λ x. operation_view x.0) (λ x. left_of x.1) result (class_of op (left_of at.entry)) }
{
    let (class, at) = name(alloc, at, NameKind::ClassOrArray)?;
    let at = line_end(at)?;
    Ok((Operation::ClassOf { op, class }, at))
}

/// A base type.
pub(crate) fn array<'t>(at: LineTokens<'t>) -> Result<(Operation<'t>, LineTokens<'t>), Stop>
    ensures { GivesRead (λ x. operation_view x.0) (λ x. left_of x.1) result (array (left_of at.entry)) }
{
    let (base, at) = base(at)?;
    let at = line_end(at)?;
    Ok((Operation::Array { base }, at))
}

/// A type of arrays, and how many of its dimensions are made.
pub(crate) fn multi<'t>(
    alloc: Global,
    at: LineTokens<'t>,
) -> Result<(Operation<'t>, LineTokens<'t>), Stop>
    ensures { GivesRead (λ x. operation_view x.0) (λ x. left_of x.1) result (multi (left_of at.entry)) }
{
    let (desc, at) = name(alloc, at, NameKind::ArrayDescriptor)?;
    let (dims, at) = number_u8(at)?;
    let at = line_end(at)?;
    Ok((Operation::Multi { desc, dims }, at))
}
