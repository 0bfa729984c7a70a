ghost use Rattle.std.specs.Prelude.{◌≡◌, get_or, option_and_then};
ghost use Rattle.std.specs.Option.{option_map};
ghost use Rattle.dj_names.specs.trusted.Types.{base_array};
ghost use Rattle.dj_model.specs.trusted.Opcodes.{array_rows};
ghost use Rattle.dj_numbering.specs.Typed.{text_of_type};
ghost use Rattle.dj_image.specs.declared.operand.Operand.TheVariants.{Unresolved};
ghost use Rattle.dj_image.specs.Operands.{class_operand};
ghost use Rattle.dj_image.specs.Taken.{interface_at, takes_literal, takes_member, is_method, is_class, takes_operand, indexed_operand, base_text, base_operand, kept_operand, code_kept, instr_kept, range_kept, entry_kept, class_at_index, named_kept, caught_kept, operand_with};

use crate::indexed::number_at;
use crate::operand::Operand;
use crate::owned::{OwnedEntry, OwnedPool};
use crate::parts::ClassParts;
use dj_early_rules::index_of;
use dj_labels::Protected;
use dj_names::Base;
use dj_numbering::{Place, Types};
use dj_ops::Instr;
use dj_program::MethodCode;

// ---- which operands an instruction takes

fn takes_literal(op: u8, operand: Operand) -> bool
    ensures { result ≡ takes_literal op operand }
{
    match operand {
        Operand::Int(_) => op <= 19,
        Operand::Text(_) => op <= 19,
        Operand::Class(_) => op <= 19,
        Operand::Long(_) => op == 20,
        _ => false,
    }
}

fn takes_member(op: u8, interface: bool, operand: Operand) -> bool
    ensures { result ≡ takes_member op interface operand }
{
    match operand {
        Operand::Field(_) => op <= 181,
        Operand::Method(_) if interface => op >= 183,
        Operand::Method(_) => op >= 182,
        _ => false,
    }
}

fn is_method(operand: Operand) -> bool
    ensures { result ≡ is_method operand }
{
    matches!(operand, Operand::Method(_))
}

fn is_class(operand: Operand) -> bool
    ensures { result ≡ is_class operand }
{
    matches!(operand, Operand::Class(_))
}

// Whether an instruction takes what its index names: an operand, which is a method of an interface or isn't.
fn takes(instr: &Instr, interface: bool, operand: Operand) -> bool
    ensures { result ≡ takes_operand instr.now interface operand }
{
    match instr {
        Instr::Literal { op, index: _ } => takes_literal(*op, operand),
        Instr::Member { op, index: _ } => takes_member(*op, interface, operand),
        Instr::Interface { index: _, count: _ } => interface && is_method(operand),
        Instr::Class { op: _, index: _ } => is_class(operand),
        Instr::Multi { index: _, dims: _ } => is_class(operand),
        _ => false,
    }
}

// ---- the operand of an instruction, by the tables of its class

fn is_interface_method(pool: &OwnedPool, index: u16) -> bool
    ensures { result ≡ interface_at pool.now index }
{
    matches!(pool.entry(index), Some(OwnedEntry::InterfaceMethod(_, _)))
}

fn operand_at(operands: &[Operand], index: u16) -> Operand
    ensures { result ≡ get_or operands.now index Unresolved }
{
    match operands.get(usize::from(index)) {
        Some(operand) => *operand,
        None => Operand::Unresolved,
    }
}

fn indexed_operand(
    pool: &OwnedPool,
    operands: &[Operand],
    instr: &Instr,
    index: Option<u16>,
) -> Operand
    ensures { result ≡ indexed_operand pool.now operands.now instr.now index }
{
    let Some(index) = index else {
        return Operand::Nothing;
    };
    let operand = operand_at(operands, index);
    if takes(instr, is_interface_method(pool, index), operand) {
        operand
    } else {
        Operand::Unresolved
    }
}

/// A class by its number, where it has one.
pub(crate) fn class_operand(class: Option<u32>) -> Operand
    ensures { result ≡ class_operand class }
{
    match class {
        Some(class) => Operand::Class(class),
        None => Operand::Unresolved,
    }
}

// What newarray makes arrays of (JVMS table 6.5.newarray-A), without floats and doubles.
fn made_of(code: u8) -> Option<Base>
    ensures { option_map (λ base. text_of_type (base_array base)) result ≡ base_text array_rows code }
{
    match code {
        4 => Some(Base::Boolean),
        5 => Some(Base::Char),
        8 => Some(Base::Byte),
        9 => Some(Base::Short),
        10 => Some(Base::Int),
        11 => Some(Base::Long),
        _ => None,
    }
}

// The class of the array that newarray makes.
fn array_operand(types: &Types, base: Option<Base>) -> Operand
    ensures { result ≡ base_operand types.now (option_map (λ base. text_of_type (base_array base)) base) }
{
    match base {
        Some(base) => class_operand(types.array_of(base)),
        None => Operand::Nothing,
    }
}

// The operand of an instruction, by the tables of its class.
#[tactic(auto, unfolding(crate::specs::Taken::kept_operand))]
fn kept_operand(
    types: &Types,
    pool: &OwnedPool,
    operands: &[Operand],
    made: &[Option<u32>],
    instr: &Instr,
) -> Operand
    ensures { result ≡ kept_operand types.now pool.now operands.now made.now instr.now }
{
    match instr {
        Instr::Array { base } => array_operand(types, made_of(*base)),
        Instr::Class { op: 189, index } => class_operand(number_at(made, *index)),
        _ => indexed_operand(pool, operands, instr, index_of(instr)),
    }
}

// ---- what is at places

/// The code of the method at a place, where it has some.
pub(crate) fn code_at(parts: &[ClassParts], place: Place) -> Option<&MethodCode>
    ensures { option_map (λ code. code.now) result ≡ code_kept parts.now place }
{
    parts
        .get(place.class as usize)?
        .codes
        .get(place.member as usize)?
        .as_ref()
}

/// The instruction of a number of the code of the method at a place.
pub(crate) fn instr_at(parts: &[ClassParts], place: Place, number: u32) -> Option<&Instr>
    ensures { option_map (λ instr. instr.now) result ≡ instr_kept parts.now place number }
{
    let code = code_at(parts, place)?;
    code.code.code.as_slice().get(number as usize)
}

/// A row of the exception table of the code of the method at a place.
pub(crate) fn range_at(parts: &[ClassParts], place: Place, range: u32) -> Option<&Protected>
    ensures { option_map (λ row. row.now) result ≡ range_kept parts.now place range }
{
    let code = code_at(parts, place)?;
    code.code.ranges.as_slice().get(range as usize)
}

// The class at an index, by the table of a class.
fn class_at(tables: &[Vec<Option<u32>>], class: u32, index: u16) -> Option<u32>
    ensures { result ≡ class_at_index tables.now class index }
{
    *tables.get(class as usize)?.get(usize::from(index))?
}

/// The class that the constant at an index names.
pub(crate) fn named_kept(tables: &[Vec<Option<u32>>], class: u32, index: Option<u16>) -> Option<u32>
    ensures { result ≡ named_kept tables.now class index }
{
    class_at(tables, class, index?)
}

/// The class that a row catches; none of index 0.
pub(crate) fn caught_kept(tables: &[Vec<Option<u32>>], class: u32, index: u16) -> Option<u32>
    ensures { result ≡ caught_kept tables.now class index }
{
    if index == 0 {
        return None;
    }
    class_at(tables, class, index)
}

/// The constant of the field at a place.
pub(crate) fn constant_at(constants: &[Vec<Operand>], place: Place) -> Option<Operand>
    ensures { result ≡ entry_kept constants.now place.class place.member }
{
    let table = constants.get(place.class as usize)?;
    table.get(place.member as usize).copied()
}

// The operand of an instruction of a class.
fn operand_with(
    types: &Types,
    parts: &[ClassParts],
    operands: &[Vec<Operand>],
    made: &[Vec<Option<u32>>],
    class: u32,
    instr: &Instr,
) -> Option<Operand>
    ensures { result ≡ operand_with types.now parts.now operands.now made.now class instr.now }
{
    let part = parts.get(class as usize)?;
    let table = operands.get(class as usize)?;
    let arrays = made.get(class as usize)?;
    Some(kept_operand(types, &part.pool, table, arrays, instr))
}

/// The operand of an instruction of the code of the method at a place.
pub(crate) fn operand_there(
    types: &Types,
    parts: &[ClassParts],
    operands: &[Vec<Operand>],
    made: &[Vec<Option<u32>>],
    place: Place,
    number: u32,
) -> Option<Operand>
    ensures { result ≡ option_and_then (operand_with types.now parts.now operands.now made.now place.class) (instr_kept parts.now place number) }
{
    let instr = instr_at(parts, place, number)?;
    operand_with(types, parts, operands, made, place.class, instr)
}
