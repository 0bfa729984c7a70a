ghost use Rattle.std.specs.Prelude.{◌≡◌, ◌≤◌, ◌∷◌, ◌++◌, ◌↔◌, [], List, map, IfOk, OnOk, Contains};
ghost use Rattle.std.specs.Option.{option_map, option_to_list};
ghost use Rattle.std.specs.List.{AllByRecursion};
ghost use Rattle.std.specs.BTreeMap.{keys, values};
ghost use Rattle.dj_names.specs.declared.descriptor.Ty.{Ty};
ghost use Rattle.dj_names.specs.trusted.Types.{base_array};
ghost use Rattle.dj_names.specs.trusted.Descriptors.{of_text, base_letter};
ghost use Rattle.dj_pool.specs.trusted.Pool.{IsPool, IsClassText, NamesText};
ghost use Rattle.dj_declarations.specs.trusted.Files.{type_in, name_in};
ghost use Rattle.dj_model.specs.trusted.Opcodes.{array_rows};
ghost use Rattle.dj_numbering.specs.Typed.{is_known_of, AreArrays};
ghost use Rattle.dj_numbering.specs.Shapes.{AreElements, shape_in, shape_type};
ghost use Rattle.dj_image.specs.Parts.{FitClasses};
ghost use Rattle.dj_image.specs.Uses.{base_used, used_type, class_types};
ghost use Rattle.dj_image.specs.ArrayRows.{RowsRiseStrictly, of_lent, type_lent, most_at, level, levels, IsKeyed, IsFitUse, AreAllKnown, AreRows, IsRow, known_types, first_wholes, wholes_of};

use crate::error::ImageError;
use crate::lent_type::{LentOf, LentType, type_in};
use crate::owned::OwnedPool;
use crate::parts::ClassParts;
use crate::uses::{Use, class_uses};
use dj_class_table::ClassTable;
use dj_names::{Base, Name, Of, Ty};
use dj_numbering::{Linker, Shape, shape_of};
use std::alloc::Global;
use std::collections::BTreeMap;

// ---- a row

fn base_letter(base: Base) -> u8
    ensures { result ∷ [] ≡ base_letter base }
{
    match base {
        Base::Boolean => b'Z',
        Base::Byte => b'B',
        Base::Char => b'C',
        Base::Short => b'S',
        Base::Int => b'I',
        Base::Long => b'J',
        Base::Float => b'F',
        Base::Double => b'D',
    }
}

// The descriptor of what the elements of an array are.
fn of_text(alloc: Global, of: LentOf<'_>) -> Result<Vec<u8>, ImageError>
    ensures { IfOk result (λ text. text.items ≡ of_text (of_lent of.entry)) }
{
    let mut text = Vec::new(alloc);
    match of {
        LentOf::Base(base) => text.push(base_letter(base))?,
        LentOf::Class(name) => {
            text.push(b'L')?;
            text.extend_from_slice(name)?;
            text.push(b';')?;
        }
    }
    Ok(text)
}

fn owned_of(alloc: Global, of: LentOf<'_>) -> Result<Of, ImageError>
    ensures { IfOk result (λ owned. owned ≡ of_lent of.entry) }
{
    Ok(match of {
        LentOf::Base(base) => Of::Base(base),
        LentOf::Class(name) => Of::Class(Name::from_slice(alloc, name)?),
    })
}

// The most dimensions that the elements of this descriptor have under them.
fn most_dims(rows: &BTreeMap<Vec<u8>, Ty>, text: &[u8]) -> u8
    ensures { result ≡ most_at rows.now text.now }
{
    match rows.get(text) {
        Some(top) => top.dims,
        None => 0,
    }
}

// Gives rows to an array and to its elements at whatever depth, as far as these are arrays. More dimensions than a descriptor spells have
// no rows.
fn add_rows(
    alloc: Global,
    rows: &mut BTreeMap<Vec<u8>, Ty>,
    whole: LentType<'_>,
) -> Result<(), ImageError>
    requires { AllByRecursion IsKeyed rows.old.entries }
    ensures keyed { OnOk result (AllByRecursion IsKeyed rows.new.entries) }
    ensures rows { (wholes : List Ty) → AreRows wholes rows.old → OnOk result (AreRows (wholes ++ type_lent whole.entry ∷ []) rows.new) }
{
    let dims = whole.dims.min(255) as u8;
    let text = of_text(alloc, whole.of)?;
    if dims <= most_dims(rows, text.as_slice()) {
        return Ok(());
    }
    let of = owned_of(alloc, whole.of)?;
    rows.insert(text, Ty { dims, of })?;
    Ok(())
}

// ---- what is used

// The base type that newarray makes an array of (JVMS table 6.5.newarray-A), without floats and doubles.
fn base_of(code: u8) -> Option<Base>
    ensures { option_map base_array result ≡ base_used array_rows code }
{
    match code {
        4 => Some(Base::Boolean),
        5 => Some(Base::Char),
        8 => Some(Base::Byte),
        9 => Some(Base::Short),
        10 => Some(Base::Int),
        11 => Some(Base::Long),
        _ => None,
    }
}

fn text_type(pool: &OwnedPool, index: u16) -> LentType<'_>
    requires { NamesText IsClassText pool.now index }
    ensures { type_lent result ≡ type_in (name_in pool.now index) }
{
    match pool.text(index) {
        Some(text) => type_in(text),
        None => unreachable!(),
    }
}

// The type that is used.
fn used_type(pool: &OwnedPool, one: Use) -> Option<LentType<'_>>
    requires { IsFitUse pool.now one }
    ensures { option_map type_lent result ≡ used_type pool.now one }
{
    match one {
        Use::Itself(text) => Some(text_type(pool, text)),
        Use::Element(text) => {
            let element = text_type(pool, text);
            Some(LentType {
                dims: element.dims + 1,
                of: element.of,
            })
        }
        Use::Base(code) => Some(LentType {
            dims: 1,
            of: LentOf::Base(base_of(code)?),
        }),
        Use::Pushed(_) => None,
    }
}

// Whether the class of an array's elements is there.
fn is_known(linker: &Linker, of: LentOf<'_>) -> bool
    ensures { result ≡ is_known_of linker.now.program (of_lent of.entry) }
{
    match of {
        LentOf::Base(_) => true,
        LentOf::Class(name) => linker.classes().class_named(name).is_some(),
    }
}

// Gives rows to what is used, where the class of the elements is there.
fn add_use(
    alloc: Global,
    linker: &Linker,
    rows: &mut BTreeMap<Vec<u8>, Ty>,
    pool: &OwnedPool,
    one: Use,
) -> Result<(), ImageError>
    requires fit { IsFitUse pool.now one }
    requires keyed { AllByRecursion IsKeyed rows.old.entries }
    ensures keyed { OnOk result (AllByRecursion IsKeyed rows.new.entries) }
    ensures rows { (wholes : List Ty) → AreRows wholes rows.old → OnOk result (AreRows (wholes ++ known_types linker.now.program (option_to_list (used_type pool.now one))) rows.new) }
{
    match used_type(pool, one) {
        Some(whole) if is_known(linker, whole.of) => add_rows(alloc, rows, whole),
        _ => Ok(()),
    }
}

// Gives rows to what the instructions of a class use.
fn add_class(
    alloc: Global,
    linker: &Linker,
    rows: &mut BTreeMap<Vec<u8>, Ty>,
    parts: &ClassParts,
) -> Result<(), ImageError>
    requires fit { IsPool parts.now.pool }
    requires keyed { AllByRecursion IsKeyed rows.old.entries }
    ensures keyed { OnOk result (AllByRecursion IsKeyed rows.new.entries) }
    ensures rows { (wholes : List Ty) → AreRows wholes rows.old → OnOk result (AreRows (wholes ++ known_types linker.now.program (class_types parts.now)) rows.new) }
{
    let uses = class_uses(alloc, parts)?;
    for one in &uses {
        add_use(alloc, linker, rows, &parts.pool, *one)?;
    }
    Ok(())
}

// The rows of arrays of bytes and of chars.
fn first_rows(alloc: Global) -> Result<BTreeMap<Vec<u8>, Ty>, ImageError>
    ensures { IfOk result (AreRows first_wholes) }
{
    let mut rows = BTreeMap::new(alloc);
    let of = LentOf::Base(Base::Byte);
    add_rows(alloc, &mut rows, LentType { dims: 1, of })?;
    let of = LentOf::Base(Base::Char);
    add_rows(alloc, &mut rows, LentType { dims: 1, of })?;
    Ok(rows)
}

// ---- in order

// The arrays of rows that have the most dimensions, in the order of the texts of what their elements are.
fn tops_in(
    alloc: Global,
    table: &ClassTable,
    rows: BTreeMap<Vec<u8>, Ty>,
) -> Result<Vec<Shape>, ImageError>
    requires { AreAllKnown table.now (values rows) }
    ensures { IfOk result (λ tops. tops.items ≡ map (shape_in table.now) (values rows)) }
{
    let mut tops = Vec::new(alloc);
    for top in rows.into_values() {
        tops.push(shape_of(table, &top))?;
    }
    Ok(tops)
}

// Appends the arrays of this many dimensions.
fn add_level(arrays: &mut Vec<Shape>, tops: &[Shape], dims: u8) -> Result<(), ImageError>
    ensures { OnOk result (arrays.new.items ≡ arrays.old.items ++ level dims tops.now) }
{
    for top in tops {
        if dims <= top.dims {
            arrays.push(Shape { dims, of: top.of })?;
        }
    }
    Ok(())
}

// These arrays, and those that are their elements, at every depth, in the order of their texts: those of fewer dimensions first.
fn levels_of(alloc: Global, tops: &[Shape]) -> Result<Vec<Shape>, ImageError>
    ensures { IfOk result (λ arrays. arrays.items ≡ levels 255 tops.now) }
{
    let mut arrays = Vec::new(alloc);
    for below in 0..255 {
        add_level(&mut arrays, tops, below + 1)?;
    }
    Ok(arrays)
}

/// The arrays that have numbers, in the order of the bytes of their descriptors.
pub(crate) fn arrays_of(
    alloc: Global,
    linker: &Linker,
    parts: &[ClassParts],
) -> Result<Vec<Shape>, ImageError>
    requires { FitClasses linker.now.program parts.now }
    ensures arrays { IfOk result (λ arrays. AreArrays linker.now.program (map (shape_type linker.now.program) arrays.items)) }
    ensures elements { IfOk result (λ arrays. AreElements linker.now.program arrays.items) }
    ensures numbered { (ty : Ty) → IfOk result (λ arrays. Contains (map (shape_type linker.now.program) arrays.items) ty ↔ IsRow (wholes_of linker.now.program parts.now) ty) }
{
    let mut rows = first_rows(alloc)?;
    for class in parts {
        add_class(alloc, linker, &mut rows, class)?;
    }
    let few = rows.len();
    let tops = tops_in(alloc, linker.classes(), rows)?;
    levels_of(alloc, &tops)
}
