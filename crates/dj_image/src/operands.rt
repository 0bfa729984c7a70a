ghost use Rattle.std.specs.Prelude.{◌≡◌, ℕ, ◌+◌, length, IfOk, option_and_then};
ghost use Rattle.std.specs.Option.{option_map};
ghost use Rattle.dj_pool.specs.trusted.Pool.{IsPool, IsLinked, name_and_type_at};
ghost use Rattle.dj_numbering.specs.Members.{number_of_method, number_of_field, found_method_number, found_field_number, resolved_method, resolved_field};
ghost use Rattle.dj_numbering.specs.Named.{IsDirectoryOf, IsNumbered};
ghost use Rattle.dj_image.specs.Homes.{kept_home, IsHome, AreHomes, IsDescribed, method_reported, field_reported, constant_operand, operand_at};
ghost use Rattle.dj_image.specs.Indexed.{Holds};
ghost use Rattle.dj_image.specs.NameNumbers.{AreNumbersBy};
ghost use Rattle.dj_image.specs.Operands.{class_operand, text_operand, method_operand, field_operand};
ghost use Rattle.dj_image.specs.Owned.{constant_of_owned};

use crate::error::ImageError;
use crate::indexed::{index_count, is_array, number_at};
use crate::name_numbers::{member_name, name_numbers};
use crate::operand::Operand;
use crate::owned::{OwnedEntry, OwnedPool};
use crate::taken::class_operand;
use dj_numbering::{Directory, FieldId, MemberName, MethodId, Types};
use std::alloc::Global;

// ---- members

// The number of the class in which the members of a constant's class are looked up; those of an array are Object's.
fn home_of(
    pool: &OwnedPool,
    classes: &[Option<u32>],
    object: Option<u32>,
    class: u16,
) -> Option<u32>
    ensures { result ≡ kept_home pool.now classes.now object class }
{
    let index = pool.class_text(class)?;
    if is_array(pool.text(index)?) {
        object
    } else {
        number_at(classes, index)
    }
}

fn method_in(
    types: &Types,
    directory: Option<&Directory<'_>>,
    home: Option<u32>,
    named: MemberName<'_>,
) -> Option<MethodId>
    requires same { IsDirectoryOf types.now.program directory }
    requires there { IsHome types.now home }
    requires named { IsNumbered directory named }
    ensures { option_map number_of_method result ≡ option_and_then (λ (k : ℕ). found_method_number types.now.program (resolved_method types.now k named.entry.name.now named.entry.desc.now)) home }
{
    types.resolve_named_method(directory, home?, named)
}

fn method_of(
    types: &Types,
    directory: Option<&Directory<'_>>,
    pool: &OwnedPool,
    numbers: &[Option<u32>],
    home: Option<u32>,
    names: u16,
) -> Option<MethodId>
    requires same { IsDirectoryOf types.now.program directory }
    requires numbers { AreNumbersBy directory pool.now numbers.now }
    requires there { IsHome types.now home }
    requires described { IsDescribed (name_and_type_at pool.now names) }
    ensures { option_map number_of_method result ≡ method_reported types.now home (name_and_type_at pool.now names) }
{
    let named = member_name(pool, numbers, names)?;
    method_in(types, directory, home, named)
}

fn field_in(
    types: &Types,
    directory: Option<&Directory<'_>>,
    home: Option<u32>,
    named: MemberName<'_>,
) -> Option<FieldId>
    requires same { IsDirectoryOf types.now.program directory }
    requires there { IsHome types.now home }
    requires named { IsNumbered directory named }
    ensures { option_map number_of_field result ≡ option_and_then (λ (k : ℕ). found_field_number types.now.program (resolved_field types.now k named.entry.name.now named.entry.desc.now)) home }
{
    types.resolve_named_field(directory, home?, named)
}

fn field_of(
    types: &Types,
    directory: Option<&Directory<'_>>,
    pool: &OwnedPool,
    numbers: &[Option<u32>],
    home: Option<u32>,
    names: u16,
) -> Option<FieldId>
    requires same { IsDirectoryOf types.now.program directory }
    requires numbers { AreNumbersBy directory pool.now numbers.now }
    requires there { IsHome types.now home }
    requires described { IsDescribed (name_and_type_at pool.now names) }
    ensures { option_map number_of_field result ≡ field_reported types.now home (name_and_type_at pool.now names) }
{
    let named = member_name(pool, numbers, names)?;
    field_in(types, directory, home, named)
}

// ---- operands

/// A text by its number, where it has one.
pub(crate) fn text_operand(text: Option<u32>) -> Operand
    ensures { result ≡ text_operand text }
{
    match text {
        Some(text) => Operand::Text(text),
        None => Operand::Unresolved,
    }
}

fn method_operand(method: Option<MethodId>) -> Operand
    ensures { result ≡ method_operand (option_map number_of_method method) }
{
    match method {
        Some(method) => Operand::Method(method),
        None => Operand::Unresolved,
    }
}

fn field_operand(field: Option<FieldId>) -> Operand
    ensures { result ≡ field_operand (option_map number_of_field field) }
{
    match field {
        Some(field) => Operand::Field(field),
        None => Operand::Unresolved,
    }
}

// What a constant is as an operand.
#[tactic(auto, using(crate::proofs::MemberOperands::field_names, crate::proofs::MemberOperands::method_names))]
fn constant_operand(
    types: &Types,
    directory: Option<&Directory<'_>>,
    pool: &OwnedPool,
    numbers: &[Option<u32>],
    texts: &[Option<u32>],
    classes: &[Option<u32>],
    object: Option<u32>,
    entry: &OwnedEntry,
) -> Operand
    requires same { IsDirectoryOf types.now.program directory }
    requires numbers { AreNumbersBy directory pool.now numbers.now }
    requires linked { IsLinked pool.now (constant_of_owned entry.now) }
    requires homes { AreHomes types.now pool.now classes.now object }
    ensures { result ≡ constant_operand types.now pool.now texts.now classes.now object (constant_of_owned entry.now) }
{
    match entry {
        OwnedEntry::Integer(n) => Operand::Int(*n),
        OwnedEntry::Long(n) => Operand::Long(*n),
        OwnedEntry::Text(text) => text_operand(number_at(texts, *text)),
        OwnedEntry::Class(text) => class_operand(number_at(classes, *text)),
        OwnedEntry::Field(class, names) => {
            let home = home_of(pool, classes, object, *class);
            field_operand(field_of(types, directory, pool, numbers, home, *names))
        }
        OwnedEntry::Method(class, names) => {
            let home = home_of(pool, classes, object, *class);
            method_operand(method_of(types, directory, pool, numbers, home, *names))
        }
        OwnedEntry::InterfaceMethod(class, names) => {
            let home = home_of(pool, classes, object, *class);
            method_operand(method_of(types, directory, pool, numbers, home, *names))
        }
        _ => Operand::Unresolved,
    }
}

fn operand_at(
    types: &Types,
    directory: Option<&Directory<'_>>,
    pool: &OwnedPool,
    numbers: &[Option<u32>],
    texts: &[Option<u32>],
    classes: &[Option<u32>],
    object: Option<u32>,
    index: u16,
) -> Operand
    requires same { IsDirectoryOf types.now.program directory }
    requires numbers { AreNumbersBy directory pool.now numbers.now }
    requires valid { IsPool pool.now }
    requires homes { AreHomes types.now pool.now classes.now object }
    ensures { result ≡ operand_at types.now pool.now texts.now classes.now object index }
{
    match pool.entry(index) {
        Some(entry) => constant_operand(
            types, directory, pool, numbers, texts, classes, object, entry,
        ),
        None => Operand::Unresolved,
    }
}

/// For each index of the pool, what its constant is as an operand.
pub(crate) fn operand_table(
    alloc: Global,
    types: &Types,
    directory: Option<&Directory<'_>>,
    pool: &OwnedPool,
    texts: &[Option<u32>],
    classes: &[Option<u32>],
    object: Option<u32>,
) -> Result<Vec<Operand>, ImageError>
    requires same { IsDirectoryOf types.now.program directory }
    requires valid { IsPool pool.now }
    requires homes { AreHomes types.now pool.now classes.now object }
    ensures { IfOk result (λ kept. Holds (operand_at types.now pool.now texts.now classes.now object) (length pool.now + 1) kept.items) }
{
    let numbers = name_numbers(alloc, directory, pool)?;
    let mut kept = Vec::new(alloc);
    let count = index_count(pool);
    for index in 0..count {
        let operand = operand_at(
            types, directory, pool, &numbers, texts, classes, object, index,
        );
        kept.push(operand)?;
    }
    Ok(kept)
}
