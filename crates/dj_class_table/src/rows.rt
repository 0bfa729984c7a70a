ghost use Rattle.std.specs.Prelude.{◌≡◌, ◌<◌, ◌^◌, ◌&&◌, None, is_none, is_some, nat_lt, get_or, length, map, IfOk, MatchOption};
ghost use Rattle.std.specs.List.Sorted.{IsPermutation, IsSorted};
ghost use Rattle.dj_declarations.specs.Files.{bare_class};
ghost use Rattle.dj_class_table.specs.Tables.{class_number, IsLeastShared};
ghost use Rattle.dj_class_table.specs.ClassRows.{class_cmp, RiseStrictly, super_in, interfaces_in, numbers_at};

use crate::numbers::Numbers;
use dj_declarations::DeclaredClass;
use dj_names::Name;
use std::alloc::{AllocError, Global};

/// Puts classes in the order of the bytes of their names.
pub fn put_in_order(classes: &mut Vec<DeclaredClass>)
    ensures moved { IsPermutation classes.old.items classes.new.items }
    ensures count { length classes.new.items ≡ length classes.old.items }
    ensures in_order { IsSorted class_cmp classes.new.items }
{
    classes.sort_unstable_by(|a, b| a.name().cmp(b.name()));
}

/// The first name that a class and the next one have, of classes in order.
pub fn first_shared(rows: &[DeclaredClass]) -> Option<&[u8]>
    requires { IsSorted class_cmp rows.now }
    ensures { MatchOption result (RiseStrictly rows.now) (λ name. IsLeastShared rows.now name.now) }
{
    for place in 1..rows.len() {
        let name = rows[place - 1].name();
        if name == rows[place].name() {
            return Some(name);
        }
    }
    None
}

/// The place of the class of this name, by halving.
pub fn number_in(rows: &[DeclaredClass], name: &[u8]) -> Option<u32>
    requires rise { RiseStrictly rows.now }
    requires few { length rows.now < 2 ^ 31 }
    ensures { result ≡ class_number rows.now name.now }
{
    match rows.binary_search_by(|row| row.name().cmp(name)) {
        Ok(place) => Some(place as u32),
        Err(_) => None,
    }
}

// The numbers of the classes of these names, where they are there.
fn numbers_of(
    alloc: Global,
    rows: &[DeclaredClass],
    names: &[Name],
) -> Result<Vec<Option<u32>>, AllocError>
    requires rise { RiseStrictly rows.now }
    requires few { length rows.now < 2 ^ 31 }
    ensures { IfOk result (λ numbers. numbers.items ≡ map (class_number rows.now) names.now) }
{
    let mut numbers = Vec::new(alloc);
    for name in names {
        numbers.push(number_in(rows, name.as_slice()))?;
    }
    Ok(numbers)
}

// The number at a place.
fn number_at(numbers: &[Option<u32>], place: u32) -> Option<u32>
    ensures { result ≡ get_or numbers.now place None }
{
    *numbers.get(place as usize)?
}

// The numbers at these places, where there are any.
fn numbers_at(alloc: Global, numbers: &[Option<u32>], places: &[u32]) -> Result<Numbers, AllocError>
    ensures { IfOk result (λ listed. listed ≡ numbers_at numbers.now places.now) }
{
    let mut listed = Numbers::new(alloc);
    for place in places {
        if let Some(number) = number_at(numbers, *place) {
            listed.push(number)?;
        }
    }
    Ok(listed)
}

// The numbers of the interfaces that a class lists, of those that are there. Each name is looked up once, however often it is listed.
fn numbers_in(
    alloc: Global,
    rows: &[DeclaredClass],
    row: &DeclaredClass,
) -> Result<Numbers, AllocError>
    requires rise { RiseStrictly rows.now }
    requires few { length rows.now < 2 ^ 31 }
    ensures { IfOk result (λ numbers. numbers ≡ interfaces_in rows.now row.now) }
{
    let (names, places) = row.interfaces();
    let numbers = numbers_of(alloc, rows, names)?;
    numbers_at(alloc, &numbers, places)
}

/// Each class's superclass by its number.
pub fn supers_in(alloc: Global, rows: &[DeclaredClass]) -> Result<Vec<Option<u32>>, AllocError>
    requires rise { RiseStrictly rows.now }
    requires few { length rows.now < 2 ^ 31 }
    ensures { IfOk result (λ supers. supers.items ≡ map (super_in rows.now) rows.now) }
{
    let mut supers = Vec::new(alloc);
    for row in rows {
        supers.push(super_number_in(rows, row))?;
    }
    Ok(supers)
}

fn super_number_in(rows: &[DeclaredClass], row: &DeclaredClass) -> Option<u32>
    requires rise { RiseStrictly rows.now }
    requires few { length rows.now < 2 ^ 31 }
    ensures { result ≡ super_in rows.now row.now }
{
    number_in(rows, row.superclass()?)
}

/// Each class's interfaces by their numbers.
pub fn interfaces_in(alloc: Global, rows: &[DeclaredClass]) -> Result<Vec<Numbers>, AllocError>
    requires rise { RiseStrictly rows.now }
    requires few { length rows.now < 2 ^ 31 }
    ensures { IfOk result (λ interfaces. interfaces.items ≡ map (interfaces_in rows.now) rows.now) }
{
    let mut interfaces = Vec::new(alloc);
    for row in rows {
        interfaces.push(numbers_in(alloc, rows, row)?)?;
    }
    Ok(interfaces)
}

/// A law: classes as they are declared have no code and no constants.
pub fn are_bare(rows: &[DeclaredClass])
    ensures { map bare_class rows.now ≡ rows.now }
{
    for row in rows {
        row.is_bare();
    }
}

/// Whether a class names a superclass that has no number.
pub fn lacks_super(row: &DeclaredClass, number: Option<u32>) -> bool
    ensures { result ≡ (is_none number && is_some row.now.superclass) }
{
    number.is_none() && row.superclass().is_some()
}

/// Whether a class lists more interfaces than these.
pub fn lacks_interface(row: &DeclaredClass, numbers: &[u32]) -> bool
    ensures { result ≡ nat_lt (length numbers.now) (length row.now.interfaces) }
{
    let (_, places) = row.interfaces();
    numbers.len() < places.len()
}
