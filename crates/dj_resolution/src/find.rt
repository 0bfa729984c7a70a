ghost use Rattle.std.specs.Prelude.{◌<◌, length, Some, IfSome, slice_get, if◌then◌else◌, ◌∷◌};
ghost use Rattle.dj_model.specs.trusted.Program.{is_interface, flags_of};
ghost use Rattle.dj_model.specs.trusted.Linking.{any_method, is_plain, most_classes, option_list};
ghost use Rattle.dj_declarations.specs.Members.{IsDescriptor};
ghost use Rattle.dj_declarations.specs.trusted.Files.{desc_in};
ghost use Rattle.dj_resolution.specs.Chained.{AreFieldChains, AreMethodChains};
ghost use Rattle.dj_resolution.specs.Numbers.{AreAbove, AreBelow, SaysMethod, SaysField, first_some, method_found, field_found, lists_of, numbers_above, numbers_up};

use crate::chains::Chains;
use dj_class_table::{ClassTable, Place};

/// JVMS table 4.6-A.
pub const PRIVATE: u16 = 0x0002;

/// JVMS table 4.6-A.
pub const STATIC: u16 = 0x0008;

/// JVMS table 4.1-A.
pub const INTERFACE: u16 = 0x0200;

/// No program has as many classes.
pub const MOST_CLASSES: u64 = 4_294_967_296;

// The method of the name and the descriptor that a class declares.
fn method_in(table: &ClassTable, class: u32, name: &[u8], desc: &[u8]) -> Option<Place>
    requires there { class < length table.now }
    requires described { IsDescriptor desc.now }
    ensures { SaysMethod table.now result (method_found table.now any_method name.now (desc_in desc.now) class) }
{
    let member = table.method_named(class, name, desc)?;
    Some(Place { class, member })
}

/// The same, where it is neither private nor static.
pub fn plain_method_in(table: &ClassTable, class: u32, name: &[u8], desc: &[u8]) -> Option<Place>
    requires there { class < length table.now }
    requires described { IsDescriptor desc.now }
    ensures { SaysMethod table.now result (method_found table.now is_plain name.now (desc_in desc.now) class) }
{
    let member = table.method_named(class, name, desc)?;
    let flags = table.method_flags(class, member);
    if flags & PRIVATE == 0 && flags & STATIC == 0 {
        Some(Place { class, member })
    } else {
        None
    }
}

// The field of the name and the descriptor that a class declares.
fn field_in(table: &ClassTable, class: u32, name: &[u8], desc: &[u8]) -> Option<Place>
    requires there { class < length table.now }
    requires described { IsDescriptor desc.now }
    ensures { SaysField table.now result (field_found table.now name.now (desc_in desc.now) class) }
{
    let member = table.field_named(class, name, desc)?;
    Some(Place { class, member })
}

// The first method of these classes that is neither private nor static.
fn plain_method_among(
    table: &ClassTable,
    classes: &[u32],
    name: &[u8],
    desc: &[u8],
) -> Option<Place>
    requires there { AreBelow (length table.now) classes.now }
    requires described { IsDescriptor desc.now }
    ensures { SaysMethod table.now result (first_some (method_found table.now is_plain name.now (desc_in desc.now)) classes.now) }
{
    for class in classes {
        if let Some(place) = plain_method_in(table, *class, name, desc) {
            return Some(place);
        }
    }
    None
}

// The first field of these classes.
fn field_among(table: &ClassTable, classes: &[u32], name: &[u8], desc: &[u8]) -> Option<Place>
    requires there { AreBelow (length table.now) classes.now }
    requires described { IsDescriptor desc.now }
    ensures { SaysField table.now result (first_some (field_found table.now name.now (desc_in desc.now)) classes.now) }
{
    for class in classes {
        if let Some(place) = field_in(table, *class, name, desc) {
            return Some(place);
        }
    }
    None
}

// The first method of the interfaces above a class that is neither private nor static.
fn plain_method_above(
    table: &ClassTable,
    above: &[Vec<u32>],
    class: u32,
    name: &[u8],
    desc: &[u8],
) -> Option<Place>
    requires there { class < length table.now }
    requires described { IsDescriptor desc.now }
    requires above { AreAbove table.now (lists_of above.now) }
    ensures { SaysMethod table.now result (first_some (method_found table.now is_plain name.now (desc_in desc.now)) (numbers_above table.now class)) }
{
    plain_method_among(table, &above[class as usize], name, desc)
}

// The first field of a class and of the interfaces above it.
fn field_above(
    table: &ClassTable,
    above: &[Vec<u32>],
    class: u32,
    name: &[u8],
    desc: &[u8],
) -> Option<Place>
    requires there { class < length table.now }
    requires described { IsDescriptor desc.now }
    requires above { AreAbove table.now (lists_of above.now) }
    ensures { SaysField table.now result (first_some (field_found table.now name.now (desc_in desc.now)) (class ∷ numbers_above table.now class)) }
{
    match field_in(table, class, name, desc) {
        Some(place) => Some(place),
        None => field_among(table, &above[class as usize], name, desc),
    }
}

/// The first method of a class and its superclasses.
pub fn method_up(table: &ClassTable, class: u32, name: &[u8], desc: &[u8]) -> Option<Place>
    requires there { class < length table.now }
    requires described { IsDescriptor desc.now }
    ensures { SaysMethod table.now result (first_some (method_found table.now any_method name.now (desc_in desc.now)) (numbers_up most_classes table.now (Some class))) }
{
    let mut next = Some(class);
    for _ in 0..MOST_CLASSES {
        let at = next?;
        if let Some(place) = method_in(table, at, name, desc) {
            return Some(place);
        }
        next = table.super_of(at);
    }
    None
}

// Class by class, the first method of the interfaces above a class and its superclasses that is neither private nor static.
fn plain_method_by_class(
    table: &ClassTable,
    above: &[Vec<u32>],
    class: u32,
    name: &[u8],
    desc: &[u8],
) -> Option<Place>
    requires there { class < length table.now }
    requires described { IsDescriptor desc.now }
    requires above { AreAbove table.now (lists_of above.now) }
    ensures { SaysMethod table.now result
        (first_some (λ k. first_some (method_found table.now is_plain name.now (desc_in desc.now)) (numbers_above table.now k)) (numbers_up most_classes table.now (Some class))) }
{
    let mut next = Some(class);
    for _ in 0..MOST_CLASSES {
        let at = next?;
        if let Some(place) = plain_method_above(table, above, at, name, desc) {
            return Some(place);
        }
        next = table.super_of(at);
    }
    None
}

/// The first method of the interfaces above a class and its superclasses that is neither private nor static.
pub fn plain_method_up(
    table: &ClassTable,
    above: &[Vec<u32>],
    methods: &Chains,
    class: u32,
    name: &[u8],
    desc: &[u8],
) -> Option<Place>
    requires there { class < length table.now }
    requires described { IsDescriptor desc.now }
    requires above { AreAbove table.now (lists_of above.now) }
    requires methods { AreMethodChains table.now methods.now }
    ensures { SaysMethod table.now result
        (first_some (λ k. first_some (method_found table.now is_plain name.now (desc_in desc.now)) (numbers_above table.now k)) (numbers_up most_classes table.now (Some class))) }
{
    match methods.list_of(class) {
        Some(list) => plain_method_among(table, list, name, desc),
        // Its superclasses go round.
        None => plain_method_by_class(table, above, class, name, desc),
    }
}

// Class by class, the first field of a class, the interfaces above it, and its superclasses in the same way.
fn field_by_class(
    table: &ClassTable,
    above: &[Vec<u32>],
    class: u32,
    name: &[u8],
    desc: &[u8],
) -> Option<Place>
    requires there { class < length table.now }
    requires described { IsDescriptor desc.now }
    requires above { AreAbove table.now (lists_of above.now) }
    ensures { SaysField table.now result
        (first_some (λ k. first_some (field_found table.now name.now (desc_in desc.now)) (k ∷ numbers_above table.now k)) (numbers_up most_classes table.now (Some class))) }
{
    let mut next = Some(class);
    for _ in 0..MOST_CLASSES {
        let at = next?;
        if let Some(place) = field_above(table, above, at, name, desc) {
            return Some(place);
        }
        next = table.super_of(at);
    }
    None
}

/// The first field of a class, the interfaces above it, and its superclasses in the same way.
pub fn field_up(
    table: &ClassTable,
    above: &[Vec<u32>],
    fields: &Chains,
    class: u32,
    name: &[u8],
    desc: &[u8],
) -> Option<Place>
    requires there { class < length table.now }
    requires described { IsDescriptor desc.now }
    requires above { AreAbove table.now (lists_of above.now) }
    requires fields { AreFieldChains table.now fields.now }
    ensures { SaysField table.now result
        (first_some (λ k. first_some (field_found table.now name.now (desc_in desc.now)) (k ∷ numbers_above table.now k)) (numbers_up most_classes table.now (Some class))) }
{
    match fields.list_of(class) {
        Some(list) => field_among(table, list, name, desc),
        // Its superclasses go round.
        None => field_by_class(table, above, class, name, desc),
    }
}

/// The first method of an interface and Object, or of a class and its superclasses.
pub fn method_first(
    table: &ClassTable,
    object: Option<u32>,
    class: u32,
    name: &[u8],
    desc: &[u8],
) -> Option<Place>
    requires object { IfSome object (λ k. k < length table.now) }
    requires there { class < length table.now }
    requires described { IsDescriptor desc.now }
    ensures { SaysMethod table.now result (first_some (method_found table.now any_method name.now (desc_in desc.now))
        (if is_interface (flags_of (slice_get table.now class)) then class ∷ option_list object else numbers_up most_classes table.now (Some class))) }
{
    if table.flags_of(class) & INTERFACE == 0 {
        return method_up(table, class, name, desc);
    }
    match method_in(table, class, name, desc) {
        Some(place) => Some(place),
        None => method_in(table, object?, name, desc),
    }
}
