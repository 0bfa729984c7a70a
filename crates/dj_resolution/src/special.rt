ghost use Rattle.std.specs.Prelude.{◌≡◌, ◌<◌, Some, length};
ghost use Rattle.dj_model.specs.trusted.Linking.{is_not_static, most_classes};
ghost use Rattle.dj_declarations.specs.Members.{IsDescriptor};
ghost use Rattle.dj_declarations.specs.trusted.Files.{desc_in};
ghost use Rattle.dj_class_table.specs.Tables.{super_number};
ghost use Rattle.dj_resolution.specs.Numbers.{SaysMethod, first_some, has, method_found, most_above, numbers_up};
ghost use Rattle.dj_resolution.specs.Ranked.{AreRanksOf};

use crate::find::STATIC;
use crate::ranked::Ranks;
use dj_class_table::{ClassTable, Place};

// This many levels are above a class at most.
const MOST_ABOVE: u64 = 4_294_967_295;

// The method of the name and the descriptor that a class declares, where it isn't static.
fn instance_method_in(table: &ClassTable, class: u32, name: &[u8], desc: &[u8]) -> Option<Place>
    requires there { class < length table.now }
    requires described { IsDescriptor desc.now }
    ensures { SaysMethod table.now result (method_found table.now is_not_static name.now (desc_in desc.now) class) }
{
    let member = table.method_named(class, name, desc)?;
    let flags = table.method_flags(class, member);
    if flags & STATIC == 0 {
        Some(Place { class, member })
    } else {
        None
    }
}

/// The first method of the superclasses of a class that isn't static.
pub fn instance_method_above(
    table: &ClassTable,
    class: u32,
    name: &[u8],
    desc: &[u8],
) -> Option<Place>
    requires there { class < length table.now }
    requires described { IsDescriptor desc.now }
    ensures { SaysMethod table.now result (first_some (method_found table.now is_not_static name.now (desc_in desc.now)) (numbers_up most_above table.now (super_number table.now class))) }
{
    let mut next = table.super_of(class);
    for _ in 0..MOST_ABOVE {
        let at = next?;
        if let Some(place) = instance_method_in(table, at, name, desc) {
            return Some(place);
        }
        next = table.super_of(at);
    }
    None
}

// Class by class, whether a class has the other one among its superclasses.
fn is_superclass_by_class(table: &ClassTable, class: u32, other: u32) -> bool
    requires { class < length table.now }
    ensures { result ≡ has (numbers_up most_above table.now (super_number table.now class)) other }
{
    let mut next = table.super_of(class);
    for _ in 0..MOST_ABOVE {
        let Some(at) = next else {
            return false;
        };
        if at == other {
            return true;
        }
        next = table.super_of(at);
    }
    false
}

/// Whether a class has the other one among its superclasses.
pub fn is_superclass(table: &ClassTable, ranks: &Ranks, class: u32, other: u32) -> bool
    requires there { class < length table.now }
    requires ranks { AreRanksOf table.now ranks.now }
    ensures { result ≡ has (numbers_up most_above table.now (super_number table.now class)) other }
{
    let Some(next) = table.super_of(class) else {
        return false;
    };
    match ranks.is_up(table, next, other) {
        Some(up) => up,
        // The superclasses go round, or there are too many classes for bits.
        None => is_superclass_by_class(table, class, other),
    }
}

/// Whether a class is the other one or has it among its superclasses.
pub fn is_own_or_superclass(table: &ClassTable, ranks: &Ranks, class: u32, other: u32) -> bool
    requires there { class < length table.now }
    requires ranks { AreRanksOf table.now ranks.now }
    ensures { result ≡ has (numbers_up most_classes table.now (Some class)) other }
{
    if class == other {
        return true;
    }
    is_superclass(table, ranks, class, other)
}
