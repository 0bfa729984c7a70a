ghost use Rattle.std.specs.Prelude.{◌≡◌, ◌<◌, Some, IfSome, length, if◌then◌else◌};
ghost use Rattle.dj_model.specs.trusted.Program.{is_private};
ghost use Rattle.dj_model.specs.trusted.Linking.{FoundMethod, is_plain, most_classes, with_body};
ghost use Rattle.dj_declarations.specs.Members.{IsDescriptor};
ghost use Rattle.dj_declarations.specs.trusted.Files.{desc_in};
ghost use Rattle.dj_class_table.specs.Tables.{methods_at, method_there};
ghost use Rattle.dj_resolution.specs.Numbers.{SaysMethod, first_some, method_found, numbers_up};

use crate::find::{MOST_CLASSES, PRIVATE, plain_method_in};
use dj_class_table::{ClassTable, Place};

/// The first method of a class, where it is there, and its superclasses that is neither private nor static.
pub fn plain_method_from(
    table: &ClassTable,
    class: Option<u32>,
    name: &[u8],
    desc: &[u8],
) -> Option<Place>
    requires there { IfSome class (λ k. k < length table.now) }
    requires described { IsDescriptor desc.now }
    ensures { SaysMethod table.now result (first_some (method_found table.now is_plain name.now (desc_in desc.now)) (numbers_up most_classes table.now class)) }
{
    let mut next = class;
    for _ in 0..MOST_CLASSES {
        let at = next?;
        if let Some(place) = plain_method_in(table, at, name, desc) {
            return Some(place);
        }
        next = table.super_of(at);
    }
    None
}

// The method itself where it is private, or else the first one of its name and its descriptor, of a class and its superclasses, that is neither private nor static.
fn taken_method(table: &ClassTable, resolved: Place, class: Option<u32>) -> Option<Place>
    requires there { resolved.class < length table.now }
    requires within { resolved.member < length (methods_at table.now resolved.class) }
    requires class { IfSome class (λ k. k < length table.now) }
    ensures { (found : FoundMethod) → method_there table.now resolved ≡ Some found
        → SaysMethod table.now result (if is_private found.method.flags then Some found
        else first_some (method_found table.now is_plain found.method.name found.method.desc) (numbers_up most_classes table.now class)) }
{
    let Place { class: own, member } = resolved;
    if table.method_flags(own, member) & PRIVATE == 0 {
        let name = table.method_name(own, member);
        plain_method_from(table, class, name, table.method_desc(own, member))
    } else {
        Some(resolved)
    }
}

/// The method that is taken for a receiver of a class, of those with code and those that a library answers.
pub fn selected_method(table: &ClassTable, resolved: Place, class: Option<u32>) -> Option<Place>
    requires there { resolved.class < length table.now }
    requires within { resolved.member < length (methods_at table.now resolved.class) }
    requires class { IfSome class (λ k. k < length table.now) }
    ensures { (found : FoundMethod) → method_there table.now resolved ≡ Some found
        → SaysMethod table.now result (with_body (if is_private found.method.flags then Some found
        else first_some (method_found table.now is_plain found.method.name found.method.desc) (numbers_up most_classes table.now class))) }
{
    let taken = taken_method(table, resolved, class)?;
    if table.method_has_body(taken.class, taken.member) {
        Some(taken)
    } else {
        None
    }
}
