ghost use Rattle.std.specs.Prelude.{◌≡◌, ◌<◌, length, slice_get, Some, IfOk};
ghost use Rattle.std.specs.Option.{option_map};
ghost use Rattle.dj_model.specs.trusted.Program.{is_interface, is_abstract};
ghost use Rattle.dj_link_rules.specs.Known.{is_marked, flags_at, is_unmakeable, AreUnmakeable};

use crate::error::LinkError;
use dj_resolution::ClassTable;
use std::alloc::Global;

/// Whether these are the flags of an interface (JVMS table 4.1-A).
pub fn is_interface(flags: u16) -> bool
    ensures { result ≡ is_interface flags }
{
    (flags >> 9) & 1 == 1
}

/// Whether these are the flags of an abstract class (JVMS table 4.1-A).
pub fn is_abstract(flags: u16) -> bool
    ensures { result ≡ is_abstract flags }
{
    (flags >> 10) & 1 == 1
}

/// Whether the class of a number is marked.
pub fn is_marked(marks: &[bool], class: Option<u32>) -> bool
    ensures { result ≡ is_marked marks.now class }
{
    match class {
        Some(class) => marks.get(class as usize).copied().unwrap_or(false),
        None => false,
    }
}

/// The flags of the class of a number; 0 where there is no class.
pub fn flags_at(table: &ClassTable, class: Option<u32>) -> u16
    ensures { result ≡ flags_at table.now class }
{
    match class {
        Some(class) if class < table.class_count() => table.flags_of(class),
        _ => 0,
    }
}

// Whether no object of the class can be made.
fn is_unmakeable(table: &ClassTable, class: u32) -> bool
    requires { class < length table.now }
    ensures { Some result ≡ option_map is_unmakeable (slice_get table.now class) }
{
    !table.has_method(class, b"<init>") || is_interface(table.flags_of(class))
}

/// For each class, by its number, whether no object of it can be made. The methods of each class are looked at once.
pub fn unmakeable_classes(alloc: Global, table: &ClassTable) -> Result<Vec<bool>, LinkError>
    ensures { IfOk result (λ marks. AreUnmakeable table.now marks.items) }
{
    let mut marks = Vec::new(alloc);
    for class in 0..table.class_count() {
        marks.push(is_unmakeable(table, class))?;
    }
    Ok(marks)
}
