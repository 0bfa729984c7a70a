ghost use Rattle.std.specs.Prelude.{◌≡◌, ◌<◌, Some, length};
ghost use Rattle.std.specs.Option.{option_map};
ghost use Rattle.dj_pool.specs.Views.{constant_of};
ghost use Rattle.dj_model.specs.trusted.Program.{is_static};
ghost use Rattle.dj_class_table.specs.Tables.{method_there, field_there};
ghost use Rattle.dj_resolution.specs.Linked.{resolved_field, resolved_method};
ghost use Rattle.dj_resolution.specs.Numbered.{AreNumbersOf};
ghost use Rattle.dj_link_rules.specs.trusted.Named.{is_static_field, is_static_method};
ghost use Rattle.dj_link_rules.specs.Constants.{static_at, IsDirectoryOf, IsNumbered};

use crate::name_numbers::NumberedName;
use dj_member_index::Directory;
use dj_pool::Entry;
use dj_resolution::{Linker, Place, resolve_field_of, resolve_method_of};

// The flag of static fields and methods (JVMS tables 4.5-A and 4.6-A).
const STATIC: u16 = 0x0008;

/// Whether these are the flags of a static field or method.
pub fn is_static(flags: u16) -> bool
    ensures { result ≡ is_static flags }
{
    flags & STATIC != 0
}

// The field of this name and descriptor, by their numbers.
fn field_numbered(
    linker: &Linker,
    directory: &Directory<'_>,
    class: u32,
    named: NumberedName<'_>,
) -> Option<Place>
    requires same { directory.now.program ≡ linker.now.program }
    requires there { class < length linker.now.program }
    requires named { AreNumbersOf directory.now named.name_number named.desc_number named.name.now named.desc.now }
    ensures { option_map (field_there linker.now.program) result ≡ option_map Some (resolved_field linker.now class named.entry.name.now named.entry.desc.now) }
{
    resolve_field_of(
        linker,
        directory,
        class,
        named.name_number,
        named.desc_number,
    )
}

// The field of this name and descriptor.
fn field_named(
    linker: &Linker,
    directory: Option<&Directory<'_>>,
    class: u32,
    named: NumberedName<'_>,
) -> Option<Place>
    requires same { IsDirectoryOf linker.now.program directory }
    requires there { class < length linker.now.program }
    requires named { IsNumbered directory named }
    ensures { option_map (field_there linker.now.program) result ≡ option_map Some (resolved_field linker.now class named.entry.name.now named.entry.desc.now) }
{
    match directory {
        Some(directory) => field_numbered(linker, directory, class, named),
        None => linker.resolve_field(class, named.name, named.desc),
    }
}

// The method of this name and descriptor, by their numbers.
fn method_numbered(
    linker: &Linker,
    directory: &Directory<'_>,
    class: u32,
    named: NumberedName<'_>,
) -> Option<Place>
    requires same { directory.now.program ≡ linker.now.program }
    requires there { class < length linker.now.program }
    requires named { AreNumbersOf directory.now named.name_number named.desc_number named.name.now named.desc.now }
    ensures { option_map (method_there linker.now.program) result ≡ option_map Some (resolved_method linker.now class named.entry.name.now named.entry.desc.now) }
{
    resolve_method_of(
        linker,
        directory,
        class,
        named.name_number,
        named.desc_number,
    )
}

// The method of this name and descriptor.
fn method_named(
    linker: &Linker,
    directory: Option<&Directory<'_>>,
    class: u32,
    named: NumberedName<'_>,
) -> Option<Place>
    requires same { IsDirectoryOf linker.now.program directory }
    requires there { class < length linker.now.program }
    requires named { IsNumbered directory named }
    ensures { option_map (method_there linker.now.program) result ≡ option_map Some (resolved_method linker.now class named.entry.name.now named.entry.desc.now) }
{
    match directory {
        Some(directory) => method_numbered(linker, directory, class, named),
        None => linker.resolve_method(class, named.name, named.desc),
    }
}

// Whether the field to which this resolves is static.
fn is_static_field(
    linker: &Linker,
    directory: Option<&Directory<'_>>,
    class: u32,
    named: NumberedName<'_>,
) -> Option<bool>
    requires same { IsDirectoryOf linker.now.program directory }
    requires there { class < length linker.now.program }
    requires named { IsNumbered directory named }
    ensures { result ≡ option_map is_static_field (resolved_field linker.now class named.entry.name.now named.entry.desc.now) }
{
    let place = field_named(linker, directory, class, named)?;
    let flags = linker.classes().field_flags(place.class, place.member);
    Some(is_static(flags))
}

// Whether the method to which this resolves is static.
fn is_static_method(
    linker: &Linker,
    directory: Option<&Directory<'_>>,
    class: u32,
    named: NumberedName<'_>,
) -> Option<bool>
    requires same { IsDirectoryOf linker.now.program directory }
    requires there { class < length linker.now.program }
    requires named { IsNumbered directory named }
    ensures { result ≡ option_map is_static_method (resolved_method linker.now class named.entry.name.now named.entry.desc.now) }
{
    let place = method_named(linker, directory, class, named)?;
    let flags = linker.classes().method_flags(place.class, place.member);
    Some(is_static(flags))
}

/// Whether what a constant names in the class of a number is static; none where there is no such field or method.
pub fn is_static_at(
    linker: &Linker,
    directory: Option<&Directory<'_>>,
    entry: Entry<'_>,
    class: u32,
    named: NumberedName<'_>,
) -> Option<bool>
    requires same { IsDirectoryOf linker.now.program directory }
    requires there { class < length linker.now.program }
    requires named { IsNumbered directory named }
    ensures { result ≡ static_at linker.now (constant_of entry.entry) class named.entry.name.now named.entry.desc.now }
{
    match entry {
        Entry::Field(_, _) => is_static_field(linker, directory, class, named),
        Entry::Method(_, _) => is_static_method(linker, directory, class, named),
        Entry::InterfaceMethod(_, _) => is_static_method(linker, directory, class, named),
        _ => None,
    }
}
