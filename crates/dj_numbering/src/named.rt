//! Members by their names and descriptors, with the numbers of these in a directory.
ghost use Rattle.std.specs.Prelude.{◌≡◌, ◌<◌, length};
ghost use Rattle.dj_declarations.specs.trusted.Files.{desc_in};
ghost use Rattle.dj_declarations.specs.Members.{method_place, field_place};
ghost use Rattle.dj_class_table.specs.Tables.{methods_at, fields_at};
ghost use Rattle.dj_numbering.specs.Named.{IsNumberedBy};

use dj_resolution::Directory;

/// The name and the descriptor of a member, and their numbers, where they have some.
#[derive(Clone, Copy)]
pub struct MemberName<'a> {
    /// The text of its name.
    pub name: &'a [u8],
    /// The text of its descriptor.
    pub desc: &'a [u8],
    /// The number of its name.
    pub name_number: Option<u32>,
    /// The number of its descriptor.
    pub desc_number: Option<u32>,
}

/// The place, among the methods of a class, of the first one of this name and descriptor, by their numbers.
pub fn method_in(directory: &Directory<'_>, class: u32, named: MemberName<'_>) -> Option<u32>
    requires there { class < length directory.now.program }
    requires named { IsNumberedBy directory.now named }
    ensures { result ≡ method_place (methods_at directory.now.program class) named.entry.name.now (desc_in named.entry.desc.now) }
{
    match (named.name_number, named.desc_number) {
        (Some(name), Some(desc)) => directory.method_in(class, name, desc),
        _ => {
            directory.names_all();
            None
        }
    }
}

/// The place, among the fields of a class, of the first one of this name and descriptor, by their numbers.
pub fn field_in(directory: &Directory<'_>, class: u32, named: MemberName<'_>) -> Option<u32>
    requires there { class < length directory.now.program }
    requires named { IsNumberedBy directory.now named }
    ensures { result ≡ field_place (fields_at directory.now.program class) named.entry.name.now (desc_in named.entry.desc.now) }
{
    match (named.name_number, named.desc_number) {
        (Some(name), Some(desc)) => directory.field_in(class, name, desc),
        _ => {
            directory.names_all();
            None
        }
    }
}
