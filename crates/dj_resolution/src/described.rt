//! Members by the numbers of their texts, where these have numbers.
ghost use Rattle.std.specs.Prelude.{◌≡◌, ◌<◌, ℕ, List, Some, length};
ghost use Rattle.std.specs.Option.{option_map};
ghost use Rattle.dj_declarations.specs.Members.{IsDescriptor};
ghost use Rattle.dj_class_table.specs.Tables.{method_there, field_there};
ghost use Rattle.dj_member_index.specs.Numberings.{number_of};
ghost use Rattle.dj_resolution.specs.Linked.{Linked, resolved_method, resolved_field};
ghost use Rattle.dj_resolution.specs.Numbered.{AreNumbersOf, Unnumbered};

use crate::linker::Linker;
use dj_class_table::Place;
use dj_member_index::Directory;

// A member has texts with numbers, so nothing resolves where one of them has none.
fn nothing_resolves(linker: &Linker, directory: &Directory<'_>, class: u32)
    requires same { directory.now.program ≡ linker.now.program }
    requires there { class < length linker.now.program }
    ensures { Unnumbered linker.now directory.now class }
{
    directory.names_all();
    linker.classes().names_differ();
    let _ = class;
}

/// The method to which a name and a descriptor resolve in a class (JVMS 5.4.3.3 and 5.4.3.4), by their numbers, where they have some.
pub fn resolve_method_of(
    linker: &Linker,
    directory: &Directory<'_>,
    class: u32,
    name: Option<u32>,
    desc: Option<u32>,
) -> Option<Place>
    requires same { directory.now.program ≡ linker.now.program }
    requires there { class < length linker.now.program }
    ensures { (n d : List ℕ) → AreNumbersOf directory.now name desc n d → option_map (method_there linker.now.program) result ≡ option_map Some (resolved_method linker.now class n d) }
{
    match (name, desc) {
        (Some(name), Some(desc)) => { linker.resolve_numbered_method(directory, class, name, desc) }
        _ => {
            nothing_resolves(linker, directory, class);
            None
        }
    }
}

/// The field to which a name and a descriptor resolve in a class (JVMS 5.4.3.2), by their numbers, where they have some.
pub fn resolve_field_of(
    linker: &Linker,
    directory: &Directory<'_>,
    class: u32,
    name: Option<u32>,
    desc: Option<u32>,
) -> Option<Place>
    requires same { directory.now.program ≡ linker.now.program }
    requires there { class < length linker.now.program }
    ensures { (n d : List ℕ) → AreNumbersOf directory.now name desc n d → option_map (field_there linker.now.program) result ≡ option_map Some (resolved_field linker.now class n d) }
{
    match (name, desc) {
        (Some(name), Some(desc)) => linker.resolve_numbered_field(directory, class, name, desc),
        _ => {
            nothing_resolves(linker, directory, class);
            None
        }
    }
}
