ghost use Rattle.std.specs.Prelude.{◌≡◌};
ghost use Rattle.dj_link_rules.specs.Judged.{kept_at};
ghost use Rattle.dj_link_rules.specs.Known.{lacks_class, lacks_member, is_library_class, is_foreign_named, is_unmakeable_class, is_interface_class, is_abstract_flags, is_abstract_class};

use crate::classes::{flags_at, is_abstract, is_interface, is_marked};
use crate::named::{NamedClass, NamedConstant, NamedMember};
use dj_resolution::ClassTable;

/// What is kept of the constant at an index.
pub fn kept_at(kept: &[Option<NamedConstant>], index: u16) -> Option<NamedConstant>
    ensures { result ≡ kept_at kept.now index }
{
    *kept.get(index as usize)?
}

/// Whether there is no such class.
pub fn lacks_class(class: Option<NamedClass>) -> bool
    ensures { result ≡ lacks_class class }
{
    match class {
        Some(class) => class.number.is_none(),
        None => false,
    }
}

/// Whether there is no such field or method.
pub fn lacks_member(member: Option<NamedMember>) -> bool
    ensures { result ≡ lacks_member member }
{
    match member {
        Some(member) => member.is_static.is_none(),
        None => false,
    }
}

// Whether the class's name is in the library's packages.
fn is_library_class(class: Option<NamedClass>) -> bool
    ensures { result ≡ is_library_class class }
{
    match class {
        Some(class) => class.of_library,
        None => false,
    }
}

/// Whether the constant violates the rule WHITELIST.
pub fn is_foreign_named(named: NamedConstant) -> bool
    ensures { result ≡ is_foreign_named named }
{
    is_library_class(named.class) && (lacks_class(named.class) || lacks_member(named.member))
}

/// Whether it is a class in the library's packages of which no object can be made.
pub fn is_unmakeable_class(unmakeable: &[bool], class: Option<NamedClass>) -> bool
    ensures { result ≡ is_unmakeable_class unmakeable.now class }
{
    match class {
        Some(class) => {
            class.dims == 0 && class.of_library && is_marked(unmakeable, class.number)
        }
        None => false,
    }
}

/// Whether it is an interface.
pub fn is_interface_class(table: &ClassTable, class: NamedClass) -> bool
    ensures { result ≡ is_interface_class table.now class }
{
    class.dims == 0 && is_interface(flags_at(table, class.number))
}

fn is_abstract_flags(flags: u16) -> bool
    ensures { result ≡ is_abstract_flags flags }
{
    is_interface(flags) || is_abstract(flags)
}

/// Whether it is an array, an interface or an abstract class.
pub fn is_abstract_class(table: &ClassTable, class: Option<NamedClass>) -> bool
    ensures { result ≡ is_abstract_class table.now class }
{
    match class {
        Some(class) => class.dims != 0 || is_abstract_flags(flags_at(table, class.number)),
        None => false,
    }
}
