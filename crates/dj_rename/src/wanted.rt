//! The texts that may get other ones.
ghost use Rattle.std.specs.Prelude.{◌≡◌, IfOk};
ghost use Rattle.dj_pool.specs.Views.{constant_of};
ghost use Rattle.dj_rename.specs.Renaming.{respelled, IsRoleText, wanted_by};

use crate::text::{class_renamed, desc_renamed};
use dj_names::Name;
use dj_pool::Entry;
use std::alloc::{AllocError, Global};

/// As what a text is read.
#[derive(Clone, Copy)]
pub(crate) enum Role {
    /// The text of a class.
    Class,
    /// A descriptor.
    Desc,
}

/// A text by its index: the index of what names it, and as what it is read.
#[derive(Clone, Copy)]
pub(crate) struct Wanted {
    pub(crate) of: u16,
    pub(crate) index: u16,
    pub(crate) role: Role,
}

/// The text that the constant of an index names.
pub(crate) fn wanted_of(of: u16, entry: &Entry<'_>) -> Option<Wanted>
    ensures { result ≡ wanted_by of (constant_of entry.now) }
{
    match entry {
        Entry::Class(name) => Some(Wanted {
            of,
            index: *name,
            role: Role::Class,
        }),
        Entry::NameAndType(_, desc) | Entry::MethodType(desc) => Some(Wanted {
            of,
            index: *desc,
            role: Role::Desc,
        }),
        _ => None,
    }
}

/// The other text.
pub(crate) fn respelled(alloc: Global, role: Role, text: &[u8]) -> Result<Name, AllocError>
    requires { IsRoleText role text.now }
    ensures { IfOk result (λ other. other ≡ respelled role text.now) }
{
    match role {
        Role::Class => class_renamed(alloc, text),
        Role::Desc => desc_renamed(alloc, text),
    }
}
