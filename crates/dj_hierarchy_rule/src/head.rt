ghost use Rattle.std.specs.Prelude.{◌≡◌, ◌++◌, ◌↔◌, IsTrue, IfOk, map};
ghost use Rattle.std.specs.Int.{IsBitSet};
ghost use Rattle.dj_class.specs.trusted.Access as access;
ghost use Rattle.dj_library.specs.trusted.Heads.{library_heads};
ghost use Rattle.dj_library.specs.TableRows as rows;
ghost use Rattle.dj_hierarchy_rule.specs.Views.{head_view, seen_view};

use crate::error::HierarchyError;
use dj_class::AccessFlags;
use dj_library::{LibraryHead, heads as library};
use std::alloc::Global;

/// What the rule HIERARCHY looks at in a class.
#[derive(Drop)]
pub struct ClassHead<'a> {
    /// The name of the class.
    pub name: &'a [u8],
    /// Its access flags.
    pub flags: u16,
    /// Its superclass, where it has one.
    pub superclass: Option<&'a [u8]>,
    /// The interfaces that it lists, each at least once.
    pub interfaces: Vec<&'a [u8]>,
}

/// The same for a class of the set or of the library, borrowed.
#[derive(Clone, Copy)]
pub struct Seen<'a> {
    /// The name of the class.
    pub name: &'a [u8],
    /// Its access flags.
    pub flags: u16,
    /// Its superclass, where it has one.
    pub superclass: Option<&'a [u8]>,
    /// The interfaces that it lists.
    pub interfaces: &'a [&'a [u8]],
}

impl<'a> Seen<'a> {
    /// Whether the class is an interface.
    pub fn is_interface(&self) -> bool
        ensures { IsTrue result ↔ IsBitSet self.now.flags access.interface }
    {
        AccessFlags(self.flags).is_interface()
    }

    /// Whether the class is final.
    pub fn is_final(&self) -> bool
        ensures { IsTrue result ↔ IsBitSet self.now.flags access.final }
    {
        self.flags & 0x0010 != 0
    }
}

// The head of a class of the set.
fn see<'a>(head: &'a ClassHead<'a>) -> Seen<'a>
    ensures { seen_view result ≡ head_view head.now }
{
    Seen {
        name: head.name,
        flags: head.flags,
        superclass: head.superclass,
        interfaces: head.interfaces.as_slice(),
    }
}

// The heads of the set.
fn see_set<'a>(alloc: Global, heads: &'a [ClassHead<'a>]) -> Result<Vec<Seen<'a>>, HierarchyError>
    ensures { IfOk result (λ seen. map seen_view seen.items ≡ map head_view heads.now) }
{
    let mut seen = Vec::new(alloc);
    for head in heads {
        seen.push(see(head))?;
    }
    Ok(seen)
}

// The classes of the library.
fn library_rows() -> &'static [LibraryHead]
    ensures { map rows.head_view result.now ≡ library_heads }
{
    library()
}

// The head of a class of the library.
fn see_row(row: &LibraryHead) -> Seen<'static>
    ensures { seen_view result ≡ rows.head_view row.now }
{
    Seen {
        name: row.name,
        flags: row.flags,
        superclass: row.superclass,
        interfaces: row.interfaces,
    }
}

/// The heads of the set, and then those of the library.
pub fn see_all<'a>(
    alloc: Global,
    heads: &'a [ClassHead<'a>],
) -> Result<Vec<Seen<'a>>, HierarchyError>
    ensures { IfOk result (λ seen. map seen_view seen.items ≡ map head_view heads.now ++ library_heads) }
{
    let mut seen = see_set(alloc, heads)?;
    let classes = library_rows();
    for row in classes {
        seen.push(see_row(row))?;
    }
    Ok(seen)
}
