ghost use Rattle.std.specs.Prelude.{◌≡◌, ◌++◌, IfOk, OnOk, map, option_map};
ghost use Rattle.dj_library_types.specs.Views.{library_class_view, library_view};
ghost use Rattle.dj_library.specs.TableRows.{name_in, class_in};

use crate::errors::LibraryError;
use crate::methods::{MethodRow, methods_of};
use crate::which::{Which, name_of};
use dj_library_types::{LibClass, Library, Names};
use dj_names::Name;
use std::alloc::Global;

/// A class of the libraries, with its superclass and interfaces.
#[derive(Clone, Copy)]
pub struct LibraryHead {
    /// The whole name, with slashes.
    pub name: &'static [u8],
    /// The superclass, which Object alone lacks.
    pub superclass: Option<&'static [u8]>,
    /// The access flags (JVMS table 4.1-A).
    pub flags: u16,
    /// The direct superinterfaces.
    pub interfaces: &'static [&'static [u8]],
    /// The number of instance fields.
    pub(crate) fields: u16,
    pub(crate) methods: &'static [MethodRow],
    /// The methods that the raw library alone has.
    pub(crate) hosts: &'static [MethodRow],
}

fn superclass_of(
    alloc: Global,
    which: Which,
    name: Option<&'static [u8]>,
) -> Result<Option<Name>, LibraryError>
    ensures { IfOk result (λ superclass. superclass ≡ option_map (name_in which) name.entry) }
{
    match name {
        None => Ok(None),
        Some(name) => Ok(Some(name_of(alloc, which, name)?)),
    }
}

fn names_of(alloc: Global, which: Which, rows: &[&'static [u8]]) -> Result<Names, LibraryError>
    ensures { IfOk result (λ names. names ≡ map (name_in which) rows.now) }
{
    let mut names = Names::new(alloc);
    for row in rows {
        names.push(name_of(alloc, which, row)?)?;
    }
    Ok(names)
}

/// The class of the row.
fn class_of(alloc: Global, which: Which, row: LibraryHead) -> Result<LibClass, LibraryError>
    ensures { IfOk result (λ class. library_class_view class ≡ class_in which row) }
{
    Ok(LibClass {
        name: name_of(alloc, which, row.name)?,
        super_name: superclass_of(alloc, which, row.superclass)?,
        flags: row.flags,
        interfaces: names_of(alloc, which, row.interfaces)?,
        fields: row.fields,
        methods: methods_of(alloc, which, row.methods, row.hosts)?,
    })
}

/// Appends the classes of the rows, in order.
pub(crate) fn add_classes(
    alloc: Global,
    which: Which,
    rows: &[LibraryHead],
    library: &mut Library,
) -> Result<(), LibraryError>
    ensures { OnOk result (library_view library.new ≡ library_view library.old ++ map (class_in which) rows.now) }
{
    for row in rows {
        library.push(class_of(alloc, which, *row)?)?;
    }
    Ok(())
}

/// The classes of the rows, in order.
pub(crate) fn classes_of(
    alloc: Global,
    which: Which,
    rows: &[LibraryHead],
) -> Result<Library, LibraryError>
    ensures { IfOk result (λ library. library_view library ≡ map (class_in which) rows.now) }
{
    let mut library = Library::new(alloc);
    add_classes(alloc, which, rows, &mut library)?;
    Ok(library)
}
