ghost use Rattle.std.specs.Prelude.{◌≡◌, ◌++◌, ◌<◌, ◌^◌, [], length, map, All, IfOk, IfErr, OnOk};
ghost use Rattle.dj_names.specs.trusted.Descriptors.{IsDesc};
ghost use Rattle.dj_class.specs.trusted.ClassFile.{IsValid};
ghost use Rattle.dj_class.specs.Views.{class_of};
ghost use Rattle.dj_library_types.specs.Views.{library_class_view, library_view};
ghost use Rattle.dj_model.specs.trusted.Libraries.{library_class, joined};
ghost use Rattle.dj_declarations.specs.trusted.Files.{declared_class};
ghost use Rattle.dj_class_table.specs.Tables.{IsShared};
ghost use Rattle.dj_loader.specs.Loads.{all_classes, Never, RefusesLoad};
ghost use Rattle.dj_loader.specs.Numbered.{IsMemory};

use crate::error::LoadError;
use dj_class::ClassView;
use dj_class_table::{ClassTable, TableError};
use dj_declarations::{DeclaredClass, declare_file, declare_library_class};
use dj_library_types::{LibClass, Library};
use std::alloc::Global;

// The classes of the files.
fn declare_views(alloc: Global, views: &[ClassView<'_>]) -> Result<Vec<DeclaredClass>, LoadError>
    requires { All (λ view. IsValid (class_of view)) views.now }
    ensures classes { IfOk result (λ classes. classes.items ≡ map declared_class (map class_of views.now)) }
    ensures memory { IfErr result IsMemory }
{
    let mut classes = Vec::new(alloc);
    for view in views {
        classes.push(declare_file(alloc, view)?)?;
    }
    Ok(classes)
}

// Appends the classes of a library.
fn add_rows(
    alloc: Global,
    classes: &mut Vec<DeclaredClass>,
    rows: &[LibClass],
) -> Result<(), LoadError>
    requires { All (λ row. All (λ m. IsDesc m.desc) row.methods) rows.now }
    ensures classes { OnOk result (classes.new.items ≡ classes.old.items ++ map library_class (library_view rows.now)) }
    ensures memory { IfErr result IsMemory }
{
    for row in rows {
        classes.push(declare_library_class(alloc, row)?)?;
    }
    Ok(())
}

/// The classes of the files and of the library, as they are declared.
pub fn declare_all(
    alloc: Global,
    views: &[ClassView<'_>],
    library: &Library,
) -> Result<Vec<DeclaredClass>, LoadError>
    requires valid { All (λ view. IsValid (class_of view)) views.now }
    requires described { All (λ row. All (λ m. IsDesc m.desc) row.methods) library.now }
    ensures classes { IfOk result (λ classes. classes.items ≡ all_classes (library_view library.now) (map class_of views.now)) }
    ensures memory { IfErr result IsMemory }
{
    let mut classes = declare_views(alloc, views)?;
    add_rows(alloc, &mut classes, library.as_slice())?;
    Ok(classes)
}

/// The classes in the order of their names, which differ. There is no memory for more of them than a table has.
#[tactic(auto, using(crate::proofs::TableErrors::table_refused))]
pub fn table_of(alloc: Global, classes: Vec<DeclaredClass>) -> Result<ClassTable, LoadError>
    ensures table { IfOk result (λ table. table ≡ joined classes.items []) }
    ensures differ { IfOk result (λ _. Never (IsShared classes.items)) }
    ensures refused { IfErr result (RefusesLoad classes.items) }
{
    if classes.len() >= 0x8000_0000 {
        return Err(LoadError::Memory);
    }
    Ok(ClassTable::of(alloc, classes)?)
}
