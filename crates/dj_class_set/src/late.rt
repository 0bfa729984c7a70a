ghost use Rattle.std.specs.Prelude.{◌≡◌, ◌++◌, ◌<◌, ◌≤◌, ◌^◌, length, map, All, IfOk, OnOk};
ghost use Rattle.std.specs.Option.{option_map};
ghost use Rattle.dj_names.specs.trusted.Descriptors.{IsDesc};
ghost use Rattle.dj_class.specs.trusted.ClassFile.{IsValid};
ghost use Rattle.dj_class.specs.Views.{class_of};
ghost use Rattle.dj_library_types.specs.Views.{library_view};
ghost use Rattle.dj_model.specs.trusted.Libraries.{library_class};
ghost use Rattle.dj_file_rules.specs.Views.{path_file_view};
ghost use Rattle.dj_declarations.specs.trusted.Files.{declared_class};
ghost use Rattle.dj_class_table.specs.ClassRows.{RiseStrictly};
ghost use Rattle.dj_class_set.specs.Late.{IsDeclaredFrom, AreDeclaredOrNot, IsJudging, IsLinkOf, AreLinksOf, AreLinks, row_class};
ghost use Rattle.dj_class_set.specs.trusted.Limits.{most_files};

use dj_class::ClassView;
use dj_declarations::{DeclaredClass, declare_file, declare_library_class};
use dj_file_rules::{FileView, view_file};
use dj_library_types::{LibClass, Library};
use dj_loader::{LoadError, refuse_cycles};
use dj_report::PathFile;
use dj_resolution::{BaseNames, ClassTable, Linker, TableError};
use std::alloc::{AllocError, Global};

// The class of a class file.
fn declare_view(alloc: Global, view: &ClassView<'_>) -> Result<DeclaredClass, AllocError>
    requires { IsValid (class_of view.now) }
    ensures { IfOk result (λ class. class ≡ declared_class (class_of view.now)) }
{
    declare_file(alloc, view).map_err(|_| AllocError)
}

// The class that a file declares, or none where it is no class file.
fn declare_path_file(
    alloc: Global,
    file: &PathFile<'_>,
) -> Result<Option<DeclaredClass>, AllocError>
    requires { length file.now.bytes.now < 2 ^ 32 }
    ensures { IfOk result (IsDeclaredFrom file.now.bytes.now) }
{
    match view_file(alloc, file.bytes)? {
        FileView::Class(view) => Ok(Some(declare_view(alloc, &view)?)),
        FileView::Malformed => Ok(None),
    }
}

// The classes of the files, or none where one is no class file.
fn declare_files(
    alloc: Global,
    files: &[PathFile<'_>],
) -> Result<Option<Vec<DeclaredClass>>, AllocError>
    requires { All (λ file. length file.bytes.now < 2 ^ 32) files.now }
    ensures { IfOk result (λ declared. AreDeclaredOrNot (map path_file_view files.now) (option_map (λ classes. classes.items) declared)) }
{
    let mut declared = Vec::new(alloc);
    for file in files {
        match declare_path_file(alloc, file)? {
            Some(class) => declared.push(class)?,
            None => return Ok(None),
        }
    }
    Ok(Some(declared))
}

// The class of a library.
fn declare_row(alloc: Global, row: &LibClass) -> Result<DeclaredClass, AllocError>
    requires { All (λ m. IsDesc m.desc) row.now.methods }
    ensures { IfOk result (λ class. class ≡ row_class row.now) }
{
    declare_library_class(alloc, row).map_err(|_| AllocError)
}

// Appends the classes of a library.
fn add_rows(
    alloc: Global,
    declared: &mut Vec<DeclaredClass>,
    rows: &[LibClass],
) -> Result<(), AllocError>
    requires { All (λ row. All (λ m. IsDesc m.desc) row.methods) rows.now }
    ensures { OnOk result (declared.new.items ≡ declared.old.items ++ map row_class rows.now) }
{
    for row in rows {
        declared.push(declare_row(alloc, row)?)?;
    }
    Ok(())
}

// Appends the classes of the library.
fn add_library(
    alloc: Global,
    declared: &mut Vec<DeclaredClass>,
    library: &Library,
) -> Result<(), AllocError>
    requires { IsJudging (library_view library.now) }
    ensures { OnOk result (declared.new.items ≡ declared.old.items ++ map library_class (library_view library.now)) }
{
    add_rows(alloc, declared, library.as_slice())
}

/// How the classes of files are linked.
#[derive(Drop)]
pub enum Links {
    /// With one another and with those of the library.
    Linked(Linker),
    /// A file is no class file.
    NotClassFile,
    /// Two classes have one name.
    SharedName,
    /// A class is its own ancestor, by superclasses and listed interfaces together.
    Cycle,
}

// Links classes that are in order, none of which is its own ancestor.
fn link_acyclic(alloc: Global, table: ClassTable) -> Result<Links, AllocError>
    ensures { IfOk result (IsLinkOf table) }
{
    let linker = Linker::of(alloc, table, BaseNames::Plain).or(Err(AllocError))?;
    Ok(Links::Linked(linker))
}

// Links classes that are in order, unless one is its own ancestor: a look-up that walks upward needs an end.
fn link_table(alloc: Global, table: ClassTable) -> Result<Links, AllocError>
    requires { RiseStrictly table }
    ensures { IfOk result (IsLinkOf table) }
{
    match refuse_cycles(alloc, &table) {
        Ok(()) => link_acyclic(alloc, table),
        Err(LoadError::Cycle(_)) => Ok(Links::Cycle),
        Err(_) => Err(AllocError),
    }
}

// Links classes with those of the library.
fn link_classes(
    alloc: Global,
    declared: Vec<DeclaredClass>,
    library: &Library,
) -> Result<Links, AllocError>
    requires few { length declared.items ≤ most_files }
    requires library { IsJudging (library_view library.now) }
    ensures { IfOk result (AreLinksOf (library_view library.now) declared.items) }
{
    let mut all = declared;
    add_library(alloc, &mut all, library)?;
    match ClassTable::of(alloc, all) {
        Ok(table) => link_table(alloc, table),
        Err(TableError::Duplicate(_)) => Ok(Links::SharedName),
        Err(TableError::Memory) => Err(AllocError),
    }
}

/// Links the classes of the files and of the library.
pub fn link_files(
    alloc: Global,
    files: &[PathFile<'_>],
    library: &Library,
) -> Result<Links, AllocError>
    requires few { length files.now ≤ most_files }
    requires short { All (λ file. length file.bytes.now < 2 ^ 32) files.now }
    requires library { IsJudging (library_view library.now) }
    ensures { IfOk result (AreLinks (library_view library.now) (map path_file_view files.now)) }
{
    match declare_files(alloc, files)? {
        Some(declared) => link_classes(alloc, declared, library),
        None => Ok(Links::NotClassFile),
    }
}
