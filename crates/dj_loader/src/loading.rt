ghost use Rattle.std.specs.Prelude.{◌≡◌, ◌+◌, ◌^◌, ◌<◌, [], List, length, map, All, IfOk, IfErr};
ghost use Rattle.dj_names.specs.trusted.Descriptors.{IsDesc};
ghost use Rattle.dj_names.specs.trusted.Library.{LibraryClass};
ghost use Rattle.dj_class.specs.trusted.ClassFile.{IsValid};
ghost use Rattle.dj_class.specs.Views.{class_of};
ghost use Rattle.dj_library_types.specs.Views.{library_view};
ghost use Rattle.dj_model.specs.trusted.Libraries.{joined};
ghost use Rattle.dj_early_rules.specs.trusted.Malformed.{HasFaultyMethod};
ghost use Rattle.dj_resolution.specs.Linked.{prefix_of};
ghost use Rattle.dj_program.specs.trusted.Programs.{IsProgramIn};
ghost use Rattle.dj_image.specs.Imaged.{program_of, IsNumbered};
ghost use Rattle.dj_image.specs.Parts.{HasString};
ghost use Rattle.dj_loader.specs.Loads.{all_classes, AreFewMembers, HasStringIn, IsLoadable, RefusesLoad};
ghost use Rattle.dj_loader.specs.Numbered.{IsMemory};
ghost use Rattle.dj_loader.specs.Parting.{IsTableOf};

use crate::cycles::refuse_cycles;
use crate::declaring::{declare_all, table_of};
use crate::error::LoadError;
use crate::lacking::refuse_lacking;
use crate::parts::parts_of;
use dj_class::ClassView;
use dj_class_table::ClassTable;
use dj_image::{BaseNames, Image, Linker, image_of};
use dj_library_types::Library;
use std::alloc::Global;

// The classes in the order of their names, where they can be loaded.
fn whole_table(
    alloc: Global,
    views: &[ClassView<'_>],
    library: &Library,
) -> Result<ClassTable, LoadError>
    requires valid { All (λ view. IsValid (class_of view)) views.now }
    requires described { All (λ row. All (λ m. IsDesc m.desc) row.methods) library.now }
    ensures table { IfOk result (λ table. table ≡ joined (all_classes (library_view library.now) (map class_of views.now)) []) }
    ensures loadable { IfOk result (λ _. IsLoadable (all_classes (library_view library.now) (map class_of views.now))) }
    ensures refused { IfErr result (RefusesLoad (all_classes (library_view library.now) (map class_of views.now))) }
{
    let classes = declare_all(alloc, views, library)?;
    let table = table_of(alloc, classes)?;
    refuse_lacking(alloc, &table)?;
    refuse_cycles(alloc, &table)?;
    Ok(table)
}

// Links classes that are in order.
fn link(alloc: Global, table: ClassTable, base: BaseNames) -> Result<Linker, LoadError>
    ensures linked { IfOk result (λ linker. linker ≡ record { program = table; prefix = prefix_of base }) }
    ensures memory { IfErr result IsMemory }
{
    Linker::of(alloc, table, base).or(Err(LoadError::Memory))
}

/// The image of the program of class files and a library: a linker has the classes of both, in order, and they get their parts. They can be loaded,
/// the class String is among them, and no method's code is faulty.
pub fn image_from(
    alloc: Global,
    linker: Linker,
    views: &[ClassView<'_>],
) -> Result<Image, LoadError>
    requires valid { All (λ view. IsValid (class_of view)) views.now }
    requires coded { All (λ view. HasFaultyMethod (class_of view) → ⊥) views.now }
    requires fits { (library : List LibraryClass) × IsTableOf library (map class_of views.now) linker.program }
    requires string { HasString linker.program linker.prefix }
    ensures program { (library : List LibraryClass) → IsTableOf library (map class_of views.now) linker.program → IfOk result (λ image. IsProgramIn library (map class_of views.now) (program_of image)) }
    ensures prefix { IfOk result (λ image. image.prefix ≡ linker.prefix) }
    ensures numbered { IfOk result IsNumbered }
    ensures memory { IfErr result IsMemory }
{
    let parts = parts_of(alloc, linker.classes(), views)?;
    Ok(image_of(alloc, linker, parts)?)
}

/// The image of the program of class files and a library, whose names begin with this prefix and which has the class String. No method's code is
/// faulty. Names that classes share are reported first, then classes whose superclass or interface is absent, then cycles. There is no memory for 2^31 classes and more.
pub fn load(
    alloc: Global,
    views: &[ClassView<'_>],
    library: &Library,
    base: BaseNames,
) -> Result<Image, LoadError>
    requires valid { All (λ view. IsValid (class_of view)) views.now }
    requires coded { All (λ view. HasFaultyMethod (class_of view) → ⊥) views.now }
    requires described { All (λ row. All (λ m. IsDesc m.desc) row.methods) library.now }
    requires few { length views.now + length library.now < 2 ^ 32 }
    requires few_members { AreFewMembers (all_classes (library_view library.now) (map class_of views.now)) }
    requires string { HasStringIn (library_view library.now) base }
    ensures program { IfOk result (λ image. IsProgramIn (library_view library.now) (map class_of views.now) (program_of image)) }
    ensures prefix { IfOk result (λ image. image.prefix ≡ prefix_of base) }
    ensures numbered { IfOk result IsNumbered }
    ensures loadable { IfOk result (λ _. IsLoadable (all_classes (library_view library.now) (map class_of views.now))) }
    ensures refused { IfErr result (RefusesLoad (all_classes (library_view library.now) (map class_of views.now))) }
{
    let table = whole_table(alloc, views, library)?;
    let linker = link(alloc, table, base)?;
    image_from(alloc, linker, views)
}
