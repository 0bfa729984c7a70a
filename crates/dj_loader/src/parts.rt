//! What classes have beside what they declare.
ghost use Rattle.std.specs.Prelude.{◌≡◌, ◌<◌, length, map, All, IfOk, IfErr, IfSome};
ghost use Rattle.dj_class.specs.trusted.ClassFile.{IsValid};
ghost use Rattle.dj_class.specs.Views.{class_of};
ghost use Rattle.dj_early_rules.specs.trusted.Malformed.{HasFaultyMethod};
ghost use Rattle.dj_names.specs.trusted.Library.{Library};
ghost use Rattle.dj_class_table.specs.Tables.{methods_at, fields_at};
ghost use Rattle.dj_loader.specs.Filed.{AreBareParts, AreFirstParts, ArePartsFor};
ghost use Rattle.dj_loader.specs.Numbered.{IsMemory};
ghost use Rattle.dj_loader.specs.Parting.{ArePartsOf, IsTableOf};

use crate::error::LoadError;
use crate::file_parts::file_parts;
use crate::owners::{nones, owners_of};
use dj_class::ClassView;
use dj_class_table::ClassTable;
use dj_image::{ClassParts, OwnedPool};
use dj_pool::Pool;
use dj_shape_rule::pool_kinds;
use std::alloc::Global;

// The parts of a class that no file defines.
fn bare_parts(alloc: Global, table: &ClassTable, class: u32) -> Result<ClassParts, LoadError>
    requires { class < length table.now }
    ensures parts { IfOk result (AreBareParts (length (methods_at table.now class)) (length (fields_at table.now class))) }
    ensures memory { IfErr result IsMemory }
{
    let kinds = pool_kinds(alloc, &Pool::new(alloc))?;
    let codes = nones(alloc, table.method_count(class))?;
    let values = nones(alloc, table.field_count(class))?;
    Ok(ClassParts {
        pool: OwnedPool::new(alloc),
        kinds,
        codes,
        descs: Vec::new(alloc),
        values,
    })
}

// The parts of a class, which the file at the place defines, where there is one.
fn class_parts(
    alloc: Global,
    table: &ClassTable,
    views: &[ClassView<'_>],
    class: u32,
    owner: Option<usize>,
) -> Result<ClassParts, LoadError>
    requires valid { All (λ view. IsValid (class_of view)) views.now }
    requires coded { All (λ view. HasFaultyMethod (class_of view) → ⊥) views.now }
    requires there { class < length table.now }
    requires owner { IfSome owner (λ place. place < length views.now) }
    ensures parts { IfOk result (ArePartsFor table.now (map class_of views.now) class owner) }
    ensures memory { IfErr result IsMemory }
{
    match owner {
        Some(place) => file_parts(alloc, &views[place]),
        None => bare_parts(alloc, table, class),
    }
}

// The parts of the classes, by the files that define them.
fn owned_parts(
    alloc: Global,
    table: &ClassTable,
    views: &[ClassView<'_>],
    owners: &[Option<usize>],
) -> Result<Vec<ClassParts>, LoadError>
    requires valid { All (λ view. IsValid (class_of view)) views.now }
    requires coded { All (λ view. HasFaultyMethod (class_of view) → ⊥) views.now }
    requires many { length owners.now ≡ length table.now }
    requires owners { All (λ owner. IfSome owner (λ place. place < length views.now)) owners.now }
    ensures parts { IfOk result (λ parts. AreFirstParts table.now (map class_of views.now) owners.now (length table.now) parts.items) }
    ensures memory { IfErr result IsMemory }
{
    let mut parts = Vec::new(alloc);
    for class in 0..table.class_count() {
        let owner = owners[class as usize];
        parts.push(class_parts(alloc, table, views, class, owner)?)?;
    }
    Ok(parts)
}

/// The parts of the classes of a table, by their numbers: files' classes have what their files have, and a library's nothing.
pub fn parts_of(
    alloc: Global,
    table: &ClassTable,
    views: &[ClassView<'_>],
) -> Result<Vec<ClassParts>, LoadError>
    requires valid { All (λ view. IsValid (class_of view)) views.now }
    requires coded { All (λ view. HasFaultyMethod (class_of view) → ⊥) views.now }
    ensures parts { (library : Library) → IsTableOf library (map class_of views.now) table.now → IfOk result (λ parts. ArePartsOf library (map class_of views.now) table.now parts.items) }
    ensures memory { IfErr result IsMemory }
{
    let owners = owners_of(alloc, table, views)?;
    owned_parts(alloc, table, views, &owners)
}
