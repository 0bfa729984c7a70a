//! Which file defines which class of a table.
ghost use Rattle.std.specs.Prelude.{◌≡◌, [], ◌∷◌, ◌++◌, length, map, replicate, List, IfOk, IfErr};
ghost use Rattle.dj_class.specs.trusted.ClassFile.{ClassFile};
ghost use Rattle.dj_class.specs.Views.{class_of};
ghost use Rattle.dj_loader.specs.Filed.{AreOwners};
ghost use Rattle.dj_loader.specs.Numbered.{IsMemory};

use crate::error::LoadError;
use dj_class::ClassView;
use dj_class_table::ClassTable;
use dj_early_rules::class_name;
use std::alloc::Global;

/// This many places, with nothing there.
pub fn nones<T: Drop>(alloc: Global, count: usize) -> Result<Vec<Option<T>>, LoadError>
    ensures nones { IfOk result (λ nones. nones.items ≡ replicate count None) }
    ensures memory { IfErr result IsMemory }
{
    let mut nones = Vec::new(alloc);
    for _ in 0..count {
        nones.push(None)?;
    }
    Ok(nones)
}

// Notes the place of a file at the class that it defines.
fn note_owner(owners: &mut [Option<usize>], table: &ClassTable, view: &ClassView<'_>, place: usize)
    requires { length owners.old ≡ length table.now }
    ensures { (files : List ClassFile) → length files ≡ place → AreOwners table.now files owners.old → AreOwners table.now (files ++ class_of view.now ∷ []) owners.new }
{
    let Some(class) = table.class_named(class_name(view)) else {
        return;
    };
    owners[class as usize] = Some(place);
}

/// For each class the place of the file that defines it, where one does. Each name is looked up once.
pub fn owners_of(
    alloc: Global,
    table: &ClassTable,
    views: &[ClassView<'_>],
) -> Result<Vec<Option<usize>>, LoadError>
    ensures owners { IfOk result (λ owners. AreOwners table.now (map class_of views.now) owners.items) }
    ensures memory { IfErr result IsMemory }
{
    let mut owners = nones(alloc, table.class_count() as usize)?;
    for (place, view) in views.iter().enumerate() {
        note_owner(&mut owners, table, view, place);
    }
    Ok(owners)
}
