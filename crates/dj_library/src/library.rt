ghost use Rattle.std.specs.Prelude.{◌≡◌, ◌∷◌, [], IfOk, map};
ghost use Rattle.dj_names.specs.trusted.Library.{deterministic_library, raw_library, stop_class};
ghost use Rattle.dj_names.specs.Library.{sandboxed_class, accounter_class, accounter_methods, below_object, sandbox_library};
ghost use Rattle.dj_library_types.specs.Views.{library_view};
ghost use Rattle.dj_library.specs.trusted.Heads.{head_of_library};
ghost use Rattle.dj_library.specs.TableRows.{class_in, head_view};

use crate::classes::{LibraryHead, add_classes, classes_of};
use crate::errors::LibraryError;
use crate::rows::{CLASSES, SANDBOX_CLASSES};
use crate::which::Which;
use dj_library_types::Library;
use std::alloc::Global;

/// The rows of all classes.
fn rows() -> &'static [LibraryHead]
    ensures deterministic { map (class_in Which.Deterministic) result.now ≡ deterministic_library }
    ensures raw { map (class_in Which.Raw) result.now ≡ raw_library }
    ensures sandboxed { map (class_in Which.Sandbox) result.now ≡ map sandboxed_class deterministic_library }
    ensures heads { map head_view result.now ≡ map head_of_library deterministic_library }
    ensures raw_heads { map head_view result.now ≡ map head_of_library raw_library }
{
    &CLASSES
}

/// The rows of the classes that rewritten code calls, or that stop it.
fn sandbox_rows() -> &'static [LibraryHead]
    ensures { map (class_in Which.Deterministic) result.now ≡ below_object accounter_class accounter_methods ∷ below_object stop_class [] ∷ [] }
{
    &SANDBOX_CLASSES
}

/// The library of a run whose every answer follows from its program and its input.
pub fn deterministic(alloc: Global) -> Result<Library, LibraryError>
    ensures { IfOk result (λ library. library_view library ≡ deterministic_library) }
{
    classes_of(alloc, Which::Deterministic, rows())
}

/// The library of a plain run, whose host answers.
pub fn raw(alloc: Global) -> Result<Library, LibraryError>
    ensures { IfOk result (λ library. library_view library ≡ raw_library) }
{
    classes_of(alloc, Which::Raw, rows())
}

/// The library of rewritten classes: the deterministic one in the package `sandbox`, the class whose methods count, and that of the object which stops a run.
pub fn sandboxed(alloc: Global) -> Result<Library, LibraryError>
    ensures { IfOk result (λ library. library_view library ≡ sandbox_library) }
{
    let mut library = classes_of(alloc, Which::Sandbox, rows())?;
    add_classes(alloc, Which::Deterministic, sandbox_rows(), &mut library)?;
    Ok(library)
}

/// The name, the superclass, the flags and the interfaces of each class of the two libraries.
pub fn heads() -> &'static [LibraryHead]
    ensures deterministic { map head_view result.now ≡ map head_of_library deterministic_library }
    ensures raw { map head_view result.now ≡ map head_of_library raw_library }
{
    rows()
}
