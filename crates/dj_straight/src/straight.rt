ghost use Rattle.std.specs.Prelude.{◌≡◌, ◌↔◌, [], Some, map, IsTrue, IfOk, IfSome, MatchOption};
ghost use Rattle.dj_pool.specs.trusted.Pool.{class_name_at};
ghost use Rattle.dj_class.specs.trusted.ClassFile.{IsValid};
ghost use Rattle.dj_class.specs.Views.{class_of};
ghost use Rattle.dj_straight.specs.trusted.Methods.{object_name};
ghost use Rattle.dj_straight.specs.Methods.{class_view, program_view};
ghost use Rattle.dj_straight.specs.Running.{AreRunnable};
ghost use Rattle.dj_straight.specs.trusted.Straight.{is_reserved, IsPlainClass, IsStraightClass, IsStraightFile, IsNotStraight, IsStraightSet};
ghost use Rattle.dj_file_rules.specs.Reads.{IsViewOf, IsOnlyView};
ghost use Rattle.dj_file_rules.specs.trusted.Violations.{this_name};
ghost use Rattle.dj_file_rules.specs.Views.{path_file_view};
ghost use Rattle.dj_straight.specs.Finds.{Finds};

mod code;
mod method;

use crate::program::StraightClass;
use dj_class::ClassView;
use dj_file_rules::FileView;
use dj_names::Name;
use dj_report::PathFile;
use method::distinct_methods;
use std::alloc::{AllocError, Global};

/// The class of a straight set, or none where there are no files.
#[derive(Drop)]
pub struct StraightSet {
    pub class: Option<StraightClass>,
}

// Whether the name is of a package that is not the files' own.
fn is_reserved(name: &[u8]) -> bool
    ensures { result ≡ is_reserved name.now }
{
    name.starts_with(b"sandbox/") || name.starts_with(b"java/") || name.starts_with(b"javax/")
}

fn class_name<'a>(view: &ClassView<'a>) -> &'a [u8]
    ensures { result.now ≡ this_name (class_of view.now) }
{
    view.pool.class_name(view.this_class).unwrap_or(b"")
}

fn extends_object(view: &ClassView<'_>) -> bool
    ensures { IsTrue result ↔ (class_name_at view.now.pool view.now.super_class ≡ Some object_name) }
{
    match view.pool.class_name(view.super_class) {
        Some(name) => name == b"java/lang/Object".as_slice(),
        None => false,
    }
}

fn is_alone(view: &ClassView<'_>) -> bool
    ensures { IsTrue result ↔ ((view.now.interfaces ≡ []) × (view.now.fields ≡ [])) }
{
    view.interfaces.as_slice().is_empty() && view.fields.as_slice().is_empty()
}

// Whether the class is straight as far as its methods aren't looked at.
fn is_plain_class(view: &ClassView<'_>) -> bool
    ensures { IsTrue result ↔ IsPlainClass (class_of view.now) }
{
    !view.access().is_interface()
        && !is_reserved(class_name(view))
        && extends_object(view)
        && is_alone(view)
}

// The straight class that the class of the file is.
fn straight_class(alloc: Global, view: &ClassView<'_>) -> Result<Option<StraightClass>, AllocError>
    requires { IsValid (class_of view.now) }
    ensures { IfOk result (Finds class_view (IsStraightClass (class_of view.now))) }
{
    if !is_plain_class(view) {
        return Ok(None);
    }
    match distinct_methods(alloc, &view.pool, view.methods.as_slice())? {
        Some(methods) => Ok(Some(StraightClass {
            name: Name::from_slice(alloc, class_name(view))?,
            flags: view.flags,
            methods,
        })),
        None => Ok(None),
    }
}

// The straight class of the file that this view shows.
fn class_of_file(
    alloc: Global,
    file: &PathFile<'_>,
    view: &FileView<'_>,
) -> Result<Option<StraightClass>, AllocError>
    requires { IsViewOf file.now.bytes.now view.now }
    ensures { IfOk result (Finds class_view (IsStraightFile file.now.bytes.now)) }
{
    match view {
        FileView::Class(class) => straight_class(alloc, class),
        FileView::Malformed => Ok(None),
    }
}

// The straight set that the files are, or none.
fn set_of(
    alloc: Global,
    files: &[PathFile<'_>],
    only: &Option<FileView<'_>>,
) -> Result<Option<StraightSet>, AllocError>
    requires { IsOnlyView (map path_file_view files.now) only.now }
    ensures straight { IfOk result (λ found. MatchOption found
        (IsNotStraight (map path_file_view files.now))
        (λ set. IsStraightSet (map path_file_view files.now) (program_view set.class))) }
    ensures runnable { IfOk result (λ found. IfSome found (λ set. AreRunnable set.class)) }
{
    match files {
        [] => Ok(Some(StraightSet { class: None })),
        [file] => match only {
            Some(view) => match class_of_file(alloc, file, view)? {
                Some(class) => Ok(Some(StraightSet { class: Some(class) })),
                None => Ok(None),
            },
            None => unreachable!(),
        },
        _ => Ok(None),
    }
}

/// The straight set that the files are, or none. The view is that of the file where it is the only one, and is dropped.
pub fn straight_set(
    alloc: Global,
    files: &[PathFile<'_>],
    only: Option<FileView<'_>>,
) -> Result<Option<StraightSet>, AllocError>
    requires { IsOnlyView (map path_file_view files.now) only }
    ensures straight { IfOk result (λ found. MatchOption found
        (IsNotStraight (map path_file_view files.now))
        (λ set. IsStraightSet (map path_file_view files.now) (program_view set.class))) }
    ensures runnable { IfOk result (λ found. IfSome found (λ set. AreRunnable set.class)) }
{
    set_of(alloc, files, &only)
}
