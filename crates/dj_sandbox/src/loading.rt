//! The image of class files that were judged.
ghost use Rattle.std.specs.Prelude.{◌≡◌, ◌<◌, ◌^◌, [], length, map, All, IfOk};
ghost use Rattle.dj_names.specs.trusted.Library.{raw_library};
ghost use Rattle.dj_class.specs.trusted.ClassFile.{IsClassFile, IsMalformed, IsValid};
ghost use Rattle.dj_class.specs.Views.{class_of};
ghost use Rattle.dj_file_rules.specs.Views.{path_file_view};
ghost use Rattle.dj_early_rules.specs.trusted.Malformed.{HasFaultyMethod};
ghost use Rattle.dj_loader.specs.Parting.{IsTableOf};
ghost use Rattle.dj_program.specs.trusted.Programs.{IsProgramIn};
ghost use Rattle.dj_image.specs.Imaged.{program_of};
ghost use Rattle.dj_class_set.specs.Late.{AreReadFiles};

use dj_class::ClassView;
use dj_file_rules::{FileView, view_file};
use dj_loader::{Image, LoadError, image_from};
use dj_report::PathFile;
use dj_resolution::Linker;
use std::alloc::{AllocError, Global};

// Reads a class file.
fn view_path_file<'a>(alloc: Global, file: &PathFile<'a>) -> Result<ClassView<'a>, AllocError>
    requires short { length file.now.bytes.now < 2 ^ 32 }
    requires whole { IsMalformed file.now.bytes.now → ⊥ }
    ensures { IfOk result (λ view. IsClassFile file.now.bytes.now (class_of view)) }
{
    match view_file(alloc, file.bytes)? {
        FileView::Class(view) => Ok(view),
        FileView::Malformed => unreachable!(),
    }
}

/// Reads class files.
pub fn views_of<'a>(alloc: Global, files: &[PathFile<'a>]) -> Result<Vec<ClassView<'a>>, AllocError>
    requires short { All (λ file. length file.bytes.now < 2 ^ 32) files.now }
    requires whole { All (λ file. IsMalformed file.bytes.now → ⊥) files.now }
    ensures { IfOk result (λ views. AreReadFiles (map path_file_view files.now) (map class_of views.items)) }
{
    let mut views = Vec::new(alloc);
    for file in files {
        let view = view_path_file(alloc, file)?;
        views.push(view)?;
    }
    Ok(views)
}

/// The image of the program of class files and the raw library: a linker has the classes of both, in order and under their own names. They can be
/// loaded.
pub fn raw_image(
    alloc: Global,
    linker: Linker,
    views: &[ClassView<'_>],
) -> Result<Image, AllocError>
    requires valid { All (λ view. IsValid (class_of view)) views.now }
    requires coded { All (λ view. HasFaultyMethod (class_of view) → ⊥) views.now }
    requires table { IsTableOf raw_library (map class_of views.now) linker.program }
    requires plain { linker.prefix ≡ [] }
    ensures program { IfOk result (λ image. IsProgramIn raw_library (map class_of views.now) (program_of image)) }
    ensures prefix { IfOk result (λ image. image.prefix ≡ []) }
{
    match image_from(alloc, linker, views) {
        Ok(image) => Ok(image),
        Err(LoadError::Memory) => Err(AllocError),
        Err(LoadError::Duplicate(_)) => unreachable!(),
        Err(LoadError::NoSuper(_)) => unreachable!(),
        Err(LoadError::Cycle(_)) => unreachable!(),
    }
}
