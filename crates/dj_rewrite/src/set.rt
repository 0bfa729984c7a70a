//! The class files of a set.
ghost use Rattle.std.specs.Prelude.{◌≡◌, ◌<◌, ◌∷◌, [], ◌++◌, List, length, map, All, IfOk};
ghost use Rattle.dj_class.specs.trusted.ClassFile.{ClassFile};
ghost use Rattle.dj_class.specs.trusted.Names.{this_name};
ghost use Rattle.dj_class.specs.Views.{class_of};
ghost use Rattle.dj_model.specs.trusted.Program.{Program};
ghost use Rattle.dj_image.specs.Imaged.{program_of};
ghost use Rattle.dj_rewrite.specs.Answers.{IsKnownClass, WritesFile, AreTooLarge};
ghost use Rattle.dj_rewrite.specs.Sets.{AnswersSet};
ghost use Rattle.dj_rewrite.specs.Steps.{IsProgress, IsLeastPart};

use crate::error::RewriteError;
use crate::file::{FileAnswer, rewrite_file};
use crate::least::{Part, least_text, lesser};
use crate::rewritten::{Rewritten, RewrittenFile};
use dj_class::ClassView;
use dj_early_rules::class_name;
use dj_image::Image;
use dj_names::{Bytes, Name};
use std::alloc::{AllocError, Global};

// What became of the classes so far: the files, and the least of what doesn't fit.
#[derive(Drop)]
struct Progress {
    files: Vec<RewrittenFile>,
    least: Option<Part>,
}

// The name of the class that a file defines.
fn name_of(alloc: Global, view: &ClassView<'_>) -> Result<Name, AllocError>
    ensures { IfOk result (λ name. name ≡ this_name (class_of view.now)) }
{
    Name::from_slice(alloc, class_name(view))
}

// The least of a class's members that don't fit, of which there are some.
fn least_part(alloc: Global, view: &ClassView<'_>, members: &[Name]) -> Result<Part, AllocError>
    requires { 0 < length members.now }
    ensures { IfOk result (IsLeastPart (this_name (class_of view.now)) members.now) }
{
    let least = least_text(members);
    let class = name_of(alloc, view)?;
    let member = Name::from_slice(alloc, least.as_slice())?;
    Ok(Part { class, member })
}

// With the file of one class more.
fn with_file(
    alloc: Global,
    before: Progress,
    view: &ClassView<'_>,
    bytes: Bytes,
) -> Result<Progress, AllocError>
    ensures { IfOk result (λ now. (program : Program) (done : List ClassFile) → WritesFile program (class_of view.now) bytes → IsProgress program done before → IsProgress program (done ++ class_of view.now ∷ []) now) }
{
    let Progress { mut files, least } = before;
    let name = name_of(alloc, view)?;
    files.push(RewrittenFile { name, bytes })?;
    Ok(Progress { files, least })
}

// With what of one class more doesn't fit.
fn with_large(
    alloc: Global,
    before: Progress,
    view: &ClassView<'_>,
    members: &[Name],
) -> Result<Progress, AllocError>
    requires { 0 < length members.now }
    ensures { IfOk result (λ now. (program : Program) (done : List ClassFile) → AreTooLarge program (class_of view.now) members.now → IsProgress program done before → IsProgress program (done ++ class_of view.now ∷ []) now) }
{
    let Progress { files, least } = before;
    let part = least_part(alloc, view, members)?;
    let least = lesser(least, part);
    Ok(Progress {
        files,
        least: Some(least),
    })
}

// Rewrites one class more.
fn advanced(
    alloc: Global,
    image: &Image,
    before: Progress,
    view: &ClassView<'_>,
) -> Result<Progress, AllocError>
    requires { IsKnownClass (program_of image.now) (class_of view.now) }
    ensures { IfOk result (λ now. (done : List ClassFile) → IsProgress (program_of image.now) done before → IsProgress (program_of image.now) (done ++ class_of view.now ∷ []) now) }
{
    let answer = rewrite_file(alloc, image, view)?;
    match answer {
        FileAnswer::Written(bytes) => with_file(alloc, before, view, bytes),
        FileAnswer::TooLarge(members) => with_large(alloc, before, view, &members),
    }
}

/// The rewritten class files of classes that violate no other rule, and of whose files and the library this is the image.
pub fn rewrite(
    alloc: Global,
    image: &Image,
    views: &[ClassView<'_>],
) -> Result<Rewritten, RewriteError>
    requires { All (λ view. IsKnownClass (program_of image.now) (class_of view)) views.now }
    ensures { AnswersSet (program_of image.now) (map class_of views.now) result }
{
    let mut progress = Progress {
        files: Vec::new(alloc),
        least: None,
    };
    for view in views {
        progress = advanced(alloc, image, progress, view)?;
    }
    let Progress { files, least } = progress;
    match least {
        None => Ok(Rewritten::in_order(files)),
        Some(Part { class, member }) => Err(RewriteError::TooLarge { class, member }),
    }
}
