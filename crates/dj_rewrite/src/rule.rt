//! Rule 21 over classes.
ghost use Rattle.std.specs.Prelude.{map, All, IfOk};
ghost use Rattle.dj_class.specs.Views.{class_of};
ghost use Rattle.dj_report.specs.trusted.Lines.{AreExactly};
ghost use Rattle.dj_image.specs.Imaged.{program_of};
ghost use Rattle.dj_rewrite.specs.Answers.{IsKnownClass};
ghost use Rattle.dj_rewrite.specs.Rule.{IsTooLargeLine};

use crate::error::RewriteError;
use crate::lines::add_lines;
use dj_class::ClassView;
use dj_image::Image;
use dj_report::{Violations, in_order};
use std::alloc::Global;

/// The violations of rule 21, TOO_LARGE, by classes that violate no other rule, and of whose files and the library this is the image: in order, each once.
pub fn too_large(
    alloc: Global,
    image: &Image,
    views: &[ClassView<'_>],
) -> Result<Violations, RewriteError>
    requires { All (λ view. IsKnownClass (program_of image.now) (class_of view)) views.now }
    ensures { IfOk result (AreExactly (IsTooLargeLine (program_of image.now) (map class_of views.now))) }
{
    let mut found = Vec::new(alloc);
    for view in views {
        add_lines(alloc, image, &mut found, view)?;
    }
    Ok(in_order(found))
}
