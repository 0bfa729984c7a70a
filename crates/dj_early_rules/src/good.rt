ghost use Rattle.std.specs.Prelude.{IfOk};
ghost use Rattle.dj_class.specs.trusted.ClassFile.{IsValid};
ghost use Rattle.dj_class.specs.Views.{class_of};
ghost use Rattle.dj_early_rules.specs.Judged.{AreTexts, AreNumbered};
ghost use Rattle.dj_early_rules.specs.Passes.{IsGoodPart};

use crate::heads::class_head;
use crate::judged::JudgedText;
use crate::repeats::has_repeats;
use dj_class::ClassView;
use dj_hierarchy_rule::ClassHead;
use std::alloc::{AllocError, Global};

/// What is kept of a class file that doesn't violate rule 1.
#[derive(Drop)]
pub struct GoodFile<'a> {
    /// The head of its class.
    pub head: ClassHead<'a>,
    /// Whether two of its fields or two of its methods have the same name and the same descriptor.
    pub repeats: bool,
}

/// What is kept of a class file.
pub fn good_file<'a>(
    alloc: Global,
    view: &ClassView<'a>,
    texts: &[JudgedText],
) -> Result<GoodFile<'a>, AllocError>
    requires texts { AreTexts view.now.pool texts.now }
    requires numbered { AreNumbered (class_of view.now) texts.now }
    requires valid { IsValid (class_of view.now) }
    ensures { IfOk result (IsGoodPart (class_of view.now)) }
{
    Ok(GoodFile {
        head: class_head(alloc, view, texts)?,
        repeats: has_repeats(alloc, view, texts)?,
    })
}
