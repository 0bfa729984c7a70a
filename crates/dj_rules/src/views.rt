ghost use Rattle.std.specs.Prelude.{◌<◌, ◌^◌, length, IfOk};
ghost use Rattle.dj_class.specs.trusted.ClassFile.{IsClassFile};
ghost use Rattle.dj_class.specs.Views.{class_of};
ghost use Rattle.dj_file_rules.specs.Reads.{IsViewOf};
ghost use Rattle.dj_rules.specs.Late.{HasLent, IsReady};
ghost use Rattle.dj_rules.specs.Reported.{IsJudgedFile};

use crate::class::judge_class;
use crate::files::JudgedFiles;
use crate::lent::Lent;
use dj_class::ClassView;
use dj_early_rules::GoodFile;
use dj_file_rules::{FileView, view_file};
use dj_report::{PathFile, add_file_line};
use std::alloc::{AllocError, Global};

// The number of the rule MALFORMED.
const MALFORMED: u8 = 1;

// Appends all lines of a class file, and returns what is kept of it where it doesn't violate rule 1.
fn judge_class_file<'a>(
    alloc: Global,
    found: &mut JudgedFiles,
    lent: Option<Lent<'_, '_>>,
    file: &PathFile<'_>,
    class: &ClassView<'a>,
) -> Result<Option<GoodFile<'a>>, AllocError>
    requires lent { IsReady lent }
    requires class { IsClassFile file.now.bytes.now (class_of class.now) }
    ensures { IfOk result (IsJudgedFile file.now (HasLent lent.entry) found.old found.new) }
{
    let judged = judge_class(alloc, found, lent, file.path, class)?;
    match judged {
        Some(good) => Ok(Some(good)),
        None => {
            add_file_line(alloc, &mut found.early, file.path, MALFORMED)?;
            Ok(None)
        }
    }
}

// Appends all lines of a file that was read, and returns what is kept of it where it doesn't violate rule 1.
fn judge_view<'a>(
    alloc: Global,
    found: &mut JudgedFiles,
    lent: Option<Lent<'_, '_>>,
    file: &PathFile<'_>,
    view: &FileView<'a>,
) -> Result<Option<GoodFile<'a>>, AllocError>
    requires lent { IsReady lent }
    requires view { IsViewOf file.now.bytes.now view.now }
    ensures { IfOk result (IsJudgedFile file.now (HasLent lent.entry) found.old found.new) }
{
    match view {
        FileView::Class(class) => judge_class_file(alloc, found, lent, file, class),
        FileView::Malformed => {
            add_file_line(alloc, &mut found.early, file.path, MALFORMED)?;
            Ok(None)
        }
    }
}

/// Reads a file, appends all its lines, and returns what is kept of it where it doesn't violate rule 1.
pub fn judge_file<'a>(
    alloc: Global,
    found: &mut JudgedFiles,
    lent: Option<Lent<'_, '_>>,
    file: &PathFile<'a>,
) -> Result<Option<GoodFile<'a>>, AllocError>
    requires lent { IsReady lent }
    requires short { length file.now.bytes.now < 2 ^ 32 }
    ensures { IfOk result (IsJudgedFile file.now (HasLent lent.entry) found.old found.new) }
{
    let view = view_file(alloc, file.bytes)?;
    judge_view(alloc, found, lent, file, &view)
}
