ghost use Rattle.std.specs.Prelude.{◌≡◌, [], ◌<◌, ◌^◌, length, OnOk, unwrap_or};
ghost use Rattle.dj_class.specs.trusted.ClassFile.{IsValid};
ghost use Rattle.dj_class.specs.Views.{class_of};
ghost use Rattle.dj_report.specs.Lines.{Adds};
ghost use Rattle.dj_file_rules.specs.Reads.{IsViewOf};
ghost use Rattle.dj_file_rules.specs.Views.{path_file_view};
ghost use Rattle.dj_file_rules.specs.trusted.Violations.{this_name};
ghost use Rattle.dj_early_rules.specs.trusted.Malformed.{IsFaulty, IsRefused};
ghost use Rattle.dj_early_rules.specs.trusted.Rules.{IsMemberLine};
ghost use Rattle.dj_link_rules.specs.trusted.Lines.{MethodLinkViolates, IsFileLinkLine};
ghost use Rattle.dj_link_rules.specs.Known.{AreUnmakeable};
ghost use Rattle.dj_link_rules.specs.Constants.{IsDirectoryOf};

use crate::above::classes_above;
use crate::constants::judge_constants;
use crate::error::LinkError;
use crate::known::Known;
use crate::methods::add_method_marks;
use dj_class::ClassView;
use dj_early_rules::{Mark, add_mark_lines, judge_texts};
use dj_file_rules::{FileView, view_file};
use dj_member_index::Directory;
use dj_report::{PathFile, Violation, add_in_order};
use dj_resolution::Linker;
use std::alloc::Global;

// The class's name.
fn own_name<'a>(view: &ClassView<'a>) -> &'a [u8]
    ensures { result.now ≡ this_name (class_of view.now) }
{
    view.pool.class_name(view.this_class).unwrap_or(b"")
}

// Appends all lines of a class file that has no faulty part.
fn add_class_lines(
    alloc: Global,
    found: &mut Vec<Violation>,
    linker: &Linker,
    directory: Option<&Directory<'_>>,
    unmakeable: &[bool],
    path: &str,
    view: &ClassView<'_>,
) -> Result<(), LinkError>
    requires plain { linker.now.prefix ≡ [] }
    requires same { IsDirectoryOf linker.now.program directory }
    requires unmakeable { AreUnmakeable linker.now.program unmakeable.now }
    requires valid { IsValid (class_of view.now) }
    requires whole { IsFaulty (class_of view.now) → ⊥ }
    ensures { OnOk result (Adds (IsMemberLine (MethodLinkViolates linker.now.program (class_of view.now)) (class_of view.now).methods path.now (class_of view.now)) found.old.items found.new.items) }
{
    let texts = judge_texts(alloc, view)?;
    let kept = judge_constants(alloc, linker, directory, &view.pool)?;
    let known = Known {
        table: linker.classes(),
        unmakeable,
        own: classes_above(linker, own_name(view)),
        kept: &kept,
    };
    let mut marks = Vec::new(alloc);
    add_method_marks(alloc, &mut marks, view, &texts, &known)?;
    add_mark_lines(alloc, found, path, &view.pool, marks)?;
    Ok(())
}

// Appends all lines of a file that was read.
fn add_view_lines(
    alloc: Global,
    found: &mut Vec<Violation>,
    linker: &Linker,
    directory: Option<&Directory<'_>>,
    unmakeable: &[bool],
    file: &PathFile<'_>,
    view: &FileView<'_>,
) -> Result<(), LinkError>
    requires plain { linker.now.prefix ≡ [] }
    requires same { IsDirectoryOf linker.now.program directory }
    requires unmakeable { AreUnmakeable linker.now.program unmakeable.now }
    requires view { IsViewOf file.now.bytes.now view.now }
    requires whole { IsRefused file.now.bytes.now → ⊥ }
    ensures { OnOk result (Adds (IsFileLinkLine linker.now.program (path_file_view file.now)) found.old.items found.new.items) }
{
    match view {
        FileView::Class(class) => {
            add_class_lines(
                alloc, found, linker, directory, unmakeable, file.path, class,
            )
        }
        FileView::Malformed => unreachable!(),
    }
}

/// Appends all lines of a file, sorted among themselves. So all lines are in order where the files are.
pub fn add_file_lines(
    alloc: Global,
    found: &mut Vec<Violation>,
    linker: &Linker,
    directory: Option<&Directory<'_>>,
    unmakeable: &[bool],
    file: &PathFile<'_>,
) -> Result<(), LinkError>
    requires plain { linker.now.prefix ≡ [] }
    requires same { IsDirectoryOf linker.now.program directory }
    requires unmakeable { AreUnmakeable linker.now.program unmakeable.now }
    requires short { length file.now.bytes.now < 2 ^ 32 }
    requires whole { IsRefused file.now.bytes.now → ⊥ }
    ensures { OnOk result (Adds (IsFileLinkLine linker.now.program (path_file_view file.now)) found.old.items found.new.items) }
{
    let view = view_file(alloc, file.bytes)?;
    let mut lines = Vec::new(alloc);
    add_view_lines(
        alloc, &mut lines, linker, directory, unmakeable, file, &view,
    )?;
    add_in_order(found, lines)?;
    Ok(())
}
