ghost use Rattle.std.specs.Prelude.{◌≡◌, ◌<◌, ◌^◌, length, map, All, IfOk, OnOk};
ghost use Rattle.dj_report.specs.Lines.{Adds};
ghost use Rattle.dj_file_rules.specs.Reads.{IsViewOf};
ghost use Rattle.dj_file_rules.specs.trusted.Violations.{AreViolations, IsLineOf};
ghost use Rattle.dj_file_rules.specs.Views.{path_file_view};

use crate::error::RulesError;
use crate::view::{FileView, view_file};
use crate::whole::add_class_lines;
use dj_report::{PathFile, Violation, Violations, add_file_line, add_in_order, in_order};
use std::alloc::Global;

// The number of the rule MALFORMED.
const MALFORMED: u8 = 1;

/// Appends all lines of a file that was read.
pub(crate) fn add_file_lines(
    alloc: Global,
    found: &mut Vec<Violation>,
    file: &PathFile<'_>,
    view: &FileView<'_>,
) -> Result<(), RulesError>
    requires { IsViewOf file.now.bytes.now view.now }
    ensures { OnOk result (Adds (IsLineOf (path_file_view file.now)) found.old.items found.new.items) }
{
    match view {
        FileView::Class(class) => add_class_lines(alloc, found, file.path, class),
        FileView::Malformed => {
            add_file_line(alloc, found, file.path, MALFORMED)?;
            Ok(())
        }
    }
}

/// The same, with the lines sorted among themselves. So all lines are in order where the files are.
pub(crate) fn add_sorted_lines(
    alloc: Global,
    found: &mut Vec<Violation>,
    file: &PathFile<'_>,
    view: &FileView<'_>,
) -> Result<(), RulesError>
    requires { IsViewOf file.now.bytes.now view.now }
    ensures { OnOk result (Adds (IsLineOf (path_file_view file.now)) found.old.items found.new.items) }
{
    let mut lines = Vec::new(alloc);
    add_file_lines(alloc, &mut lines, file, view)?;
    add_in_order(found, lines)?;
    Ok(())
}

/// All violations of the rules MALFORMED, VERSION, NAME, NATIVE and FINALIZER by the files, in order, each once.
pub fn rules(alloc: Global, files: &[PathFile<'_>]) -> Result<Violations, RulesError>
    requires { All (λ file. length file.bytes.now < 2 ^ 32) files.now }
    ensures { IfOk result (AreViolations (map path_file_view files.now)) }
{
    let mut found = Vec::new(alloc);
    for file in files {
        let view = view_file(alloc, file.bytes)?;
        add_sorted_lines(alloc, &mut found, file, &view)?;
    }
    Ok(in_order(found))
}
