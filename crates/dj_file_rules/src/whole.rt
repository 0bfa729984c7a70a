ghost use Rattle.std.specs.Prelude.{◌≡◌, ◌↔◌, ◌<◌, ◌^◌, length, IsTrue, OnOk};
ghost use Rattle.dj_report.specs.declared.report.Violation.{Violation};
ghost use Rattle.dj_class.specs.Views.{class_of};
ghost use Rattle.dj_report.specs.trusted.Lines.{file_line};
ghost use Rattle.dj_report.specs.Lines.{Adds};
ghost use Rattle.dj_file_rules.specs.trusted.Violations.{this_name, HasOtherVersion, IsNamedAs, IsClassLine};

use crate::error::RulesError;
use crate::members::{add_finalizer_lines, add_native_lines};
use crate::named::is_named_as;
use dj_class::ClassView;
use dj_report::{Violation, add_file_line};
use std::alloc::Global;

// The numbers of the rules VERSION and NAME.
const VERSION: u8 = 2;

const NAME: u8 = 3;

fn has_other_version(view: &ClassView<'_>) -> bool
    ensures { IsTrue result ↔ HasOtherVersion (class_of view.now) }
{
    view.major < 50 || 52 < view.major
}

fn add_version_lines(
    alloc: Global,
    found: &mut Vec<Violation>,
    path: &str,
    view: &ClassView<'_>,
) -> Result<(), RulesError>
    ensures { OnOk result (Adds (λ v. HasOtherVersion (class_of view.now) × (v ≡ file_line path.now 2))
        found.old.items found.new.items) }
{
    if !has_other_version(view) {
        return Ok(());
    }
    add_file_line(alloc, found, path, VERSION)?;
    Ok(())
}

fn class_name<'a>(view: &ClassView<'a>) -> &'a [u8]
    ensures { result.now ≡ this_name (class_of view.now) }
{
    view.pool.class_name(view.this_class).unwrap_or(b"")
}

fn add_name_lines(
    alloc: Global,
    found: &mut Vec<Violation>,
    path: &str,
    view: &ClassView<'_>,
) -> Result<(), RulesError>
    requires { length (this_name (class_of view.now)) < 2 ^ 32 }
    ensures { OnOk result (Adds
        (λ v. (IsNamedAs path.now (this_name (class_of view.now)) → ⊥) × (v ≡ file_line path.now 3))
        found.old.items found.new.items) }
{
    if is_named_as(alloc, path, class_name(view))? {
        return Ok(());
    }
    add_file_line(alloc, found, path, NAME)?;
    Ok(())
}

/// Appends the lines of a file that is this class file.
pub fn add_class_lines(
    alloc: Global,
    found: &mut Vec<Violation>,
    path: &str,
    view: &ClassView<'_>,
) -> Result<(), RulesError>
    requires { length (this_name (class_of view.now)) < 2 ^ 32 }
    ensures { OnOk result (Adds (IsClassLine path.now (class_of view.now)) found.old.items found.new.items) }
{
    add_version_lines(alloc, found, path, view)?;
    add_name_lines(alloc, found, path, view)?;
    add_native_lines(alloc, found, path, view)?;
    add_finalizer_lines(alloc, found, path, view)
}
