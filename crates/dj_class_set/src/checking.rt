ghost use Rattle.std.specs.Prelude.{◌<◌, ◌≤◌, ◌^◌, length, map, All, IfOk};
ghost use Rattle.dj_report.specs.trusted.Stages.{IsDecided};
ghost use Rattle.dj_report.specs.trusted.Text.{report_status};
ghost use Rattle.dj_file_rules.specs.Views.{path_file_view};
ghost use Rattle.dj_class_set.specs.trusted.Checked.{AreCheckViolations};
ghost use Rattle.dj_class_set.specs.trusted.Judging.{check_stages};
ghost use Rattle.dj_class_set.specs.trusted.Limits.{most_files};
ghost use Rattle.dj_class_set.specs.trusted.Statuses.{IsAmong};
ghost use Rattle.dj_class_set.specs.Statuses.{check_statuses};

use crate::class_set::ClassSet;
use crate::error::SandboxError;
use crate::judging::judge_set;
use dj_library::deterministic;
use dj_report::{PathFile, Report, Violations, in_order};
use std::alloc::{AllocError, Global};

// All violations that `check` reports, in order, each once.
fn check_violations(alloc: Global, files: &[PathFile<'_>]) -> Result<Violations, AllocError>
    requires few { length files.now ≤ most_files }
    requires short { All (λ file. length file.bytes.now < 2 ^ 32) files.now }
    ensures { IfOk result (AreCheckViolations (map path_file_view files.now)) }
{
    let library = deterministic(alloc).map_err(|_| AllocError)?;
    let judged = judge_set(alloc, files, &library)?;
    Ok(in_order(judged.found))
}

// The report on class files, each under its path within the folder.
fn check_files(alloc: Global, files: &[PathFile<'_>]) -> Result<Report, AllocError>
    requires few { length files.now ≤ most_files }
    requires short { All (λ file. length file.bytes.now < 2 ^ 32) files.now }
    ensures decided { IfOk result (IsDecided (check_stages (map path_file_view files.now))) }
    ensures status { IfOk result (λ report. IsAmong (report_status report) check_statuses) }
{
    let violations = check_violations(alloc, files)?;
    if !violations.as_slice().is_empty() {
        return Ok(Report::Rejected(violations));
    }
    Ok(Report::Accepted(files.len() as u32))
}

/// The report on a set of class files.
pub fn check(alloc: Global, set: &ClassSet) -> Result<Report, SandboxError>
    ensures decided { IfOk result (IsDecided (check_stages set.now)) }
    ensures status { IfOk result (λ report. IsAmong (report_status report) check_statuses) }
{
    let files = set.path_files(alloc)?;
    Ok(check_files(alloc, &files)?)
}
