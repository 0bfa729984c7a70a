ghost use Rattle.std.specs.Prelude.{◌≡◌, ◌≤◌, ◌<◌, ◌^◌, ℕ, List, length, map, true, false, All, IfOk};
ghost use Rattle.dj_names.specs.declared.run.Outcome.TheVariants.{Link};
ghost use Rattle.dj_report.specs.trusted.Stages.{IsDecided};
ghost use Rattle.dj_report.specs.trusted.Text.{report_status};
ghost use Rattle.dj_report.specs.declared.report.Report.TheVariants.{Later};
ghost use Rattle.dj_file_rules.specs.Views.{path_file_view};
ghost use Rattle.dj_straight.specs.trusted.Program.{has_initialiser};
ghost use Rattle.dj_straight.specs.Program.{HasNoFields};
ghost use Rattle.dj_straight.specs.trusted.Metered.{RunsTo};
ghost use Rattle.dj_straight.specs.Methods.{program_view};
ghost use Rattle.dj_straight.specs.trusted.Straight.{IsNotStraight};
ghost use Rattle.dj_straight.specs.Running.{IsStraightEnd, AreRunnable};
ghost use Rattle.dj_class_set.specs.trusted.Limits.{most_input_bytes};
ghost use Rattle.dj_class_set.specs.Limits.{IsWithinMost};
ghost use Rattle.dj_class_set.specs.trusted.Entry.{entry_method, has_entry};
ghost use Rattle.dj_class_set.specs.trusted.Judging.{IsFirstPath, run_stages};
ghost use Rattle.dj_class_set.specs.Shaped.{AreShaped};
ghost use Rattle.dj_class_set.specs.trusted.Statuses.{IsAmong};
ghost use Rattle.dj_class_set.specs.Statuses.{run_statuses};

use crate::class_set::ClassSet;
use crate::error::SandboxError;
use crate::run_rules::{entry_of, run_violations};
use dj_file_rules::judge_files;
use dj_names::{Name, Thresholds};
use dj_report::{PathFile, Report};
use dj_straight::{StraightEnding, StraightSet, run_method, straight_set};
use std::alloc::{AllocError, Global};

// The report LATER: the set whose first file has this path is not supported yet.
fn later(alloc: Global, path: &str) -> Result<Report, AllocError>
    ensures { IfOk result (λ report. report ≡ Later path.now) }
{
    Ok(Report::Later(Name::from_slice(alloc, path.as_bytes())?))
}

/// The report LATER on a set that isn't straight, with the path of its first file.
fn later_first(alloc: Global, files: &[PathFile<'_>]) -> Result<Report, AllocError>
    requires not_straight { IsNotStraight (map path_file_view files.now) }
    ensures { IfOk result (λ report. (path : List ℕ) × (report ≡ Later path) × IsFirstPath (map path_file_view files.now) path) }
{
    match files.first() {
        Some(file) => later(alloc, file.path),
        None => unreachable!(),
    }
}

/// Runs the method of the set.
fn run_entry(
    alloc: Global,
    set: &StraightSet,
    class: &[u8],
    input: &[u8],
    thresholds: Thresholds,
) -> Result<StraightEnding, AllocError>
    requires entry { has_entry (program_view set.now.class) class.now ≡ true }
    requires shaped { AreShaped set.now.class }
    requires runnable { AreRunnable set.now.class }
    requires input { length input.now ≤ most_input_bytes }
    requires thresholds { IsWithinMost thresholds }
    requires no_fields { HasNoFields (program_view set.now.class) }
    requires plain { (name : List ℕ) → has_initialiser (program_view set.now.class) name ≡ false }
    ensures runs { IfOk result (λ e. RunsTo (program_view set.now.class) (entry_method class.now) input.now thresholds e.outcome e.costs) }
    ensures kinds { IfOk result (λ e. IsStraightEnd e.outcome) }
    ensures linked { IfOk result (λ e. e.outcome ≡ Link → ⊥) }
{
    match entry_of(&set.class, class) {
        Some(method) => run_method(alloc, method, input, thresholds),
        None => unreachable!(),
    }
}

// The report on a run of the class of this name on the input, within the thresholds. Each file is under its path within the folder.
fn verify_files(
    alloc: Global,
    files: &[PathFile<'_>],
    class: &[u8],
    input: &[u8],
    thresholds: Thresholds,
) -> Result<Report, AllocError>
    requires short { All (λ file. length file.bytes.now < 2 ^ 32) files.now }
    requires input { length input.now ≤ most_input_bytes }
    requires thresholds { IsWithinMost thresholds }
    ensures decided { IfOk result (IsDecided (run_stages (map path_file_view files.now) class.now input.now thresholds)) }
    ensures status { IfOk result (λ report. IsAmong (report_status report) run_statuses) }
{
    let judged = judge_files(alloc, files)?;
    if !judged.violations.as_slice().is_empty() {
        return Ok(Report::Rejected(judged.violations));
    }
    let Some(set) = straight_set(alloc, files, judged.only)? else {
        return Ok(later_first(alloc, files)?);
    };
    let violations = run_violations(alloc, files, &set.class, class)?;
    if !violations.as_slice().is_empty() {
        return Ok(Report::Rejected(violations));
    }
    let ending = run_entry(alloc, &set, class, input, thresholds)?;
    Ok(Report::Costed {
        outcome: ending.outcome,
        costs: ending.costs,
    })
}

/// The report on a run of the class of this name on the input, within the thresholds.
pub fn verify(
    alloc: Global,
    set: &ClassSet,
    class: &[u8],
    input: &[u8],
    thresholds: Thresholds,
) -> Result<Report, SandboxError>
    requires input { length input.now ≤ most_input_bytes }
    requires thresholds { IsWithinMost thresholds }
    ensures decided { IfOk result (IsDecided (run_stages set.now class.now input.now thresholds)) }
    ensures status { IfOk result (λ report. IsAmong (report_status report) run_statuses) }
{
    let files = set.path_files(alloc)?;
    Ok(verify_files(alloc, &files, class, input, thresholds)?)
}
