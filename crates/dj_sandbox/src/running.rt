//! Runs of `raw`: files are judged, and the entry of one of their classes is run.
ghost use Rattle.std.specs.Prelude.{◌≡◌, ◌<◌, ◌≤◌, ◌^◌, ◌++◌, [], length, map, All, Some, IfOk};
ghost use Rattle.dj_names.specs.trusted.Types.{Name};
ghost use Rattle.dj_names.specs.trusted.Library.{raw_library};
ghost use Rattle.dj_report.specs.trusted.Stages.{IsDecided};
ghost use Rattle.dj_report.specs.trusted.Text.{report_status};
ghost use Rattle.dj_file_rules.specs.Views.{path_file_view};
ghost use Rattle.dj_host.specs.trusted.Hosted.{given_since};
ghost use Rattle.dj_class_set.specs.Late.{LinksFiles};
ghost use Rattle.dj_class_set.specs.trusted.Judging.{RunsRaw, raw_stages};
ghost use Rattle.dj_class_set.specs.trusted.Limits.{most_files};
ghost use Rattle.dj_class_set.specs.trusted.RawRules.{AreRawViolations};
ghost use Rattle.dj_class_set.specs.trusted.Statuses.{IsAmong};
ghost use Rattle.dj_class_set.specs.Statuses.{raw_statuses};
ghost use Rattle.dj_sandbox.specs.Loading.{IsImageOf};
ghost use Rattle.dj_sandbox.specs.Runs.{AddsRawRuns};

use crate::loading::{raw_image, views_of};
use crate::raw_run::{report_of, run_image};
use dj_class_set::{ClassSet, RawDecided, SandboxError, judge_raw};
use dj_edge::Host;
use dj_image::Image;
use dj_machine::Engine;
use dj_report::{PathFile, Report};
use dj_resolution::Linker;
use std::alloc::{AllocError, Global};

// The image of files in which no rule is violated, with what links their classes.
fn image_of_files(
    alloc: Global,
    files: &[PathFile<'_>],
    linker: Linker,
) -> Result<Image, AllocError>
    requires few { length files.now ≤ most_files }
    requires short { All (λ file. length file.bytes.now < 2 ^ 32) files.now }
    requires silent { (class : Name) × AreRawViolations (map path_file_view files.now) class [] }
    requires linked { LinksFiles raw_library (map path_file_view files.now) linker }
    ensures { IfOk result (IsImageOf (map path_file_view files.now)) }
{
    let views = views_of(alloc, files)?;
    raw_image(alloc, linker, &views)
}

// Runs files in which no rule is violated, with what links their classes.
fn run_files<H: Host, E: Engine>(
    alloc: Global,
    files: &[PathFile<'_>],
    linker: Linker,
    entry: &[u8],
    input: &[u8],
    steps: u64,
    host: &mut H,
    engine: &mut E,
) -> Result<Report, AllocError>
    requires few { length files.now ≤ most_files }
    requires short { All (λ file. length file.bytes.now < 2 ^ 32) files.now }
    requires silent { AreRawViolations (map path_file_view files.now) entry.now [] }
    requires linked { LinksFiles raw_library (map path_file_view files.now) linker }
    ensures ran { IfOk result (λ report. RunsRaw (map path_file_view files.now) entry.now input.now steps (given_since (H.given host.old) (H.given host.new)) (Some report)) }
    ensures status { IfOk result (λ report. IsAmong (report_status report) raw_statuses) }
    ensures runs { AddsRawRuns (map path_file_view files.now) entry.now input.now steps (given_since (H.given host.old) (H.given host.new)) (E.runs engine.old) (E.runs engine.new) result }
    ensures gave { H.given host.new ≡ H.given host.old ++ given_since (H.given host.old) (H.given host.new) }
{
    let image = image_of_files(alloc, files, linker)?;
    let ending = run_image(alloc, &image, entry, input, steps, host, engine)?;
    Ok(report_of(ending))
}

// The report on a run of the class of this name. Each file is under its path within the folder.
fn raw_files<H: Host, E: Engine>(
    alloc: Global,
    files: &[PathFile<'_>],
    entry: &[u8],
    input: &[u8],
    steps: u64,
    host: &mut H,
    engine: &mut E,
) -> Result<Report, AllocError>
    requires few { length files.now ≤ most_files }
    requires short { All (λ file. length file.bytes.now < 2 ^ 32) files.now }
    ensures decided { IfOk result (IsDecided (raw_stages (map path_file_view files.now) entry.now input.now steps (given_since (H.given host.old) (H.given host.new)))) }
    ensures status { IfOk result (λ report. IsAmong (report_status report) raw_statuses) }
    ensures runs { AddsRawRuns (map path_file_view files.now) entry.now input.now steps (given_since (H.given host.old) (H.given host.new)) (E.runs engine.old) (E.runs engine.new) result }
    ensures quiet { (AreRawViolations (map path_file_view files.now) entry.now [] → ⊥) → H.given host.new ≡ H.given host.old }
    ensures gave { H.given host.new ≡ H.given host.old ++ given_since (H.given host.old) (H.given host.new) }
{
    match judge_raw(alloc, files, entry)? {
        RawDecided::Rejected(violations) => Ok(Report::Rejected(violations)),
        RawDecided::Accepted(linker) => {
            run_files(alloc, files, linker, entry, input, steps, host, engine)
        }
    }
}

/// The report on a run of the class of this name on the input, of at most `steps` steps, with the raw library.
pub fn raw<H: Host, E: Engine>(
    alloc: Global,
    set: &ClassSet,
    entry: &[u8],
    input: &[u8],
    steps: u64,
    host: &mut H,
    engine: &mut E,
) -> Result<Report, SandboxError>
    // The report is decided by the files, the input and the answers that the host gave in this call, all of which the run took.
    ensures decided { IfOk result (IsDecided (raw_stages set.now entry.now input.now steps (given_since (H.given host.old) (H.given host.new)))) }
    ensures status { IfOk result (λ report. IsAmong (report_status report) raw_statuses) }

    // The engine made the run that the report is about. Where there is none it made no run, and the host wasn't asked.
    ensures runs { AddsRawRuns set.now entry.now input.now steps (given_since (H.given host.old) (H.given host.new)) (E.runs engine.old) (E.runs engine.new) result }
    ensures quiet { (AreRawViolations set.now entry.now [] → ⊥) → H.given host.new ≡ H.given host.old }
    ensures gave { H.given host.new ≡ H.given host.old ++ given_since (H.given host.old) (H.given host.new) }
{
    let files = set.path_files(alloc)?;
    Ok(raw_files(alloc, &files, entry, input, steps, host, engine)?)
}
