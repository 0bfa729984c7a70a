ghost use Rattle.std.specs.Prelude.{◌≡◌, ◌≢◌, ◌≤◌, ◌++◌, Some, None, length, map, IfOk, IfErr, IfSome, string_bytes};
ghost use Rattle.std.specs.Io.KnownBytes.{Appends};
ghost use Rattle.dj_edge.specs.trusted.Counts.{Rose, GrowsByPrefix};
ghost use Rattle.dj_report.specs.trusted.Stages.{IsDecided};
ghost use Rattle.dj_report.specs.trusted.Text.{report_text, report_status};
ghost use Rattle.dj_host.specs.trusted.Hosted.{given_since};
ghost use Rattle.dj_class_set.specs.trusted.Entry.{entry_name};
ghost use Rattle.dj_class_set.specs.trusted.Judging.{raw_stages};
ghost use Rattle.dj_class_set.specs.trusted.Limits.{most_input_bytes};
ghost use Rattle.dj_class_set.specs.trusted.Statuses.{IsAmong};
ghost use Rattle.dj_class_set.specs.Statuses.{raw_statuses};
ghost use Rattle.djvm_cli.specs.declared.load.Stop.TheVariants.{Memory};
ghost use Rattle.dj_command_line.specs.trusted.DoneJobs.{OnFolder, done_job_of};
ghost use Rattle.djvm_cli.specs.trusted.Engine.{AddsRuns, AddsPrefix, AddsFew, MakesNoRun};
ghost use Rattle.djvm_cli.specs.Engine.{LeavesRaw, LeavesJudged, LeavesJob};
ghost use Rattle.djvm_cli.specs.trusted.Jobs.{folder_of, IsRawJob};
ghost use Rattle.djvm_cli.specs.Jobs.{IsAllowed, IsAllowedJob};
ghost use Rattle.djvm_cli.specs.trusted.Report.{judging, folder_stages, folder_asks, stages, job_asks};
ghost use Rattle.djvm_cli.specs.trusted.Ends.{IsStatus, read_fault, write_fault, no_memory, IsRight, Finished, ReadEnds, WriteFault, OutOfMemory, AsksInOrder, MeansUsage};
ghost use Rattle.djvm_cli.specs.Ends.{IsReportStatus, IsWritten, WritesPrefix};
ghost use Rattle.djvm_cli.specs.Steps.{Counted};
ghost use Rattle.dj_command_line.specs.Views.{folder_job_view, job_view};

use crate::assembling::report_of_text;
use crate::cut::class_set;
use crate::load::{Input, Listing, Loaded, Stop, list_paths, read_files, read_job_input};
use dj_class_set::{ClassSet, check, entry_name, verify};
use dj_command_line::{Command, FolderCommand, command_of};
use dj_edge::{Files, Host, Sink, SinkError, put_all};
use dj_report::{Limit, Report, bytes_of, status_of};
use dj_sandbox::{Engine, raw};
use std::alloc::Global;

/// The folder of the class files.
fn folder<'a>(command: FolderCommand<'a>) -> &'a str
    ensures { result.now ≡ folder_of (folder_job_view command.entry) }
{
    match command {
        FolderCommand::Check { folder }
        | FolderCommand::Verify { folder, .. }
        | FolderCommand::Raw { folder, .. } => folder,
    }
}

// Judges a set that was read, and runs the class of this name on the input with the raw library.
fn judge_raw<H: Host, E: Engine>(
    alloc: Global,
    entry: &str,
    set: &ClassSet,
    input: &[u8],
    steps: u64,
    host: &mut H,
    engine: &mut E,
) -> Result<Report, Stop>
    ensures decided { IfOk result (IsDecided (raw_stages set.now (entry_name entry.now) input.now steps (given_since (H.given host.old) (H.given host.new)))) }
    ensures status { IfOk result (λ report. IsAmong (report_status report) raw_statuses) }
    ensures no_fault { IfErr result (λ stop. stop ≡ Memory) }
    ensures leaves { LeavesRaw set.now (entry_name entry.now) input.now steps (H.given host.old) (H.given host.new) (E.runs engine.old) (E.runs engine.new) result }
{
    let class = entry_name(alloc, entry)?;
    Ok(raw(alloc, set, class.as_slice(), input, steps, host, engine)?)
}

/// Judges a set and an input that were read, and runs them where the job asks for a run.
fn judge<H: Host, E: Engine>(
    alloc: Global,
    command: FolderCommand<'_>,
    set: &ClassSet,
    input: &[u8],
    host: &mut H,
    engine: &mut E,
) -> Result<Report, Stop>
    requires input { length input.now ≤ most_input_bytes }
    requires allowed { IsAllowed (folder_job_view command) }
    ensures decided { IfOk result (IsDecided (judging (folder_job_view command.entry) set.now input.now (given_since (H.given host.old) (H.given host.new)))) }
    ensures status { IfOk result (λ report. IsReportStatus (Some (OnFolder (folder_job_view command.entry))) None (report_status report)) }
    ensures no_fault { IfErr result (λ stop. stop ≡ Memory) }
    ensures leaves { LeavesJudged (folder_job_view command.entry) set.now input.now (H.given host.old) (H.given host.new) (E.runs engine.old) (E.runs engine.new) result }
{
    match command {
        FolderCommand::Check { .. } => Ok(check(alloc, set)?),
        FolderCommand::Verify {
            entry,
            thresholds,
            ..
        } => {
            let class = entry_name(alloc, entry)?;
            Ok(verify(alloc, set, class.as_slice(), input, thresholds)?)
        }
        FolderCommand::Raw { entry, steps, .. } => {
            judge_raw(alloc, entry, set, input, steps, host, engine)
        }
    }
}

/// The report of a job on a folder. Each step decides it or hands on to the next: the number of files, the input, the limits on the files, and
/// then what the files are judged to be and how their run ends.
fn report_of_folder<F: Files, H: Host, E: Engine>(
    alloc: Global,
    command: FolderCommand<'_>,
    files: &mut F,
    host: &mut H,
    engine: &mut E,
) -> Result<Report, Stop>
    requires allowed { IsAllowed (folder_job_view command) }
    ensures held { F.held files.new ≡ F.held files.old }
    ensures counts { Counted (F.faults files.old) (F.faults files.new) result }
    ensures asks { IfSome (F.held files.old) (λ h. GrowsByPrefix (F.asked files.old) (F.asked files.new) (folder_asks (folder_job_view command.entry) h)) }
    ensures right { IfOk result (λ report. IfSome (F.held files.old) (λ h. IsDecided (folder_stages (folder_job_view command.entry) h (given_since (H.given host.old) (H.given host.new))) report)) }
    ensures status { IfOk result (λ report. IsReportStatus (Some (OnFolder (folder_job_view command.entry))) (F.held files.old) (report_status report)) }
    ensures leaves { LeavesJob (Some (OnFolder (folder_job_view command.entry))) (F.held files.old) (H.given host.old) (H.given host.new) (E.runs engine.old) (E.runs engine.new) result }
{
    let paths = match list_paths(alloc, files, folder(command))? {
        Listing::Paths(paths) => paths,
        Listing::TooMany => return Ok(Report::Limited(Limit::FileCount)),
    };
    let input = match read_job_input(alloc, files, command)? {
        Input::Bytes(input) => input,
        Input::Absent(path) => return Ok(Report::Absent(path)),
        Input::TooLong => return Ok(Report::Limited(Limit::Input)),
    };
    let sources = match read_files(alloc, files, &paths)? {
        Loaded::Files(sources) => sources,
        Loaded::Passed(limit) => return Ok(Report::Limited(limit)),
    };
    let set = class_set(alloc, folder(command), sources)?;
    judge(alloc, command, &set, &input, host, engine)
}

/// The report of a job.
fn report_of_job<F: Files, H: Host, E: Engine>(
    alloc: Global,
    command: Command<'_>,
    files: &mut F,
    host: &mut H,
    engine: &mut E,
) -> Result<Report, Stop>
    requires allowed { IsAllowedJob (job_view command) }
    ensures held { F.held files.new ≡ F.held files.old }
    ensures counts { Counted (F.faults files.old) (F.faults files.new) result }
    ensures asks { IfSome (F.held files.old) (λ h. GrowsByPrefix (F.asked files.old) (F.asked files.new) (job_asks (Some (job_view command.entry)) h)) }
    ensures right { IfOk result (λ report. IfSome (F.held files.old) (λ h. IsDecided (stages (Some (job_view command.entry)) h (given_since (H.given host.old) (H.given host.new))) report)) }
    ensures status { IfOk result (λ report. IsReportStatus (Some (job_view command.entry)) (F.held files.old) (report_status report)) }
    ensures leaves { LeavesJob (Some (job_view command.entry)) (F.held files.old) (H.given host.old) (H.given host.new) (E.runs engine.old) (E.runs engine.new) result }
{
    match command {
        Command::OnFolder(command) => report_of_folder(alloc, command, files, host, engine),
        Command::Assemble { file } => report_of_text(alloc, file, files),
    }
}

/// The report of the job that the words ask for.
fn report_of<F: Files, H: Host, E: Engine>(
    alloc: Global,
    words: &[String],
    files: &mut F,
    host: &mut H,
    engine: &mut E,
) -> Result<Report, Stop>
    ensures held { F.held files.new ≡ F.held files.old }
    ensures counts { Counted (F.faults files.old) (F.faults files.new) result }
    ensures asks { AsksInOrder (map string_bytes words.now) (F.held files.old) (F.asked files.old) (F.asked files.new) }
    ensures right { IfOk result (IsRight (map string_bytes words.now) (F.held files.old) (given_since (H.given host.old) (H.given host.new))) }
    ensures usage { IfOk result (λ report. MeansUsage (map string_bytes words.now) (report_status report)) }
    ensures status { IfOk result (λ report. IsReportStatus (done_job_of (map string_bytes words.now)) (F.held files.old) (report_status report)) }
    ensures leaves { LeavesJob (done_job_of (map string_bytes words.now)) (F.held files.old) (H.given host.old) (H.given host.new) (E.runs engine.old) (E.runs engine.new) result }
{
    match command_of(alloc, words)? {
        Some(command) => report_of_job(alloc, command, files, host, engine),
        None => Ok(Report::Usage),
    }
}

/// Writes the report and returns its status, 66 where the sink failed, or 67 where there was no memory.
fn write_report<S: Sink>(alloc: Global, report: &Report, sink: &mut S) -> u8
    ensures statuses { IsWritten (report_status report.now) result }
    ensures finished { result ≢ write_fault → result ≢ no_memory → Appends (S.written sink.old) (S.written sink.new) (report_text report.now) }
    ensures status { result ≢ write_fault → result ≢ no_memory → result ≡ report_status report.now }
    ensures write_fault { result ≡ write_fault → Rose (S.faults sink.old) (S.faults sink.new) }
    ensures broken { WritesPrefix (S.written sink.old) (S.written sink.new) (report_text report.now) }
{
    let Ok(bytes) = bytes_of(alloc, report) else {
        return 67;
    };
    match put_all(sink, bytes.as_slice()) {
        Ok(()) => status_of(report),
        Err(SinkError::Failed) => 66,
        Err(SinkError::Memory) => 67,
    }
}

/// Does the job that the words ask for, writes its one report and returns the status.
pub fn djvm<F: Files, H: Host, S: Sink, E: Engine>(
    alloc: Global,
    words: &[String],
    files: &mut F,
    host: &mut H,
    sink: &mut S,
    engine: &mut E,
) -> u8
    ensures statuses { IsStatus (map string_bytes words.now) result }

    // The right report is written, and the status is that report's; or the store failed, the sink failed, or there was no memory.
    ensures finished { result ≢ read_fault → result ≢ write_fault → result ≢ no_memory
        → Finished (map string_bytes words.now) (F.held files.old) (given_since (H.given host.old) (H.given host.new)) result (S.written sink.old) (S.written sink.new) }
    ensures usage { result ≢ read_fault → result ≢ write_fault → result ≢ no_memory
        → MeansUsage (map string_bytes words.now) result }
    ensures read_fault { result ≡ read_fault
        → ReadEnds (map string_bytes words.now) (F.held files.old) (given_since (H.given host.old) (H.given host.new))
        (F.faults files.old) (F.faults files.new) (S.written sink.old) (S.written sink.new) }
    ensures write_fault { result ≡ write_fault
        → WriteFault (map string_bytes words.now) (F.held files.old) (given_since (H.given host.old) (H.given host.new))
        (S.faults sink.old) (S.faults sink.new) (S.written sink.old) (S.written sink.new) }
    ensures no_memory { result ≡ no_memory
        → OutOfMemory (map string_bytes words.now) (F.held files.old) (given_since (H.given host.old) (H.given host.new)) (S.written sink.old) (S.written sink.new) }

    // The store is asked only for what the words ask of it, and the host only where the job is `raw` and makes a run.
    ensures asks { AsksInOrder (map string_bytes words.now) (F.held files.old) (F.asked files.old) (F.asked files.new) }
    ensures held { F.held files.new ≡ F.held files.old }
    ensures given { (IsRawJob (done_job_of (map string_bytes words.now)) → ⊥) → H.given host.new ≡ H.given host.old }
    ensures gave { H.given host.new ≡ H.given host.old ++ given_since (H.given host.old) (H.given host.new) }
    ensures unasked { MakesNoRun (map string_bytes words.now) (F.held files.old) (given_since (H.given host.old) (H.given host.new)) → H.given host.new ≡ H.given host.old }

    // The engine made the runs that the report is about, and no others. Whatever is known of the store, it made at most one run, of the class that the words name on some
    // input, and none where the job isn't `raw`.
    ensures runs { result ≢ read_fault → result ≢ write_fault → result ≢ no_memory
        → AddsRuns (map string_bytes words.now) (F.held files.old) (given_since (H.given host.old) (H.given host.new)) (E.runs engine.old) (E.runs engine.new) }
    ensures prefix { IfSome (F.held files.old) (λ h. AddsPrefix (map string_bytes words.now) (Some h) (given_since (H.given host.old) (H.given host.new)) (E.runs engine.old) (E.runs engine.new)) }
    ensures few { AddsFew (map string_bytes words.now) (given_since (H.given host.old) (H.given host.new)) (E.runs engine.old) (E.runs engine.new) }
    ensures idle { (IsRawJob (done_job_of (map string_bytes words.now)) → ⊥) → E.runs engine.new ≡ E.runs engine.old }
{
    match report_of(alloc, words, files, host, engine) {
        Ok(report) => write_report(alloc, &report, sink),
        Err(Stop::Fault) => 65,
        Err(Stop::Memory) => 67,
    }
}
