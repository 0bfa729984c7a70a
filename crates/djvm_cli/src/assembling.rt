ghost use Rattle.std.specs.Prelude.{◌≡◌, ◌≤◌, [], ◌∷◌, Some, None, length, IfOk, IfErr, IfSome};
ghost use Rattle.dj_edge.specs.trusted.Counts.{GrowsByPrefix};
ghost use Rattle.dj_report.specs.trusted.Stages.{IsDecided};
ghost use Rattle.dj_report.specs.trusted.Text.{report_status};
ghost use Rattle.dj_class_set.specs.trusted.Limits.{most_file_bytes};
ghost use Rattle.dj_command_line.specs.trusted.DoneJobs.{Assemble};
ghost use Rattle.djvm_cli.specs.declared.load.Stop.TheVariants.{Memory};
ghost use Rattle.djvm_cli.specs.Ends.{IsReportStatus};
ghost use Rattle.djvm_cli.specs.trusted.Report.{Assembles, text_stages};
ghost use Rattle.djvm_cli.specs.Steps.{Counted};

use crate::load::{Input, MOST_FILE_BYTES, Stop, read_whole};
use dj_asm::{AsmError, assemble};
use dj_edge::Files;
use dj_report::{Limit, Report};
use std::alloc::Global;

/// The class file that the text means, or the text's first fault.
fn assemble_text(alloc: Global, text: &[u8]) -> Result<Report, Stop>
    requires { length text.now ≤ most_file_bytes }
    ensures assembled { IfOk result (λ report. Assembles text.now (Some report)) }
    ensures status { IfOk result (λ report. IsReportStatus (Some (Assemble [])) None (report_status report)) }
    ensures no_fault { IfErr result (λ stop. stop ≡ Memory) }
{
    match assemble(alloc, text) {
        Ok(bytes) => Ok(Report::Written(bytes)),
        Err(AsmError::Syntax { line, column }) => Ok(Report::Syntax { line, column }),
        Err(AsmError::Label { line }) => Ok(Report::Label { line }),
        Err(AsmError::Large { line }) => Ok(Report::Large { line }),
        Err(AsmError::Memory) => Err(Stop::Memory),
    }
}

/// The report on the text in the file of this path: the limit on the file, or what the text means.
pub fn report_of_text<F: Files>(alloc: Global, path: &str, files: &mut F) -> Result<Report, Stop>
    ensures held { F.held files.new ≡ F.held files.old }
    ensures counts { Counted (F.faults files.old) (F.faults files.new) result }
    ensures asks { GrowsByPrefix (F.asked files.old) (F.asked files.new) (path.now ∷ []) }
    ensures right { IfOk result (λ report. IfSome (F.held files.old) (λ h. IsDecided (text_stages path.now h) report)) }
    ensures status { IfOk result (λ report. IsReportStatus (Some (Assemble path.now)) (F.held files.old) (report_status report)) }
{
    match read_whole(alloc, files, path, MOST_FILE_BYTES)? {
        Input::Bytes(text) => assemble_text(alloc, &text),
        Input::Absent(path) => Ok(Report::Absent(path)),
        Input::TooLong => Ok(Report::Limited(Limit::File)),
    }
}
