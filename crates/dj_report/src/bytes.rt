ghost use Rattle.std.specs.Prelude.{◌≡◌, IfOk};
ghost use Rattle.dj_report.specs.trusted.Text.{report_text, report_status};

use crate::outcome::status_of_outcome;
use crate::put::put_report;
use crate::report::Report;
use dj_names::Bytes;
use std::alloc::{AllocError, AllocFailed, Global};
use thiserror::Error;

/// Why a report has no bytes.
#[derive(Clone, Copy, Debug, PartialEq, Eq, Error)]
pub enum ReportError {
    /// There was no memory.
    #[error("out of memory")]
    Memory,
}

impl From<AllocError> for ReportError {
    ghost use Rattle.std.specs.Prelude.{◌≡◌};
    ghost use Rattle.dj_report.specs.declared.bytes.ReportError.TheVariants.{Memory};

    ghost from_gives = { λ _ e. e ≡ Memory };

    fn from(_e: AllocError) -> ReportError {
        ReportError::Memory
    }
}

impl<T: Drop> From<AllocFailed<T>> for ReportError {
    ghost use Rattle.std.specs.Prelude.{◌≡◌};
    ghost use Rattle.dj_report.specs.declared.bytes.ReportError.TheVariants.{Memory};

    ghost from_gives = { λ _ e. e ≡ Memory };

    fn from(_e: AllocFailed<T>) -> ReportError {
        ReportError::Memory
    }
}

/// The report's bytes: its lines, or those of the class file.
pub fn bytes_of(alloc: Global, report: &Report) -> Result<Bytes, ReportError>
    ensures { IfOk result (λ bytes. bytes ≡ report_text report.now) }
{
    let mut out = Vec::new(alloc);
    put_report(&mut out, report)?;
    Ok(Bytes::from(out))
}

/// The status with which the program ends after it wrote the report.
pub fn status_of(report: &Report) -> u8
    ensures { result ≡ report_status report.now }
{
    match report {
        Report::Accepted(_) => 0,
        Report::Rejected(_) => 2,
        Report::Limited(_) => 7,
        Report::Later(_) => 75,
        Report::Absent(_) => 65,
        Report::Costed { outcome, .. } => status_of_outcome(outcome),
        Report::Raw { outcome, .. } => status_of_outcome(outcome),
        Report::Ran { outcome, .. } => status_of_outcome(outcome),
        Report::Usage => 64,
        Report::Syntax { .. } | Report::Label { .. } | Report::Large { .. } => 68,
        Report::Written(_) => 0,
    }
}
