//! Reports: what a command says of a job or a run, its bytes and its status.
#![tactic(auto)]

mod bytes;
mod lines;
mod order;
mod outcome;
mod parts;
mod put;
mod report;

pub use bytes::{ReportError, bytes_of, status_of};
pub use lines::{add_file_line, add_in_order, add_line};
pub use order::{compare, in_order};
pub use report::{Limit, PathFile, Report, Violation, Violations};
