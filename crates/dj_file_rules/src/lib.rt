//! The rules on a set of class files, and the violations of them.
#![tactic(auto)]

mod error;
mod faults;
mod files;
mod judge;
mod lines;
mod members;
mod named;
mod texts;
mod view;
mod whole;

pub use error::RulesError;
pub use faults::is_memory;
pub use files::rules;
pub use judge::{Judged, judge_files};
pub use named::units_of_path;
pub use view::{FileView, view_file};
pub use whole::add_class_lines;
