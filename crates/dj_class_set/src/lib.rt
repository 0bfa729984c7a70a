//! What follows the reading of files: they are judged by the rules, and a class of theirs is run.
#![tactic(auto)]

mod checking;
mod class_set;
mod entry;
mod error;
mod judging;
mod late;
mod raw_rules;
mod run_rules;
mod running;

pub use checking::check;
pub use class_set::ClassSet;
pub use entry::entry_name;
pub use error::SandboxError;
pub use raw_rules::{DESCRIPTOR, RawDecided, VERIFY, judge_raw};
pub use run_rules::{entry_of, has_entry, run_violations};
pub use running::verify;
