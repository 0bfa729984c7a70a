//! Class files that the tests of several crates share.
#![tactic(auto)]

mod files;
mod texts;

pub use files::{FileText, PathBytes, PathText, build, class_file, lend};
pub use texts::{A, BREAKS, NATIVE, TWICE, UNDER_ITSELF};
