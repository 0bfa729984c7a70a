//! The rules on a set of class files, each file read and judged once.
#![tactic(auto)]

mod class;
mod code;
mod files;
mod kept;
mod lent;
mod methods;
mod shape_marks;
mod views;

pub use dj_file_rules::RulesError;
pub use files::{JudgedFiles, judge_files, rules};
