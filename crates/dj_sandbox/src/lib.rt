//! The calls on a set of class files: `check` and `verify`, which stand in a crate below, and `raw`, which judges the set and runs a class of it with the raw library.
#![tactic(auto)]

mod entry;
mod laws;
mod loading;
mod raw_run;
mod running;

pub use dj_class_set::{ClassSet, SandboxError, check, verify};
pub use dj_machine::{Engine, PlainEngine};
pub use laws::{has_raw_run, never_stopped};
pub use running::raw;
