//! A machine over an image, and its start.
#![tactic(auto)]

mod answers;
mod beginning;
mod entry;
mod input;
mod machine;

pub use answers::{StartError, StepAnswer};
pub use machine::Machine;
