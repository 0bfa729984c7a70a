//! Whole runs of a program: several steps of a machine, and engines that make a run from its start to its end.
#![tactic(auto)]

mod answer;
mod engine;
mod plain;
mod running;

pub use answer::RunAnswer;
pub use engine::{Ending, Engine, EngineError};
pub use plain::PlainEngine;
pub use running::run;
