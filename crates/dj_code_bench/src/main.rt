//! Labels code that it makes, and lays it out again, this many times. bench/code takes its time.
//!
//! The words are `branches` or `switches`, the number of instructions, and how often. The status is 0 where the layout has as many bytes as the code.
#![tactic(auto)]

mod words;
mod work;

use std::process::ExitCode;
use words::task_of;

fn main(rt: HostRuntime) -> ExitCode {
    match task_of(&rt) {
        Some(task) => {
            if work::is_done(rt.alloc(), task) {
                ExitCode::from(0)
            } else {
                ExitCode::from(1)
            }
        }
        None => ExitCode::from(64),
    }
}
