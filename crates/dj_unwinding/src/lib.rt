//! How an exception leaves the frames of a machine over an image, how a method returns to its caller, and how a run ends with the last return.
#![tactic(auto)]

mod results;
mod returning;
mod rows;
mod top;
mod unwinding;

pub use results::result_outcome;
pub use returning::{Returned, go_back};
pub use unwinding::{Unwound, unwind};
