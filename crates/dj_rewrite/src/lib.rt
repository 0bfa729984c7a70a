//! Class files, rewritten: renamed into the package `sandbox`, with calls that count before the instructions that allocate, invoke, jump or throw, and which
//! of them don't fit a class file any more.
#![tactic(auto)]

mod answers;
mod error;
mod file;
mod indexes;
mod large;
mod least;
mod lines;
mod members;
mod rewritten;
mod rule;
mod set;

pub use error::RewriteError;
pub use rewritten::{Rewritten, RewrittenFile};
pub use rule::too_large;
pub use set::rewrite;
