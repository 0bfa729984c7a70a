//! The rule HIERARCHY over the heads of classes: which classes a class may have above it, whatever members it has (JVMS 4.1 and 5.3.5).
#![tactic(auto)]

mod edges;
mod error;
mod head;
mod judge;
mod names;

pub use error::HierarchyError;
pub use head::ClassHead;
pub use judge::judge_heads;
