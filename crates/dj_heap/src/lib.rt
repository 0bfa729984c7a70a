//! The heap of a run: a list of objects, and how many bytes they may take together (JVMS 2.5.3).
#![tactic(auto)]

mod access;
mod elements;
mod errors;
mod heap;
mod object;

pub use errors::HeapError;
pub use heap::Heap;
pub use object::Made;
