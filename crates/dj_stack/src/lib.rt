//! The frames of a run (JVMS 2.6): a list of at most 1,024. What is done to the top frame takes no memory.
#![tactic(auto)]

mod ends;
mod errors;
mod frame;
mod frames;
mod locals;
mod operands;
mod packed;
mod packing;
mod parts;
mod places;
mod spares;
mod sparse;
mod sparsely;
mod stacked;
mod stacking;
mod variables;
mod wide;

pub use errors::PushError;
pub use frames::Frames;
