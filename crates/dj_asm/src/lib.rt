//! The assembler: a text of lines and words means one class file, or its first fault is reported.
#![tactic(auto)]

mod assembling;
mod bodies;
mod code;
mod counted;
mod file;
mod frames;
mod heading;
mod instrs;
mod judge;
mod laws;
mod member_list;
mod proper;
mod ranges;
mod reach;
mod sizes;

pub use assembling::assemble;
pub use dj_asm_source::AsmError;
pub use laws::{file_or_fault, means_class_file, no_file_where_fault, one_fault, one_file};
