//! What the frames of a machine over an image are in the model: a method's number stands for its names.
#![tactic(auto)]

mod instructions;
mod methods;

pub use instructions::{instr_in, instr_of};
pub use methods::{code_of, initialised_by, is_initialiser};
