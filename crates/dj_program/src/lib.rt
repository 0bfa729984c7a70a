//! The program of class files and a library: what it is, laws of it, and the code of a method.
#![tactic(auto)]

mod code;
mod laws;

pub use code::{MethodCode, method_code};
pub use laws::{bare_is_declared, one_program};
