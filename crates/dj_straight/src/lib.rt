//! Straight code: sets of class files with one class of straight methods, their model, shape and machine. `verify` runs these until it runs
//! rewritten classes, and of the other crates of the program only dj_class_set depends on this one.
#![tactic(auto)]

mod cut;
mod laws;
mod machine;
mod program;
mod shape;
mod straight;

pub use cut::{cut_is_straight, one_cut, read_instrs};
pub use laws::{
    no_fault_with_shape, one_end, one_shape_fault, same_in_every_program, shape_or_fault,
    sound_effect, straight_code_ends, worked_runs,
};
pub use machine::{StraightEnding, run_method};
pub use program::{Action, DESCRIPTOR, IntOperation, StraightClass, StraightMethod};
pub use shape::shape_fault;
pub use straight::{StraightSet, straight_set};
