//! Rewritten code: before each instruction that allocates, invokes, jumps or throws, and before the first instruction of each handler, stands a call that
//! counts; and the program of all classes rewritten so.
#![tactic(auto)]

mod laws;

pub use laws::{grouped_is_well_formed, in_pieces, program_rewritten, stands_in_group};
