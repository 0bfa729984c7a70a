//! Stack maps (JVMS 4.7.4): frames at instructions, read from the body of a StackMapTable, renumbered and written again.
#![tactic(auto)]

mod conditions;
mod laws;
mod read;
mod relocation;
mod write;

pub use conditions::{are_below, are_well_formed, is_rising};
pub use laws::{
    moved_nowhere, no_stack_map_where_fault, one_fault, one_stack_map, stack_map_is_below,
    stack_map_is_well_formed, stack_map_where_no_fault, written_is_read, written_is_stack_map,
};
pub use read::{FrameError, read_frames};
pub use relocation::relocate;
pub use write::write_frames;
