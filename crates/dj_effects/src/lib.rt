//! What instructions do to the frames and the heap (JVMS 6.5): those on local variables and operands alone, and those on arrays.
#![tactic(auto)]

mod actions;
mod arrays;
mod jumps;
mod locals;
mod moves;
mod numbers;
mod plain;
mod top;
mod way;

pub use actions::{
    Access, BinaryOperation, Condition, Movement, Operation, PlainAction, Shift, Slots, Test,
    UnaryOperation,
};
pub use arrays::{array_length, load_element, new_array, store_element};
pub use jumps::{branch, goto, monitor, return_top, switch_lookup, switch_table};
pub use locals::{increment, load, nop, push, store};
pub use moves::move_operands;
pub use numbers::{compute, convert};
pub use plain::plain_action;
pub use top::{is_of_kind, pop};
pub use way::{Flow, Way};
