//! What the instruction of a number in a method of an image does (JVMS 6.5), but for calls: its operand is found by its number, and the instruction is done.
#![tactic(auto)]

mod acted;
mod arrays;
mod asking;
mod begun;
mod by_number;
mod classes;
mod fields;
mod kinds;
mod literals;
mod members;
mod objects;
mod plain;
mod statics;
mod taking;
mod texts;
mod unnamed;
mod uses;
mod values;

pub use acted::Acted;
pub use begun::Begun;
pub use by_number::act;
pub use unnamed::{begin, unnamed_action};
pub use uses::{ClassUse, FieldUse, class_use, field_use};
