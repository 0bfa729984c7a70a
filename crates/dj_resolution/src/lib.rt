//! Resolution of fields and methods among classes as they are declared (JVMS 5.4.3).
#![tactic(auto)]

mod above;
mod ancestors;
mod calls;
mod chains;
mod costly;
mod declarers;
mod described;
mod downward;
mod empty;
mod fields;
mod find;
mod find_numbered;
mod linker;
mod long;
mod methods;
mod nearest;
mod numbers;
mod order;
mod ranked;
mod select;
mod shared;
mod sharing;
mod special;
mod words;

pub use described::{resolve_field_of, resolve_method_of};
pub use dj_class_table::{ClassTable, Place, TableError};
pub use dj_member_index::{CallTable, Directory};
pub use linker::{BaseNames, Linker};
