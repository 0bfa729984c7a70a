//! The classes of a library: each method of theirs is native, or abstract. What native methods see of a program's classes.
#![tactic(auto)]

mod classes;
mod library;
mod lists;

pub use classes::Classes;
pub use library::{LibClass, LibMethod};
pub use lists::{LibMethods, Library, Names};
