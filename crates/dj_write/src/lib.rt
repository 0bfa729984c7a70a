//! The writer of class files (JVMS 4.1 to 4.7): it undoes the reader of dj_class.
#![tactic(auto)]

mod code;
mod error;
mod laws;
mod pool;
mod put;
mod write;

pub use code::write_code;
pub use error::WriteError;
pub use laws::{file_of_view, view_of_file};
pub use pool::write_pool;
pub use write::{write_class, write_class_with};
