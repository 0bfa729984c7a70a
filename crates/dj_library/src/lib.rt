//! The classes of the libraries, by tables of rows.
#![tactic(auto)]

mod classes;
mod errors;
mod library;
mod methods;
mod rows;
mod types;
mod which;

pub use classes::LibraryHead;
pub use errors::LibraryError;
pub use library::{deterministic, heads, raw, sandboxed};
