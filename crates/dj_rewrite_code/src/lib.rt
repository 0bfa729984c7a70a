//! The rewritten Code attribute of one method.
#![tactic(auto)]

mod attributes;
mod body;
mod error;
mod maps;
mod method;

pub use attributes::attributes_named;
pub use error::CodeError;
pub use method::{CodeBody, rewrite_code};
