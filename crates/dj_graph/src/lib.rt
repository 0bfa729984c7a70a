//! The strongly connected components of a graph: which nodes reach each other.
#![tactic(auto)]

mod errors;
mod graph;
mod mark;
mod search;
mod steps;

pub use errors::GraphError;
pub use graph::{components, is_inside};
