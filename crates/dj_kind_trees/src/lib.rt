//! Kinds of local variables as shared trees. A node never changes but for what it remembers: the last node that met it.
#![tactic(auto)]

mod flows;
mod meet;
mod node;
mod put;
mod replace;
mod trees;

pub use trees::Trees;
