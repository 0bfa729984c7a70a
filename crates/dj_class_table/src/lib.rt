//! The classes of a set of class files and of a library as they are declared: looked up by names and by numbers.
#![tactic(auto)]

mod error;
mod numbers;
mod place;
mod rows;
mod table;

pub use error::TableError;
pub use place::Place;
pub use table::ClassTable;
