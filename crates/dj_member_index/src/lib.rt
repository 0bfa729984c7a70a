//! The texts that name members of the classes of a table, each by a number, and the members by these numbers.
#![tactic(auto)]

mod calls;
mod directory;
mod gather;
mod marks;
mod numbers;
mod rows;
mod spans;

pub use calls::CallTable;
pub use directory::Directory;
pub use rows::MemberRow;
