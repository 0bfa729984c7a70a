//! Lists of kinds of local variables, kept as shared trees.
#![tactic(auto)]

mod block;
mod lists;
mod ranges;

pub use lists::KindLists;
pub use ranges::KindRange;
