//! The groups of one method's code: before each instruction that allocates, invokes, jumps or throws, and before the first instruction of each handler,
//! stands a call that counts.
#![tactic(auto)]

mod arrivals;
mod charges;
mod cuts;
mod error;
mod filed;
mod method;
mod parts;
mod places;
mod row_counts;
mod size;
mod spelling;
mod targets;

pub use error::EmitError;
pub use filed::groups_in_file;
pub use method::groups;
pub use spelling::Grouped;
