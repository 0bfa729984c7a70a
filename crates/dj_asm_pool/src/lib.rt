//! The entries of a constant pool that an assembler's text needs, and the pool of them.
#![tactic(auto)]

mod entries;
mod found;
mod key;
mod lines;
mod needs;
mod operations;
mod places;
mod pool;
mod texts;
mod types;
mod walk;

pub use pool::PoolBuilder;
pub use walk::pool_of;
