//! Constant pools of class files (JVMS 4.4): reading, looking up, and appending.
#![tactic(auto)]

mod append;
mod entries;
mod judged;
mod kinds;
mod laws;
mod lists;
mod pool;
mod read;
mod scan;

pub use append::AppendError;
pub use judged::{JudgedPool, read_judged_pool};
pub use laws::{
    appended_is_pool, no_pool_where_fault, one_fault, one_pool, pool_looks_up, pool_or_fault,
    redirected_is_pool,
};
pub use lists::Indexes;
pub use pool::{Entry, Pool, PoolError};
pub use read::read_pool;
