//! Native methods for which the host answers: with words for identity hashes, and with times.
#![tactic(auto)]

mod asking;
mod call;
mod which;

pub use call::call_host;
pub use which::is_hosted;
