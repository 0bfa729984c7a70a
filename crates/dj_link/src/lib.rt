//! The rules 17 and 18 over an image.
#![tactic(auto)]

mod linked;

pub use dj_link_rules::LinkError;
pub use linked::links;
