//! Labelled code is laid out: its instructions get addresses, and their targets offsets (JVMS 4.7.3 and chapter 6).
#![tactic(auto)]

mod bytes;
mod errors;
mod laid;
mod laws;
mod layout;
mod places;
mod rows;

pub use errors::LayError;
pub use laid::Laid;
pub use laws::{labels_again, layout_or_fault, no_code_where_refused, one_fault, one_layout};
pub use layout::lay_out;
