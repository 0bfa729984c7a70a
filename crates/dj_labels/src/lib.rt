//! Labelled code: instructions and exception tables by the numbers of instructions (JVMS 4.7.3 and chapter 6).
#![tactic(auto)]

mod errors;
mod labelled;
mod labelling;
mod laws;
mod rows;
mod starts;
mod targets;

pub use errors::CodeError;
pub use labelled::{Labelled, Labelling, Protected, Ranges};
pub use labelling::{label, label_with_starts};
pub use laws::{
    labelled_is_well_formed, labels_or_fault, no_labels_where_refused, one_fault, one_labelling,
};
pub use starts::read_starts;
