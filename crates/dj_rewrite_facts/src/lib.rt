//! Facts, by plain values, on the definitions of rewritten class files: what each holds of, and what it must not hold of.
#![tactic(auto)]

mod facts;

pub use facts::greatest_stack_fits;
