//! Facts, by plain values, on definitions of the assembler that several crates share: what each holds of, and what it must not hold of.
#![tactic(auto)]

mod facts;

pub use facts::greatest_versions_fit;
