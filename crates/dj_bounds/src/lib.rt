//! Bounded work: how many instructions a metered run does and how many bytes its heap takes under its thresholds, and so how many steps and bytes the plain run of
//! the rewritten program.
#![tactic(auto)]

mod laws;

pub use laws::{
    few_initialisers, limit_is_idle, literals_are_within, metered_is_bounded, work_is_bounded,
};
