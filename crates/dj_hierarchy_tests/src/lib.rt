//! Tests of the rule HIERARCHY.
#![tactic(auto)]

#[cfg(test)]
mod heads;
