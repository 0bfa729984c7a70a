//! Tests of the components of graphs.
#![tactic(auto)]

#[cfg(test)]
mod tests;
