//! Tests of the crates that run classes.
#![tactic(auto)]

#[cfg(test)]
mod judging;
#[cfg(test)]
mod sandbox;
#[cfg(test)]
mod straight;
