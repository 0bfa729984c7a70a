//! Tests of the crates that read class files and report on them.
#![tactic(auto)]

#[cfg(test)]
mod edge;
#[cfg(test)]
mod names;
#[cfg(test)]
mod report;
#[cfg(test)]
mod rules;
#[cfg(test)]
mod streams;
#[cfg(test)]
mod walk;
