//! Tests of the crates that read and write constant pools and class files.
#![tactic(auto)]

#[cfg(test)]
mod append;
#[cfg(test)]
mod class;
#[cfg(test)]
mod code;
#[cfg(test)]
mod lists;
#[cfg(test)]
mod look_ups;
#[cfg(test)]
mod parts;
#[cfg(test)]
mod pool;
#[cfg(test)]
mod pool_ops;
#[cfg(test)]
mod write;
