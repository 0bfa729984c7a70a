//! Tests of the crates that take code apart and lay it out again.
#![tactic(auto)]

#[cfg(test)]
mod assembled;
#[cfg(test)]
mod frames_move;
#[cfg(test)]
mod frames_read;
#[cfg(test)]
mod frames_reported;
#[cfg(test)]
mod frames_write;
#[cfg(test)]
mod javac;
#[cfg(test)]
mod labels;
#[cfg(test)]
mod layout;
#[cfg(test)]
mod lists;
#[cfg(test)]
mod opcodes;
#[cfg(test)]
mod ops_read;
#[cfg(test)]
mod ops_write;
#[cfg(test)]
mod reported;
#[cfg(test)]
mod rows;
