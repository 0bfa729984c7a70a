//! Tests of dj_rename.
#![tactic(auto)]

#[cfg(test)]
mod names;
#[cfg(test)]
mod pieces;
#[cfg(test)]
mod pools;
#[cfg(test)]
mod rewritten;
#[cfg(test)]
mod sizes;
