//! Tests of the parts of the machine.
#![tactic(auto)]

#[cfg(test)]
mod arith;
#[cfg(test)]
mod arith_rows;
#[cfg(test)]
mod calls;
#[cfg(test)]
mod heap;
#[cfg(test)]
mod library;
#[cfg(test)]
mod sequences;
#[cfg(test)]
mod stack;
