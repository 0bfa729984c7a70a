//! Tests of what native methods do, of the accounter, and of instructions on objects, fields and literals.
#![tactic(auto)]

#[cfg(test)]
mod accounter;
#[cfg(test)]
mod arguments;
#[cfg(test)]
mod boxed_calls;
#[cfg(test)]
mod builder_calls;
#[cfg(test)]
mod calls;
#[cfg(test)]
mod copy_calls;
#[cfg(test)]
mod few;
#[cfg(test)]
mod heaps;
#[cfg(test)]
mod known;
#[cfg(test)]
mod library_calls;
#[cfg(test)]
mod objects;
#[cfg(test)]
mod part_calls;
#[cfg(test)]
mod rows;
#[cfg(test)]
mod sums;
#[cfg(test)]
mod taken;
#[cfg(test)]
mod text_calls;
