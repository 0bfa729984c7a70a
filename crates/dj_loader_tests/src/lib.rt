//! Tests of the loader, and of the image that it makes.
#![tactic(auto)]

#[cfg(test)]
mod answers;
#[cfg(test)]
mod classes;
#[cfg(test)]
mod fields;
#[cfg(test)]
mod generic;
#[cfg(test)]
mod judged;
#[cfg(test)]
mod loading;
#[cfg(test)]
mod members;
#[cfg(test)]
mod methods;
#[cfg(test)]
mod numbers;
#[cfg(test)]
mod programs;
#[cfg(test)]
mod set;
