//! Tests of native methods that a host answers.
#![tactic(auto)]

#[cfg(test)]
mod calls;
#[cfg(test)]
mod counted;
#[cfg(test)]
mod texts;
#[cfg(test)]
mod three;
