//! Which classes of an image have the fields that one of them declares.
#![tactic(auto)]

mod superclasses;

pub use superclasses::Superclasses;
