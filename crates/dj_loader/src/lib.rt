//! Loads class files and a library: the image of their program.
#![tactic(auto)]

mod cycles;
mod declaring;
mod error;
mod file_parts;
mod lacking;
mod loading;
mod owners;
mod parts;
mod values;

pub use cycles::refuse_cycles;
pub use dj_image::{BaseNames, Body, FieldId, Image, MemberOf, MethodCode, MethodId, Operand};
pub use error::LoadError;
pub use loading::{image_from, load};
