//! The image of a set of class files and a library: classes, arrays, members, code and texts by numbers.
#![tactic(auto)]

mod arrays;
mod error;
mod image;
mod indexed;
mod lent_type;
mod make;
mod name_numbers;
mod numbered;
mod operand;
mod operands;
mod owned;
mod parts;
mod pool_readers;
mod shaped;
mod tables;
mod taken;
mod texts;
mod uses;

pub use dj_numbering::{BaseNames, FieldId, Linker, MemberOf, MethodId};
pub use dj_program::MethodCode;
pub use error::ImageError;
pub use image::{Body, Image};
pub use make::image_of;
pub use operand::Operand;
pub use owned::{OwnedPool, own_pool};
pub use parts::{ClassParts, FieldValue};
pub use shaped::ShapeParts;
