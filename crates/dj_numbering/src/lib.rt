//! Classes and arrays by numbers, and the fields and methods of classes by numbers.
#![tactic(auto)]

mod arrays;
mod error;
mod heights;
mod members;
mod named;
mod own;
mod places;
mod shapes;
mod types;

pub use dj_class_table::Place;
pub use dj_resolution::{BaseNames, Directory, Linker};
pub use error::TypesError;
pub use named::MemberName;
pub use own::raised_name;
pub use shapes::{ElementType, Shape, shape_of};
pub use types::{FieldId, MemberOf, MethodId, Types};
