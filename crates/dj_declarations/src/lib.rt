//! A class as its file or its library declares it, without the code of its methods.
#![tactic(auto)]

mod class;
mod error;
mod file;
mod heads;
mod library;
mod listed;
mod members;
mod named;
mod spelling;
mod tables;
mod texts;

pub use class::{DeclaredClass, declare_file, declare_library_class};
pub use error::DeclareError;
pub use named::MemberTexts;
pub use spelling::spell_type;
