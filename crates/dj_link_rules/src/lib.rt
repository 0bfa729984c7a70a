//! The rules 17 and 18 on a set of class files: what instructions and handlers name is there, and is what they require.
#![tactic(auto)]

mod above;
mod asks;
mod class;
mod class_text;
mod classes;
mod constants;
mod error;
mod files;
mod judge;
mod kept;
mod known;
mod methods;
mod name_numbers;
mod named;
mod passes;
mod statics;

pub use above::{OwnClass, classes_above};
pub use classes::unmakeable_classes;
pub use constants::judge_constants;
pub use error::LinkError;
pub use files::{add_link_lines, links};
pub use known::Known;
pub use methods::add_whole_marks;
pub use named::{NamedClass, NamedConstant, NamedMember, Tag};
pub use statics::is_static;
