//! The reader of class files (JVMS 4.1 to 4.7).
#![tactic(auto)]

mod access;
mod class;
mod code;
mod laws;
mod lists;

pub use access::AccessFlags;
pub use class::{Attribute, ClassError, ClassView, MemberView, read_class};
pub use code::{CodeView, read_code};
pub use laws::{
    class_or_fault, code_or_fault, faulty_is_malformed, faulty_is_no_code, one_class_file,
    one_code, one_code_fault, one_fault, valid_has_texts,
};
pub use lists::{Attributes, Members};
