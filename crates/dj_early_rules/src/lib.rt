//! The rules on a set of class files that don't look up the members which code names: those on each file by itself, on names that files share, and on what is above a class.
#![tactic(auto)]

mod bodies;
mod classes;
mod code;
mod doubles;
mod fields;
mod good;
mod heads;
mod hierarchy;
mod instructions;
mod judged;
mod lines;
mod maps;
mod marks;
mod methods;
mod opcodes;
mod passes;
mod prints;
mod repeats;

pub use classes::{add_naming_lines, class_name};
pub use code::{MethodBody, WholeCode, code_of_method};
pub use doubles::{NamedFile, add_duplicate_lines};
pub use fields::has_faulty_field;
pub use good::{GoodFile, good_file};
pub use hierarchy::{Owner, add_hierarchy_lines};
pub use instructions::{class_text_index, index_of, violates_instr};
pub use judged::{JudgedText, judge_texts, marked_names, text_in};
pub use lines::add_mark_lines;
pub use marks::{Mark, MarkPlace, add_mark_if};
pub use methods::{add_bodiless_marks, add_field_marks, add_own_marks, names_of};
pub use passes::catches_error;
