//! The assembler's text: words, lines and what they mean, and the first fault of its words.
#![tactic(auto)]

mod body;
mod constant;
mod error;
mod fields;
mod form;
mod frame;
mod frame_type;
mod frame_types;
mod head;
mod label_table;
mod labelling;
mod laws;
mod method_labels;
mod one_line;
mod operand;
mod operation;
mod reader;
mod source_lines;
mod start;
mod state;
mod switch;
mod syntax;
mod targets;
mod unread;
mod whole_text;

pub use dj_asm_tokens::{LineTokens, Placed, Quoted, Text, Token, Word};
pub use error::AsmError;
pub use frame_types::FrameTypes;
pub use label_table::is_instruction;
pub use labelling::section_size;
pub use laws::{no_fault_of_source, one_source, one_word_fault, source_or_fault};
pub use method_labels::MethodLabels;
pub use source_lines::SourceLines;
pub use syntax::{Frame, FrameType, Line, Literal, Operation, SimpleType, Value};
pub use targets::{Labels, Pair, Pairs};
pub use whole_text::read_source;
