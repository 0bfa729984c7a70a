//! The tokens of an assembler's text: words, strings and what they mean.
#![tactic(auto)]

mod bytes;
mod label;
mod line;
mod mnemonic;
mod number;
mod piece;
mod place;
mod quoted;
mod spelling;
mod string;
mod text;
mod token;
mod tokens;
mod unit;

pub use label::label_of;
pub use line::{line_at, lines_after};
pub use mnemonic::{base_of, opcode_of};
pub use number::{Number, flags_of, number_of};
pub use spelling::{after_prefix, row_at, spells};
pub use text::{NameKind, Text, is_of_kind, text_of};
pub use token::{Placed, Quoted, Token, Word};
pub use tokens::LineTokens;
pub use unit::unit_at;
