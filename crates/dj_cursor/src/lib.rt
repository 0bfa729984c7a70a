//! Bytes that are read from left to right: where a reader is, the numbers there, and the words that tie what is read to its spelling; and the bytes of
//! big-endian fields.
#![tactic(auto)]

mod cursor;
mod fields;

pub use cursor::{Cursor, Cut};
pub use fields::{u2_bytes, u4_bytes, u8_bytes};
