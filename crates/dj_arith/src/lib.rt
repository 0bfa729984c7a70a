//! Whole numbers as the instructions compute them (JVMS 6.5): all calls are total, wrap around and take no memory.
#![tactic(auto)]

mod convert;
mod int;
mod long;

pub use convert::{cmp_long, int_to_byte, int_to_char, int_to_long, int_to_short, long_to_int};
pub use int::{
    add_int, and_int, div_int, mul_int, neg_int, or_int, rem_int, shl_int, shr_int, sub_int,
    ushr_int, xor_int,
};
pub use long::{
    add_long, and_long, div_long, mul_long, neg_long, or_long, rem_long, shl_long, shr_long,
    sub_long, ushr_long, xor_long,
};
