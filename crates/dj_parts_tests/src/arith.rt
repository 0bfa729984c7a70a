use crate::arith_rows::{
    ADD_INT, ADD_LONG, AND_INT, AND_LONG, CMP_LONG, DIV_INT, DIV_LONG, INT_TO_BYTE, INT_TO_CHAR,
    INT_TO_LONG, INT_TO_SHORT, LONG_TO_INT, MUL_INT, MUL_LONG, NEG_INT, NEG_LONG, OR_INT, OR_LONG,
    REM_INT, REM_LONG, SHL_INT, SHL_LONG, SHR_INT, SHR_LONG, SUB_INT, SUB_LONG, USHR_INT,
    USHR_LONG, XOR_INT, XOR_LONG,
};
use dj_arith::{
    add_int, add_long, and_int, and_long, cmp_long, div_int, div_long, int_to_byte, int_to_char,
    int_to_long, int_to_short, long_to_int, mul_int, mul_long, neg_int, neg_long, or_int, or_long,
    rem_int, rem_long, shl_int, shl_long, shr_int, shr_long, sub_int, sub_long, ushr_int,
    ushr_long, xor_int, xor_long,
};

#[test]
fn sums_wrap(rt: HostRuntime) {
    for (a, b, wanted) in &ADD_INT {
        assert!(rt; add_int(*a, *b) == *wanted, "add_int {a} {b}");
    }
    for (a, b, wanted) in &ADD_LONG {
        assert!(rt; add_long(*a, *b) == *wanted, "add_long {a} {b}");
    }
}

#[test]
fn differences_wrap(rt: HostRuntime) {
    for (a, b, wanted) in &SUB_INT {
        assert!(rt; sub_int(*a, *b) == *wanted, "sub_int {a} {b}");
    }
    for (a, b, wanted) in &SUB_LONG {
        assert!(rt; sub_long(*a, *b) == *wanted, "sub_long {a} {b}");
    }
}

#[test]
fn products_wrap(rt: HostRuntime) {
    for (a, b, wanted) in &MUL_INT {
        assert!(rt; mul_int(*a, *b) == *wanted, "mul_int {a} {b}");
    }
    for (a, b, wanted) in &MUL_LONG {
        assert!(rt; mul_long(*a, *b) == *wanted, "mul_long {a} {b}");
    }
}

#[test]
fn the_least_number_is_its_own_negative(rt: HostRuntime) {
    for (a, wanted) in &NEG_INT {
        assert!(rt; neg_int(*a) == *wanted, "neg_int {a}");
    }
    for (a, wanted) in &NEG_LONG {
        assert!(rt; neg_long(*a) == *wanted, "neg_long {a}");
    }
}

#[test]
fn the_bits_of_both(rt: HostRuntime) {
    for (a, b, wanted) in &AND_INT {
        assert!(rt; and_int(*a, *b) == *wanted, "and_int {a} {b}");
    }
    for (a, b, wanted) in &AND_LONG {
        assert!(rt; and_long(*a, *b) == *wanted, "and_long {a} {b}");
    }
}

#[test]
fn the_bits_of_one_or_both(rt: HostRuntime) {
    for (a, b, wanted) in &OR_INT {
        assert!(rt; or_int(*a, *b) == *wanted, "or_int {a} {b}");
    }
    for (a, b, wanted) in &OR_LONG {
        assert!(rt; or_long(*a, *b) == *wanted, "or_long {a} {b}");
    }
}

#[test]
fn the_bits_of_one_alone(rt: HostRuntime) {
    for (a, b, wanted) in &XOR_INT {
        assert!(rt; xor_int(*a, *b) == *wanted, "xor_int {a} {b}");
    }
    for (a, b, wanted) in &XOR_LONG {
        assert!(rt; xor_long(*a, *b) == *wanted, "xor_long {a} {b}");
    }
}

#[test]
fn a_quotient_is_rounded_to_zero(rt: HostRuntime) {
    for (a, b, wanted) in &DIV_INT {
        assert!(rt; div_int(*a, *b) == *wanted, "div_int {a} {b}");
    }
    for (a, b, wanted) in &DIV_LONG {
        assert!(rt; div_long(*a, *b) == *wanted, "div_long {a} {b}");
    }
}

#[test]
fn a_remainder_has_the_sign_of_the_dividend(rt: HostRuntime) {
    for (a, b, wanted) in &REM_INT {
        assert!(rt; rem_int(*a, *b) == *wanted, "rem_int {a} {b}");
    }
    for (a, b, wanted) in &REM_LONG {
        assert!(rt; rem_long(*a, *b) == *wanted, "rem_long {a} {b}");
    }
}

#[test]
fn the_low_bits_of_the_count_shift_to_the_left(rt: HostRuntime) {
    for (a, count, wanted) in &SHL_INT {
        assert!(rt; shl_int(*a, *count) == *wanted, "shl_int {a} {count}");
    }
    for (a, count, wanted) in &SHL_LONG {
        assert!(rt; shl_long(*a, *count) == *wanted, "shl_long {a} {count}");
    }
}

#[test]
fn the_sign_follows_to_the_right(rt: HostRuntime) {
    for (a, count, wanted) in &SHR_INT {
        assert!(rt; shr_int(*a, *count) == *wanted, "shr_int {a} {count}");
    }
    for (a, count, wanted) in &SHR_LONG {
        assert!(rt; shr_long(*a, *count) == *wanted, "shr_long {a} {count}");
    }
}

#[test]
fn zeros_follow_to_the_right(rt: HostRuntime) {
    for (a, count, wanted) in &USHR_INT {
        assert!(rt; ushr_int(*a, *count) == *wanted, "ushr_int {a} {count}");
    }
    for (a, count, wanted) in &USHR_LONG {
        assert!(rt; ushr_long(*a, *count) == *wanted, "ushr_long {a} {count}");
    }
}

#[test]
fn an_int_is_the_same_long(rt: HostRuntime) {
    for (a, wanted) in &INT_TO_LONG {
        assert!(rt; int_to_long(*a) == *wanted, "int_to_long {a}");
    }
}

#[test]
fn a_long_is_cut_to_an_int(rt: HostRuntime) {
    for (a, wanted) in &LONG_TO_INT {
        assert!(rt; long_to_int(*a) == *wanted, "long_to_int {a}");
    }
}

#[test]
fn an_int_is_cut_to_a_byte(rt: HostRuntime) {
    for (a, wanted) in &INT_TO_BYTE {
        assert!(rt; int_to_byte(*a) == *wanted, "int_to_byte {a}");
    }
}

#[test]
fn an_int_is_cut_to_a_char(rt: HostRuntime) {
    for (a, wanted) in &INT_TO_CHAR {
        assert!(rt; int_to_char(*a) == *wanted, "int_to_char {a}");
    }
}

#[test]
fn an_int_is_cut_to_a_short(rt: HostRuntime) {
    for (a, wanted) in &INT_TO_SHORT {
        assert!(rt; int_to_short(*a) == *wanted, "int_to_short {a}");
    }
}

#[test]
fn longs_are_compared(rt: HostRuntime) {
    for (a, b, wanted) in &CMP_LONG {
        assert!(rt; cmp_long(*a, *b) == *wanted, "cmp_long {a} {b}");
    }
}
