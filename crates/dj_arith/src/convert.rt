ghost use Rattle.std.specs.Prelude.{◌≡◌, ◌^◌, pos};
ghost use Rattle.std.specs.Int.{w8, w16, w32, int_wrap, int_rem_euclid};
ghost use Rattle.dj_arith.specs.Arithmetic.{compared};

/// The same number (i2l).
pub fn int_to_long(a: i32) -> i64
    ensures { result ≡ a }
{
    i64::from(a)
}

/// The low 32 bits, with their sign (l2i).
#[tactic(auto, using(crate::proofs::Wrapping::low_int))]
pub fn long_to_int(a: i64) -> i32
    ensures { result ≡ int_wrap w32 a }
{
    (a.rem_euclid(1 << 32) as u32).cast_signed()
}

/// The low 8 bits, with their sign (i2b).
#[tactic(auto, using(crate::proofs::Wrapping::low_byte))]
pub fn int_to_byte(a: i32) -> i32
    ensures { result ≡ int_wrap w8 a }
{
    i32::from((a.rem_euclid(1 << 8) as u8).cast_signed())
}

/// The low 16 bits, without sign (i2c).
pub fn int_to_char(a: i32) -> i32
    ensures { result ≡ int_rem_euclid a (pos (2 ^ 16)) }
{
    a.rem_euclid(1 << 16)
}

/// The low 16 bits, with their sign (i2s).
#[tactic(auto, using(crate::proofs::Wrapping::low_short))]
pub fn int_to_short(a: i32) -> i32
    ensures { result ≡ int_wrap w16 a }
{
    i32::from((a.rem_euclid(1 << 16) as u16).cast_signed())
}

/// -1 where a is less than b, 0 where they are equal, and else 1 (lcmp).
pub fn cmp_long(a: i64, b: i64) -> i32
    ensures { result ≡ compared a b }
{
    if a < b {
        -1
    } else if b < a {
        1
    } else {
        0
    }
}
