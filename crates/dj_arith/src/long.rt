ghost use Rattle.std.specs.Prelude.{◌≡◌, ◌≢◌, pos, ◌+ℤ◌, ◌-ℤ◌, ◌*ℤ◌, int_rem, SomeIff};
ghost use Rattle.std.specs.Int.{w64, int_wrap, int_bit_and, int_bit_or, int_bit_xor, int_wrapping_div, int_wrapping_neg, int_shl, int_shr};
ghost use Rattle.dj_arith.specs.Arithmetic.{long_count, unsigned_shift};

/// The sum, modulo 2^64 (ladd).
pub fn add_long(a: i64, b: i64) -> i64
    ensures { result ≡ int_wrap w64 (a +ℤ b) }
{
    a.wrapping_add(b)
}

/// The difference, modulo 2^64 (lsub).
pub fn sub_long(a: i64, b: i64) -> i64
    ensures { result ≡ int_wrap w64 (a -ℤ b) }
{
    a.wrapping_sub(b)
}

/// The product, modulo 2^64 (lmul).
pub fn mul_long(a: i64, b: i64) -> i64
    ensures { result ≡ int_wrap w64 (a *ℤ b) }
{
    a.wrapping_mul(b)
}

/// Zero minus the number, modulo 2^64 (lneg).
pub fn neg_long(a: i64) -> i64
    ensures { result ≡ int_wrapping_neg w64 a }
{
    a.wrapping_neg()
}

/// The bits that both have (land).
pub fn and_long(a: i64, b: i64) -> i64
    ensures { result ≡ int_bit_and w64 a b }
{
    a & b
}

/// The bits that one of them has, or both (lor).
pub fn or_long(a: i64, b: i64) -> i64
    ensures { result ≡ int_bit_or w64 a b }
{
    a | b
}

/// The bits that exactly one of them has (lxor).
pub fn xor_long(a: i64, b: i64) -> i64
    ensures { result ≡ int_bit_xor w64 a b }
{
    a ^ b
}

/// The number shifted to the left by the low 6 bits of the count (lshl).
pub fn shl_long(a: i64, count: i32) -> i64
    ensures { result ≡ int_shl w64 a (long_count count) }
{
    a << count.rem_euclid(64).unsigned_abs()
}

/// The number shifted to the right by the low 6 bits of the count, with its sign (lshr).
pub fn shr_long(a: i64, count: i32) -> i64
    ensures { result ≡ int_shr a (long_count count) }
{
    a >> count.rem_euclid(64).unsigned_abs()
}

/// The number shifted to the right by the low 6 bits of the count, with zeros from the left (lushr).
pub fn ushr_long(a: i64, count: i32) -> i64
    ensures { result ≡ unsigned_shift w64 a (long_count count) }
{
    (a.cast_unsigned() >> count.rem_euclid(64).unsigned_abs()).cast_signed()
}

/// The quotient, rounded towards zero; the least number divided by -1 is itself (ldiv). None where the divisor is 0.
pub fn div_long(a: i64, b: i64) -> Option<i64>
    ensures { SomeIff result (b ≢ pos 0) (int_wrapping_div w64 a b) }
{
    if b == 0 {
        return None;
    }
    Some(a.wrapping_div(b))
}

/// The remainder, which has the dividend's sign (lrem). None where the divisor is 0.
pub fn rem_long(a: i64, b: i64) -> Option<i64>
    ensures { SomeIff result (b ≢ pos 0) (int_rem a b) }
{
    if b == 0 {
        return None;
    }
    Some(a.wrapping_rem(b))
}
