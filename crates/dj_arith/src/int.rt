ghost use Rattle.std.specs.Prelude.{◌≡◌, ◌≢◌, pos, ◌+ℤ◌, ◌-ℤ◌, ◌*ℤ◌, int_rem, SomeIff};
ghost use Rattle.std.specs.Int.{w32, int_wrap, int_bit_and, int_bit_or, int_bit_xor, int_wrapping_div, int_wrapping_neg, int_shl, int_shr};
ghost use Rattle.dj_arith.specs.Arithmetic.{int_count, unsigned_shift};

/// The sum, modulo 2^32 (iadd).
pub fn add_int(a: i32, b: i32) -> i32
    ensures { result ≡ int_wrap w32 (a +ℤ b) }
{
    a.wrapping_add(b)
}

/// The difference, modulo 2^32 (isub).
pub fn sub_int(a: i32, b: i32) -> i32
    ensures { result ≡ int_wrap w32 (a -ℤ b) }
{
    a.wrapping_sub(b)
}

/// The product, modulo 2^32 (imul).
pub fn mul_int(a: i32, b: i32) -> i32
    ensures { result ≡ int_wrap w32 (a *ℤ b) }
{
    a.wrapping_mul(b)
}

/// Zero minus the number, modulo 2^32 (ineg).
pub fn neg_int(a: i32) -> i32
    ensures { result ≡ int_wrapping_neg w32 a }
{
    a.wrapping_neg()
}

/// The bits that both have (iand).
pub fn and_int(a: i32, b: i32) -> i32
    ensures { result ≡ int_bit_and w32 a b }
{
    a & b
}

/// The bits that one of them has, or both (ior).
pub fn or_int(a: i32, b: i32) -> i32
    ensures { result ≡ int_bit_or w32 a b }
{
    a | b
}

/// The bits that exactly one of them has (ixor).
pub fn xor_int(a: i32, b: i32) -> i32
    ensures { result ≡ int_bit_xor w32 a b }
{
    a ^ b
}

/// The number shifted to the left by the low 5 bits of the count (ishl).
pub fn shl_int(a: i32, count: i32) -> i32
    ensures { result ≡ int_shl w32 a (int_count count) }
{
    a << count.rem_euclid(32).unsigned_abs()
}

/// The number shifted to the right by the low 5 bits of the count, with its sign (ishr).
pub fn shr_int(a: i32, count: i32) -> i32
    ensures { result ≡ int_shr a (int_count count) }
{
    a >> count.rem_euclid(32).unsigned_abs()
}

/// The number shifted to the right by the low 5 bits of the count, with zeros from the left (iushr).
pub fn ushr_int(a: i32, count: i32) -> i32
    ensures { result ≡ unsigned_shift w32 a (int_count count) }
{
    (a.cast_unsigned() >> count.rem_euclid(32).unsigned_abs()).cast_signed()
}

/// The quotient, rounded towards zero; the least number divided by -1 is itself (idiv). None where the divisor is 0.
pub fn div_int(a: i32, b: i32) -> Option<i32>
    ensures { SomeIff result (b ≢ pos 0) (int_wrapping_div w32 a b) }
{
    if b == 0 {
        return None;
    }
    Some(a.wrapping_div(b))
}

/// The remainder, which has the dividend's sign (irem). None where the divisor is 0.
pub fn rem_int(a: i32, b: i32) -> Option<i32>
    ensures { SomeIff result (b ≢ pos 0) (int_rem a b) }
{
    if b == 0 {
        return None;
    }
    Some(a.wrapping_rem(b))
}
