ghost use Rattle.std.specs.Prelude.{◌≡◌, ◌%◌, ◌^◌};
ghost use Rattle.dj_names.specs.trusted.Heaps.{field_bits, field_value};

use dj_names::{Kind, Value};

/// The 64 bits of a value, an int with its sign.
pub fn field_bits(value: Value) -> u64
    ensures { result ≡ field_bits value }
{
    match value {
        Value::Int(z) => i64::from(z).cast_unsigned(),
        Value::Long(z) => z.cast_unsigned(),
        Value::Ref(r) => u64::from(r),
    }
}

/// The value of a kind that these 64 bits are.
#[tactic(auto, using(crate::proofs::LowHalves::low_half))]
pub fn field_value(kind: Kind, bits: u64) -> Value
    ensures { result ≡ field_value kind bits }
{
    match kind {
        Kind::Int => Value::Int(low_half(bits).cast_signed()),
        Kind::Long => Value::Long(bits.cast_signed()),
        Kind::Ref => Value::Ref(low_half(bits)),
    }
}

// The low 32 bits.
fn low_half(bits: u64) -> u32
    ensures { result ≡ bits % 2 ^ 32 }
{
    (bits % (1 << 32)) as u32
}
