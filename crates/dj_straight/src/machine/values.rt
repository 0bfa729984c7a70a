ghost use Rattle.std.specs.Prelude.{◌≡◌, ◌+◌, ◌-◌, ◌<◌, length, Ok};
ghost use Rattle.std.specs.Int.{w8, int_wrap};
ghost use Rattle.dj_names.specs.trusted.Values.{value_kind};
ghost use Rattle.dj_straight.specs.trusted.Effects.{compute, is_of_kind as model_is_of_kind, slots_of, stored, without_long_before, set_local};
ghost use Rattle.dj_straight.specs.Methods.{operation_view};

use crate::program::IntOperation;
use dj_names::{Kind, Value};

/// What is computed from two ints (JVMS 6.5).
pub fn computed(operation: IntOperation, a: i32, b: i32) -> i32
    ensures { compute (operation_view operation) a b ≡ Ok result }
{
    match operation {
        IntOperation::Add => a.wrapping_add(b),
        IntOperation::Subtract => a.wrapping_sub(b),
        IntOperation::Multiply => a.wrapping_mul(b),
        IntOperation::And => a & b,
        IntOperation::Or => a | b,
        IntOperation::Xor => a ^ b,
    }
}

/// The low byte of an int, with its sign.
pub fn low_byte(value: i32) -> i8
    ensures { result ≡ int_wrap w8 value }
{
    (value.rem_euclid(256) as u8).cast_signed()
}

/// Whether the value is of this kind.
pub fn is_of_kind(kind: Kind, value: Value) -> bool
    ensures { result ≡ model_is_of_kind kind value }
{
    matches!(
        (kind, value),
        (Kind::Int, Value::Int(_)) | (Kind::Long, Value::Long(_)) | (Kind::Ref, Value::Ref(_))
    )
}

/// The last slot of a local variable of the kind at the slot (JVMS 2.6.1).
pub fn last_slot(kind: Kind, slot: u16) -> usize
    ensures { result ≡ slot + slots_of kind - 1 }
{
    match kind {
        Kind::Long => slot as usize + 1,
        Kind::Int | Kind::Ref => slot as usize,
    }
}

// A long that ends in this slot loses its value.
fn forget_long_before(locals: &mut Vec<Option<Value>>, slot: usize)
    requires { slot < length locals.old.items }
    ensures { locals.new.items ≡ without_long_before locals.old.items slot }
{
    if slot > 0 && matches!(locals[slot - 1], Some(Value::Long(_))) {
        locals[slot - 1] = None;
    }
}

// A long takes the slot after it too.
fn set_at(locals: &mut Vec<Option<Value>>, slot: usize, value: Value)
    requires { slot + slots_of (value_kind value) - 1 < length locals.old.items }
    ensures { locals.new.items ≡ set_local locals.old.items slot value }
{
    locals[slot] = Some(value);
    if let Value::Long(_) = value {
        locals[slot + 1] = None;
    }
}

/// The value is stored in the local variable.
pub fn store_local(locals: &mut Vec<Option<Value>>, slot: usize, value: Value)
    requires { slot + slots_of (value_kind value) - 1 < length locals.old.items }
    ensures { locals.new.items ≡ stored locals.old.items slot value }
{
    forget_long_before(locals, slot);
    set_at(locals, slot, value);
}
