ghost use Rattle.std.specs.Prelude.{◌≡◌, ◌-◌, ◌<◌, ◌≤◌, ◌^◌, List, [], ◌∷◌, length, map, replicate, Some, None, IfOk};
ghost use Rattle.std.specs.Int.{w8, cast_signed, cast_unsigned};
ghost use Rattle.dj_names.specs.declared.run.Value.TheVariants as values;
ghost use Rattle.dj_straight.specs.trusted.Metered.{input_array, input_size};

use crate::machine::heap::Heap;
use crate::machine::operands::Operands;
use crate::machine::parts::StraightMachine;
use dj_names::{Bytes, Value};
use std::alloc::{AllocError, Global};

// The bytes as elements of an array.
fn signed_bytes(alloc: Global, bytes: &[u8]) -> Result<Vec<i8>, AllocError>
    ensures { IfOk result (λ signed. signed.items ≡ map (cast_signed w8) bytes.now) }
{
    let mut signed = Vec::with_capacity(alloc, bytes.len())?;
    for byte in bytes {
        signed.push(byte.cast_signed())?;
    }
    Ok(signed)
}

/// The elements of an array as bytes.
pub fn unsigned_bytes(alloc: Global, bytes: &[i8]) -> Result<Bytes, AllocError>
    ensures { IfOk result (λ unsigned. unsigned ≡ map (cast_unsigned w8) bytes.now) }
{
    let mut unsigned = Vec::with_capacity(alloc, bytes.len())?;
    for byte in bytes {
        unsigned.push(byte.cast_unsigned())?;
    }
    Ok(Bytes::from(unsigned))
}

// The array of the input, and then local variables without values.
fn first_locals(alloc: Global, max_locals: u16) -> Result<Vec<Option<Value>>, AllocError>
    requires { 0 < max_locals }
    ensures { IfOk result (λ locals. locals.items ≡ Some (values.Ref 1) ∷ replicate (max_locals - 1) None) }
{
    let mut locals: Vec<Option<Value>> = vec![in alloc; None; max_locals as usize]?;
    locals[0] = Some(Value::Ref(1));
    Ok(locals)
}

/// The machine before the first instruction.
pub fn first_machine(
    alloc: Global,
    max_locals: u16,
    input: &[u8],
) -> Result<StraightMachine, AllocError>
    requires locals { 0 < max_locals }
    requires input { length input.now ≤ 1048576 }
    ensures locals { IfOk result (λ m. m.locals.items ≡ Some (values.Ref 1) ∷ replicate (max_locals - 1) None) }
    ensures operands { IfOk result (λ m. m.operands ≡ []) }
    ensures heap { IfOk result (λ m. m.heap ≡ record { objects = input_array input.now ∷ []; used = input_size input.now }) }
{
    let heap = Heap::with_array(alloc, signed_bytes(alloc, input)?)?;
    Ok(StraightMachine {
        locals: first_locals(alloc, max_locals)?,
        operands: Operands::new(alloc),
        heap,
    })
}
