ghost use Rattle.std.specs.Prelude.{◌≡◌, Some, IfOk};
ghost use Rattle.dj_names.specs.declared.run.Value.{Value};
ghost use Rattle.dj_model.specs.trusted.Instructions.{Push};
ghost use Rattle.dj_heap.specs.Heaps.{LimitedHeap};
ghost use Rattle.dj_image.specs.Imaged.{Imaged};
ghost use Rattle.dj_image_effects.specs.Acting.{ActsOnHeap};
ghost use Rattle.dj_image_effects.specs.Frugal.{FrugalOnHeap};
ghost use Rattle.dj_effects.specs.Does.{Does, Fits};
ghost use Rattle.dj_image_effects.specs.Numbers.{literal_push, literal_value};

use crate::acted::{Acted, way_acted};
use crate::asking::has_room;
use dj_effects::{Way, nop, push};
use dj_image::Operand;
use dj_names::Value;
use dj_stack::Frames;
use std::alloc::AllocError;

/// ldc of a number.
#[tactic(auto, using(crate::proofs::LiteralPushes::literal_room))]
pub fn act_literal(frames: &mut Frames, operand: Operand) -> Result<Acted, AllocError>
    ensures done { (imaged : Imaged) (heap : LimitedHeap) (v : Value) → literal_value operand ≡ Some v
        → IfOk result (λ acted. ActsOnHeap imaged (Push v) frames.old frames.new heap heap acted) }
    ensures frugal { (imaged : Imaged) (heap : LimitedHeap) (v : Value) → FrugalOnHeap imaged (Push v) frames.old heap result }
{
    if !has_room(frames, 1) {
        // Never in a sound program.
        return Err(AllocError);
    }
    Ok(way_acted(push_literal(frames, operand)))
}

// A number that an instruction names is pushed.
#[tactic(auto, using(crate::proofs::LiteralPushes::pushed_value, crate::proofs::LiteralPushes::fits_value, crate::proofs::LiteralPushes::no_value))]
fn push_literal(frames: &mut Frames, operand: Operand) -> Option<Way>
    requires { Fits (literal_push operand) frames.old }
    ensures { Does (literal_push operand) frames.old frames.new result }
{
    match literal_value(operand) {
        Some(value) => push(frames, value),
        None => nop(frames),
    }
}

// The value that an operand is, where it is a number.
fn literal_value(operand: Operand) -> Option<Value>
    ensures { result ≡ literal_value operand }
{
    match operand {
        Operand::Int(z) => Some(Value::Int(z)),
        Operand::Long(z) => Some(Value::Long(z)),
        _ => None,
    }
}
