ghost use Rattle.std.specs.Prelude.{◌≡◌, ◌<◌, ℕ, Some, IfOk, length, map, slice_get};
ghost use Rattle.std.specs.Int.{w8, cast_unsigned};
ghost use Rattle.dj_names.specs.declared.descriptor.Ty.{Ty};
ghost use Rattle.dj_names.specs.declared.run.Element.TheVariants as elements;
ghost use Rattle.dj_names.specs.Heaps.{heap_map};
ghost use Rattle.dj_model.specs.trusted.Step as model;
ghost use Rattle.dj_unwinding.specs.Results.{HasElements, array_outcome, contents_at, reference_outcome, value_outcome};

use dj_heap::{Heap, Made};
use dj_names::{Bytes, Element, Outcome, Value};
use std::alloc::{AllocError, Global};

/// How a run ends with the last return, by what is returned: null, an array of bytes, or anything else.
#[tactic(auto, using(crate::proofs::Outcomes::outcome_reported))]
pub fn result_outcome(
    alloc: Global,
    heap: &Heap,
    value: Option<Value>,
) -> Result<Outcome, AllocError>
    ensures { (type_of : ℕ → Ty) → IfOk result (λ outcome. outcome ≡ model.result_outcome (heap_map type_of heap.now.heap) value) }
{
    value_outcome(alloc, heap, value)
}

// The same, by the numbers of classes.
fn value_outcome(alloc: Global, heap: &Heap, value: Option<Value>) -> Result<Outcome, AllocError>
    ensures { IfOk result (λ outcome. outcome ≡ value_outcome heap.now.heap value) }
{
    match value {
        Some(Value::Ref(r)) => reference_outcome(alloc, heap, r),
        Some(Value::Int(_)) => Ok(Outcome::Link),
        Some(Value::Long(_)) => Ok(Outcome::Link),
        None => Ok(Outcome::Link),
    }
}

#[tactic(auto, using(crate::proofs::Outcomes::object_there, crate::proofs::Outcomes::null_outcome, crate::proofs::Outcomes::no_object, crate::proofs::Outcomes::instance_outcome, crate::proofs::Outcomes::text_outcome, crate::proofs::Outcomes::elements_there, crate::proofs::Outcomes::outcome_of_array))]
fn reference_outcome(alloc: Global, heap: &Heap, r: u32) -> Result<Outcome, AllocError>
    ensures { IfOk result (λ outcome. outcome ≡ reference_outcome heap.now.heap r) }
{
    if r == 0 {
        return Ok(Outcome::OkNull);
    }
    if heap.count() < r {
        return Ok(Outcome::Link);
    }
    match heap.made(r) {
        Made::Array(element) => array_outcome(alloc, heap, r, element),
        Made::Instance => Ok(Outcome::Link),
        Made::Text => Ok(Outcome::Link),
    }
}

// The outcome where an array of such elements is returned.
fn array_outcome(
    alloc: Global,
    heap: &Heap,
    r: u32,
    element: Element,
) -> Result<Outcome, AllocError>
    requires { HasElements heap.now r element }
    ensures { IfOk result (λ outcome. outcome ≡ array_outcome element (contents_at heap.now r)) }
{
    match element {
        Element::Byte => Ok(Outcome::OkBytes(bytes_at(alloc, heap, r)?)),
        Element::Boolean => Ok(Outcome::Link),
        Element::Char => Ok(Outcome::Link),
        Element::Short => Ok(Outcome::Link),
        Element::Int => Ok(Outcome::Link),
        Element::Long => Ok(Outcome::Link),
        Element::Ref => Ok(Outcome::Link),
    }
}

// The elements of an array of bytes, without their sign.
#[tactic(auto, using(crate::proofs::Outcomes::length_reported))]
fn bytes_at(alloc: Global, heap: &Heap, r: u32) -> Result<Bytes, AllocError>
    requires { HasElements heap.now r elements.Byte }
    ensures { IfOk result (λ bytes. bytes ≡ map (cast_unsigned w8) (contents_at heap.now r)) }
{
    let mut bytes = Bytes::new(alloc);
    for at in 0..heap.length(r) {
        bytes.push(byte_at(heap, r, at))?;
    }
    Ok(bytes)
}

// An element of an array of bytes, without its sign.
#[tactic(auto, using(crate::proofs::Outcomes::element_there, crate::proofs::Outcomes::byte_reported))]
fn byte_at(heap: &Heap, r: u32, at: u32) -> u8
    requires bytes { HasElements heap.now r elements.Byte }
    requires there { at < length (contents_at heap.now r) }
    ensures { slice_get (map (cast_unsigned w8) (contents_at heap.now r)) at ≡ Some result }
{
    heap.element(r, at).rem_euclid(1 << 8) as u8
}
