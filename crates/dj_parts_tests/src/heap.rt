ghost use Rattle.std.specs.Prelude.{IsSome, IsTrue};
ghost use Rattle.dj_heap.specs.Heaps.{element_in, field_in, object_in, unit_in};

use crate::sequences::{Answer, LIMITS, READS_AND_WRITES, REFUSALS, SIZES, Sequence, Step};
use dj_heap::{Heap, HeapError, Made};
use std::alloc::Global;

// ---- what is there

// Whether there is an object of this number.
fn has_object(heap: &Heap, r: u32) -> bool
    ensures { IsTrue result → IsSome (object_in heap.now r) }
{
    0 < r && r <= heap.count()
}

// Whether it is an instance with a field at the place.
#[tactic(auto, using(crate::proofs::Places::field_here))]
fn has_field(heap: &Heap, r: u32, at: u32) -> bool
    ensures { IsTrue result → IsSome (field_in heap.now r at) }
{
    if !has_object(heap, r) {
        return false;
    }
    let Made::Instance = heap.made(r) else {
        return false;
    };
    at < heap.length(r)
}

// Whether it is an array with an element at the place.
#[tactic(auto, using(crate::proofs::Places::element_here))]
fn has_element(heap: &Heap, r: u32, at: u32) -> bool
    ensures { IsTrue result → IsSome (element_in heap.now r at) }
{
    if !has_object(heap, r) {
        return false;
    }
    let Made::Array(_) = heap.made(r) else {
        return false;
    };
    at < heap.length(r)
}

// Whether it is a text with a unit at the place.
#[tactic(auto, using(crate::proofs::Places::unit_here))]
fn has_unit(heap: &Heap, r: u32, at: u32) -> bool
    ensures { IsTrue result → IsSome (unit_in heap.now r at) }
{
    if !has_object(heap, r) {
        return false;
    }
    let Made::Text = heap.made(r) else {
        return false;
    };
    at < heap.length(r)
}

// ---- what is done

fn is_made(made: Result<u32, HeapError>, answer: Answer) -> bool {
    match made {
        Ok(number) => answer == Ok(number),
        Err(HeapError::Full { used, size }) => answer == Err((used, size)),
        Err(HeapError::Memory) => false,
    }
}

fn set_element(heap: &mut Heap, r: u32, at: u32, value: i64) -> bool {
    if !has_element(heap, r, at) {
        return false;
    }
    heap.set_element(r, at, value);
    true
}

fn set_field(heap: &mut Heap, r: u32, at: u32, bits: u64) -> bool {
    if !has_field(heap, r, at) {
        return false;
    }
    heap.set_field(r, at, bits);
    true
}

fn is_read(heap: &Heap, step: &Step) -> bool {
    match step {
        Step::Element(r, at, value) => has_element(heap, *r, *at)
            && heap.element(*r, *at) == *value,
        Step::Field(r, at, bits) => has_field(heap, *r, *at) && heap.field(*r, *at) == *bits,
        Step::Unit(r, at, unit) => has_unit(heap, *r, *at) && heap.unit(*r, *at) == *unit,
        _ => false,
    }
}

fn is_reported(heap: &Heap, step: &Step) -> bool {
    match step {
        Step::Length(r, length) => has_object(heap, *r) && heap.length(*r) == *length,
        Step::ClassOf(r, class) => has_object(heap, *r) && heap.class_of(*r) == *class,
        Step::Made(r, made) => has_object(heap, *r) && heap.made(*r) == *made,
        Step::Used(bytes) => heap.used() == *bytes,
        Step::Count(objects) => heap.count() == *objects,
        _ => is_read(heap, step),
    }
}

// Whether the call answers what the step says.
fn is_answered(heap: &mut Heap, step: &Step) -> bool {
    match step {
        Step::Instance(class, fields, answer) => is_made(heap.instance(*class, *fields), *answer),
        Step::Array(class, element, n, answer) => {
            is_made(heap.array(*class, *element, *n), *answer)
        }
        Step::Text(class, units, answer) => is_made(heap.text(*class, *units), *answer),
        Step::SetElement(r, at, value) => set_element(heap, *r, *at, *value),
        Step::SetField(r, at, bits) => set_field(heap, *r, *at, *bits),
        _ => is_reported(heap, step),
    }
}

fn are_answered(alloc: Global, sequence: &Sequence) -> bool {
    if 2147483648 < sequence.0 {
        return false;
    }
    let mut heap = Heap::new(alloc, sequence.0);
    for step in sequence.1 {
        if !is_answered(&mut heap, step) {
            return false;
        }
    }
    true
}

#[test]
fn objects_are_made_up_to_the_limit(rt: HostRuntime) {
    for (number, sequence) in LIMITS.iter().enumerate() {
        assert!(rt; are_answered(rt.alloc(), sequence), "sequence {number}");
    }
}

#[test]
fn objects_have_their_sizes(rt: HostRuntime) {
    for (number, sequence) in SIZES.iter().enumerate() {
        assert!(rt; are_answered(rt.alloc(), sequence), "sequence {number}");
    }
}

#[test]
fn what_is_written_is_read(rt: HostRuntime) {
    for (number, sequence) in READS_AND_WRITES.iter().enumerate() {
        assert!(rt; are_answered(rt.alloc(), sequence), "sequence {number}");
    }
}

#[test]
fn a_refusal_changes_nothing(rt: HostRuntime) {
    for (number, sequence) in REFUSALS.iter().enumerate() {
        assert!(rt; are_answered(rt.alloc(), sequence), "sequence {number}");
    }
}
