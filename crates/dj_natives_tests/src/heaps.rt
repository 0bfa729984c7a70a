ghost use Rattle.std.specs.Prelude.{IsSome, IsTrue};
ghost use Rattle.dj_heap.specs.Heaps.{element_in, field_in, object_in, unit_in};

use dj_heap::{Heap, Made};

/// Whether there is an object of this number.
#[tactic(auto, using(crate::proofs::Places::object_here))]
pub fn has_object(heap: &Heap, r: u32) -> bool
    ensures { IsTrue result → IsSome (object_in heap.now r) }
{
    if r == 0 {
        return false;
    }
    r <= heap.count()
}

/// Whether it is an instance with a field at the place.
#[tactic(auto, using(crate::proofs::Places::field_here))]
pub fn has_field(heap: &Heap, r: u32, at: u32) -> bool
    ensures { IsTrue result → IsSome (field_in heap.now r at) }
{
    if !has_object(heap, r) {
        return false;
    }
    let Made::Instance = heap.made(r) else {
        return false;
    };
    at < heap.length(r)
}

/// Whether it is an array with an element at the place.
#[tactic(auto, using(crate::proofs::Places::element_here))]
pub fn has_element(heap: &Heap, r: u32, at: u32) -> bool
    ensures { IsTrue result → IsSome (element_in heap.now r at) }
{
    if !has_object(heap, r) {
        return false;
    }
    let Made::Array(_) = heap.made(r) else {
        return false;
    };
    at < heap.length(r)
}

/// Whether it is a text with a unit at the place.
#[tactic(auto, using(crate::proofs::Places::unit_here))]
pub fn has_unit(heap: &Heap, r: u32, at: u32) -> bool
    ensures { IsTrue result → IsSome (unit_in heap.now r at) }
{
    if !has_object(heap, r) {
        return false;
    }
    let Made::Text = heap.made(r) else {
        return false;
    };
    at < heap.length(r)
}

/// Whether the object is of this class.
pub fn is_of_class(heap: &Heap, r: u32, class: u32) -> bool {
    has_object(heap, r) && heap.class_of(r) == class
}

/// Whether the object is a text of these units.
pub fn is_text(heap: &Heap, r: u32, units: &[u16]) -> bool {
    if !has_object(heap, r) || heap.made(r) != Made::Text {
        return false;
    }
    if heap.length(r) as usize != units.len() {
        return false;
    }
    for (at, unit) in units.iter().enumerate() {
        if !has_unit(heap, r, at as u32) || heap.unit(r, at as u32) != *unit {
            return false;
        }
    }
    true
}

/// Whether the elements of the array are these.
pub fn are_elements(heap: &Heap, r: u32, elements: &[i64]) -> bool {
    if !has_object(heap, r) || heap.length(r) as usize != elements.len() {
        return false;
    }
    for (at, z) in elements.iter().enumerate() {
        if !has_element(heap, r, at as u32) || heap.element(r, at as u32) != *z {
            return false;
        }
    }
    true
}

/// The field of an instance, where it has one.
pub fn field(heap: &Heap, r: u32, at: u32) -> Option<u64> {
    if has_field(heap, r, at) {
        Some(heap.field(r, at))
    } else {
        None
    }
}

/// Gives a field other bits, where there is one.
pub fn set_field(heap: &mut Heap, r: u32, at: u32, bits: u64) -> Option<()> {
    if !has_field(heap, r, at) {
        return None;
    }
    heap.set_field(r, at, bits);
    Some(())
}

/// Gives an element another number, where there is one.
pub fn set_element(heap: &mut Heap, r: u32, at: u32, z: i64) -> Option<()> {
    if !has_element(heap, r, at) {
        return None;
    }
    heap.set_element(r, at, z);
    Some(())
}
