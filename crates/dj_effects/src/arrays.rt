ghost use Rattle.std.specs.Prelude.{◌≡◌, ◌<◌, ◌^◌, ℕ, Bool, true, Some, IfOk};
ghost use Rattle.dj_names.specs.declared.descriptor.Kind.TheVariants as kinds;
ghost use Rattle.dj_names.specs.declared.run.Element.TheVariants as elements;
ghost use Rattle.dj_names.specs.trusted.Heaps.{value_number};
ghost use Rattle.dj_model.specs.trusted.Arrays as arrays;
ghost use Rattle.dj_model.specs.trusted.Arrays.{access_kind, array_at, reaches};
ghost use Rattle.dj_model.specs.trusted.Numbers.{is_of_kind};
ghost use Rattle.dj_heap.specs.Heaps.{low_bits};
ghost use Rattle.dj_stack.specs.Frames.{top_operands};
ghost use Rattle.dj_effects.specs.Actions.{access_view};
ghost use Rattle.dj_effects.specs.Arrays.{array_reported, place_at, place_of, takes_value, value_of};
ghost use Rattle.dj_effects.specs.DoesOnHeap.{DoesOnHeap, FitsOnHeap, IsTakenSo};

use crate::actions::Access;
use crate::top::{is_of_kind, pop, pop_place};
use crate::way::{Flow, Way};
use dj_arith::long_to_int;
use dj_heap::{Heap, HeapError, Made};
use dj_names::{Element, Kind, Raised, Value};
use dj_stack::Frames;
use std::alloc::AllocError;

/// An index and an array are taken, and the element is pushed.
#[tactic(auto, using(crate::proofs::LoadFacts::not_placed, crate::proofs::ArrayFacts::element_there))]
pub fn load_element(frames: &mut Frames, heap: &Heap, access: Access) -> Option<Flow>
    requires { FitsOnHeap (arrays.load_element (access_view access)) frames.old heap.now }
    ensures { DoesOnHeap (arrays.load_element (access_view access)) frames.old frames.new heap.now heap.now result }
{
    let (index, r) = pop_place(frames)?;
    match place_of(heap, access, r, index) {
        Ok((element, at)) => {
            frames.push_value(value_of(element, heap.element(r, at)));
            Some(Flow::Goes(Way::Next))
        }
        Err(flow) => Some(flow),
    }
}

/// A value, an index and an array are taken, and the value is stored; a reference is stored where the array takes it.
pub fn store_element(
    frames: &mut Frames,
    heap: &mut Heap,
    access: Access,
    is_taken: bool,
) -> Option<Flow>
    ensures { (takes : ℕ → ℕ → Bool) → IsTakenSo takes (top_operands frames.old) is_taken
        → DoesOnHeap (arrays.store_element takes (access_view access)) frames.old frames.new heap.old heap.new result }
{
    store_reported(frames, heap, access, is_taken)
}

// Whether the array takes the reference is given.
#[tactic(auto, using(crate::proofs::StoreFacts::no_value, crate::proofs::StoreFacts::no_place, crate::proofs::StoreFacts::no_such_value, crate::proofs::ArrayFacts::element_there))]
fn store_reported(
    frames: &mut Frames,
    heap: &mut Heap,
    access: Access,
    is_taken: bool,
) -> Option<Flow>
    ensures { DoesOnHeap (arrays.store_element (λ r v. is_taken) (access_view access)) frames.old frames.new heap.old heap.new result }
{
    let value = pop(frames)?;
    if !is_of_kind(access_kind(access), value) {
        return None;
    }
    let (index, r) = pop_place(frames)?;
    match place_of(heap, access, r, index) {
        Ok((_, at)) => {
            if !takes_value(value, is_taken) {
                return Some(Flow::Goes(Way::Raise(Raised::ArrayStore)));
            }
            heap.set_element(r, at, value_number(value));
            Some(Flow::Goes(Way::Next))
        }
        Err(flow) => Some(flow),
    }
}

/// An array is taken, and its length pushed.
#[tactic(auto, using(crate::proofs::LoadFacts::says_length, crate::proofs::LoadFacts::says_no_length), unfolding(dj_model::specs::trusted::Arrays::array_length))]
pub fn array_length(frames: &mut Frames, heap: &Heap) -> Option<Flow>
    requires { FitsOnHeap arrays.array_length frames.old heap.now }
    ensures { DoesOnHeap arrays.array_length frames.old frames.new heap.now heap.now result }
{
    let Some(Value::Ref(r)) = pop(frames) else {
        return None;
    };
    match array_reported(heap, r) {
        Ok((_, n)) => {
            frames.push_value(Value::Int(n.cast_signed()));
            Some(Flow::Goes(Way::Next))
        }
        Err(flow) => Some(flow),
    }
}

/// A length is taken, and an array of the class with this many elements, all zero, is made and pushed.
#[tactic(auto, unfolding(dj_model::specs::trusted::Arrays::make_array), using(crate::proofs::MakeFacts::makes, crate::proofs::MakeFacts::makes_none, crate::proofs::MakeFacts::makes_too_large))]
pub fn new_array(
    frames: &mut Frames,
    heap: &mut Heap,
    class: u32,
    element: Element,
) -> Result<Option<Flow>, AllocError>
    requires { FitsOnHeap (arrays.make_array (Some heap.old.limit) class element) frames.old heap.old }
    ensures { IfOk result (λ flow. DoesOnHeap (arrays.make_array (Some heap.old.limit) class element) frames.old frames.new heap.old heap.new flow) }
{
    let Some(Value::Int(n)) = pop(frames) else {
        return Ok(None);
    };
    if n < 0 {
        return Ok(Some(Flow::Goes(Way::Raise(Raised::NegativeArraySize))));
    }
    match heap.array(class, element, n.unsigned_abs()) {
        Ok(r) => {
            frames.push_value(Value::Ref(r));
            Ok(Some(Flow::Goes(Way::Next)))
        }
        Err(HeapError::Full { used, size }) => Ok(Some(Flow::HeapFull { used, size })),
        Err(HeapError::Memory) => Err(AllocError),
    }
}

// ---- arrays

// What the elements of an array are and how many, or how the run goes on in its place.
#[tactic(auto, using(crate::proofs::ArrayFacts::found_null, crate::proofs::ArrayFacts::found_array, crate::proofs::ArrayFacts::found_instance, crate::proofs::ArrayFacts::found_text))]
fn array_reported(heap: &Heap, r: u32) -> Result<(Element, u32), Flow>
    ensures reported { result ≡ array_reported (array_at heap.now.heap r) }
    ensures few { IfOk result (λ found. found.1 < 2 ^ 31) }
{
    if r == 0 {
        return Err(Flow::Goes(Way::Raise(Raised::NullPointer)));
    }
    if heap.count() < r {
        return Err(Flow::Link);
    }
    match heap.made(r) {
        Made::Array(element) => Ok((element, heap.length(r))),
        Made::Instance => Err(Flow::Link),
        Made::Text => Err(Flow::Link),
    }
}

// What the element is at an index and at which place, or how the run goes on in its place.
fn place_of(heap: &Heap, access: Access, r: u32, index: i32) -> Result<(Element, u32), Flow>
    ensures { result ≡ place_of (access_view access) index (array_reported (array_at heap.now.heap r)) }
{
    let (element, n) = array_reported(heap, r)?;
    if !reaches(access, element) {
        return Err(Flow::Link);
    }
    place_at(element, n, index)
}

fn place_at(element: Element, n: u32, index: i32) -> Result<(Element, u32), Flow>
    ensures { result ≡ place_at (element, n) index }
{
    let at = index.unsigned_abs();
    if 0 <= index && at < n {
        Ok((element, at))
    } else {
        Err(Flow::Goes(Way::Raise(Raised::ArrayIndexOutOfBounds)))
    }
}

fn reaches(access: Access, element: Element) -> bool
    ensures { result ≡ reaches (access_view access) element }
{
    match access {
        Access::Bytes => matches!(element, Element::Boolean | Element::Byte),
        Access::Chars => matches!(element, Element::Char),
        Access::Shorts => matches!(element, Element::Short),
        Access::Ints => matches!(element, Element::Int),
        Access::Longs => matches!(element, Element::Long),
        Access::References => matches!(element, Element::Ref),
    }
}

// ---- values

// The kind of the values that are stored.
fn access_kind(access: Access) -> Kind
    ensures { result ≡ access_kind (access_view access) }
{
    match access {
        Access::Longs => Kind::Long,
        Access::References => Kind::Ref,
        Access::Bytes | Access::Chars | Access::Shorts | Access::Ints => Kind::Int,
    }
}

// A number is taken by each array of its kind.
fn takes_value(value: Value, is_taken: bool) -> bool
    ensures { result ≡ takes_value value is_taken }
{
    match value {
        Value::Ref(_) => is_taken,
        _ => true,
    }
}

// A value as a number.
fn value_number(value: Value) -> i64
    ensures number { result ≡ value_number value }
    ensures small { is_of_kind kinds.Ref value ≡ true → low_bits elements.Ref (value_number value) ≡ value_number value }
{
    match value {
        Value::Int(z) => i64::from(z),
        Value::Long(z) => z,
        Value::Ref(r) => i64::from(r),
    }
}

// An element as a value: the low bits, as many as its values have.
fn value_of(element: Element, z: i64) -> Value
    ensures { result ≡ value_of element z }
{
    match element {
        Element::Long => Value::Long(z),
        Element::Ref => Value::Ref(z.rem_euclid(1 << 32) as u32),
        _ => Value::Int(long_to_int(z)),
    }
}
