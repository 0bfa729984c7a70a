ghost use Rattle.std.specs.Prelude.{◌≡◌, ◌<◌, ◌≤◌, List, Some, IfSome, pos, length, nat_eq, take, ◌&&◌, ◌-ℤ◌};
ghost use Rattle.std.specs.Int.{w32, int_wrap};
ghost use Rattle.std.specs.List.{starts_with};
ghost use Rattle.dj_names.specs.declared.descriptor.Ty.{Ty};
ghost use Rattle.dj_names.specs.trusted.Types.{same_name};
ghost use Rattle.dj_model.specs.trusted.Types.{Prefix};
ghost use Rattle.dj_model.specs.trusted.Program.{Program};
ghost use Rattle.dj_model.specs.trusted.Natives as model;
ghost use Rattle.dj_natives.specs.Answers.{answer_view, Says, is_on_texts};
ghost use Rattle.dj_natives.specs.Calls.{seen_of};
ghost use Rattle.dj_natives.specs.Seen.{units_at, is_text_at};

use crate::answer::{Answer, gives_int, gives_reference, gives_truth};
use crate::arguments::{number, reference};
use crate::seen::{is_text, text_length, unit_of};
use dj_heap::Heap;
use dj_names::{NativeId, Raised, Value};

/// The answer of a method of String that makes no object.
#[tactic(auto, using(crate::proofs::Others::no_on_texts), unfolding(dj_model::specs::trusted::Natives::answer))]
pub fn on_texts(heap: &Heap, id: NativeId, args: &[Value]) -> Option<Answer>
    ensures { (program : Program) (prefix : Prefix) (types : List Ty) → Says is_on_texts id (seen_of program prefix types heap.now) args.now result }
{
    let r = reference(args, 0);
    let other = reference(args, 1);
    let (text, with) = (u64::from(r), u64::from(other));
    match id {
        NativeId::StringLength => Some(gives_int(text_length(heap, text))),
        NativeId::StringIsEmpty => Some(gives_truth(text_length(heap, text) == 0)),
        NativeId::StringToString => Some(gives_reference(r)),
        NativeId::StringCharAt => Some(char_at(heap, text, number(args, 1))),
        NativeId::StringEquals => Some(gives_truth(equal(heap, text, with))),
        NativeId::StringHashCode => { Some(Answer::Returns(Some(Value::Int(hash_of(heap, text))))) }
        NativeId::StringCompareTo => Some(compared(heap, text, with)),
        NativeId::StringCompareToObject => Some(compared(heap, text, with)),
        NativeId::StringStartsWith => Some(starts(heap, text, with)),
        _ => None,
    }
}

/// The unit at this place; outside the text there is none.
pub fn char_at(heap: &Heap, r: u64, at: i64) -> Answer
    ensures { answer_view result ≡ Some (model.unit_at (units_at heap.now r) at) }
{
    let length = text_length(heap, r);
    match u32::try_from(at) {
        Ok(at) => {
            if at < length {
                Answer::Returns(Some(Value::Int(i32::from(unit_of(heap, r, at)))))
            } else {
                Answer::Raises(Raised::StringIndexOutOfBounds)
            }
        }
        Err(_) => Answer::Raises(Raised::StringIndexOutOfBounds),
    }
}

// Whether the second is a text of the same units.
fn equal(heap: &Heap, r: u64, other: u64) -> bool
    ensures { result ≡ is_text_at heap.now other && same_name (units_at heap.now r) (units_at heap.now other) }
{
    is_text(heap, other) && same_text(heap, r, other)
}

// Whether a text begins with another; null is tested first.
fn starts(heap: &Heap, r: u64, other: u64) -> Answer
    ensures { answer_view result ≡ Some (model.unless_null other (model.gives_truth (starts_with nat_eq (units_at heap.now r) (units_at heap.now other)))) }
{
    if other == 0 {
        Answer::Raises(Raised::NullPointer)
    } else {
        gives_truth(begins_with(heap, r, other))
    }
}

// Whether the first text begins with the units of the second.
#[tactic(auto, using(crate::proofs::Units::begins_by, crate::proofs::Units::begins_not))]
fn begins_with(heap: &Heap, a: u64, b: u64) -> bool
    ensures { result ≡ starts_with nat_eq (units_at heap.now a) (units_at heap.now b) }
{
    let length = text_length(heap, b);
    if text_length(heap, a) < length {
        return false;
    }
    agree(heap, b, a, length)
}

// Whether the texts have the same units.
#[tactic(auto, using(crate::proofs::Units::same_by, crate::proofs::Units::lengths_differ))]
fn same_text(heap: &Heap, a: u64, b: u64) -> bool
    ensures { result ≡ same_name (units_at heap.now a) (units_at heap.now b) }
{
    let length = text_length(heap, a);
    if length != text_length(heap, b) {
        return false;
    }
    agree(heap, a, b, length)
}

// Whether the first units of the texts are the same.
#[tactic(auto, using(crate::proofs::Units::step_apart, crate::proofs::Units::step_alike))]
fn agree(heap: &Heap, a: u64, b: u64, count: u32) -> bool
    requires first { count ≤ length (units_at heap.now a) }
    requires second { count ≤ length (units_at heap.now b) }
    ensures { result ≡ same_name (take count (units_at heap.now a)) (take count (units_at heap.now b)) }
{
    for at in 0..count {
        if unit_of(heap, a, at) != unit_of(heap, b, at) {
            return false;
        }
    }
    true
}

// Each unit times 31 to the power of how many units follow it.
#[tactic(auto, using(crate::proofs::Units::hashed, crate::proofs::Units::low_step, crate::proofs::Units::hash_taken))]
fn hash_of(heap: &Heap, r: u64) -> i32
    ensures { result ≡ int_wrap w32 (pos (model.hash_onto 0 (units_at heap.now r))) }
{
    let mut hash = 0u32;
    for at in 0..text_length(heap, r) {
        hash = hash
            .wrapping_mul(31)
            .wrapping_add(u32::from(unit_of(heap, r, at)));
    }
    hash.cast_signed()
}

// How a text compares with another object.
fn compared(heap: &Heap, r: u64, other: u64) -> Answer
    ensures { (program : Program) (prefix : Prefix) (types : List Ty) → IfSome (answer_view result) (λ a. model.compared_text (seen_of program prefix types heap.now) r other ≡ a) }
{
    if other == 0 {
        return Answer::Raises(Raised::NullPointer);
    }
    if !is_text(heap, other) {
        return Answer::Raises(Raised::ClassCast);
    }
    match i32::try_from(difference(heap, r, other)) {
        Ok(z) => Answer::Returns(Some(Value::Int(z))),
        Err(_) => Answer::Memory,
    }
}

// The difference of the first units that differ, or else of the lengths.
#[tactic(auto, using(crate::proofs::Units::difference_apart, crate::proofs::Units::difference_alike, crate::proofs::Units::difference_past))]
fn difference(heap: &Heap, a: u64, b: u64) -> i64
    ensures { result ≡ model.difference (units_at heap.now a) (units_at heap.now b) }
{
    let (long, other) = (text_length(heap, a), text_length(heap, b));
    for at in 0..long.min(other) {
        let (x, y) = (unit_of(heap, a, at), unit_of(heap, b, at));
        if x != y {
            return minus(u32::from(x), u32::from(y));
        }
    }
    minus(long, other)
}

// The first number less the second.
fn minus(a: u32, b: u32) -> i64
    ensures { result ≡ pos a -ℤ pos b }
{
    i64::from(a) - i64::from(b)
}
