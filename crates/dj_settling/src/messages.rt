ghost use Rattle.std.specs.Prelude.{◌≡◌, true, IfOk, IsSome};
ghost use Rattle.dj_heap.specs.Heaps.{object_in};
ghost use Rattle.dj_natives.specs.Seen.{IsTextThere, IsThere, field_at, is_text_at, units_at};
ghost use Rattle.dj_settling.specs.Settling.{message_at};

use dj_heap::{Heap, Made};
use dj_names::{Message, Units};
use std::alloc::{AllocError, Global};

// The message of an exception, which is its first field.
#[tactic(auto, using(crate::proofs::MessageLaws::message_text, crate::proofs::MessageLaws::message_null))]
pub(crate) fn message_of(alloc: Global, heap: &Heap, exception: u32) -> Result<Message, AllocError>
    requires { IsSome (object_in heap.now exception) }
    ensures { IfOk result (λ message. message ≡ message_at heap.now exception) }
{
    match text_number(heap, first_field(heap, exception)) {
        Some(text) => Ok(Message::Text(units_of(alloc, heap, text)?)),
        None => Ok(Message::Null),
    }
}

// The 64 bits of the first field of an object, and 0 where it has none.
#[tactic(auto, using(crate::proofs::MessageLaws::field_there, crate::proofs::MessageLaws::some_field, crate::proofs::MessageLaws::no_field, crate::proofs::MessageLaws::text_has_none, crate::proofs::MessageLaws::array_has_none))]
fn first_field(heap: &Heap, object: u32) -> u64
    requires { IsSome (object_in heap.now object) }
    ensures { result ≡ field_at heap.now object 0 }
{
    match heap.made(object) {
        Made::Instance => {
            if 0 < heap.length(object) {
                heap.field(object, 0)
            } else {
                0
            }
        }
        Made::Array(_) => 0,
        Made::Text => 0,
    }
}

// The object of this number, where there is one.
fn object_number(heap: &Heap, r: u64) -> Option<u32>
    ensures { IsThere heap.now r result }
{
    if r == 0 || u64::from(heap.count()) < r {
        None
    } else {
        Some(r as u32)
    }
}

// The text of this number, where the object is one.
fn text_number(heap: &Heap, r: u64) -> Option<u32>
    ensures { IsTextThere heap.now r result }
{
    let n = object_number(heap, r)?;
    match heap.made(n) {
        Made::Text => Some(n),
        _ => None,
    }
}

// The units of a text.
#[tactic(auto, using(crate::proofs::MessageLaws::text_there, crate::proofs::MessageLaws::unit_there, crate::proofs::MessageLaws::unit_is, crate::proofs::MessageLaws::units_long))]
fn units_of(alloc: Global, heap: &Heap, text: u32) -> Result<Units, AllocError>
    requires { is_text_at heap.now text ≡ true }
    ensures { IfOk result (λ units. units ≡ units_at heap.now text) }
{
    let mut units = Units::new(alloc);
    for at in 0..heap.length(text) {
        units.push(heap.unit(text, at))?;
    }
    Ok(units)
}
