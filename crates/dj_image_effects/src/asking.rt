// What of the values before a step is asked at run time. In a sound program it always holds.
ghost use Rattle.std.specs.Prelude.{◌≡◌, ◌+◌, ◌≤◌, ◌<◌, true, false, length};
ghost use Rattle.dj_stack.specs.Frames.{top_operands, top_room};
ghost use Rattle.dj_numbering.specs.Typed.{types_of};
ghost use Rattle.dj_image.specs.Imaged.{typed_of};
ghost use Rattle.dj_image_effects.specs.Acting.{IsAbsent, IsThere, IsTopAbsent, IsTopThere};
ghost use Rattle.dj_image_effects.specs.Elements.{HoldsElements};
ghost use Rattle.dj_image_effects.specs.Growing.{growth, move_growth, slot_count};

use crate::taking::peek;
use dj_effects::{Movement, PlainAction, Slots};
use dj_heap::Heap;
use dj_image::Image;
use dj_library_types::Classes;
use dj_names::{Element, Value};
use dj_stack::Frames;

/// Whether the top operand, where it is a reference, is null or that of an object.
#[tactic(auto, using(crate::proofs::Takings::value_there, crate::proofs::Takings::none_there, crate::proofs::Takings::value_absent))]
pub fn is_top_there(frames: &Frames, heap: &Heap) -> bool
    ensures there { result ≡ true → IsTopThere heap.now.heap (top_operands frames.now) }
    ensures absent { result ≡ false → IsTopAbsent heap.now.heap (top_operands frames.now) }
{
    match peek(frames, 0) {
        Some(value) => is_there(heap, value),
        None => true,
    }
}

fn is_there(heap: &Heap, value: Value) -> bool
    ensures there { result ≡ true → IsThere heap.now.heap value }
    ensures absent { result ≡ false → IsAbsent heap.now.heap value }
{
    match value {
        Value::Ref(r) => r <= heap.count(),
        Value::Int(_) => true,
        Value::Long(_) => true,
    }
}

/// A law: the operands of the top frame have room.
pub fn have_room(frames: &Frames)
    ensures { length (top_operands frames.now) ≤ top_room frames.now }
{
    let _ = frames.spare();
}

/// Whether this many operands more have room in the top frame.
pub fn has_room(frames: &Frames, more: u16) -> bool
    ensures room { result ≡ true → length (top_operands frames.now) + more ≤ top_room frames.now }
    ensures none { result ≡ false → top_room frames.now < length (top_operands frames.now) + more }
{
    more <= frames.spare()
}

/// Whether the class of a number is one of arrays of references, where the elements are such.
pub fn holds_elements(image: &Image, class: u32, element: Element) -> bool
    requires { class < length (types_of (typed_of image.now)) }
    ensures { result ≡ true → HoldsElements (types_of (typed_of image.now)) class element }
{
    match element {
        Element::Ref => Classes::component(image, class).is_some(),
        _ => true,
    }
}

/// By how many operands an action grows them at most.
pub fn growth(action: PlainAction<'_>) -> u16
    ensures { result ≡ growth action.entry }
{
    match action {
        PlainAction::Push(_) => 1,
        PlainAction::Load(_, _) => 1,
        PlainAction::Move(movement) => move_growth(movement),
        _ => 0,
    }
}

fn move_growth(movement: Movement) -> u16
    ensures { result ≡ move_growth movement }
{
    match movement {
        Movement::Double(upper) => slot_count(upper),
        Movement::Under(upper, _) => slot_count(upper),
        _ => 0,
    }
}

fn slot_count(slots: Slots) -> u16
    ensures { result ≡ slot_count slots }
{
    match slots {
        Slots::One => 1,
        Slots::Two => 2,
    }
}
