ghost use Rattle.std.specs.Prelude.{◌≡◌, ◌<◌, length, slice_get};
ghost use Rattle.dj_stack.specs.Frames.{top_operands};
ghost use Rattle.dj_image_effects.specs.Acting.{IsHeap};
ghost use Rattle.dj_numbering.specs.Typed.{types_of};
ghost use Rattle.dj_image.specs.Imaged.{typed_of};
ghost use Rattle.dj_image_effects.specs.Taking.{IsOf, IsTaken, IsTakenBy};

use dj_heap::Heap;
use dj_image::Image;
use dj_library_types::Classes;
use dj_names::Value;
use dj_natives::takes_absent;
use dj_stack::Frames;

/// Whether the array of references that stands under a reference and an index takes the reference.
pub fn takes_top(image: &Image, frames: &Frames, heap: &Heap) -> bool
    requires { IsHeap image.now heap.now }
    ensures { IsTaken image.now heap.now result (top_operands frames.now) }
{
    let Some(Value::Ref(value)) = peek(frames, 0) else {
        return true;
    };
    let Some(Value::Ref(array)) = peek(frames, 2) else {
        return true;
    };
    array_takes(image, heap, array, value)
}

/// The operand under this many others of the top frame.
pub fn peek(frames: &Frames, below: u16) -> Option<Value>
    ensures { result ≡ slice_get (top_operands frames.now) below }
{
    let depth = frames.depth();
    if depth == 0 {
        return None;
    }
    let count = frames.operands(depth - 1);
    if count <= below {
        return None;
    }
    Some(frames.operand_of(depth - 1, count - 1 - below))
}

// Whether an array of references takes a reference.
fn array_takes(image: &Image, heap: &Heap, array: u32, value: u32) -> bool
    requires { IsHeap image.now heap.now }
    ensures { IsTakenBy image.now heap.now array value result }
{
    if value == 0 || array == 0 || heap.count() < array {
        return true;
    }
    image.have_components();
    match Classes::component(image, heap.class_of(array)) {
        Some(component) => is_of(image, heap, value, component),
        None => true,
    }
}

// Whether a reference that isn't null is of a class; one of no object counts as an array of booleans.
fn is_of(image: &Image, heap: &Heap, value: u32, class: u32) -> bool
    requires known { IsHeap image.now heap.now }
    requires class { class < length (types_of (typed_of image.now)) }
    requires some { value ≡ 0 → ⊥ }
    ensures { IsOf image.now heap.now value class result }
{
    if heap.count() < value {
        return takes_absent(image, class);
    }
    Image::sub_type(image, heap.class_of(value), class)
}
