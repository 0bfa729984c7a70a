ghost use Rattle.std.specs.Prelude.{◌≡◌, ◌≤◌, List, Some, None, true, length, get_or, reverse, take, slice_get};
ghost use Rattle.dj_names.specs.declared.descriptor.Kind.TheVariants as kinds;
ghost use Rattle.dj_names.specs.declared.descriptor.Ty.{Ty};
ghost use Rattle.dj_names.specs.trusted.Values.{value_kind};
ghost use Rattle.dj_model.specs.trusted.Members as model;
ghost use Rattle.dj_model.specs.trusted.Performing.{is_instance};
ghost use Rattle.dj_stack.specs.Frames.{top_operands};
ghost use Rattle.dj_numbering.specs.Typed.{types_of};
ghost use Rattle.dj_image.specs.Imaged.{program_of, typed_of};
ghost use Rattle.dj_invocation.specs.Natives.{AreTyped, IsClassOf};
ghost use Rattle.dj_invocation.specs.Receivers.{AreNumbered, AreObjects, HasObject, IsObject, takes_argument, typed_heap};

use crate::operands::operand;
use dj_heap::Heap;
use dj_image::Image;
use dj_names::Value;
use dj_stack::Frames;

/// Whether a reference is null or that of an object.
pub fn is_there(heap: &Heap, r: u32) -> bool
    ensures { result ≡ true → IsObject heap.now.heap r }
{
    r <= heap.count()
}

// Whether a value is no reference, or is null or that of an object.
fn has_object(heap: &Heap, value: Value) -> bool
    ensures { result ≡ true → HasObject heap.now.heap value }
{
    match value {
        Value::Ref(r) => is_there(heap, r),
        _ => true,
    }
}

/// Whether each of this many upper operands that is a reference is null or that of an object.
pub fn are_there(heap: &Heap, frames: &Frames, count: u16) -> bool
    requires within { count ≤ length (top_operands frames.now) }
    ensures { result ≡ true → AreObjects heap.now.heap (take count (top_operands frames.now)) }
{
    for at in 0..count {
        if !has_object(heap, operand(frames, at)) {
            return false;
        }
    }
    true
}

// Whether a value is no reference, or is null or that of an object of the class.
fn is_argument(image: &Image, heap: &Heap, value: Value, class: Option<u32>) -> bool
    requires numbered { AreNumbered image.now heap.now.heap }
    requires object { HasObject heap.now.heap value }
    ensures { (ty : Ty) → (value_kind value ≡ kinds.Ref → IsClassOf (typed_of image.now) ty class)
        → result ≡ takes_argument (program_of image.now) image.now.prefix (typed_heap image.now heap.now.heap) ty value }
{
    match value {
        Value::Ref(r) => match class {
            Some(class) => is_object(image, heap, r, class),
            None => true,
        },
        _ => true,
    }
}

// Whether a reference is null or that of an object of the class.
fn is_object(image: &Image, heap: &Heap, r: u32, class: u32) -> bool
    requires numbered { AreNumbered image.now heap.now.heap }
    requires object { IsObject heap.now.heap r }
    ensures { (ty : Ty) → slice_get (types_of (typed_of image.now)) class ≡ Some ty
        → result ≡ is_instance (program_of image.now) image.now.prefix (typed_heap image.now heap.now.heap) r ty }
{
    if r == 0 {
        return true;
    }
    if image.class_count() <= class {
        return false;
    }
    image.sub_type(heap.class_of(r), class)
}

// The class at a place; none past the last.
fn class_at(classes: &[Option<u32>], at: u16) -> Option<u32>
    ensures { result ≡ get_or classes.now at None }
{
    *classes.get(usize::from(at))?
}

/// Whether each of this many upper operands that is a reference is null or of the class of its parameter.
pub fn are_instances(
    image: &Image,
    heap: &Heap,
    frames: &Frames,
    classes: &[Option<u32>],
    count: u16,
) -> bool
    requires numbered { AreNumbered image.now heap.now.heap }
    requires objects { AreObjects heap.now.heap (take count (top_operands frames.now)) }
    requires within { count ≤ length (top_operands frames.now) }
    ensures { (types : List Ty) → AreTyped image.now (top_operands frames.now) count classes.now types
        → result ≡ model.are_instances (program_of image.now) image.now.prefix (typed_heap image.now heap.now.heap) types (reverse (take count (top_operands frames.now))) }
{
    for at in 0..count {
        if !is_argument(
            image,
            heap,
            operand(frames, count - 1 - at),
            class_at(classes, at),
        ) {
            return false;
        }
    }
    true
}
