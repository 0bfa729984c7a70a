ghost use Rattle.std.specs.Prelude.{◌≤◌, ◌<◌, length, IfOk};
ghost use Rattle.dj_names.specs.declared.descriptor.Ty.{Ty};
ghost use Rattle.dj_model.specs.trusted.Instructions.{ArrayLength, LoadElement, NewArray, StoreElement};
ghost use Rattle.dj_stack.specs.Frames.{top_operands, top_room};
ghost use Rattle.dj_effects.specs.Actions.{access_view};
ghost use Rattle.dj_natives.specs.Known.{AreKnown};
ghost use Rattle.dj_numbering.specs.Typed.{types_of};
ghost use Rattle.dj_image.specs.Imaged.{typed_of};
ghost use Rattle.dj_image_effects.specs.Acting.{ActsOnHeap, IsClassAt, IsHeap};
ghost use Rattle.dj_image_effects.specs.Frugal.{FrugalOnHeap};

use crate::acted::{Acted, flow_acted};
use crate::asking::holds_elements;
use crate::taking::takes_top;
use dj_effects::{Access, array_length, load_element, new_array, store_element};
use dj_heap::Heap;
use dj_image::Image;
use dj_names::Element;
use dj_stack::Frames;
use std::alloc::AllocError;

/// An element is loaded.
pub fn act_load(image: &Image, frames: &mut Frames, heap: &Heap, access: Access) -> Acted
    requires { length (top_operands frames.old) ≤ top_room frames.old }
    ensures { ActsOnHeap image.now (LoadElement (access_view access)) frames.old frames.new heap.now heap.now result }
{
    flow_acted(load_element(frames, heap, access))
}

/// A value is stored in an array.
pub fn act_store(
    image: &Image,
    frames: &mut Frames,
    heap: &mut Heap,
    access: Access,
) -> Result<Acted, AllocError>
    requires { IsHeap image.now heap.old }
    ensures done { IfOk result (λ acted. ActsOnHeap image.now (StoreElement (access_view access)) frames.old frames.new heap.old heap.new acted) }
    ensures known { IfOk result (λ _. AreKnown (types_of (typed_of image.now)) heap.new) }
    ensures frugal { FrugalOnHeap image.now (StoreElement (access_view access)) frames.old heap.old result }
{
    let is_taken = takes_top(image, frames, heap);
    let Some(flow) = store_element(frames, heap, access, is_taken) else {
        // Never in a sound program.
        return Err(AllocError);
    };
    Ok(flow_acted(Some(flow)))
}

/// The length of an array is pushed.
pub fn act_length(image: &Image, frames: &mut Frames, heap: &Heap) -> Acted
    requires { length (top_operands frames.old) ≤ top_room frames.old }
    ensures { ActsOnHeap image.now ArrayLength frames.old frames.new heap.now heap.now result }
{
    flow_acted(array_length(frames, heap))
}

/// An array of the class of a number is made.
pub fn act_new_array(
    image: &Image,
    frames: &mut Frames,
    heap: &mut Heap,
    class: u32,
    element: Element,
) -> Result<Acted, AllocError>
    requires known { AreKnown (types_of (typed_of image.now)) heap.old }
    requires within { class < length (types_of (typed_of image.now)) }
    requires room { length (top_operands frames.old) ≤ top_room frames.old }
    ensures done { (ty : Ty) → IsClassAt image.now ty class → IfOk result (λ acted. ActsOnHeap image.now (NewArray ty element) frames.old frames.new heap.old heap.new acted) }
    ensures known { IfOk result (λ _. AreKnown (types_of (typed_of image.now)) heap.new) }
{
    if !holds_elements(image, class, element) {
        // Never in a sound program.
        return Err(AllocError);
    }
    let made = new_array(frames, heap, class, element)?;
    let Some(flow) = made else {
        // Never in a sound program.
        return Err(AllocError);
    };
    Ok(flow_acted(Some(flow)))
}
