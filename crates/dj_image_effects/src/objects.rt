ghost use Rattle.std.specs.Prelude.{◌≡◌, ◌≤◌, ◌<◌, Some, length, IfOk};
ghost use Rattle.dj_natives.specs.Known.{AreKnown};
ghost use Rattle.dj_names.specs.declared.descriptor.Ty.{Ty};
ghost use Rattle.dj_names.specs.trusted.Types.{Name, class_type};
ghost use Rattle.dj_model.specs.trusted.Types.{throwable_name};
ghost use Rattle.dj_model.specs.trusted.Instructions.{CheckCast, InstanceOf, New, Throw};
ghost use Rattle.dj_model.specs.trusted.Members.{instance_number};
ghost use Rattle.dj_names.specs.declared.run.Value.TheVariants as values;
ghost use Rattle.dj_stack.specs.Frames.{SameButOperands, top_operands, top_room};
ghost use Rattle.dj_class_table.specs.Tables.{name_at};
ghost use Rattle.dj_numbering.specs.Typed.{types_of};
ghost use Rattle.dj_image.specs.Imaged.{program_of, typed_of};
ghost use Rattle.dj_image_effects.specs.Absent.{ReplacesTop, cast_acted, is_absent_of};
ghost use Rattle.dj_image_effects.specs.Acting.{ActsOnHeap, IsClassAt, IsHeap};

use crate::acted::{Acted, flow_acted, thrown_acted};
use crate::asking::{has_room, is_top_there};
use dj_effects::Way;
use dj_heap::Heap;
use dj_image::Image;
use dj_member_effects::{check_cast, instance_of, new_object, throw_top};
use dj_names::{Raised, Value};
use dj_natives::takes_absent;
use dj_stack::Frames;
use std::alloc::AllocError;

/// An instance of the class of a number is made, with as many fields as it has.
pub fn act_new(
    image: &Image,
    frames: &mut Frames,
    heap: &mut Heap,
    class: u32,
) -> Result<Acted, AllocError>
    requires known { AreKnown (types_of (typed_of image.now)) heap.old }
    requires within { class < length (types_of (typed_of image.now)) }
    ensures done { (name : Name) → name_at (program_of image.now) class ≡ Some name
        → IfOk result (λ acted. ActsOnHeap image.now (New (class_type name)) frames.old frames.new heap.old heap.new acted) }
    ensures known { (name : Name) → name_at (program_of image.now) class ≡ Some name → IfOk result (λ _. AreKnown (types_of (typed_of image.now)) heap.new) }
{
    if !has_room(frames, 1) {
        // Never in a sound program.
        return Err(AllocError);
    }
    let flow = new_object(frames, heap, class, image.field_count(class))?;
    Ok(flow_acted(Some(flow)))
}

/// checkcast of the class of a number.
pub fn act_cast(image: &Image, frames: &mut Frames, heap: &Heap, class: u32) -> Acted
    requires known { IsHeap image.now heap.now }
    requires class { class < length (types_of (typed_of image.now)) }
    requires room { length (top_operands frames.old) ≤ top_room frames.old }
    ensures { (ty : Ty) → IsClassAt image.now ty class → ActsOnHeap image.now (CheckCast ty) frames.old frames.new heap.now heap.now result }
{
    if is_top_there(frames, heap) {
        flow_acted(check_cast(image, frames, heap, class))
    } else {
        cast_absent(image, class)
    }
}

// The answer for a reference that is of no object.
fn cast_absent(image: &Image, class: u32) -> Acted
    requires { class < length (types_of (typed_of image.now)) }
    ensures { result ≡ cast_acted (is_absent_of image.now class) }
{
    if takes_absent(image, class) {
        Acted::Goes(Way::Next)
    } else {
        Acted::Goes(Way::Raise(Raised::ClassCast))
    }
}

/// instanceof of the class of a number.
pub fn act_instance(image: &Image, frames: &mut Frames, heap: &Heap, class: u32) -> Acted
    requires known { IsHeap image.now heap.now }
    requires class { class < length (types_of (typed_of image.now)) }
    requires room { length (top_operands frames.old) ≤ top_room frames.old }
    ensures { (ty : Ty) → IsClassAt image.now ty class → ActsOnHeap image.now (InstanceOf ty) frames.old frames.new heap.now heap.now result }
{
    if is_top_there(frames, heap) {
        flow_acted(instance_of(image, frames, heap, class))
    } else {
        instance_absent(image, frames, class);
        Acted::Goes(Way::Next)
    }
}

// Takes the reference on top, and pushes this where the reference is of no object.
fn instance_absent(image: &Image, frames: &mut Frames, class: u32)
    requires class { class < length (types_of (typed_of image.now)) }
    requires some { 0 < length (top_operands frames.old) }
    requires room { length (top_operands frames.old) ≤ top_room frames.old }
    ensures operands { ReplacesTop frames.old frames.new (values.Int (instance_number (is_absent_of image.now class))) }
    ensures rest { SameButOperands frames.old frames.new }
{
    frames.pop_value();
    frames.push_value(absent_value(image, class));
}

// 1 where a reference that is of no object is of the class, else 0.
fn absent_value(image: &Image, class: u32) -> Value
    requires { class < length (types_of (typed_of image.now)) }
    ensures { result ≡ values.Int (instance_number (is_absent_of image.now class)) }
{
    if takes_absent(image, class) {
        Value::Int(1)
    } else {
        Value::Int(0)
    }
}

/// athrow, given the number of the class Throwable. A reference past all objects is no Throwable.
pub fn act_throw(image: &Image, frames: &mut Frames, heap: &Heap, throwable: u32) -> Acted
    requires known { IsHeap image.now heap.now }
    requires throwable { IsClassAt image.now (class_type (throwable_name image.now.prefix)) throwable }
    ensures { ActsOnHeap image.now Throw frames.old frames.new heap.now heap.now result }
{
    if is_top_there(frames, heap) {
        thrown_acted(throw_top(image, frames, heap, throwable))
    } else {
        Acted::Link
    }
}
