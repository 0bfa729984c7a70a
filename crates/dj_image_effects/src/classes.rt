ghost use Rattle.std.specs.Prelude.{◌≤◌, length, IfOk};
ghost use Rattle.dj_stack.specs.Frames.{top_operands, top_room};
ghost use Rattle.dj_natives.specs.Known.{AreKnown};
ghost use Rattle.dj_names.specs.trusted.Types.{class_type};
ghost use Rattle.dj_library_types.specs.Numbered.{ArePlain};
ghost use Rattle.dj_model.specs.trusted.Types.{throwable_name};
ghost use Rattle.dj_model.specs.trusted.Instructions.{Named, Nothing};
ghost use Rattle.dj_model.specs.trusted.Opcodes.{instruction_of};
ghost use Rattle.dj_numbering.specs.Typed.{types_of};
ghost use Rattle.dj_image.specs.Imaged.{typed_of};
ghost use Rattle.dj_image_effects.specs.Acting.{ActsOnHeap, IsClassAt, IsHeap};
ghost use Rattle.dj_image_effects.specs.Frugal.{FrugalOnHeap};
ghost use Rattle.dj_image_effects.specs.Used.{IsClassUsed, IsMade};

use crate::acted::Acted;
use crate::arrays::act_new_array;
use crate::objects::{act_cast, act_instance, act_new};
use crate::plain::act_plain;
use crate::uses::{ClassUse, class_use};
use dj_effects::plain_action;
use dj_heap::Heap;
use dj_image::Image;
use dj_names::Element;
use dj_ops::Instr;
use dj_stack::Frames;
use std::alloc::AllocError;

/// An instruction that names nothing is done. The class of the array that it makes is given, where it makes one, and the class Throwable.
pub fn act_unnamed(
    image: &Image,
    frames: &mut Frames,
    heap: &mut Heap,
    throwable: u32,
    class: u32,
    instr: &Instr,
) -> Result<Acted, AllocError>
    requires known { IsHeap image.now heap.old }
    requires throwable { IsClassAt image.now (class_type (throwable_name image.now.prefix)) throwable }
    requires made { IsMade image.now (instruction_of instr.now Nothing) class }
    ensures done { IfOk result (λ acted. ActsOnHeap image.now (instruction_of instr.now Nothing) frames.old frames.new heap.old heap.new acted) }
    ensures known { IfOk result (λ _. AreKnown (types_of (typed_of image.now)) heap.new) }
    ensures frugal { FrugalOnHeap image.now (instruction_of instr.now Nothing) frames.old heap.old result }
{
    match plain_action(instr) {
        Some(action) => act_plain(image, frames, heap, throwable, class, action),
        None => Ok(Acted::Stuck),
    }
}

/// An instruction on the class of a number is done.
pub fn act_class(
    image: &Image,
    frames: &mut Frames,
    heap: &mut Heap,
    throwable: u32,
    class: u32,
    instr: &Instr,
) -> Result<Acted, AllocError>
    requires known { IsHeap image.now heap.old }
    requires throwable { IsClassAt image.now (class_type (throwable_name image.now.prefix)) throwable }
    requires plain { ArePlain (types_of (typed_of image.now)) }
    requires used { (named : Named) × IsClassUsed image.now instr.now class named }
    requires room { length (top_operands frames.old) ≤ top_room frames.old }
    ensures done { (named : Named) → IsClassUsed image.now instr.now class named
        → IfOk result (λ acted. ActsOnHeap image.now (instruction_of instr.now named) frames.old frames.new heap.old heap.new acted) }
    ensures known { IfOk result (λ _. AreKnown (types_of (typed_of image.now)) heap.new) }
    ensures frugal { (named : Named) → IsClassUsed image.now instr.now class named → FrugalOnHeap image.now (instruction_of instr.now named) frames.old heap.old result }
{
    match class_use(instr) {
        ClassUse::New => act_new(image, frames, heap, class),
        ClassUse::NewArray => act_new_array(image, frames, heap, class, Element::Ref),
        ClassUse::Cast => Ok(act_cast(image, frames, heap, class)),
        ClassUse::Instance => Ok(act_instance(image, frames, heap, class)),
        ClassUse::Plain => act_unnamed(image, frames, heap, throwable, class, instr),
        ClassUse::Other => Ok(Acted::Stuck),
    }
}
