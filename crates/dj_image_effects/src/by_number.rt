ghost use Rattle.std.specs.Prelude.{◌≡◌, ◌≤◌, ◌<◌, length, Some, IfOk};
ghost use Rattle.dj_model.specs.trusted.Instructions.{Instruction, Named};
ghost use Rattle.dj_model.specs.trusted.Opcodes.{instruction_of};
ghost use Rattle.dj_stack.specs.Frames.{top_operands, top_room};
ghost use Rattle.dj_natives.specs.Known.{AreKnown};
ghost use Rattle.dj_numbering.specs.Typed.{types_of};
ghost use Rattle.dj_image.specs.Imaged.{typed_of};
ghost use Rattle.dj_image.specs.Numbering.{AreSettled};
ghost use Rattle.dj_image.specs.declared.operand.Operand.TheVariants.{Unresolved};
ghost use Rattle.dj_initialisation.specs.Store.{IsStore, store};
ghost use Rattle.dj_image_effects.specs.Acting.{IsActed, IsDone, IsHeap, IsReady, instruction_of_number, machine};
ghost use Rattle.dj_image_effects.specs.Frugal.{IsFrugal, LoadsByKnown, NeverMemory};
ghost use Rattle.dj_image_effects.specs.Used.{IsBeside, IsOperandUsed};

use crate::acted::Acted;
use crate::asking::have_room;
use crate::classes::{act_class, act_unnamed};
use crate::literals::act_literal;
use crate::members::act_field;
use crate::texts::act_push_text;
use dj_current_method::instr_of;
use dj_heap::Heap;
use dj_image::{Image, MethodId, Operand};
use dj_initialisation::StaticPlaces;
use dj_library_types::Classes;
use dj_member_effects::{Literals, Statics};
use dj_ops::Instr;
use dj_stack::Frames;
use std::alloc::AllocError;

// An instruction with this operand is done.
fn act_with(
    image: &Image,
    places: &StaticPlaces,
    throwable: u32,
    frames: &mut Frames,
    heap: &mut Heap,
    statics: &mut Statics,
    literals: &mut Literals,
    instr: &Instr,
    operand: Operand,
) -> Result<Acted, AllocError>
    requires beside { IsBeside image.now places.now throwable }
    requires known { IsHeap image.now heap.old }
    requires are { IsStore image.now (store heap.old statics.old literals.old) }
    requires used { (named : Named) × IsOperandUsed image.now instr.now operand named }
    requires room { length (top_operands frames.old) ≤ top_room frames.old }
    ensures done { (named : Named) → IsOperandUsed image.now instr.now operand named
        → IfOk result (λ acted. IsActed image.now (instruction_of instr.now named)
        (machine frames.old (store heap.old statics.old literals.old)) (machine frames.new (store heap.new statics.new literals.new)) acted) }
    ensures known { IfOk result (λ _. AreKnown (types_of (typed_of image.now)) heap.new) }
    ensures frugal { (named : Named) → IsOperandUsed image.now instr.now operand named → (operand ≡ Unresolved → ⊥)
        → IsFrugal image.now (instruction_of instr.now named) (machine frames.old (store heap.old statics.old literals.old)) → NeverMemory result }
{
    match operand {
        Operand::Nothing => act_unnamed(image, frames, heap, throwable, 0, instr),
        Operand::Int(_) => act_literal(frames, operand),
        Operand::Long(_) => act_literal(frames, operand),
        Operand::Text(text) => act_push_text(image, frames, heap, literals, text),
        Operand::Class(class) => act_class(image, frames, heap, throwable, class, instr),
        Operand::Field(field) => act_field(image, places, frames, heap, statics, field, instr),
        Operand::Method(_) => Ok(Acted::Call),
        // Never in a sound program.
        Operand::Unresolved => Err(AllocError),
    }
}

// The instruction of a number in a method is done, where the image's numbers are known to be settled.
fn act_settled(
    image: &Image,
    places: &StaticPlaces,
    throwable: u32,
    frames: &mut Frames,
    heap: &mut Heap,
    statics: &mut Statics,
    literals: &mut Literals,
    method: MethodId,
    number: u32,
) -> Result<Acted, AllocError>
    requires settled { AreSettled (typed_of image.now) }
    requires ready { IsReady image.now places.now throwable method.number number (machine frames.old (store heap.old statics.old literals.old)) }
    requires room { length (top_operands frames.old) ≤ top_room frames.old }
    ensures done { IfOk result (λ acted. IsDone image.now method.number number
        (machine frames.old (store heap.old statics.old literals.old)) (machine frames.new (store heap.new statics.new literals.new)) acted) }
    ensures known { IfOk result (λ _. AreKnown (types_of (typed_of image.now)) heap.new) }
    ensures frugal { (i : Instruction) → instruction_of_number image.now method.number number ≡ Some i → LoadsByKnown image.now method.number number
        → IsFrugal image.now i (machine frames.old (store heap.old statics.old literals.old)) → NeverMemory result }
{
    image.are_plain();
    image.is_numbered();
    let instr = instr_of(image, method, number);
    let operand = image.operand(method, number);
    act_with(
        image, places, throwable, frames, heap, statics, literals, instr, operand,
    )
}

/// The instruction of a number in a method of an image is done, but for a call; the class that it uses has been initialised. The places of static
/// fields are given, and the number of the class Throwable. What a sound program's frames have, but isn't checked before, is checked here: where
/// the operands or the frame's room lack it, the answer is a want of memory; it never is for an instruction that needs no new memory, and does
/// something in the model that has room.
pub fn act(
    image: &Image,
    places: &StaticPlaces,
    throwable: u32,
    frames: &mut Frames,
    heap: &mut Heap,
    statics: &mut Statics,
    literals: &mut Literals,
    method: MethodId,
    number: u32,
) -> Result<Acted, AllocError>
    requires ready { IsReady image.now places.now throwable method.number number (machine frames.old (store heap.old statics.old literals.old)) }
    ensures done { IfOk result (λ acted. IsDone image.now method.number number
        (machine frames.old (store heap.old statics.old literals.old)) (machine frames.new (store heap.new statics.new literals.new)) acted) }
    ensures known { IfOk result (λ _. AreKnown (types_of (typed_of image.now)) heap.new) }
    ensures frugal { (i : Instruction) → instruction_of_number image.now method.number number ≡ Some i → LoadsByKnown image.now method.number number
        → IsFrugal image.now i (machine frames.old (store heap.old statics.old literals.old)) → NeverMemory result }
{
    have_room(frames);
    image.are_settled();
    act_settled(
        image, places, throwable, frames, heap, statics, literals, method, number,
    )
}
