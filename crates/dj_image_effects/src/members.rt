ghost use Rattle.std.specs.Prelude.{◌≡◌, ◌≤◌, ◌<◌, length, IfOk};
ghost use Rattle.dj_model.specs.trusted.Instructions.{Named};
ghost use Rattle.dj_model.specs.trusted.Opcodes.{instruction_of};
ghost use Rattle.dj_model.specs.trusted.Linking.{static_count};
ghost use Rattle.dj_stack.specs.Frames.{top_operands, top_room};
ghost use Rattle.dj_natives.specs.Known.{AreKnown};
ghost use Rattle.dj_numbering.specs.Typed.{types_of};
ghost use Rattle.dj_numbering.specs.Members.{all_fields};
ghost use Rattle.dj_image.specs.Imaged.{program_of, typed_of};
ghost use Rattle.dj_image.specs.Numbering.{AreSettled};
ghost use Rattle.dj_initialisation.specs.Places.{ArePlaces};
ghost use Rattle.dj_image_effects.specs.Acting.{IsHeap};
ghost use Rattle.dj_image_effects.specs.Frugal.{FrugalOnFields};
ghost use Rattle.dj_image_effects.specs.Used.{ActsOnFields, IsFieldUsed};

use crate::acted::Acted;
use crate::fields::{act_get_field, act_put_field};
use crate::statics::{act_get_static, act_put_static};
use crate::uses::{FieldUse, field_use};
use dj_heap::Heap;
use dj_image::{FieldId, Image};
use dj_initialisation::StaticPlaces;
use dj_member_effects::Statics;
use dj_ops::Instr;
use dj_stack::Frames;
use std::alloc::AllocError;

/// An instruction on the field of a number is done.
pub fn act_field(
    image: &Image,
    places: &StaticPlaces,
    frames: &mut Frames,
    heap: &mut Heap,
    statics: &mut Statics,
    field: FieldId,
    instr: &Instr,
) -> Result<Acted, AllocError>
    requires settled { AreSettled (typed_of image.now) }
    requires places { ArePlaces (program_of image.now) places.now }
    requires known { IsHeap image.now heap.old }
    requires counted { length statics.old ≡ static_count (program_of image.now) }
    requires there { field.number < length (all_fields (program_of image.now)) }
    requires used { (named : Named) × IsFieldUsed image.now instr.now field.number named }
    requires room { length (top_operands frames.old) ≤ top_room frames.old }
    ensures done { (named : Named) → IsFieldUsed image.now instr.now field.number named
        → IfOk result (λ acted. ActsOnFields image.now (instruction_of instr.now named) frames.old frames.new heap.old heap.new statics.old statics.new acted) }
    ensures known { IfOk result (λ _. AreKnown (types_of (typed_of image.now)) heap.new) }
    ensures frugal { (named : Named) → IsFieldUsed image.now instr.now field.number named
        → FrugalOnFields image.now (instruction_of instr.now named) frames.old heap.old statics.old result }
{
    match field_use(instr) {
        FieldUse::GetStatic => act_get_static(image, places, frames, statics, field),
        FieldUse::PutStatic => Ok(act_put_static(image, places, frames, statics, field)),
        FieldUse::Get => Ok(act_get_field(image, frames, heap, field)),
        FieldUse::Put => act_put_field(image, frames, heap, field),
        FieldUse::Neither => Ok(Acted::Stuck),
    }
}
