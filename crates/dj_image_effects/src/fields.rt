ghost use Rattle.std.specs.Prelude.{◌<◌, ◌≤◌, length, IfOk};
ghost use Rattle.dj_model.specs.trusted.Instructions.{GetField, PutField};
ghost use Rattle.dj_model.specs.trusted.Types.{Member};
ghost use Rattle.dj_model.specs.trusted.Linking.{FoundField};
ghost use Rattle.dj_stack.specs.Frames.{top_operands, top_room};
ghost use Rattle.dj_natives.specs.Known.{AreKnown};
ghost use Rattle.dj_numbering.specs.Typed.{types_of};
ghost use Rattle.dj_numbering.specs.Members.{all_fields};
ghost use Rattle.dj_image.specs.Imaged.{program_of, typed_of};
ghost use Rattle.dj_image.specs.Numbering.{AreSettled};
ghost use Rattle.dj_image_effects.specs.Accesses.{IsAccess};
ghost use Rattle.dj_image_effects.specs.Acting.{ActsOnHeap, IsHeap, IsMember};
ghost use Rattle.dj_image_effects.specs.Frugal.{FrugalOnHeap};

use crate::acted::{Acted, flow_acted};
use crate::kinds::kind_of;
use dj_field_holders::Superclasses;
use dj_heap::Heap;
use dj_image::{FieldId, Image};
use dj_member_effects::{FieldAccess, get_field, put_field};
use dj_stack::Frames;
use std::alloc::AllocError;

/// getfield of the field of a number.
pub fn act_get_field(image: &Image, frames: &mut Frames, heap: &Heap, field: FieldId) -> Acted
    requires settled { AreSettled (typed_of image.now) }
    requires known { IsHeap image.now heap.now }
    requires there { field.number < length (all_fields (program_of image.now)) }
    requires room { length (top_operands frames.old) ≤ top_room frames.old }
    ensures { (member : Member) (found : FoundField) → IsMember image.now member found field.number
        → ActsOnHeap image.now (GetField member) frames.old frames.new heap.now heap.now result }
{
    let Some(access) = access_to(image, field) else {
        return Acted::Stuck;
    };
    flow_acted(get_field(&Superclasses { image }, frames, heap, access))
}

/// putfield of the field of a number.
pub fn act_put_field(
    image: &Image,
    frames: &mut Frames,
    heap: &mut Heap,
    field: FieldId,
) -> Result<Acted, AllocError>
    requires settled { AreSettled (typed_of image.now) }
    requires known { IsHeap image.now heap.old }
    requires there { field.number < length (all_fields (program_of image.now)) }
    ensures done { (member : Member) (found : FoundField) → IsMember image.now member found field.number
        → IfOk result (λ acted. ActsOnHeap image.now (PutField member) frames.old frames.new heap.old heap.new acted) }
    ensures known { IfOk result (λ _. AreKnown (types_of (typed_of image.now)) heap.new) }
    ensures frugal { (member : Member) (found : FoundField) → IsMember image.now member found field.number → FrugalOnHeap image.now (PutField member) frames.old heap.old result }
{
    let Some(access) = access_to(image, field) else {
        return Ok(Acted::Stuck);
    };
    let Some(flow) = put_field(&Superclasses { image }, frames, heap, access) else {
        // Never in a sound program.
        return Err(AllocError);
    };
    Ok(flow_acted(Some(flow)))
}

// Where the field of a number stands in its instances, if it has a kind.
fn access_to(image: &Image, field: FieldId) -> Option<FieldAccess>
    requires { field.number < length (all_fields (program_of image.now)) }
    ensures { IsAccess image.now field.number result }
{
    let member = image.field(field);
    let kind = kind_of(member.desc)?;
    Some(FieldAccess {
        declaring: member.class,
        place: image.place(field),
        kind,
    })
}
