ghost use Rattle.std.specs.Prelude.{◌≡◌, ◌<◌, All, Some, length, reverse, IfOk, slice_get};
ghost use Rattle.dj_model.specs.trusted.Program.{Text};
ghost use Rattle.dj_model.specs.trusted.Linking.{FoundField};
ghost use Rattle.dj_model.specs.Sound.{IsProgram};
ghost use Rattle.dj_member_effects.specs.Literals.{text_at};
ghost use Rattle.dj_numbering.specs.Members.{all_fields};
ghost use Rattle.dj_image.specs.Imaged.{program_of, IsNumbered};
ghost use Rattle.dj_initialisation.specs.Places.{ArePlaces};
ghost use Rattle.dj_initialisation.specs.Store.{AreTexts, Fills, FillsField, FillsConstant, IsStore, class_constants, all_constants, one_constant, store};

use crate::bits::is_static;
use crate::filled::Filled;
use crate::places::StaticPlaces;
use dj_heap::Heap;
use dj_image::{Image, Operand};
use dj_member_effects::{Kept, Literals, Statics, field_bits, keep_text};
use dj_names::Value;
use dj_numbering::FieldId;
use std::alloc::AllocError;

// A static field begins with the object of a text.
fn set_text(
    image: &Image,
    statics: &mut Statics,
    literals: &mut Literals,
    heap: &mut Heap,
    place: u32,
    text: u32,
) -> Result<Filled, AllocError>
    requires texts { AreTexts image.now }
    requires known { text < length image.now.texts }
    requires place { place < length statics.old }
    requires are { IsStore image.now (store heap.old statics.old literals.old) }
    ensures { IfOk result (λ filled. Fills image.now (one_constant image.now place (Some (Text (text_at image.now.texts text))))
        (store heap.old statics.old literals.old) (store heap.new statics.new literals.new) filled) }
{
    match keep_text(heap, literals, image.string(), text, image.text(text))? {
        Kept::Object(r) => {
            statics.set(place, field_bits(Value::Ref(r)));
            Ok(Filled::Done)
        }
        Kept::HeapFull { used, size } => Ok(Filled::HeapFull { used, size }),
    }
}

// A static field begins with its constant, where it has one.
fn set_constant(
    image: &Image,
    statics: &mut Statics,
    literals: &mut Literals,
    heap: &mut Heap,
    place: u32,
    field: FieldId,
) -> Result<Filled, AllocError>
    requires texts { AreTexts image.now }
    requires there { field.number < length (all_fields (program_of image.now)) }
    requires place { place < length statics.old }
    requires are { IsStore image.now (store heap.old statics.old literals.old) }
    ensures { IfOk result (λ filled. FillsConstant image.now place field.number
        (store heap.old statics.old literals.old) (store heap.new statics.new literals.new) filled) }
{
    match image.constant(field) {
        Operand::Int(z) => {
            statics.set(place, field_bits(Value::Int(z)));
            Ok(Filled::Done)
        }
        Operand::Long(z) => {
            statics.set(place, field_bits(Value::Long(z)));
            Ok(Filled::Done)
        }
        Operand::Text(text) => set_text(image, statics, literals, heap, place, text),
        _ => Ok(Filled::Done),
    }
}

// A field begins with its constant, where it is static.
fn fill_field(
    image: &Image,
    places: &StaticPlaces,
    statics: &mut Statics,
    literals: &mut Literals,
    heap: &mut Heap,
    field: FieldId,
) -> Result<Filled, AllocError>
    requires formed { IsProgram (program_of image.now) }
    requires texts { AreTexts image.now }
    requires places { ArePlaces (program_of image.now) places.now }
    requires there { field.number < length (all_fields (program_of image.now)) }
    requires are { IsStore image.now (store heap.old statics.old literals.old) }
    ensures { IfOk result (λ filled. FillsField image.now field.number
        (store heap.old statics.old literals.old) (store heap.new statics.new literals.new) filled) }
{
    if !is_static(image.field(field).flags) {
        return Ok(Filled::Done);
    }
    set_constant(image, statics, literals, heap, places.place(field), field)
}

// The static fields of a class begin with their constants, one after the other.
fn fill_class(
    image: &Image,
    places: &StaticPlaces,
    statics: &mut Statics,
    literals: &mut Literals,
    heap: &mut Heap,
    class: u32,
) -> Result<Filled, AllocError>
    requires formed { IsProgram (program_of image.now) }
    requires texts { AreTexts image.now }
    requires places { ArePlaces (program_of image.now) places.now }
    requires there { class < length (program_of image.now) }
    requires are { IsStore image.now (store heap.old statics.old literals.old) }
    ensures { IfOk result (λ filled. Fills image.now (class_constants image.now class)
        (store heap.old statics.old literals.old) (store heap.new statics.new literals.new) filled) }
{
    for at in 0..u32::MAX {
        let Some(field) = image.field_at(class, at) else {
            return Ok(Filled::Done);
        };
        let filled = fill_field(image, places, statics, literals, heap, field)?;
        match filled {
            Filled::Done => {}
            Filled::HeapFull { used, size } => return Ok(Filled::HeapFull { used, size }),
        }
    }
    Err(AllocError)
}

/// The static fields of these classes begin with their constants, the last class first.
pub fn fill_all(
    image: &Image,
    places: &StaticPlaces,
    statics: &mut Statics,
    literals: &mut Literals,
    heap: &mut Heap,
    classes: &[u32],
) -> Result<Filled, AllocError>
    requires formed { IsProgram (program_of image.now) }
    requires texts { AreTexts image.now }
    requires places { ArePlaces (program_of image.now) places.now }
    requires there { All (λ k. k < length (program_of image.now)) classes.now }
    requires are { IsStore image.now (store heap.old statics.old literals.old) }
    ensures { IfOk result (λ filled. Fills image.now (all_constants image.now (reverse classes.now))
        (store heap.old statics.old literals.old) (store heap.new statics.new literals.new) filled) }
{
    for turn in 0..classes.len() {
        let class = classes[classes.len() - 1 - turn];
        let filled = fill_class(image, places, statics, literals, heap, class)?;
        match filled {
            Filled::Done => {}
            Filled::HeapFull { used, size } => return Ok(Filled::HeapFull { used, size }),
        }
    }
    Ok(Filled::Done)
}
