ghost use Rattle.std.specs.Prelude.{◌≡◌, ◌<◌, length, IfOk};
ghost use Rattle.dj_model.specs.trusted.Instructions.{GetStatic, PutStatic};
ghost use Rattle.dj_model.specs.trusted.Types.{Member};
ghost use Rattle.dj_model.specs.trusted.Linking.{FoundField, static_count};
ghost use Rattle.dj_numbering.specs.Members.{all_fields};
ghost use Rattle.dj_image.specs.Imaged.{program_of};
ghost use Rattle.dj_initialisation.specs.Places.{ArePlaces};
ghost use Rattle.dj_image_effects.specs.Accesses.{IsStaticAt};
ghost use Rattle.dj_image_effects.specs.Acting.{ActsOnStatics, IsMember};
ghost use Rattle.dj_image_effects.specs.Frugal.{FrugalOnStatics};

use crate::acted::{Acted, way_acted};
use crate::asking::has_room;
use crate::kinds::kind_of;
use dj_image::{FieldId, Image};
use dj_initialisation::StaticPlaces;
use dj_member_effects::{Statics, get_static, put_static};
use dj_stack::Frames;
use std::alloc::AllocError;

/// getstatic of the field of a number.
pub fn act_get_static(
    image: &Image,
    places: &StaticPlaces,
    frames: &mut Frames,
    statics: &Statics,
    field: FieldId,
) -> Result<Acted, AllocError>
    requires places { ArePlaces (program_of image.now) places.now }
    requires counted { length statics.now ≡ static_count (program_of image.now) }
    requires there { field.number < length (all_fields (program_of image.now)) }
    requires found { IsStaticAt image.now field.number }
    ensures done { (member : Member) (found : FoundField) → IsMember image.now member found field.number
        → IfOk result (λ acted. ActsOnStatics image.now (GetStatic member) frames.old frames.new statics.now statics.now acted) }
    ensures frugal { (member : Member) → FrugalOnStatics image.now (GetStatic member) frames.old statics.now result }
{
    let Some(kind) = kind_of(image.field(field).desc) else {
        return Ok(Acted::Stuck);
    };
    if !has_room(frames, 1) {
        // Never in a sound program.
        return Err(AllocError);
    }
    Ok(way_acted(get_static(frames, statics, places.place(field), kind)))
}

/// putstatic of the field of a number.
pub fn act_put_static(
    image: &Image,
    places: &StaticPlaces,
    frames: &mut Frames,
    statics: &mut Statics,
    field: FieldId,
) -> Acted
    requires places { ArePlaces (program_of image.now) places.now }
    requires counted { length statics.old ≡ static_count (program_of image.now) }
    requires there { field.number < length (all_fields (program_of image.now)) }
    requires found { IsStaticAt image.now field.number }
    ensures { (member : Member) (found : FoundField) → IsMember image.now member found field.number
        → ActsOnStatics image.now (PutStatic member) frames.old frames.new statics.old statics.new result }
{
    let Some(kind) = kind_of(image.field(field).desc) else {
        return Acted::Stuck;
    };
    way_acted(put_static(frames, statics, places.place(field), kind))
}
