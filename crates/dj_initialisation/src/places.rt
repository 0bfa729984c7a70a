ghost use Rattle.std.specs.Prelude.{◌≡◌, ◌+◌, ◌++◌, ◌<◌, true, length, Some, IfOk, OnOk, slice_get};
ghost use Rattle.dj_model.specs.trusted.Linking.{count_fields};
ghost use Rattle.dj_model.specs.Sound.{IsProgram};
ghost use Rattle.dj_class_table.specs.Tables.{fields_at};
ghost use Rattle.dj_numbering.specs.Typed.{types_of};
ghost use Rattle.dj_image.specs.Imaged.{program_of, typed_of};
ghost use Rattle.dj_initialisation.specs.Places.{ArePlaces, IsCounted, one_if_static};

use crate::bits::is_static;
use dj_image::Image;
use dj_numbering::FieldId;
use std::alloc::{AllocError, Global};
use std::marker::Model;

/// For each field its place among the static fields of the program, and how many static fields there are.
#[derive(Debug, Drop)]
pub struct StaticPlaces {
    // For each field, by its number, how many static fields come before it.
    each: Vec<u32>,
    count: u32,
}

impl Model for StaticPlaces {
    ghost use Rattle.dj_initialisation.specs.Places.{Places};

    ghost Value = { Places };

    ghost view = { λ places. record { each = places.each.items; count = places.count } };
}

impl StaticPlaces {
    /// The places of the fields of an image, each of which is looked at once.
    pub fn of(alloc: Global, image: &Image) -> Result<StaticPlaces, AllocError>
        requires { IsProgram (program_of image.now) }
        ensures { IfOk result (λ places. ArePlaces (program_of image.now) places) }
    {
        let mut each = Vec::new(alloc);
        let mut count = 0;
        for class in 0..image.class_count() {
            count = add_class(image, &mut each, count, class)?;
        }
        Ok(StaticPlaces { each, count })
    }

    /// The place of a static field.
    pub fn place(&self, field: FieldId) -> u32
        requires { field.number < length self.now.each }
        ensures { slice_get self.now.each field.number ≡ Some result }
    {
        self.each[field.number as usize]
    }

    /// How many static fields there are.
    pub fn count(&self) -> u32
        ensures { result ≡ self.now.count }
    {
        self.count
    }
}

// The places of the fields that a class declares, after this many static fields; and how many come before the next class.
fn add_class(image: &Image, each: &mut Vec<u32>, before: u32, class: u32) -> Result<u32, AllocError>
    requires { class < length (types_of (typed_of image.now)) }
    ensures { IfOk result (λ after. IsCounted (fields_at (program_of image.now) class) each.old.items before each.new.items after) }
{
    let mut count = before;
    for at in 0..u32::MAX {
        let Some(field) = image.field_at(class, at) else {
            return Ok(count);
        };
        each.push(count)?;
        count = with_one(count, image.field(field).flags)?;
    }
    Err(AllocError)
}

// The count, and one more where these are the flags of a static field.
fn with_one(count: u32, flags: u16) -> Result<u32, AllocError>
    ensures { IfOk result (λ next. next ≡ count + one_if_static flags) }
{
    if is_static(flags) {
        count.checked_add(1).ok_or(AllocError)
    } else {
        Ok(count)
    }
}
