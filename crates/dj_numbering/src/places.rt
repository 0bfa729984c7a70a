//! The places of fields in objects, by the numbers of the fields.
ghost use Rattle.std.specs.Prelude.{◌≡◌, ◌<◌, length, Some, IfOk, slice_get};
ghost use Rattle.std.specs.Option.{option_map};
ghost use Rattle.dj_model.specs.trusted.Linking.{place_of};
ghost use Rattle.dj_numbering.specs.Members.{all_fields};
ghost use Rattle.dj_numbering.specs.Numbered.{AreMembers, AreObjectPlaces};

use crate::error::TypesError;
use crate::members::{Members, place_at};
use dj_class_table::{ClassTable, Place};
use std::alloc::Global;

// The place of the field of a number among the instance fields of an object.
fn object_place(table: &ClassTable, members: &Members, field: u32) -> u32
    requires members { AreMembers table.now members.now }
    requires there { field < length (all_fields table.now) }
    ensures { Some result ≡ option_map (place_of table.now) (slice_get (all_fields table.now) field) }
{
    let Place { class, member } = place_at(&members.field_starts, &members.field_classes, field);
    table.names_differ();
    let others = members.field_sums[class as usize] - table.instance_fields(class);
    others + table.instance_fields_before(class, member)
}

/// The places of all fields.
pub fn object_places(
    alloc: Global,
    table: &ClassTable,
    members: &Members,
) -> Result<Vec<u32>, TypesError>
    requires { AreMembers table.now members.now }
    ensures { IfOk result (λ places. AreObjectPlaces table.now places.items) }
{
    let count = members.field_classes.len() as u32;
    let mut places = Vec::with_capacity(alloc, count as usize)?;
    for field in 0..count {
        places.push(object_place(table, members, field))?;
    }
    Ok(places)
}
