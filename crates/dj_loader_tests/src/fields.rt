ghost use Rattle.dj_loader_tests.specs.Members.{HasField};

use crate::answers::{reported_number, reported_operand};
use crate::members::{Member, constant_of, own_field};
use crate::set::image;
use dj_image::{FieldId, Image};
use std::alloc::{AllocError, Global};

// What is asked of a field.
#[derive(Debug)]
enum OfField {
    // Among the fields of an object.
    Place,
    Constant,
    Flags,
}

// A field, what is asked of it, and the answer.
type FieldRow = (Member, OfField, &'static str);

const CONSTANTS: [FieldRow; 16] = [
    (("A", "i", "I"), OfField::Place, "0"),
    (("A", "p", "J"), OfField::Place, "1"),
    (("p/B", "i", "I"), OfField::Place, "2"),
    (("C", "z", "[[LC;"), OfField::Place, "3"),
    (("x/X", "own", "I"), OfField::Place, "2"),
    (("A", "s", "I"), OfField::Constant, "Int 7"),
    (
        ("p/B", "c", "Ljava/lang/String;"),
        OfField::Constant,
        "Text 00630000",
    ),
    (("p/B", "l", "J"), OfField::Constant, "Long -5"),
    (("I", "k", "I"), OfField::Constant, "Int 1"),
    (("I", "d", "I"), OfField::Constant, "Nothing"),
    (("A", "i", "I"), OfField::Constant, "Nothing"),
    (("x/X", "e", "Lx/X;"), OfField::Constant, "Int 5"),
    (("x/X", "st", "[I"), OfField::Constant, "Nothing"),
    (("A", "p", "J"), OfField::Flags, "2"),
    (("A", "s", "I"), OfField::Flags, "9"),
    (("I", "k", "I"), OfField::Flags, "25"),
];

fn reported(
    alloc: Global,
    image: &Image,
    field: FieldId,
    asked: &OfField,
) -> Result<String, AllocError>
    requires { HasField image.now field }
{
    match asked {
        OfField::Place => reported_number(alloc, Some(image.place(field))),
        OfField::Constant => reported_operand(alloc, image, constant_of(image, field)),
        OfField::Flags => reported_number(alloc, Some(image.field(field).flags as u32)),
    }
}

fn is_answered(alloc: Global, image: &Image, row: &FieldRow) -> bool {
    match own_field(image, row.0) {
        Some(field) => match reported(alloc, image, field, &row.1) {
            Ok(reported) => reported.as_str() == row.2,
            Err(_) => false,
        },
        None => false,
    }
}

#[test]
fn asked_of_fields(rt: HostRuntime) {
    let image = image(rt.alloc());
    for row in &CONSTANTS {
        assert!(rt;
            matches!(&image, Some(image) if is_answered(rt.alloc(), image, row)),
            "{:?} {:?}",
            row.0,
            row.1
        );
    }
}
