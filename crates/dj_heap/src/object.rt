use dj_names::{Element, Units};
use std::marker::Model;

/// The 64 bits of each field of an instance, those of the highest superclass first.
#[derive(Debug, Drop)]
pub struct Fields {
    pub(crate) items: Vec<u64>,
}

impl Model for Fields {
    ghost use Rattle.std.specs.Prelude.{ℕ, List};

    ghost Value = { List ℕ };

    ghost view = { λ fields. fields.items.items };
}

/// An object, with the number of its class (JVMS 2.4 and 2.7). The elements of an array take the bytes that count for its size, and no more; a reference stands
/// there as its number.
#[derive(Debug, Drop)]
pub enum Object {
    Instance { class: u32, fields: Fields },
    Booleans { class: u32, items: Vec<i8> },
    Bytes { class: u32, items: Vec<i8> },
    Chars { class: u32, items: Vec<u16> },
    Shorts { class: u32, items: Vec<i16> },
    Ints { class: u32, items: Vec<i32> },
    Longs { class: u32, items: Vec<i64> },
    References { class: u32, items: Vec<u32> },
    /// A text, by its UTF-16 units.
    Text { class: u32, units: Units },
}

/// What an object is.
#[derive(Clone, Copy, Debug, PartialEq, Eq)]
pub enum Made {
    Instance,
    /// An array of these elements.
    Array(Element),
    Text,
}
