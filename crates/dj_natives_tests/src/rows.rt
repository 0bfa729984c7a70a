use dj_names::{Element, NativeId, Raised};

/// A text, in modified UTF-8.
pub type Text = &'static [u8];

/// An argument. Objects are made in order, numbers from 1; what an object holds is made before it.
#[derive(Clone, Copy)]
pub enum Argument {
    Int(i32),
    Long(i64),
    Null,
    /// That of another place.
    Same(usize),
    Text(Text),
    /// A class, and how many fields it has.
    Object(&'static [u8], u32),
    /// A StringBuilder, with its text.
    Builder(Option<Text>),
    /// A class of throwable objects, with the message.
    Throwable(&'static [u8], Option<Text>),
    /// An array of numbers, by its descriptor.
    Numbers(&'static [u8], Element, &'static [i64]),
    /// An array of references.
    References(&'static [u8], &'static [Argument]),
}

/// What a call answers.
#[derive(Clone, Copy)]
pub enum WantedAnswer {
    Nothing,
    GivesInt(i32),
    GivesLong(i64),
    GivesNull,
    /// A text with this number.
    GivesText(u32, Text),
    /// An object of the class with this number.
    GivesObject(u32, &'static [u8]),
    /// An array of chars with this number.
    GivesChars(u32, &'static [i64]),
    Raises(Raised),
    Stops,
    /// This many bytes are used, and this many more are wanted.
    Full(u64, u64),
}

/// What the object of a number is after the call.
#[derive(Clone, Copy)]
pub enum After {
    Any,
    /// Its first field is a text, or null.
    FirstIs(u32, Option<Text>),
    /// The first field is a text, or null, and the second is a reference.
    FieldsAre(u32, Option<Text>, u32),
    /// Its elements, references as numbers.
    ElementsAre(u32, &'static [i64]),
}

/// A call that makes nothing: a method, its arguments, the answer, and the bytes that are used before it and after it.
pub type AskedCall = (NativeId, &'static [Argument], WantedAnswer, u64);

/// A call that makes an object: the bytes that are used before it and after it, and what is between them is charged.
pub type MakingCall = (NativeId, &'static [Argument], WantedAnswer, (u64, u64));

/// A call after which an object is changed, or is not.
pub type KeepingCall = (
    NativeId,
    &'static [Argument],
    WantedAnswer,
    (u64, u64),
    After,
);

/// A call with the threshold of what is allocated, where there is an accounter, and the limit of the heap; the bytes that are used before it and after it, those that are charged, and what an object is then.
pub type LimitedCall = (
    NativeId,
    (Option<u64>, u64),
    &'static [Argument],
    WantedAnswer,
    (u64, u64),
    u64,
    After,
);

/// Enough of all.
pub const ENOUGH: (Option<u64>, u64) = (Some(1_000_000), 1_000_000);
