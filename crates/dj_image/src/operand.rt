use dj_numbering::{FieldId, MethodId};

/// What an operand of an instruction or the constant of a field is.
#[derive(Clone, Copy, Debug, PartialEq, Eq)]
pub enum Operand {
    /// There is none.
    Nothing,
    Int(i32),
    Long(i64),
    /// The number of a text.
    Text(u32),
    /// The number of a class or an array.
    Class(u32),
    Field(FieldId),
    Method(MethodId),
    /// The constant isn't of the required tag, or what it names isn't there.
    Unresolved,
}
