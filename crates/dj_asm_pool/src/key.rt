//! Constants by the numbers in them.
ghost use Rattle.std.specs.Prelude.{◌≡◌, ◌≤◌};
ghost use Rattle.dj_asm_pool.specs.Keys.{key_width};

/// A constant: what it is, and the number of its text or the indexes of its parts.
#[derive(Clone, Copy, PartialEq, Eq, Hash)]
pub(crate) enum Key {
    /// The text of this number.
    Utf8(usize),
    Integer(i32),
    Long(i64),
    Class(u16),
    /// A string.
    Text(u16),
    NameAndType(u16, u16),
    Field(u16, u16),
    Method(u16, u16),
    InterfaceMethod(u16, u16),
    /// A place in the table of bootstrap methods, and the index of a name and descriptor.
    Dynamic(u16, u16),
}

/// The indexes that a constant takes: a long takes two (JVMS 4.4.5).
pub(crate) fn width(key: Key) -> u32
    ensures is { result ≡ key_width key }
    ensures few { result ≤ 2 }
{
    match key {
        Key::Long(_) => 2,
        _ => 1,
    }
}
