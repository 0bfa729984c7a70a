//! The parts of constant pools, class files and bodies of code (JVMS 4.1, 4.4 to 4.7), and the bytes of parts that follow one another.

use std::alloc::{AllocError, Global};

/// The tags of constants (JVMS 4.4).
pub const UTF8: u8 = 1;

pub const INTEGER: u8 = 3;

pub const FLOAT: u8 = 4;

pub const LONG: u8 = 5;

pub const DOUBLE: u8 = 6;

pub const CLASS: u8 = 7;

pub const TEXT: u8 = 8;

pub const FIELD: u8 = 9;

pub const METHOD: u8 = 10;

pub const INTERFACE_METHOD: u8 = 11;

pub const NAME_AND_TYPE: u8 = 12;

pub const HANDLE: u8 = 15;

pub const METHOD_TYPE: u8 = 16;

pub const DYNAMIC: u8 = 18;

/// Access flags (JVMS 4.1, 4.5, 4.6).
pub const PUBLIC: u16 = 0x0001;

pub const STATIC: u16 = 0x0008;

pub const FINAL: u16 = 0x0010;

pub const SUPER: u16 = 0x0020;

pub const ABSTRACT: u16 = 0x0400;

/// Opcodes (JVMS 6.5).
pub const NOP: u8 = 0;

pub const LLOAD_0: u8 = 30;

pub const ALOAD_0: u8 = 42;

pub const POP2: u8 = 88;

pub const ARETURN: u8 = 176;

pub const RETURN: u8 = 177;

/// A part. Numbers are of two bytes where nothing else is said.
pub enum Part {
    Magic(u32),
    /// The minor version and the major one.
    Version(u16, u16),
    /// How long the pool is: one more than its last index.
    Count(u16),
    // The constants, each with its tag; a text with its length.
    Utf8(&'static [u8]),
    Integer(i32),
    Float(u32),
    Long(i64),
    Double(u64),
    Class(u16),
    Text(u16),
    Field(u16, u16),
    Method(u16, u16),
    InterfaceMethod(u16, u16),
    NameAndType(u16, u16),
    Handle(u8, u16),
    MethodType(u16),
    Dynamic(u16, u16),
    /// The flags of a class, the class and its superclass.
    Heading(u16, u16, u16),
    /// How many interfaces there are, and one of them.
    Interfaces(u16),
    Index(u16),
    Fields(u16),
    Methods(u16),
    /// The flags, the name and the descriptor of a field or a method.
    Member(u16, u16, u16),
    Attributes(u16),
    /// The name of an attribute, and the length of its body in four bytes.
    Attribute(u16, u32),
    /// How many operands and local variables code has at most.
    Limits(u16, u16),
    /// How long code is, in four bytes.
    Length(u32),
    /// How long an exception table is, and one of its rows: the start, the end, the handler and the class that is caught.
    Rows(u16),
    Row(u16, u16, u16, u16),
    /// Instructions, the body of an attribute, or what is no part.
    Bytes(&'static [u8]),
}

// A tag and what follows it.
fn put(out: &mut Vec<u8>, prefix: &[u8], rest: &[u8]) -> Result<(), AllocError> {
    out.extend_from_slice(prefix)?;
    out.extend_from_slice(rest)
}

// Bytes, and numbers of two bytes after them.
fn put_all(out: &mut Vec<u8>, prefix: &[u8], numbers: &[u16]) -> Result<(), AllocError> {
    out.extend_from_slice(prefix)?;
    for number in numbers {
        out.extend_from_slice(&number.to_be_bytes())?;
    }
    Ok(())
}

fn put_text(out: &mut Vec<u8>, text: &[u8]) -> Result<(), AllocError> {
    let len = u16::try_from(text.len()).unwrap_or(u16::MAX);
    put_all(out, &[UTF8], &[len])?;
    out.extend_from_slice(text)
}

fn put_constant(out: &mut Vec<u8>, part: &Part) -> Result<(), AllocError> {
    match part {
        Part::Utf8(text) => put_text(out, text),
        Part::Integer(n) => put(out, &[INTEGER], &n.to_be_bytes()),
        Part::Float(n) => put(out, &[FLOAT], &n.to_be_bytes()),
        Part::Long(n) => put(out, &[LONG], &n.to_be_bytes()),
        Part::Double(n) => put(out, &[DOUBLE], &n.to_be_bytes()),
        Part::Class(a) => put_all(out, &[CLASS], &[*a]),
        Part::Text(a) => put_all(out, &[TEXT], &[*a]),
        Part::Field(a, b) => put_all(out, &[FIELD], &[*a, *b]),
        Part::Method(a, b) => put_all(out, &[METHOD], &[*a, *b]),
        Part::InterfaceMethod(a, b) => put_all(out, &[INTERFACE_METHOD], &[*a, *b]),
        Part::NameAndType(a, b) => put_all(out, &[NAME_AND_TYPE], &[*a, *b]),
        Part::Handle(kind, a) => put_all(out, &[HANDLE, *kind], &[*a]),
        Part::MethodType(a) => put_all(out, &[METHOD_TYPE], &[*a]),
        Part::Dynamic(a, b) => put_all(out, &[DYNAMIC], &[*a, *b]),
        _ => Ok(()),
    }
}

fn put_part(out: &mut Vec<u8>, part: &Part) -> Result<(), AllocError> {
    match part {
        Part::Magic(n) | Part::Length(n) => out.extend_from_slice(&n.to_be_bytes()),
        Part::Attribute(name, len) => put(out, &name.to_be_bytes(), &len.to_be_bytes()),
        Part::Count(n)
        | Part::Interfaces(n)
        | Part::Index(n)
        | Part::Fields(n)
        | Part::Methods(n)
        | Part::Attributes(n)
        | Part::Rows(n) => out.extend_from_slice(&n.to_be_bytes()),
        Part::Version(a, b) | Part::Limits(a, b) => put_all(out, &[], &[*a, *b]),
        Part::Heading(a, b, c) | Part::Member(a, b, c) => put_all(out, &[], &[*a, *b, *c]),
        Part::Row(a, b, c, d) => put_all(out, &[], &[*a, *b, *c, *d]),
        Part::Bytes(bytes) => out.extend_from_slice(bytes),
        _ => put_constant(out, part),
    }
}

/// The bytes of parts.
pub fn bytes_of(alloc: Global, parts: &[Part]) -> Result<Vec<u8>, AllocError> {
    let mut out = Vec::new(alloc);
    for part in parts {
        put_part(&mut out, part)?;
    }
    Ok(out)
}

/// The bytes of parts with another part in place of the one at this place, or appended where the place is their end.
pub fn changed(
    alloc: Global,
    parts: &[Part],
    place: usize,
    other: &Part,
) -> Result<Vec<u8>, AllocError> {
    let mut out = Vec::new(alloc);
    for at in 0..parts.len() {
        let part = if at == place { other } else { &parts[at] };
        put_part(&mut out, part)?;
    }
    if place == parts.len() {
        put_part(&mut out, other)?;
    }
    Ok(out)
}
