use dj_names::{
    Base, Bytes, Desc, Kind, Name, Of, TextError, Ty, Tys, Units, is_array_descriptor,
    is_class_name, is_field_descriptor, is_method_descriptor, is_method_name, is_modified_utf8,
    is_unqualified_name, kind_of, read_desc, slots, units_of,
};
use std::alloc::{AllocError, Global};
use std::test::Fail;

// A text, and whether it is an unqualified name, a method's name and a class's (JVMS 4.2).
const NAMES: [(&[u8], (bool, bool, bool)); 9] = [
    (b"<init>", (true, true, true)),
    (b"<clinit>", (true, true, true)),
    (b"", (false, false, false)),
    (b"a/b", (false, false, true)),
    (b"a<b", (true, false, true)),
    (b"java/lang/Thread", (false, false, true)),
    (b"a//b", (false, false, false)),
    (b"/a", (false, false, false)),
    (b"a/", (false, false, false)),
];

fn names_of(text: &[u8]) -> (bool, bool, bool) {
    (
        is_unqualified_name(text),
        is_method_name(text),
        is_class_name(text),
    )
}

#[test]
fn names(rt: HostRuntime) {
    for (text, wanted) in &NAMES {
        assert!(rt; names_of(text) == *wanted);
    }
}

// A text, and its units or the place where bytes spell none (JVMS 4.4.7).
const TEXTS: [(&[u8], Result<&[u16], u32>); 8] = [
    (b"", Ok(&[])),
    (b"\xc0\x80", Ok(&[0])),
    (b"\xed\xa0\x81", Ok(&[0xd801])),
    (b"A\xc3\xa9\xe2\x82\xac", Ok(&[0x41, 0xe9, 0x20ac])),
    (b"A\0", Err(1)),
    (b"\xc0\x81", Err(0)),
    (b"\xe0\x80\x80", Err(0)),
    (b"A\xe2\x82", Err(1)),
];

fn is_spelled(alloc: Global, text: &[u8], wanted: Result<&[u16], u32>) -> bool {
    if text.len() > 99 {
        return false;
    }
    match (units_of(alloc, text), wanted) {
        (Ok(units), Ok(wanted)) => is_modified_utf8(text) && units.as_slice() == wanted,
        (Err(TextError::NotModifiedUtf8(place)), Err(wanted)) => {
            !is_modified_utf8(text) && place == wanted
        }
        _ => false,
    }
}

#[test]
fn texts(rt: HostRuntime) {
    for (text, wanted) in &TEXTS {
        assert!(rt; is_spelled(rt.alloc(), text, *wanted));
    }
}

// A text, and whether it is the descriptor of a field, of a method and of an array (JVMS 4.3).
const DESCRIPTORS: [(&[u8], (bool, bool, bool)); 16] = [
    (b"", (false, false, false)),
    (b"I", (true, false, false)),
    (b"[[[D", (true, false, true)),
    (b"Ljava/lang/Object;", (true, false, false)),
    (
        b"(IDLjava/lang/Thread;)Ljava/lang/Object;",
        (false, true, false),
    ),
    (b"([BJ)V", (false, true, false)),
    (b"()V", (false, true, false)),
    (b"[", (false, false, false)),
    (b"[V", (false, false, false)),
    (b"V", (false, false, false)),
    (b"L;", (false, false, false)),
    (b"La//b;", (false, false, false)),
    (b"La;b", (false, false, false)),
    (b"La", (false, false, false)),
    (b"()", (false, false, false)),
    (b"(V)V", (false, false, false)),
];

fn describes(text: &[u8]) -> (bool, bool, bool) {
    (
        is_field_descriptor(text),
        is_method_descriptor(text),
        is_array_descriptor(text),
    )
}

// Whether the text is read, as a field's and as a method's.
fn reads(alloc: Global, text: &[u8]) -> (bool, bool) {
    let found = read_desc(alloc, text);
    (
        matches!(&found, Ok(Desc::Field(_))),
        matches!(&found, Ok(Desc::Method { .. })),
    )
}

#[test]
fn descriptors(rt: HostRuntime) {
    for (text, wanted) in &DESCRIPTORS {
        assert!(rt; describes(text) == *wanted && reads(rt.alloc(), text) == (wanted.0, wanted.1));
    }
}

// The prefix, the unit, how many of it, the suffix, and whether that is the descriptor of a field and of a method.
const LIMITS: [(&[u8], u8, usize, &[u8], (bool, bool)); 4] = [
    (b"", b'[', 255, b"I", (true, false)),
    (b"", b'[', 256, b"I", (false, false)),
    (b"(I", b'J', 127, b")V", (false, true)),
    (b"(", b'J', 128, b")V", (false, false)),
];

fn repeated(
    alloc: Global,
    prefix: &[u8],
    unit: u8,
    count: usize,
    back: &[u8],
) -> Result<Bytes, AllocError> {
    let mut text = Bytes::from_slice(alloc, prefix)?;
    for _ in 0..count {
        text.push(unit)?;
    }
    text.extend(back)?;
    Ok(text)
}

fn is_limit(alloc: Global, text: &[u8], wanted: (bool, bool)) -> bool {
    describes(text) == (wanted.0, wanted.1, wanted.0) && reads(alloc, text) == wanted
}

#[test]
fn limits(rt: HostRuntime) {
    for (prefix, unit, count, back, wanted) in &LIMITS {
        let text = repeated(rt.alloc(), prefix, *unit, *count, back);
        assert!(rt; matches!(&text, Ok(text) if is_limit(rt.alloc(), text.as_slice(), *wanted)));
    }
}

// Whether two parameters are an array and a long.
fn are_array_and_long(params: &[Ty]) -> bool {
    match params {
        [array, long] => {
            array.dims == 1
                && kind_of(array) == Some(Kind::Ref)
                && kind_of(long) == Some(Kind::Long)
        }
        _ => false,
    }
}

#[test]
fn parts(rt: HostRuntime) -> Result<(), Fail> {
    let desc = read_desc(rt.alloc(), b"([BJ)V")?;
    assert!(rt; slots(&desc) == 3);
    assert!(rt;
        matches!(&desc, Desc::Method { params, ret: None } if are_array_and_long(params.as_slice()))
    );
    Ok(())
}

fn names_grow(alloc: Global) -> Result<bool, AllocError> {
    let mut name = Name::from_slice(alloc, b"ab")?;
    name.push(b'c')?;
    name.extend(b"de")?;
    Ok(name.as_slice() == b"abcde".as_slice() && Name::new(alloc).as_slice().is_empty())
}

fn bytes_grow(alloc: Global) -> Result<bool, AllocError> {
    let mut bytes = Bytes::new(alloc);
    bytes.push(b'a')?;
    bytes.extend(b"bc")?;
    Ok(bytes.as_slice() == b"abc".as_slice())
}

fn units_grow(alloc: Global) -> Result<bool, AllocError> {
    let mut units = Units::from_slice(alloc, &[1])?;
    units.push(65535)?;
    Ok(units.as_slice() == [1, 65535].as_slice())
}

fn types_grow(alloc: Global) -> Result<bool, AllocError> {
    let mut types = Tys::new(alloc);
    types.push(Ty {
        dims: 0,
        of: Of::Base(Base::Double),
    })?;
    Ok(types.as_slice().len() == 1)
}

#[test]
fn lists_grow(rt: HostRuntime) {
    assert!(rt; matches!(names_grow(rt.alloc()), Ok(true)));
    assert!(rt; matches!(bytes_grow(rt.alloc()), Ok(true)));
    assert!(rt; matches!(units_grow(rt.alloc()), Ok(true)));
    assert!(rt; matches!(types_grow(rt.alloc()), Ok(true)));
}
