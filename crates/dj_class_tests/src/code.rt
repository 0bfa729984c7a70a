use crate::parts::Part::*;
use crate::parts::{ALOAD_0, ARETURN, NOP, Part, RETURN, bytes_of};
use dj_class::{ClassError, CodeView, read_code};
use std::alloc::Global;

// A body with two rows and two attributes.
#[rattlefmt::skip]
const WHOLE: &[Part] = &[
    Limits(2, 3), Length(2), Bytes(&[ALOAD_0, ARETURN]),
    Rows(2), Row(0, 1, 1, 0), Row(0, 2, 0, 7),
    Attributes(2),
    Attribute(9, 2), Bytes(b"ab"),
    Attribute(0, 0),
];

// Its first bytes, from this many to fewer than this many, and what is refused then.
const CUTS: [(usize, usize, ClassError); 19] = [
    (0, 2, ClassError::Cut(0)),
    (2, 4, ClassError::Cut(2)),
    (4, 8, ClassError::Cut(4)),
    (8, 10, ClassError::Cut(8)),
    (10, 12, ClassError::Cut(10)),
    (12, 14, ClassError::Cut(12)),
    (14, 16, ClassError::Cut(14)),
    (16, 18, ClassError::Cut(16)),
    (18, 20, ClassError::Cut(18)),
    (20, 22, ClassError::Cut(20)),
    (22, 24, ClassError::Cut(22)),
    (24, 26, ClassError::Cut(24)),
    (26, 28, ClassError::Cut(26)),
    (28, 30, ClassError::Cut(28)),
    (30, 32, ClassError::Cut(30)),
    (32, 36, ClassError::Cut(32)),
    (36, 38, ClassError::Cut(36)),
    (38, 40, ClassError::Cut(38)),
    (40, 44, ClassError::Cut(40)),
];

#[rattlefmt::skip]
const REFUSED: [(&[Part], ClassError); 11] = [
    (
        &[
            Limits(2, 3), Length(2), Bytes(&[ALOAD_0, ARETURN]), Rows(2), Row(0, 1, 1, 0),
            Row(0, 2, 0, 7), Attributes(2), Attribute(9, 2), Bytes(b"ab"), Attribute(0, 0),
            Bytes(&[0]),
        ],
        ClassError::Trailing(44),
    ),
    (
        &[
            Limits(2, 3), Length(2), Bytes(&[ALOAD_0, ARETURN]), Rows(2), Row(0, 1, 1, 0),
            Row(0, 2, 0, 7), Attributes(2), Attribute(9, 2), Bytes(b"ab"), Attribute(0, 0),
            Bytes(b"abc"),
        ],
        ClassError::Trailing(44),
    ),
    (&[Limits(1, 1), Length(0), Rows(0), Attributes(0)], ClassError::Index(4)),
    (&[Limits(1, 1), Length(2), Bytes(&[RETURN]), Rows(0), Attributes(0)], ClassError::Cut(12)),
    (
        &[Limits(1, 1), Length(0x0001_0000), Bytes(&[RETURN]), Rows(0), Attributes(0)],
        ClassError::Index(4),
    ),
    (
        &[Limits(1, 1), Length(0x8000_0001), Bytes(&[RETURN]), Rows(0), Attributes(0)],
        ClassError::Index(4),
    ),
    (
        &[Limits(1, 1), Length(0xffff_ffff), Bytes(&[RETURN]), Rows(0), Attributes(0)],
        ClassError::Index(4),
    ),
    (&[Limits(0, 0), Length(65_535)], ClassError::Cut(8)),
    (
        &[
            Limits(1, 1), Length(1), Bytes(&[NOP]), Rows(2), Row(0, 0, 0, 0),
            Bytes(&[0, 0, 0, 0, 0, 0, 0]),
        ],
        ClassError::Cut(25),
    ),
    (
        &[
            Limits(1, 1), Length(1), Bytes(&[NOP]), Rows(0), Attributes(1),
            Attribute(1, 0xffff_ffff),
        ],
        ClassError::Cut(19),
    ),
    (
        &[Limits(1, 1), Length(1), Bytes(&[NOP]), Rows(0), Attributes(2), Attribute(1, 0)],
        ClassError::Cut(19),
    ),
];

// A body, and the stack, the locals, the code, the rows and the attributes.
#[rattlefmt::skip]
pub const READ: [(&[Part], &str); 5] = [
    (
        WHOLE,
        "2 3 [42, 176] [CatchRow { start: 0, end: 1, handler: 1, catch_type: 0 }, CatchRow { start: 0, end: 2, handler: 0, catch_type: 7 }] [Attribute { name: 9, body: [97, 98] }, Attribute { name: 0, body: [] }]",
    ),
    (&[Limits(1, 1), Length(1), Bytes(&[RETURN]), Rows(0), Attributes(0)], "1 1 [177] [] []"),
    (
        &[Limits(1, 1), Length(3), Bytes(&[RETURN, RETURN, RETURN]), Rows(0), Attributes(0)],
        "1 1 [177, 177, 177] [] []",
    ),
    (
        &[
            Limits(65_535, 65_535), Length(1), Bytes(&[NOP]), Rows(1),
            Row(65_535, 65_535, 65_535, 65_535), Attributes(0),
        ],
        "65535 65535 [0] [CatchRow { start: 65535, end: 65535, handler: 65535, catch_type: 65535 }] []",
    ),
    (
        &[Limits(1, 1), Length(2), Bytes(&[ALOAD_0, ARETURN]), Rows(0), Attributes(0)],
        "1 1 [42, 176] [] []",
    ),
];

fn refusal(alloc: Global, body: &[u8]) -> Option<ClassError> {
    if body.len() > 9_999 {
        return None;
    }
    read_code(alloc, body).err()
}

fn is_prefix_refused(alloc: Global, body: &[u8], len: usize, wanted: ClassError) -> bool {
    match body.get(..len) {
        Some(prefix) => refusal(alloc, prefix) == Some(wanted),
        None => false,
    }
}

fn are_prefixes_refused(
    alloc: Global,
    body: &[u8],
    from: usize,
    to: usize,
    wanted: ClassError,
) -> bool {
    for len in from..to {
        if !is_prefix_refused(alloc, body, len, wanted) {
            return false;
        }
    }
    true
}

fn shows(alloc: Global, view: &CodeView<'_>, wanted: &str) -> bool {
    match format!(in alloc;
        "{} {} {:?} {:?} {:?}",
        view.max_stack,
        view.max_locals,
        view.code,
        view.table.as_slice(),
        view.attributes.as_slice()
    ) {
        Ok(shown) => shown.as_str() == wanted,
        Err(_) => false,
    }
}

fn is_read(alloc: Global, body: &[u8], wanted: &str) -> bool {
    if body.len() > 9_999 {
        return false;
    }
    match read_code(alloc, body) {
        Ok(view) => shows(alloc, &view, wanted),
        Err(_) => false,
    }
}

#[test]
fn cuts(rt: HostRuntime) {
    let body = bytes_of(rt.alloc(), WHOLE);
    for (from, to, wanted) in &CUTS {
        assert!(rt;
            matches!(&body, Ok(body) if are_prefixes_refused(rt.alloc(), body, *from, *to, *wanted))
        );
    }
}

#[test]
fn refused(rt: HostRuntime) {
    for (parts, wanted) in &REFUSED {
        let body = bytes_of(rt.alloc(), parts);
        assert!(rt; matches!(&body, Ok(body) if refusal(rt.alloc(), body) == Some(*wanted)));
    }
}

#[test]
fn read(rt: HostRuntime) {
    for (parts, wanted) in &READ {
        let body = bytes_of(rt.alloc(), parts);
        assert!(rt; matches!(&body, Ok(body) if is_read(rt.alloc(), body, wanted)));
    }
}
