use crate::class::A;
use crate::parts::Part::*;
use crate::parts::{
    CLASS, DOUBLE, DYNAMIC, FIELD, FLOAT, HANDLE, INTEGER, INTERFACE_METHOD, LONG, METHOD,
    METHOD_TYPE, NAME_AND_TYPE, Part, TEXT, UTF8, bytes_of,
};
use dj_pool::{Pool, PoolError, read_pool};
use std::alloc::Global;

// The place of the count, the file, the place after the last entry, and the entries.
#[rattlefmt::skip]
const READ_1: [(u32, &[Part], u32, &str); 24] = [
    (0, &[Count(1)], 2, "[]"),
    (0, &[Count(1), Bytes(b"zz")], 2, "[]"),
    (3, &[Bytes(&[0, 0, 0]), Count(1)], 5, "[]"),
    (0, &[Count(2), Utf8(b"")], 5, "[Utf8([])]"),
    (
        0,
        &[Count(2), Utf8(b"a\xc0\x80\xe2\x82\xac"), Bytes(&[255])],
        11,
        "[Utf8([97, 192, 128, 226, 130, 172])]",
    ),
    (0, &[Count(2), Integer(-1)], 7, "[Integer(-1)]"),
    (0, &[Count(2), Integer(2_147_483_647)], 7, "[Integer(2147483647)]"),
    (0, &[Count(2), Float(0x7fc0_0000)], 7, "[Float(2143289344)]"),
    (0, &[Count(3), Long(-1)], 11, "[Long(-1), Hole]"),
    (0, &[Count(3), Double(0x8000_0000_0000_0000)], 11, "[Double(9223372036854775808), Hole]"),
    (0, &[Count(3), Class(2), Utf8(b"A")], 9, "[Class(2), Utf8([65])]"),
    (
        0,
        &[Count(3), Class(2), Utf8(b"[[La/B;")],
        15,
        "[Class(2), Utf8([91, 91, 76, 97, 47, 66, 59])]",
    ),
    (0, &[Count(3), Text(2), Utf8(b"")], 8, "[Text(2), Utf8([])]"),
    (0, &[Count(3), MethodType(2), Utf8(b"()V")], 11, "[MethodType(2), Utf8([40, 41, 86])]"),
    (
        0,
        &[Count(4), NameAndType(2, 3), Utf8(b"x"), Utf8(b"I")],
        15,
        "[NameAndType(2, 3), Utf8([120]), Utf8([73])]",
    ),
    (
        0,
        &[Count(4), NameAndType(2, 3), Utf8(b"<init>"), Utf8(b"()V")],
        22,
        "[NameAndType(2, 3), Utf8([60, 105, 110, 105, 116, 62]), Utf8([40, 41, 86])]",
    ),
    (
        0,
        &[Count(7), Field(2, 3), Class(4), NameAndType(5, 6), Utf8(b"A"), Utf8(b"x"), Utf8(b"J")],
        27,
        "[Field(2, 3), Class(4), NameAndType(5, 6), Utf8([65]), Utf8([120]), Utf8([74])]",
    ),
    (
        0,
        &[
            Count(7), Method(2, 3), Class(4), NameAndType(5, 6), Utf8(b"A"), Utf8(b"x"),
            Utf8(b"(J)V"),
        ],
        30,
        "[Method(2, 3), Class(4), NameAndType(5, 6), Utf8([65]), Utf8([120]), Utf8([40, 74, 41, 86])]",
    ),
    (
        0,
        &[
            Count(7), InterfaceMethod(2, 3), Class(4), NameAndType(5, 6), Utf8(b"[I"),
            Utf8(b"<clinit>"), Utf8(b"()I"),
        ],
        37,
        "[InterfaceMethod(2, 3), Class(4), NameAndType(5, 6), Utf8([91, 73]), Utf8([60, 99, 108, 105, 110, 105, 116, 62]), Utf8([40, 41, 73])]",
    ),
    (
        0,
        &[Count(5), Dynamic(65_535, 2), NameAndType(3, 4), Utf8(b"x"), Utf8(b"()V")],
        22,
        "[Dynamic(65535, 2), NameAndType(3, 4), Utf8([120]), Utf8([40, 41, 86])]",
    ),
    (
        0,
        &[
            Count(8), Handle(0, 2), Field(3, 4), Class(5), NameAndType(6, 7), Utf8(b"A"),
            Utf8(b"x"), Utf8(b"I"),
        ],
        31,
        "[Handle(0, 2), Field(3, 4), Class(5), NameAndType(6, 7), Utf8([65]), Utf8([120]), Utf8([73])]",
    ),
    (
        5,
        &[
            Bytes(&[0, 0, 0, 0, 0]), Count(8), Handle(255, 2), InterfaceMethod(3, 4), Class(5),
            NameAndType(6, 7), Utf8(b"A"), Utf8(b"x"), Utf8(b"()I"), Bytes(&[7, 7]),
        ],
        38,
        "[Handle(255, 2), InterfaceMethod(3, 4), Class(5), NameAndType(6, 7), Utf8([65]), Utf8([120]), Utf8([40, 41, 73])]",
    ),
    (
        0,
        &[Count(7), Long(1), Utf8(b"x"), Double(1), Text(3)],
        27,
        "[Long(1), Hole, Utf8([120]), Double(1), Hole, Text(3)]",
    ),
    (0, &[Count(4), Utf8(b"x"), Long(1)], 15, "[Utf8([120]), Long(1), Hole]"),
];

#[rattlefmt::skip]
const READ_2: [(u32, &[Part], u32, &str); 11] = [
    (
        0,
        &[Count(7), Long(1), Long(1), Long(1)],
        29,
        "[Long(1), Hole, Long(1), Hole, Long(1), Hole]",
    ),
    (
        0,
        &[
            Count(3), Class(2),
            Utf8(b"[[[[[[[[[[[[[[[[[[[[[[[[[[[[[[[[[[[[[[[[[[[[[[[[[[[[[[[[[[[[[[[[[[[[[[[[[[[[[[[[[[[[[[[[[[[[[[[[[[[[[[[[[[[[[[[[[[[[[[[[[[[[[[[[[[[[[[[[[[[[[[[[[[[[[[[[[[[[[[[[[[[[[[[[[[[[[[[[[[[[[[[[[[[[[[[[[[[[[[[[[[[[[[[[[[[[[[[[[[[[[[[[[[[[[[[[[[[[[[[[[[[[[[[[[[[[[[[I"),
        ],
        264,
        "[Class(2), Utf8([91, 91, 91, 91, 91, 91, 91, 91, 91, 91, 91, 91, 91, 91, 91, 91, 91, 91, 91, 91, 91, 91, 91, 91, 91, 91, 91, 91, 91, 91, 91, 91, 91, 91, 91, 91, 91, 91, 91, 91, 91, 91, 91, 91, 91, 91, 91, 91, 91, 91, 91, 91, 91, 91, 91, 91, 91, 91, 91, 91, 91, 91, 91, 91, 91, 91, 91, 91, 91, 91, 91, 91, 91, 91, 91, 91, 91, 91, 91, 91, 91, 91, 91, 91, 91, 91, 91, 91, 91, 91, 91, 91, 91, 91, 91, 91, 91, 91, 91, 91, 91, 91, 91, 91, 91, 91, 91, 91, 91, 91, 91, 91, 91, 91, 91, 91, 91, 91, 91, 91, 91, 91, 91, 91, 91, 91, 91, 91, 91, 91, 91, 91, 91, 91, 91, 91, 91, 91, 91, 91, 91, 91, 91, 91, 91, 91, 91, 91, 91, 91, 91, 91, 91, 91, 91, 91, 91, 91, 91, 91, 91, 91, 91, 91, 91, 91, 91, 91, 91, 91, 91, 91, 91, 91, 91, 91, 91, 91, 91, 91, 91, 91, 91, 91, 91, 91, 91, 91, 91, 91, 91, 91, 91, 91, 91, 91, 91, 91, 91, 91, 91, 91, 91, 91, 91, 91, 91, 91, 91, 91, 91, 91, 91, 91, 91, 91, 91, 91, 91, 91, 91, 91, 91, 91, 91, 91, 91, 91, 91, 91, 91, 91, 91, 91, 91, 91, 91, 91, 91, 91, 91, 91, 91, 91, 91, 91, 91, 91, 91, 91, 91, 91, 91, 91, 91, 73])]",
    ),
    (0, &[Count(3), Class(2), Utf8(b"[La;")], 12, "[Class(2), Utf8([91, 76, 97, 59])]"),
    (0, &[Count(3), Class(2), Utf8(b"<x>")], 11, "[Class(2), Utf8([60, 120, 62])]"),
    (
        0,
        &[Count(4), NameAndType(2, 3), Utf8(b"<x>"), Utf8(b"I")],
        17,
        "[NameAndType(2, 3), Utf8([60, 120, 62]), Utf8([73])]",
    ),
    (
        0,
        &[Count(4), NameAndType(2, 3), Utf8(b"<init>"), Utf8(b"I")],
        20,
        "[NameAndType(2, 3), Utf8([60, 105, 110, 105, 116, 62]), Utf8([73])]",
    ),
    (
        0,
        &[Count(4), NameAndType(2, 3), Utf8(b"<clinit>"), Utf8(b"(I)J")],
        25,
        "[NameAndType(2, 3), Utf8([60, 99, 108, 105, 110, 105, 116, 62]), Utf8([40, 73, 41, 74])]",
    ),
    (
        0,
        &[Count(7), Field(2, 3), Class(4), NameAndType(5, 6), Utf8(b"A"), Utf8(b"<x>"), Utf8(b"J")],
        29,
        "[Field(2, 3), Class(4), NameAndType(5, 6), Utf8([65]), Utf8([60, 120, 62]), Utf8([74])]",
    ),
    (
        0,
        &[
            Count(7), InterfaceMethod(2, 3), Class(4), NameAndType(5, 6), Utf8(b"A"), Utf8(b"x"),
            Utf8(b"(J)V"),
        ],
        30,
        "[InterfaceMethod(2, 3), Class(4), NameAndType(5, 6), Utf8([65]), Utf8([120]), Utf8([40, 74, 41, 86])]",
    ),
    (
        8,
        A,
        64,
        "[Utf8([65]), Class(1), Utf8([106, 97, 118, 97, 47, 108, 97, 110, 103, 47, 79, 98, 106, 101, 99, 116]), Class(3), Utf8([118, 101, 114, 105, 102, 121]), Utf8([40, 91, 66, 41, 91, 66]), Utf8([67, 111, 100, 101])]",
    ),
    (
        8,
        &[
            Magic(0xcafe_babe), Version(0, 52), Count(8),
            Utf8(b"A"), Class(1), Utf8(b"java/lang/Object"), Class(3), Utf8(b"verify"),
            Utf8(b"([B)[B"), Utf8(b"Code"),
        ],
        64,
        "[Utf8([65]), Class(1), Utf8([106, 97, 118, 97, 47, 108, 97, 110, 103, 47, 79, 98, 106, 101, 99, 116]), Class(3), Utf8([118, 101, 114, 105, 102, 121]), Utf8([40, 91, 66, 41, 91, 66]), Utf8([67, 111, 100, 101])]",
    ),
];

// The place of the count, the file, and what is refused.
#[rattlefmt::skip]
const CUT_1: [(u32, &[Part], PoolError); 40] = [
    (0, &[], PoolError::Cut(0)),
    (0, &[Bytes(&[0])], PoolError::Cut(0)),
    (3, &[Bytes(&[0, 0, 0])], PoolError::Cut(3)),
    (3, &[Bytes(&[0, 0, 0]), Bytes(&[0])], PoolError::Cut(3)),
    (4, &[Bytes(&[0, 0, 0, 0]), Bytes(&[0])], PoolError::Cut(4)),
    (0, &[Count(3), Bytes(&[UTF8])], PoolError::Cut(3)),
    (0, &[Count(3), Bytes(&[UTF8, 0])], PoolError::Cut(3)),
    (0, &[Count(3), Bytes(&[INTEGER])], PoolError::Cut(3)),
    (0, &[Count(3), Bytes(&[INTEGER, 0])], PoolError::Cut(3)),
    (0, &[Count(3), Bytes(&[INTEGER, 0, 0])], PoolError::Cut(3)),
    (0, &[Count(3), Bytes(&[INTEGER, 0, 0, 0])], PoolError::Cut(3)),
    (0, &[Count(3), Bytes(&[FLOAT])], PoolError::Cut(3)),
    (0, &[Count(3), Bytes(&[FLOAT, 0])], PoolError::Cut(3)),
    (0, &[Count(3), Bytes(&[FLOAT, 0, 0])], PoolError::Cut(3)),
    (0, &[Count(3), Bytes(&[FLOAT, 0, 0, 0])], PoolError::Cut(3)),
    (0, &[Count(3), Bytes(&[LONG])], PoolError::Cut(3)),
    (0, &[Count(3), Bytes(&[LONG, 0])], PoolError::Cut(3)),
    (0, &[Count(3), Bytes(&[LONG, 0, 0, 0, 0])], PoolError::Cut(3)),
    (0, &[Count(3), Bytes(&[LONG, 0, 0, 0, 0, 0, 0, 0])], PoolError::Cut(3)),
    (0, &[Count(3), Bytes(&[DOUBLE])], PoolError::Cut(3)),
    (0, &[Count(3), Bytes(&[DOUBLE, 0])], PoolError::Cut(3)),
    (0, &[Count(3), Bytes(&[DOUBLE, 0, 0, 0, 0])], PoolError::Cut(3)),
    (0, &[Count(3), Bytes(&[DOUBLE, 0, 0, 0, 0, 0, 0, 0])], PoolError::Cut(3)),
    (0, &[Count(3), Bytes(&[CLASS])], PoolError::Cut(3)),
    (0, &[Count(3), Bytes(&[CLASS, 0])], PoolError::Cut(3)),
    (0, &[Count(3), Bytes(&[TEXT])], PoolError::Cut(3)),
    (0, &[Count(3), Bytes(&[TEXT, 0])], PoolError::Cut(3)),
    (0, &[Count(3), Bytes(&[FIELD])], PoolError::Cut(3)),
    (0, &[Count(3), Bytes(&[FIELD, 0])], PoolError::Cut(3)),
    (0, &[Count(3), Bytes(&[FIELD, 0, 0])], PoolError::Cut(5)),
    (0, &[Count(3), Bytes(&[FIELD, 0, 0, 0])], PoolError::Cut(5)),
    (0, &[Count(3), Bytes(&[METHOD])], PoolError::Cut(3)),
    (0, &[Count(3), Bytes(&[METHOD, 0])], PoolError::Cut(3)),
    (0, &[Count(3), Bytes(&[METHOD, 0, 0])], PoolError::Cut(5)),
    (0, &[Count(3), Bytes(&[METHOD, 0, 0, 0])], PoolError::Cut(5)),
    (0, &[Count(3), Bytes(&[INTERFACE_METHOD])], PoolError::Cut(3)),
    (0, &[Count(3), Bytes(&[INTERFACE_METHOD, 0])], PoolError::Cut(3)),
    (0, &[Count(3), Bytes(&[INTERFACE_METHOD, 0, 0])], PoolError::Cut(5)),
    (0, &[Count(3), Bytes(&[INTERFACE_METHOD, 0, 0, 0])], PoolError::Cut(5)),
    (0, &[Count(3), Bytes(&[NAME_AND_TYPE])], PoolError::Cut(3)),
];

#[rattlefmt::skip]
const CUT_2: [(u32, &[Part], PoolError); 19] = [
    (0, &[Count(3), Bytes(&[NAME_AND_TYPE, 0])], PoolError::Cut(3)),
    (0, &[Count(3), Bytes(&[NAME_AND_TYPE, 0, 0])], PoolError::Cut(5)),
    (0, &[Count(3), Bytes(&[NAME_AND_TYPE, 0, 0, 0])], PoolError::Cut(5)),
    (0, &[Count(3), Bytes(&[HANDLE])], PoolError::Cut(3)),
    (0, &[Count(3), Bytes(&[HANDLE, 0])], PoolError::Cut(4)),
    (0, &[Count(3), Bytes(&[HANDLE, 0, 0])], PoolError::Cut(4)),
    (0, &[Count(3), Bytes(&[METHOD_TYPE])], PoolError::Cut(3)),
    (0, &[Count(3), Bytes(&[METHOD_TYPE, 0])], PoolError::Cut(3)),
    (0, &[Count(3), Bytes(&[DYNAMIC])], PoolError::Cut(3)),
    (0, &[Count(3), Bytes(&[DYNAMIC, 0])], PoolError::Cut(3)),
    (0, &[Count(3), Bytes(&[DYNAMIC, 0, 0])], PoolError::Cut(5)),
    (0, &[Count(3), Bytes(&[DYNAMIC, 0, 0, 0])], PoolError::Cut(5)),
    (0, &[Count(2), Bytes(&[UTF8, 0, 3, b'a', b'b'])], PoolError::Cut(5)),
    (0, &[Count(2), Bytes(&[UTF8, 255, 255, b'a', b'b'])], PoolError::Cut(5)),
    (0, &[Count(3), Utf8(b"ab")], PoolError::Cut(7)),
    (0, &[Count(9), Utf8(b"ab"), Class(1)], PoolError::Cut(10)),
    (0, &[Count(2)], PoolError::Cut(2)),
    (0, &[Count(4), Class(9), Utf8(b"A")], PoolError::Cut(9)),
    (
        8,
        &[
            Magic(0xcafe_babe), Version(0, 52), Count(8),
            Utf8(b"A"), Class(1), Utf8(b"java/lang/Object"), Class(3), Utf8(b"verify"),
            Utf8(b"([B)[B"), Bytes(&[UTF8, 0, 4]), Bytes(b"Cod"),
        ],
        PoolError::Cut(60),
    ),
];

#[rattlefmt::skip]
const TAGS_AND_TEXTS: [(u32, &[Part], PoolError); 22] = [
    (0, &[Count(2), Bytes(&[0, 0, 0, 0, 0, 0, 0, 0, 0])], PoolError::Tag(2)),
    (0, &[Count(2), Bytes(&[2, 0, 0, 0, 0, 0, 0, 0, 0])], PoolError::Tag(2)),
    (0, &[Count(2), Bytes(&[13, 0, 0, 0, 0, 0, 0, 0, 0])], PoolError::Tag(2)),
    (0, &[Count(2), Bytes(&[14, 0, 0, 0, 0, 0, 0, 0, 0])], PoolError::Tag(2)),
    (0, &[Count(2), Bytes(&[17, 0, 0, 0, 0, 0, 0, 0, 0])], PoolError::Tag(2)),
    (0, &[Count(2), Bytes(&[19, 0, 0, 0, 0, 0, 0, 0, 0])], PoolError::Tag(2)),
    (0, &[Count(2), Bytes(&[20, 0, 0, 0, 0, 0, 0, 0, 0])], PoolError::Tag(2)),
    (0, &[Count(2), Bytes(&[64, 0, 0, 0, 0, 0, 0, 0, 0])], PoolError::Tag(2)),
    (0, &[Count(2), Bytes(&[128, 0, 0, 0, 0, 0, 0, 0, 0])], PoolError::Tag(2)),
    (0, &[Count(2), Bytes(&[255, 0, 0, 0, 0, 0, 0, 0, 0])], PoolError::Tag(2)),
    (0, &[Count(0)], PoolError::Tag(0)),
    (2, &[Bytes(&[255, 255]), Count(0)], PoolError::Tag(2)),
    (0, &[Count(0), Bytes(&[255])], PoolError::Tag(0)),
    (0, &[Count(3), Utf8(b"a"), Bytes(&[2])], PoolError::Tag(6)),
    (0, &[Count(4), Long(1), Bytes(&[0])], PoolError::Tag(11)),
    (0, &[Count(3), Bytes(&[2, 1, 0, 1, 128])], PoolError::Tag(2)),
    (0, &[Count(4), Class(9), Utf8(b"A"), Bytes(&[19])], PoolError::Tag(9)),
    (0, &[Count(2), Utf8(b"\0")], PoolError::Text(1)),
    (0, &[Count(3), Utf8(b"a"), Utf8(b"\xc3A")], PoolError::Text(2)),
    (0, &[Count(3), Utf8(b"\x80"), Bytes(&[2])], PoolError::Text(1)),
    (0, &[Count(3), Class(9), Utf8(b"\xff")], PoolError::Text(2)),
    (0, &[Count(4), Long(1), Utf8(b"\0")], PoolError::Text(3)),
];

#[rattlefmt::skip]
const LINK_1: [(u32, &[Part], PoolError); 40] = [
    (0, &[Count(3), Class(2), Integer(7)], PoolError::Link(1)),
    (0, &[Count(2), Long(1)], PoolError::Link(1)),
    (0, &[Count(2), Double(1)], PoolError::Link(1)),
    (0, &[Count(3), Utf8(b"a"), Long(1)], PoolError::Link(2)),
    (0, &[Count(4), Long(1), Long(1)], PoolError::Link(3)),
    (0, &[Count(3), Class(9), Long(1)], PoolError::Link(1)),
    (0, &[Count(4), Utf8(b"a"), Class(9), Long(1)], PoolError::Link(2)),
    (0, &[Count(2), Class(0)], PoolError::Link(1)),
    (0, &[Count(2), Class(1)], PoolError::Link(1)),
    (0, &[Count(2), Class(2)], PoolError::Link(1)),
    (0, &[Count(4), Long(1), Class(2)], PoolError::Link(3)),
    (0, &[Count(4), Long(1), Text(2)], PoolError::Link(3)),
    (0, &[Count(3), Class(65_535), Utf8(b"A")], PoolError::Link(1)),
    (0, &[Count(3), Class(2), Utf8(b"")], PoolError::Link(1)),
    (0, &[Count(3), Class(2), Utf8(b"a//b")], PoolError::Link(1)),
    (0, &[Count(3), Class(2), Utf8(b"/a")], PoolError::Link(1)),
    (0, &[Count(3), Class(2), Utf8(b"a/")], PoolError::Link(1)),
    (0, &[Count(3), Class(2), Utf8(b"a.b")], PoolError::Link(1)),
    (0, &[Count(3), Class(2), Utf8(b"a;")], PoolError::Link(1)),
    (0, &[Count(3), Class(2), Utf8(b"a[")], PoolError::Link(1)),
    (0, &[Count(3), Class(2), Utf8(b"[")], PoolError::Link(1)),
    (0, &[Count(3), Class(2), Utf8(b"[V")], PoolError::Link(1)),
    (0, &[Count(3), Class(2), Utf8(b"[L;")], PoolError::Link(1)),
    (0, &[Count(3), Class(2), Utf8(b"[La")], PoolError::Link(1)),
    (
        0,
        &[
            Count(3), Class(2),
            Utf8(b"[[[[[[[[[[[[[[[[[[[[[[[[[[[[[[[[[[[[[[[[[[[[[[[[[[[[[[[[[[[[[[[[[[[[[[[[[[[[[[[[[[[[[[[[[[[[[[[[[[[[[[[[[[[[[[[[[[[[[[[[[[[[[[[[[[[[[[[[[[[[[[[[[[[[[[[[[[[[[[[[[[[[[[[[[[[[[[[[[[[[[[[[[[[[[[[[[[[[[[[[[[[[[[[[[[[[[[[[[[[[[[[[[[[[[[[[[[[[[[[[[[[[[[[[[[[[[[[[I"),
        ],
        PoolError::Link(1),
    ),
    (0, &[Count(3), Class(2), Utf8(b"LA;")], PoolError::Link(1)),
    (0, &[Count(3), Class(2), Utf8(b"[()V")], PoolError::Link(1)),
    (0, &[Count(3), Text(2), Integer(0)], PoolError::Link(1)),
    (0, &[Count(2), Text(0)], PoolError::Link(1)),
    (0, &[Count(2), Text(1)], PoolError::Link(1)),
    (0, &[Count(3), MethodType(2), Utf8(b"I")], PoolError::Link(1)),
    (0, &[Count(3), MethodType(2), Utf8(b"()")], PoolError::Link(1)),
    (0, &[Count(2), MethodType(1)], PoolError::Link(1)),
    (0, &[Count(4), NameAndType(2, 3), Utf8(b""), Utf8(b"I")], PoolError::Link(1)),
    (0, &[Count(4), NameAndType(2, 3), Utf8(b"a.b"), Utf8(b"I")], PoolError::Link(1)),
    (0, &[Count(4), NameAndType(2, 3), Utf8(b"a/b"), Utf8(b"I")], PoolError::Link(1)),
    (0, &[Count(4), NameAndType(2, 3), Utf8(b"a;b"), Utf8(b"I")], PoolError::Link(1)),
    (0, &[Count(4), NameAndType(2, 3), Utf8(b"["), Utf8(b"I")], PoolError::Link(1)),
    (0, &[Count(4), NameAndType(2, 3), Utf8(b"<x>"), Utf8(b"()V")], PoolError::Link(1)),
    (0, &[Count(4), NameAndType(2, 3), Utf8(b"x>"), Utf8(b"()V")], PoolError::Link(1)),
];

#[rattlefmt::skip]
const LINK_2: [(u32, &[Part], PoolError); 40] = [
    (0, &[Count(4), NameAndType(2, 3), Utf8(b"<init"), Utf8(b"()V")], PoolError::Link(1)),
    (0, &[Count(4), NameAndType(2, 3), Utf8(b"x"), Utf8(b"V")], PoolError::Link(1)),
    (0, &[Count(4), NameAndType(2, 3), Utf8(b"x"), Utf8(b"")], PoolError::Link(1)),
    (0, &[Count(4), NameAndType(2, 3), Utf8(b"x"), Utf8(b"()")], PoolError::Link(1)),
    (0, &[Count(4), NameAndType(2, 3), Utf8(b"x"), Utf8(b"La")], PoolError::Link(1)),
    (0, &[Count(4), NameAndType(2, 3), Utf8(b"x"), Utf8(b"(V)V")], PoolError::Link(1)),
    (0, &[Count(3), NameAndType(1, 2), Utf8(b"I")], PoolError::Link(1)),
    (0, &[Count(3), NameAndType(2, 1), Utf8(b"I")], PoolError::Link(1)),
    (0, &[Count(3), NameAndType(0, 2), Utf8(b"I")], PoolError::Link(1)),
    (0, &[Count(3), NameAndType(2, 9), Utf8(b"I")], PoolError::Link(1)),
    (
        0,
        &[
            Count(7), Field(2, 3), Class(4), NameAndType(5, 6), Utf8(b"A"), Utf8(b"x"),
            Utf8(b"(J)V"),
        ],
        PoolError::Link(1),
    ),
    (
        0,
        &[Count(7), Field(3, 3), Class(4), NameAndType(5, 6), Utf8(b"A"), Utf8(b"x"), Utf8(b"J")],
        PoolError::Link(1),
    ),
    (
        0,
        &[Count(7), Field(4, 3), Class(4), NameAndType(5, 6), Utf8(b"A"), Utf8(b"x"), Utf8(b"J")],
        PoolError::Link(1),
    ),
    (
        0,
        &[Count(7), Field(0, 3), Class(4), NameAndType(5, 6), Utf8(b"A"), Utf8(b"x"), Utf8(b"J")],
        PoolError::Link(1),
    ),
    (
        0,
        &[Count(7), Field(9, 3), Class(4), NameAndType(5, 6), Utf8(b"A"), Utf8(b"x"), Utf8(b"J")],
        PoolError::Link(1),
    ),
    (
        0,
        &[Count(7), Field(1, 3), Class(4), NameAndType(5, 6), Utf8(b"A"), Utf8(b"x"), Utf8(b"J")],
        PoolError::Link(1),
    ),
    (
        0,
        &[Count(7), Field(2, 2), Class(4), NameAndType(5, 6), Utf8(b"A"), Utf8(b"x"), Utf8(b"J")],
        PoolError::Link(1),
    ),
    (
        0,
        &[Count(7), Field(2, 5), Class(4), NameAndType(5, 6), Utf8(b"A"), Utf8(b"x"), Utf8(b"J")],
        PoolError::Link(1),
    ),
    (
        0,
        &[Count(7), Field(2, 0), Class(4), NameAndType(5, 6), Utf8(b"A"), Utf8(b"x"), Utf8(b"J")],
        PoolError::Link(1),
    ),
    (
        0,
        &[Count(7), Field(2, 1), Class(4), NameAndType(5, 6), Utf8(b"A"), Utf8(b"x"), Utf8(b"J")],
        PoolError::Link(1),
    ),
    (
        0,
        &[Count(7), Field(2, 3), Class(4), NameAndType(5, 6), Utf8(b"A"), Utf8(b"a.b"), Utf8(b"J")],
        PoolError::Link(3),
    ),
    (
        0,
        &[Count(7), Field(2, 3), Class(4), NameAndType(5, 6), Utf8(b"A"), Utf8(b"x"), Utf8(b"V")],
        PoolError::Link(1),
    ),
    (
        0,
        &[
            Count(7), Field(2, 3), Class(4), NameAndType(5, 6), Utf8(b"a//b"), Utf8(b"x"),
            Utf8(b"J"),
        ],
        PoolError::Link(2),
    ),
    (
        0,
        &[Count(7), Method(2, 3), Class(4), NameAndType(5, 6), Utf8(b"A"), Utf8(b"x"), Utf8(b"J")],
        PoolError::Link(1),
    ),
    (
        0,
        &[
            Count(7), Method(3, 3), Class(4), NameAndType(5, 6), Utf8(b"A"), Utf8(b"x"),
            Utf8(b"(J)V"),
        ],
        PoolError::Link(1),
    ),
    (
        0,
        &[
            Count(7), Method(4, 3), Class(4), NameAndType(5, 6), Utf8(b"A"), Utf8(b"x"),
            Utf8(b"(J)V"),
        ],
        PoolError::Link(1),
    ),
    (
        0,
        &[
            Count(7), Method(0, 3), Class(4), NameAndType(5, 6), Utf8(b"A"), Utf8(b"x"),
            Utf8(b"(J)V"),
        ],
        PoolError::Link(1),
    ),
    (
        0,
        &[
            Count(7), Method(9, 3), Class(4), NameAndType(5, 6), Utf8(b"A"), Utf8(b"x"),
            Utf8(b"(J)V"),
        ],
        PoolError::Link(1),
    ),
    (
        0,
        &[
            Count(7), Method(1, 3), Class(4), NameAndType(5, 6), Utf8(b"A"), Utf8(b"x"),
            Utf8(b"(J)V"),
        ],
        PoolError::Link(1),
    ),
    (
        0,
        &[
            Count(7), Method(2, 2), Class(4), NameAndType(5, 6), Utf8(b"A"), Utf8(b"x"),
            Utf8(b"(J)V"),
        ],
        PoolError::Link(1),
    ),
    (
        0,
        &[
            Count(7), Method(2, 5), Class(4), NameAndType(5, 6), Utf8(b"A"), Utf8(b"x"),
            Utf8(b"(J)V"),
        ],
        PoolError::Link(1),
    ),
    (
        0,
        &[
            Count(7), Method(2, 0), Class(4), NameAndType(5, 6), Utf8(b"A"), Utf8(b"x"),
            Utf8(b"(J)V"),
        ],
        PoolError::Link(1),
    ),
    (
        0,
        &[
            Count(7), Method(2, 1), Class(4), NameAndType(5, 6), Utf8(b"A"), Utf8(b"x"),
            Utf8(b"(J)V"),
        ],
        PoolError::Link(1),
    ),
    (
        0,
        &[
            Count(7), Method(2, 3), Class(4), NameAndType(5, 6), Utf8(b"A"), Utf8(b"a.b"),
            Utf8(b"(J)V"),
        ],
        PoolError::Link(3),
    ),
    (
        0,
        &[Count(7), Method(2, 3), Class(4), NameAndType(5, 6), Utf8(b"A"), Utf8(b"x"), Utf8(b"V")],
        PoolError::Link(1),
    ),
    (
        0,
        &[
            Count(7), Method(2, 3), Class(4), NameAndType(5, 6), Utf8(b"a//b"), Utf8(b"x"),
            Utf8(b"(J)V"),
        ],
        PoolError::Link(2),
    ),
    (
        0,
        &[
            Count(7), Method(2, 3), Class(4), NameAndType(5, 6), Utf8(b"A"), Utf8(b"<x>"),
            Utf8(b"(J)V"),
        ],
        PoolError::Link(3),
    ),
    (
        0,
        &[
            Count(7), InterfaceMethod(2, 3), Class(4), NameAndType(5, 6), Utf8(b"A"), Utf8(b"x"),
            Utf8(b"J"),
        ],
        PoolError::Link(1),
    ),
    (
        0,
        &[
            Count(7), InterfaceMethod(3, 3), Class(4), NameAndType(5, 6), Utf8(b"A"), Utf8(b"x"),
            Utf8(b"(J)V"),
        ],
        PoolError::Link(1),
    ),
    (
        0,
        &[
            Count(7), InterfaceMethod(4, 3), Class(4), NameAndType(5, 6), Utf8(b"A"), Utf8(b"x"),
            Utf8(b"(J)V"),
        ],
        PoolError::Link(1),
    ),
];

#[rattlefmt::skip]
const LINK_3: [(u32, &[Part], PoolError); 21] = [
    (
        0,
        &[
            Count(7), InterfaceMethod(0, 3), Class(4), NameAndType(5, 6), Utf8(b"A"), Utf8(b"x"),
            Utf8(b"(J)V"),
        ],
        PoolError::Link(1),
    ),
    (
        0,
        &[
            Count(7), InterfaceMethod(9, 3), Class(4), NameAndType(5, 6), Utf8(b"A"), Utf8(b"x"),
            Utf8(b"(J)V"),
        ],
        PoolError::Link(1),
    ),
    (
        0,
        &[
            Count(7), InterfaceMethod(1, 3), Class(4), NameAndType(5, 6), Utf8(b"A"), Utf8(b"x"),
            Utf8(b"(J)V"),
        ],
        PoolError::Link(1),
    ),
    (
        0,
        &[
            Count(7), InterfaceMethod(2, 2), Class(4), NameAndType(5, 6), Utf8(b"A"), Utf8(b"x"),
            Utf8(b"(J)V"),
        ],
        PoolError::Link(1),
    ),
    (
        0,
        &[
            Count(7), InterfaceMethod(2, 5), Class(4), NameAndType(5, 6), Utf8(b"A"), Utf8(b"x"),
            Utf8(b"(J)V"),
        ],
        PoolError::Link(1),
    ),
    (
        0,
        &[
            Count(7), InterfaceMethod(2, 0), Class(4), NameAndType(5, 6), Utf8(b"A"), Utf8(b"x"),
            Utf8(b"(J)V"),
        ],
        PoolError::Link(1),
    ),
    (
        0,
        &[
            Count(7), InterfaceMethod(2, 1), Class(4), NameAndType(5, 6), Utf8(b"A"), Utf8(b"x"),
            Utf8(b"(J)V"),
        ],
        PoolError::Link(1),
    ),
    (
        0,
        &[
            Count(7), InterfaceMethod(2, 3), Class(4), NameAndType(5, 6), Utf8(b"A"), Utf8(b"a.b"),
            Utf8(b"(J)V"),
        ],
        PoolError::Link(3),
    ),
    (
        0,
        &[
            Count(7), InterfaceMethod(2, 3), Class(4), NameAndType(5, 6), Utf8(b"A"), Utf8(b"x"),
            Utf8(b"V"),
        ],
        PoolError::Link(1),
    ),
    (
        0,
        &[
            Count(7), InterfaceMethod(2, 3), Class(4), NameAndType(5, 6), Utf8(b"a//b"), Utf8(b"x"),
            Utf8(b"(J)V"),
        ],
        PoolError::Link(2),
    ),
    (
        0,
        &[
            Count(7), InterfaceMethod(2, 3), Class(4), NameAndType(5, 6), Utf8(b"A"), Utf8(b"<x>"),
            Utf8(b"(J)V"),
        ],
        PoolError::Link(3),
    ),
    (0, &[Count(5), Dynamic(0, 2), NameAndType(3, 4), Utf8(b"x"), Utf8(b"I")], PoolError::Link(1)),
    (0, &[Count(2), Dynamic(0, 1)], PoolError::Link(1)),
    (0, &[Count(2), Dynamic(0, 9)], PoolError::Link(1)),
    (
        0,
        &[Count(5), Dynamic(0, 2), NameAndType(3, 4), Utf8(b"<x>"), Utf8(b"()V")],
        PoolError::Link(2),
    ),
    (0, &[Count(3), Handle(1, 0), Utf8(b"x")], PoolError::Link(1)),
    (0, &[Count(3), Handle(1, 1), Utf8(b"x")], PoolError::Link(1)),
    (0, &[Count(3), Handle(1, 2), Utf8(b"x")], PoolError::Link(1)),
    (0, &[Count(3), Handle(1, 9), Utf8(b"x")], PoolError::Link(1)),
    (
        0,
        &[Count(6), Handle(1, 2), Dynamic(0, 3), NameAndType(4, 5), Utf8(b"x"), Utf8(b"()V")],
        PoolError::Link(1),
    ),
    (0, &[Count(3), Handle(1, 2), Handle(1, 1)], PoolError::Link(1)),
];

// Whether the pool at the place is read so.
fn is_read(alloc: Global, at: u32, parts: &[Part], next: u32, entries: &str) -> bool {
    let Ok(file) = bytes_of(alloc, parts) else {
        return false;
    };
    if file.len() > 999 {
        return false;
    }
    match read_pool(alloc, &file, at) {
        Ok((pool, after)) => after == next && shows(alloc, &pool, entries),
        Err(_) => false,
    }
}

fn shows(alloc: Global, pool: &Pool<'_>, entries: &str) -> bool {
    match format!(in alloc; "{:?}", pool.as_slice()) {
        Ok(shown) => shown.as_str() == entries,
        Err(_) => false,
    }
}

fn refusal(alloc: Global, at: u32, parts: &[Part]) -> Option<PoolError> {
    let file = bytes_of(alloc, parts).ok()?;
    if file.len() > 999 {
        return None;
    }
    read_pool(alloc, &file, at).err()
}

#[test]
fn read_1(rt: HostRuntime) {
    for (at, parts, next, entries) in &READ_1 {
        assert!(rt; is_read(rt.alloc(), *at, parts, *next, entries));
    }
}

#[test]
fn read_2(rt: HostRuntime) {
    for (at, parts, next, entries) in &READ_2 {
        assert!(rt; is_read(rt.alloc(), *at, parts, *next, entries));
    }
}

#[test]
fn cut_1(rt: HostRuntime) {
    for (at, parts, wanted) in &CUT_1 {
        assert!(rt; refusal(rt.alloc(), *at, parts) == Some(*wanted));
    }
}

#[test]
fn cut_2(rt: HostRuntime) {
    for (at, parts, wanted) in &CUT_2 {
        assert!(rt; refusal(rt.alloc(), *at, parts) == Some(*wanted));
    }
}

#[test]
fn tags_and_texts(rt: HostRuntime) {
    for (at, parts, wanted) in &TAGS_AND_TEXTS {
        assert!(rt; refusal(rt.alloc(), *at, parts) == Some(*wanted));
    }
}

#[test]
fn link_1(rt: HostRuntime) {
    for (at, parts, wanted) in &LINK_1 {
        assert!(rt; refusal(rt.alloc(), *at, parts) == Some(*wanted));
    }
}

#[test]
fn link_2(rt: HostRuntime) {
    for (at, parts, wanted) in &LINK_2 {
        assert!(rt; refusal(rt.alloc(), *at, parts) == Some(*wanted));
    }
}

#[test]
fn link_3(rt: HostRuntime) {
    for (at, parts, wanted) in &LINK_3 {
        assert!(rt; refusal(rt.alloc(), *at, parts) == Some(*wanted));
    }
}
