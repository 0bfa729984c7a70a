use crate::parts::Part::*;
use crate::parts::{
    ABSTRACT, ALOAD_0, ARETURN, FINAL, LLOAD_0, POP2, PUBLIC, Part, RETURN, STATIC, SUPER,
    bytes_of, changed,
};
use dj_class::{Attribute, Attributes, ClassError, ClassView, MemberView, Members, read_class};
use dj_pool::PoolError;
use std::alloc::{AllocError, Global};

// The class A, with one method.
#[rattlefmt::skip]
pub const A: &[Part] = &[
    Magic(0xcafe_babe), Version(0, 52),
    Count(8),
    Utf8(b"A"), Class(1), Utf8(b"java/lang/Object"), Class(3),
    Utf8(b"verify"), Utf8(b"([B)[B"), Utf8(b"Code"),
    Heading(PUBLIC | SUPER, 2, 4), Interfaces(0), Fields(0),
    Methods(1),
    Member(PUBLIC | STATIC, 5, 6), Attributes(1),
    Attribute(7, 14), Limits(1, 1), Length(2), Bytes(&[ALOAD_0, ARETURN]), Rows(0), Attributes(0),
    Attributes(0),
];

// The places of parts of A.
const AT_MAGIC: usize = 0;

const AT_VERSION: usize = 1;

const AT_COUNT: usize = 2;

const AT_HEADING: usize = 10;

const AT_INTERFACES: usize = 11;

const AT_FIELDS: usize = 12;

const AT_METHODS: usize = 13;

const AT_MEMBER: usize = 14;

const AT_ATTRIBUTES_OF_METHOD: usize = 15;

const AT_ATTRIBUTE: usize = 16;

const AT_ATTRIBUTES_OF_CLASS: usize = 22;

const AT_END: usize = 23;

// A class with fields, methods and attributes of each.
#[rattlefmt::skip]
const RICH: &[Part] = &[
    Magic(0xcafe_babe), Version(3, 51),
    Count(28),
    Utf8(b"Rich"), Class(1), Long(0x0100_0000_0000), Double(5), Utf8(b"I"), Class(7),
    Utf8(b"ConstantValue"), Utf8(b"Deprecated"), Utf8(b"f"), Utf8(b"J"), Utf8(b"g"), Utf8(b"[[La;"),
    Utf8(b"Exceptions"), Utf8(b"LineNumberTable"), Utf8(b"StackMapTable"), Utf8(b"Code"),
    Utf8(b"Signature"), Utf8(b"m"), Utf8(b"(J)V"), Utf8(b"<clinit>"), Utf8(b"()V"),
    Utf8(b"SourceFile"), Utf8(b""), Utf8(b"java/lang/Object"), Class(26),
    Heading(PUBLIC | SUPER | ABSTRACT, 2, 27), Interfaces(2), Index(8), Index(8),
    Fields(2),
    Member(PUBLIC | STATIC | FINAL, 11, 12), Attributes(2),
    Attribute(9, 2), Bytes(&[0, 3]),
    Attribute(10, 0),
    Member(0, 13, 14), Attributes(0),
    Methods(2),
    Member(PUBLIC | STATIC, 20, 21), Attributes(3),
    Attribute(15, 4), Bytes(&[0, 1, 0, 8]),
    Attribute(18, 39), Limits(2, 2), Length(3), Bytes(&[LLOAD_0, POP2, RETURN]),
    Rows(1), Row(0, 1, 2, 0), Attributes(2),
    Attribute(16, 2), Bytes(&[0, 0]),
    Attribute(17, 2), Bytes(&[0, 0]),
    Attribute(19, 2), Bytes(&[0, 1]),
    Member(PUBLIC | ABSTRACT, 22, 23), Attributes(0),
    Attributes(3),
    Attribute(24, 2), Bytes(&[0, 1]),
    Attribute(25, 3), Bytes(b"xyz"),
    Attribute(24, 0),
];

// Its first bytes, from this many to fewer than this many, and what is refused then.
const CUTS_OF_A: [(usize, usize, ClassError); 37] = [
    (0, 4, ClassError::Cut(0)),
    (4, 6, ClassError::Cut(4)),
    (6, 8, ClassError::Cut(6)),
    (8, 10, ClassError::Pool(PoolError::Cut(8))),
    (10, 11, ClassError::Pool(PoolError::Cut(10))),
    (11, 13, ClassError::Pool(PoolError::Cut(11))),
    (13, 14, ClassError::Pool(PoolError::Cut(13))),
    (14, 15, ClassError::Pool(PoolError::Cut(14))),
    (15, 17, ClassError::Pool(PoolError::Cut(15))),
    (17, 18, ClassError::Pool(PoolError::Cut(17))),
    (18, 20, ClassError::Pool(PoolError::Cut(18))),
    (20, 36, ClassError::Pool(PoolError::Cut(20))),
    (36, 37, ClassError::Pool(PoolError::Cut(36))),
    (37, 39, ClassError::Pool(PoolError::Cut(37))),
    (39, 40, ClassError::Pool(PoolError::Cut(39))),
    (40, 42, ClassError::Pool(PoolError::Cut(40))),
    (42, 48, ClassError::Pool(PoolError::Cut(42))),
    (48, 49, ClassError::Pool(PoolError::Cut(48))),
    (49, 51, ClassError::Pool(PoolError::Cut(49))),
    (51, 57, ClassError::Pool(PoolError::Cut(51))),
    (57, 58, ClassError::Pool(PoolError::Cut(57))),
    (58, 60, ClassError::Pool(PoolError::Cut(58))),
    (60, 64, ClassError::Pool(PoolError::Cut(60))),
    (64, 66, ClassError::Cut(64)),
    (66, 68, ClassError::Cut(66)),
    (68, 70, ClassError::Cut(68)),
    (70, 72, ClassError::Cut(70)),
    (72, 74, ClassError::Cut(72)),
    (74, 76, ClassError::Cut(74)),
    (76, 78, ClassError::Cut(76)),
    (78, 80, ClassError::Cut(78)),
    (80, 82, ClassError::Cut(80)),
    (82, 84, ClassError::Cut(82)),
    (84, 86, ClassError::Cut(84)),
    (86, 90, ClassError::Cut(86)),
    (90, 104, ClassError::Cut(90)),
    (104, 106, ClassError::Cut(104)),
];

const CUTS_OF_RICH: [(usize, usize, ClassError); 47] = [
    (226, 228, ClassError::Cut(226)),
    (228, 230, ClassError::Cut(228)),
    (230, 232, ClassError::Cut(230)),
    (232, 234, ClassError::Cut(232)),
    (234, 236, ClassError::Cut(234)),
    (236, 238, ClassError::Cut(236)),
    (238, 240, ClassError::Cut(238)),
    (240, 242, ClassError::Cut(240)),
    (242, 244, ClassError::Cut(242)),
    (244, 246, ClassError::Cut(244)),
    (246, 248, ClassError::Cut(246)),
    (248, 250, ClassError::Cut(248)),
    (250, 254, ClassError::Cut(250)),
    (254, 256, ClassError::Cut(254)),
    (256, 258, ClassError::Cut(256)),
    (258, 262, ClassError::Cut(258)),
    (262, 264, ClassError::Cut(262)),
    (264, 266, ClassError::Cut(264)),
    (266, 268, ClassError::Cut(266)),
    (268, 270, ClassError::Cut(268)),
    (270, 272, ClassError::Cut(270)),
    (272, 274, ClassError::Cut(272)),
    (274, 276, ClassError::Cut(274)),
    (276, 278, ClassError::Cut(276)),
    (278, 280, ClassError::Cut(278)),
    (280, 282, ClassError::Cut(280)),
    (282, 286, ClassError::Cut(282)),
    (286, 290, ClassError::Cut(286)),
    (290, 292, ClassError::Cut(290)),
    (292, 296, ClassError::Cut(292)),
    (296, 335, ClassError::Cut(296)),
    (335, 337, ClassError::Cut(335)),
    (337, 341, ClassError::Cut(337)),
    (341, 343, ClassError::Cut(341)),
    (343, 345, ClassError::Cut(343)),
    (345, 347, ClassError::Cut(345)),
    (347, 349, ClassError::Cut(347)),
    (349, 351, ClassError::Cut(349)),
    (351, 353, ClassError::Cut(351)),
    (353, 355, ClassError::Cut(353)),
    (355, 359, ClassError::Cut(355)),
    (359, 361, ClassError::Cut(359)),
    (361, 363, ClassError::Cut(361)),
    (363, 367, ClassError::Cut(363)),
    (367, 370, ClassError::Cut(367)),
    (370, 372, ClassError::Cut(370)),
    (372, 376, ClassError::Cut(372)),
];

// A place among the parts of A, the part that is put there, and the fault that is reported.
#[rattlefmt::skip]
const REFUSED_CHANGES: [(usize, Part, ClassError); 38] = [
    (AT_END, Bytes(&[0]), ClassError::Trailing(106)),
    (AT_END, Bytes(&[202, 254]), ClassError::Trailing(106)),
    (AT_MAGIC, Magic(0xcaff_babe), ClassError::Magic),
    (AT_MAGIC, Magic(0xcafe_babf), ClassError::Magic),
    (AT_COUNT, Count(0), ClassError::Pool(PoolError::Tag(8))),
    (AT_COUNT, Count(1), ClassError::Index(12)),
    (AT_COUNT, Count(7), ClassError::Index(59)),
    (AT_COUNT, Count(9), ClassError::Pool(PoolError::Tag(64))),
    (AT_HEADING, Heading(PUBLIC | SUPER, 0, 4), ClassError::Index(66)),
    (AT_HEADING, Heading(PUBLIC | SUPER, 1, 4), ClassError::Index(66)),
    (AT_HEADING, Heading(PUBLIC | SUPER, 3, 4), ClassError::Index(66)),
    (AT_HEADING, Heading(PUBLIC | SUPER, 8, 4), ClassError::Index(66)),
    (AT_HEADING, Heading(PUBLIC | SUPER, 2, 5), ClassError::Index(68)),
    (AT_HEADING, Heading(PUBLIC | SUPER, 2, 9), ClassError::Index(68)),
    (AT_INTERFACES, Interfaces(1), ClassError::Index(72)),
    (AT_FIELDS, Fields(1), ClassError::Index(76)),
    (AT_METHODS, Methods(2), ClassError::Cut(106)),
    (AT_MEMBER, Member(PUBLIC | STATIC, 0, 6), ClassError::Index(78)),
    (AT_MEMBER, Member(PUBLIC | STATIC, 2, 6), ClassError::Index(78)),
    (AT_MEMBER, Member(PUBLIC | STATIC, 3, 6), ClassError::Index(78)),
    (AT_MEMBER, Member(PUBLIC | STATIC, 6, 6), ClassError::Index(78)),
    (AT_MEMBER, Member(PUBLIC | STATIC, 8, 6), ClassError::Index(78)),
    (AT_MEMBER, Member(PUBLIC | STATIC, 5, 5), ClassError::Index(80)),
    (AT_MEMBER, Member(PUBLIC | STATIC, 5, 0), ClassError::Index(80)),
    (AT_MEMBER, Member(PUBLIC | STATIC, 5, 7), ClassError::Index(80)),
    (AT_ATTRIBUTES_OF_METHOD, Attributes(0), ClassError::Index(86)),
    (AT_ATTRIBUTES_OF_METHOD, Attributes(2), ClassError::Index(104)),
    (AT_ATTRIBUTE, Attribute(0, 14), ClassError::Index(84)),
    (AT_ATTRIBUTE, Attribute(2, 14), ClassError::Index(84)),
    (AT_ATTRIBUTE, Attribute(4, 14), ClassError::Index(84)),
    (AT_ATTRIBUTE, Attribute(65_535, 14), ClassError::Index(84)),
    (AT_ATTRIBUTE, Attribute(7, 0x8000_000e), ClassError::Cut(90)),
    (AT_ATTRIBUTE, Attribute(7, 0xffff_000e), ClassError::Cut(90)),
    (AT_ATTRIBUTE, Attribute(7, 13), ClassError::Trailing(105)),
    (AT_ATTRIBUTE, Attribute(7, 15), ClassError::Cut(105)),
    (AT_ATTRIBUTE, Attribute(7, 16), ClassError::Cut(106)),
    (AT_ATTRIBUTES_OF_CLASS, Attributes(1), ClassError::Cut(106)),
    (AT_ATTRIBUTES_OF_CLASS, Attributes(256), ClassError::Cut(106)),
];

#[rattlefmt::skip]
const REFUSED: [(&[Part], ClassError); 25] = [
    (
        &[
            Magic(0xcafe_babe), Version(0, 52), Count(5),
            Utf8(b"[I"), Class(1), Utf8(b"java/lang/Object"), Class(3),
            Heading(PUBLIC | SUPER, 2, 4), Interfaces(0), Fields(0), Methods(0), Attributes(0),
        ],
        ClassError::Index(42),
    ),
    (
        &[
            Magic(0xcafe_babe), Version(0, 52), Count(5),
            Utf8(b"[LA;"), Class(1), Utf8(b"A"), Class(3),
            Heading(PUBLIC | SUPER, 4, 2), Interfaces(0), Fields(0), Methods(0), Attributes(0),
        ],
        ClassError::Index(31),
    ),
    (
        &[
            Magic(0xcafe_babe), Version(0, 52), Count(7),
            Utf8(b"[[I"), Class(1), Utf8(b"A"), Class(3), Utf8(b"java/lang/Object"), Class(5),
            Heading(PUBLIC | SUPER, 4, 6), Interfaces(1), Index(2), Fields(0), Methods(0),
            Attributes(0),
        ],
        ClassError::Index(56),
    ),
    (
        &[
            Magic(0xcafe_babe), Version(0, 52), Count(7),
            Utf8(b"A"), Class(1), Utf8(b"java/lang/Object"), Class(3), Utf8(b"B"), Class(5),
            Heading(PUBLIC | SUPER, 2, 4), Interfaces(2), Index(6), Index(0), Fields(0), Methods(0),
            Attributes(0),
        ],
        ClassError::Index(56),
    ),
    (
        &[
            Magic(0xcafe_babe), Version(0, 52), Count(7),
            Utf8(b"B"), Utf8(b"A"), Class(2), Utf8(b"java/lang/Object"), Class(4), Class(1),
            Heading(PUBLIC | SUPER, 3, 5), Interfaces(2), Index(6), Index(1), Fields(0), Methods(0),
            Attributes(0),
        ],
        ClassError::Index(56),
    ),
    (
        &[
            Magic(0xcafe_babe), Version(0, 52), Count(7),
            Utf8(b"x"), Utf8(b"()V"), Utf8(b"A"), Class(3), Utf8(b"java/lang/Object"), Class(5),
            Heading(PUBLIC | SUPER, 4, 6), Interfaces(0),
            Fields(1), Member(PUBLIC, 1, 2), Attributes(0), Methods(0), Attributes(0),
        ],
        ClassError::Index(63),
    ),
    (
        &[
            Magic(0xcafe_babe), Version(0, 52), Count(7),
            Utf8(b""), Utf8(b"I"), Utf8(b"A"), Class(3), Utf8(b"java/lang/Object"), Class(5),
            Heading(PUBLIC | SUPER, 4, 6), Interfaces(0),
            Fields(1), Member(PUBLIC, 1, 2), Attributes(0), Methods(0), Attributes(0),
        ],
        ClassError::Index(58),
    ),
    (
        &[
            Magic(0xcafe_babe), Version(0, 52), Count(7),
            Utf8(b"a.b"), Utf8(b"I"), Utf8(b"A"), Class(3), Utf8(b"java/lang/Object"), Class(5),
            Heading(PUBLIC | SUPER, 4, 6), Interfaces(0),
            Fields(1), Member(PUBLIC, 1, 2), Attributes(0), Methods(0), Attributes(0),
        ],
        ClassError::Index(61),
    ),
    (
        &[
            Magic(0xcafe_babe), Version(0, 52), Count(7),
            Utf8(b"x"), Utf8(b"V"), Utf8(b"A"), Class(3), Utf8(b"java/lang/Object"), Class(5),
            Heading(PUBLIC | SUPER, 4, 6), Interfaces(0),
            Fields(1), Member(PUBLIC, 1, 2), Attributes(0), Methods(0), Attributes(0),
        ],
        ClassError::Index(61),
    ),
    (
        &[
            Magic(0xcafe_babe), Version(0, 52), Count(7),
            Utf8(b"<x>"), Utf8(b"()V"), Utf8(b"A"), Class(3), Utf8(b"java/lang/Object"), Class(5),
            Heading(PUBLIC | SUPER, 4, 6), Interfaces(0), Fields(0),
            Methods(1), Member(PUBLIC, 1, 2), Attributes(0), Attributes(0),
        ],
        ClassError::Index(65),
    ),
    (
        &[
            Magic(0xcafe_babe), Version(0, 52), Count(7),
            Utf8(b"a<"), Utf8(b"()V"), Utf8(b"A"), Class(3), Utf8(b"java/lang/Object"), Class(5),
            Heading(PUBLIC | SUPER, 4, 6), Interfaces(0), Fields(0),
            Methods(1), Member(PUBLIC, 1, 2), Attributes(0), Attributes(0),
        ],
        ClassError::Index(64),
    ),
    (
        &[
            Magic(0xcafe_babe), Version(0, 52), Count(7),
            Utf8(b"x"), Utf8(b"I"), Utf8(b"A"), Class(3), Utf8(b"java/lang/Object"), Class(5),
            Heading(PUBLIC | SUPER, 4, 6), Interfaces(0), Fields(0),
            Methods(1), Member(PUBLIC, 1, 2), Attributes(0), Attributes(0),
        ],
        ClassError::Index(63),
    ),
    (
        &[
            Magic(0xcafe_babe), Version(0, 52), Count(7),
            Utf8(b"["), Utf8(b"()V"), Utf8(b"A"), Class(3), Utf8(b"java/lang/Object"), Class(5),
            Heading(PUBLIC | SUPER, 4, 6), Interfaces(0), Fields(0),
            Methods(1), Member(PUBLIC, 1, 2), Attributes(0), Attributes(0),
        ],
        ClassError::Index(63),
    ),
    (
        &[
            Magic(0xcafe_babe), Version(0, 52), Count(7),
            Utf8(b"Q"), Class(1), Utf8(b"A"), Class(3), Utf8(b"java/lang/Object"), Class(5),
            Heading(PUBLIC | SUPER, 4, 6), Interfaces(0), Fields(0), Methods(0),
            Attributes(1), Attribute(2, 0),
        ],
        ClassError::Index(60),
    ),
    (
        &[
            Magic(0xcafe_babe), Version(0, 52), Count(5),
            Utf8(b"A"), Class(1), Utf8(b"java/lang/Object"), Class(3),
            Heading(PUBLIC | SUPER, 2, 4), Interfaces(0), Fields(0), Methods(0),
            Attributes(1), Attribute(0, 0),
        ],
        ClassError::Index(53),
    ),
    (
        &[
            Magic(0xcafe_babe), Version(0, 52), Count(8),
            Utf8(b"X"), Utf8(b"m"), Utf8(b"I"), Utf8(b"A"), Class(4), Utf8(b"java/lang/Object"),
            Class(6),
            Heading(PUBLIC | SUPER, 5, 7), Interfaces(0),
            Fields(1), Member(PUBLIC | STATIC, 2, 3), Attributes(1), Attribute(1, 0xffff_ffff),
            Bytes(&[0, 0, 0, 0]),
        ],
        ClassError::Cut(75),
    ),
    (
        &[
            Magic(0xcafe_babe), Version(0, 52), Count(6),
            Utf8(b"X"), Utf8(b"A"), Class(2), Utf8(b"java/lang/Object"), Class(4),
            Heading(PUBLIC | SUPER, 3, 5), Interfaces(0), Fields(0), Methods(0),
            Attributes(1), Attribute(1, 4), Bytes(b"abc"),
        ],
        ClassError::Cut(63),
    ),
    (
        &[
            Magic(0xcafe_babe), Version(0, 52), Count(6),
            Utf8(b"X"), Utf8(b"A"), Class(2), Utf8(b"java/lang/Object"), Class(4),
            Heading(PUBLIC | SUPER, 3, 5), Interfaces(0), Fields(0), Methods(0),
            Attributes(1), Attribute(1, 2), Bytes(b"ab"), Bytes(b"c"),
        ],
        ClassError::Trailing(65),
    ),
    (&[Magic(0xcafe_babf)], ClassError::Magic),
    (&[Magic(0x0000_0000)], ClassError::Magic),
    (&[Magic(0xcafe_babe), Version(0, 52), Count(0)], ClassError::Pool(PoolError::Tag(8))),
    (&[Magic(0xcafe_babe), Version(0, 52), Count(1)], ClassError::Cut(10)),
    (&[Magic(0xcafe_babe), Version(0, 52), Count(1), Bytes(&[0, 0])], ClassError::Cut(12)),
    (&[Magic(0xcafe_babe), Version(0, 52), Count(1), Bytes(&[0, 0, 0, 0])], ClassError::Index(12)),
    (&[Magic(0xbeba_feca), Version(0, 52)], ClassError::Magic),
];

// A file, the versions, the length of the pool, the flags, the class and its superclass, and then the lists.
#[rattlefmt::skip]
pub const READ_FILES: [(&[Part], &str, &str); 10] = [
    (
        A,
        "0 52 7 33 2 4",
        "[] [] [MemberView { flags: 9, name: 5, desc: 6, attributes: Attributes { items: [Attribute { name: 7, body: [0, 1, 0, 1, 0, 0, 0, 2, 42, 176, 0, 0, 0, 0] }] } }] []",
    ),
    (
        RICH,
        "3 51 27 1057 2 27",
        "[8, 8] [MemberView { flags: 25, name: 11, desc: 12, attributes: Attributes { items: [Attribute { name: 9, body: [0, 3] }, Attribute { name: 10, body: [] }] } }, MemberView { flags: 0, name: 13, desc: 14, attributes: Attributes { items: [] } }] [MemberView { flags: 9, name: 20, desc: 21, attributes: Attributes { items: [Attribute { name: 15, body: [0, 1, 0, 8] }, Attribute { name: 18, body: [0, 2, 0, 2, 0, 0, 0, 3, 30, 88, 177, 0, 1, 0, 0, 0, 1, 0, 2, 0, 0, 0, 2, 0, 16, 0, 0, 0, 2, 0, 0, 0, 17, 0, 0, 0, 2, 0, 0] }, Attribute { name: 19, body: [0, 1] }] } }, MemberView { flags: 1025, name: 22, desc: 23, attributes: Attributes { items: [] } }] [Attribute { name: 24, body: [0, 1] }, Attribute { name: 25, body: [120, 121, 122] }, Attribute { name: 24, body: [] }]",
    ),
    (
        &[
            Magic(0xcafe_babe), Version(0, 52), Count(3),
            Utf8(b"A"), Class(1),
            Heading(PUBLIC | SUPER, 2, 0), Interfaces(0), Fields(0), Methods(0), Attributes(0),
        ],
        "0 52 2 33 2 0",
        "[] [] [] []",
    ),
    (
        &[
            Magic(0xcafe_babe), Version(65_535, 65_535), Count(5),
            Utf8(b"<x>"), Class(1), Utf8(b"("), Class(3),
            Heading(0xffff, 2, 4), Interfaces(0), Fields(0), Methods(0), Attributes(0),
        ],
        "65535 65535 4 65535 2 4",
        "[] [] [] []",
    ),
    (
        &[
            Magic(0xcafe_babe), Version(0, 52), Count(7),
            Utf8(b"<x>"), Utf8(b"I"), Utf8(b"A"), Class(3), Utf8(b"java/lang/Object"), Class(5),
            Heading(PUBLIC | SUPER, 4, 6), Interfaces(0),
            Fields(1), Member(PUBLIC, 1, 2), Attributes(0), Methods(0), Attributes(0),
        ],
        "0 52 6 33 4 6",
        "[] [MemberView { flags: 1, name: 1, desc: 2, attributes: Attributes { items: [] } }] [] []",
    ),
    (
        &[
            Magic(0xcafe_babe), Version(0, 52), Count(7),
            Utf8(b"a>"), Utf8(b"J"), Utf8(b"A"), Class(3), Utf8(b"java/lang/Object"), Class(5),
            Heading(PUBLIC | SUPER, 4, 6), Interfaces(0),
            Fields(1), Member(PUBLIC, 1, 2), Attributes(0), Methods(0), Attributes(0),
        ],
        "0 52 6 33 4 6",
        "[] [MemberView { flags: 1, name: 1, desc: 2, attributes: Attributes { items: [] } }] [] []",
    ),
    (
        &[
            Magic(0xcafe_babe), Version(0, 52), Count(7),
            Utf8(b"<init>"), Utf8(b"()V"), Utf8(b"A"), Class(3), Utf8(b"java/lang/Object"),
            Class(5),
            Heading(PUBLIC | SUPER, 4, 6), Interfaces(0), Fields(0),
            Methods(1), Member(PUBLIC, 1, 2), Attributes(0), Attributes(0),
        ],
        "0 52 6 33 4 6",
        "[] [] [MemberView { flags: 1, name: 1, desc: 2, attributes: Attributes { items: [] } }] []",
    ),
    (
        &[
            Magic(0xcafe_babe), Version(0, 52), Count(7),
            Utf8(b"<clinit>"), Utf8(b"(I)I"), Utf8(b"A"), Class(3), Utf8(b"java/lang/Object"),
            Class(5),
            Heading(PUBLIC | SUPER, 4, 6), Interfaces(0), Fields(0),
            Methods(1), Member(PUBLIC, 1, 2), Attributes(0), Attributes(0),
        ],
        "0 52 6 33 4 6",
        "[] [] [MemberView { flags: 1, name: 1, desc: 2, attributes: Attributes { items: [] } }] []",
    ),
    (
        &[
            Magic(0xcafe_babe), Version(0, 52), Count(6),
            Utf8(b"Z"), Utf8(b"A"), Class(2), Utf8(b"java/lang/Object"), Class(4),
            Heading(PUBLIC | SUPER, 3, 5), Interfaces(0), Fields(0), Methods(0),
            Attributes(3), Attribute(1, 1), Bytes(&[49]), Attribute(2, 0), Attribute(1, 1),
            Bytes(&[50]),
        ],
        "0 52 5 33 3 5",
        "[] [] [] [Attribute { name: 1, body: [49] }, Attribute { name: 2, body: [] }, Attribute { name: 1, body: [50] }]",
    ),
    (
        &[
            Magic(0xcafe_babe), Version(0, 52), Count(8),
            Utf8(b"Code"), Utf8(b"m"), Utf8(b"()V"), Utf8(b"A"), Class(4),
            Utf8(b"java/lang/Object"), Class(6),
            Heading(PUBLIC | SUPER, 5, 7), Interfaces(0), Fields(0),
            Methods(1), Member(PUBLIC | STATIC, 2, 3), Attributes(2), Attribute(1, 0),
            Attribute(1, 1), Bytes(b"x"), Attributes(0),
        ],
        "0 52 7 33 5 7",
        "[] [] [MemberView { flags: 9, name: 2, desc: 3, attributes: Attributes { items: [Attribute { name: 1, body: [] }, Attribute { name: 1, body: [120] }] } }] []",
    ),
];

// A place in A, another part there, and the same.
#[rattlefmt::skip]
pub const READ_CHANGES: [(usize, Part, &str, &str); 6] = [
    (
        AT_VERSION,
        Version(65_535, 52),
        "65535 52 7 33 2 4",
        "[] [] [MemberView { flags: 9, name: 5, desc: 6, attributes: Attributes { items: [Attribute { name: 7, body: [0, 1, 0, 1, 0, 0, 0, 2, 42, 176, 0, 0, 0, 0] }] } }] []",
    ),
    (
        AT_VERSION,
        Version(0, 0),
        "0 0 7 33 2 4",
        "[] [] [MemberView { flags: 9, name: 5, desc: 6, attributes: Attributes { items: [Attribute { name: 7, body: [0, 1, 0, 1, 0, 0, 0, 2, 42, 176, 0, 0, 0, 0] }] } }] []",
    ),
    (
        AT_HEADING,
        Heading(PUBLIC | SUPER, 2, 0),
        "0 52 7 33 2 0",
        "[] [] [MemberView { flags: 9, name: 5, desc: 6, attributes: Attributes { items: [Attribute { name: 7, body: [0, 1, 0, 1, 0, 0, 0, 2, 42, 176, 0, 0, 0, 0] }] } }] []",
    ),
    (
        AT_HEADING,
        Heading(PUBLIC | SUPER, 2, 2),
        "0 52 7 33 2 2",
        "[] [] [MemberView { flags: 9, name: 5, desc: 6, attributes: Attributes { items: [Attribute { name: 7, body: [0, 1, 0, 1, 0, 0, 0, 2, 42, 176, 0, 0, 0, 0] }] } }] []",
    ),
    (
        AT_MEMBER,
        Member(0xffff, 5, 6),
        "0 52 7 33 2 4",
        "[] [] [MemberView { flags: 65535, name: 5, desc: 6, attributes: Attributes { items: [Attribute { name: 7, body: [0, 1, 0, 1, 0, 0, 0, 2, 42, 176, 0, 0, 0, 0] }] } }] []",
    ),
    (
        AT_ATTRIBUTE,
        Attribute(5, 14),
        "0 52 7 33 2 4",
        "[] [] [MemberView { flags: 9, name: 5, desc: 6, attributes: Attributes { items: [Attribute { name: 5, body: [0, 1, 0, 1, 0, 0, 0, 2, 42, 176, 0, 0, 0, 0] }] } }] []",
    ),
];

fn refusal(alloc: Global, file: &[u8]) -> Option<ClassError> {
    if file.len() > 9_999 {
        return None;
    }
    read_class(alloc, file).err()
}

fn is_prefix_refused(alloc: Global, file: &[u8], len: usize, wanted: ClassError) -> bool {
    match file.get(..len) {
        Some(prefix) => refusal(alloc, prefix) == Some(wanted),
        None => false,
    }
}

fn are_prefixes_refused(
    alloc: Global,
    file: &[u8],
    from: usize,
    to: usize,
    wanted: ClassError,
) -> bool {
    for len in from..to {
        if !is_prefix_refused(alloc, file, len, wanted) {
            return false;
        }
    }
    true
}

fn shows_numbers(alloc: Global, view: &ClassView<'_>, numbers: &str) -> bool {
    match format!(in alloc;
        "{} {} {} {} {} {}",
        view.minor,
        view.major,
        view.pool.as_slice().len(),
        view.flags,
        view.this_class,
        view.super_class
    ) {
        Ok(shown) => shown.as_str() == numbers,
        Err(_) => false,
    }
}

fn shows_lists(alloc: Global, view: &ClassView<'_>, lists: &str) -> bool {
    let interfaces = view.interfaces.as_slice();
    let fields = view.fields.as_slice();
    let methods = view.methods.as_slice();
    let attributes = view.attributes.as_slice();
    match format!(in alloc;
        "{:?} {:?} {:?} {:?}",
        interfaces, fields, methods, attributes
    ) {
        Ok(shown) => shown.as_str() == lists,
        Err(_) => false,
    }
}

fn is_read(alloc: Global, file: &[u8], numbers: &str, lists: &str) -> bool {
    if file.len() > 9_999 {
        return false;
    }
    match read_class(alloc, file) {
        Ok(view) => shows_numbers(alloc, &view, numbers) && shows_lists(alloc, &view, lists),
        Err(_) => false,
    }
}

#[test]
fn cuts_of_a(rt: HostRuntime) {
    let file = bytes_of(rt.alloc(), A);
    for (from, to, wanted) in &CUTS_OF_A {
        assert!(rt;
            matches!(&file, Ok(file) if are_prefixes_refused(rt.alloc(), file, *from, *to, *wanted))
        );
    }
}

#[test]
fn cuts_of_rich(rt: HostRuntime) {
    let file = bytes_of(rt.alloc(), RICH);
    for (from, to, wanted) in &CUTS_OF_RICH {
        assert!(rt;
            matches!(&file, Ok(file) if are_prefixes_refused(rt.alloc(), file, *from, *to, *wanted))
        );
    }
}

#[test]
fn refused(rt: HostRuntime) {
    for (parts, wanted) in &REFUSED {
        let file = bytes_of(rt.alloc(), parts);
        assert!(rt; matches!(&file, Ok(file) if refusal(rt.alloc(), file) == Some(*wanted)));
    }
    for (place, part, wanted) in &REFUSED_CHANGES {
        let file = changed(rt.alloc(), A, *place, part);
        assert!(rt; matches!(&file, Ok(file) if refusal(rt.alloc(), file) == Some(*wanted)));
    }
}

#[test]
fn read(rt: HostRuntime) {
    for (parts, numbers, lists) in &READ_FILES {
        let file = bytes_of(rt.alloc(), parts);
        assert!(rt; matches!(&file, Ok(file) if is_read(rt.alloc(), file, numbers, lists)));
    }
    for (place, part, numbers, lists) in &READ_CHANGES {
        let file = changed(rt.alloc(), A, *place, part);
        assert!(rt; matches!(&file, Ok(file) if is_read(rt.alloc(), file, numbers, lists)));
    }
}

fn members_grow(alloc: Global) -> Result<bool, AllocError> {
    let mut attributes = Attributes::new(alloc);
    attributes.push(Attribute {
        name: 7,
        body: b"\0\x01",
    })?;
    let mut members = Members::new(alloc);
    members.push(MemberView {
        flags: 9,
        name: 5,
        desc: 6,
        attributes,
    })?;
    match members.as_slice() {
        [member] => Ok(member.access().is_static() && member.attributes.as_slice().len() == 1),
        _ => Ok(false),
    }
}

#[test]
fn lists_grow(rt: HostRuntime) {
    assert!(rt; matches!(members_grow(rt.alloc()), Ok(true)));
}
