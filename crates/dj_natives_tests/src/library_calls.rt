use crate::calls::{are_asked, are_done, are_kept, are_made};
use crate::few::Few;
use crate::rows::After::{Any, FieldsAre};
use crate::rows::Argument::{Int, Long, Null, Numbers, Object, References, Same, Text, Throwable};
use crate::rows::WantedAnswer::{Full, GivesInt, GivesLong, GivesNull, GivesText, Nothing, Stops};
use crate::rows::{AskedCall, KeepingCall, LimitedCall, MakingCall};
use dj_names::Element;
use dj_names::NativeId::{
    AbsInt, AbsLong, GetCause, GetMessage, IdentityHashCode, MaxInts, MaxLongs, MinInts, MinLongs,
    ObjectEquals, ObjectHashCode, ObjectNew, ObjectToString, ThrowableNew, ThrowableNewCause,
    ThrowableNewMessage,
};

// Methods of Object, and numbers of objects.
const OBJECTS: [AskedCall; 10] = [
    (ObjectNew, &[Object(b"java/lang/Object", 0)], Nothing, 16),
    (ObjectEquals, &[Object(b"A", 0), Same(0)], GivesInt(1), 16),
    (
        ObjectEquals,
        &[Object(b"A", 0), Object(b"A", 0)],
        GivesInt(0),
        32,
    ),
    (ObjectEquals, &[Text(b"a"), Text(b"a")], GivesInt(0), 48),
    (ObjectEquals, &[Object(b"A", 0), Null], GivesInt(0), 16),
    (ObjectHashCode, &[Object(b"A", 0)], GivesInt(1), 16),
    (
        ObjectHashCode,
        &[Throwable(b"java/lang/Error", Some(b"A"))],
        GivesInt(2),
        56,
    ),
    (IdentityHashCode, &[Null], GivesInt(0), 0),
    (IdentityHashCode, &[Object(b"A", 0)], GivesInt(1), 16),
    (IdentityHashCode, &[Text(b"abc")], GivesInt(1), 24),
];

// Methods of Object, and numbers of objects, which make something.
const OBJECTS_MADE: [MakingCall; 6] = [
    (
        ObjectToString,
        &[Object(b"A", 0)],
        GivesText(2, b"A@1"),
        (16, 40),
    ),
    (
        ObjectToString,
        &[Object(b"p/B$1", 0)],
        GivesText(2, b"p.B$1@1"),
        (16, 48),
    ),
    (
        ObjectToString,
        &[Object(b"\xc3\xa9\xe2\x82\xac/Q", 0)],
        GivesText(2, b"\xc3\xa9\xe2\x82\xac.Q@1"),
        (16, 48),
    ),
    (
        ObjectToString,
        &[Numbers(b"[B", Element::Byte, &[1, 2])],
        GivesText(2, b"[B@1"),
        (24, 48),
    ),
    (
        ObjectToString,
        &[References(b"[Ljava/lang/String;", &[Null])],
        GivesText(2, b"[Ljava.lang.String;@1"),
        (24, 88),
    ),
    (
        ObjectToString,
        &[Throwable(b"java/lang/Error", Some(b"A"))],
        GivesText(3, b"java.lang.Error@2"),
        (56, 112),
    ),
];

// Methods of Object, and numbers of objects, where little is left.
const OBJECTS_LIMITED: [LimitedCall; 4] = [
    (
        ObjectToString,
        (Some(23), 1_000_000),
        &[Object(b"A", 0)],
        Stops,
        (16, 16),
        24,
        Any,
    ),
    (
        ObjectToString,
        (Some(1000000), 39),
        &[Object(b"A", 0)],
        Full(16, 24),
        (16, 16),
        24,
        Any,
    ),
    (
        ObjectToString,
        (Some(24), 40),
        &[Object(b"A", 0)],
        GivesText(2, b"A@1"),
        (16, 40),
        24,
        Any,
    ),
    (
        ObjectToString,
        (None, 1_000_000),
        &[Object(b"A", 0)],
        GivesText(2, b"A@1"),
        (16, 40),
        0,
        Any,
    ),
];

// Methods of Throwable and the classes below it.
const THROWABLES: [AskedCall; 3] = [
    (
        GetMessage,
        &[Throwable(b"java/lang/Error", Some(b"A"))],
        GivesText(1, b"A"),
        56,
    ),
    (
        GetMessage,
        &[Throwable(b"java/lang/Error", None)],
        GivesNull,
        32,
    ),
    (
        GetCause,
        &[Throwable(b"java/lang/Error", Some(b"A"))],
        GivesNull,
        56,
    ),
];

// Methods of Throwable and the classes below it, which change something.
const THROWABLES_KEPT: [KeepingCall; 5] = [
    (
        ThrowableNew,
        &[Throwable(b"java/lang/Throwable", Some(b"A"))],
        Nothing,
        (56, 56),
        FieldsAre(2, None, 0),
    ),
    (
        ThrowableNewMessage,
        &[
            Throwable(b"java/lang/ArithmeticException", None),
            Text(b"m"),
        ],
        Nothing,
        (56, 56),
        FieldsAre(1, Some(b"m"), 0),
    ),
    (
        ThrowableNewMessage,
        &[Throwable(b"java/lang/Error", Some(b"A")), Null],
        Nothing,
        (56, 56),
        FieldsAre(2, None, 0),
    ),
    (
        ThrowableNewCause,
        &[
            Throwable(b"java/lang/Error", None),
            Text(b"m"),
            Object(b"java/lang/Exception", 2),
        ],
        Nothing,
        (88, 88),
        FieldsAre(1, Some(b"m"), 3),
    ),
    (
        ThrowableNewCause,
        &[Throwable(b"java/lang/Error", None), Null, Same(0)],
        Nothing,
        (32, 32),
        FieldsAre(1, None, 1),
    ),
];

// Methods of Math.
const NUMBERS: [AskedCall; 23] = [
    (AbsInt, &[Int(5)], GivesInt(5), 0),
    (AbsInt, &[Int(-5)], GivesInt(5), 0),
    (AbsInt, &[Int(0)], GivesInt(0), 0),
    (AbsInt, &[Int(i32::MAX)], GivesInt(i32::MAX), 0),
    (AbsInt, &[Int(i32::MIN)], GivesInt(i32::MIN), 0),
    (AbsLong, &[Long(5)], GivesLong(5), 0),
    (AbsLong, &[Long(-5)], GivesLong(5), 0),
    (AbsLong, &[Long(i64::MAX)], GivesLong(i64::MAX), 0),
    (AbsLong, &[Long(i64::MIN)], GivesLong(i64::MIN), 0),
    (MaxInts, &[Int(1), Int(2)], GivesInt(2), 0),
    (MaxInts, &[Int(2), Int(1)], GivesInt(2), 0),
    (MaxInts, &[Int(-1), Int(1)], GivesInt(1), 0),
    (
        MaxInts,
        &[Int(i32::MIN), Int(i32::MAX)],
        GivesInt(i32::MAX),
        0,
    ),
    (MaxLongs, &[Long(1), Long(2)], GivesLong(2), 0),
    (
        MaxLongs,
        &[Long(1099511627776), Long(-1)],
        GivesLong(1099511627776),
        0,
    ),
    (
        MaxLongs,
        &[Long(i64::MIN), Long(i64::MAX)],
        GivesLong(i64::MAX),
        0,
    ),
    (MinInts, &[Int(1), Int(2)], GivesInt(1), 0),
    (MinInts, &[Int(2), Int(1)], GivesInt(1), 0),
    (MinInts, &[Int(-1), Int(1)], GivesInt(-1), 0),
    (
        MinInts,
        &[Int(i32::MIN), Int(i32::MAX)],
        GivesInt(i32::MIN),
        0,
    ),
    (MinLongs, &[Long(1), Long(2)], GivesLong(1), 0),
    (MinLongs, &[Long(1099511627776), Long(-1)], GivesLong(-1), 0),
    (
        MinLongs,
        &[Long(i64::MIN), Long(i64::MAX)],
        GivesLong(i64::MIN),
        0,
    ),
];

#[test]
fn objects_have_numbers_and_names(rt: HostRuntime) {
    let few = Few { boxed: false };
    assert!(rt; are_asked(rt.alloc(), &few, &OBJECTS));
    assert!(rt; are_made(rt.alloc(), &few, &OBJECTS_MADE));
    assert!(rt; are_done(rt.alloc(), &few, &OBJECTS_LIMITED));
}

#[test]
fn throwables_keep_messages(rt: HostRuntime) {
    let few = Few { boxed: false };
    assert!(rt; are_asked(rt.alloc(), &few, &THROWABLES));
    assert!(rt; are_kept(rt.alloc(), &few, &THROWABLES_KEPT));
}

#[test]
fn numbers_are_compared(rt: HostRuntime) {
    let few = Few { boxed: false };
    assert!(rt; are_asked(rt.alloc(), &few, &NUMBERS));
}
