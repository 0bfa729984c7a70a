use crate::calls::{are_done, are_kept};
use crate::few::Few;
use crate::rows::After::FirstIs;
use crate::rows::Argument::{Builder, Int, Long, Null, Text};
use crate::rows::WantedAnswer::{Full, GivesInt, GivesObject, GivesText, Nothing, Raises, Stops};
use crate::rows::{KeepingCall, LimitedCall};
use dj_names::NativeId::{
    BuilderAppendBoolean, BuilderAppendChar, BuilderAppendInt, BuilderAppendLong,
    BuilderAppendText, BuilderCharAt, BuilderLength, BuilderNew, BuilderNewText, BuilderToString,
};
use dj_names::Raised;

// Methods of StringBuilder, which change something.
const BUILDERS_KEPT: [KeepingCall; 31] = [
    (
        BuilderNew,
        &[Builder(None)],
        Nothing,
        (24, 24),
        FirstIs(1, None),
    ),
    (
        BuilderNew,
        &[Builder(Some(b"A"))],
        Nothing,
        (48, 48),
        FirstIs(2, None),
    ),
    (
        BuilderNewText,
        &[Builder(None), Text(b"ab")],
        Nothing,
        (48, 48),
        FirstIs(1, Some(b"ab")),
    ),
    (
        BuilderNewText,
        &[Builder(None), Text(b"")],
        Nothing,
        (40, 40),
        FirstIs(1, Some(b"")),
    ),
    (
        BuilderNewText,
        &[Builder(None), Null],
        Raises(Raised::NullPointer),
        (24, 24),
        FirstIs(1, None),
    ),
    (
        BuilderAppendText,
        &[Builder(None), Text(b"ab")],
        GivesObject(1, b"java/lang/StringBuilder"),
        (48, 72),
        FirstIs(1, Some(b"ab")),
    ),
    (
        BuilderAppendText,
        &[Builder(Some(b"xy")), Text(b"ab")],
        GivesObject(2, b"java/lang/StringBuilder"),
        (72, 96),
        FirstIs(2, Some(b"xyab")),
    ),
    (
        BuilderAppendText,
        &[Builder(None), Text(b"")],
        GivesObject(1, b"java/lang/StringBuilder"),
        (40, 56),
        FirstIs(1, Some(b"")),
    ),
    (
        BuilderAppendText,
        &[Builder(Some(b"q")), Text(b"")],
        GivesObject(2, b"java/lang/StringBuilder"),
        (64, 88),
        FirstIs(2, Some(b"q")),
    ),
    (
        BuilderAppendText,
        &[Builder(None), Null],
        GivesObject(1, b"java/lang/StringBuilder"),
        (24, 48),
        FirstIs(1, Some(b"null")),
    ),
    (
        BuilderAppendText,
        &[Builder(Some(b"a")), Null],
        GivesObject(2, b"java/lang/StringBuilder"),
        (48, 80),
        FirstIs(2, Some(b"anull")),
    ),
    (
        BuilderAppendChar,
        &[Builder(None), Int(65)],
        GivesObject(1, b"java/lang/StringBuilder"),
        (24, 48),
        FirstIs(1, Some(b"A")),
    ),
    (
        BuilderAppendChar,
        &[Builder(Some(b"z")), Int(65601)],
        GivesObject(2, b"java/lang/StringBuilder"),
        (48, 72),
        FirstIs(2, Some(b"zA")),
    ),
    (
        BuilderAppendChar,
        &[Builder(None), Int(-1)],
        GivesObject(1, b"java/lang/StringBuilder"),
        (24, 48),
        FirstIs(1, Some(b"\xef\xbf\xbf")),
    ),
    (
        BuilderAppendInt,
        &[Builder(None), Int(i32::MIN)],
        GivesObject(1, b"java/lang/StringBuilder"),
        (24, 64),
        FirstIs(1, Some(b"-2147483648")),
    ),
    (
        BuilderAppendInt,
        &[Builder(Some(b"n")), Int(0)],
        GivesObject(2, b"java/lang/StringBuilder"),
        (48, 72),
        FirstIs(2, Some(b"n0")),
    ),
    (
        BuilderAppendLong,
        &[Builder(None), Long(i64::MIN)],
        GivesObject(1, b"java/lang/StringBuilder"),
        (24, 80),
        FirstIs(1, Some(b"-9223372036854775808")),
    ),
    (
        BuilderAppendLong,
        &[Builder(Some(b"ab")), Long(5)],
        GivesObject(2, b"java/lang/StringBuilder"),
        (48, 72),
        FirstIs(2, Some(b"ab5")),
    ),
    (
        BuilderAppendBoolean,
        &[Builder(None), Int(1)],
        GivesObject(1, b"java/lang/StringBuilder"),
        (24, 48),
        FirstIs(1, Some(b"true")),
    ),
    (
        BuilderAppendBoolean,
        &[Builder(Some(b"!")), Int(0)],
        GivesObject(2, b"java/lang/StringBuilder"),
        (48, 80),
        FirstIs(2, Some(b"!false")),
    ),
    (
        BuilderAppendBoolean,
        &[Builder(None), Int(2)],
        GivesObject(1, b"java/lang/StringBuilder"),
        (24, 56),
        FirstIs(1, Some(b"false")),
    ),
    (
        BuilderAppendBoolean,
        &[Builder(None), Int(-1)],
        GivesObject(1, b"java/lang/StringBuilder"),
        (24, 48),
        FirstIs(1, Some(b"true")),
    ),
    (
        BuilderLength,
        &[Builder(None)],
        GivesInt(0),
        (24, 24),
        FirstIs(1, None),
    ),
    (
        BuilderLength,
        &[Builder(Some(b"ABC"))],
        GivesInt(3),
        (48, 48),
        FirstIs(2, Some(b"ABC")),
    ),
    (
        BuilderCharAt,
        &[Builder(Some(b"AB")), Int(0)],
        GivesInt(65),
        (48, 48),
        FirstIs(2, Some(b"AB")),
    ),
    (
        BuilderCharAt,
        &[Builder(Some(b"AB")), Int(1)],
        GivesInt(66),
        (48, 48),
        FirstIs(2, Some(b"AB")),
    ),
    (
        BuilderCharAt,
        &[Builder(Some(b"AB")), Int(2)],
        Raises(Raised::StringIndexOutOfBounds),
        (48, 48),
        FirstIs(2, Some(b"AB")),
    ),
    (
        BuilderCharAt,
        &[Builder(Some(b"AB")), Int(-1)],
        Raises(Raised::StringIndexOutOfBounds),
        (48, 48),
        FirstIs(2, Some(b"AB")),
    ),
    (
        BuilderCharAt,
        &[Builder(None), Int(0)],
        Raises(Raised::StringIndexOutOfBounds),
        (24, 24),
        FirstIs(1, None),
    ),
    (
        BuilderToString,
        &[Builder(None)],
        GivesText(2, b""),
        (24, 40),
        FirstIs(1, None),
    ),
    (
        BuilderToString,
        &[Builder(Some(b"AB"))],
        GivesText(3, b"AB"),
        (48, 72),
        FirstIs(2, Some(b"AB")),
    ),
];

// Methods of StringBuilder, where little is left.
const BUILDERS_LIMITED: [LimitedCall; 3] = [
    (
        BuilderAppendInt,
        (Some(31), 1_000_000),
        &[Builder(Some(b"ab")), Int(345)],
        Stops,
        (48, 48),
        32,
        FirstIs(2, Some(b"ab")),
    ),
    (
        BuilderAppendInt,
        (Some(1000000), 79),
        &[Builder(Some(b"ab")), Int(345)],
        Full(48, 32),
        (48, 48),
        32,
        FirstIs(2, Some(b"ab")),
    ),
    (
        BuilderToString,
        (Some(23), 1_000_000),
        &[Builder(Some(b"AB"))],
        Stops,
        (48, 48),
        24,
        FirstIs(2, Some(b"AB")),
    ),
];

#[test]
fn builders_keep_texts(rt: HostRuntime) {
    let few = Few { boxed: false };
    assert!(rt; are_kept(rt.alloc(), &few, &BUILDERS_KEPT));
    assert!(rt; are_done(rt.alloc(), &few, &BUILDERS_LIMITED));
}
