use crate::calls::{are_asked, are_kept};
use crate::few::Few;
use crate::rows::After::FirstIs;
use crate::rows::Argument::{Builder, Int, Null, Numbers, Object, Same, Text};
use crate::rows::WantedAnswer::{GivesInt, GivesText, Raises};
use crate::rows::{AskedCall, KeepingCall};
use dj_names::NativeId::{
    StringCharAt, StringCompareTo, StringCompareToObject, StringEquals, StringHashCode,
    StringIsEmpty, StringLength, StringStartsWith, StringToString,
};
use dj_names::{Element, Raised};

// Methods of String that make no object.
const TEXTS: [AskedCall; 50] = [
    (StringLength, &[Text(b"")], GivesInt(0), 16),
    (StringIsEmpty, &[Text(b"")], GivesInt(1), 16),
    (StringHashCode, &[Text(b"")], GivesInt(0), 16),
    (StringLength, &[Text(b"a")], GivesInt(1), 24),
    (StringIsEmpty, &[Text(b"a")], GivesInt(0), 24),
    (StringHashCode, &[Text(b"a")], GivesInt(97), 24),
    (StringLength, &[Text(b"abc")], GivesInt(3), 24),
    (StringIsEmpty, &[Text(b"abc")], GivesInt(0), 24),
    (StringHashCode, &[Text(b"abc")], GivesInt(96354), 24),
    (
        StringLength,
        &[Text(b"\xc0\x80\xef\xbf\xbf")],
        GivesInt(2),
        24,
    ),
    (
        StringIsEmpty,
        &[Text(b"\xc0\x80\xef\xbf\xbf")],
        GivesInt(0),
        24,
    ),
    (
        StringHashCode,
        &[Text(b"\xc0\x80\xef\xbf\xbf")],
        GivesInt(65535),
        24,
    ),
    (
        StringLength,
        &[Text(b"polygenelubricants")],
        GivesInt(18),
        56,
    ),
    (
        StringIsEmpty,
        &[Text(b"polygenelubricants")],
        GivesInt(0),
        56,
    ),
    (
        StringHashCode,
        &[Text(b"polygenelubricants")],
        GivesInt(i32::MIN),
        56,
    ),
    (StringToString, &[Text(b"ab")], GivesText(1, b"ab"), 24),
    (StringCharAt, &[Text(b"abc"), Int(0)], GivesInt(97), 24),
    (StringCharAt, &[Text(b"abc"), Int(2)], GivesInt(99), 24),
    (
        StringCharAt,
        &[Text(b"\xef\xbf\xbf"), Int(0)],
        GivesInt(65535),
        24,
    ),
    (
        StringCharAt,
        &[Text(b"abc"), Int(3)],
        Raises(Raised::StringIndexOutOfBounds),
        24,
    ),
    (
        StringCharAt,
        &[Text(b"abc"), Int(-1)],
        Raises(Raised::StringIndexOutOfBounds),
        24,
    ),
    (
        StringCharAt,
        &[Text(b""), Int(0)],
        Raises(Raised::StringIndexOutOfBounds),
        16,
    ),
    (
        StringCharAt,
        &[Text(b"abc"), Int(i32::MAX)],
        Raises(Raised::StringIndexOutOfBounds),
        24,
    ),
    (
        StringCharAt,
        &[Text(b"abc"), Int(i32::MIN)],
        Raises(Raised::StringIndexOutOfBounds),
        24,
    ),
    (StringEquals, &[Text(b"abc"), Text(b"abc")], GivesInt(1), 48),
    (StringEquals, &[Text(b"abc"), Text(b"abd")], GivesInt(0), 48),
    (StringEquals, &[Text(b"abc"), Text(b"ab")], GivesInt(0), 48),
    (StringEquals, &[Text(b""), Text(b"")], GivesInt(1), 32),
    (StringEquals, &[Text(b"a"), Same(0)], GivesInt(1), 24),
    (StringEquals, &[Text(b"a"), Null], GivesInt(0), 24),
    (
        StringEquals,
        &[Text(b"a"), Numbers(b"[C", Element::Char, &[97])],
        GivesInt(0),
        48,
    ),
    (
        StringCompareTo,
        &[Text(b"abc"), Text(b"abd")],
        GivesInt(-1),
        48,
    ),
    (
        StringCompareTo,
        &[Text(b"abc"), Text(b"abc")],
        GivesInt(0),
        48,
    ),
    (
        StringCompareTo,
        &[Text(b"abc"), Text(b"ab")],
        GivesInt(1),
        48,
    ),
    (
        StringCompareTo,
        &[Text(b"ab"), Text(b"abc")],
        GivesInt(-1),
        48,
    ),
    (StringCompareTo, &[Text(b""), Text(b"")], GivesInt(0), 32),
    (StringCompareTo, &[Text(b""), Text(b"x")], GivesInt(-1), 40),
    (
        StringCompareTo,
        &[Text(b"\xef\xbf\xbf"), Text(b"a")],
        GivesInt(65438),
        48,
    ),
    (
        StringCompareTo,
        &[Text(b"b"), Text(b"aaaa")],
        GivesInt(1),
        48,
    ),
    (
        StringCompareTo,
        &[Text(b"a"), Null],
        Raises(Raised::NullPointer),
        24,
    ),
    (
        StringCompareToObject,
        &[Text(b"a"), Text(b"b")],
        GivesInt(-1),
        48,
    ),
    (
        StringCompareToObject,
        &[Text(b"a"), Null],
        Raises(Raised::NullPointer),
        24,
    ),
    (
        StringCompareToObject,
        &[Text(b"a"), Object(b"A", 0)],
        Raises(Raised::ClassCast),
        40,
    ),
    (
        StringStartsWith,
        &[Text(b"abc"), Text(b"ab")],
        GivesInt(1),
        48,
    ),
    (
        StringStartsWith,
        &[Text(b"abc"), Text(b"")],
        GivesInt(1),
        40,
    ),
    (
        StringStartsWith,
        &[Text(b"abc"), Text(b"abc")],
        GivesInt(1),
        48,
    ),
    (
        StringStartsWith,
        &[Text(b"abc"), Text(b"abcd")],
        GivesInt(0),
        48,
    ),
    (
        StringStartsWith,
        &[Text(b"abc"), Text(b"b")],
        GivesInt(0),
        48,
    ),
    (StringStartsWith, &[Text(b""), Text(b"")], GivesInt(1), 32),
    (
        StringStartsWith,
        &[Text(b"a"), Null],
        Raises(Raised::NullPointer),
        24,
    ),
];

// Methods of String that make no object, which change something.
const TEXTS_KEPT: [KeepingCall; 2] = [
    (
        StringEquals,
        &[Text(b""), Builder(None)],
        GivesInt(0),
        (40, 40),
        FirstIs(2, None),
    ),
    (
        StringCompareToObject,
        &[Text(b"a"), Builder(Some(b"a"))],
        Raises(Raised::ClassCast),
        (72, 72),
        FirstIs(3, Some(b"a")),
    ),
];

#[test]
fn texts_are_read(rt: HostRuntime) {
    let few = Few { boxed: false };
    assert!(rt; are_asked(rt.alloc(), &few, &TEXTS));
    assert!(rt; are_kept(rt.alloc(), &few, &TEXTS_KEPT));
}
